//! The messages of OTLP traces, and their canonical text.
//!
//! A collector keeps spans as text, and sends them on as text. This crate has the messages that such text is read into,
//! and writes each of them in one way, so that texts can be compared byte by byte.
//!
//! A message is a struct with the name and the fields that OTLP gives it, of
//! `opentelemetry/proto/trace/v1/trace.proto`, `opentelemetry/proto/common/v1/common.proto`,
//! `opentelemetry/proto/resource/v1/resource.proto` and
//! `opentelemetry/proto/collector/trace/v1/trace_service.proto`. Contracts see one as a record of numbers and lists
//! (`specs/Data`), so that two messages with the same fields are the same wherever they lie in memory.
//!
//! The writers append the canonical text (`specs/Text`): known fields by rising number, each number as short as it can
//! be, what has its default left out, embedded messages always written, unknown fields after the known ones as they
//! were spelled.
//!
//! Whoever has texts of messages already, and no message in memory, writes what holds them with [`put_bytes_field`],
//! [`put_some_bytes`] and [`wrap_in_field`].
//!
//! It stands on `pb_wire`. The messages are those of OTLP 1.x, and the rules of their text are those of the Protocol
//! Buffers encoding guide (<https://protobuf.dev/programming-guides/encoding/>) for proto3.
#![tactic(auto)]

mod message;
mod octets;
mod repeated;
mod response;
mod span;
mod value;
mod write;

pub use message::{
    ExportTraceServiceRequest, InstrumentationScope, Resource, ResourceSpans, ScopeSpans,
};
pub use octets::Octets;
pub use repeated::Repeated;
pub use response::{ExportTracePartialSuccess, ExportTraceServiceResponse};
pub use span::{Event, Link, Span, Status};
pub use value::{AnyValue, AnyValueKind, ArrayValue, DoubleBits, KeyValue, KeyValueList};
pub use write::{
    put_bytes_field, put_some_bytes, wrap_in_field, write_request, write_resource, write_response,
    write_scope, write_span, write_status,
};
