//! Reading the messages of OTLP traces.
//!
//! A body is fields of protobuf wire text, and its value is a function of that list of fields (`specs/Value`): a field
//! that isn't repeated takes its last value, an embedded message that stands again is merged, repeated fields keep
//! their order, and fields that aren't known, and known ones with another wire type, are kept as they were spelled, or
//! dropped in a message that keeps none. `read_request` answers the value exactly where the body has one. Otherwise it
//! answers a fault that stands in the body, or `OutOfMemory` where a growth was refused. What `otlp_trace` wrote reads
//! back ([`written_reads_back`]). A message that stands in a body can be read by itself ([`read_span`] and the like).
//!
//! It stands on `pb_wire` and `otlp_trace`. The rules are those of the proto3 language guide and the Protocol Buffers
//! encoding guide, over the messages of OTLP 1.x.
#![tactic(auto)]

mod fault;
mod leaf;
mod message;
mod request;
mod response;
mod round_trip;
mod single;
mod span;
mod typed;
mod value;

pub use fault::ReadFault;
pub use message::messages_inside;
pub use request::{read_request, values_or_faults};
pub use response::{Partial, read_response, responses_or_faults};
pub use round_trip::{
    values_are_sound, written_reads_back, written_request_reads_back, written_resource_reads_back,
    written_response_reads_back, written_scope_reads_back, written_span_reads_back,
};
pub use single::{read_resource, read_resource_spans, read_scope, read_scope_spans, read_span};
pub use typed::{
    request_is_typed, resource_is_typed, response_is_typed, scope_is_typed, span_is_typed,
};
pub use value::attribute_values_inside;
