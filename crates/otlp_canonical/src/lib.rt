//! Whether bytes are the canonical text of a message of OTLP traces already, and that text made of others.
//!
//! A client's body is mostly written as `otlp_trace` writes it: known fields by rising number, numbers as short as they
//! can be, what has its proto3 default left out, and what isn't known last. Whoever wants a message's canonical text
//! then need not read the message and write it again: the bytes that stand there are the text. [`is_span_text`] and the
//! like find that out, and take no memory: where one answers `true`, the bytes are the canonical text of the very value
//! that `otlp_read` gives them. [`canonical_copy`], [`resource_copy`] and [`scope_copy`] make that text of another,
//! or give none. No message is made for that, but of what can't be put anew inside a span.
//!
//! It stands on `pb_wire`, `otlp_trace` and `otlp_read`. The rules are those of the proto3 language guide and the
//! Protocol Buffers encoding guide, over the messages of OTLP 1.x.
#![tactic(auto)]

mod anew;
mod apart;
mod attribute;
mod copy;
mod defaults;
mod field;
mod flags;
mod inner;
mod joined;
mod message;
mod number;
mod order;
mod places;
mod request;
mod rewritten;
mod span;
mod status;
mod text;
mod unknown;
mod value;

pub use copy::{resource_copy, scope_copy};
pub use defaults::without_defaults;
pub use order::{canonical_copy, in_order};
pub use text::{is_request_text, is_resource_text, is_scope_text, is_span_text};
