//! The parts of a request's body: the canonical texts of its spans, resources and instrumentation scopes.
//!
//! [`read_parts`] gives what reading a body and writing each of its messages gives (`specs/Texts`), and refuses a body
//! exactly where `otlp_read` does. Of a span, a resource or a scope whose bytes are its canonical text already no
//! message is made: the part is a slice of the body. Any other is put anew from its text, or read. A resource or a
//! scope that stands again is merged. Spans without a sound trace id and span id are counted and left out.
//!
//! A slice shares the body's memory, and as long as one is held the whole body is. So where slices make up less than
//! half of the body, each part is a copy.
//!
//! It stands on `pb_wire`, `otlp_trace`, `otlp_read`, `otlp_canonical`, `span_view` and `span_pool`, for what a
//! canonical text tells of its span, and on `text_slice`. The rules are those of the proto3 language guide and the
//! Protocol Buffers encoding guide, over the messages of OTLP 1.x.
#![tactic(auto)]

mod body;
mod copies;
mod embedded;
mod found;
mod held;
mod message;
mod part_text;
mod parts;
mod resource;
mod scope;
mod span;
mod walk;

pub use body::read_parts;
pub use part_text::PartText;
pub use parts::{BodyParts, ResourceParts, ScopeList, ScopeParts, SpanTexts};
