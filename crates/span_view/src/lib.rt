//! Views of spans for sampling policies, borrowed from canonical text.
//!
//! A [`SpanRef`] stands on two texts: a span's and its resource's, which is empty where there is no resource. It
//! tells the span's trace id, span id, times and status, and the attributes of the span and then of the resource,
//! each as a key and a [`ValueRef`]. It takes no memory and copies nothing. Each call walks a text at most once, and
//! no further than to the field that it looks for; one that looks for several fields does so where they stand as in
//! canonical text, and else walks it once for each of them. The iterators over the attributes, and over all that
//! policies look at, walk each text once over their whole life.
//!
//! Over canonical text a view tells exactly what the span and the resource are ([`canonical_text_is_viewed`]); fields
//! that they have kept without knowing them are skipped. Over other bytes it tells what stands first: of several
//! fields of a number and wire type the first, a value by the first field in it, and a text ends where no field
//! begins. All that a view asks of its texts is that keys and strings be UTF-8, as they are in canonical text and as
//! [`is_text`] finds out.
//!
//! It stands on `pb_wire`, and on `otlp_trace` for what canonical text is. The fields are those of OTLP 1.x's
//! `trace.proto`, `common.proto` and `resource.proto`.
#![tactic(auto)]

mod attribute;
mod attributes;
mod fields;
mod law;
mod span;
mod status;
mod text;
mod value;
mod walk;

pub use attribute::AttributeRef;
pub use attributes::Attributes;
pub use law::{canonical_text_is_viewed, equal_values};
pub use span::SpanRef;
pub use text::is_text;
pub use value::ValueRef;
pub use walk::{SpanField, SpanFields};
