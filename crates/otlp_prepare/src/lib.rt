//! Bodies made ready for a tenant, before any lock is taken.
//!
//! [`prepare`] reads a body by its parts (`otlp_parts`) and makes the note of each of its valid spans for the policies
//! of the tenant's section (`tail_policy`), in several threads (`tail_notes`). A resource is looked through once for
//! all of its spans, and so is its digest made. What it gives is exactly the section's policies and the body's value,
//! with one note a valid span; a body is bad exactly where it has no value. [`prepare_next`] does the same for one body
//! after another, whose [`RecentTexts`] are remembered.
//!
//! A [`Prepared`] keeps a span as a [`NotedSpan`], its own text with the index of an [`SpanOrigin`]: the texts of its
//! resource, its scope and their schemas, each with its digest (`text_pool`), once for all spans of one scope of one
//! resource. Spans that aren't valid are counted, and nothing is kept of them. These types are `prepared_body`'s.
//!
//! It stands on `prepared_body` and `otlp_parts`, on `span_pool`, `text_pool`, `text_slice`, `tail_settings`,
//! `tail_policy` and `tail_notes` and those below them, on `tenant_rules` for what arrives of a span, and on the kit's
//! `bytes`. The rules are those of OTLP 1.x and of the OpenTelemetry Collector's `tail_sampling` processor.
#![tactic(auto)]

mod body;
mod body_spans;
mod notes;
mod recent;
mod refusal;
mod reversed;
mod unnoted;

pub use body::{prepare, prepare_next};
pub use prepared_body::{NotedSpan, Prepared, SpanOrigin, equal_bodies_are_the_same};
pub use recent::RecentTexts;
pub use refusal::Refusal;
