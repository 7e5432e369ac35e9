//! A body that was decoded and annotated for a tenant: its spans, what their resource and scope are, and their span
//! summaries.
//!
//! A [`Prepared`] has the tenant's number, the policies that the tenant had when the body was read, and the valid spans
//! of the body in its order. Spans that aren't valid are counted, and nothing is kept of them. `otlp_prepare` makes it
//! of a request body; `tenant_pipeline` takes it.
//!
//! A span is a [`NotedSpan`]: its trace id, its own text, its note (`tail_policy`), and the index of a [`SpanOrigin`].
//! An origin has the texts of a resource, a scope and the URLs of their schemas, each with its digest (`text_pool`),
//! once for all spans of one scope of one resource.
//!
//! It stands on `text_slice`, `text_pool` and `span_pool` for texts, on `tail_settings` and `tail_policy` for policies
//! and notes, and on `tenant_rules` for what arrives of a span.
#![tactic(auto)]

mod noted;
mod prepared;

pub use noted::{NotedSpan, SpanOrigin};
pub use prepared::{Prepared, equal_bodies_are_the_same};
