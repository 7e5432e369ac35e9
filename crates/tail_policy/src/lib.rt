//! Which traces sampling policies sample.
//!
//! A trace is sampled where one of its tenant's policies samples it (`specs/Meaning`, after the documents of the
//! OpenTelemetry Collector's `tail_sampling` processor). Each policy looks at all spans of the trace, each with its
//! resource. [`keeps`] answers exactly that. [`TenantPolicies`] answer the same by notes: what is kept of each span is
//! of one size and joins, so a trace is decided without its spans. The note of a span can be made of its own text and
//! of what its resource tells, which is found once for all spans of the resource ([`PolicyByParts`]). Policies of other
//! kinds have the trait [`Policy`], and are joined by [`AnyOf`] and [`AllOf`].
//!
//! It stands on `span_view`, for what a policy asks of a span, and on `tail_settings`, for what a policy is.
#![tactic(auto)]

mod all_of;
mod any_of;
mod asks;
mod attribute;
mod bits;
mod both;
mod marks;
mod note;
mod noting;
mod policy;
mod status;
mod status_bits;
mod tally;
mod tenant;
mod time;

ghost use Rattle.std.specs.Prelude.{◌≡◌, ◌<◌, length, map};
ghost use Rattle.tail_settings.specs.Policy.{policy_view};
ghost use Rattle.tail_policy.specs.Meaning.{keeps};

pub use all_of::AllOf;
pub use any_of::AnyOf;
pub use both::BothNotes;
pub use note::{ResourceBits, TraceNote};
pub use noting::{Policy, PolicyByParts, views_of_parts};
use policy::policy_samples;
use span_view::SpanRef;
use tail_settings::PolicySpec;
pub use tenant::TenantPolicies;

/// Whether the trace that has these spans is sampled: whether one of the policies samples it.
///
/// It takes no memory. Its time grows no faster than the number of policies that hold no other, times the number of
/// codes or texts that one of them has, times the size of the texts of the spans and their resources.
#[tactic(auto, unfolding(crate::specs::Meaning::keeps))]
pub fn keeps(policies: &[PolicySpec], spans: &[SpanRef<'_>]) -> bool
    requires not_empty { 0 < length spans.now }
    ensures { result ≡ keeps (map policy_view policies.now) spans.now }
{
    policies.iter().any(|policy| policy_samples(policy, spans))
}
