//! One policy.

ghost use Rattle.std.specs.Prelude.{◌≡◌};
ghost use Rattle.tail_settings.specs.Policy.{leaf_view, policy_view};
ghost use Rattle.tail_policy.specs.Meaning.{leaf_samples, policy_samples};

use crate::attribute::{AttributeTest, any_has_attribute};
use crate::status::any_has_status;
use crate::time::duration;
use span_view::SpanRef;
use tail_settings::{LeafPolicy, PolicySpec};

/// Whether a policy that holds no other samples the trace.
fn leaf_samples(leaf: &LeafPolicy, spans: &[SpanRef<'_>]) -> bool
    ensures { result ≡ leaf_samples (leaf_view leaf.now) spans.now }
{
    match leaf {
        LeafPolicy::AlwaysSample => true,
        LeafPolicy::Latency { threshold_ms } => *threshold_ms <= duration(spans),
        LeafPolicy::StatusCode { status_codes } => any_has_status(status_codes, spans),
        LeafPolicy::StringAttribute { key, values } => {
            any_has_attribute(key, AttributeTest::OneOf(values), spans)
        }
        LeafPolicy::NumericAttribute {
            key,
            min_value,
            max_value,
        } => any_has_attribute(key, AttributeTest::Within(*min_value, *max_value), spans),
    }
}

/// Whether a policy samples the trace. Policies that are joined by `and` may each be met by another span.
pub fn policy_samples(policy: &PolicySpec, spans: &[SpanRef<'_>]) -> bool
    ensures { result ≡ policy_samples (policy_view policy.now) spans.now }
{
    match policy {
        PolicySpec::Leaf(leaf) => leaf_samples(leaf, spans),
        PolicySpec::And(leaves) => leaves.iter().all(|leaf| leaf_samples(leaf, spans)),
    }
}
