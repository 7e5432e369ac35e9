//! Whether policies ask for attributes.

ghost use Rattle.std.specs.Prelude.{◌≡◌, map};
ghost use Rattle.tail_settings.specs.Policy.{leaf_view, policy_view};
ghost use Rattle.tail_policy.specs.Asks.{leaf_asks, policy_asks, ask_attributes};

use tail_settings::{LeafPolicy, PolicySpec};

/// Whether a policy that holds no other asks for an attribute.
fn leaf_asks(leaf: &LeafPolicy) -> bool
    ensures { result ≡ leaf_asks (leaf_view leaf.now) }
{
    match leaf {
        LeafPolicy::StringAttribute { .. } => true,
        LeafPolicy::NumericAttribute { .. } => true,
        _ => false,
    }
}

/// Whether a policy, or one that it holds, asks for an attribute.
fn policy_asks(policy: &PolicySpec) -> bool
    ensures { result ≡ policy_asks (policy_view policy.now) }
{
    match policy {
        PolicySpec::Leaf(leaf) => leaf_asks(leaf),
        PolicySpec::And(leaves) => leaves.iter().any(|leaf| leaf_asks(leaf)),
    }
}

/// Whether one of the policies, or one that it holds, asks for an attribute.
pub fn ask_attributes(policies: &[PolicySpec]) -> bool
    ensures { result ≡ ask_attributes (map policy_view policies.now) }
{
    policies.iter().any(|policy| policy_asks(policy))
}
