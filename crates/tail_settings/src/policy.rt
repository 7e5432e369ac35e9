//! Policies.

/// A code of a span's status, as opentelemetry-proto's `Status.StatusCode` has it.
#[derive(Clone, Copy, Debug, PartialEq, Eq)]
pub enum StatusCode {
    Unset,
    Ok,
    Error,
}

/// A policy that holds no other.
#[derive(Clone, Debug, PartialEq, Eq, Drop)]
pub enum LeafPolicy {
    /// Keeps every trace.
    AlwaysSample,
    /// Keeps traces that last long.
    Latency {
        /// The least time from the earliest start to the latest end, in whole milliseconds, 0 to 2^40.
        threshold_ms: u64,
    },
    /// Keeps traces with a span of one of these codes.
    StatusCode {
        /// One or more.
        status_codes: Vec<StatusCode>,
    },
    /// Keeps traces with an attribute whose value is one of these texts.
    StringAttribute {
        /// The attribute's key, of 1 to 256 bytes.
        key: String,
        /// 1 to 64 texts.
        values: Vec<String>,
    },
    /// Keeps traces with an attribute whose value is a whole number within these bounds.
    NumericAttribute {
        /// The attribute's key, of 1 to 256 bytes.
        key: String,
        /// The least number that is kept.
        min_value: i64,
        /// The greatest number that is kept.
        max_value: i64,
    },
}

/// One of a tenant's policies.
#[derive(Clone, Debug, PartialEq, Eq, Drop)]
pub enum PolicySpec {
    Leaf(LeafPolicy),
    /// Keeps traces that each of these keeps. One or more.
    And(Vec<LeafPolicy>),
}

ghost use Rattle.std.specs.Prelude.{◌≡◌, ◌↔◌, true, map, IsTrue};
ghost use Rattle.tail_settings.specs.Policy.{status_view, leaf_view, policy_view};

/// Policies are equal where they say the same, and a copy says the same.
pub fn equal_policies()
    ensures status { (a b : StatusCode) → (⟦<StatusCode as PartialEq>⟧.eq a b ≡ true)
        ↔ (status_view a ≡ status_view b) }
    ensures leaf { (a b : LeafPolicy) → (⟦<LeafPolicy as PartialEq>⟧.eq a b ≡ true) ↔
        (leaf_view a ≡ leaf_view b) }
    ensures policy { (a b : PolicySpec) → (⟦<PolicySpec as PartialEq>⟧.eq a b ≡ true)
        ↔ (policy_view a ≡ policy_view b) }
    ensures leaf_copy { (a b : LeafPolicy) → ⟦<LeafPolicy as Clone>⟧.is_clone a b
        → leaf_view b ≡ leaf_view a }
    ensures policy_copy { (a b : PolicySpec) → ⟦<PolicySpec as Clone>⟧.is_clone a b
        → policy_view b ≡ policy_view a }
{}

/// Whether two lists of policies say the same, in the same order.
pub fn same_policies(left: &[PolicySpec], right: &[PolicySpec]) -> bool
    ensures { IsTrue result ↔ (map policy_view left.now ≡ map policy_view right.now) }
{
    left == right
}
