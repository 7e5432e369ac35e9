//! What is kept of a trace's spans for its policies.

ghost use Rattle.std.specs.Prelude.{◌≡◌, ◌/◌, ◌^◌, map};
ghost use Rattle.tail_settings.specs.Policy.{leaf_view, policy_view};
ghost use Rattle.tail_policy.specs.Note.{joined, leaf_verdict, all_verdict, verdict_of};
ghost use Rattle.tail_policy.specs.Parts.{with_resource};

use crate::time::whole_milliseconds;
use tail_settings::{LeafPolicy, PolicySpec};

/// What a tenant's policies keep of a trace's spans: 24 bytes, however many there are.
#[derive(Clone, Copy, Debug, PartialEq, Eq)]
pub struct TraceNote {
    /// One bit a policy that holds no other, the first one's lowest.
    met: u64,
    /// The earliest start, in nanoseconds since 1970.
    start: u64,
    /// The latest end, in nanoseconds since 1970.
    end: u64,
}

/// What a tenant's policies keep of a resource: 8 bytes, however many attributes it has.
#[derive(Clone, Copy, Debug, PartialEq, Eq)]
pub struct ResourceBits {
    /// One bit a policy that holds no other, the first one's lowest: whether an attribute of the resource meets it.
    met: u64,
}

impl ResourceBits {
    pub fn new(met: u64) -> ResourceBits
        ensures { result ≡ record { met = met } }
    {
        ResourceBits { met }
    }
}

/// The bits above the lowest `count`.
fn above(bits: u64, count: usize) -> u64
    ensures { result ≡ bits / 2 ^ count }
{
    if count < 64 { bits >> count } else { 0 }
}

impl TraceNote {
    #[inline(always)]
    pub fn new(met: u64, start: u64, end: u64) -> TraceNote
        ensures { result ≡ record { met = met; start = start; end = end } }
    {
        TraceNote { met, start, end }
    }

    /// The note of the spans of both.
    #[tactic(auto, unfolding(crate::specs::Note::joined))]
    pub fn joined(self, other: TraceNote) -> TraceNote
        ensures { result ≡ joined self other }
    {
        TraceNote {
            met: self.met | other.met,
            start: self.start.min(other.start),
            end: self.end.max(other.end),
        }
    }

    /// The note of the same span or spans with a resource that tells this.
    #[tactic(auto, unfolding(crate::specs::Parts::with_resource))]
    #[inline(always)]
    pub fn with_resource(self, resource: ResourceBits) -> TraceNote
        ensures { result ≡ with_resource resource self }
    {
        TraceNote {
            met: self.met | resource.met,
            start: self.start,
            end: self.end,
        }
    }

    /// Whether a policy that holds no other samples the trace, by its bit or by the trace's times.
    fn leaf_verdict(&self, leaf: &LeafPolicy, is_met: bool) -> bool
        ensures { result ≡ leaf_verdict self.now (leaf_view leaf.now) is_met }
    {
        match leaf {
            LeafPolicy::AlwaysSample => true,
            LeafPolicy::Latency { threshold_ms } => {
                *threshold_ms <= whole_milliseconds(self.start, self.end)
            }
            _ => is_met,
        }
    }

    /// Whether each of these policies samples the trace, their bits being the lowest.
    fn all_verdict(&self, leaves: &[LeafPolicy], bits: u64) -> bool
        ensures { result ≡ all_verdict self.now (map leaf_view leaves.now) bits }
    {
        let mut left = bits;
        for leaf in leaves {
            if !self.leaf_verdict(leaf, left % 2 == 1) {
                return false;
            }
            left /= 2;
        }
        true
    }

    /// Whether one of the policies samples the trace.
    #[tactic(auto, unfolding(crate::specs::Note::verdict_of))]
    pub fn samples(&self, policies: &[PolicySpec]) -> bool
        ensures { result ≡ verdict_of (map policy_view policies.now) self.now }
    {
        let mut bits = self.met;
        for policy in policies {
            let (is_sampled, count) = match policy {
                PolicySpec::Leaf(leaf) => (self.leaf_verdict(leaf, bits % 2 == 1), 1),
                PolicySpec::And(leaves) => (self.all_verdict(leaves, bits), leaves.len()),
            };
            if is_sampled {
                return true;
            }
            bits = above(bits, count);
        }
        false
    }
}
