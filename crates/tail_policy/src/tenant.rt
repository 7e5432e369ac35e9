//! A tenant's policies, which decide by notes.

ghost use Rattle.std.specs.Prelude.{◌≡◌, ◌≤◌, map};
ghost use Rattle.tail_settings.specs.Policy.{policy_view, leaves_of};

use crate::asks::ask_attributes;
use crate::marks::{COUNT, mark_policies};
use crate::note::{ResourceBits, TraceNote};
use crate::noting::{Policy, PolicyByParts};
use crate::status_bits::StatusBits;
use crate::tally::{SpanFacts, resource_bits, tally};
use span_view::SpanRef;
use std::alloc::AllocError;
use std::marker::Model;
use tail_settings::PolicySpec;

/// A tenant's policies. A trace is sampled where one of them samples it.
#[derive(Drop)]
pub struct TenantPolicies<'a> {
    policies: &'a [PolicySpec],
    /// Which keys the policies may ask for.
    marks: [bool; COUNT],
    /// Whether one of them asks for an attribute.
    asks: bool,
    /// Which of them each status meets.
    statuses: StatusBits,
}

impl<'a> Model for TenantPolicies<'a> {
    ghost use Rattle.std.specs.Prelude.{List, map};
    ghost use Rattle.tail_policy.specs.Asks.{IsFound};
    ghost use Rattle.tail_settings.specs.Policy.{PolicyData, policy_view};

    ghost Value = { List PolicyData };

    ghost view = { λ p. map policy_view p.policies.now };

    ghost invariant = { λ p. IsFound (map policy_view p.policies.now) p.marks p.asks p.statuses };
}

impl<'a> TenantPolicies<'a> {
    /// These policies, which are at most 64, counting those that an `and` holds and not the `and` itself. A tenant's
    /// section has no more.
    pub fn of(policies: &'a [PolicySpec]) -> TenantPolicies<'a>
        requires leaves_bounded { leaves_of (map policy_view policies.now) ≤ 64 }
        ensures { result ≡ map policy_view policies.now }
    {
        let mut marks = [false; COUNT];
        mark_policies(&mut marks, policies);
        TenantPolicies {
            policies,
            marks,
            asks: ask_attributes(policies),
            statuses: StatusBits::of(policies),
        }
    }
}

impl<'a> Policy for TenantPolicies<'a> {
    ghost use Rattle.tail_policy.specs.Meaning.{keeps};
    ghost use Rattle.tail_policy.specs.Note as notes;
    ghost use Rattle.tail_policy.specs.Laws as laws;

    type Note = TraceNote;

    ghost note_of = { notes.note_of };

    ghost joined = { λ policies. notes.joined };

    ghost verdict_of = { notes.verdict_of };

    ghost samples = { keeps };

    ghost associative = { λ policies. laws.associative };

    ghost means = { laws.means };

    /// It takes no memory and is never refused.
    fn note(&self, span: &SpanRef<'_>) -> Result<TraceNote, AllocError> {
        if !self.asks {
            let (start, end, met) = self.statuses.of_span(span);
            return Ok(TraceNote::new(met, start, end));
        }
        let SpanFacts {
            met,
            start,
            end,
            status,
        } = tally(self.policies, &self.marks, span.fields());
        Ok(TraceNote::new(self.statuses.at(status) | met, start, end))
    }

    fn join(&self, first: TraceNote, second: TraceNote) -> TraceNote {
        first.joined(second)
    }

    fn verdict(&self, note: &TraceNote) -> bool {
        note.samples(self.policies)
    }
}

impl<'a> PolicyByParts for TenantPolicies<'a> {
    ghost use Rattle.tail_policy.specs.Parts as parts;

    type ResourceNote = ResourceBits;

    ghost resource_note_of = { parts.resource_bits_of };

    ghost with_resource_of = { λ policies. parts.with_resource };

    ghost by_parts = { parts.by_parts };

    /// It takes no memory and is never refused.
    #[tactic(auto, unfolding(crate::specs::Parts::resource_bits_of))]
    fn resource_note(&self, resource: &[u8]) -> Result<ResourceBits, AllocError> {
        if !self.asks {
            return Ok(ResourceBits::new(0));
        }
        Ok(ResourceBits::new(resource_bits(self.policies, &self.marks, resource)))
    }

    fn with_resource(&self, resource: &ResourceBits, note: TraceNote) -> TraceNote {
        note.with_resource(*resource)
    }
}
