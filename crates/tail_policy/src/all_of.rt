//! Policies of which each is needed.

use crate::both::BothNotes;
use crate::noting::{Policy, PolicyByParts};
use span_view::SpanRef;
use std::alloc::AllocError;

/// Samples the traces that each of two policies samples, possibly by different spans. They may be of any kinds, and
/// each may be two again.
#[derive(Drop)]
pub struct AllOf<P, Q> {
    pub first: P,
    pub second: Q,
}

impl<P: Policy, Q: Policy> Policy for AllOf<P, Q> {
    ghost use Rattle.std.specs.Prelude.{◌&&◌, ◌∷◌};
    ghost use Rattle.tail_policy.specs.Both as notes;

    type Note = BothNotes<P::Note, Q::Note>;

    ghost note_of = { λ p. notes.both_of (P.note_of p.first) (Q.note_of p.second) };

    ghost joined = { λ p. notes.both_with (P.joined p.first) (Q.joined p.second) };

    ghost verdict_of = { λ p note. P.verdict_of p.first note.first && Q.verdict_of p.second note.second };

    ghost samples = { λ p spans. P.samples p.first spans && Q.samples p.second spans };

    ghost associative = { λ p. notes.both_associative (P.joined p.first) (Q.joined p.second)
        (P.associative p.first) (Q.associative p.second) };

    ghost means = { λ p span spans. notes.both_mean (P.note_of p.first) (Q.note_of p.second)
        (P.joined p.first) (Q.joined p.second) (P.verdict_of p.first) (Q.verdict_of p.second) (λ a b. a && b)
        (P.samples p.first (span ∷ spans)) (Q.samples p.second (span ∷ spans)) span spans
        (P.means p.first span spans) (Q.means p.second span spans) };

    fn note(&self, span: &SpanRef<'_>) -> Result<BothNotes<P::Note, Q::Note>, AllocError> {
        let first = self.first.note(span)?;
        let second = self.second.note(span)?;
        Ok(BothNotes { first, second })
    }

    fn join(
        &self,
        first: BothNotes<P::Note, Q::Note>,
        second: BothNotes<P::Note, Q::Note>,
    ) -> BothNotes<P::Note, Q::Note> {
        BothNotes {
            first: self.first.join(first.first, second.first),
            second: self.second.join(first.second, second.second),
        }
    }

    fn verdict(&self, note: &BothNotes<P::Note, Q::Note>) -> bool {
        self.first.verdict(&note.first) && self.second.verdict(&note.second)
    }
}

impl<P: PolicyByParts, Q: PolicyByParts> PolicyByParts for AllOf<P, Q> {
    ghost use Rattle.tail_policy.specs.Both as notes;

    type ResourceNote = BothNotes<P::ResourceNote, Q::ResourceNote>;

    ghost resource_note_of = { λ p. notes.both_of (P.resource_note_of p.first) (Q.resource_note_of p.second) };

    ghost with_resource_of = { λ p. notes.both_with (P.with_resource_of p.first) (Q.with_resource_of p.second) };

    ghost by_parts = { λ p span attributes. notes.both_same _ _ _ _
        (P.by_parts p.first span attributes) (Q.by_parts p.second span attributes) };

    fn resource_note(
        &self,
        resource: &[u8],
    ) -> Result<BothNotes<P::ResourceNote, Q::ResourceNote>, AllocError> {
        let first = self.first.resource_note(resource)?;
        let second = self.second.resource_note(resource)?;
        Ok(BothNotes { first, second })
    }

    fn with_resource(
        &self,
        resource: &BothNotes<P::ResourceNote, Q::ResourceNote>,
        note: BothNotes<P::Note, Q::Note>,
    ) -> BothNotes<P::Note, Q::Note> {
        BothNotes {
            first: self.first.with_resource(&resource.first, note.first),
            second: self.second.with_resource(&resource.second, note.second),
        }
    }
}
