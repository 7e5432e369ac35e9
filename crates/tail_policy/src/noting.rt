//! Policies that decide by notes.

ghost use Rattle.std.specs.Prelude.{◌≡◌, ◌↔◌, [], ◌∷◌, ℕ, List, Bool, IfOk, map, fold};
ghost use Rattle.span_view.specs.Facts.{AttributeFact, SpanFacts, AreText};
ghost use Rattle.span_view.specs.Reading.{facts_of};
ghost use Rattle.tail_policy.specs.Apart.{with_attributes};

use span_view::SpanRef;
use std::alloc::AllocError;

/// Decides a trace by notes, one of each of its spans, that were joined in the order of the spans.
pub trait Policy {
    /// What is kept of spans.
    type Note: Drop + Send;

    ghost note_of: { Self → SpanFacts → Self.Note };

    ghost joined: { Self → Self.Note → Self.Note → Self.Note };

    ghost verdict_of: { Self → Self.Note → Bool };

    // which traces the policy samples: a meaning that no note occurs in
    ghost samples: { Self → List SpanFacts → Bool };

    /// The note of one span.
    fn note(&self, span: &SpanRef<'_>) -> Result<Self::Note, AllocError>
        ensures { IfOk result (λ note. note ≡ note_of self.now span.now) };

    /// The note of the spans of both.
    fn join(&self, first: Self::Note, second: Self::Note) -> Self::Note
        ensures { result ≡ joined self.now first second };

    /// Whether the trace whose spans have this note is sampled.
    fn verdict(&self, note: &Self::Note) -> bool
        ensures { result ≡ verdict_of self.now note.now };

    ghost associative: { (p : Self) (a b c : Self.Note) → joined p (joined p a b) c ≡ joined p a (joined p b c) };

    ghost means: { (p : Self) (span : SpanFacts) (spans : List SpanFacts)
        → verdict_of p (fold (joined p) (note_of p span) (map (note_of p) spans)) ≡ samples p (span ∷ spans) };
}

/// Makes the note of a span out of two parts, so that a resource is looked through once for all of its spans: what the
/// span tells by itself, and what its resource tells.
pub trait PolicyByParts: Policy {
    /// What is kept of a resource.
    type ResourceNote: Drop + Send;

    ghost resource_note_of: { Self → List AttributeFact → Self.ResourceNote };

    ghost with_resource_of: { Self → Self.ResourceNote → Self.Note → Self.Note };

    /// What a resource tells, by its text, which is empty where there is no resource. It is canonical, or at least has
    /// keys and strings that are UTF-8 (`span_view::is_text`).
    fn resource_note(&self, resource: &[u8]) -> Result<Self::ResourceNote, AllocError>
        requires text { AreText (facts_of [] resource.now).attributes }
        ensures { IfOk result (λ note. note ≡ resource_note_of self.now
            (facts_of [] resource.now).attributes) };

    /// The note of a span with its resource, by the span's note without one.
    fn with_resource(&self, resource: &Self::ResourceNote, note: Self::Note) -> Self::Note
        ensures { result ≡ with_resource_of self.now resource.now note };

    ghost by_parts: { (p : Self) (span : SpanFacts) (attributes : List AttributeFact)
        → with_resource_of p (resource_note_of p attributes) (Self.note_of p span)
        ≡ Self.note_of p (with_attributes span attributes) };
}

/// A view of a span and its resource tells what the span tells by itself, and behind its attributes those of the
/// resource; and what it asks of its texts it asks of each by itself.
pub fn views_of_parts()
    ensures facts { (span resource : List ℕ)
        → facts_of span resource ≡ with_attributes (facts_of span [])
        (facts_of [] resource).attributes }
    ensures text { (span resource : List ℕ) → AreText (facts_of span resource).attributes
        ↔ (AreText (facts_of span []).attributes × AreText (facts_of [] resource).attributes) }
{}
