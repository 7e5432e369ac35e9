//! What views are of, and when values are equal.

ghost use Rattle.std.specs.Prelude.{◌≡◌, ◌↔◌, true, ℕ, List, Option};
ghost use Rattle.otlp_trace.specs.Data.{ResourceData, SpanData};
ghost use Rattle.span_view.specs.Canonical.{IsSpanText, IsResourceText};
ghost use Rattle.span_view.specs.Facts.{AreText, facts};
ghost use Rattle.span_view.specs.Reading.{facts_of};
ghost use Rattle.span_view.specs.Shown.{value_shown};

use crate::value::ValueRef;

/// Over the canonical text of a span and of its resource, which may be missing, a view tells what they are, and its
/// condition is met.
pub fn canonical_text_is_viewed()
    ensures facts { (span resource : List ℕ) (s : SpanData) (r : Option ResourceData)
        → IsSpanText span s → IsResourceText resource r → facts_of span resource ≡ facts s r }
    ensures text { (span resource : List ℕ) (s : SpanData) (r : Option ResourceData)
        → IsSpanText span s → IsResourceText resource r
        → AreText (facts_of span resource).attributes }
{}

/// Values are equal where they show the same, wherever their bytes lie.
pub fn equal_values()
    ensures { (a b : ValueRef) → (⟦<ValueRef<'static> as PartialEq>⟧.eq a b ≡ true) ↔
        (value_shown a ≡ value_shown b) }
{}
