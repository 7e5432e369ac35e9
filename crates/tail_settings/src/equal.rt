//! When sections are equal.

ghost use Rattle.std.specs.Prelude.{◌≡◌, ◌↔◌, true};
ghost use Rattle.tail_settings.specs.Section.{section_view};

use crate::section::Section;

/// Sections are equal exactly where they say the same: a law over `==`.
pub fn equal_sections()
    ensures { (a b : Section) → (⟦<Section as PartialEq>⟧.eq a b ≡ true) ↔
        (section_view a ≡ section_view b) }
{}
