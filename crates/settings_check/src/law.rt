//! Laws of the keys that are known.

ghost use Rattle.settings_check.specs.Law.{UnknownMeanNothing, KnownAreRead};
ghost use Rattle.settings_check.specs.Ranges.{RangesAreRead};

/// The keys of this crate are those that `tail_settings` reads: what it warns of has no effect, and whatever has an
/// effect it doesn't warn of.
pub fn known_keys_are_those_that_are_read()
    ensures others_mean_nothing { UnknownMeanNothing }
    ensures each_is_read { KnownAreRead }
{}

/// The ranges and defaults of numbers that are told in words are those that `tail_settings` reads by.
pub fn ranges_are_told_as_they_are_read()
    ensures { RangesAreRead }
{}
