//! What is sound, on examples that were worked out by hand.

ghost use Rattle.settings_tests.specs.Examples.{Sound};

/// The definitions say of small settings whether they are sound.
fn definitions_on_small_inputs()
    ensures sound { Sound }
{}
