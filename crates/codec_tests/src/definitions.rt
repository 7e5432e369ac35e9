//! The definitions on small inputs.

ghost use Rattle.codec_tests.specs.Examples.{Written, ExampleTrace, Conditions};

/// The definitions say of small texts and values what was worked out by hand.
fn definitions_on_small_inputs()
    ensures written { Written }
    ensures example { ExampleTrace }
    ensures conditions { Conditions }
{}
