//! What the definitions say of small requests and arguments, on examples that were worked out by hand.

ghost use Rattle.collector_bench.specs.Examples.{Counts, Written, Copies, Arguments, Refused, Faults};

/// The definitions, on small inputs, give what was worked out by hand.
fn definitions_on_small_inputs()
    ensures counts { Counts }
    ensures written { Written }
    ensures copies { Copies }

    ensures arguments { Arguments }
    ensures refused { Refused }
    ensures faults { Faults }
{}
