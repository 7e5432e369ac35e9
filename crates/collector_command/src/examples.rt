//! What the definitions say of arguments, statuses, faults, runs and tokens, on examples that were worked out by hand.

ghost use Rattle.collector_command.specs.Examples.{Arguments, Statuses, OfFiles, OfArguments, OfTexts, Runs, Tokens, Ends};

/// The definitions, on small inputs, give what was worked out by hand.
fn definitions_on_small_inputs()
    ensures arguments { Arguments }
    ensures statuses { Statuses }
    ensures of_files { OfFiles }
    ensures of_arguments { OfArguments }
    ensures of_texts { OfTexts }
    ensures runs { Runs }
    ensures tokens { Tokens }
    ensures ends { Ends }
{}
