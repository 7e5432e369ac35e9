//! What the definitions say of shards, scripts and replays, on examples that were worked out by hand.

ghost use Rattle.collector_tests.specs.ShardExamples.{Nexts, FourSteps, EachIsTold};
ghost use Rattle.collector_tests.specs.ScriptExamples.{ThirdFaulty, Beginnings};
ghost use Rattle.collector_tests.specs.ReplayExamples.{Scripts, OwnParts, AloneParts, Replays};

use otlp_read::values_or_faults;

/// Of runs of small shards.
fn runs_of_shards()
    ensures nexts { Nexts }
    ensures four_steps { FourSteps }
    ensures each_is_told { EachIsTold }
{}

/// Of what a session answers to small scripts.
fn answers_of_scripts()
    ensures third_faulty { ThirdFaulty }
    ensures beginnings { Beginnings }
{}

/// Of small replays, and of a tenant's own part in them.
fn replays_of_scripts()
    ensures scripts { Scripts }
    ensures own_parts { OwnParts }
    ensures alone_parts { AloneParts }
    ensures replays { Replays }
{
    values_or_faults();
}
