//! A shard that draws the words of its answers, as a state machine that threads can share.
//!
//! The caller of `tenant_shard` hands in the word of each answer, which picks the delay of a retry. [`ShardMachine`]
//! draws it from the generator of the answer's tenant ([`JitterGenerators`]), at the moment of the step. Its log is a
//! run of the shard, so all that is promised of the shard's runs holds of what threads did to it, and the words in it
//! are each tenant's own (`specs/Run`).
//!
//! A tenant's words are those that `rand_pcg`'s `Lcg64Xsh32` gives from the tenant's seed, in order (`specs/Jitter`),
//! so that nobody's depend on what others do. The generator is PCG's XSH RR with 64 bits of state.
//!
//! It stands on `machine_hub`, `tenant_shard`, `rand_core` and `rand_pcg`. Its other rules come from no public text.
#![tactic(auto)]

ghost use Rattle.shard_machine.specs.Run.{RunsAreShardRuns, WordsAreInOrder};
ghost use Rattle.shard_machine.specs.Jitter.{EachHasItsOwn};

mod copy;
mod jitter;
mod shard;
mod step;

pub use jitter::JitterGenerators;
pub use shard::ShardMachine;
pub use step::{Call, LoggedStep, WordSource};

/// A tenant's words are the first of its own generator, in order, whatever is drawn for others in between: a law over
/// draws.
pub fn each_has_its_own()
    ensures { EachHasItsOwn }
{}

/// The log of the machine is a run of its shard: a law over runs.
pub fn runs_are_shard_runs()
    ensures { RunsAreShardRuns }
{}

/// In it the words that were drawn for a tenant are the first of its own generator, in order: a law over runs.
pub fn words_are_in_order()
    ensures { WordsAreInOrder }
{}
