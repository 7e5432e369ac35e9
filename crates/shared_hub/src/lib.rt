//! The shards of all tenants, which any number of threads step.
//!
//! Each thread has a [`Caller`]. A call makes one step of one shard, under that shard's lock, and gives what the step
//! gave, with a receipt of its entry in the shard's log. The words of answers are drawn under the same lock, each from
//! its tenant's own generator. Once all callers are back [`SharedHub::close`] says of each shard that its log is a run
//! of a shard of its tenants, so that each of them was told what its own steps say, whatever threads did; and that each
//! entry is one call's (`specs/Logs`).
//!
//! It stands on `machine_hub` for the shards behind their locks, on `shard_machine` for what a shard is, on `audit_log`
//! for entries kept in little room, and on `tail_settings` for the tenants. Its rules come from no public text.
#![tactic(auto)]

ghost use Rattle.shared_hub.specs.Logs.{EachCallEndsARun, EachCallEndsAHistory, EachRefusalEndsAHistory, EachLookSeesARun, EachLookSeesAHistory, LogsTellByOwnSteps};

mod copy;
mod fault;
mod hub;
mod log;
mod shards;

pub use fault::{CallersMissing, HubFault};
pub use hub::SharedHub;
pub use log::OptionalLog;
pub use machine_hub::{Receipt, Told};
pub use shard_machine::{Call, LoggedStep, ShardMachine, WordSource};
use tenant_shard::Outcome;

/// A step that was made, and what it gave.
pub type Entry = machine_hub::Entry<LoggedStep, Outcome>;

/// Who calls a hub, one for each thread.
pub type Caller = machine_hub::Caller<ShardMachine, OptionalLog>;

/// Who opened a hub, and can close it.
pub type HubKeeper = machine_hub::HubKeeper<ShardMachine, OptionalLog>;

/// A shard with its log.
pub type ShardLog = machine_hub::LoggedMachine<ShardMachine, OptionalLog>;

/// What a call answers, log or not, is the last outcome of a run of a shard of its tenants: a law over calls.
pub fn each_call_ends_a_run()
    ensures { EachCallEndsARun }
{
    shard_machine::runs_are_shard_runs();
    shard_machine::words_are_in_order();
}

/// What a look at a tenant is told is so where a run of a shard of its tenants ends: a law over looks.
pub fn each_look_sees_a_run()
    ensures { EachLookSeesARun }
{
    shard_machine::runs_are_shard_runs();
    shard_machine::words_are_in_order();
}

/// Want of memory at a shard costs the tenants little whose calls were refused it, and the others nothing: a law over
/// calls, also those that come after it, over those that are refused it, and over looks.
pub fn each_answer_is_of_a_history()
    ensures calls { EachCallEndsAHistory }
    ensures refusals { EachRefusalEndsAHistory }
    ensures looks { EachLookSeesAHistory }
{}

/// What the logs of any hubs tell a tenant follows from its section and its own steps alone: a law over logs.
pub fn logs_tell_by_own_steps()
    ensures { LogsTellByOwnSteps }
{
    tenant_shard::own_steps_decide();
}
