//! A shard: the pipelines of several tenants behind one call, over stores that they share.
//!
//! A step is a tenant's post, answer, report or drain, or a worker's turn, which goes to the member that is ready
//! first, the lower number first where several are ready at one moment; or a tenant comes, or is to go. `Shard::run`
//! promises what the whole collector is for: whatever the other tenants' settings and steps, and whoever else comes
//! and goes, each member is told exactly what a pipeline of its own answers to the steps that were its own.
//! `Shard::step` promises it one step at a time. Both say what is left where memory was refused, and what follows from
//! that.
//!
//! All members' spans lie in one pool, their rows in one table, and when each is ready next in one agenda. Contracts
//! see the members one by one, each as its rules see it, and the numbers of the tenants that have gone; what always
//! holds of stores, agenda and members together is in `specs/Whole`.
//!
//! A tenant that comes is let in with its own settings, whatever else is in the shard, unless its number is or was a
//! member's: that is refused with 25, so no late post of an old tenant's comes to a new one. A tenant goes where it
//! was drained and holds no span, told its counters last; else it is refused with 26. All that it had in the stores is
//! then given back, and its number alone is kept.
//!
//! A body is prepared before it is posted, for the policies that its tenant has then. One that was prepared for other
//! policies than the member's is refused with the number 23, and a step of a tenant that is no member with 22: neither
//! changes anything, and what the tenant is told afterwards is as if it had not come. An answer to a job that isn't in
//! flight is refused with 21, and nothing but due timers has happened then.
//!
//! How many rows a tenant has, when it is ready next, and when the first of a shard's members is, is asked without a
//! step (`Shard::waiting`).
//!
//! It stands on `tenant_pipeline`, `tenant_stores`, `shard_agenda`, `tenant_rules` and `tail_settings`. Its own rules
//! come from no public text.
#![tactic(auto)]

ghost use Rattle.std.specs.Prelude.{◌≡◌, ◌↔◌, true};
ghost use Rattle.tenant_shard.specs.Alone.{OwnStepsDecide};
ghost use Rattle.tenant_shard.specs.Chain.{KeptDecides};
ghost use Rattle.tenant_shard.specs.Comings.{NeverAgain, AlwaysWelcome};
ghost use Rattle.tenant_shard.specs.Table.{EachInItsShard};
ghost use Rattle.tenant_shard.specs.Waiting.{LivesTellWhatWaits};

mod addressee;
mod comings;
mod member;
mod members;
mod shard;
mod step;
mod waiting;

pub use members::members_of;
pub use shard::{Shard, Stopped};
pub use step::{Outcome, Step, equal_steps_are_the_same};
pub use waiting::Waiting;

/// What a tenant is told follows from its life before and its own steps alone, whoever else comes and goes: a law over
/// runs, also over those of different shards.
pub fn own_steps_decide()
    ensures { OwnStepsDecide }
{}

/// What is kept of the tenants decides what they are told and whose turn each one is, also where a step was refused
/// memory: a law over runs.
pub fn what_is_kept_decides()
    ensures { KeptDecides }
{}

/// The number of a tenant that is or was a member is never used again: a law over runs.
pub fn no_number_is_used_again()
    ensures { NeverAgain }
{}

/// A tenant whose number is new is let in, whatever else is in the shard: a law over steps.
pub fn newcomers_are_let_in()
    ensures { AlwaysWelcome }
{}

/// What a tenant and its shard wait for, and how many rows it has, follows from the tenants' lives: a law over states.
pub fn lives_tell_what_waits()
    ensures { LivesTellWhatWaits }
{}

/// Each tenant of a table is in one shard, with its own section: a law over settings.
pub fn each_tenant_is_in_its_shard()
    ensures { EachInItsShard }
{}

/// Outcomes are equal exactly where contracts see the same: a law over `==`.
pub fn equal_outcomes()
    ensures { (a b : Outcome) → (⟦<Outcome as PartialEq>⟧.eq a b ≡ true) ↔ (a ≡ b) }
{}
