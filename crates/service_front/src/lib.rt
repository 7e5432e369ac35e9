//! The part of a service that calls no shard: its options and limits, lookups in the settings in force, the responses
//! of the admin port, and the responses to lines of the input.
//!
//! Other crates of the service build on it: `service_context` looks up where a message goes ([`destination_of`]),
//! `service_control` formats what a line is answered ([`line_again`]), and `service_admin` formats figures
//! ([`tenants_reply`]). A lookup holds the lock of the settings only while it copies what it returns.
#![tactic(auto)]

ghost use Rattle.std.specs.Prelude.{◌≡◌};
ghost use Rattle.tenant_registry.specs.Changed as told;
ghost use Rattle.tenant_shard.specs.Outcomes as shard;

mod chore;
mod figures;
mod limits;
mod lines;
mod lookup;
mod options;
mod pages;
mod reports;

pub use crate::chore::Chore;
pub use crate::figures::{push_figures, tenant_reply, tenants_reply, told_counters};
pub use crate::limits::ServiceLimits;
pub use crate::lines::{end_work, note_awaited, note_skipped};
pub use crate::lookup::{
    destination_of, find, longest_wait_of, refusal_of, section_of, tenants_in,
};
pub use crate::options::ServiceOptions;
pub use crate::pages::{
    ask_to_come, ask_to_go, drain, is_draining, metrics_reply, not_let_in, page, readiness,
};
pub use crate::reports::{CommandReply, line_again};

/// The numbers that a shard's refusals have are those that the admin port reads in a line's response: a law over the
/// definitions of two crates.
pub fn refusals_agree()
    ensures not_member { told.not_member ≡ shard.not_member }
    ensures not_empty { told.not_empty ≡ shard.not_empty }
{}
