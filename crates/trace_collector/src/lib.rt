//! The replay of a script by shards of tenants.
//!
//! Settings and a script come in as text, and what each step is answered goes out as text. [`replay`] promises, for
//! every settings text and every script, what is written, and that each tenant's lines of it are those that the tenant
//! alone would be told: its own commands decide them ([`own_commands_decide`]). There is at most one such text
//! ([`text_is_one`]), and each body that has a value is its tenant's next step ([`values_are_taken`]).
//!
//! It stands on `replay_script`, `tail_settings`, `otlp_prepare` and `tenant_shard`, and on those below them.
#![tactic(auto)]

mod engine;
mod law;
mod lines;
mod session;
mod shards;
mod steps;

pub use engine::{ReplayFault, replay};
pub use law::{own_commands_decide, tenants_replay_apart, text_is_one, values_are_taken};
