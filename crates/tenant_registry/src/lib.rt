//! The tenants that are present, under the settings in force: where messages go by them, who comes and who leaves, and
//! what is told of that.
//!
//! Settings in force ([`InForce`]) lie under one lock, and whoever takes it knows that they came of those at the start
//! by changes. A [`Registrar`] makes these, and knows which were made; a [`Roster`] is a list of who is present then.
//! [`BackEnds`] tells senders where tenants' back ends are, and [`ToldBackEnd`] an operator which of them refuse posts.
//! What is told of a change is in [`changes`], and what senders are told without a step of a shard in [`replies`].
//!
//! It calls no shard. It stands on `tail_settings` for settings and documents, on `agreed_list` for what is known of
//! their changes, on `otlp_front` and `http_edge` for messages and replies, on `export_edge` for back ends, on
//! `service_runtime` for what is told in few words, for the admin port's desk and documents that are read, on
//! `settings_check` for what is told of a document, on `admin_pages` for a tenant's figures, and on `replay_script` for
//! how a report is spelled.
#![tactic(auto)]

ghost use Rattle.std.specs.Prelude.{◌≡◌, ℕ, List, Some, true};
ghost use Rattle.export_edge.specs.Dialing.{as_address};
ghost use Rattle.http_edge.specs.Limits.{max_body};
ghost use Rattle.replay_script.specs.Word.{most_body_bytes, is_name as is_name_in_scripts};
ghost use Rattle.tail_settings.specs.Texts.{is_address, is_name};
ghost use Rattle.tenant_registry.specs.Replies.{StatusesAgree};
ghost use Rattle.tenant_registry.specs.Retried.{RetryDoubtsHold, RetriesAreMade};

pub mod changes;
mod documents;
mod in_force;
mod naming;
mod noted;
mod registrar;
pub mod replies;
mod roster;
mod told;

pub use crate::documents::{NotAdded, document};
pub use crate::in_force::{BackEnds, Destination, InForce, Newcomer};
pub use crate::naming::SettingsNaming;
pub use crate::noted::{Change, ChangeList, Noted};
pub use crate::registrar::Registrar;
pub use crate::roster::{Present, Roster};
pub use crate::told::ToldBackEnd;

/// A message that is refused before its body is looked at and one that is refused after are told why in one spelling: a
/// law over two definitions.
pub fn statuses_agree()
    ensures { StatusesAgree }
{}

/// Where `check` tells that no batch of a tenant is sent again, none is, by what `send_retry` makes of any answer.
/// Where it tells nothing and retries aren't turned off, one can be. A law over the definitions of two crates.
pub fn retry_doubts_hold()
    ensures told { RetryDoubtsHold }
    ensures untold { RetriesAreMade }
{}

/// Limits that stand in two crates are the same: a body that a script posts may be as long as one over HTTP, the
/// address of a tenant's settings can be dialed, and a script can name each tenant that settings may have, and no
/// other.
pub fn limits_agree()
    ensures bodies { max_body ≡ most_body_bytes }
    ensures addresses { (text : List ℕ) → is_address text ≡ true → as_address text ≡ Some text }
    ensures names { (text : List ℕ) → is_name text ≡ is_name_in_scripts text }
{}
