//! State machines that threads share: they make its steps one after another, and a log keeps what each step was and
//! gave.
//!
//! What a machine is, is its owner's to say ([`Machine`]). [`LoggedMachine`] is one with its log, in one thread. A
//! [`Slot`] holds it behind a lock, for any number of threads, each with a seat that knows what its own calls gave. A
//! [`Hub`] has such machines side by side, its shards, and each thread has a [`Caller`] with a seat at every shard. A
//! call names the shard that it is for. Once all callers are back [`Hub::close`] says of each shard that its log is a
//! run of its machine from what it was at first, and that each entry is one call's (`specs/Hub`).
//!
//! It stands on `crossbeam_queue`'s queue under a rule of the caller's, whose one place holds the machine while nobody
//! steps it, beside a lock on which threads wait, and on `log_positions`. The rule is this project's own.
#![tactic(auto)]

ghost use Rattle.std.specs.Prelude.{◌≡◌, ◌↔◌, true};

mod caller;
mod entry;
mod hub;
mod keeper;
mod log;
mod logged;
mod machine;
mod opening;
mod optional;
mod receipt;
mod remembered;
mod rule;
mod slot;
mod told;
mod view;

pub use caller::Caller;
pub use entry::{Entry, EntryOf};
pub use hub::{CallersMissing, Hub};
pub use keeper::HubKeeper;
pub use log::StepLog;
pub use logged::{Given, LoggedMachine};
pub use machine::Machine;
pub use optional::OptionalLog;
pub use receipt::Receipt;
pub use slot::{Slot, SlotKeeper, SlotSeat};
pub use told::Told;

/// Receipts are equal where they name the same position of the same shard.
pub fn equal_receipts()
    ensures { (a b : Receipt) → (⟦<Receipt as PartialEq>⟧.eq a b ≡ true) ↔ (a ≡ b) }
{}
