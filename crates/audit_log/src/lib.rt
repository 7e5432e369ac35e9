//! Entries of an audit's log, in little memory.
//!
//! A log keeps each step of a shard with its outcome (`machine_hub`). What takes memory there is texts: those of the
//! spans that were posted, and those of the batches that left. Spans repeat the same keys and values, so a
//! [`PackedEntry`] keeps these texts packed (`packed_text`), and what stands round spans in copies, so that no body
//! stays for it. It is seen as the entry that it was made of, and gives that again.
//!
//! It stands on `packed_text`, on `prepared_body` for bodies, on `shard_machine` and `tenant_shard` for steps and what
//! they give, on `machine_hub` for entries, and on the kit's `bytes`. The rules are this project's own.
#![tactic(auto)]

mod body;
mod entry;
mod origins;

pub use entry::PackedEntry;
