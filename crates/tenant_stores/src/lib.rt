//! What a tenant has in the stores that all tenants of a shard share: its spans, the texts that these share, its
//! traces' rows, and which of them is each trace's latest.
//!
//! A span lies in one pool, the texts of its resource, its scope and their schemas in another, and a row of a table
//! names the spans of a trace that wait for its decision. [`Stores`] has the three, and its calls change them together:
//! a span that comes joins a row or opens one, and one that leaves gives back its uses of texts.
//!
//! Contracts speak of a tenant's part, functions of its own keys, row numbers and traces (`specs/Part`), of what that
//! shows (`specs/View`), and of what always holds of it (`specs/Invariant`): each span is named exactly once, by a row
//! that waits or in the list of those that wait for a batch, and each text is kept for as many as name it. Each call
//! changes the part of one tenant, and leaves every other tenant's part equal. Where memory is refused, all parts are
//! equal to what they were. What a span changed can be taken back without memory.
//!
//! How many rows there are, and which of them are decided, are numbers of the caller's (`specs/Counts`), and so is the
//! list of spans that wait for a batch. A row's note is the caller's too.
//!
//! It stands on `span_pool`, `text_pool` and `trace_rows`. What rows are for is this project's own rule.
#![tactic(auto)]

mod law;
mod stores;
mod texts;
mod undo;

pub use law::{first_is_shown, keys_are_shown, lengths_are, room_is_made};
pub use stores::Stores;
pub use undo::{Joining, Opening, UndoEntry};
