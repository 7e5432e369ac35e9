//! A list that two holders know alike while threads come and go between them. Each has a half. Whoever has one knows
//! what the list is, and whoever has both can add to it.
//!
//! Neither the list nor a half takes memory, but for one word of the table that the halves are cut from: what is known
//! is known in the proofs alone. It stands on `atomic_table`, and on `log_positions` for sums of parts.
#![tactic(auto)]

mod known;
mod list;

pub use list::{AgreedList, Half, More};
