//! The rows of all tenants of a shard, in two ordered maps: rows in blocks by tenant and number, and by tenant and
//! trace id the number of the trace's latest row.
//!
//! A row is a trace that waits for its decision, or was decided and isn't forgotten yet. It has the keys of the spans
//! that wait, which are numbers to this crate, and a note of them, which is any value that the caller makes of spans
//! and joins as they come. Row numbers are the caller's: where they rise as rows open, the next decision and the row
//! that has to leave are found by number, and no map by moments is needed. The maps are ordered, so ids that somebody
//! chose cost no more than others. Moments are milliseconds.
//!
//! Contracts speak of a tenant's part: its rows by number and its traces' latest rows, as functions (`specs/Part`).
//! Each call changes the part of the tenant that it names, and leaves every other tenant's part as it was. Only
//! [`TraceRows::open`] and [`TraceRows::join`] take memory; where it is refused, this tenant's part is as it was, too.
//! What they did, [`TraceRows::undo_open`] and [`TraceRows::undo_join`] take back.
//!
//! It stands on no other crate. What rows are for is this project's own rule.
#![tactic(auto)]

mod block;
mod keys;
mod latest_rows;
mod table;

pub use keys::Keys;
pub use latest_rows::halves_of;
pub use table::{Row, TraceRows};
