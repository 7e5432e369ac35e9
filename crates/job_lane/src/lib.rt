//! The lane between those who make jobs and those who send them: a bounded queue, first in first out, that any number
//! of threads share.
//!
//! Each thread has a seat. A seat knows what it pushed and popped, each job with its number, that is its position in
//! the order of all pushes. Once all seats are back [`Lane::close`] says of all of them together that each job was
//! pushed once and popped once or not at all, first in first out, and how many were left (`specs/Lane`).
//!
//! It stands on `crossbeam_queue`'s queue under a rule of the caller's (`specs/Rule`), on `bytes`, and on
//! `log_positions`. The rule of the lane is this project's own.
#![tactic(auto)]

ghost use Rattle.std.specs.Prelude.{◌≡◌, ◌↔◌, true};
ghost use Rattle.job_lane.specs.Law.{LoneSeatsKnow, PopsWerePushed, FirstInFirstOut};

mod job;
mod lane;
mod rule;
mod seat;
mod view;

pub use job::Job;
pub use lane::{Lane, LaneKeeper, LaneTotals};
pub use seat::LaneSeat;

/// What a lane's only seat is told of a full and of an empty lane is so: a law over the definitions.
pub fn lone_seats_know()
    ensures { LoneSeatsKnow }
{}

/// What was popped was pushed, and what was pushed and not popped is left: a law over the definitions.
pub fn pops_were_pushed()
    ensures { PopsWerePushed }
{}

/// Between one seat that pushes and one that pops, jobs come out in the order in which they went in: a law over the
/// definitions.
pub fn first_in_first_out()
    ensures { FirstInFirstOut }
{}

/// Totals are equal where all three numbers are the same.
pub fn equal_totals()
    ensures { (a b : LaneTotals) → (⟦<LaneTotals as PartialEq>⟧.eq a b ≡ true) ↔ (a ≡ b) }
{}
