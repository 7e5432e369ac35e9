//! The threads of a service at its lane and its listener.
//!
//! [`assign_threads`] makes a [`Worker`] of each caller: a dispatcher for each shard, then senders, then threads of the
//! admin port, then receivers. [`turn_all`], [`send_all`] and [`receive`] are their work, and [`collect_callers`]
//! returns callers and seats after it. The contracts say which calls a thread made at the shards and at the lane.
#![tactic(auto)]

ghost use Rattle.service_workers.specs.Jobs.{PoppedWereGiven};

mod assignment;
mod workers;

pub use crate::assignment::{assign_threads, collect_callers};
pub use crate::workers::{Role, Worker, receive, send_all, turn_all};

/// Each job that was popped from a service's lane, and so each that was sent, is one that a call of its callers gave: a
/// law over what a service comes to.
pub fn popped_jobs_were_given()
    ensures { PoppedWereGiven }
{
    job_lane::pops_were_pushed();
}
