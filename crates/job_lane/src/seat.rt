//! A place at a lane.

ghost use Rattle.std.specs.Prelude.{◌≡◌, []};
ghost use Rattle.crossbeam_queue.specs.Passes.{view as known};
ghost use Rattle.job_lane.specs.Lane.{lane_name, new_seat};
ghost use Rattle.job_lane.specs.Rule.{seat_view};

use crate::job::Job;
use crate::view::SeatView;
use crossbeam_queue::Pass;
use std::marker::Model;

/// A place at a lane, for one thread at a time. Contracts see it as its lane and all that it pushed and popped, each
/// job with its number; none of that is stored. A seat that is let go can't be had again, and its lane then can't be
/// closed.
#[derive(Drop)]
pub struct LaneSeat {
    pub(crate) pass: Pass<Job, SeatView>,
    // How many jobs it pushed.
    pub(crate) pushed: u64,
}

impl Model for LaneSeat {
    ghost use Rattle.job_lane.specs.Lane.{SeatLists};

    ghost Value = { SeatLists };

    ghost use Rattle.std.specs.Prelude.{◌≡◌, ◌≤◌, ◌^◌, length, []};
    ghost use Rattle.crossbeam_queue.specs.Passes.{view as known};
    ghost use Rattle.log_positions.specs.Numbered.{AreRising};
    ghost use Rattle.job_lane.specs.Lane.{lane_name};

    ghost view = { λ s. record {
      lane = lane_name s.pass.table_id (known s.pass).whole;
      pushes = (known s.pass).pushes;
      pops = (known s.pass).pops;
    } };

    ghost invariant = { λ s. (s.pass.me.1 ≡ []) × ((known s.pass).parts ≡ 1)
        × (s.pushed ≡ length (known s.pass).pushes) × (s.pushed ≤ 2 ^ 62)
        × AreRising (known s.pass).pushes × AreRising (known s.pass).pops };
}

impl LaneSeat {
    pub(crate) fn new(pass: Pass<Job, SeatView>) -> LaneSeat
        requires slots { pass.me.1 ≡ [] }
        requires fresh { known pass ≡ seat_view 1 (known pass).whole [] [] }
        ensures { result ≡ new_seat (lane_name pass.table_id (known pass).whole) }
    {
        LaneSeat { pass, pushed: 0 }
    }
}
