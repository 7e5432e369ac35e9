//! The rule of the queue under a lane, and what its steps tell.

use crate::job::Job;
use crate::view::SeatView;
use crossbeam_queue::protocol::{Join, Lesson, Outcome, Protocol, Split};

/// Jobs come out in the order in which they went in, each once. The first pass has the one part that there is.
pub struct InOrder;

impl Protocol<Job, SeatView> for InOrder {
    ghost use Rattle.std.specs.Prelude.{[]};
    ghost use Rattle.job_lane.specs.Rule.{IsLane, seat_view};

    ghost holds = { IsLane };

    ghost first = { seat_view 1 1 [] [] };
}

/// There is one part more.
pub struct Widens;

impl Split<SeatView> for Widens {
    ghost use Rattle.std.specs.Prelude.{[], ◌+◌};
    ghost use Rattle.job_lane.specs.Rule.{seat_view};

    ghost left = { λ v. seat_view (v.parts + 1) (v.whole + 1) v.pushes v.pops };

    ghost right = { λ v. seat_view 0 0 [] [] };
}

/// A part is cut off for a new seat, and comes back.
pub struct Seats;

impl Split<SeatView> for Seats {
    ghost use Rattle.std.specs.Prelude.{[], ◌-◌};
    ghost use Rattle.job_lane.specs.Rule.{seat_view};

    ghost left = { λ v. seat_view (v.parts - 1) v.whole v.pushes v.pops };

    ghost right = { λ v. seat_view 1 v.whole [] [] };
}

impl Join<SeatView> for Seats {
    ghost use Rattle.std.specs.Prelude.{[], ◌+◌, ◌++◌};
    ghost use Rattle.job_lane.specs.Rule.{seat_view};

    ghost both = { λ v w. seat_view (v.parts + w.parts) w.whole (w.pushes ++ v.pushes) (w.pops ++ v.pops) };

    ghost spent = { seat_view 0 0 [] [] };
}

/// A job goes in.
pub struct Pushed;

impl Outcome<Job, SeatView> for Pushed {
    ghost use Rattle.job_lane.specs.Rule.{Pushes};

    ghost then = { Pushes };
}

impl Lesson<Job, SeatView> for Pushed {
    ghost use Rattle.job_lane.specs.Rule.{Learned};

    ghost fact = { Learned };
}

/// A job comes out.
pub struct Popped;

impl Outcome<Job, SeatView> for Popped {
    ghost use Rattle.job_lane.specs.Rule.{Pops};

    ghost then = { Pops };
}

impl Lesson<Job, SeatView> for Popped {
    ghost use Rattle.job_lane.specs.Rule.{Learned};

    ghost fact = { Learned };
}

/// The jobs that are left are counted.
pub struct Ends;

impl Lesson<Job, SeatView> for Ends {
    ghost use Rattle.job_lane.specs.Rule.{Counted};

    ghost fact = { Counted };
}
