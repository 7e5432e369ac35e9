//! What a turner did, and what a sender did.

ghost use Rattle.std.specs.Prelude.{◌≡◌};

use crate::notes::{Answers, FewRounds, Tickets, Turns, job};
use export_edge::{run_sender, run_turner};
use job_lane::{Job, Lane, LaneSeat};
use std::alloc::Global;
use std::process::Abort;
use std::sync::Wait;

fn ticket(job: Option<Job>) -> u64 {
    match job {
        Some(job) => job.ticket,
        None => 0,
    }
}

/// The tickets of the job that a turner held at the end, and of the jobs in the lane, 0 where there is none; how often
/// it paused, how many turns it made, and how many jobs it pushed.
fn turned<R: Wait + Abort>(rt: &R, alloc: Global) -> ([u64; 4], u32, u64, u128) {
    let (lane, keeper, mut seats) = Lane::open(alloc, 2, 1).expect(rt, "memory");
    let mut seat = seats.pop().expect(rt, "a seat");
    let mut source = Turns { made: 0 };
    let mut beat = FewRounds {
        rounds: 9,
        moment: 0,
        pauses: 0,
    };
    let held = run_turner(rt, &lane, &mut seat, &mut source, &mut beat);
    let tickets = [
        ticket(held),
        ticket(lane.pop(rt, &mut seat)),
        ticket(lane.pop(rt, &mut seat)),
        ticket(lane.pop(rt, &mut seat)),
    ];
    seats.push(seat).expect(rt, "memory");
    let pushed = lane.close(rt, keeper, seats).pushed;
    (tickets, beat.pauses, source.made, pushed)
}

/// Nine rounds at a lane of two: a turn and a push for the first job, a turn that worked, a turn and a push for the
/// second, a turn with nothing to do, a turn for the third, and two pushes at a lane that is full.
#[test]
fn jobs_are_pushed_in_order_and_kept_where_the_lane_is_full(rt: HostRuntime) {
    assert!(rt; turned(&rt, rt.alloc()) == ([3, 1, 2, 0], 3, 5, 2));
}

/// Pushes a job, for which there is room.
fn push<R: Wait>(rt: &R, lane: &Lane, seat: &mut LaneSeat, job: Job)
    requires { seat.old.lane ≡ lane.now.name }
    ensures { seat.new.lane ≡ seat.old.lane }
{
    let _ = lane.push(rt, seat, job);
}

/// Which tickets a sender posted, which answers it handed in, how often it paused, and how many jobs it took.
fn sent<R: Wait + Abort>(rt: &R, alloc: Global) -> (u64, u64, u32, u128) {
    let (lane, keeper, mut seats) = Lane::open(alloc, 2, 1).expect(rt, "memory");
    let mut seat = seats.pop().expect(rt, "a seat");
    push(rt, &lane, &mut seat, job(7, 200));
    push(rt, &lane, &mut seat, job(8, 503));
    let mut back_end = Tickets { alloc, posted: 0 };
    let mut sink = Answers {
        refusals: 2,
        count: 0,
        taken: 0,
    };
    let mut beat = FewRounds {
        rounds: 3,
        moment: 0,
        pauses: 0,
    };
    run_sender(rt, &lane, &mut seat, &mut back_end, &mut sink, &mut beat);
    seats.push(seat).expect(rt, "memory");
    let taken = lane.close(rt, keeper, seats).taken;
    (back_end.posted, sink.taken, beat.pauses, taken)
}

/// Two jobs of two tenants. The first answer is refused twice, and handed in at the third moment.
#[test]
fn jobs_are_posted_once_and_their_answers_handed_in(rt: HostRuntime) {
    assert!(rt; sent(&rt, rt.alloc()) == (200_503, 73_200_200_84_503_503, 3, 2));
}
