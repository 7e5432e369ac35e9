//! One thread with two seats.

ghost use Rattle.std.specs.Prelude.{◌≡◌};

use bytes::Bytes;
use job_lane::{Job, Lane, LaneSeat, LaneTotals};
use std::alloc::Global;
use std::process::Abort;
use std::sync::Wait;

/// A job of tenant 7.
fn job(rt: &impl Abort, alloc: Global, ticket: u64) -> Job {
    Job {
        tenant: 7,
        ticket,
        payload: Bytes::copy_from_slice(alloc, b"span").expect(rt, "memory"),
    }
}

/// The ticket of a job that is as it was made, 0 where there is no job.
fn ticket(job: Option<Job>) -> u64 {
    match job {
        Some(job) if job.tenant == 7 && job.payload.as_slice() == b"span".as_slice() => job.ticket,
        Some(_) => u64::MAX,
        None => 0,
    }
}

/// Pushes such a job. The ticket of the job that came back.
fn push<R: Wait + Abort>(
    rt: &R,
    alloc: Global,
    lane: &Lane,
    seat: &mut LaneSeat,
    number: u64,
) -> u64
    requires { seat.old.lane ≡ lane.now.name }
    ensures { seat.new.lane ≡ lane.now.name }
{
    let job = job(rt, alloc, number);
    ticket(lane.push(rt, seat, job).err())
}

/// A lane of two is empty, takes two jobs and gives the third back, takes it once there is room, and gives the fourth
/// back. What comes out is whole and in order. Tickets of what came back or out at each call, and the lane's totals.
fn story<R: Wait + Abort>(rt: &R, alloc: Global) -> ([u64; 8], LaneTotals) {
    let (lane, keeper, mut seats) = Lane::open(alloc, 2, 2).expect(rt, "memory");
    let mut one = seats.pop().expect(rt, "a seat");
    let mut two = seats.pop().expect(rt, "another");
    let tickets = [
        ticket(lane.pop(rt, &mut two)),
        push(rt, alloc, &lane, &mut one, 1),
        push(rt, alloc, &lane, &mut one, 2),
        push(rt, alloc, &lane, &mut one, 3),
        ticket(lane.pop(rt, &mut two)),
        push(rt, alloc, &lane, &mut one, 3),
        push(rt, alloc, &lane, &mut one, 4),
        ticket(lane.pop(rt, &mut two)),
    ];
    let seats = vec![in alloc; one, two].expect(rt, "memory");
    (tickets, lane.close(rt, keeper, seats))
}

#[test]
fn a_full_lane_gives_the_job_back(rt: HostRuntime) {
    let totals = LaneTotals {
        pushed: 3,
        taken: 2,
        left: 1,
    };
    assert!(rt; story(&rt, rt.alloc()) == ([0, 0, 0, 3, 1, 0, 4, 2], totals));
}
