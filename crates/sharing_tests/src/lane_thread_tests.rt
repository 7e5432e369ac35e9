//! One thread pushes and another pops. Each wait has a limit, so that a fault fails a test in place of hanging it.

ghost use Rattle.std.specs.Prelude.{◌≡◌, ◌<◌};

use bytes::Bytes;
use job_lane::{Job, Lane, LaneSeat, LaneTotals};
use std::alloc::Global;
use std::sync::Wait;
use std::thread;
use std::thread::{Threads, join};

/// How often a thread tries before it gives up.
const TURNS: u32 = 1_000_000;

/// What a thread popped, in its order, and its seat.
#[derive(Drop)]
struct Popped {
    seat: LaneSeat,
    tickets: Vec<u64>,
}

/// Pushes a job, and tries again while the lane is full.
fn push_one<R: Wait>(rt: &R, lane: &Lane, seat: &mut LaneSeat, ticket: u64)
    requires { seat.old.lane ≡ lane.now.name }
    ensures { seat.new.lane ≡ lane.now.name }
{
    let mut held = Job {
        tenant: 0,
        ticket,
        payload: Bytes::new(),
    };
    for _ in 0..TURNS {
        match lane.push(rt, seat, held) {
            Ok(()) => return,
            Err(back) => held = back,
        }
        thread::yield_now();
    }
}

/// Pops a job, and tries again while the lane is empty.
fn pop_one<R: Wait>(rt: &R, lane: &Lane, seat: &mut LaneSeat) -> Option<Job>
    requires { seat.old.lane ≡ lane.now.name }
    ensures { seat.new.lane ≡ lane.now.name }
{
    for _ in 0..TURNS {
        let job = lane.pop(rt, seat);
        if job.is_some() {
            return job;
        }
        thread::yield_now();
    }
    None
}

/// Pushes jobs with the tickets from 0 on.
fn push_some<R: Wait>(rt: &R, lane: &Lane, mut seat: LaneSeat, count: u64) -> LaneSeat
    requires { seat.lane ≡ lane.now.name }
    ensures { result.lane ≡ lane.now.name }
{
    for ticket in 0..count {
        push_one(rt, lane, &mut seat, ticket);
    }
    seat
}

/// Pops so many jobs.
fn pop_some<R: Wait>(rt: &R, alloc: Global, lane: &Lane, mut seat: LaneSeat, count: u64) -> Popped
    requires { seat.lane ≡ lane.now.name }
    ensures { result.seat.lane ≡ lane.now.name }
{
    let mut tickets = Vec::new(alloc);
    for _ in 0..count {
        if let Some(job) = pop_one(rt, lane, &mut seat) {
            let _ = tickets.push(job.ticket);
        }
    }
    Popped { seat, tickets }
}

/// Whether the tickets are those from 0 on, in order.
fn count_up(tickets: &[u64]) -> bool {
    for i in 0..tickets.len() {
        if tickets[i] != i as u64 {
            return false;
        }
    }
    true
}

/// One thread pushes so many jobs while another pops so many.
fn push_and_pop<R: Threads + Wait + Sync>(
    rt: &R,
    alloc: Global,
    lane: &Lane,
    one: LaneSeat,
    pushes: u64,
    two: LaneSeat,
    pops: u64,
) -> (LaneSeat, Popped)
    requires { (one.lane ≡ lane.now.name) × (two.lane ≡ lane.now.name) }
    ensures first { result.0.lane ≡ lane.now.name }
    ensures second { result.1.seat.lane ≡ lane.now.name }
{
    join(
        rt,
        move || -> LaneSeat
            requires { one.lane ≡ lane.now.name }
            ensures { result.lane ≡ lane.entry.now.name }
        { push_some(rt, lane, one, pushes) },
        move || -> Popped
            requires { two.lane ≡ lane.now.name }
            ensures { result.seat.lane ≡ lane.entry.now.name }
        { pop_some(rt, alloc, lane, two, pops) },
    )
}

/// Runs both threads. Gives how many tickets came out, whether they did in order, and the lane's totals.
fn run_both<R: Threads + Wait + Sync>(
    rt: &R,
    alloc: Global,
    capacity: usize,
    pushes: u64,
    pops: u64,
) -> Option<(usize, bool, LaneTotals)>
    requires { 0 < capacity }
{
    let (lane, keeper, mut seats) = Lane::open(alloc, capacity, 2).ok()?;
    let (Some(one), Some(two)) = (seats.pop(), seats.pop()) else {
        return None;
    };
    let (one, popped) = push_and_pop(rt, alloc, &lane, one, pushes, two, pops);
    let in_order = count_up(&popped.tickets);
    let count = popped.tickets.len();
    let seats = vec![in alloc; one, popped.seat].ok()?;
    Some((count, in_order, lane.close(rt, keeper, seats)))
}

/// A lane of one: each push has to wait for the pop before it.
#[test]
fn two_threads_take_turns(rt: HostRuntime) {
    let totals = LaneTotals {
        pushed: 500,
        taken: 500,
        left: 0,
    };
    assert!(rt; run_both(&rt, rt.alloc(), 1, 500, 500) == Some((500, true, totals)));
}

/// A lane of 256: 200 of 1,000 jobs are left, which were never popped.
#[test]
fn some_jobs_are_left(rt: HostRuntime) {
    let totals = LaneTotals {
        pushed: 1000,
        taken: 800,
        left: 200,
    };
    assert!(rt; run_both(&rt, rt.alloc(), 256, 1000, 800) == Some((800, true, totals)));
}
