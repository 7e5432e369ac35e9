//! Two senders at one lane.

ghost use Rattle.std.specs.Prelude.{◌≡◌};

use crate::notes::{Answers, job};
use export_edge::{BackEnd, Beat, run_sender};
use job_lane::{Job, Lane, LaneSeat};
use send_retry::Answer;
use std::alloc::Global;
use std::process::Abort;
use std::sync::Wait;
use std::sync::atomic::{AtomicU64, Ordering};
use std::thread;
use std::thread::{Threads, join};

/// How often a thread tries before it gives up.
const TURNS: u32 = 1_000_000;

/// Answers the job with ticket 1 only once the other one was answered.
#[derive(Drop)]
struct Holding<'a> {
    alloc: Global,
    answered: &'a AtomicU64,
}

impl BackEnd for Holding<'_> {
    ghost posts = { λ _ _ _. Unit {0} };

    fn post(&mut self, job: &Job) -> Answer {
        if job.ticket == 1 && !comes(self.answered) {
            return Answer::Failed;
        }
        self.answered.fetch_add(1, Ordering::SeqCst);
        Answer::Http {
            status: 200,
            retry_after: None,
            body: Vec::new(self.alloc),
        }
    }
}

/// Whether an answer comes within so many turns.
fn comes(answered: &AtomicU64) -> bool {
    for _ in 0..TURNS {
        if answered.load(Ordering::SeqCst) > 0 {
            return true;
        }
        thread::yield_now();
    }
    false
}

/// Is over once both jobs were answered, or after so many turns.
#[derive(Drop)]
struct UntilAnswered<'a> {
    turns: u32,
    answered: &'a AtomicU64,
}

impl Beat for UntilAnswered<'_> {
    ghost calls = { λ _ _ _. Unit {0} };

    fn is_over(&mut self) -> bool {
        if self.turns == 0 {
            return true;
        }
        self.turns -= 1;
        self.answered.load(Ordering::SeqCst) >= 2
    }

    fn now(&mut self) -> u64 {
        0
    }

    fn pause(&mut self) {
        thread::yield_now();
    }
}

/// How many answers a sender handed in.
fn send<R: Wait>(
    rt: &R,
    alloc: Global,
    lane: &Lane,
    mut seat: LaneSeat,
    answered: &AtomicU64,
) -> u32
    requires { seat.lane ≡ lane.now.name }
{
    let mut back_end = Holding { alloc, answered };
    let mut sink = Answers {
        refusals: 0,
        count: 0,
        taken: 0,
    };
    let mut beat = UntilAnswered {
        turns: TURNS,
        answered,
    };
    run_sender(rt, lane, &mut seat, &mut back_end, &mut sink, &mut beat);
    sink.count
}

/// Runs two senders at a lane with two jobs. How many answers each handed in, and how many of both were whole.
fn send_both<R>(rt: &R, alloc: Global) -> (u32, u32, u64)
where
    R: Threads + Wait + Sync + Abort,
{
    let (lane, _keeper, mut seats) = Lane::open(alloc, 2, 2).expect(rt, "memory");
    let mut one = seats.pop().expect(rt, "a seat");
    let two = seats.pop().expect(rt, "another seat");
    let _ = lane.push(rt, &mut one, job(0, 1));
    let _ = lane.push(rt, &mut one, job(0, 2));
    let answered = AtomicU64::new(0);
    let shared = &lane;
    let counter = &answered;
    let (one, two) = join(
        rt,
        move || -> u32
            requires { one.lane ≡ shared.now.name }
        { send(rt, alloc, shared, one, counter) },
        move || -> u32
            requires { two.lane ≡ shared.now.name }
        { send(rt, alloc, shared, two, counter) },
    );
    (one, two, answered.load(Ordering::SeqCst))
}

/// A back end that holds the first answer back until the second job was answered keeps one sender, and not both: else
/// one sender would hand in both, the first of them failed.
#[test]
fn a_back_end_that_holds_one_answer_does_not_hold_the_others(rt: HostRuntime) {
    assert!(rt; send_both(&rt, rt.alloc()) == (1, 1, 2));
}
