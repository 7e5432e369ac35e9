//! The lane, and who can end it.

ghost use Rattle.std.specs.Prelude.{◌≡◌, ℕ, ◌+◌, ◌^◌, ◌<◌, ◌≤◌, ◌⊎◌, ◌++◌, ◌∷◌, [], length, All, OnOk, IfErr, IfOk, IfSome, IfNone, vec_len, replicate};
ghost use Rattle.crossbeam_queue.specs.Passes.{view as known, IsPassOf};
ghost use Rattle.log_positions.specs.Numbered.{AreBelow, AreRising};
ghost use Rattle.job_lane.specs.Lane.{lane_name, new_seat, WasFull, WasEmpty, IsWholeRun};
ghost use Rattle.job_lane.specs.Rule.{seat_view, with_seat};

use crate::job::Job;
use crate::rule::{Ends, InOrder, Popped, Pushed, Seats, Widens};
use crate::seat::LaneSeat;
use crate::view::SeatView;
use crossbeam_queue::{Pass, RuledArrayQueue};
use std::alloc::{AllocError, Global};
use std::marker::Model;
use std::sync::Wait;

// A seat pushes at most so often.
const MOST_PUSHES: u64 = 1 << 62;

type Queue = RuledArrayQueue<Job, SeatView, InOrder>;

/// A bounded queue of jobs, first in first out, which threads share by reference. What it holds at a moment is for no
/// clause to say, since other threads push and pop at any time: what a seat pushed and popped stands in the seat.
#[derive(Drop)]
pub struct Lane {
    queue: Queue,
    // How many it was opened with.
    seats: usize,
}

impl Model for Lane {
    ghost use Rattle.job_lane.specs.Lane.{LaneShape};

    ghost Value = { LaneShape };

    ghost use Rattle.crossbeam_queue.specs.Passes.{ruled_capacity};
    ghost use Rattle.job_lane.specs.Lane.{lane_name};

    ghost view = { λ l. record {
      name = lane_name l.queue.table.shared.table_id l.seats;
      capacity = ruled_capacity l.queue;
    } };
}

/// Who opened a lane, and can end it.
#[derive(Drop)]
pub struct LaneKeeper {
    // Has no part: the seats have them all.
    root: Pass<Job, SeatView>,
}

impl Model for LaneKeeper {
    ghost use Rattle.job_lane.specs.Lane.{LaneName};

    ghost Value = { LaneName };

    ghost use Rattle.std.specs.Prelude.{◌≡◌, ◌<◌, []};
    ghost use Rattle.crossbeam_queue.specs.Passes.{view as known};
    ghost use Rattle.job_lane.specs.Lane.{lane_name};
    ghost use Rattle.job_lane.specs.Rule.{seat_view};

    ghost view = { λ k. lane_name k.root.table_id (known k.root).whole };

    ghost invariant = { λ k. (k.root.me.1 ≡ []) × (0 < (known k.root).whole)
        × (known k.root ≡ seat_view 0 (known k.root).whole [] []) };
}

impl Lane {
    /// An empty lane with room for `capacity` jobs, its keeper and its seats, one for each thread that pushes or pops.
    /// Where memory is refused nothing is kept. A capacity of 2^60 or more counts as such.
    pub fn open(
        alloc: Global,
        capacity: usize,
        seats: usize,
    ) -> Result<(Lane, LaneKeeper, Vec<LaneSeat>), AllocError>
        requires capacity { 0 < capacity }
        requires seats { 0 < seats }
        ensures lane { IfOk result (λ r. (r.0.capacity ≡ capacity) × (r.0.name.seats ≡ seats)) }
        ensures keeper { IfOk result (λ r. r.1 ≡ r.0.name) }
        ensures seats { IfOk result (λ r. r.2.items ≡ replicate seats (new_seat r.0.name)) }
    {
        let (queue, mut root) = Queue::ruled(alloc, capacity)?;
        widen(&queue, &mut root, seats);
        let list = seats_of(alloc, &queue, &mut root, seats)?;
        Ok((Lane { queue, seats }, LaneKeeper { root }, list))
    }

    /// How many jobs it holds at most.
    pub fn capacity(&self) -> usize
        ensures { result ≡ self.now.capacity }
    {
        self.queue.capacity()
    }

    /// How many seats it was opened with: so many [`Lane::close`] asks for.
    pub fn seats(&self) -> usize
        ensures { result ≡ self.now.name.seats }
    {
        self.seats
    }

    /// Adds a job at the end. Gives it back where the lane is full, or where this seat has pushed 2^62 jobs. It may
    /// wait for a push or a pop of another thread that has begun, but not for room.
    pub fn push<R: Wait>(&self, rt: &R, seat: &mut LaneSeat, job: Job) -> Result<(), Job>
        requires { seat.old.lane ≡ self.now.name }
        ensures same { (seat.new.lane ≡ seat.old.lane) × (seat.new.pops ≡ seat.old.pops) }
        ensures pushed { OnOk result ((n : ℕ) × AreBelow n seat.old.pushes
            × (seat.new.pushes ≡ seat.old.pushes ++ (n, job) ∷ [])) }
        ensures back { IfErr result (λ back. (back ≡ job) × (seat.new ≡ seat.old)) }
        ensures full { IfErr result (λ _. (2 ^ 62 ≤ length seat.old.pushes)
            ⊎ WasFull self.now.capacity seat.old) }
    {
        if seat.pushed >= MOST_PUSHES {
            return Err(job);
        }
        self.queue.push_as::<Pushed, R>(rt, &mut seat.pass, job)?;
        seat.pushed += 1;
        Ok(())
    }

    /// Takes the first job. None where there is none: it waits for no push, but it may for a push or a pop of another
    /// thread that has begun.
    pub fn pop<R: Wait>(&self, rt: &R, seat: &mut LaneSeat) -> Option<Job>
        requires { seat.old.lane ≡ self.now.name }
        ensures same { (seat.new.lane ≡ seat.old.lane) × (seat.new.pushes ≡ seat.old.pushes) }
        ensures popped { IfSome result (λ job. (n : ℕ) × AreBelow n seat.old.pops
            × (seat.new.pops ≡ seat.old.pops ++ (n, job) ∷ [])) }
        ensures none { IfNone result ((seat.new ≡ seat.old) × WasEmpty seat.old) }
    {
        self.queue.pop_as::<Popped, R>(rt, &mut seat.pass)
    }

    /// Ends the lane, once all its seats are back, and counts. Jobs that are left are let go.
    pub fn close<R: Wait>(self, rt: &R, keeper: LaneKeeper, mut seats: Vec<LaneSeat>) -> LaneTotals
        requires keeper { keeper ≡ self.name }
        requires all { vec_len seats ≡ keeper.seats }
        requires same_lane { All (λ s. s.lane ≡ keeper) seats.items }
        ensures run { IsWholeRun seats.items result.taken result.left }
        ensures pushed { result.pushed ≡ result.taken + result.left }
        ensures left { result.left ≤ self.capacity }
    {
        let Lane { queue, seats: _ } = self;
        let LaneKeeper { mut root } = keeper;
        let mut pushed: u128 = 0;
        while let Some(last) = seats.pop() {
            pushed += u128::from(take_in(&queue, &mut root, last));
        }
        let left = queue.len_as::<Ends, R>(rt, &mut root) as u128;
        LaneTotals {
            pushed,
            taken: pushed - left,
            left,
        }
    }
}

/// Makes as many parts as there are to be seats.
fn widen(queue: &Queue, root: &mut Pass<Job, SeatView>, seats: usize)
    requires seats { 0 < seats }
    requires root { IsPassOf queue.now root.old × (known root.old ≡ seat_view 1 1 [] []) }
    ensures { IsPassOf queue.now root.new × (known root.new ≡ seat_view seats seats [] []) }
{
    for _ in 1..seats {
        let _nobody = queue.another::<Widens>(root);
    }
}

/// The seats, each with one part.
fn seats_of(
    alloc: Global,
    queue: &Queue,
    root: &mut Pass<Job, SeatView>,
    seats: usize,
) -> Result<Vec<LaneSeat>, AllocError>
    requires root { IsPassOf queue.now root.old × (known root.old ≡ seat_view seats seats [] []) }
    ensures root { OnOk result (IsPassOf queue.now root.new
        × (known root.new ≡ seat_view 0 seats [] [])) }
    ensures seats { IfOk result (λ list.
        list.items ≡ replicate seats (new_seat (lane_name queue.now.table.shared.table_id seats))) }
{
    let mut list = Vec::new(alloc);
    for _ in 0..seats {
        let pass = queue.another::<Seats>(root);
        list.push(LaneSeat::new(pass))?;
    }
    Ok(list)
}

/// Takes in a seat, and says how often it pushed.
fn take_in(queue: &Queue, root: &mut Pass<Job, SeatView>, last: LaneSeat) -> u64
    requires root { IsPassOf queue.now root.old }
    requires last { last.lane.table ≡ queue.now.table.shared.table_id }
    ensures root { IsPassOf queue.now root.new
        × (known root.new ≡ with_seat (known root.old) last) }
    ensures pushed { (result ≡ length last.pushes) × (result ≤ 2 ^ 62) }
    ensures rising { AreRising last.pushes × AreRising last.pops }
{
    let LaneSeat { pass, pushed } = last;
    queue.absorb::<Seats>(root, pass);
    pushed
}

/// How many jobs were pushed, how many of these were popped, and how many were left.
#[derive(Clone, Copy, PartialEq, Eq, Debug)]
pub struct LaneTotals {
    pub pushed: u128,
    pub taken: u128,
    pub left: u128,
}
