//! The moment, pauses, and what threads tell one another of the service's course.

ghost use Rattle.std.specs.Prelude.{◌≡◌, IfOk};

use crate::body_memory::BodyMemory;
use crate::gates::Gates;
use crate::large_bodies::LargeBodies;
use crate::last_answers::LastAnswers;
use crate::pace::{Pace, Paces, Pause};
use crate::reserve::Reserve;
use crate::rest::{Bells, Rest};
use crate::tally::Tally;
use export_edge::Beat;
use std::alloc::{AllocError, Global};
use std::sync::Wait;
use std::sync::atomic::{AtomicBool, AtomicUsize, Ordering};
use std::time::{Clock, Instant};

/// What all threads share beside the shards: signs of the service's course, what wakes and bounds them, and what they
/// count.
#[derive(Drop)]
pub struct Signals {
    // How many threads are at their work. Like the three signs behind it, it never goes back.
    here: AtomicUsize,
    end_asked: AtomicBool,
    closing: AtomicBool,
    over: AtomicBool,
    bells: Bells,
    paces: Paces,
    reserve: Reserve,
    gates: Gates,
    body_memory: BodyMemory,
    large_bodies: LargeBodies,
    tally: Tally,
    last_answers: LastAnswers,
}

impl Signals {
    /// Nobody is there yet. So many bytes of bodies may be on their way at a time.
    pub fn new(
        alloc: Global,
        shards: usize,
        senders: u32,
        body_memory: Option<u64>,
    ) -> Result<Signals, AllocError>
        ensures { IfOk result (λ signals. signals.body_memory.most ≡ body_memory) }
    {
        Ok(Signals {
            here: AtomicUsize::new(0),
            end_asked: AtomicBool::new(false),
            closing: AtomicBool::new(false),
            over: AtomicBool::new(false),
            bells: Bells::new(alloc, shards, senders)?,
            paces: Paces::new(alloc, shards)?,
            reserve: Reserve::new(alloc),
            gates: Gates::new(alloc)?,
            body_memory: BodyMemory::new(body_memory),
            large_bodies: LargeBodies::new(alloc)?,
            tally: Tally::new(),
            last_answers: LastAnswers::new(alloc)?,
        })
    }

    /// What wakes those who rest.
    pub(crate) fn bells(&self) -> &Bells {
        &self.bells
    }

    /// How moments go on while memory is short.
    pub fn paces(&self) -> &Paces {
        &self.paces
    }

    /// Memory is short: from now on the shards' moments go on millisecond by millisecond. Turners that rest look at
    /// once what is due.
    pub(crate) fn slow_down(&self) {
        self.paces.slow_down();
        self.bells.ring_shards();
    }

    /// A post was refused memory.
    pub fn refuse_post(&self) {
        self.tally.refuse();
        self.slow_down();
    }

    /// Whether this shard takes no post at this moment, in milliseconds: the reserve isn't there, or memory was short
    /// and too much is due there since. A post would do all of that in its one step.
    pub fn is_short(&self, shard: usize, now: u64) -> bool {
        let is_behind = match self.paces.shard(shard) {
            Some(pace) => pace.is_behind(now),
            None => false,
        };
        is_behind || !self.reserve.is_there()
    }

    /// What is kept back for those who let memory go.
    pub fn reserve(&self) -> &Reserve {
        &self.reserve
    }

    /// The gates before the shards' locks.
    pub fn gates(&self) -> &Gates {
        &self.gates
    }

    /// Memory for bodies that are on their way.
    pub fn body_memory(&self) -> &BodyMemory {
        &self.body_memory
    }

    /// Room for large bodies.
    pub fn large_bodies(&self) -> &LargeBodies {
        &self.large_bodies
    }

    /// What threads count of what they do.
    pub fn tally(&self) -> &Tally {
        &self.tally
    }

    /// What tenants' back ends answered last.
    pub fn last_answers(&self) -> &LastAnswers {
        &self.last_answers
    }

    /// One thread more is at its work: how many are now. The last of so many wakes the others.
    pub(crate) fn arrive(&self, threads: usize) -> usize {
        let here = self.here.fetch_add(1, Ordering::SeqCst).saturating_add(1);
        if here >= threads {
            self.bells.ring_start();
        }
        here
    }

    /// How many threads are at their work.
    pub(crate) fn here(&self) -> usize {
        self.here.load(Ordering::SeqCst)
    }

    /// The service is to end: no tenant that goes is waited for any longer, since all are drained.
    pub fn ask_end(&self) {
        self.end_asked.store(true, Ordering::SeqCst);
    }

    /// Whether the service is to end.
    pub fn is_end_asked(&self) -> bool {
        self.end_asked.load(Ordering::SeqCst)
    }

    /// No more spans are taken.
    pub fn close(&self) {
        self.closing.store(true, Ordering::SeqCst);
    }

    /// Whether no more spans are taken.
    pub fn is_closing(&self) -> bool {
        self.closing.load(Ordering::SeqCst)
    }

    /// The work is over.
    pub fn end(&self) {
        self.close();
        self.over.store(true, Ordering::SeqCst);
        self.bells.ring_all();
    }

    /// Whether the work is over.
    pub fn is_over(&self) -> bool {
        self.over.load(Ordering::SeqCst)
    }
}

/// Counts milliseconds from one instant, and pauses. Where the clock fails the moment stays as it was.
#[derive(Drop)]
pub struct ServiceBeat<'b, C> {
    clock: &'b C,
    signals: &'b Signals,
    start: Instant,
    /// The moment that it gave last, in milliseconds from its start. Nobody sets it from outside.
    pub last: u64,
    // When it was last asked for the moment, or paused, in milliseconds.
    begun: u64,
    rest: Rest<'b>,
    pace: Pace<'b>,
}

impl<'b, C: Clock> ServiceBeat<'b, C> {
    /// Counts from `start`.
    pub fn new(clock: &'b C, signals: &'b Signals, start: Instant) -> ServiceBeat<'b, C> {
        ServiceBeat {
            clock,
            signals,
            start,
            last: 0,
            begun: 0,
            rest: Rest::short(),
            pace: Pace::of_clock(),
        }
    }

    /// What threads tell one another.
    pub fn signals(&self) -> &'b Signals {
        self.signals
    }

    /// A beat like this, whose pauses are short.
    pub fn with_short_pauses(&self) -> ServiceBeat<'b, C> {
        self.with(Rest::short(), Pace::of_clock())
    }

    /// A beat like this, for who waits until all are at their work.
    pub(crate) fn of_arrival(&self) -> ServiceBeat<'b, C> {
        self.with(Rest::of_arrival(self.signals.bells()), Pace::of_clock())
    }

    /// A beat like this, for the turner of this shard.
    pub fn of_turner(&self, shard: usize) -> ServiceBeat<'b, C> {
        self.with(
            Rest::of_turner(self.signals.bells(), shard),
            Pace::of_turner(self.signals.paces(), shard),
        )
    }

    /// A beat like this, for who makes chores.
    pub fn of_chores(&self) -> ServiceBeat<'b, C> {
        self.with(Rest::of_chores(self.signals.paces()), self.behind_turners())
    }

    /// A beat like this, for a sender.
    pub fn of_sender(&self) -> ServiceBeat<'b, C> {
        self.with(Rest::of_sender(self.signals.bells()), self.behind_turners())
    }

    fn behind_turners(&self) -> Pace<'b> {
        Pace::of_follower(self.signals.paces())
    }

    /// A beat like this, for who rests so, and whose moments go on so.
    fn with(&self, rest: Rest<'b>, pace: Pace<'b>) -> ServiceBeat<'b, C> {
        ServiceBeat {
            clock: self.clock,
            signals: self.signals,
            start: self.start,
            last: self.last,
            begun: self.elapsed(),
            rest,
            pace,
        }
    }

    /// Milliseconds from the start on. Where the clock fails those for which it was last asked.
    fn elapsed(&self) -> u64 {
        match self.start.elapsed(self.clock) {
            Ok(elapsed) => u64::try_from(elapsed.as_millis()).unwrap_or(u64::MAX),
            Err(_) => self.begun,
        }
    }
}

impl<C: Wait + Clock> Beat for ServiceBeat<'_, C> {
    ghost use Rattle.service_runtime.specs.Moments.{RisesBy};

    // The moment that it gives is its last one, and not below the one before.
    ghost calls = { λ old call new. RisesBy old.last call new.last };

    fn is_over(&mut self) -> bool {
        self.rest.look();
        self.signals.is_over()
    }

    fn now(&mut self) -> u64 {
        self.rest.time();
        self.begun = self.elapsed();
        self.last = self.last.max(self.pace.moment(self.last, self.begun));
        self.last
    }

    fn pause(&mut self) {
        let now = self.elapsed();
        let took = now.saturating_sub(self.begun);
        match self.pace.pause(self.clock, self.signals.reserve()) {
            Pause::None => {}
            Pause::Short => Rest::short().pause(self.clock, took, 0),
            Pause::AsLong => Rest::of_attempts().pause(self.clock, took, 0),
            Pause::Usual => self.rest.pause(self.clock, took, self.pace.left(now)),
        }
        self.begun = self.elapsed();
    }
}
