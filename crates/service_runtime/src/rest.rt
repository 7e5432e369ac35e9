//! How threads that have nothing to do rest, and what wakes them.

use crate::pace::Paces;
use std::alloc::{AllocError, Global};
use std::sync::{Condvar, Wait};
use std::thread;
use std::time::{Clock, Duration};

/// A short pause, in milliseconds.
const NAP: u64 = 1;

/// Of those who listen alike each rests so many milliseconds for each one there is, unless it is rung: all together
/// look some sixty times a second, so that a ring that nobody heard costs little.
const LOOK: u64 = 16;

/// So many milliseconds may go by until a turner looks for what is due by the time alone, unless it is rung: what falls
/// due about then shares its wake, and senders find one job behind another.
const GATHERED: u64 = 20;

/// Who makes chores rests so many times as long as what it tried took.
const CHORE_REST: u64 = 4;

/// Who waits for the start looks so often, in milliseconds, whether more have come.
const START_LOOK: u64 = 1_000;

/// All bells. Who rings one makes no call of the system where nobody listens.
#[derive(Drop)]
pub struct Bells {
    // A shard's, to which its turner listens.
    shards: Vec<Condvar>,
    lane: Condvar,
    // That of the start, to which all listen who are there before it.
    start: Condvar,
    // How many listen to the lane's.
    senders: u32,
}

impl Bells {
    /// A bell for each shard, and one for so many senders.
    pub fn new(alloc: Global, shards: usize, senders: u32) -> Result<Bells, AllocError> {
        let mut list = Vec::new(alloc);
        for _ in 0..shards {
            list.push(Condvar::new())?;
        }
        Ok(Bells {
            shards: list,
            lane: Condvar::new(),
            start: Condvar::new(),
            senders,
        })
    }

    /// Another turn of this shard may be worth while.
    pub fn ring_shard(&self, shard: usize) {
        if let Some(bell) = self.shards.get(shard) {
            bell.notify_one();
        }
    }

    /// Another turn of each shard may be worth while.
    pub fn ring_shards(&self) {
        for bell in self.shards.as_slice() {
            bell.notify_one();
        }
    }

    /// There is one more job in the lane.
    pub fn ring_lane(&self) {
        self.lane.notify_one();
    }

    /// All are there.
    pub fn ring_start(&self) {
        self.start.notify_all();
    }

    /// Nobody is to rest any more.
    pub fn ring_all(&self) {
        for bell in self.shards.as_slice() {
            bell.notify_all();
        }
        self.lane.notify_all();
        self.start.notify_all();
    }
}

/// To what a thread listens.
#[derive(Clone, Copy)]
enum Place<'b> {
    Nowhere,
    // Rests as long as what was tried took.
    Attempts,
    Chores(&'b Paces),
    Shard { bell: &'b Condvar, bells: &'b Bells },
    Lane(&'b Bells),
    Start(&'b Bells),
}

/// How a thread rests.
#[derive(Clone, Copy)]
pub struct Rest<'b> {
    place: Place<'b>,
    // How many rings there were when it last looked for work.
    heard: u64,
    // How many rings there were when it last paused.
    rings_at_pause: u64,
    // Whether it asked what the moment is since it last looked.
    is_timed: bool,
}

impl<'b> Rest<'b> {
    /// That of who listens to nothing, and makes short pauses alone.
    pub fn short() -> Rest<'b> {
        Rest::at(Place::Nowhere)
    }

    /// That of who tries again where memory is refused: as long as what it tried took, so that much work that comes to
    /// nothing doesn't keep others from the shard for most of the time.
    pub fn of_attempts() -> Rest<'b> {
        Rest::at(Place::Attempts)
    }

    /// That of who makes chores, where a drain may be much work that comes to nothing: some times as long, so that
    /// turners, by whom memory comes back, have the shard for most of the time. Where these are in a hurry it ends once
    /// they are through.
    pub fn of_chores(paces: &'b Paces) -> Rest<'b> {
        Rest::at(Place::Chores(paces))
    }

    /// That of who waits for the start.
    pub fn of_arrival(bells: &'b Bells) -> Rest<'b> {
        Rest::at(Place::Start(bells))
    }

    /// That of a shard's turner.
    pub fn of_turner(bells: &'b Bells, shard: usize) -> Rest<'b> {
        match bells.shards.get(shard) {
            Some(bell) => Rest::at(Place::Shard { bell, bells }),
            None => Rest::short(),
        }
    }

    /// That of a sender.
    pub fn of_sender(bells: &'b Bells) -> Rest<'b> {
        Rest::at(Place::Lane(bells))
    }

    fn at(place: Place<'b>) -> Rest<'b> {
        Rest {
            place,
            heard: 0,
            rings_at_pause: 0,
            is_timed: false,
        }
    }

    /// Work is looked for from now on: what is rung later ends a long pause.
    pub fn look(&mut self) {
        self.is_timed = false;
        self.heard = match self.place {
            Place::Nowhere | Place::Attempts | Place::Chores(_) => return,
            Place::Shard { bell, bells: _ } => bell.notifications(),
            Place::Lane(bells) => bells.lane.notifications(),
            Place::Start(bells) => bells.start.notifications(),
        };
    }

    /// The moment is asked for: by a turner for a turn, and by a sender that hands in an answer.
    pub fn time(&mut self) {
        self.is_timed = true;
    }

    /// Pauses: for long only where it found no work and nothing was rung since it looked, and a turner for no longer
    /// than so many milliseconds are left until something is due, or for twenty where that is sooner. Where its bell
    /// was rung since its last pause a turner's begins with a short one that no ring cuts off, so that many rings don't
    /// make many turns. What was tried since the moment was asked for, or since the last pause, took so many
    /// milliseconds.
    pub fn pause<R: Wait + Clock>(&mut self, rt: &R, took: u64, left: u64) {
        match self.place {
            Place::Shard { bell, bells } if self.is_timed => {
                let longest = share_of(bells.shards.len() as u64).min(left.max(GATHERED));
                self.pause_at(rt, bell, longest);
            }
            Place::Lane(bells) if !self.is_timed => {
                let longest = share_of(u64::from(bells.senders));
                bells
                    .lane
                    .sleep(rt, self.heard, Duration::from_millis(longest));
            }
            Place::Start(bells) => bells
                .start
                .sleep(rt, self.heard, Duration::from_millis(START_LOOK)),
            Place::Attempts => thread::sleep(rt, Duration::from_millis(NAP.max(took))),
            Place::Chores(paces) => {
                let longest = NAP.max(took.saturating_mul(CHORE_REST));
                rest_beside(rt, paces, longest);
            }
            _ => nap(rt),
        }
    }

    /// A turner's pause, of so many milliseconds at most.
    fn pause_at<R: Wait + Clock>(&mut self, rt: &R, bell: &Condvar, longest: u64) {
        let rings = bell.notifications();
        let mut left = longest;
        if rings != self.rings_at_pause {
            self.rings_at_pause = rings;
            nap(rt);
            left = left.saturating_sub(NAP);
        }
        bell.sleep(rt, self.heard, Duration::from_millis(left));
    }
}

/// Rests for so many milliseconds, and where turners weren't through before no longer than until they are.
fn rest_beside<R: Clock>(rt: &R, paces: &Paces, longest: u64) {
    if paces.are_through() {
        return thread::sleep(rt, Duration::from_millis(longest));
    }
    for _ in 0..longest {
        nap(rt);
        if paces.are_through() {
            return;
        }
    }
}

fn nap<R: Clock>(rt: &R) {
    thread::sleep(rt, Duration::from_millis(NAP));
}

/// How long each of so many rests, in milliseconds.
fn share_of(listeners: u64) -> u64 {
    LOOK.saturating_mul(listeners)
}
