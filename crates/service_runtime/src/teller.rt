//! What a thread tells the others of its calls at the shards.

use crate::beat::Signals;
use export_edge::TurnResult;
use std::sync::Wait;

/// Tells the others of one thread's calls: who may go on by them, and that memory is wanted.
#[derive(Drop)]
pub struct Teller<'h, R> {
    rt: &'h R,
    signals: &'h Signals,
    // Whether its last turn gave a job.
    gave: bool,
    // Whether it was refused memory, and tries again.
    wants: bool,
}

impl<'h, R: Wait> Teller<'h, R> {
    /// Nothing is to be told yet.
    pub fn new(rt: &'h R, signals: &'h Signals) -> Teller<'h, R> {
        Teller {
            rt,
            signals,
            gave: false,
            wants: false,
        }
    }

    /// A call was made at this shard, after which another turn of it may be worth while.
    pub fn made(&mut self, shard: usize) {
        self.sate();
        self.signals.bells().ring_shard(shard);
    }

    /// An answer was taken at this shard. Its turner is told by `tell_due`.
    pub fn answered(&mut self, shard: usize) {
        if let Some(pace) = self.signals.paces().shard(shard) {
            pace.end_job();
        }
        self.sate();
    }

    /// A post or an answer came to this shard: whether its turner rests until something is due there, so that it need
    /// not be rung for what is later.
    pub fn note_call(&self, shard: usize) -> bool {
        match self.signals.paces().shard(shard) {
            Some(pace) => {
                pace.note_call();
                pace.is_at_rest()
            }
            None => false,
        }
    }

    /// Something is due at this shard at this moment next, or nothing is: its turner is rung where it doesn't know that
    /// it has to look by then.
    pub fn tell_due(&self, shard: usize, due: Option<u64>) {
        if let Some(pace) = self.signals.paces().shard(shard) {
            if pace.has_to_hear(due) {
                pace.note_ring();
                self.signals.bells().ring_shard(shard);
            }
        }
    }

    /// Another turn of this shard begins at this moment, so the job of the one before is in the lane, if it gave one.
    pub fn begin_turn(&mut self, shard: usize, now: u64) {
        if let Some(pace) = self.signals.paces().shard(shard) {
            pace.begin_turn(now);
        }
        if self.gave {
            self.gave = false;
            self.signals.bells().ring_lane();
        }
    }

    /// A turn of this shard came to this. Its turner goes on by itself where that did something.
    pub fn end_turn(&mut self, shard: usize, turned: &TurnResult) {
        self.note(shard, false);
        self.signals.tally().end_turn(turned);
        match turned {
            TurnResult::Job(_) => {
                self.gave = true;
                if let Some(pace) = self.signals.paces().shard(shard) {
                    pace.begin_job();
                }
                self.sate();
            }
            TurnResult::Worked | TurnResult::Idle => self.sate(),
        }
    }

    /// Behind a turn of this shard that found nothing: when something is due there next by the time alone, if anything.
    pub fn note_due(&self, shard: usize, due: Option<u64>) {
        if let Some(pace) = self.signals.paces().shard(shard) {
            pace.note_due(due);
        }
    }

    /// A turn of this shard was refused memory. Its turner doesn't rest long before the next.
    pub fn refuse_turn(&mut self, shard: usize) {
        self.note(shard, true);
        self.want();
        self.signals.bells().ring_shard(shard);
    }

    /// Tells the turner of this shard whether its turn was refused memory.
    fn note(&self, shard: usize, is_refused: bool) {
        if let Some(pace) = self.signals.paces().shard(shard) {
            pace.note_turn(is_refused);
        }
    }

    /// It was refused memory for what lets memory go, and is to try again: the reserve is given up for it.
    pub fn want(&mut self) {
        self.signals.tally().refuse();
        if !self.wants {
            self.wants = true;
            self.signals.reserve().want(self.rt);
            self.signals.slow_down();
        }
    }

    /// It is refused memory no longer.
    pub fn sate(&mut self) {
        if self.wants {
            self.wants = false;
            self.signals.reserve().sate();
        }
    }
}
