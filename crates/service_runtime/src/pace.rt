//! How the moments of threads go on while memory is short.

use crate::reserve::Reserve;
use std::alloc::{AllocError, Global};
use std::sync::Wait;
use std::sync::atomic::{AtomicBool, AtomicU64, AtomicUsize, Ordering};

/// For so many pauses at most a turner waits for its jobs' answers before its moment goes on.
const PATIENCE: u32 = 100;

/// So many milliseconds a shard's moments may be behind the clock's where a post comes to it. What is due in these it
/// does in one step.
const MOST_BEHIND: u64 = 50;

/// Posts and answers come often to a shard where more of them come than one in so many milliseconds.
const APART: u64 = 2;

/// They are counted for so many milliseconds at least.
const COUNTED: u64 = 16;

/// What threads know of how one shard's moments go on.
#[derive(Drop)]
pub struct ShardPace {
    // Whether they go on millisecond by millisecond.
    is_slow: AtomicBool,
    // Whether the last turn was refused memory.
    is_refused: AtomicBool,
    // How many jobs there are that weren't answered yet.
    jobs: AtomicUsize,
    // The moment before that of the last turn, in which all is done that is due.
    reached: AtomicU64,
    // When something is due next by the time alone, as it was behind the last turn; 0 where that found something.
    due: AtomicU64,
    // Whether its turner rests by that, and wasn't rung since.
    is_at_rest: AtomicBool,
    // How many posts and answers came to it since that moment, and whether they came often before.
    calls: AtomicU64,
    counted_from: AtomicU64,
    are_frequent: AtomicBool,
    // By how many milliseconds they are ahead of the clock's.
    ahead: AtomicU64,
    // Up to which moment they don't wait for the clock's while somebody is in a hurry, else 0.
    hurried_to: AtomicU64,
}

impl ShardPace {
    fn new() -> ShardPace {
        ShardPace {
            is_slow: AtomicBool::new(false),
            is_refused: AtomicBool::new(false),
            jobs: AtomicUsize::new(0),
            reached: AtomicU64::new(0),
            due: AtomicU64::new(0),
            is_at_rest: AtomicBool::new(false),
            calls: AtomicU64::new(0),
            counted_from: AtomicU64::new(0),
            are_frequent: AtomicBool::new(false),
            ahead: AtomicU64::new(0),
            hurried_to: AtomicU64::new(0),
        }
    }

    fn is_slow(&self) -> bool {
        self.is_slow.load(Ordering::SeqCst)
    }

    /// Whether memory was short and they are far behind this one, which is the clock's. Where the last turn found
    /// nothing they count as having come to where something is due next.
    pub(crate) fn is_behind(&self, now: u64) -> bool {
        let reached = self.reached.load(Ordering::SeqCst);
        let idle_until = self.due.load(Ordering::SeqCst).saturating_sub(1);
        self.is_slow() && now.saturating_sub(reached.max(idle_until)) > MOST_BEHIND
    }

    /// While memory is short they go on to what is due next without waiting for the clock's, up to this moment, until
    /// all are calm.
    pub fn hurry(&self, to: u64) {
        let before = self.hurried_to.load(Ordering::SeqCst);
        self.hurried_to.store(before.max(to), Ordering::SeqCst);
    }

    /// They go on as the clock's do, and stay as far ahead of these as they are: batches that wait formed at such
    /// moments, before which no turn hands them out.
    fn calm(&self) {
        self.hurried_to.store(0, Ordering::SeqCst);
    }

    /// Whether nothing is left of what somebody is in a hurry for, if anybody is: no job is under way, and nothing is
    /// due up to that moment.
    fn is_through(&self) -> bool {
        let to = self.hurried_to.load(Ordering::SeqCst);
        let is_sent = self.jobs.load(Ordering::SeqCst) == 0;
        to == 0 || is_sent && self.due.load(Ordering::SeqCst) > to
    }

    /// The moment that they would have come to, where the clock's is this.
    fn now(&self, clock: u64) -> u64 {
        clock.saturating_add(self.ahead.load(Ordering::SeqCst))
    }

    /// When something is due next, once they were put ahead of the clock's to that, which is this. None where nobody is
    /// in a hurry for it.
    fn put_ahead(&self, clock: u64) -> Option<u64> {
        let due = self.due.load(Ordering::SeqCst);
        let ahead = due.saturating_sub(clock);
        let to = self.hurried_to.load(Ordering::SeqCst);
        if ahead <= self.ahead.load(Ordering::SeqCst) || due > to {
            return None;
        }
        self.ahead.store(ahead, Ordering::SeqCst);
        Some(due)
    }

    /// A turn begins at this moment: what others do from now on its turner may not see before it rests again.
    pub(crate) fn begin_turn(&self, now: u64) {
        self.is_at_rest.store(false, Ordering::SeqCst);
        let passed = now.saturating_sub(self.counted_from.load(Ordering::SeqCst));
        if passed >= COUNTED {
            let calls = self.calls.swap(0, Ordering::SeqCst);
            let are_frequent = calls.saturating_mul(APART) > passed;
            self.are_frequent.store(are_frequent, Ordering::SeqCst);
            self.counted_from.store(now, Ordering::SeqCst);
        }
    }

    /// A post or an answer came to it.
    pub(crate) fn note_call(&self) {
        let _before = self.calls.fetch_add(1, Ordering::SeqCst);
    }

    /// A turn was made, or was refused memory. What is due next isn't known.
    pub(crate) fn note_turn(&self, is_refused: bool) {
        self.is_refused.store(is_refused, Ordering::SeqCst);
        self.due.store(0, Ordering::SeqCst);
    }

    /// A turn found nothing, and this is when something is due next by the time alone, if anything is.
    pub(crate) fn note_due(&self, due: Option<u64>) {
        self.due.store(due.unwrap_or(u64::MAX), Ordering::SeqCst);
        self.is_at_rest.store(true, Ordering::SeqCst);
    }

    /// Whether its turner rests by the clock until something is due, so that it need not be rung for what is due later.
    /// Where calls come often it is rung by each: what is done by many small turns keeps none of them waiting for long.
    pub(crate) fn is_at_rest(&self) -> bool {
        let is_calm = !self.are_frequent.load(Ordering::SeqCst) && !self.is_slow();
        is_calm && self.is_at_rest.load(Ordering::SeqCst)
    }

    /// Whether its turner is to be rung, where something is due at this moment next, or nothing is.
    pub(crate) fn has_to_hear(&self, due: Option<u64>) -> bool {
        !self.is_at_rest() || due.unwrap_or(u64::MAX) < self.due.load(Ordering::SeqCst)
    }

    /// Its turner is rung: it rests no longer.
    pub(crate) fn note_ring(&self) {
        self.is_at_rest.store(false, Ordering::SeqCst);
    }

    /// A turn gave a job.
    pub(crate) fn begin_job(&self) {
        let _before = self.jobs.fetch_add(1, Ordering::SeqCst);
    }

    /// The answer to a job was taken.
    pub(crate) fn end_job(&self) {
        let _before = self.jobs.fetch_sub(1, Ordering::SeqCst);
    }
}

/// That of all shards.
#[derive(Drop)]
pub struct Paces {
    shards: Vec<ShardPace>,
}

impl Paces {
    /// So many shards whose moments are the clock's.
    pub(crate) fn new(alloc: Global, shards: usize) -> Result<Paces, AllocError> {
        let mut list = Vec::new(alloc);
        for _ in 0..shards {
            list.push(ShardPace::new())?;
        }
        Ok(Paces { shards: list })
    }

    /// That of this shard, where there is one.
    pub fn shard(&self, shard: usize) -> Option<&ShardPace> {
        self.shards.get(shard)
    }

    /// Memory is short: from now on the shards' moments go on millisecond by millisecond, until they are the clock's
    /// again and there is enough.
    pub(crate) fn slow_down(&self) {
        for pace in self.shards.as_slice() {
            pace.is_slow.store(true, Ordering::SeqCst);
        }
    }

    /// Nobody is in a hurry any more.
    pub fn calm(&self) {
        for pace in self.shards.as_slice() {
            pace.calm();
        }
    }

    /// Whether nothing is left of what somebody is in a hurry for, if anybody is.
    pub(crate) fn are_through(&self) -> bool {
        for pace in self.shards.as_slice() {
            if !pace.is_through() {
                return false;
            }
        }
        true
    }

    /// The moment up to which all have come that are slow.
    fn reached(&self) -> u64 {
        let mut least = u64::MAX;
        for pace in self.shards.as_slice() {
            if pace.is_slow() {
                least = least.min(pace.reached.load(Ordering::SeqCst));
            }
        }
        least
    }
}

/// Whose moments they are.
#[derive(Clone, Copy)]
enum Place<'b> {
    Clock,
    Turner(&'b ShardPace),
    Follower(&'b Paces),
}

/// How one thread's moments go on, and how it pauses for that.
#[derive(Clone, Copy)]
pub struct Pace<'b> {
    place: Place<'b>,
    // Of a turner: whether it was told a moment since its last pause, what the clock's was then, how many jobs had no
    // answer then, whether it was behind where it would have come to, what the next one is at least, and for how many
    // pauses it has waited for answers.
    is_told: bool,
    clock: u64,
    jobs: usize,
    is_behind: bool,
    next: u64,
    waits: u32,
}

/// How a thread pauses.
#[derive(Clone, Copy, PartialEq, Eq, Debug)]
pub enum Pause {
    /// Not at all.
    None,
    /// For a millisecond.
    Short,
    /// For as long as what was refused memory took.
    AsLong,
    /// As where memory isn't short.
    Usual,
}

impl<'b> Pace<'b> {
    /// That of who goes by the clock.
    pub fn of_clock() -> Pace<'b> {
        Pace::at(Place::Clock)
    }

    /// That of a shard's turner, whose moments go on step by step while the shard is slow.
    pub fn of_turner(paces: &'b Paces, shard: usize) -> Pace<'b> {
        match paces.shard(shard) {
            Some(pace) => Pace::at(Place::Turner(pace)),
            None => Pace::of_clock(),
        }
    }

    /// That of who stays behind the turners of slow shards: they do what is due, and nobody else is refused memory for
    /// that.
    pub fn of_follower(paces: &'b Paces) -> Pace<'b> {
        Pace::at(Place::Follower(paces))
    }

    fn at(place: Place<'b>) -> Pace<'b> {
        Pace {
            place,
            is_told: false,
            clock: 0,
            jobs: 0,
            is_behind: false,
            next: 0,
            waits: 0,
        }
    }

    /// The next moment, where the last one was this and the clock's is that. Where it is below the last one it is that.
    pub fn moment(&mut self, last: u64, clock: u64) -> u64 {
        match self.place {
            Place::Clock => clock,
            Place::Follower(paces) => clock.min(paces.reached()),
            Place::Turner(shard) => self.turner_moment(shard, last, clock),
        }
    }

    fn turner_moment(&mut self, shard: &ShardPace, last: u64, clock: u64) -> u64 {
        let now = last.max(shard.now(clock));
        let moment = if shard.is_slow() {
            now.min(last.max(self.next))
        } else {
            now
        };
        shard
            .reached
            .store(moment.saturating_sub(1), Ordering::SeqCst);
        self.is_told = true;
        self.clock = clock;
        self.jobs = shard.jobs.load(Ordering::SeqCst);
        self.is_behind = moment < now;
        self.next = moment;
        moment
    }

    /// For how many milliseconds from this moment of the clock's on a turner finds nothing but what it is rung for.
    pub fn left(&self, clock: u64) -> u64 {
        match self.place {
            Place::Turner(shard) => {
                let due = shard.due.load(Ordering::SeqCst);
                due.saturating_sub(shard.now(clock))
            }
            _ => 0,
        }
    }

    /// How it pauses now. A turner that had nothing to do goes on to the next millisecond, once its jobs are answered
    /// where there is no reserve; and where somebody is in a hurry to what is due next.
    pub fn pause<R: Wait>(&mut self, rt: &R, reserve: &Reserve) -> Pause {
        match self.place {
            Place::Turner(shard) if self.is_told => {
                self.is_told = false;
                let is_enough = reserve.is_restored(rt, self.clock);
                if shard.is_slow() {
                    self.turner_pause(shard, is_enough)
                } else {
                    Pause::Usual
                }
            }
            _ => Pause::Usual,
        }
    }

    fn turner_pause(&mut self, shard: &ShardPace, is_enough: bool) -> Pause {
        if shard.is_refused.load(Ordering::SeqCst) {
            return Pause::AsLong;
        }
        if !is_enough && self.jobs != 0 && self.waits < PATIENCE {
            self.waits += 1;
            return Pause::Short;
        }
        self.waits = 0;
        self.next = self.next.saturating_add(1);
        if self.is_behind {
            return Pause::None;
        }
        if is_enough {
            shard.is_slow.store(false, Ordering::SeqCst);
            return Pause::Usual;
        }
        if self.jobs != 0 {
            return Pause::Short;
        }
        match shard.put_ahead(self.clock) {
            Some(due) => {
                self.next = due;
                Pause::None
            }
            None => Pause::Short,
        }
    }
}
