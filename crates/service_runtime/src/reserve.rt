//! Memory that is kept back for what lets memory go.

use std::alloc::{AllocError, Global};
use std::sync::atomic::{AtomicBool, AtomicUsize, Ordering};
use std::sync::{Mutex, Wait};

/// So many bytes are kept back, twice the longest body and more. A block of more than 32 MiB the C library takes from
/// the system and gives back to it, so that any thread gets what was in it; one of less than 64 MiB leaves no room for
/// what the library takes at once for a thread alone. They are never written, so they take addresses alone.
const KEPT: usize = 50_331_648;

/// For so many milliseconds it is made again as a whole alone. Then half of it is enough where there is no room for
/// more in one piece, which what threads had may not leave; after twice as long a quarter, and so on.
const CALM: u64 = 1_024;

/// So often it is halved at most.
const HALVINGS: u32 = 4;

/// Memory that is kept back for turns, answers and chores: what tenants hold goes only by them. Whoever is refused
/// memory for one of these, or for a post to a back end, gives it up and tries again. While it isn't there no post of
/// a client's is taken.
#[derive(Drop)]
pub struct Reserve {
    alloc: Global,
    kept: Mutex<Kept>,
    is_there: AtomicBool,
    // How many threads were refused memory, and try again.
    wanting: AtomicUsize,
}

/// What is kept back.
#[derive(Drop)]
struct Kept {
    // None while it is given up.
    block: Option<Vec<u8>>,
    // Since when it was tried in vain to make it again and nobody was refused memory, in milliseconds.
    calm_since: Option<u64>,
}

impl Reserve {
    /// All of it is there, if there is room.
    pub(crate) fn new(alloc: Global) -> Reserve {
        let block = Vec::with_capacity(alloc, KEPT).ok();
        Reserve {
            alloc,
            is_there: AtomicBool::new(block.is_some()),
            kept: Mutex::new(Kept {
                block,
                calm_since: None,
            }),
            wanting: AtomicUsize::new(0),
        }
    }

    /// The C library gives the calling thread a heap of its own, where there is room for one, as it does at each
    /// thread's first piece of memory. For those who let memory go, before posts take what there is: nobody gets
    /// anything of what is free in another's heap.
    pub fn found_heap(&self) {
        let _piece = Vec::<u8>::with_capacity(self.alloc, 1);
    }

    /// Whether nobody has needed it since it was last made.
    pub(crate) fn is_there(&self) -> bool {
        self.is_there.load(Ordering::SeqCst)
    }

    /// Whether it is there at this moment, in milliseconds, once it was made again if that may be: where nobody is
    /// refused memory, and there is some. For turners, so that it is of memory that they can get.
    pub(crate) fn is_restored<R: Wait>(&self, rt: &R, now: u64) -> bool {
        self.is_there() || self.restore(rt, now)
    }

    fn restore<R: Wait>(&self, rt: &R, now: u64) -> bool {
        let mut kept = self.kept.lock(rt);
        if self.wanting.load(Ordering::SeqCst) != 0 {
            return false;
        }
        if kept.block.is_none() {
            let since = kept.calm_since.unwrap_or(now);
            kept.calm_since = Some(since);
            match Vec::with_capacity(self.alloc, enough_after(now.saturating_sub(since))) {
                Ok(made) => kept.block = Some(made),
                Err(AllocError) => return false,
            }
        }
        self.is_there.store(true, Ordering::SeqCst);
        true
    }

    /// One thread more is refused memory: the reserve is given up.
    pub(crate) fn want<R: Wait>(&self, rt: &R) {
        let mut kept = self.kept.lock(rt);
        let _before = self.wanting.fetch_add(1, Ordering::SeqCst);
        self.is_there.store(false, Ordering::SeqCst);
        kept.block = None;
        kept.calm_since = None;
    }

    /// One of these threads is refused memory no longer.
    pub(crate) fn sate(&self) {
        let _before = self.wanting.fetch_sub(1, Ordering::SeqCst);
    }
}

/// How many bytes are enough once nobody was refused memory for so many milliseconds.
fn enough_after(calm: u64) -> usize {
    let doublings = u64::BITS - (calm / CALM).leading_zeros();
    KEPT >> doublings.min(HALVINGS)
}
