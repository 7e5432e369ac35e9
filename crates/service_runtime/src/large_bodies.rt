//! How many bytes of large bodies are made ready at a time.

use std::alloc::{AllocError, Global};
use std::sync::{Condvar, Mutex, MutexGuard, Wait};

/// A body of so many bytes waits for no other one. What is read as a message may take 130 times its bytes, so that each
/// receiver may take 6.4 MB for one.
const SMALL: usize = 49_152;

/// So many bytes of larger bodies are made ready at a time: one of the longest that are taken.
const ALL: usize = 20_971_520;

/// So many of them are a group's at most, unless a single body has more. The others are left for other groups.
const SHARE: usize = ALL / 2;

/// So many groups there are: tenants whose numbers are alike modulo this have a share in common.
const GROUPS: usize = 256;

/// Room for large bodies while they are made ready and posted: each takes many times its bytes meanwhile. A body waits
/// for its group's share before it stands in line for the room of all. So however many connections a tenant has, one of
/// its bodies at a time stands there with others'.
#[derive(Drop)]
pub struct LargeBodies {
    shares: Vec<Room>,
    all: Room,
}

impl LargeBodies {
    /// None is there.
    pub(crate) fn new(alloc: Global) -> Result<LargeBodies, AllocError> {
        let mut shares = Vec::new(alloc);
        for _ in 0..GROUPS {
            shares.push(Room::new(SHARE))?;
        }
        Ok(LargeBodies {
            shares,
            all: Room::new(ALL),
        })
    }

    /// Waits until there is room for a body of so many bytes of this tenant's.
    pub fn enter<R: Wait>(&self, rt: &R, tenant: u32, bytes: usize) {
        let room = room_of(bytes);
        if room == 0 {
            return;
        }
        let Some(share) = self.share(tenant) else {
            return;
        };
        // Its group's next body waits until this one has all its room.
        let _turn = share.take(rt, room.min(SHARE));
        let _first = self.all.take(rt, room);
    }

    /// Such a body is done.
    pub fn leave<R: Wait>(&self, rt: &R, tenant: u32, bytes: usize) {
        let room = room_of(bytes);
        if room == 0 {
            return;
        }
        let Some(share) = self.share(tenant) else {
            return;
        };
        // Who waits for the room of all has waited for longer than who waits for a share.
        self.all.give_back(rt, room);
        share.give_back(rt, room.min(SHARE));
    }

    /// The share of this tenant's group. None never, since each tenant has a group.
    fn share(&self, tenant: u32) -> Option<&Room> {
        self.shares.get(tenant as usize % GROUPS)
    }
}

/// Room for so many bytes, and a line for it.
#[derive(Drop)]
struct Room {
    // Who has it is the next that gets room, so that the longest bodies aren't passed by for good.
    line: Mutex<()>,
    left: Mutex<usize>,
    given_back: Condvar,
}

impl Room {
    fn new(bytes: usize) -> Room {
        Room {
            line: Mutex::new(()),
            left: Mutex::new(bytes),
            given_back: Condvar::new(),
        }
    }

    /// Waits until so many bytes are left, and takes them. Nobody else gets room until what is returned is let go.
    fn take<R: Wait>(&self, rt: &R, room: usize) -> MutexGuard<'_, ()> {
        let first = self.line.lock(rt);
        let mut left = self.left.lock(rt);
        'waits: for _ in rt.forever() {
            if *left >= room {
                *left = left.saturating_sub(room);
                return first;
            }
            left = self.given_back.wait(rt, left);
        }
        unreachable!()
    }

    /// So many bytes that were taken are left again.
    fn give_back<R: Wait>(&self, rt: &R, room: usize) {
        let mut left = self.left.lock(rt);
        *left = left.saturating_add(room);
        self.given_back.notify_one();
    }
}

/// How much room a body takes, none where it is small.
fn room_of(bytes: usize) -> usize {
    if bytes <= SMALL { 0 } else { bytes.min(ALL) }
}
