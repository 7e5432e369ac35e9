//! Who stands in line at a shard.

use std::alloc::{AllocError, Global};
use std::sync::atomic::{AtomicUsize, Ordering};
use std::sync::{Mutex, MutexGuard, Wait};

/// So many gates a group of tenants has. Behind four posts of a hundred spans each a turn takes out more than they
/// bring in, and a single post of another tenant doesn't wait for long.
const GATES: usize = 4;

/// So many groups there are: tenants whose numbers are alike modulo this have gates in common.
const GROUPS: usize = 256;

/// Gates before the shards' locks. Whoever posts goes through one of its tenant's, and shuts it until the step is made:
/// so however many connections a tenant has, only so many of its posts stand in line at its shard, where turns,
/// answers and other tenants' posts stand too.
#[derive(Drop)]
pub struct Gates {
    // Those of a group stand one behind another.
    gates: Vec<Mutex<()>>,
    // How often somebody found all gates of a group shut.
    waits: AtomicUsize,
}

impl Gates {
    /// All are open.
    pub fn new(alloc: Global) -> Result<Gates, AllocError> {
        let mut gates = Vec::new(alloc);
        for _ in 0..GROUPS * GATES {
            gates.push(Mutex::new(()))?;
        }
        Ok(Gates {
            gates,
            waits: AtomicUsize::new(0),
        })
    }

    /// Goes through one of this tenant's gates, and waits at one of them where all are shut. It is open again once what
    /// is returned is let go. None never, since each tenant's group has its gates.
    pub fn pass<R: Wait>(&self, rt: &R, tenant: u32) -> Option<MutexGuard<'_, ()>> {
        let first = tenant as usize % GROUPS * GATES;
        for gate in self.gates.as_slice().get(first..first + GATES)? {
            if let Some(passed) = gate.try_lock() {
                return Some(passed);
            }
        }
        let wait = self.waits.fetch_add(1, Ordering::SeqCst);
        let gate = self.gates.get(first + wait % GATES)?;
        Some(gate.lock(rt))
    }
}
