//! A log that holds steps.

ghost use Rattle.std.specs.Prelude.{◌≡◌, ◌++◌, ◌∷◌, [], true, false, IfOk, OnErr};
ghost use Rattle.std.specs.Arc.{arc_value};
ghost use Rattle.machine_hub.specs.Runs.{no_entries};

use machine_hub::{EntryOf, Machine, StepLog};
use std::alloc::{AllocError, Global};
use std::sync::Arc;
use std::sync::atomic::{AtomicU64, Ordering};
use std::thread;

/// How often a thread looks before it gives up.
const TURNS: u32 = 1_000_000;

/// The machine for whose steps there is no room.
pub const WITHOUT_ROOM: u32 = 9;

/// Keeps nothing, and holds a step of machine 0 until a step of another has returned.
#[derive(Drop)]
pub struct HoldingLog {
    pub returned: Arc<AtomicU64, Global>,
}

/// Waits until a step has returned, for so many turns at most.
fn wait(returned: &AtomicU64) {
    for _ in 0..TURNS {
        if returned.load(Ordering::SeqCst) > 0 {
            return;
        }
        thread::yield_now();
    }
}

impl<M: Machine> StepLog<M> for HoldingLog {
    ghost use Rattle.std.specs.Prelude.{false};
    ghost use Rattle.machine_hub.specs.Runs.{no_entries};

    ghost entries = { λ s. no_entries M.Step M.Outcome };

    ghost keeping = { λ s. false };

    fn keeps(&self) -> bool {
        false
    }

    fn room(&mut self, _alloc: Global, number: u32) -> Result<(), AllocError> {
        if number == WITHOUT_ROOM {
            return Err(AllocError);
        }
        if number == 0 {
            wait(&self.returned);
        }
        Ok(())
    }

    fn keep(
        &mut self,
        alloc: Global,
        entry: EntryOf<M>,
    ) -> Result<Arc<EntryOf<M>, Global>, AllocError>
        ensures same { false ≡ false }
        ensures kept { IfOk result (λ kept. (arc_value kept ≡ entry)
            × ((false ≡ true) → no_entries M.Step M.Outcome ≡ no_entries M.Step M.Outcome ++ entry
            ∷ [])) }
        ensures on_refusal { OnErr result
            (no_entries M.Step M.Outcome ≡ no_entries M.Step M.Outcome) }
    {
        Ok(Arc::new(alloc, entry)?)
    }
}
