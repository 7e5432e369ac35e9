//! What keeps a machine's entries.

use crate::entry::EntryOf;
use crate::machine::Machine;
use std::alloc::{AllocError, Global};
use std::sync::Arc;

/// Keeps the entries of a machine, or none.
pub trait StepLog<M: Machine>: Drop + Send {
    ghost use Rattle.std.specs.Prelude.{◌≡◌, ◌+◌, ◌<◌, ◌^◌, ◌++◌, ◌∷◌, [], List, Bool, true, IfOk, OnOk, OnErr, length};
    ghost use Rattle.std.specs.Arc.{arc_value};
    ghost use Rattle.machine_hub.specs.declared.entry.Entry.{Entry};

    ghost entries: { Self → List (Entry M.Step M.Outcome) };

    ghost keeping: { Self → Bool };

    /// Whether it keeps entries.
    fn keeps(&self) -> bool
        ensures { result ≡ keeping self.now };

    /// Makes room for one entry more. `number` is the machine's.
    fn room(&mut self, alloc: Global, number: u32) -> Result<(), AllocError>
        ensures same { (entries self.new ≡ entries self.old)
            × (keeping self.new ≡ keeping self.old) }
        ensures room { OnOk result (length (entries self.new) + 1 < 2 ^ 64) };

    /// Shares an entry, and keeps it behind the others where it keeps entries.
    fn keep(
        &mut self,
        alloc: Global,
        entry: EntryOf<M>,
    ) -> Result<Arc<EntryOf<M>, Global>, AllocError>
        ensures same { keeping self.new ≡ keeping self.old }
        ensures kept { IfOk result (λ kept. (arc_value kept ≡ entry)
            × ((keeping self.old ≡ true) → entries self.new ≡ entries self.old ++ entry ∷ [])) }
        ensures on_refusal { OnErr result (entries self.new ≡ entries self.old) };
}
