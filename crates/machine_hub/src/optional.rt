//! The log that keeps all or nothing.

ghost use Rattle.std.specs.Prelude.{◌≡◌, ◌<◌, ◌+◌, ◌^◌, ◌++◌, ◌∷◌, [], map, length, true, false, IfOk, OnOk, OnErr, IsOk};
ghost use Rattle.std.specs.Prelude.{vec_len, vec_capacity};
ghost use Rattle.std.specs.Arc.{arc_value};

use crate::entry::EntryOf;
use crate::log::StepLog;
use crate::machine::Machine;
use std::alloc::{AllocError, Global};
use std::sync::Arc;

/// Keeps each entry, or nothing, as it was opened.
#[derive(Drop)]
pub struct OptionalLog<M: Machine> {
    pub keeps: bool,
    /// Empty where it doesn't keep.
    pub kept: Vec<Arc<EntryOf<M>, Global>>,
}

impl<M: Machine> OptionalLog<M> {
    /// A log without entries.
    pub fn new(alloc: Global, keeps: bool) -> OptionalLog<M>
        ensures { (result.keeps ≡ keeps) × (map arc_value result.kept.items ≡ []) }
    {
        OptionalLog {
            keeps,
            kept: Vec::new(alloc),
        }
    }
}

impl<M: Machine> StepLog<M> for OptionalLog<M> {
    ghost use Rattle.std.specs.Prelude.{map};
    ghost use Rattle.std.specs.Arc.{arc_value};

    ghost entries = { λ s. map arc_value s.kept.items };

    ghost keeping = { λ s. s.keeps };

    fn keeps(&self) -> bool {
        self.keeps
    }

    fn room(&mut self, _alloc: Global, _number: u32) -> Result<(), AllocError>
        ensures same { (map arc_value self.new.kept.items ≡ map arc_value self.old.kept.items)
            × (self.new.keeps ≡ self.old.keeps) }
        ensures room { OnOk result (length (map arc_value self.new.kept.items) + 1 < 2 ^ 64) }
        ensures grown { OnOk result ((self.old.keeps ≡ true)
            → vec_len self.new.kept < vec_capacity self.new.kept) }
        ensures unkept { self.old.keeps ≡ false → IsOk result }
    {
        if !self.keeps {
            return Ok(());
        }
        self.kept.reserve(1)
    }

    fn keep(
        &mut self,
        alloc: Global,
        entry: EntryOf<M>,
    ) -> Result<Arc<EntryOf<M>, Global>, AllocError>
        ensures same { self.new.keeps ≡ self.old.keeps }
        ensures kept { IfOk result (λ kept. (arc_value kept ≡ entry)
            × ((self.old.keeps ≡ true) →
            map arc_value self.new.kept.items ≡ map arc_value self.old.kept.items ++ entry ∷ [])) }
        ensures nothing { (self.old.keeps ≡ false) →
            map arc_value self.new.kept.items ≡ map arc_value self.old.kept.items }
        ensures on_refusal { OnErr result
            (map arc_value self.new.kept.items ≡ map arc_value self.old.kept.items) }
    {
        let theirs = Arc::new(alloc, entry)?;
        if self.keeps {
            let mine = Arc::try_clone(&theirs)?;
            self.kept.push(mine)?;
        }
        Ok(theirs)
    }
}
