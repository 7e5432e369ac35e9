//! The log of a shard.

ghost use Rattle.std.specs.Prelude.{◌≡◌, ◌<◌, ◌+◌, ◌^◌, ◌++◌, ◌∷◌, [], length, true, false, None, IfOk, OnOk, OnErr, IsOk, IsSome};
ghost use Rattle.std.specs.Prelude.{vec_len, vec_capacity};
ghost use Rattle.std.specs.Arc.{arc_value};

use audit_log::PackedEntry;
use machine_hub::{Entry, StepLog};
use shard_machine::{LoggedStep, ShardMachine, WordSource};
use std::alloc::{AllocError, Global};
use std::sync::Arc;
use tenant_shard::{Outcome, Step};

/// So many bytes of memory are left where a log takes more. A log lets nothing go, and what tenants hold goes by calls
/// that take memory.
const SPARE: usize = 67_108_864;

/// Keeps each entry, or nothing, as it was opened. The texts of entries are packed.
#[derive(Drop)]
pub struct OptionalLog {
    pub keeps: bool,
    /// Empty where it doesn't keep.
    pub kept: Vec<PackedEntry>,
    // The next entry's memory, which is asked for before its step. What is in it counts for nothing.
    next: Option<Arc<Entry<LoggedStep, Outcome>, Global>>,
}

impl OptionalLog {
    /// A log without entries.
    pub fn new(alloc: Global, keeps: bool) -> OptionalLog
        ensures { (result.keeps ≡ keeps) × (result.kept.items ≡ []) }
    {
        OptionalLog {
            keeps,
            kept: Vec::new(alloc),
            next: None,
        }
    }
}

impl StepLog<ShardMachine> for OptionalLog {
    ghost entries = { λ s. s.kept.items };

    ghost keeping = { λ s. s.keeps };

    fn keeps(&self) -> bool {
        self.keeps
    }

    fn room(&mut self, alloc: Global, _number: u32) -> Result<(), AllocError>
        ensures same { (self.new.kept.items ≡ self.old.kept.items)
            × (self.new.keeps ≡ self.old.keeps) }
        ensures room { OnOk result (length (self.new.kept.items) + 1 < 2 ^ 64) }
        ensures grown { OnOk result ((self.old.keeps ≡ true)
            → vec_len self.new.kept < vec_capacity self.new.kept) }
        ensures next { OnOk result ((self.old.keeps ≡ true) → IsSome self.new.next) }
        ensures unkept { self.old.keeps ≡ false → IsOk result }
    {
        if !self.keeps {
            return Ok(());
        }
        spare(alloc)?;
        self.kept.reserve(1)?;
        if self.next.is_none() {
            self.next = Some(Arc::new(alloc, blank())?);
        }
        Ok(())
    }

    fn keep(
        &mut self,
        alloc: Global,
        entry: Entry<LoggedStep, Outcome>,
    ) -> Result<Arc<Entry<LoggedStep, Outcome>, Global>, AllocError>
        ensures same { self.new.keeps ≡ self.old.keeps }
        ensures kept { IfOk result (λ kept. (arc_value kept ≡ entry)
            × ((self.old.keeps ≡ true) →
            self.new.kept.items ≡ self.old.kept.items ++ entry ∷ [])) }
        ensures nothing { (self.old.keeps ≡ false) →
            self.new.kept.items ≡ self.old.kept.items }
        ensures on_refusal { OnErr result
            (self.new.kept.items ≡ self.old.kept.items) }
        ensures used { self.new.next ≡ None }
    {
        let theirs = match self.next.take() {
            Some(next) => written(next, alloc, entry)?,
            None => Arc::new(alloc, entry)?,
        };
        if self.keeps {
            let mine = PackedEntry::of(alloc, &theirs)?;
            self.kept.push(mine)?;
        }
        Ok(theirs)
    }
}

/// Whether there is memory to spare. It is given back at once.
fn spare(alloc: Global) -> Result<(), AllocError> {
    let _spared = Vec::<u8>::with_capacity(alloc, SPARE)?;
    Ok(())
}

/// An entry that stands for none.
fn blank() -> Entry<LoggedStep, Outcome> {
    Entry {
        step: LoggedStep {
            step: Step::Turn { now: 0 },
            word: WordSource::Caller,
        },
        outcome: Outcome::Idle,
    }
}

/// An entry, in memory that nobody else has.
fn written(
    mut memory: Arc<Entry<LoggedStep, Outcome>, Global>,
    alloc: Global,
    entry: Entry<LoggedStep, Outcome>,
) -> Result<Arc<Entry<LoggedStep, Outcome>, Global>, AllocError>
    ensures { IfOk result (λ shared. arc_value shared ≡ entry) }
{
    let Some(inside) = Arc::get_mut(&mut memory) else {
        return Ok(Arc::new(alloc, entry)?);
    };
    *inside = entry;
    Ok(memory)
}
