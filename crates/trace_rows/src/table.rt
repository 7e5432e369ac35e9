//! The table of rows.

ghost use Rattle.std.specs.Prelude.{◌≡◌, ◌≢◌, ℕ, IfOk, IfSome, OnOk, OnErr, Some, None, true, option_copied};
ghost use Rattle.std.specs.Option.{option_copied_mut};
ghost use Rattle.std.specs.Borrow.{sem};
ghost use Rattle.trace_rows.specs.Lending.{lends_numbered};
ghost use Rattle.trace_rows.specs.Part.{rows_part, latest_rows_part, with_at, with_latest_row, joined, unjoined, settled, latest_key, without_latest_row, keys_of, note_of, trace_in, IsSame};

use crate::block::Block;
use crate::keys::Keys;
use crate::latest_rows::LatestRows;
use std::alloc::{AllocError, Global};
use std::cmp::Reverse;
use std::collections::BTreeMap;

/// The row of a trace. `N` is what is noted of its spans.
#[derive(Drop)]
pub struct Row<N> {
    /// The trace's id.
    pub trace: [u8; 16],
    /// The moment of the decision, in milliseconds.
    pub due: u64,
    /// Keys of the spans that wait for it, in order of arrival; none once the row is decided.
    pub keys: Keys,
    /// What is noted of the spans that came in time, of all of them together.
    pub note: N,
    /// Whether the trace is sampled, once the row is decided. Until then `false`.
    pub sampled: bool,
}

// How many numbers that follow each other have their rows in one block. A block's growth moves no more rows than these,
// and a block that has few rows has no more places than these.
const BLOCK_ROWS: u64 = 64;

/// All tenants' rows, and the latest row of each of their traces.
#[derive(Drop)]
pub struct TraceRows<N> {
    alloc: Global,
    // By tenant and block number, the latest first: a look-up goes through the keys of a node from the first one on,
    // and most are for the latest rows.
    blocks: BTreeMap<(u32, Reverse<u64>), Block<N>>,
    latest_rows: LatestRows,
}

impl<N: Drop> TraceRows<N> {
    /// No rows of any tenant, which take no memory.
    pub fn new(alloc: Global) -> Self
        ensures rows { (tenant : ℕ) → rows_part tenant result ≡ λ _. None }
        ensures latest_rows { (tenant : ℕ) → latest_rows_part tenant result ≡ λ _. None }
    {
        TraceRows {
            alloc,
            blocks: BTreeMap::new(alloc),
            latest_rows: LatestRows::new(alloc),
        }
    }

    /// The number of the latest row of the tenant's trace, where it has one.
    pub fn latest_row(&self, tenant: u32, trace: [u8; 16]) -> Option<u64>
        ensures { result ≡ latest_rows_part tenant self.now trace }
    {
        self.latest_rows.get(tenant, trace)
    }

    /// The tenant's row of this number, where there is one.
    pub fn row(&self, tenant: u32, number: u64) -> Option<&Row<N>>
        ensures { option_copied result ≡ rows_part tenant self.now number }
    {
        let block = self.blocks.get(&(tenant, Reverse(number / BLOCK_ROWS)))?;
        block.row((number % BLOCK_ROWS) as usize)
    }

    /// A row opens under a number that has none, as the latest of its trace. The answer is the trace's latest row until
    /// now, which `undo_open` wants.
    pub fn open(&mut self, tenant: u32, number: u64, row: Row<N>) -> Result<Option<u64>, AllocError>
        requires { rows_part tenant self.old number ≡ None }
        ensures earlier { IfOk result (λ earlier. earlier ≡ latest_rows_part tenant self.old
            row.trace) }
        ensures rows { OnOk result (rows_part tenant self.new ≡
            with_at number (Some row) (rows_part tenant self.old)) }
        ensures latest_rows { OnOk result (latest_rows_part tenant self.new ≡
            with_latest_row row.trace (Some number) (latest_rows_part tenant self.old)) }

        // Other tenants' parts stay as they were, and where memory is refused this tenant's too.
        ensures others_unchanged { (other : ℕ) → other ≢ tenant → IsSame other self.old self.new }
        ensures on_refusal { OnErr result (IsSame tenant self.old self.new) }
    {
        let trace = row.trace;
        self.put(tenant, number, row)?;
        match self.latest_rows.put(tenant, trace, number) {
            Ok(earlier) => Ok(earlier),
            Err(refused) => {
                self.take(tenant, number);
                Err(refused)
            }
        }
    }

    /// One more key in the row, whose note is this one from now on. The answer is the note that it had. Where there is
    /// no such row, nothing changes, and the answer is the note that came; where memory is refused, that is dropped.
    pub fn join(&mut self, tenant: u32, number: u64, key: u32, note: N) -> Result<N, AllocError>
        ensures former { IfOk result (λ former. former ≡ note_of note
            (rows_part tenant self.old number)) }
        ensures rows { OnOk result (rows_part tenant self.new ≡
            with_at number (joined key note (rows_part tenant self.old number))
            (rows_part tenant self.old)) }
        ensures latest_rows { latest_rows_part tenant self.new ≡ latest_rows_part tenant self.old }

        // Other tenants' parts stay as they were, and where memory is refused this tenant's too.
        ensures others_unchanged { (other : ℕ) → other ≢ tenant → IsSame other self.old self.new }
        ensures on_refusal { OnErr result (IsSame tenant self.old self.new) }
    {
        let Some(row) = self.row_mut(tenant, number) else {
            return Ok(note);
        };
        row.keys.push(key)?;
        Ok(std::mem::replace(&mut row.note, note))
    }

    /// Takes back the latest key of the row, which is the answer, and its note is the former one again. It takes no
    /// memory.
    pub fn undo_join(&mut self, tenant: u32, number: u64, former: N) -> Option<u32>
        ensures key { result ≡ latest_key (rows_part tenant self.old number) }
        ensures rows { rows_part tenant self.new ≡
            with_at number (unjoined former (rows_part tenant self.old number))
            (rows_part tenant self.old) }
        ensures latest_rows { latest_rows_part tenant self.new ≡ latest_rows_part tenant self.old }
        ensures others_unchanged { (other : ℕ) → other ≢ tenant → IsSame other self.old self.new }
    {
        let Some(row) = self.row_mut(tenant, number) else {
            return None;
        };
        row.note = former;
        row.keys.pop()
    }

    /// Takes back the row that opened, without memory. It is the latest of its trace; before it `earlier` was, as
    /// `open` answered. Where its trace has no latest row any more, it gets none. Where there is no such row, nothing
    /// changes.
    pub fn undo_open(&mut self, tenant: u32, number: u64, earlier: Option<u64>)
        ensures rows { rows_part tenant self.new ≡ with_at number None (rows_part tenant self.old) }
        ensures latest_rows { IfSome (rows_part tenant self.old number) (λ row.
            latest_rows_part tenant self.old row.trace ≢ None →
            latest_rows_part tenant self.new ≡ with_latest_row row.trace earlier
            (latest_rows_part tenant self.old)) }
        ensures no_latest_row { IfSome (rows_part tenant self.old number) (λ row.
            latest_rows_part tenant self.old row.trace ≡ None →
            latest_rows_part tenant self.new ≡ latest_rows_part tenant self.old) }
        ensures none { rows_part tenant self.old number ≡ None
            → latest_rows_part tenant self.new ≡ latest_rows_part tenant self.old }
        ensures others_unchanged { (other : ℕ) → other ≢ tenant → IsSame other self.old self.new }
    {
        let Some(row) = self.take(tenant, number) else {
            return;
        };
        self.latest_rows.restore(tenant, row.trace, earlier);
    }

    /// The row is decided: it keeps the verdict, and the answer is the keys that it had. It takes no memory.
    pub fn settle(&mut self, alloc: Global, tenant: u32, number: u64, sampled: bool) -> Keys
        ensures keys { result ≡ keys_of (rows_part tenant self.old number) }
        ensures rows { rows_part tenant self.new ≡
            with_at number (settled sampled (rows_part tenant self.old number))
            (rows_part tenant self.old) }
        ensures latest_rows { latest_rows_part tenant self.new ≡ latest_rows_part tenant self.old }
        ensures others_unchanged { (other : ℕ) → other ≢ tenant → IsSame other self.old self.new }
    {
        let Some(row) = self.row_mut(tenant, number) else {
            return Keys::new(alloc);
        };
        row.sampled = sampled;
        std::mem::replace(&mut row.keys, Keys::new(alloc))
    }

    /// The row leaves, and is its trace's latest no more, unless a later row is. The answer is the keys that it
    /// had. It takes no memory.
    pub fn sweep(&mut self, alloc: Global, tenant: u32, number: u64) -> Keys
        ensures keys { result ≡ keys_of (rows_part tenant self.old number) }
        ensures rows { rows_part tenant self.new ≡ with_at number None (rows_part tenant self.old) }
        ensures latest_rows { latest_rows_part tenant self.new ≡
            without_latest_row number (trace_in (rows_part tenant self.old number))
            (latest_rows_part tenant self.old) }
        ensures others_unchanged { (other : ℕ) → other ≢ tenant → IsSame other self.old self.new }
    {
        let Some(row) = self.take(tenant, number) else {
            return Keys::new(alloc);
        };
        self.remove_latest(tenant, number, row.trace);
        row.keys
    }

    /// The tenant's row of this number, where there is one, for writing.
    fn row_mut(&mut self, tenant: u32, number: u64) -> Option<&mut Row<N>>
        ensures* writes_back { sem 𝓛 (lends_numbered N.row self.entry tenant number result) }
        ensures value { option_copied_mut result ≡ rows_part tenant self.old number }
    {
        let block = self
            .blocks
            .get_mut(&(tenant, Reverse(number / BLOCK_ROWS)))?;
        block.row_mut((number % BLOCK_ROWS) as usize)
    }

    /// The row comes under its number. Where memory is refused, it is dropped.
    fn put(&mut self, tenant: u32, number: u64, row: Row<N>) -> Result<(), AllocError>
        ensures rows { OnOk result (rows_part tenant self.new ≡
            with_at number (Some row) (rows_part tenant self.old)) }
        ensures latest_rows { self.new.latest_rows ≡ self.old.latest_rows }
        ensures others_unchanged { (other : ℕ) → other ≢ tenant
            → rows_part other self.new ≡ rows_part other self.old }
        ensures on_refusal { OnErr result (rows_part tenant self.new ≡ rows_part tenant self.old) }
    {
        let place = (number % BLOCK_ROWS) as usize;
        if let Some(block) = self.blocks.get_mut(&(tenant, Reverse(number / BLOCK_ROWS))) {
            return block.put(place, row);
        }
        let mut block = Block::new(self.alloc);
        block.put(place, row)?;
        self.blocks
            .insert((tenant, Reverse(number / BLOCK_ROWS)), block)?;
        Ok(())
    }

    /// Takes the row out, and its block with the last of its rows. It takes no memory.
    fn take(&mut self, tenant: u32, number: u64) -> Option<Row<N>>
        ensures row { result ≡ rows_part tenant self.old number }
        ensures rows { rows_part tenant self.new ≡ with_at number None (rows_part tenant self.old) }
        ensures latest_rows { self.new.latest_rows ≡ self.old.latest_rows }
        ensures others_unchanged { (other : ℕ) → other ≢ tenant
            → rows_part other self.new ≡ rows_part other self.old }
    {
        let block = self
            .blocks
            .get_mut(&(tenant, Reverse(number / BLOCK_ROWS)))?;
        let row = block.take((number % BLOCK_ROWS) as usize);
        if !block.is_empty() {
            return row;
        }
        self.blocks.remove(&(tenant, Reverse(number / BLOCK_ROWS)));
        row
    }

    /// A trace has no latest row any more, where it is this row.
    fn remove_latest(&mut self, tenant: u32, number: u64, trace: [u8; 16])
        ensures rows { (other : ℕ) → rows_part other self.new ≡ rows_part other self.old }
        ensures latest_rows { latest_rows_part tenant self.new ≡
            without_latest_row number (Some trace) (latest_rows_part tenant self.old) }
        ensures others_unchanged { (other : ℕ) → other ≢ tenant
            → latest_rows_part other self.new ≡ latest_rows_part other self.old }
    {
        if self.latest_row(tenant, trace) == Some(number) {
            self.latest_rows.remove(tenant, trace);
        }
    }
}
