//! Blocks of rows.

ghost use Rattle.std.specs.Prelude.{◌≡◌, ◌≤◌, OnOk, OnErr, Some, None, true, option_copied, vec_len};
ghost use Rattle.std.specs.Option.{option_copied_mut};
ghost use Rattle.std.specs.Borrow.{sem};
ghost use Rattle.trace_rows.specs.Blocks.{slots_of};
ghost use Rattle.trace_rows.specs.Lending.{lends_row};
ghost use Rattle.trace_rows.specs.Part.{with_at};

use crate::table::Row;
use std::alloc::{AllocError, Global};

/// Rows by place, as far as the last place that has one. Only where a `put` was refused may there be more places, until
/// a row is taken.
#[derive(Drop)]
pub(crate) struct Block<N> {
    slots: Vec<Option<Row<N>>>,
}

impl<N: Drop> Block<N> {
    /// No rows, which take no memory.
    pub(crate) fn new(alloc: Global) -> Self
        ensures { slots_of result ≡ λ _. None }
    {
        Block {
            slots: Vec::new(alloc),
        }
    }

    /// Whether there are no rows.
    pub(crate) fn is_empty(&self) -> bool
        ensures { result ≡ true → slots_of self.now ≡ λ _. None }
    {
        self.slots.is_empty()
    }

    /// The row at the place, where there is one.
    pub(crate) fn row(&self, place: usize) -> Option<&Row<N>>
        ensures { option_copied result ≡ slots_of self.now place }
    {
        self.slots.get(place)?.as_ref()
    }

    /// The same for writing.
    pub(crate) fn row_mut(&mut self, place: usize) -> Option<&mut Row<N>>
        ensures* writes_back { sem 𝓛 (lends_row N.row self.entry place result) }
        ensures value { option_copied_mut result ≡ slots_of self.old place }
    {
        self.slots.get_mut(place)?.as_mut()
    }

    /// The row comes to the place. Where memory is refused, it is dropped.
    pub(crate) fn put(&mut self, place: usize, row: Row<N>) -> Result<(), AllocError>
        ensures rows { OnOk result (slots_of self.new ≡
            with_at place (Some row) (slots_of self.old)) }
        ensures on_refusal { OnErr result (slots_of self.new ≡ slots_of self.old) }
    {
        self.fill(place)?;
        if let Some(slot) = self.slots.get_mut(place) {
            *slot = Some(row);
            return Ok(());
        }
        self.slots.push(Some(row))?;
        Ok(())
    }

    /// Takes the row out of the place, if there is one. It takes no memory.
    pub(crate) fn take(&mut self, place: usize) -> Option<Row<N>>
        ensures row { result ≡ slots_of self.old place }
        ensures rows { slots_of self.new ≡ with_at place None (slots_of self.old) }
    {
        let row = self.slots.get_mut(place)?.take();
        self.trim();
        row
    }

    /// As many places as are before this one.
    fn fill(&mut self, place: usize) -> Result<(), AllocError>
        ensures places { OnOk result (place ≤ vec_len self.new.slots) }
        ensures rows { slots_of self.new ≡ slots_of self.old }
    {
        while self.slots.len() < place {
            self.slots.push(None)?;
        }
        Ok(())
    }

    /// No places behind the last one that has a row.
    fn trim(&mut self)
        ensures { slots_of self.new ≡ slots_of self.old }
    {
        while let Some(None) = self.slots.last() {
            self.slots.pop();
        }
    }
}
