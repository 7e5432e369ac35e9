//! Messages that are read field by field, and keep what stands in the text.

ghost use Rattle.std.specs.Prelude.{◌≡◌, ◌≤◌, ◌+◌, ℕ, List, length, IfOk};
ghost use Rattle.pb_wire.specs.Grammar.{datum, entry, Bytes as bytes_datum};
ghost use Rattle.otlp_read.specs.Fault.{Gives};
ghost use Rattle.otlp_read.specs.Walk.{Step, read_with};
ghost use Rattle.otlp_parts.specs.ReadAs.{Stands};

use otlp_read::ReadFault;
use pb_wire::{Field, next_field};
use std::alloc::Global;
use text_slice::TextSlice;

/// A message that takes one field of a text after the other, and may keep what stands there.
pub trait Walked: Drop {
    ghost Data: { Type 0 };

    ghost view: { Self → Data };

    ghost step: { ℕ → Step Data };

    // how many bytes the texts have that may be slices
    ghost size: { Data → ℕ };

    /// Takes one more field, which ends at `end` of the text. The bytes that are kept as slices are added to `sliced`.
    /// After a fault nothing is known of the message.
    fn field(
        &mut self,
        alloc: Global,
        text: &TextSlice,
        end: usize,
        field: Field<'_>,
        sliced: &mut usize,
    ) -> Result<(), ReadFault>
        requires within { end ≤ length text.now }
        requires stands { (content : List ℕ) → datum field.value ≡ bytes_datum content
            → Stands text.now end content }
        ensures exact { (room : ℕ) (spelled : List ℕ) →
            Gives (λ taken. view self.new) result
            (step room (view self.old) (entry field.entry) spelled) }
        ensures sliced_within { IfOk result (λ taken.
            sliced.new + size (view self.old) ≤ sliced.old + size (view self.new)) };
}

/// Goes on reading a message, where there is room for so many levels, its own among them.
pub fn walk_fields<M: Walked>(
    alloc: Global,
    before: M,
    text: &TextSlice,
    room: u32,
    sliced: &mut usize,
) -> Result<M, ReadFault>
    requires room { room ≤ 101 }
    ensures exact { Gives M.view result (read_with M.step room (M.view before) text.now) }
    ensures sliced_within { IfOk result (λ after.
        sliced.new + M.size (M.view before) ≤ sliced.old + M.size (M.view after)) }
{
    if room == 0 {
        return Err(ReadFault::TooDeep);
    }
    let mut value = before;
    let mut left = text.as_slice();
    'fields: while let Some((field, rest)) = next_field(left, 101 - room)? {
        let end = text.len() - rest.len();
        value.field(alloc, text, end, field, sliced)?;
        left = rest;
    }
    Ok(value)
}
