//! Spans whose flags stand where they are declared, behind the ids and before the name, as some clients write them.

ghost use Rattle.std.specs.Prelude.{◌<◌, IfOk, IfSome};
ghost use Rattle.otlp_canonical.specs.Canonical.{CanonicalCopy};

use crate::defaults::bare_copy;
use crate::field::{behind_two, short_field};
use std::alloc::{AllocError, Global};

/// What stands behind the field of this number and wire type `Bytes`, if it stands at the front.
#[inline(always)]
fn behind_short(text: &[u8], number: u8) -> &[u8]
    requires fits { number < 16 }
{
    match short_field(text, number) {
        Some((_bytes, rest)) => rest,
        None => text,
    }
}

/// Whether the flags stand behind ids, and before the name, the kind, a time or a count.
#[inline(never)]
pub fn flags_are_early(text: &[u8]) -> bool {
    let trace_id = behind_short(text, 1);
    let span_id = behind_short(trace_id, 2);
    let state = behind_short(span_id, 3);
    let parent = behind_short(state, 4);
    let Some(flags) = behind_two(parent, 0x85, 0x01) else {
        return false;
    };
    match flags.get(4) {
        Some(tag) => matches!(*tag, 0x2a | 0x30 | 0x39 | 0x41 | 0x50 | 0x60 | 0x70),
        None => false,
    }
}

/// A span's canonical text, where the given text is that but for its flags, which stand before other fields, and for
/// what `without_defaults` leaves out. `vain` is that of `bare_copy`.
#[inline(never)]
pub fn with_flags_last(
    alloc: Global,
    text: &[u8],
    room: u32,
    vain: &mut bool,
) -> Result<Option<Vec<u8>>, AllocError>
    ensures { IfOk result (λ found. IfSome found (λ copy. CanonicalCopy room text.now
        copy.items)) }
{
    bare_copy(alloc, text, room, true, vain)
}
