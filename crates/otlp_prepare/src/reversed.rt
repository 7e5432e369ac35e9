//! Long lists that are taken piece by piece. They stand in reverse, so that a piece leaves with its memory.

ghost use Rattle.std.specs.Prelude.{◌≡◌, ◌<◌, ◌≤◌, ◌++◌, length, reverse, IfOk, OnOk};

use std::alloc::{AllocError, Global};
use std::mem;

/// The most that are taken at a time: of resource spans, and of spans, whose notes are made in all threads.
pub(crate) const AT_A_TIME: usize = 4096;

/// The first of a list that stands in reverse, at most `AT_A_TIME`, in order. Their memory is given back.
pub(crate) fn first_of<T: Drop>(alloc: Global, left: &mut Vec<T>) -> Result<Vec<T>, AllocError>
    ensures front { IfOk result (λ now. reverse left.old.items ≡
        now.items ++ reverse left.new.items) }
    ensures fewer { OnOk result (0 < length left.old.items
        → length left.new.items < length left.old.items) }
    ensures few { IfOk result (λ now. length now.items ≤ 4096) }
{
    // No element of a short list is moved to other memory.
    if left.len() <= AT_A_TIME {
        let mut now = mem::replace(left, Vec::new(alloc));
        now.reverse();
        return Ok(now);
    }
    let at = left.len() - AT_A_TIME;
    let mut now = left.split_off(at)?;
    left.shrink_to_fit();
    now.reverse();
    Ok(now)
}
