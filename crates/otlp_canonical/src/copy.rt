//! Resources and scopes that aren't canonical, whose canonical text is made of theirs.

ghost use Rattle.std.specs.Prelude.{IfOk, IfSome};
ghost use Rattle.otlp_canonical.specs.Canonical.{ResourceCopy, ScopeCopy};

use crate::places::put_by_places;
use crate::text::{is_resource_text, is_scope_text};
use otlp_trace::{InstrumentationScope, Resource};
use std::alloc::{AllocError, Global};

/// A resource's canonical text, with room for so many levels, as in `is_resource_text`: its fields in order, each of
/// those of one value once, without defaults, and with all numbers as short as they can be. None where an attribute
/// can't be put so, and where there is no such resource; nothing is said of the text then. The copy may have as many
/// bytes of room as the text has: those of fields that stand several times, and of longer spellings.
pub fn resource_copy(alloc: Global, text: &[u8], room: u32) -> Result<Option<Vec<u8>>, AllocError>
    ensures { IfOk result (λ found. IfSome found (λ copy. ResourceCopy room text.now
        copy.items)) }
{
    let mut copy = Vec::with_capacity(alloc, text.len())?;
    if !put_by_places::<Resource>(alloc, &mut copy, text, room)? {
        return Ok(None);
    }
    if is_resource_text(copy.as_slice(), room) {
        Ok(Some(copy))
    } else {
        Ok(None)
    }
}

/// A scope's canonical text, with room for so many levels, as in `is_scope_text`; or none, as of a resource. Its room
/// is as there.
pub fn scope_copy(alloc: Global, text: &[u8], room: u32) -> Result<Option<Vec<u8>>, AllocError>
    ensures { IfOk result (λ found. IfSome found (λ copy. ScopeCopy room text.now copy.items)) }
{
    let mut copy = Vec::with_capacity(alloc, text.len())?;
    if !put_by_places::<InstrumentationScope>(alloc, &mut copy, text, room)? {
        return Ok(None);
    }
    if is_scope_text(copy.as_slice(), room) {
        Ok(Some(copy))
    } else {
        Ok(None)
    }
}
