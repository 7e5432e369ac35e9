//! Attributes whose value stands several times. By the Protocol Buffers encoding guide ("Last One Wins") an embedded
//! message that stands again is merged, as if the fields of all stood in one.

ghost use Rattle.std.specs.Prelude.{◌≡◌, ◌-◌, ◌<◌, true, [], IfOk, IfSome};
ghost use Rattle.otlp_canonical.specs.Anew.{IsPairIn};

use crate::apart::Pair;
use crate::field::is_utf8;
use crate::status::is_fields;
use crate::unknown::Keeping;
use otlp_trace::KeyValue;
use pb_wire::{Value, next_field};
use std::alloc::AllocError;

/// Whether more than one value stands in the attribute.
pub fn has_values(text: &[u8], depth: u32) -> bool {
    let mut met = false;
    let mut left = text;
    'fields: while let Ok(Some((field, rest))) = next_field(left, depth) {
        if field.number == 2 && matches!(field.value, Value::Bytes(_)) {
            if met {
                return true;
            }
            met = true;
        }
        left = rest;
    }
    false
}

/// Puts what all values of the attribute hold, one behind the other, and tells its key. None where it has no value,
/// where a key isn't UTF-8, or where a value isn't fields.
pub fn put_values<'a>(
    values: &mut Vec<u8>,
    text: &'a [u8],
    room: u32,
) -> Result<Option<Pair<'a>>, AllocError>
    requires some { 0 < room }
    requires none { values.now.items ≡ [] }
    ensures is { IfOk result (λ found. IfSome found (λ pair.
        IsPairIn (room - 1) (101 - room) text.now pair.key.now values.new.items true
        pair.unknown)) }
    ensures has { IfOk result (λ found. IfSome found (λ pair. pair.has_value ≡ true)) }
{
    let depth = 101u32.saturating_sub(room);
    let inside = 102u32.saturating_sub(room);
    let mut key = &text[..0];
    let mut has_value = false;
    let mut unknown = 0usize;
    let mut left = text;
    'fields: while !left.is_empty() {
        let Ok(Some((field, rest))) = next_field(left, depth) else {
            return Ok(None);
        };
        if !KeyValue::knows(field) {
            unknown = unknown.saturating_add(left.len() - rest.len());
            left = rest;
            continue;
        }
        let Value::Bytes(bytes) = field.value else {
            return Ok(None);
        };
        match field.number {
            1 if is_utf8(bytes) => key = bytes,
            2 if is_fields(bytes, inside) => {
                values.extend_from_slice(bytes)?;
                has_value = true;
            }
            _ => return Ok(None),
        }
        left = rest;
    }
    if !has_value {
        return Ok(None);
    }
    Ok(Some(Pair {
        key,
        value: &text[..0],
        has_value,
        unknown,
    }))
}
