//! Attributes whose lengths are longer than they have to be. Some clients leave four bytes for the length of a message
//! that they have yet to write, and fill them.

ghost use Rattle.std.specs.Prelude.{◌≡◌, ◌-◌, ◌<◌, ℕ, List, true, IfOk, IfSome};
ghost use Rattle.otlp_canonical.specs.Attribute.{ValueLast};
ghost use Rattle.otlp_canonical.specs.Inner.{FieldAlike};
ghost use Rattle.otlp_read.specs.AnyValue.{no_key_value, key_value_step};

use crate::anew::put_respelled;
use crate::apart::holds_others;
use crate::field::{bytes_field, short_field};
use crate::number::{content, split};
use crate::value::{any, scalar};
use otlp_trace::put_bytes_field;
use pb_wire::{Value, WireType, next_field, put_tag, put_varint};
use std::alloc::{AllocError, Global};

/// How many bytes the number takes as a varint.
#[inline(always)]
pub fn varint_size(number: u64) -> usize {
    let mut size = 1usize;
    let mut left = number;
    'digits: while left >= 0x80 {
        size = size.saturating_add(1);
        left >>= 7;
    }
    size
}

/// How many bytes a field of a number below 16 takes that holds so many.
#[inline(always)]
pub fn field_size(held: usize) -> usize {
    held.saturating_add(1)
        .saturating_add(varint_size(held as u64))
}

/// The length of the key, where the attribute begins with one of fewer than 128 bytes and its length in one byte, as
/// most do.
#[inline(always)]
fn short_key(text: &[u8]) -> Option<u8> {
    let (front, _rest) = text.split_first_chunk::<2>()?;
    if front[0] == 0x0a && matches!(front[1], 1..=0x7f) {
        Some(front[1])
    } else {
        None
    }
}

/// Whether a value begins with what isn't known, or with a member behind which more stands, or with one that isn't as
/// short as it can be. An array or a list is looked into where there is room for some levels, the value's own among
/// them.
#[inline(always)]
fn holds_more(value: &[u8], room: u32) -> bool {
    let Some((first, behind)) = value.split_first() else {
        return false;
    };
    match *first {
        0x0a | 0x3a => match content(behind) {
            Some((_held, more)) => !more.is_empty(),
            None => true,
        },
        0x2a | 0x32 => match content(behind) {
            Some((_held, more)) => !more.is_empty() || room > 0 && any(value, room).is_none(),
            None => true,
        },
        _ => match scalar(value) {
            Some(more) => !more.is_empty(),
            None => true,
        },
    }
}

/// Whether a value stands at the front whose length has more than two bytes, or a second one of 0: one that is longer
/// than it has to be, as a rule.
#[inline(always)]
fn has_long_value(text: &[u8]) -> bool {
    match text.split_first_chunk::<3>() {
        Some((front, _rest)) => {
            front[0] == 0x12 && front[1] >= 0x80 && !matches!(front[2], 1..=0x7f)
        }
        None => false,
    }
}

/// Whether something else than a value stands behind a key of so many bytes, with a length of one byte, or another
/// value or a key behind its value; or that value holds more. Behind a length of more than two bytes it isn't asked.
#[inline(always)]
fn goes_on(text: &[u8], key_size: u8, room: u32) -> bool {
    let Some((_key, behind)) = split(text, usize::from(key_size) + 2) else {
        return false;
    };
    if has_long_value(behind) {
        return false;
    }
    let Some((value, others)) = bytes_field(behind, 2) else {
        return !matches!(behind.first(), None | Some(0x12));
    };
    holds_more(value, room) || matches!(others.first(), Some(0x0a | 0x12))
}

/// Whether the attribute's text can't be canonical, by what it begins with: an empty key, a key whose length is longer
/// than it has to be, what is no value behind the key, a value behind which a key or a value stands, or a field that
/// isn't known, behind which one of these stands as a rule. Nor can it be, as a rule, where its value begins with a
/// field that isn't known, or with a member and more. With room for some levels in the value, an array or a list at its
/// front is looked into.
#[inline(always)]
pub fn begins_otherwise(text: &[u8], room: u32) -> bool {
    if let Some(size) = short_key(text) {
        return goes_on(text, size, room);
    }
    match text.first() {
        Some(0x0a) => text.len() <= LONGEST_SHORT,
        Some(0x12) => is_behind_value(text),
        Some(_) => true,
        None => false,
    }
}

/// Whether a key that isn't empty stands at the front, with a string as the value behind it and nothing else, all with
/// lengths of one byte, as most attributes are. These lengths alone are looked at.
#[inline(always)]
fn begins_plainly(text: &[u8]) -> bool {
    let Some(size) = short_key(text) else {
        return false;
    };
    let Some((_key, behind)) = split(text, usize::from(size) + 2) else {
        return false;
    };
    let Some((front, string)) = behind.split_first_chunk::<4>() else {
        return false;
    };
    front[2] == 0x0a
        && string.len() == usize::from(front[3])
        && string.len() + 2 == usize::from(front[1])
        && front[1] < 0x80
}

/// Whether the attribute is a key that isn't empty and then a string, all with lengths of one byte, as most are. What
/// stands in both isn't looked at.
#[inline(always)]
pub fn is_plain(text: &[u8]) -> bool {
    let Some((key, behind)) = short_field(text, 1) else {
        return false;
    };
    let Some((value, end)) = short_field(behind, 2) else {
        return false;
    };
    let Some((_string, more)) = short_field(value, 1) else {
        return false;
    };
    !key.is_empty() && end.is_empty() && more.is_empty()
}

/// An attribute of as many bytes has no key of 128 bytes and more, and so none with a length of two bytes.
const LONGEST_SHORT: usize = 130;

/// Whether a key stands behind the first field.
fn is_behind_field(text: &[u8]) -> bool {
    match next_field(text, 0) {
        Ok(Some((_value, rest))) => matches!(rest.first(), Some(0x0a)),
        _ => false,
    }
}

/// Whether a key stands behind the value, the first field.
#[inline(always)]
fn is_behind_value(text: &[u8]) -> bool {
    match short_field(text, 2) {
        Some((_value, rest)) => matches!(rest.first(), Some(0x0a)),
        None => is_behind_field(text),
    }
}

/// In a span of as many bytes at most attributes are respelled while it is looked for defaults. What is put anew in
/// vain in a longer one is put so once.
const LONGEST_RESPELLED: usize = 16_384;

/// Whether the attribute of a span of so many bytes is respelled while the span is looked for defaults. In one of more
/// bytes only those are whose own length is longer than it has to be: they don't stay as they are in any case. There is
/// room for so many levels, the attribute's own among them.
#[inline(always)]
pub fn is_respelled(text: &[u8], has_long_length: bool, span: usize, room: u32) -> bool {
    if span <= LONGEST_RESPELLED {
        begins_otherwise(text, room.saturating_sub(1))
    } else {
        has_long_length && begins_otherwise(text, 0)
    }
}

/// Whether an attribute whose length has one byte stays as it is in a span of so many bytes. There is room for so many
/// levels, the attribute's own among them.
#[inline(always)]
pub fn stays_as_it_is(text: &[u8], span: usize, room: u32) -> bool {
    begins_plainly(text) || !is_respelled(text, false, span, room)
}

/// What stands before an attribute's value and the value, where that is the second field and the last; none where its
/// length is no longer than it has to be.
fn long_value(text: &[u8], depth: u32) -> Option<(&[u8], &[u8])>
    ensures { IfSome result (λ x. ValueLast depth text.now x.0.now x.1.now) }
{
    let Ok(Some((_key, last))) = next_field(text, depth) else {
        return None;
    };
    let Ok(Some((field, end))) = next_field(last, depth) else {
        return None;
    };
    let Value::Bytes(value) = field.value else {
        return None;
    };
    if field.number != 2 || !end.is_empty() || last.len() <= field_size(value.len()) {
        return None;
    }
    Some((&text[..text.len() - last.len()], value))
}

/// How many bytes the attribute has without those that its value's length need not have.
pub fn attribute_size(text: &[u8], room: u32) -> usize {
    let depth = 101u32.saturating_sub(room);
    match long_value(text, depth) {
        Some((before, value)) => before.len().saturating_add(field_size(value.len())),
        None => text.len(),
    }
}

/// Appends a field of this number with an attribute that is a key and then the value, with lengths as short as they can
/// be. Tells whether it did.
fn put_last(copy: &mut Vec<u8>, number: u32, key: &[u8], value: &[u8]) -> Result<bool, AllocError>
    requires some { 0 < number }
    requires fits { number < 16 }
    ensures { (room : ℕ) (text : List ℕ) → 0 < room
        → ValueLast (101 - room) text key.now value.now → IfOk result (λ whole. whole ≡ true
        → FieldAlike key_value_step no_key_value room number text copy.old.items
        copy.new.items) }
{
    let size = key.len().saturating_add(field_size(value.len()));
    put_tag(copy, number, WireType::Bytes)?;
    put_varint(copy, size as u64)?;
    let start = copy.len();
    copy.extend_from_slice(key)?;
    put_tag(copy, 2, WireType::Bytes)?;
    put_varint(copy, value.len() as u64)?;
    copy.extend_from_slice(value)?;
    Ok(copy.len().saturating_sub(start) == size)
}

/// Appends a field of this number with the attribute, its length and its value's as short as they can be. Tells whether
/// it did.
pub fn put_attribute(
    copy: &mut Vec<u8>,
    number: u32,
    text: &[u8],
    room: u32,
) -> Result<bool, AllocError>
    requires some { 0 < number }
    requires fits { number < 16 }
    ensures { IfOk result (λ whole. whole ≡ true
        → FieldAlike key_value_step no_key_value room number text.now
        copy.old.items copy.new.items) }
{
    if room == 0 {
        return Ok(false);
    }
    let depth = 101u32.saturating_sub(room);
    let Some((key, value)) = long_value(text, depth) else {
        put_bytes_field(copy, number, text)?;
        return Ok(true);
    };
    let whole = put_last(copy, number, key, value)?;
    Ok(whole)
}

/// Appends a span's attribute: anew where it is respelled, or where its value holds others behind a long length; else
/// its length and its value's as short as they can be. Tells whether it did.
pub fn put_span_attribute(
    alloc: Global,
    copy: &mut Vec<u8>,
    text: &[u8],
    respelled: bool,
    room: u32,
) -> Result<bool, AllocError>
    ensures { IfOk result (λ whole. whole ≡ true
        → FieldAlike key_value_step no_key_value room 9 text.now copy.old.items copy.new.items) }
{
    if room == 0 {
        return Ok(false);
    }
    if respelled {
        let whole = put_respelled(alloc, copy, text, room)?;
        return Ok(whole);
    }
    let depth = 101u32.saturating_sub(room);
    let Some((key, value)) = long_value(text, depth) else {
        put_bytes_field(copy, 9, text)?;
        return Ok(true);
    };
    if holds_others(value) {
        let whole = put_respelled(alloc, copy, text, room)?;
        return Ok(whole);
    }
    let whole = put_last(copy, 9, key, value)?;
    Ok(whole)
}
