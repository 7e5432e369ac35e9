//! Attributes that are put anew: with their fields in order, and with all lengths as short as they can be. A key may
//! stand behind its value, be written where it is empty, or stand twice. A value may have members of which the last one
//! wins. Fields that aren't known may stand anywhere.

ghost use Rattle.std.specs.Prelude.{◌≡◌, ◌-◌, ◌<◌, ℕ, List, [], ◌++◌, true, false, Some, Ok, IfOk};
ghost use Rattle.pb_wire.specs.Grammar.{entry};
ghost use Rattle.otlp_read.specs.AnyValue.{no_value, no_array, no_list, no_key_value, any_step_in, array_step_in, list_step_in, key_value_step};
ghost use Rattle.otlp_read.specs.Walk.{walk};
ghost use Rattle.otlp_canonical.specs.Anew.{gather, HasParts, IsFirst, IsPair, IsPairIn, IsValue, Spelled};
ghost use Rattle.otlp_canonical.specs.Inner.{ReadAlike, FieldAlike, PutFor};

use crate::apart::{Pair, Parts, pair_in, parts_to_put, plain_member, split_value};
use crate::attribute::{field_size, varint_size};
use crate::joined::put_values;
use crate::unknown::Keeping;
use otlp_trace::{AnyValue, KeyValue, put_bytes_field, put_some_bytes, wrap_in_field};
use pb_wire::{Field, Value, WireType, next_field, put_tag, put_varint};
use std::alloc::{AllocError, Global};

/// The greatest number of a field that is known in a span or in a message in it.
const MOST: u32 = 16;

/// Appends the field as short as it can be. Tells whether it did, as it does with those whose number is known.
pub fn put_short(copy: &mut Vec<u8>, field: Field<'_>) -> Result<bool, AllocError>
    ensures { IfOk result (λ whole. whole ≡ true
        → Spelled (entry field.entry) copy.old.items copy.new.items) }
{
    if field.number == 0 || field.number > MOST {
        return Ok(false);
    }
    match field.value {
        Value::Varint(number) => {
            put_tag(copy, field.number, WireType::Varint)?;
            put_varint(copy, number)?;
            Ok(true)
        }
        Value::Eight(bytes) => {
            put_tag(copy, field.number, WireType::Eight)?;
            copy.extend_from_slice(&bytes)?;
            Ok(true)
        }
        Value::Bytes(bytes) => {
            put_bytes_field(copy, field.number, bytes)?;
            Ok(true)
        }
        Value::Four(bytes) => {
            put_tag(copy, field.number, WireType::Four)?;
            copy.extend_from_slice(&bytes)?;
            Ok(true)
        }
        Value::Group(_) => Ok(false),
    }
}

/// How many bytes the field takes that is as short as it can be, if its number is below 16.
#[inline(always)]
fn short_size(field: Field<'_>) -> usize {
    match field.value {
        Value::Varint(number) => varint_size(number).saturating_add(1),
        Value::Eight(_) => 9,
        Value::Bytes(bytes) => field_size(bytes.len()),
        Value::Four(_) => 5,
        Value::Group(_) => 0,
    }
}

/// Appends the fields of the text that the message doesn't know, as they are spelled. They take so many bytes, or more.
/// Tells whether the text is fields all through; where they take none the text isn't looked at.
#[inline(always)]
fn put_unknown<M: Keeping>(
    copy: &mut Vec<u8>,
    text: &[u8],
    size: usize,
    depth: u32,
) -> Result<bool, AllocError>
    ensures { (a : M.Data) (kept : List ℕ) → walk (gather M.known a) depth [] text.now ≡ Ok kept
        → (size ≡ 0 → kept ≡ []) → IfOk result (λ whole. whole ≡ true
        → copy.new.items ≡ copy.old.items ++ kept) }
{
    if size == 0 {
        return Ok(true);
    }
    let mut left = text;
    'fields: while !left.is_empty() {
        let Ok(Some((field, rest))) = next_field(left, depth) else {
            return Ok(false);
        };
        if M::knows(field) {
            left = rest;
            continue;
        }
        copy.extend_from_slice(&left[..left.len() - rest.len()])?;
        left = rest;
    }
    Ok(true)
}

/// Appends a value's member that is no message anew, and what isn't known in the value.
#[inline(always)]
fn put_plain(
    copy: &mut Vec<u8>,
    value: &[u8],
    field: Field<'_>,
    unknown: usize,
    room: u32,
) -> Result<bool, AllocError>
    requires some { 0 < room }
    ensures { IsValue (room - 1) (101 - room) value.now (Some (entry field.entry)) unknown
        → IfOk result (λ whole. whole ≡ true
        → ReadAlike any_step_in no_value room value.now copy.old.items copy.new.items) }
{
    let depth = 101u32.saturating_sub(room);
    if !put_short(copy, field)? {
        return Ok(false);
    }
    let whole = put_unknown::<AnyValue>(copy, value, unknown, depth)?;
    Ok(whole)
}

/// Appends a field of a span with the attribute's text anew, by way of `put_pair`.
fn put_nested(alloc: Global, copy: &mut Vec<u8>, text: &[u8], room: u32) -> Result<bool, AllocError>
    ensures { IfOk result (λ whole. whole ≡ true
        → FieldAlike key_value_step no_key_value room 9 text.now copy.old.items copy.new.items) }
{
    let start = copy.len();
    if !put_pair(alloc, copy, text, room, false)? {
        return Ok(false);
    }
    wrap_in_field(copy, start, 9)?;
    Ok(true)
}

/// The same, where these are the attribute's key and its value.
fn put_pair_nested(
    alloc: Global,
    copy: &mut Vec<u8>,
    text: &[u8],
    pair: Pair<'_>,
    room: u32,
) -> Result<bool, AllocError>
    requires some { 0 < room }
    requires is { IsPair (101 - room) text.now pair.key.now pair.value.now pair.has_value
        pair.unknown }
    ensures { IfOk result (λ whole. whole ≡ true
        → FieldAlike key_value_step no_key_value room 9 text.now copy.old.items copy.new.items) }
{
    let start = copy.len();
    if !put_split(alloc, copy, text, pair, pair.value, room, false)? {
        return Ok(false);
    }
    wrap_in_field(copy, start, 9)?;
    Ok(true)
}

/// What `put_nested` appends. Where it tells that it didn't, nothing is appended: the text is put apart first, where it
/// takes its bytes once more.
pub fn put_alone(
    alloc: Global,
    copy: &mut Vec<u8>,
    text: &[u8],
    room: u32,
) -> Result<bool, AllocError>
    ensures put { IfOk result (λ whole. whole ≡ true
        → FieldAlike key_value_step no_key_value room 9 text.now copy.old.items copy.new.items) }
    ensures not { IfOk result (λ whole. whole ≡ false → copy.new.items ≡ copy.old.items) }
{
    let mut anew = Vec::with_capacity(alloc, text.len())?;
    if !put_pair(alloc, &mut anew, text, room, false)? {
        return Ok(false);
    }
    put_bytes_field(copy, 9, anew.as_slice())?;
    Ok(true)
}

/// Appends a field of a span with the attribute's text anew. Tells whether it did, as `put_pair` does.
pub fn put_respelled(
    alloc: Global,
    copy: &mut Vec<u8>,
    text: &[u8],
    room: u32,
) -> Result<bool, AllocError>
    ensures { IfOk result (λ whole. whole ≡ true
        → FieldAlike key_value_step no_key_value room 9 text.now copy.old.items copy.new.items) }
{
    let Some(parts) = parts_to_put(text, room) else {
        let whole = put_nested(alloc, copy, text, room)?;
        return Ok(whole);
    };
    let whole = put_parts(alloc, copy, text, parts, room)?;
    Ok(whole)
}

/// Appends a field of a span with the attribute's text anew, which has these parts. How long the text of a value
/// without others in it gets is known before it is put.
#[inline(always)]
pub fn put_parts(
    alloc: Global,
    copy: &mut Vec<u8>,
    text: &[u8],
    parts: Parts<'_>,
    room: u32,
) -> Result<bool, AllocError>
    requires parts { HasParts room text.now parts }
    ensures { IfOk result (λ whole. whole ≡ true
        → FieldAlike key_value_step no_key_value room 9 text.now copy.old.items copy.new.items) }
{
    if room == 0 {
        return Ok(false);
    }
    let pair = parts.pair;
    let Some(field) = plain_member(parts, room - 1) else {
        let whole = put_pair_nested(alloc, copy, text, pair, room)?;
        return Ok(whole);
    };
    let unknown = parts.chosen.unknown;
    let depth = 101u32.saturating_sub(room);
    let value_size = short_size(field).saturating_add(unknown);
    let key_size = if pair.key.is_empty() {
        0
    } else {
        field_size(pair.key.len())
    };
    let size = key_size
        .saturating_add(field_size(value_size))
        .saturating_add(pair.unknown);
    put_tag(copy, 9, WireType::Bytes)?;
    put_varint(copy, size as u64)?;
    let start = copy.len();
    put_some_bytes(copy, 1, pair.key)?;
    put_tag(copy, 2, WireType::Bytes)?;
    put_varint(copy, value_size as u64)?;
    let inside = copy.len();
    if !put_plain(copy, pair.value, field, unknown, room - 1)? {
        return Ok(false);
    }
    if copy.len().saturating_sub(inside) != value_size {
        return Ok(false);
    }
    if !put_unknown::<KeyValue>(copy, text, pair.unknown, depth)? {
        return Ok(false);
    }
    Ok(copy.len().saturating_sub(start) == size)
}

/// Appends the attribute's text anew, of which this is the key, and this its value if it has one. Tells whether it did.
#[cycle(put)]
fn put_split(
    alloc: Global,
    copy: &mut Vec<u8>,
    text: &[u8],
    pair: Pair<'_>,
    value: &[u8],
    room: u32,
    joined: bool,
) -> Result<bool, AllocError>
    requires some { 0 < room }
    ensures { IsPairIn (room - 1) (101 - room) text.now pair.entry.key.now value.now
        pair.entry.has_value pair.entry.unknown → IfOk result (λ whole. whole ≡ true
        → ReadAlike key_value_step no_key_value room text.now copy.old.items copy.new.items) }
{
    let depth = 101u32.saturating_sub(room);
    put_some_bytes(copy, 1, pair.key)?;
    if !pair.has_value {
        let whole = put_unknown::<KeyValue>(copy, text, pair.unknown, depth)?;
        return Ok(whole);
    }
    let start = copy.len();
    if !put_value(alloc, copy, value, room - 1, joined)? {
        return Ok(false);
    }
    wrap_in_field(copy, start, 2)?;
    let whole = put_unknown::<KeyValue>(copy, text, pair.unknown, depth)?;
    Ok(whole)
}

/// Appends the text anew of an attribute that has several values, by way of one that holds what all of them hold.
/// Tells whether it did, as it doesn't inside another such value: each takes the bytes of its attribute, and is held
/// until all inside is put.
#[cycle(put)]
fn put_several(
    alloc: Global,
    copy: &mut Vec<u8>,
    text: &[u8],
    room: u32,
    joined: bool,
) -> Result<bool, AllocError>
    requires some { 0 < room }
    ensures { IfOk result (λ whole. whole ≡ true
        → ReadAlike key_value_step no_key_value room text.now copy.old.items copy.new.items) }
{
    if joined {
        return Ok(false);
    }
    let mut values = Vec::with_capacity(alloc, text.len())?;
    let Some(pair) = put_values(&mut values, text, room)? else {
        return Ok(false);
    };
    let whole = put_split(alloc, copy, text, pair, values.as_slice(), room, true)?;
    Ok(whole)
}

/// Appends the attribute's text anew, which stands in a value put together of several if it is `joined`. Tells whether
/// it did, as it does where in no value an array stands before an array, a list before a list, or one that isn't
/// canonical before another member, nothing that isn't known stands in an array or a list, nor right behind one with a
/// member to follow, and no several values in one of several values. What is left to the reader is sound all the same.
#[cycle(put)]
pub fn put_pair(
    alloc: Global,
    copy: &mut Vec<u8>,
    text: &[u8],
    room: u32,
    joined: bool,
) -> Result<bool, AllocError>
    ensures { IfOk result (λ whole. whole ≡ true
        → ReadAlike key_value_step no_key_value room text.now copy.old.items copy.new.items) }
{
    if room == 0 {
        return Ok(false);
    }
    let depth = 101u32.saturating_sub(room);
    let Some(pair) = pair_in(text, depth) else {
        let whole = put_several(alloc, copy, text, room, joined)?;
        return Ok(whole);
    };
    let whole = put_split(alloc, copy, text, pair, pair.value, room, joined)?;
    Ok(whole)
}

/// Appends the value's text anew, in which one member at most counts.
#[cycle(put)]
fn put_value(
    alloc: Global,
    copy: &mut Vec<u8>,
    text: &[u8],
    room: u32,
    joined: bool,
) -> Result<bool, AllocError>
    ensures { IfOk result (λ whole. whole ≡ true
        → ReadAlike any_step_in no_value room text.now copy.old.items copy.new.items) }
{
    if room == 0 {
        return Ok(false);
    }
    let depth = 101u32.saturating_sub(room);
    let Some(chosen) = split_value(text, room) else {
        return Ok(false);
    };
    let Some(field) = chosen.member else {
        let whole = put_unknown::<AnyValue>(copy, text, chosen.unknown, depth)?;
        return Ok(whole);
    };
    if !put_kind(alloc, copy, field, room - 1, joined)? {
        return Ok(false);
    }
    let whole = put_unknown::<AnyValue>(copy, text, chosen.unknown, depth)?;
    Ok(whole)
}

/// Appends the member of a value anew, with room for so many levels inside the value.
#[cycle(put)]
fn put_kind(
    alloc: Global,
    copy: &mut Vec<u8>,
    field: Field<'_>,
    room: u32,
    joined: bool,
) -> Result<bool, AllocError>
    ensures { (d : ℕ) → IfOk result (λ whole. whole ≡ true
        → PutFor any_step_in IsFirst room d 0 (entry field.entry) copy.old.items copy.new.items) }
{
    let start = copy.len();
    match field.value {
        Value::Bytes(text) if field.number == 5 => {
            if !put_array(alloc, copy, text, room, joined)? {
                return Ok(false);
            }
            wrap_in_field(copy, start, 5)?;
            Ok(true)
        }
        Value::Bytes(text) if field.number == 6 => {
            if !put_list(alloc, copy, text, room, joined)? {
                return Ok(false);
            }
            wrap_in_field(copy, start, 6)?;
            Ok(true)
        }
        _ => {
            if !AnyValue::knows(field) {
                return Ok(false);
            }
            let whole = put_short(copy, field)?;
            Ok(whole)
        }
    }
}

/// Appends the array's text anew.
#[cycle(put)]
fn put_array(
    alloc: Global,
    copy: &mut Vec<u8>,
    text: &[u8],
    room: u32,
    joined: bool,
) -> Result<bool, AllocError>
    ensures { IfOk result (λ whole. whole ≡ true
        → ReadAlike array_step_in no_array room text.now copy.old.items copy.new.items) }
{
    if room == 0 {
        return Ok(false);
    }
    let depth = 101u32.saturating_sub(room);
    let mut left = text;
    'values: while !left.is_empty() {
        let Ok(Some((field, rest))) = next_field(left, depth) else {
            return Ok(false);
        };
        let Value::Bytes(value) = field.value else {
            return Ok(false);
        };
        if field.number != 1 {
            return Ok(false);
        }
        let start = copy.len();
        if !put_value(alloc, copy, value, room - 1, joined)? {
            return Ok(false);
        }
        wrap_in_field(copy, start, 1)?;
        left = rest;
    }
    Ok(true)
}

/// Appends the text of the list of keys with values anew.
#[cycle(put)]
fn put_list(
    alloc: Global,
    copy: &mut Vec<u8>,
    text: &[u8],
    room: u32,
    joined: bool,
) -> Result<bool, AllocError>
    ensures { IfOk result (λ whole. whole ≡ true
        → ReadAlike list_step_in no_list room text.now copy.old.items copy.new.items) }
{
    if room == 0 {
        return Ok(false);
    }
    let depth = 101u32.saturating_sub(room);
    let mut left = text;
    'pairs: while !left.is_empty() {
        let Ok(Some((field, rest))) = next_field(left, depth) else {
            return Ok(false);
        };
        let Value::Bytes(pair) = field.value else {
            return Ok(false);
        };
        if field.number != 1 {
            return Ok(false);
        }
        let start = copy.len();
        if !put_pair(alloc, copy, pair, room - 1, joined)? {
            return Ok(false);
        }
        wrap_in_field(copy, start, 1)?;
        left = rest;
    }
    Ok(true)
}
