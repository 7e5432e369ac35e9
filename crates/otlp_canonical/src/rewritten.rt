//! Spans whose fields are in order, of which some are put anew one by one: what isn't canonical in an attribute,
//! numbers of more bits than a span takes, events and links, and statuses and what else is read and written.

ghost use Rattle.std.specs.Prelude.{◌≡◌, ◌-◌, ◌<◌, ◌++◌, ℕ, true, false, [], IfOk, IfSome};
ghost use Rattle.pb_wire.specs.Grammar.{entry, Bytes, IsField};
ghost use Rattle.otlp_canonical.specs.Anew.{WrittenAnew};
ghost use Rattle.otlp_canonical.specs.Canonical.{CanonicalCopy};
ghost use Rattle.otlp_canonical.specs.Defaults.{DefaultsAbove};
ghost use Rattle.otlp_canonical.specs.Inner.{FieldAlike, PutFor};
ghost use Rattle.otlp_canonical.specs.LowBits.{IsReadAs};
ghost use Rattle.otlp_trace.specs.Defaults.{no_span};
ghost use Rattle.otlp_read.specs.Value.{span_step};
ghost use Rattle.otlp_read.specs.Walk.{numbered, read_with};

use crate::anew::{put_alone, put_parts, put_short};
use crate::apart::{parts_of, plain_parts};
use crate::attribute::{begins_otherwise, field_size, is_plain};
use crate::defaults::is_default;
use crate::joined::has_values;
use crate::message::Canonical;
use crate::order::are_ordered;
use crate::places::{Placed, put_by_places};
use crate::text::is_span_text;
use crate::unknown::Keeping;
use otlp_read::{ReadFault, read_span, span_is_typed};
use otlp_trace::{Event, KeyValue, Link, Span, Status, put_bytes_field, write_span};
use pb_wire::{Field, Value, next_field};
use std::alloc::{AllocError, Global};

/// The number of a span's kind.
const KIND: u32 = 6;

/// The bits that stand before a negative number of 32 bits where it is written in 64.
const SIGN: u64 = 0xffff_ffff_0000_0000;

/// Whether a span's field, which takes so many bytes, stays as it is: if the span doesn't know it, or if it holds a
/// message's canonical text behind a length that is as short as it can be. Whether a plain attribute is UTF-8 isn't
/// looked at here.
fn stays(field: Field<'_>, size: usize, room: u32) -> bool {
    let Value::Bytes(text) = field.value else {
        return !Span::knows(field);
    };
    let canonical = match field.number {
        9 if is_plain(text) => true,
        9 => !begins_otherwise(text, 0) && KeyValue::check(text, room).is_some(),
        11 => Event::check(text, room).is_some(),
        13 => Link::check(text, room).is_some(),
        15 => Status::check(text, room).is_some(),
        1..=5 => false,
        _ => return true,
    };
    canonical && size == field_size(text.len())
}

/// Whether the field at the front is an attribute of one value that no function of `anew` puts.
fn is_odd_next(text: &[u8], room: u32) -> bool {
    let depth = 101u32.saturating_sub(room);
    let inner = room.saturating_sub(1);
    let Ok(Some((field, _rest))) = next_field(text, depth) else {
        return false;
    };
    let Value::Bytes(attribute) = field.value else {
        return false;
    };
    field.number == 9
        && parts_of(attribute, inner).is_none()
        && !has_values(attribute, 101u32.saturating_sub(inner))
}

/// Appends what is written of the span that a reader makes of the text. Tells whether it did.
fn put_read(alloc: Global, copy: &mut Vec<u8>, text: &[u8], room: u32) -> Result<bool, AllocError>
    ensures { IfOk result (λ whole. whole ≡ true
        → WrittenAnew room text.now copy.old.items copy.new.items) }
{
    if room > 101 {
        return Ok(false);
    }
    let span = match read_span(alloc, text, room) {
        Ok(span) => span,
        Err(ReadFault::OutOfMemory) => return Err(AllocError),
        Err(_) => return Ok(false),
    };
    span_is_typed(&span);
    write_span(alloc, copy, &span)?;
    Ok(true)
}

/// The field with no more bits than a span takes: of a count 32, of a kind 32 with a sign, which is written in 64.
fn with_low_bits(field: Field<'_>) -> Field<'_>
    ensures { IsReadAs (entry result) (entry field.entry) }
{
    let Value::Varint(number) = field.value else {
        return field;
    };
    let low = number % (1 << 32);
    if field.number == KIND && low >= 1 << 31 {
        return Field {
            number: field.number,
            value: Value::Varint(low + SIGN),
        };
    }
    Field {
        number: field.number,
        value: Value::Varint(low),
    }
}

/// Appends a span's field that holds no bytes anew, behind fields of numbers up to `most`. Tells whether it did: a
/// number may be a default in the bits that are taken of it.
fn put_number(copy: &mut Vec<u8>, field: Field<'_>, most: u32) -> Result<bool, AllocError>
    ensures { (room d : ℕ) → IfOk result (λ whole. whole ≡ true
        → PutFor span_step DefaultsAbove room d most (entry field.entry)
        copy.old.items copy.new.items) }
{
    let low = with_low_bits(field);
    if is_default(low) {
        return Ok(most < low.number);
    }
    if !Span::knows(low) {
        return Ok(false);
    }
    let whole = put_short(copy, low)?;
    Ok(whole)
}

/// Appends a span's field anew that is an attribute, in front of what stands behind it: from its text, or else what is
/// written of what is read. Tells whether it did.
fn put_attribute(
    alloc: Global,
    copy: &mut Vec<u8>,
    text: &[u8],
    spelled: &[u8],
    behind: &[u8],
    room: u32,
) -> Result<bool, AllocError>
    requires some { 0 < room }
    requires spelled { IsField (101 - room) spelled.now (numbered 9 (Bytes text.now)) }
    ensures { (d most : ℕ) → IfOk result (λ whole. whole ≡ true
        → PutFor span_step DefaultsAbove (room - 1) d most (numbered 9 (Bytes text.now))
        copy.old.items copy.new.items) }
{
    if let Some(parts) = plain_parts(text, room - 1) {
        let whole = put_parts(alloc, copy, text, parts, room - 1)?;
        return Ok(whole);
    }
    if put_alone(alloc, copy, text, room - 1)? {
        return Ok(true);
    }
    // To read all attributes of a span alone takes longer than to read the span.
    if is_odd_next(behind, room) {
        return Ok(false);
    }
    let whole = put_read(alloc, copy, spelled, room)?;
    Ok(whole)
}

/// Appends a field of this number, from 1 to 15, with the message's text anew. Tells whether it did; else nothing is
/// appended.
fn put_placed<M: Placed>(
    alloc: Global,
    copy: &mut Vec<u8>,
    number: u32,
    text: &[u8],
    room: u32,
) -> Result<bool, AllocError>
    ensures put { IfOk result (λ whole. whole ≡ true
        → FieldAlike M.layout.step M.layout.none room number text.now copy.old.items
        copy.new.items) }
    ensures not { IfOk result (λ whole. whole ≡ false → copy.new.items ≡ copy.old.items) }
{
    // `put_bytes_field` wants a number from 1 to 2^29 - 1. No caller passes one above 15.
    if number == 0 || number > 15 {
        return Ok(false);
    }
    let mut anew = Vec::with_capacity(alloc, text.len())?;
    if !put_by_places::<M>(alloc, &mut anew, text, room)? {
        return Ok(false);
    }
    put_bytes_field(copy, number, anew.as_slice())?;
    Ok(true)
}

/// Appends a span's event anew: from its text, or else what is written of what is read. Tells whether it did.
fn put_event(
    alloc: Global,
    copy: &mut Vec<u8>,
    text: &[u8],
    spelled: &[u8],
    room: u32,
) -> Result<bool, AllocError>
    requires some { 0 < room }
    requires spelled { IsField (101 - room) spelled.now (numbered 11 (Bytes text.now)) }
    ensures { (d most : ℕ) → IfOk result (λ whole. whole ≡ true
        → PutFor span_step DefaultsAbove (room - 1) d most (numbered 11 (Bytes text.now))
        copy.old.items copy.new.items) }
{
    if put_placed::<Event>(alloc, copy, 11, text, room - 1)? {
        return Ok(true);
    }
    let whole = put_read(alloc, copy, spelled, room)?;
    Ok(whole)
}

/// Appends a span's link anew, likewise.
fn put_link(
    alloc: Global,
    copy: &mut Vec<u8>,
    text: &[u8],
    spelled: &[u8],
    room: u32,
) -> Result<bool, AllocError>
    requires some { 0 < room }
    requires spelled { IsField (101 - room) spelled.now (numbered 13 (Bytes text.now)) }
    ensures { (d most : ℕ) → IfOk result (λ whole. whole ≡ true
        → PutFor span_step DefaultsAbove (room - 1) d most (numbered 13 (Bytes text.now))
        copy.old.items copy.new.items) }
{
    if put_placed::<Link>(alloc, copy, 13, text, room - 1)? {
        return Ok(true);
    }
    let whole = put_read(alloc, copy, spelled, room)?;
    Ok(whole)
}

/// Appends a span's field anew, behind fields of numbers up to `most` and in front of what stands behind it. Tells
/// whether it did.
fn put_anew(
    alloc: Global,
    copy: &mut Vec<u8>,
    field: Field<'_>,
    spelled: &[u8],
    behind: &[u8],
    most: u32,
    room: u32,
) -> Result<bool, AllocError>
    requires spelled { IsField (101 - room) spelled.now (entry field) }
    ensures { (d : ℕ) → IfOk result (λ whole. whole ≡ true
        → PutFor span_step DefaultsAbove (room - 1) d most (entry field.entry)
        copy.old.items copy.new.items) }
{
    if is_default(field) {
        return Ok(most < field.number);
    }
    if room == 0 {
        return Ok(false);
    }
    let Value::Bytes(text) = field.value else {
        let whole = put_number(copy, field, most)?;
        return Ok(whole);
    };
    if !Span::knows(field) {
        return Ok(false);
    }
    let whole = match field.number {
        9 => put_attribute(alloc, copy, text, spelled, behind, room)?,
        11 => put_event(alloc, copy, text, spelled, room)?,
        13 => put_link(alloc, copy, text, spelled, room)?,
        15 if most < 15 => put_read(alloc, copy, spelled, room)?,
        15 => false,
        _ => put_short(copy, field)?,
    };
    Ok(whole)
}

/// Appends the text with what isn't canonical in it put anew, and tells what is left to copy.
fn put_fields<'a>(
    alloc: Global,
    copy: &mut Vec<u8>,
    text: &'a [u8],
    room: u32,
) -> Result<Option<&'a [u8]>, AllocError>
    requires some { 0 < room }
    requires none { copy.now.items ≡ [] }
    ensures { IfOk result (λ found. IfSome found (λ from.
        read_with span_step room no_span text.now
        ≡ read_with span_step room no_span (copy.new.items ++ from.now))) }
{
    let depth = 101u32.saturating_sub(room);
    let mut from = text;
    let mut left = text;
    let mut most = 0u32;
    'fields: while !left.is_empty() {
        let Ok(Some((field, rest))) = next_field(left, depth) else {
            return Ok(None);
        };
        if field.number < most && Span::knows(field) {
            return Ok(None);
        }
        let spelled = &left[..left.len() - rest.len()];
        if stays(field, spelled.len(), room - 1) {
            most = most.max(field.number);
            left = rest;
            continue;
        }
        copy.extend_from_slice(&from[..from.len() - left.len()])?;
        if !put_anew(alloc, copy, field, spelled, rest, most, room)? {
            return Ok(None);
        }
        most = most.max(field.number);
        from = rest;
        left = rest;
    }
    Ok(Some(from))
}

/// A span's canonical text, where its fields are in order.
pub fn rewritten(alloc: Global, text: &[u8], room: u32) -> Result<Option<Vec<u8>>, AllocError>
    ensures { IfOk result (λ found. IfSome found (λ copy. CanonicalCopy room text.now
        copy.items)) }
{
    if room == 0 {
        return Ok(None);
    }
    let mut copy = Vec::with_capacity(alloc, text.len())?;
    let Some(from) = put_fields(alloc, &mut copy, text, room)? else {
        return Ok(None);
    };
    copy.extend_from_slice(from)?;
    if is_span_text(copy.as_slice(), room) {
        Ok(Some(copy))
    } else {
        Ok(None)
    }
}

/// What `rewritten` gives. Where that is none, `vain` tells whether the text's fields are in order, so that none will
/// come of them in another.
pub fn rewritten_or_vain(
    alloc: Global,
    text: &[u8],
    room: u32,
    vain: &mut bool,
) -> Result<Option<Vec<u8>>, AllocError>
    ensures { IfOk result (λ found. IfSome found (λ copy. CanonicalCopy room text.now
        copy.items)) }
{
    let anew = rewritten(alloc, text, room)?;
    if anew.is_some() {
        return Ok(anew);
    }
    *vain = are_ordered(text, room);
    Ok(None)
}
