//! Messages that are put anew place by place, from their text: what stands at each place in canonical order, wherever
//! in the message it stands, and behind all of it what the message doesn't know.

ghost use Rattle.std.specs.Prelude.{◌≡◌, ◌==◌, ◌<◌, ℕ, true, false, Ok, option_map, IfOk, IfSome, IsTrue};
ghost use Rattle.pb_wire.specs.Grammar.{entry};
ghost use Rattle.otlp_read.specs.AnyValue.{no_key_value, key_value_step};
ghost use Rattle.otlp_read.specs.Walk.{walk};
ghost use Rattle.otlp_canonical.specs.Inner.{FieldAlike, ReadAlike};
ghost use Rattle.otlp_trace.specs.Data.{ResourceData, ScopeData, EventData, LinkData};
ghost use Rattle.otlp_canonical.specs.Layout.{Layout, LayoutLaws, place_in, IsSound, AreSound, held_in, held_by, held_at, nothing_held, is_nothing, PlacePut, KeptPut, resource_layout, scope_layout, event_layout, link_layout};

use crate::anew::{put_pair, put_short};
use crate::field::is_utf8;
use crate::message::Canonical;
use otlp_trace::{
    Event, InstrumentationScope, KeyValue, Link, Resource, put_bytes_field, wrap_in_field,
};
use pb_wire::{Field, Value, next_field};
use std::alloc::{AllocError, Global};

/// A message with attributes, of whose other fields each has one value.
pub trait Placed {
    ghost Data: { Type 0 };

    ghost layout: { Layout Data };

    /// Where the field stands in canonical order.
    fn place(field: Field<'_>) -> u32
        ensures { result ≡ place_in layout (entry field.entry) };

    /// Whether a string stands at this place.
    fn is_string(place: u32) -> bool
        ensures { result ≡ layout.is_string place };

    /// The place of the attributes.
    fn attributes() -> u32
        ensures { result ≡ layout.attributes };

    /// The place of the fields that it doesn't know, behind all others.
    fn unknown() -> u32
        ensures { result ≡ layout.unknown };

    /// What is read of it is made of what stands at each place.
    fn is_laid_out()
        ensures { LayoutLaws layout };
}

/// Whether a field is UTF-8, if it has to be.
fn is_sound<M: Placed>(field: Field<'_>) -> bool
    ensures { IsTrue result → IsSound M.layout (entry field.entry) }
{
    match field.value {
        Value::Bytes(bytes) => {
            if !M::is_string(M::place(field)) {
                return true;
            }
            is_utf8(bytes)
        }
        Value::Varint(_) | Value::Eight(_) | Value::Four(_) | Value::Group(_) => true,
    }
}

/// Whether the text is fields, whose strings are UTF-8.
fn are_sound<M: Placed>(text: &[u8], depth: u32) -> bool
    ensures { IsTrue result → AreSound M.layout depth text.now }
{
    let mut left = text;
    'fields: while !left.is_empty() {
        let Ok(Some((field, rest))) = next_field(left, depth) else {
            return false;
        };
        if !is_sound::<M>(field) {
            return false;
        }
        left = rest;
    }
    true
}

/// The last field at this place, if there is one. None where the text isn't fields.
fn last_at<M: Placed>(text: &[u8], depth: u32, place: u32) -> Option<Option<Field<'_>>>
    ensures { IfSome result (λ last. walk (held_at M.layout place) depth nothing_held text.now
        ≡ Ok (held_by (option_map entry last))) }
{
    let mut last: Option<Field<'_>> = None;
    let mut left = text;
    'fields: while !left.is_empty() {
        let Ok(Some((field, rest))) = next_field(left, depth) else {
            return None;
        };
        if M::place(field) == place {
            last = Some(field);
            left = rest;
            continue;
        }
        left = rest;
    }
    Some(last)
}

/// The field with no more bits than are taken of a number.
fn with_low_bits(field: Field<'_>) -> Field<'_>
    ensures { held_in (entry result).value ≡ held_in (entry field.entry).value }
{
    let Value::Varint(number) = field.value else {
        return field;
    };
    Field {
        number: field.number,
        value: Value::Varint(number % (1 << 32)),
    }
}

/// Whether the field holds nothing, or 0.
fn is_nothing(field: Field<'_>) -> bool
    ensures { result ≡ is_nothing (entry field.entry).value }
{
    match field.value {
        Value::Varint(number) => number == 0,
        Value::Eight(bytes) => u64::from_le_bytes(bytes) == 0,
        Value::Bytes(bytes) => bytes.is_empty(),
        Value::Four(bytes) => u32::from_le_bytes(bytes) == 0,
        Value::Group(_) => false,
    }
}

/// Appends the last of the fields of one value at this place as short as it can be, or nothing where that is its
/// default. Tells whether it did.
fn put_last<M: Placed>(
    copy: &mut Vec<u8>,
    text: &[u8],
    depth: u32,
    place: u32,
) -> Result<bool, AllocError>
    requires other { (place == M.layout.attributes) ≡ false }
    ensures { (room : ℕ) → IfOk result (λ whole. whole ≡ true
        → PlacePut M.layout room depth place text.now copy.old.items copy.new.items) }
{
    let Some(last) = last_at::<M>(text, depth, place) else {
        return Ok(false);
    };
    let Some(field) = last else {
        return Ok(true);
    };
    let low = with_low_bits(field);
    if is_nothing(low) {
        return Ok(true);
    }
    // It never is so: the field was found at this place, and the text is sound. `last_at` and `put_by_places` don't say
    // that to this function, so it asks.
    if M::place(low) != place || !is_sound::<M>(low) {
        return Ok(false);
    }
    let whole = put_short(copy, low)?;
    Ok(whole)
}

/// Appends a field of this number with the attribute, as it stands or anew. Tells whether it did.
fn put_pair_field(
    alloc: Global,
    copy: &mut Vec<u8>,
    number: u32,
    text: &[u8],
    room: u32,
) -> Result<bool, AllocError>
    requires some { 0 < number }
    requires fits { number < 16 }
    ensures { IfOk result (λ whole. whole ≡ true
        → FieldAlike key_value_step no_key_value room number text.now copy.old.items
        copy.new.items) }
{
    if KeyValue::check(text, room).is_some() {
        put_bytes_field(copy, number, text)?;
        return Ok(true);
    }
    let start = copy.len();
    if !put_pair(alloc, copy, text, room, false)? {
        return Ok(false);
    }
    wrap_in_field(copy, start, number)?;
    Ok(true)
}

/// Appends all attributes, as they stand or anew. Tells whether it did.
fn put_attributes<M: Placed>(
    alloc: Global,
    copy: &mut Vec<u8>,
    text: &[u8],
    depth: u32,
    room: u32,
) -> Result<bool, AllocError>
    ensures { IfOk result (λ whole. whole ≡ true
        → PlacePut M.layout room depth M.layout.attributes text.now copy.old.items
        copy.new.items) }
{
    M::is_laid_out();
    let mut left = text;
    'fields: while !left.is_empty() {
        let Ok(Some((field, rest))) = next_field(left, depth) else {
            return Ok(false);
        };
        if M::place(field) != M::attributes() {
            left = rest;
            continue;
        }
        let Value::Bytes(attribute) = field.value else {
            return Ok(false);
        };
        // No message has its attributes at another number. The layout doesn't say so, and what `put_pair_field` appends
        // has a tag of one byte.
        if field.number == 0 || field.number > 15 {
            return Ok(false);
        }
        if !put_pair_field(alloc, copy, field.number, attribute, room)? {
            return Ok(false);
        }
        left = rest;
    }
    Ok(true)
}

/// Appends the fields that the message doesn't know, as they are spelled. Tells whether the text is fields.
fn put_kept<M: Placed>(copy: &mut Vec<u8>, text: &[u8], depth: u32) -> Result<bool, AllocError>
    ensures { IfOk result (λ whole. whole ≡ true
        → KeptPut M.layout depth text.now copy.old.items copy.new.items) }
{
    let mut left = text;
    'fields: while !left.is_empty() {
        let Ok(Some((field, rest))) = next_field(left, depth) else {
            return Ok(false);
        };
        if M::place(field) == M::unknown() {
            copy.extend_from_slice(&left[..left.len() - rest.len()])?;
        }
        left = rest;
    }
    Ok(true)
}

/// Appends what stands at this place. Tells whether it did.
fn put_place<M: Placed>(
    alloc: Global,
    copy: &mut Vec<u8>,
    text: &[u8],
    depth: u32,
    place: u32,
    room: u32,
) -> Result<bool, AllocError>
    ensures { IfOk result (λ whole. whole ≡ true
        → PlacePut M.layout room depth place text.now copy.old.items copy.new.items) }
{
    if place == M::attributes() {
        let whole = put_attributes::<M>(alloc, copy, text, depth, room)?;
        return Ok(whole);
    }
    let whole = put_last::<M>(copy, text, depth, place)?;
    Ok(whole)
}

/// Appends the message's text anew, with its fields in order, each of those of one value once, and its attributes put
/// anew. Tells whether it did: it does where the text is fields with strings of UTF-8, and `put_pair` puts its
/// attributes.
pub fn put_by_places<M: Placed>(
    alloc: Global,
    copy: &mut Vec<u8>,
    text: &[u8],
    room: u32,
) -> Result<bool, AllocError>
    ensures { IfOk result (λ whole. whole ≡ true
        → ReadAlike M.layout.step M.layout.none room text.now copy.old.items copy.new.items) }
{
    if room == 0 {
        return Ok(false);
    }
    M::is_laid_out();
    let depth = 101u32.saturating_sub(room);
    if !are_sound::<M>(text, depth) {
        return Ok(false);
    }
    let end = M::unknown();
    let mut place = 0u32;
    'places: while place < end {
        if !put_place::<M>(alloc, copy, text, depth, place, room - 1)? {
            return Ok(false);
        }
        place += 1;
    }
    let whole = put_kept::<M>(copy, text, depth)?;
    Ok(whole)
}

impl Placed for Resource {
    ghost Data = { ResourceData };

    ghost layout = { resource_layout };

    fn place(field: Field<'_>) -> u32 {
        match field.value {
            Value::Bytes(_) => match field.number {
                1 => 0,
                _ => 2,
            },
            Value::Varint(_) => match field.number {
                2 => 1,
                _ => 2,
            },
            Value::Eight(_) | Value::Four(_) | Value::Group(_) => 2,
        }
    }

    fn is_string(_place: u32) -> bool {
        false
    }

    fn attributes() -> u32 {
        0
    }

    fn unknown() -> u32 {
        2
    }

    fn is_laid_out() {}
}

impl Placed for InstrumentationScope {
    ghost Data = { ScopeData };

    ghost layout = { scope_layout };

    fn place(field: Field<'_>) -> u32 {
        match field.value {
            Value::Bytes(_) => match field.number {
                1 => 0,
                2 => 1,
                3 => 2,
                _ => 4,
            },
            Value::Varint(_) => match field.number {
                4 => 3,
                _ => 4,
            },
            Value::Eight(_) | Value::Four(_) | Value::Group(_) => 4,
        }
    }

    fn is_string(place: u32) -> bool {
        place == 0 || place == 1
    }

    fn attributes() -> u32 {
        2
    }

    fn unknown() -> u32 {
        4
    }

    fn is_laid_out() {}
}

impl Placed for Event {
    ghost Data = { EventData };

    ghost layout = { event_layout };

    fn place(field: Field<'_>) -> u32 {
        match field.value {
            Value::Eight(_) => match field.number {
                1 => 0,
                _ => 4,
            },
            Value::Bytes(_) => match field.number {
                2 => 1,
                3 => 2,
                _ => 4,
            },
            Value::Varint(_) => match field.number {
                4 => 3,
                _ => 4,
            },
            Value::Four(_) | Value::Group(_) => 4,
        }
    }

    fn is_string(place: u32) -> bool {
        place == 1
    }

    fn attributes() -> u32 {
        2
    }

    fn unknown() -> u32 {
        4
    }

    fn is_laid_out() {}
}

impl Placed for Link {
    ghost Data = { LinkData };

    ghost layout = { link_layout };

    fn place(field: Field<'_>) -> u32 {
        match field.value {
            Value::Bytes(_) => match field.number {
                1 => 0,
                2 => 1,
                3 => 2,
                4 => 3,
                _ => 6,
            },
            Value::Varint(_) => match field.number {
                5 => 4,
                _ => 6,
            },
            Value::Four(_) => match field.number {
                6 => 5,
                _ => 6,
            },
            Value::Eight(_) | Value::Group(_) => 6,
        }
    }

    fn is_string(place: u32) -> bool {
        place == 2
    }

    fn attributes() -> u32 {
        3
    }

    fn unknown() -> u32 {
        6
    }

    fn is_laid_out() {}
}
