//! Messages inside a span that are copied without the defaults that are written in them, with lengths as short as they
//! can be, and an event's name behind its time.

ghost use Rattle.std.specs.Prelude.{◌≡◌, ◌==◌, ◌<◌, ℕ, Bool, true, false, IfOk, IfSome};
ghost use Rattle.pb_wire.specs.Grammar.{Entry, entry};
ghost use Rattle.otlp_trace.specs.Data.{StatusData, EventData, LinkData};
ghost use Rattle.otlp_trace.specs.Defaults.{no_status, no_event, no_link};
ghost use Rattle.otlp_read.specs.Value.{status_step, event_step, link_step};
ghost use Rattle.otlp_read.specs.Walk.{Step};
ghost use Rattle.otlp_canonical.specs.Attribute.{AttributeLaws};
ghost use Rattle.otlp_canonical.specs.Inner.{status_default, event_default, link_default, StatusDefaults, EventDefaults, LinkDefaults, DefaultLaws, ReadAlike, FieldAlike, PutFor, TurnedFields};

use crate::attribute::{attribute_size, field_size, put_attribute};
use otlp_trace::{Event, Link, Status};
use pb_wire::{Field, Value, WireType, next_field, put_tag, put_varint};
use std::alloc::AllocError;

/// Two fields that begin a message, and what stands behind them.
#[derive(Clone, Copy)]
pub struct Turned<'a> {
    /// As it stands first.
    pub first: &'a [u8],

    /// As it stands behind the first.
    pub second: &'a [u8],

    /// What stands behind both.
    pub rest: &'a [u8],
}

/// A message inside a span, in which defaults may be written.
pub trait Inner {
    ghost Data: { Type 0 };

    ghost step: { ℕ → Step Data };

    ghost none: { Data };

    ghost default: { Entry → Bool };

    /// Whichever field of one value has a number above this one is at its default.
    ghost Above: { ℕ → Data → Type 0 };

    ghost attribute: { ℕ → Bool };

    /// Whether a field of one value holds its default.
    fn is_default(field: Field<'_>) -> bool
        ensures { result ≡ default (entry field.entry) };

    /// Whether the field of this number holds attributes.
    fn is_attribute(number: u32) -> bool
        ensures { result ≡ attribute number };

    /// Its first two fields, which stand the other way round in canonical order, and what stands behind them; none
    /// where that isn't known of them.
    fn turned(text: &[u8], depth: u32) -> Option<Turned<'_>>
        ensures { IfSome result (λ turned.
            TurnedFields step none depth text.now turned.first.now turned.second.now
            turned.rest.now) };

    /// A default behind fields of smaller numbers changes nothing.
    fn defaults_change_nothing()
        ensures { DefaultLaws step none default Above };

    /// An attribute may be spelled as any that is read as the same.
    fn attributes_are_read()
        ensures { AttributeLaws step attribute };
}

/// How many bytes of the field, which takes so many, need not be there: all where it is a default that is written out,
/// and those that the lengths of an attribute need not have. In an attribute whose own length is as short as it can be
/// none is looked for.
#[inline(always)]
fn spare_in<M: Inner>(field: Field<'_>, size: usize, room: u32) -> usize {
    if M::is_default(field) {
        return size;
    }
    let Value::Bytes(text) = field.value else {
        return 0;
    };
    if !M::is_attribute(field.number) || size <= field_size(text.len()) {
        return 0;
    }
    size.saturating_sub(field_size(attribute_size(text, room)))
}

/// How many bytes of the message need not be there: defaults that are written out, and those that the lengths of
/// attributes need not have.
#[inline(always)]
pub fn spare_size<M: Inner>(text: &[u8], room: u32) -> usize {
    let depth = 101u32.saturating_sub(room);
    let mut spare = 0usize;
    let mut left = text;
    'fields: while let Ok(Some((field, rest))) = next_field(left, depth) {
        let size = left.len() - rest.len();
        spare = spare.saturating_add(spare_in::<M>(field, size, room.saturating_sub(1)));
        left = rest;
    }
    spare
}

/// Appends what a field is without its default, or its attribute with short lengths, behind fields of numbers up to
/// `most`. Tells whether it did: a default may take back what came before it.
#[inline(always)]
fn put_field<M: Inner>(
    copy: &mut Vec<u8>,
    field: Field<'_>,
    most: u32,
    room: u32,
) -> Result<bool, AllocError>
    ensures { (d : ℕ) → IfOk result (λ whole. whole ≡ true
        → PutFor M.step M.Above room d most (entry field.entry) copy.old.items copy.new.items) }
{
    M::defaults_change_nothing();
    M::attributes_are_read();
    if M::is_default(field) {
        return Ok(most < field.number);
    }
    let Value::Bytes(text) = field.value else {
        return Ok(false);
    };
    if !M::is_attribute(field.number) {
        return Ok(false);
    }
    let whole = put_attribute(copy, field.number, text, room)?;
    Ok(whole)
}

/// Appends the message without what need not be there, and its first two fields as `turned` has them. Tells whether it
/// did: it doesn't where a default stands behind a field of its own number or a greater one, and may take back what
/// came before.
#[inline(always)]
fn put_bare<M: Inner>(copy: &mut Vec<u8>, text: &[u8], room: u32) -> Result<bool, AllocError>
    ensures { IfOk result (λ whole. whole ≡ true
        → ReadAlike M.step M.none room text.now copy.old.items copy.new.items) }
{
    if room == 0 {
        return Ok(false);
    }
    M::defaults_change_nothing();
    let depth = 101u32.saturating_sub(room);
    // What isn't copied yet begins here.
    let mut from = text;
    let mut most = 0u32;
    if let Some(turned) = M::turned(text, depth) {
        copy.extend_from_slice(turned.second)?;
        copy.extend_from_slice(turned.first)?;
        from = turned.rest;
        most = 2;
    }
    let mut left = from;
    'fields: while let Ok(Some((field, rest))) = next_field(left, depth) {
        if spare_in::<M>(field, left.len() - rest.len(), room - 1) == 0 {
            most = most.max(field.number);
            left = rest;
            continue;
        }
        copy.extend_from_slice(&from[..from.len() - left.len()])?;
        if !put_field::<M>(copy, field, most, room - 1)? {
            return Ok(false);
        }
        most = most.max(field.number);
        from = rest;
        left = rest;
    }
    copy.extend_from_slice(from)?;
    Ok(true)
}

/// Appends a field of this number with the message, without so many bytes that need not be there. Tells whether it did.
#[inline(always)]
pub fn put_message<M: Inner>(
    copy: &mut Vec<u8>,
    number: u32,
    text: &[u8],
    spare: usize,
    room: u32,
) -> Result<bool, AllocError>
    requires some { 0 < number }
    requires fits { number < 16 }
    ensures { IfOk result (λ whole. whole ≡ true
        → FieldAlike M.step M.none room number text.now copy.old.items copy.new.items) }
{
    let size = text.len().saturating_sub(spare);
    put_tag(copy, number, WireType::Bytes)?;
    put_varint(copy, size as u64)?;
    let start = copy.len();
    if !put_bare::<M>(copy, text, room)? {
        return Ok(false);
    }
    Ok(copy.len().saturating_sub(start) == size)
}

impl Inner for Status {
    ghost Data = { StatusData };

    ghost step = { status_step };

    ghost none = { no_status };

    ghost default = { status_default };

    ghost Above = { StatusDefaults };

    ghost attribute = { λ n. false };

    fn is_default(field: Field<'_>) -> bool {
        match field.value {
            Value::Bytes(bytes) => field.number == 2 && bytes.is_empty(),
            Value::Varint(number) => field.number == 3 && number == 0,
            Value::Eight(_) | Value::Four(_) | Value::Group(_) => false,
        }
    }

    fn turned(_text: &[u8], _depth: u32) -> Option<Turned<'_>> {
        None
    }

    fn is_attribute(_number: u32) -> bool {
        false
    }

    fn defaults_change_nothing() {}

    fn attributes_are_read() {}
}

impl Inner for Event {
    ghost Data = { EventData };

    ghost step = { event_step };

    ghost none = { no_event };

    ghost default = { event_default };

    ghost Above = { EventDefaults };

    ghost attribute = { λ n. n == 3 };

    fn is_default(field: Field<'_>) -> bool {
        match field.value {
            Value::Eight(bytes) => field.number == 1 && u64::from_le_bytes(bytes) == 0,
            Value::Bytes(bytes) => field.number == 2 && bytes.is_empty(),
            Value::Varint(number) => field.number == 4 && number == 0,
            Value::Four(_) | Value::Group(_) => false,
        }
    }

    #[inline(always)]
    fn turned(text: &[u8], depth: u32) -> Option<Turned<'_>> {
        let Ok(Some((name, behind))) = next_field(text, depth) else {
            return None;
        };
        let Value::Bytes(_name) = name.value else {
            return None;
        };
        let Ok(Some((time, rest))) = next_field(behind, depth) else {
            return None;
        };
        let Value::Eight(_time) = time.value else {
            return None;
        };
        if name.number != 2 || time.number != 1 {
            return None;
        }
        Some(Turned {
            first: &text[..text.len() - behind.len()],
            second: &behind[..behind.len() - rest.len()],
            rest,
        })
    }

    fn is_attribute(number: u32) -> bool {
        number == 3
    }

    fn defaults_change_nothing() {}

    fn attributes_are_read() {}
}

impl Inner for Link {
    ghost Data = { LinkData };

    ghost step = { link_step };

    ghost none = { no_link };

    ghost default = { link_default };

    ghost Above = { LinkDefaults };

    ghost attribute = { λ n. n == 4 };

    fn is_default(field: Field<'_>) -> bool {
        match field.value {
            Value::Bytes(bytes) => matches!(field.number, 1..=3) && bytes.is_empty(),
            Value::Varint(number) => field.number == 5 && number == 0,
            Value::Four(bytes) => field.number == 6 && u32::from_le_bytes(bytes) == 0,
            Value::Eight(_) | Value::Group(_) => false,
        }
    }

    fn turned(_text: &[u8], _depth: u32) -> Option<Turned<'_>> {
        None
    }

    fn is_attribute(number: u32) -> bool {
        number == 4
    }

    fn defaults_change_nothing() {}

    fn attributes_are_read() {}
}
