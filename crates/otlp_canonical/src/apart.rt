//! An attribute's text taken apart: its key, its value, and the member of the value that counts, where one does and all
//! else gives way to it.

ghost use Rattle.std.specs.Prelude.{◌≡◌, ◌-◌, ◌<◌, ℕ, true, Some, option_map, IfSome};
ghost use Rattle.pb_wire.specs.Grammar.{entry, IsField};
ghost use Rattle.otlp_canonical.specs.Anew.{merges, number_of, GivesPlace, GivesWay, HasParts, IsPair, IsPutFor, IsValue, LeavesNothing};

use crate::field::{is_utf8, short_field};
use crate::unknown::Keeping;
use crate::value::any;
use otlp_trace::{AnyValue, KeyValue};
use pb_wire::{Field, Value, next_field};

/// Whether a value's field can be read by itself, and leaves nothing to another: a bool, a number, bytes, or a string
/// of UTF-8. An array and a list would: they are merged.
#[inline(always)]
fn is_scalar(field: Field<'_>) -> bool
    ensures { result ≡ true → LeavesNothing (entry field.entry) }
{
    match field.value {
        Value::Varint(_number) if field.number == 2 => true,
        Value::Varint(_number) if field.number == 3 => true,
        Value::Eight(_double) if field.number == 4 => true,
        Value::Bytes(text) if field.number == 1 => is_utf8(text),
        Value::Bytes(_bytes) if field.number == 7 => true,
        _ => false,
    }
}

/// Whether the one value is a member that leaves nothing to another, and the other value begins with one: in one value
/// both are read as the other alone.
#[inline(always)]
fn gives_place(value: &[u8], later: &[u8], depth: u32) -> bool
    ensures { result ≡ true → GivesPlace value.now later.now }
{
    let Ok(Some((member, rest))) = next_field(value, depth) else {
        return false;
    };
    let Ok(Some((next, _others))) = next_field(later, depth) else {
        return false;
    };
    if !rest.is_empty() {
        return false;
    }
    if !is_scalar(member) {
        return false;
    }
    AnyValue::knows(next)
}

/// The key and the value of an attribute.
#[derive(Clone, Copy)]
pub struct Pair<'a> {
    /// The last key that stands in it, empty where there is none.
    pub key: &'a [u8],

    /// Its value, or the one that is read as all of its values; empty where none is.
    pub value: &'a [u8],

    /// A value stands in it.
    pub has_value: bool,

    /// How many bytes its fields take that aren't known.
    pub unknown: usize,
}

/// The key and the value, where the text has one value at most, or several of which the last is read as all of them.
#[inline(always)]
fn split_pair(text: &[u8], depth: u32) -> Option<Pair<'_>>
    ensures { IfSome result (λ pair. IsPair depth text.now pair.key.now pair.value.now
        pair.has_value pair.unknown) }
{
    let mut key = &text[..0];
    let mut value = &text[..0];
    let mut has_value = false;
    let mut unknown = 0usize;
    let mut left = text;
    'fields: while !left.is_empty() {
        let Ok(Some((field, rest))) = next_field(left, depth) else {
            return None;
        };
        if !KeyValue::knows(field) {
            unknown = unknown.saturating_add(left.len() - rest.len());
            left = rest;
            continue;
        }
        let Value::Bytes(bytes) = field.value else {
            return None;
        };
        match field.number {
            1 if is_utf8(bytes) => key = bytes,
            2 if !has_value => {
                value = bytes;
                has_value = true;
            }
            2 if gives_place(value, bytes, depth) => value = bytes,
            _ => return None,
        }
        left = rest;
    }
    Some(Pair {
        key,
        value,
        has_value,
        unknown,
    })
}

/// The key and the value, where the text is a key and a value behind it, with lengths of one byte, as most are.
#[inline(always)]
fn short_pair(text: &[u8]) -> Option<Pair<'_>>
    ensures { (depth : ℕ) → IfSome result (λ pair. IsPair depth text.now pair.key.now pair.value.now
        pair.has_value pair.unknown) }
{
    let (key, behind) = short_field(text, 1)?;
    let (value, end) = short_field(behind, 2)?;
    if !end.is_empty() {
        return None;
    }
    if !is_utf8(key) {
        return None;
    }
    Some(Pair {
        key,
        value,
        has_value: true,
        unknown: 0,
    })
}

/// The key and the value, where the text has one value at most, or one that is read as all. Most are short, and take no
/// walk.
#[inline(always)]
pub fn pair_in(text: &[u8], depth: u32) -> Option<Pair<'_>>
    ensures { IfSome result (λ pair. IsPair depth text.now pair.key.now pair.value.now
        pair.has_value pair.unknown) }
{
    if let Some(pair) = short_pair(text) {
        return Some(pair);
    }
    split_pair(text, depth)
}

/// A value of which one member counts.
#[derive(Clone, Copy)]
pub struct Chosen<'a> {
    /// The member, if the value has one.
    pub member: Option<Field<'a>>,

    /// How many bytes its fields take that aren't known.
    pub unknown: usize,
}

/// Whether it is asked if a value's field gives way to one in the rest: where something stands there, and of an array
/// or a list, which are looked into for that, where a member stands next, as its first byte says. One that stays would
/// be looked into once a level else.
#[inline(always)]
fn may_give_way(field: Field<'_>, rest: &[u8]) -> bool {
    match field.number {
        5 | 6 => matches!(
            rest.first(),
            Some(0x0a | 0x10 | 0x18 | 0x21 | 0x2a | 0x32 | 0x3a)
        ),
        _ => !rest.is_empty(),
    }
}

/// Whether a value's field, so spelled, can be read by itself, and leaves nothing to another in the rest, if one stands
/// there, unless that is merged with it. There is room for so many levels, the value's own among them. An array and a
/// list are looked at as canonical text is.
#[inline(always)]
fn gives_way(field: Field<'_>, spelled: &[u8], rest: &[u8], room: u32) -> bool
    ensures { result ≡ true → IsField (101 - room) spelled.now (entry field.entry)
        → GivesWay (room - 1) (Some (entry field.entry)) }
{
    if !may_give_way(field, rest) {
        return false;
    }
    match field.value {
        Value::Bytes(_values) if field.number == 5 => any(spelled, room).is_some(),
        Value::Bytes(_pairs) if field.number == 6 => any(spelled, room).is_some(),
        _ => is_scalar(field),
    }
}

/// Whether a value's field is merged with the member before it, if there is one: an array with an array, a list with a
/// list.
#[inline(always)]
fn is_merged(member: Option<Field<'_>>, next: Field<'_>) -> bool
    ensures { result ≡ merges (number_of (option_map entry member.entry))
        (entry next.entry).number }
{
    match member {
        Some(field) => {
            field.number == 5 && next.number == 5 || field.number == 6 && next.number == 6
        }
        None => false,
    }
}

/// A value's field as it is written of what is read of it, but for its length: of a bool that isn't 0 it is 1.
#[inline(always)]
fn as_written(field: Field<'_>) -> Field<'_>
    ensures { IsPutFor (entry result) (entry field.entry) }
{
    let Value::Varint(number) = field.value else {
        return field;
    };
    if field.number != 2 || number < 2 {
        return field;
    }
    Field {
        number: 2,
        value: Value::Varint(1),
    }
}

/// The string that is all of the value, with a length of one byte, as most values are.
#[inline(always)]
fn short_string(text: &[u8]) -> Option<Field<'_>>
    ensures { (room d : ℕ) → IfSome result (λ field. IsValue room d text.now
        (Some (entry field)) 0) }
{
    let (string, end) = short_field(text, 1)?;
    if !end.is_empty() {
        return None;
    }
    Some(Field {
        number: 1,
        value: Value::Bytes(string),
    })
}

/// The member of a value that counts, as it is written, if all before it give way. There is room for so many levels,
/// the value's own among them.
#[inline(always)]
pub fn split_value(text: &[u8], room: u32) -> Option<Chosen<'_>>
    ensures { IfSome result (λ chosen. IsValue (room - 1) (101 - room) text.now
        (option_map entry chosen.member) chosen.unknown) }
{
    let depth = 101u32.saturating_sub(room);
    let mut member: Option<Field<'_>> = None;
    let mut gives = true;
    let mut unknown = 0usize;
    let mut left = text;
    'fields: while !left.is_empty() {
        let Ok(Some((field, rest))) = next_field(left, depth) else {
            return None;
        };
        if !AnyValue::knows(field) {
            unknown = unknown.saturating_add(left.len() - rest.len());
            left = rest;
            continue;
        }
        if !gives || is_merged(member, field) {
            return None;
        }
        let spelled = &left[..left.len() - rest.len()];
        gives = gives_way(field, spelled, rest, room);
        member = Some(as_written(field));
        left = rest;
    }
    Some(Chosen { member, unknown })
}

/// The same. Most values are short strings, and take no walk.
#[inline(always)]
fn value_in(text: &[u8], room: u32) -> Option<Chosen<'_>>
    ensures { IfSome result (λ chosen. IsValue (room - 1) (101 - room) text.now
        (option_map entry chosen.member) chosen.unknown) }
{
    if let Some(field) = short_string(text) {
        return Some(Chosen {
            member: Some(field),
            unknown: 0,
        });
    }
    split_value(text, room)
}

/// An attribute with one value at most, or one that is read as all of its values, and the member of that which counts.
#[derive(Clone, Copy)]
pub struct Parts<'a> {
    /// Its key and its value.
    pub pair: Pair<'a>,

    /// The value.
    pub chosen: Chosen<'a>,
}

/// The parts of the attribute, if it has one value at most, or one that is read as all, of whose members one counts.
#[inline(always)]
pub fn parts_of(text: &[u8], room: u32) -> Option<Parts<'_>>
    ensures { IfSome result (λ parts. HasParts room text.now parts) }
{
    if room == 0 {
        return None;
    }
    let depth = 101u32.saturating_sub(room);
    let pair = pair_in(text, depth)?;
    let chosen = value_in(pair.value, room - 1)?;
    Some(Parts { pair, chosen })
}

/// Whether the value begins with an array or a list.
#[inline(always)]
pub fn holds_others(value: &[u8]) -> bool {
    matches!(value.first(), Some(0x2a | 0x32))
}

/// The parts of the attribute that are to be put. No member is looked for in a value that begins with an array or a
/// list: it is looked into as it is put.
#[inline(always)]
pub fn parts_to_put(text: &[u8], room: u32) -> Option<Parts<'_>>
    ensures { IfSome result (λ parts. HasParts room text.now parts) }
{
    if room == 0 {
        return None;
    }
    let depth = 101u32.saturating_sub(room);
    let pair = pair_in(text, depth)?;
    let chosen = if holds_others(pair.value) {
        Chosen {
            member: None,
            unknown: 0,
        }
    } else {
        value_in(pair.value, room - 1)?
    };
    Some(Parts { pair, chosen })
}

/// The parts of the attribute, where nothing else is to be put in them: `put_parts` puts such, whatever they hold.
#[inline(always)]
pub fn plain_parts(text: &[u8], room: u32) -> Option<Parts<'_>>
    ensures { IfSome result (λ parts. HasParts room text.now parts) }
{
    let parts = parts_of(text, room)?;
    match parts.chosen.member {
        Some(field) if matches!(field.number, 5 | 6) => None,
        _ => Some(parts),
    }
}

/// The member that counts, if it is a string, a bool, a number or bytes.
#[inline(always)]
pub fn plain_member(parts: Parts<'_>, room: u32) -> Option<Field<'_>>
    ensures has { IfSome result (λ field. parts.entry.pair.has_value ≡ true) }
    ensures some { IfSome result (λ field. 0 < room) }
    ensures is { IfSome result (λ field. option_map entry parts.entry.chosen.member
        ≡ Some (entry field)) }
{
    if room == 0 || !parts.pair.has_value {
        return None;
    }
    let field = parts.chosen.member?;
    if matches!(field.number, 5 | 6) {
        return None;
    }
    Some(field)
}
