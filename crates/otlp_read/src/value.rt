//! Attribute values, which may hold others. What takes one field is inlined, as for spans.

ghost use Rattle.std.specs.Prelude.{◌≡◌, ◌≤◌, ◌++◌, ◌∷◌, ℕ, List, [], IfOk};
ghost use Rattle.pb_wire.specs.Grammar.{entry, Bytes};
ghost use Rattle.otlp_trace.specs.Data.{KeyValueData};
ghost use Rattle.otlp_trace.specs.View.{any_view, kind_view, array_view, list_view, key_value_view};
ghost use Rattle.otlp_read.specs.AnyValue.{no_value, no_array, no_list, no_key_value, array_in, list_in, any_step_in, array_step_in, list_step_in, key_value_step, read_any, read_array, read_list, read_key_value};
ghost use Rattle.otlp_read.specs.Fault.{Gives};
ghost use Rattle.otlp_read.specs.Inside.{ReadsByFields};
ghost use Rattle.otlp_read.specs.Walk.{read_with, numbered};

use crate::fault::ReadFault;
use crate::leaf::{keep, string};
use crate::message::Message;
use otlp_trace::{AnyValue, AnyValueKind, ArrayValue, DoubleBits, KeyValue, KeyValueList, Octets};
use pb_wire::{Field, Value, next_field};
use std::alloc::{AllocError, Global};

fn empty_value(alloc: Global) -> AnyValue
    ensures { any_view result ≡ no_value }
{
    AnyValue {
        kind: AnyValueKind::Unset,
        unknown: Octets::new(alloc),
    }
}

fn empty_array(alloc: Global) -> ArrayValue
    ensures { array_view result ≡ no_array }
{
    ArrayValue {
        values: Vec::new(alloc),
        unknown: Octets::new(alloc),
    }
}

fn empty_list(alloc: Global) -> KeyValueList
    ensures { list_view result ≡ no_list }
{
    KeyValueList {
        values: Vec::new(alloc),
        unknown: Octets::new(alloc),
    }
}

/// The values, and one behind them. The first takes the room of one: lists in one another would hold room for four
/// each.
fn with_one<T: Drop>(values: Vec<T>, value: T) -> Result<Vec<T>, AllocError>
    ensures { IfOk result (λ more. more.items ≡ values.items ++ value ∷ []) }
{
    let mut more = values;
    if more.is_empty() {
        more.reserve_exact(1)?;
    }
    more.push(value)?;
    Ok(more)
}

/// The array that is chosen, or one of no values.
fn chosen_array(alloc: Global, kind: AnyValueKind) -> ArrayValue
    ensures { array_view result ≡ array_in (kind_view kind) }
{
    match kind {
        AnyValueKind::Array(array) => array,
        _ => empty_array(alloc),
    }
}

/// The list that is chosen, or one of no keys.
fn chosen_list(alloc: Global, kind: AnyValueKind) -> KeyValueList
    ensures { list_view result ≡ list_in (kind_view kind) }
{
    match kind {
        AnyValueKind::KeyValueList(list) => list,
        _ => empty_list(alloc),
    }
}

fn empty_key_value(alloc: Global) -> KeyValue
    ensures { key_value_view result ≡ no_key_value }
{
    KeyValue {
        key: String::new(alloc),
        value: None,
        unknown: Octets::new(alloc),
    }
}

/// Goes on reading a value, with room for so many levels, its own among them.
#[cycle(any)]
fn any_value(
    alloc: Global,
    before: AnyValue,
    bytes: &[u8],
    room: u32,
) -> Result<AnyValue, ReadFault>
    requires room { room ≤ 101 }
    ensures exact { Gives any_view result (read_any room (any_view before) bytes.now) }
{
    if room == 0 {
        return Err(ReadFault::TooDeep);
    }
    let mut value = before;
    let mut left = bytes;
    'fields: while let Some((field, rest)) = next_field(left, 101 - room)? {
        let spelled = &left[..left.len() - rest.len()];
        value = any_field(alloc, value, field, spelled, room - 1)?;
        left = rest;
    }
    Ok(value)
}

/// The value after one more field. Messages in the field have room for so many levels.
#[cycle(any)]
#[inline(always)]
fn any_field(
    alloc: Global,
    before: AnyValue,
    field: Field<'_>,
    spelled: &[u8],
    room: u32,
) -> Result<AnyValue, ReadFault>
    requires room { room ≤ 100 }
    ensures exact { Gives any_view result
        (any_step_in room (any_view before) (entry field.entry) spelled.now) }
{
    if let Value::Bytes(bytes) = field.value {
        return any_bytes(alloc, before, field.number, bytes, spelled, room);
    }
    let AnyValue { kind, unknown } = before;
    let kind = match (field.number, field.value) {
        (2, Value::Varint(n)) => AnyValueKind::Bool(n != 0),
        (3, Value::Varint(n)) => AnyValueKind::Int(n.cast_signed()),
        (4, Value::Eight(bits)) => AnyValueKind::Double(DoubleBits(bits)),
        _ => {
            let unknown = keep(unknown, spelled)?;
            return Ok(AnyValue { kind, unknown });
        }
    };
    Ok(AnyValue { kind, unknown })
}

/// The value after one more field that holds these bytes.
#[cycle(any)]
#[inline(always)]
fn any_bytes(
    alloc: Global,
    before: AnyValue,
    number: u32,
    bytes: &[u8],
    spelled: &[u8],
    room: u32,
) -> Result<AnyValue, ReadFault>
    requires room { room ≤ 100 }
    ensures exact { Gives any_view result
        (any_step_in room (any_view before) (numbered number (Bytes bytes.now)) spelled.now) }
{
    let AnyValue { kind, unknown } = before;
    let kind = match number {
        1 => AnyValueKind::String(string(alloc, bytes)?),
        5 => {
            let start = chosen_array(alloc, kind);
            AnyValueKind::Array(array_value(alloc, start, bytes, room)?)
        }
        6 => {
            let start = chosen_list(alloc, kind);
            AnyValueKind::KeyValueList(key_value_list(alloc, start, bytes, room)?)
        }
        7 => AnyValueKind::Bytes(Octets::from_slice(alloc, bytes)?),
        _ => {
            let unknown = keep(unknown, spelled)?;
            return Ok(AnyValue { kind, unknown });
        }
    };
    Ok(AnyValue { kind, unknown })
}

/// Goes on reading an array, with room for so many levels, its own among them.
#[cycle(any)]
fn array_value(
    alloc: Global,
    before: ArrayValue,
    bytes: &[u8],
    room: u32,
) -> Result<ArrayValue, ReadFault>
    requires room { room ≤ 101 }
    ensures exact { Gives array_view result (read_array room (array_view before) bytes.now) }
{
    if room == 0 {
        return Err(ReadFault::TooDeep);
    }
    let mut value = before;
    let mut left = bytes;
    'fields: while let Some((field, rest)) = next_field(left, 101 - room)? {
        let spelled = &left[..left.len() - rest.len()];
        value = array_field(alloc, value, field, spelled, room - 1)?;
        left = rest;
    }
    Ok(value)
}

/// The array after one more field. Messages in the field have room for so many levels.
#[cycle(any)]
fn array_field(
    alloc: Global,
    before: ArrayValue,
    field: Field<'_>,
    spelled: &[u8],
    room: u32,
) -> Result<ArrayValue, ReadFault>
    requires room { room ≤ 100 }
    ensures exact { Gives array_view result
        (array_step_in room (array_view before) (entry field.entry) spelled.now) }
{
    let ArrayValue { values, unknown } = before;
    if let Value::Bytes(bytes) = field.value {
        if field.number == 1 {
            let value = any_value(alloc, empty_value(alloc), bytes, room)?;
            let values = with_one(values, value)?;
            return Ok(ArrayValue { values, unknown });
        }
    }
    let unknown = keep(unknown, spelled)?;
    Ok(ArrayValue { values, unknown })
}

/// Goes on reading a list of keys with values, with room for so many levels, its own among them.
#[cycle(any)]
fn key_value_list(
    alloc: Global,
    before: KeyValueList,
    bytes: &[u8],
    room: u32,
) -> Result<KeyValueList, ReadFault>
    requires room { room ≤ 101 }
    ensures exact { Gives list_view result (read_list room (list_view before) bytes.now) }
{
    if room == 0 {
        return Err(ReadFault::TooDeep);
    }
    let mut value = before;
    let mut left = bytes;
    'fields: while let Some((field, rest)) = next_field(left, 101 - room)? {
        let spelled = &left[..left.len() - rest.len()];
        value = list_field(alloc, value, field, spelled, room - 1)?;
        left = rest;
    }
    Ok(value)
}

/// The list after one more field. Messages in the field have room for so many levels.
#[cycle(any)]
fn list_field(
    alloc: Global,
    before: KeyValueList,
    field: Field<'_>,
    spelled: &[u8],
    room: u32,
) -> Result<KeyValueList, ReadFault>
    requires room { room ≤ 100 }
    ensures exact { Gives list_view result
        (list_step_in room (list_view before) (entry field.entry) spelled.now) }
{
    let KeyValueList { values, unknown } = before;
    if let Value::Bytes(bytes) = field.value {
        if field.number == 1 {
            let key_value = key_value(alloc, empty_key_value(alloc), bytes, room)?;
            let values = with_one(values, key_value)?;
            return Ok(KeyValueList { values, unknown });
        }
    }
    let unknown = keep(unknown, spelled)?;
    Ok(KeyValueList { values, unknown })
}

/// Goes on reading a key with its value, with room for so many levels, its own among them.
#[cycle(any)]
fn key_value(
    alloc: Global,
    before: KeyValue,
    bytes: &[u8],
    room: u32,
) -> Result<KeyValue, ReadFault>
    requires room { room ≤ 101 }
    ensures exact { Gives key_value_view result
        (read_key_value room (key_value_view before) bytes.now) }
{
    if room == 0 {
        return Err(ReadFault::TooDeep);
    }
    let mut value = before;
    let mut left = bytes;
    'fields: while let Some((field, rest)) = next_field(left, 101 - room)? {
        let spelled = &left[..left.len() - rest.len()];
        value = key_value_field(alloc, value, field, spelled, room - 1)?;
        left = rest;
    }
    Ok(value)
}

/// The key with its value after one more field. Messages in the field have room for so many levels.
#[cycle(any)]
#[inline(always)]
fn key_value_field(
    alloc: Global,
    before: KeyValue,
    field: Field<'_>,
    spelled: &[u8],
    room: u32,
) -> Result<KeyValue, ReadFault>
    requires room { room ≤ 100 }
    ensures exact { Gives key_value_view result
        (key_value_step room (key_value_view before) (entry field.entry) spelled.now) }
{
    match (field.number, field.value) {
        (1, Value::Bytes(bytes)) => {
            let key = string(alloc, bytes)?;
            Ok(KeyValue { key, ..before })
        }
        (2, Value::Bytes(bytes)) => {
            let old = before.value;
            let start = match old {
                Some(value) => value,
                None => empty_value(alloc),
            };
            let value = Some(any_value(alloc, start, bytes, room)?);
            Ok(KeyValue { value, ..before })
        }
        _ => {
            let unknown = keep(before.unknown, spelled)?;
            Ok(KeyValue { unknown, ..before })
        }
    }
}

impl Message for KeyValue {
    ghost Data = { KeyValueData };

    ghost view = { key_value_view };

    ghost empty = { no_key_value };

    ghost step = { key_value_step };

    fn empty(alloc: Global) -> KeyValue {
        empty_key_value(alloc)
    }

    fn field(
        self,
        alloc: Global,
        field: Field<'_>,
        spelled: &[u8],
        room: u32,
    ) -> Result<KeyValue, ReadFault> {
        key_value_field(alloc, self, field, spelled, room)
    }
}

/// What is inside an attribute has its values and faults by the same rules as a body: an attribute's value, the arrays
/// and the lists in it, and their keys with values. A message's attribute is read as any message is.
pub fn attribute_values_inside()
    ensures value { ReadsByFields any_step_in read_any }
    ensures array { ReadsByFields array_step_in read_array }
    ensures list { ReadsByFields list_step_in read_list }
    ensures key_value { ReadsByFields key_value_step read_key_value }
    ensures attribute { (room : ℕ) (p : KeyValueData) (bytes : List ℕ) →
        read_with key_value_step room p bytes ≡ read_key_value room p bytes }
{}
