//! Attributes, borrowed from the texts that have them.

ghost use Rattle.std.specs.Prelude.{◌≡◌, ◌<◌, length, IfSome};
ghost use Rattle.span_view.specs.Facts.{IsValueText, IsAttributeText};
ghost use Rattle.span_view.specs.Reading.{member, value_in, attribute_in, attributes_in, found_attributes};
ghost use Rattle.span_view.specs.Shown.{value_shown, attribute_shown};
ghost use Rattle.pb_wire.specs.Grammar.{datum};

use crate::fields::{bytes, find, first_field};
use otlp_trace::DoubleBits;
use pb_wire::{Field, Value, WireType};
use std::str;

/// The kind of an attribute's value, and what it holds where it holds no further values.
#[derive(Clone, Copy, Debug, PartialEq, Eq)]
pub enum ValueRef<'a> {
    /// No member is chosen, or the key has no value.
    Unset,
    String(&'a str),
    Bool(bool),
    Int(i64),
    /// A double's eight bytes, least first.
    Double(DoubleBits),
    Array,
    KeyValueList,
    Bytes(&'a [u8]),
}

/// The value that a field says.
fn member_of(field: Field<'_>) -> ValueRef<'_>
    requires text { IsValueText (member field.number (datum field.value)) }
    ensures { value_shown result ≡ member field.entry.number (datum field.entry.value) }
{
    match (field.number, field.value) {
        (1, Value::Bytes(bytes)) => ValueRef::String(unsafe { str::from_utf8_unchecked(bytes) }),
        (2, Value::Varint(number)) => ValueRef::Bool(number != 0),
        (3, Value::Varint(number)) => ValueRef::Int(number.cast_signed()),
        (4, Value::Eight(bits)) => ValueRef::Double(DoubleBits(bits)),
        (5, Value::Bytes(_)) => ValueRef::Array,
        (6, Value::Bytes(_)) => ValueRef::KeyValueList,
        (7, Value::Bytes(bytes)) => ValueRef::Bytes(bytes),
        _ => ValueRef::Unset,
    }
}

/// The value that a text says with its first field.
pub fn value_of(text: &[u8]) -> ValueRef<'_>
    requires text { IsValueText (value_in text.now) }
    ensures { value_shown result ≡ value_in text.now }
{
    match first_field(text) {
        Some((field, _)) => member_of(field),
        None => ValueRef::Unset,
    }
}

/// The text of the first attribute in the fields of this number, and the text behind it.
pub fn next_attribute(text: &[u8], number: u32) -> Option<(&[u8], &[u8])>
    ensures attributes { attributes_in number text.now ≡ found_attributes number result }
    ensures shorter { IfSome result (λ found. length found.1.now < length text.now) }
{
    if text.is_empty() {
        return None;
    }
    match find(text, number, WireType::Bytes) {
        Some((Value::Bytes(attribute), rest)) => Some((attribute, rest)),
        _ => None,
    }
}

/// The key and the value that a text says.
pub fn attribute_of(text: &[u8]) -> (&str, ValueRef<'_>)
    requires text { IsAttributeText (attribute_in text.now) }
    ensures { attribute_shown result ≡ attribute_in text.now }
{
    let key = unsafe { str::from_utf8_unchecked(bytes(text, 1)) };
    (key, value_of(bytes(text, 2)))
}
