//! Whether a span and its resource can be viewed.

ghost use Rattle.std.specs.Prelude.{◌↔◌, IsTrue};
ghost use Rattle.std.specs.Str.{IsUtf8};
ghost use Rattle.span_view.specs.Facts.{IsValueText, IsAttributeText, AreText};
ghost use Rattle.span_view.specs.Reading.{value_in, attribute_in, attributes_in, facts_of};

use crate::fields::{bytes, first_field};
use crate::value::next_attribute;
use pb_wire::{Field, Value};
use std::str;

fn is_utf8(bytes: &[u8]) -> bool
    ensures { IsTrue result ↔ IsUtf8 bytes.now }
{
    match str::from_utf8(bytes) {
        Ok(_) => true,
        Err(_) => false,
    }
}

/// Whether a value is UTF-8 where it is a string.
fn is_value_text(text: &[u8]) -> bool
    ensures { IsTrue result ↔ IsValueText (value_in text.now) }
{
    match first_field(text) {
        Some(
            (
                Field {
                    number: 1,
                    value: Value::Bytes(string),
                },
                _,
            ),
        ) => is_utf8(string),
        _ => true,
    }
}

/// Whether an attribute's key, and its value where that is a string, are UTF-8.
fn is_attribute_text(text: &[u8]) -> bool
    ensures { IsTrue result ↔ IsAttributeText (attribute_in text.now) }
{
    if !is_utf8(bytes(text, 1)) {
        return false;
    }
    is_value_text(bytes(text, 2))
}

/// The same of all attributes in the fields of this number.
fn are_text(text: &[u8], number: u32) -> bool
    ensures { IsTrue result ↔ AreText (attributes_in number text.now) }
{
    let mut left = text;
    'attributes: while let Some((attribute, rest)) = next_attribute(left, number) {
        if !is_attribute_text(attribute) {
            return false;
        }
        left = rest;
    }
    true
}

/// Whether each attribute's key, and its value where that is a string, are UTF-8, which is what a view asks of the
/// texts of a span and of its resource. Canonical texts needn't be tested.
pub fn is_text(span: &[u8], resource: &[u8]) -> bool
    ensures { IsTrue result ↔ AreText (facts_of span.now resource.now).attributes }
{
    if !are_text(span, 9) {
        return false;
    }
    are_text(resource, 1)
}
