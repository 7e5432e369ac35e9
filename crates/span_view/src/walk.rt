//! What a span and its resource tell policies, in one walk.

ghost use Rattle.std.specs.Prelude.{◌≡◌, ◌≤◌, [], length, option_map, Some, IfSome};
ghost use Rattle.pb_wire.specs.Grammar.{datum};
ghost use Rattle.span_view.specs.Facts.{AreText};
ghost use Rattle.span_view.specs.Fields.{told_by, told, told_and, told_of, attributes_told, field_shown, found_told};
ghost use Rattle.span_view.specs.Reading.{fields_of, facts_of};
ghost use Rattle.span_view.specs.Short.{may_tell};

use crate::attribute::AttributeRef;
use crate::fields::{first_field, leading_eight, past_front, short_bytes, short_field};
use crate::status::code_of;
use crate::value::next_attribute;
use pb_wire::{Field, Value};
use std::marker::Model;

/// What one field tells.
#[derive(Drop)]
pub enum SpanField<'a> {
    /// The span's start, in nanoseconds since 1970.
    Start(u64),
    /// The span's end, in nanoseconds since 1970.
    End(u64),
    /// The code of the span's status.
    Status(i32),
    /// An attribute of the span or of its resource.
    Attribute(AttributeRef<'a>),
}

/// What the fields that are still to come tell.
#[derive(Drop)]
pub struct SpanFields<'a> {
    span: &'a [u8],
    resource: &'a [u8],
}

impl<'a> Model for SpanFields<'a> {
    ghost use Rattle.std.specs.Prelude.{List};
    ghost use Rattle.span_view.specs.Facts.{AreText};
    ghost use Rattle.span_view.specs.Fields.{FieldFact, told_of, attributes_told};

    ghost Value = { List FieldFact };

    ghost view = { λ f. told_of f.span.now f.resource.now };

    ghost invariant = { λ f. AreText (attributes_told (told_of f.span.now f.resource.now)) };
}

/// What a field of a span tells, if anything.
#[inline(always)]
fn told_by(field: Field<'_>) -> Option<SpanField<'_>>
    requires text { AreText (attributes_told
        (told_and (told_by field.number (datum field.value)) [])) }
    ensures { option_map field_shown result ≡ told_by field.entry.number (datum field.entry.value) }
{
    match (field.number, field.value) {
        (7, Value::Eight(bytes)) => Some(SpanField::Start(u64::from_le_bytes(bytes))),
        (8, Value::Eight(bytes)) => Some(SpanField::End(u64::from_le_bytes(bytes))),
        (9, Value::Bytes(text)) => Some(SpanField::Attribute(AttributeRef::of(text))),
        (15, Value::Bytes(text)) => Some(SpanField::Status(code_of(text))),
        _ => None,
    }
}

/// Whether a field of this number may tell something.
#[inline(always)]
fn may_tell(number: u32) -> bool
    ensures { result ≡ may_tell number }
{
    number == 7 || number == 8 || number == 9 || number == 15
}

/// The text behind the fields at its front that are passed over at once, none of which tells anything.
#[inline(always)]
fn past_silent(text: &[u8]) -> &[u8]
    ensures same { told (fields_of text.now) ≡ told (fields_of result.now) }
    ensures within { length result.now ≤ length text.now }
{
    let mut left = text;
    'fields: while let Some((number, rest)) = short_field(left) {
        if may_tell(number) {
            return left;
        }
        left = rest;
    }
    left
}

/// The time that the first field of a span's text tells and the text behind it, where the field's tag has one byte. Of
/// other fields it says nothing.
#[tactic(auto, using(crate::proofs::Short::start_told, crate::proofs::Short::end_told))]
#[inline(always)]
fn leading_time(text: &[u8]) -> Option<(SpanField<'_>, &[u8])>
    ensures { IfSome result (λ found. told (fields_of text.now) ≡ found_told (Some found)) }
{
    if let Some((time, rest)) = leading_eight(text, 7) {
        return Some((SpanField::Start(time), rest));
    }
    if let Some((time, rest)) = leading_eight(text, 8) {
        return Some((SpanField::End(time), rest));
    }
    None
}

/// What the first field of a span's text that tells something tells and the text behind it, by a search.
fn searched(text: &[u8]) -> Option<(SpanField<'_>, &[u8])>
    requires text { AreText (attributes_told (told (fields_of text.now))) }
    ensures { told (fields_of text.now) ≡ found_told result }
{
    let mut left = text;
    'fields: while let Some((field, rest)) = first_field(left) {
        if let Some(told) = told_by(field) {
            return Some((told, rest));
        }
        left = rest;
    }
    None
}

/// The same, at once where the field is an attribute or a time and those before it are short.
#[inline(always)]
fn next_told(text: &[u8]) -> Option<(SpanField<'_>, &[u8])>
    requires text { AreText (attributes_told (told (fields_of text.now))) }
    ensures { told (fields_of text.now) ≡ found_told result }
{
    if let Some((attribute, rest)) = short_bytes(text, 9) {
        return Some((SpanField::Attribute(AttributeRef::of(attribute)), rest));
    }
    let front = past_silent(text);
    if front.is_empty() {
        return None;
    }
    if let Some(time) = leading_time(front) {
        return Some(time);
    }
    searched(front)
}

impl<'a> SpanFields<'a> {
    /// Of these texts, a span's and its resource's.
    #[inline(always)]
    pub fn of(span: &'a [u8], resource: &'a [u8]) -> SpanFields<'a>
        requires text { AreText (facts_of span.now resource.now).attributes }
        ensures { result ≡ told_of span.now resource.now }
    {
        SpanFields {
            span: past_front(span),
            resource,
        }
    }
}

impl<'a> Iterator for SpanFields<'a> {
    type Item = SpanField<'a>;

    ghost use Rattle.std.specs.Iterator.{YieldsFirstBy, item_count};
    ghost use Rattle.span_view.specs.Fields.{field_shown};

    ghost next_gives = { YieldsFirstBy field_shown (λ left. left) };

    ghost remaining = { item_count (λ left. left) };

    #[inline(always)]
    fn next(&mut self) -> Option<SpanField<'a>> {
        if let Some((told, rest)) = next_told(self.span) {
            self.span = rest;
            return Some(told);
        }
        self.span = &[];
        if let Some((text, rest)) = next_attribute(self.resource, 1) {
            self.resource = rest;
            return Some(SpanField::Attribute(AttributeRef::of(text)));
        }
        self.resource = &[];
        None
    }
}
