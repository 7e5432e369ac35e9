//! The attributes of a span and its resource.

ghost use Rattle.std.specs.Prelude.{◌≡◌, map, string_bytes};
ghost use Rattle.std.specs.List.{list_any};
ghost use Rattle.span_view.specs.Shown.{value_shown};
ghost use Rattle.tail_policy.specs.Meaning.{is_one_of, is_within, has_attribute};
ghost use Rattle.tail_policy.specs.AttributeTest.{is_wanted};

use span_view::{SpanRef, ValueRef};

/// What an attribute's value has to be.
#[derive(Clone, Copy)]
pub enum AttributeTest<'a> {
    /// One of these texts, byte for byte.
    OneOf(&'a [String]),
    /// A whole number from the first to the second, both included.
    Within(i64, i64),
}

/// Whether a value is one of these texts, byte for byte.
fn is_one_of(texts: &[String], value: ValueRef<'_>) -> bool
    ensures { result ≡ is_one_of (map string_bytes texts.now) (value_shown value.entry) }
{
    match value {
        ValueRef::String(text) => texts.iter().any(|other| text == other.as_str()),
        _ => false,
    }
}

/// Whether a value is a whole number from `low` to `high`, both included.
fn is_within(low: i64, high: i64, value: ValueRef<'_>) -> bool
    ensures { result ≡ is_within low high (value_shown value.entry) }
{
    match value {
        ValueRef::Int(number) => low <= number && number <= high,
        _ => false,
    }
}

/// Whether a value is such a one.
pub fn is_wanted(wanted: AttributeTest<'_>, value: ValueRef<'_>) -> bool
    ensures { result ≡ is_wanted wanted.entry (value_shown value.entry) }
{
    match wanted {
        AttributeTest::OneOf(texts) => is_one_of(texts, value),
        AttributeTest::Within(low, high) => is_within(low, high, value),
    }
}

/// Whether an attribute of this key has such a value.
fn has_attribute(key: &str, wanted: AttributeTest<'_>, span: &SpanRef<'_>) -> bool
    ensures { result ≡ has_attribute key.now (is_wanted wanted.entry) span.now }
{
    span.attributes()
        .any(|(name, value)| name == key && is_wanted(wanted, value))
}

/// Whether one of the spans, or its resource, has an attribute of this key with such a value.
pub fn any_has_attribute(key: &str, wanted: AttributeTest<'_>, spans: &[SpanRef<'_>]) -> bool
    ensures { result ≡ list_any (has_attribute key.now (is_wanted wanted.entry)) spans.now }
{
    spans.iter().any(|span| has_attribute(key, wanted, span))
}
