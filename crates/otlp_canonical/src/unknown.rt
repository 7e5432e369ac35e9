//! Fields that a message doesn't know. They are kept as they are spelled, behind those that it knows.

ghost use Rattle.std.specs.Prelude.{◌≡◌, ℕ, is_some, IfSome};
ghost use Rattle.pb_wire.specs.Grammar.{entry};
ghost use Rattle.otlp_trace.specs.Data.{AnyValueData, ArrayValueData, KeyValueListData, KeyValueData, ResourceData, ScopeData, StatusData, EventData, LinkData, SpanData};
ghost use Rattle.otlp_read.specs.Nested.{Kept, known_of_any, known_of_array, known_of_list, known_of_key_value};
ghost use Rattle.otlp_read.specs.Value.{resource_known, scope_known, status_known, event_known, link_known, span_known};
ghost use Rattle.otlp_read.specs.Walk.{Known};

use otlp_trace::{
    AnyValue, ArrayValue, Event, InstrumentationScope, KeyValue, KeyValueList, Link, Resource,
    Span, Status,
};
use pb_wire::{Field, Value, next_field};

/// A message that keeps the fields that it doesn't know.
pub trait Keeping {
    ghost Data: { Type 0 };

    ghost known: { ℕ → Known Data };

    /// Whether the message has a field of this number and wire type.
    fn knows(field: Field<'_>) -> bool
        ensures { (room : ℕ) (a : Data) →
            is_some (known room a (entry field.entry).number (entry field.entry).value) ≡ result };
}

/// Goes over fields of which the message knows none, with room for so many levels inside it.
#[inline(always)]
pub fn unknown<M: Keeping>(text: &[u8], room: u32) -> Option<()>
    ensures { IfSome result (λ u. Kept M.known room text.now) }
{
    // Nearly all messages end here.
    if text.is_empty() {
        return Some(());
    }
    some_unknown::<M>(text, room)
}

/// Goes field by field over a text of which the message may know none.
fn some_unknown<M: Keeping>(text: &[u8], room: u32) -> Option<()>
    ensures { IfSome result (λ u. Kept M.known room text.now) }
{
    let depth = 100u32.saturating_sub(room);
    let mut left = text;
    'fields: while let Ok(Some((field, rest))) = next_field(left, depth) {
        if M::knows(field) {
            return None;
        }
        left = rest;
    }
    if left.is_empty() { Some(()) } else { None }
}

impl Keeping for AnyValue {
    ghost Data = { AnyValueData };

    ghost known = { known_of_any };

    fn knows(field: Field<'_>) -> bool {
        match field.value {
            Value::Varint(_) => matches!(field.number, 2 | 3),
            Value::Eight(_) => field.number == 4,
            Value::Bytes(_) => matches!(field.number, 1 | 5 | 6 | 7),
            Value::Four(_) | Value::Group(_) => false,
        }
    }
}

impl Keeping for ArrayValue {
    ghost Data = { ArrayValueData };

    ghost known = { known_of_array };

    fn knows(field: Field<'_>) -> bool {
        match field.value {
            Value::Bytes(_) => field.number == 1,
            _ => false,
        }
    }
}

impl Keeping for KeyValueList {
    ghost Data = { KeyValueListData };

    ghost known = { known_of_list };

    fn knows(field: Field<'_>) -> bool {
        match field.value {
            Value::Bytes(_) => field.number == 1,
            _ => false,
        }
    }
}

impl Keeping for KeyValue {
    ghost Data = { KeyValueData };

    ghost known = { known_of_key_value };

    fn knows(field: Field<'_>) -> bool {
        match field.value {
            Value::Bytes(_) => matches!(field.number, 1 | 2),
            _ => false,
        }
    }
}

impl Keeping for Resource {
    ghost Data = { ResourceData };

    ghost known = { resource_known };

    fn knows(field: Field<'_>) -> bool {
        match field.value {
            Value::Varint(_) => field.number == 2,
            Value::Bytes(_) => field.number == 1,
            Value::Eight(_) | Value::Four(_) | Value::Group(_) => false,
        }
    }
}

impl Keeping for InstrumentationScope {
    ghost Data = { ScopeData };

    ghost known = { scope_known };

    fn knows(field: Field<'_>) -> bool {
        match field.value {
            Value::Varint(_) => field.number == 4,
            Value::Bytes(_) => matches!(field.number, 1 | 2 | 3),
            Value::Eight(_) | Value::Four(_) | Value::Group(_) => false,
        }
    }
}

impl Keeping for Status {
    ghost Data = { StatusData };

    ghost known = { λ room. status_known };

    fn knows(field: Field<'_>) -> bool {
        match field.value {
            Value::Varint(_) => field.number == 3,
            Value::Bytes(_) => field.number == 2,
            Value::Eight(_) | Value::Four(_) | Value::Group(_) => false,
        }
    }
}

impl Keeping for Event {
    ghost Data = { EventData };

    ghost known = { event_known };

    fn knows(field: Field<'_>) -> bool {
        match field.value {
            Value::Varint(_) => field.number == 4,
            Value::Eight(_) => field.number == 1,
            Value::Bytes(_) => matches!(field.number, 2 | 3),
            Value::Four(_) | Value::Group(_) => false,
        }
    }
}

impl Keeping for Link {
    ghost Data = { LinkData };

    ghost known = { link_known };

    fn knows(field: Field<'_>) -> bool {
        match field.value {
            Value::Varint(_) => field.number == 5,
            Value::Bytes(_) => matches!(field.number, 1 | 2 | 3 | 4),
            Value::Four(_) => field.number == 6,
            Value::Eight(_) | Value::Group(_) => false,
        }
    }
}

impl Keeping for Span {
    ghost Data = { SpanData };

    ghost known = { span_known };

    fn knows(field: Field<'_>) -> bool {
        match field.value {
            Value::Varint(_) => matches!(field.number, 6 | 10 | 12 | 14),
            Value::Eight(_) => matches!(field.number, 7 | 8),
            Value::Bytes(_) => matches!(field.number, 1..=5 | 9 | 11 | 13 | 15),
            Value::Four(_) => field.number == 16,
            Value::Group(_) => false,
        }
    }
}
