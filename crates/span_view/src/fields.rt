//! Looking for fields in a text. Where no field begins, the text is taken to end.

ghost use Rattle.std.specs.Prelude.{◌≡◌, ◌<◌, ◌≤◌, ◌==◌, ℕ, true, false, length, IfSome};
ghost use Rattle.pb_wire.specs.declared.field.WireType.{WireType};
ghost use Rattle.pb_wire.specs.declared.field.WireType.TheVariants as types;
ghost use Rattle.pb_wire.specs.Grammar.{datum, entry};
ghost use Rattle.span_view.specs.Reading.{fields_of, found_fields, has, is_kind, held, found_held};
ghost use Rattle.span_view.specs.Fields.{told};
ghost use Rattle.span_view.specs.Short.{IsBehind, IsPast, StartsWithBytes, StartsWithNumber};
ghost use Rattle.span_view.specs.Reading.{first_bytes, first_eight, first_varint};

use pb_wire::{Field, Value, WireType, next_field};

/// The first field, and the text behind it.
#[inline(always)]
pub fn first_field(text: &[u8]) -> Option<(Field<'_>, &[u8])>
    ensures fields { fields_of text.now ≡ found_fields result }
    ensures shorter { IfSome result (λ found. length found.1.now < length text.now) }
{
    match next_field(text, 0) {
        Ok(found) => found,
        Err(_) => None,
    }
}

/// The number of the first field and the text behind it, where it has number 16 and four bytes, as a span's flags have.
/// Of other fields it says nothing.
fn flags(text: &[u8]) -> Option<(u32, &[u8])>
    ensures { IfSome result (λ found. IsBehind found.0 text.now found.1.now) }
{
    let Some((first, behind)) = text.split_first() else {
        return None;
    };
    let Some((second, held)) = behind.split_first() else {
        return None;
    };
    if *first != 0x85 || *second != 1 || held.len() < 4 {
        return None;
    }
    Some((16, held.split_at(4).1))
}

/// The number of the first field and the text behind it, where the field's tag has one byte and what it holds is eight
/// bytes, a number of one byte or at most 127 bytes, and of a span's flags. Of other fields it says nothing.
#[inline(always)]
pub fn short_field(text: &[u8]) -> Option<(u32, &[u8])>
    ensures { IfSome result (λ found. IsBehind found.0 text.now found.1.now) }
{
    let Some((tag, held)) = text.split_first() else {
        return None;
    };
    let tag = *tag;
    if tag < 8 || tag >= 0x80 {
        return flags(text);
    }
    let number = u32::from(tag / 8);
    if tag % 8 == 1 {
        if held.len() < 8 {
            return None;
        }
        return Some((number, held.split_at(8).1));
    }
    let Some((first, rest)) = held.split_first() else {
        return None;
    };
    let first = *first;
    if first >= 0x80 {
        return None;
    }
    if tag % 8 == 0 {
        return Some((number, rest));
    }
    let size = usize::from(first);
    if tag % 8 != 2 || rest.len() < size {
        return None;
    }
    Some((number, rest.split_at(size).1))
}

/// What the first field holds and the text behind it, where it is at most 127 bytes. Of other fields it says nothing.
#[inline(always)]
pub fn short_bytes(text: &[u8], number: u32) -> Option<(&[u8], &[u8])>
    requires some { 0 < number }
    requires small { number < 16 }
    ensures { IfSome result (λ found. StartsWithBytes number text.now found.0.now found.1.now) }
{
    let [tag, size, ..] = text else {
        return None;
    };
    // Each condition stands by itself, so that what isn't needed to tell fields apart by their tags isn't worked out.
    if u32::from(*tag) != number * 8 + 2 {
        return None;
    }
    if *size >= 0x80 {
        return None;
    }
    let size = usize::from(*size);
    let (_, rest) = text.split_at(2);
    if rest.len() < size {
        return None;
    }
    Some(rest.split_at(size))
}

/// The text behind the fields at its front that are passed over at once, none of which has this number.
#[inline(always)]
fn past_others(text: &[u8], number: u32) -> &[u8]
    ensures same { (kind : WireType) → held number kind (fields_of text.now) ≡ held number kind
        (fields_of result.now) }
    ensures within { length result.now ≤ length text.now }
{
    let mut left = text;
    'fields: while let Some((other, rest)) = short_field(left) {
        if other == number {
            return left;
        }
        left = rest;
    }
    left
}

/// Whether a field has this number and wire type, a group's being that of its start.
#[inline(always)]
fn has(field: &Field<'_>, number: u32, kind: WireType) -> bool
    ensures { result ≡ has number kind (entry field.now) }
{
    let is_kind = match (kind, &field.value) {
        (WireType::Varint, Value::Varint(_)) => true,
        (WireType::Eight, Value::Eight(_)) => true,
        (WireType::Bytes, Value::Bytes(_)) => true,
        (WireType::Four, Value::Four(_)) => true,
        (WireType::GroupStart, Value::Group(_)) => true,
        _ => false,
    };
    field.number == number && is_kind
}

/// What the first field of this number and wire type holds, and the text behind it.
#[inline(always)]
pub fn find(text: &[u8], number: u32, kind: WireType) -> Option<(Value<'_>, &[u8])>
    ensures values_found { held number kind (fields_of text.now) ≡ found_held number kind result }
    ensures kind { IfSome result (λ found. is_kind kind (datum found.0) ≡ true) }
    ensures shorter { IfSome result (λ found. length found.1.now < length text.now) }
{
    let mut left = past_others(text, number);
    'fields: while let Some((field, rest)) = first_field(left) {
        if has(&field, number, kind) {
            return Some((field.value, rest));
        }
        left = rest;
    }
    None
}

/// The bytes in the first field of bytes with this number, none where there is none, by a search.
fn found_bytes(text: &[u8], number: u32) -> &[u8]
    requires some { 0 < number }
    requires small { number < 16 }
    ensures { result.now ≡ first_bytes (held number types.Bytes (fields_of text.now)) }
{
    let front = past_others(text, number);
    if let Some((bytes, _)) = short_bytes(front, number) {
        return bytes;
    }
    match find(front, number, WireType::Bytes) {
        Some((Value::Bytes(bytes), _)) => bytes,
        _ => &[],
    }
}

/// The same, at once where the field stands first and is short.
#[inline(always)]
pub fn bytes(text: &[u8], number: u32) -> &[u8]
    requires some { 0 < number }
    requires small { number < 16 }
    ensures { result.now ≡ first_bytes (held number types.Bytes (fields_of text.now)) }
{
    if let Some((bytes, _)) = short_bytes(text, number) {
        return bytes;
    }
    found_bytes(text, number)
}

/// The number in the first such field of eight bytes, 0 where there is none.
#[inline(always)]
pub fn eight(text: &[u8], number: u32) -> u64
    ensures { result ≡ first_eight (held number types.Eight (fields_of text.now)) }
{
    match find(text, number, WireType::Eight) {
        Some((Value::Eight(bytes), _)) => u64::from_le_bytes(bytes),
        _ => 0,
    }
}

/// The number in the first such varint field, 0 where there is none.
#[inline(always)]
pub fn varint(text: &[u8], number: u32) -> u64
    ensures { result ≡ first_varint (held number types.Varint (fields_of text.now)) }
{
    match find(text, number, WireType::Varint) {
        Some((Value::Varint(value), _)) => value,
        _ => 0,
    }
}

/// The text behind the first field, where it has this number and holds at most 127 bytes, and else the whole text.
#[inline(always)]
fn past_short_bytes(text: &[u8], number: u32) -> &[u8]
    requires some { 0 < number }
    requires small { number < 16 }
    ensures { IsPast number text.now result.now }
{
    match short_bytes(text, number) {
        Some((_, rest)) => rest,
        None => text,
    }
}

/// The text behind the first field, where it is a span's kind as a number of one byte, and else the whole text.
#[inline(always)]
fn past_kind(text: &[u8]) -> &[u8]
    ensures { IsPast 6 text.now result.now }
{
    let [tag, kind, ..] = text else {
        return text;
    };
    if *tag != 0x30 || *kind >= 0x80 {
        return text;
    }
    text.split_at(2).1
}

/// The text behind what stands before a span's times in canonical text: its ids, its state, its parent, its name and
/// its kind. Where one of them is long the text begins with it.
#[inline(always)]
pub fn past_front(text: &[u8]) -> &[u8]
    ensures start { (kind : WireType) → held 7 kind (fields_of text.now) ≡ held 7 kind
        (fields_of result.now) }
    ensures end { (kind : WireType) → held 8 kind (fields_of text.now) ≡ held 8 kind
        (fields_of result.now) }
    ensures status { (kind : WireType) → held 15 kind (fields_of text.now) ≡ held 15 kind
        (fields_of result.now) }
    ensures told { told (fields_of text.now) ≡ told (fields_of result.now) }
{
    let trace = past_short_bytes(text, 1);
    let span = past_short_bytes(trace, 2);
    let state = past_short_bytes(span, 3);
    let parent = past_short_bytes(state, 4);
    let name = past_short_bytes(parent, 5);
    past_kind(name)
}

/// The number in the first field and the text behind it, where that field has this number, a tag of one byte and eight
/// bytes. Of other fields it says nothing.
#[inline(always)]
pub fn leading_eight(text: &[u8], number: u32) -> Option<(u64, &[u8])>
    ensures { IfSome result (λ found. StartsWithNumber number text.now found.0 found.1.now) }
{
    let Some((tag, held)) = text.split_first() else {
        return None;
    };
    let tag = *tag;
    if number == 0 || tag >= 0x80 || u64::from(tag) != u64::from(number) * 8 + 1 {
        return None;
    }
    let Some((spelling, rest)) = held.split_first_chunk::<8>() else {
        return None;
    };
    Some((u64::from_le_bytes(*spelling), rest))
}

/// A span's start and end, 0 where there is none, in one walk where they stand as in canonical text; and a text in
/// which fields of the status' number stand as in the whole one: the text behind the times then, and else the whole
/// one.
#[inline(always)]
pub fn times(text: &[u8]) -> (u64, u64, &[u8])
    ensures start { result.0 ≡ first_eight (held 7 types.Eight (fields_of text.now)) }
    ensures end { result.1 ≡ first_eight (held 8 types.Eight (fields_of text.now)) }
    ensures status { held 15 types.Bytes (fields_of text.now) ≡ held 15 types.Bytes
        (fields_of result.2.now) }
{
    let front = past_front(text);
    if let Some((start, behind)) = leading_eight(front, 7) {
        if let Some((end, rest)) = leading_eight(behind, 8) {
            return (start, end, rest);
        }
    }
    (eight(text, 7), eight(text, 8), text)
}

/// The text behind the fields at its front that have this number and hold at most 127 bytes each.
#[inline(always)]
pub fn past_bytes(text: &[u8], number: u32) -> &[u8]
    requires some { 0 < number }
    requires small { number < 16 }
    ensures { (other : ℕ) → (number == other) ≡ false → held other types.Bytes (fields_of text.now)
        ≡ held other types.Bytes (fields_of result.now) }
{
    let mut left = text;
    'fields: while let Some((_, rest)) = short_bytes(left, number) {
        left = rest;
    }
    left
}
