//! Attributes and their values, which hold others. A value goes to its member, an array or a list to each of its
//! values.

ghost use Rattle.std.specs.Prelude.{◌≡◌, ◌∷◌, ◌<◌, ◌*◌, ◌+◌, ℕ, IfSome};
ghost use Rattle.std.specs.Str.{IsUtf8};
ghost use Rattle.otlp_trace.specs.Text.{any_text, kind_text, array_text, list_text, key_value_text};
ghost use Rattle.otlp_canonical.specs.Parts.{Whole, Front};
ghost use Rattle.otlp_canonical.specs.Sound.{SoundAny, SoundKind, SoundArray, SoundList, SoundKeyValue};

use crate::field::{begins, bytes_field, is_utf8, short_field, some_string};
use crate::number::{behind, shortest, split};
use crate::unknown::unknown;
use otlp_trace::{AnyValue, ArrayValue, KeyValue, KeyValueList};

/// What stands behind a string.
fn string(text: &[u8]) -> Option<&[u8]>
    ensures { (room : ℕ) → IfSome result
        (λ rest. Front kind_text (SoundKind room) text.now rest.now) }
{
    let (bytes, rest) = bytes_field(text, 1)?;
    if is_utf8(bytes) { Some(rest) } else { None }
}

/// What stands behind a bool, which is 0 or 1.
fn boolean(text: &[u8]) -> Option<&[u8]>
    ensures { (room : ℕ) → IfSome result
        (λ rest. Front kind_text (SoundKind room) text.now rest.now) }
{
    let value = behind(text, 0x10)?;
    let (value, rest) = shortest(value)?;
    if value < 2 { Some(rest) } else { None }
}

/// What stands behind a number.
fn int(text: &[u8]) -> Option<&[u8]>
    ensures { (room : ℕ) → IfSome result
        (λ rest. Front kind_text (SoundKind room) text.now rest.now) }
{
    let value = behind(text, 0x18)?;
    let (_value, rest) = shortest(value)?;
    Some(rest)
}

/// What stands behind a double.
fn double(text: &[u8]) -> Option<&[u8]>
    ensures { (room : ℕ) → IfSome result
        (λ rest. Front kind_text (SoundKind room) text.now rest.now) }
{
    let value = behind(text, 0x21)?;
    let (_value, rest) = split(value, 8)?;
    Some(rest)
}

/// What stands behind bytes.
fn bytes(text: &[u8]) -> Option<&[u8]>
    ensures { (room : ℕ) → IfSome result
        (λ rest. Front kind_text (SoundKind room) text.now rest.now) }
{
    let (_bytes, rest) = bytes_field(text, 7)?;
    Some(rest)
}

/// What stands behind the member of a value's oneof, where one is chosen. There is room for so many levels inside the
/// value.
#[cycle(any)]
fn kind(text: &[u8], room: u32) -> Option<&[u8]>
    ensures { IfSome result (λ rest. Front kind_text (SoundKind room) text.now rest.now) }
{
    let Some(first) = text.first() else {
        return Some(text);
    };
    match *first {
        0x0a => string(text),
        0x10 => boolean(text),
        0x18 => int(text),
        0x21 => double(text),
        0x2a => {
            let (inside, rest) = bytes_field(text, 5)?;
            array(inside, room)?;
            Some(rest)
        }
        0x32 => {
            let (inside, rest) = bytes_field(text, 6)?;
            list(inside, room)?;
            Some(rest)
        }
        0x3a => bytes(text),
        _ => Some(text),
    }
}

/// Goes over a value, with room for so many levels, its own among them.
#[cycle(any)]
pub fn any(text: &[u8], room: u32) -> Option<()>
    ensures { IfSome result (λ u. Whole any_text (SoundAny room) text.now) }
{
    if room == 0 {
        return None;
    }
    let rest = kind(text, room - 1)?;
    // Behind a member there's another.
    if matches!(
        rest.first(),
        Some(0x0a | 0x10 | 0x18 | 0x21 | 0x2a | 0x32 | 0x3a)
    ) {
        return None;
    }
    unknown::<AnyValue>(rest, room - 1)?;
    Some(())
}

/// Goes over an array.
#[cycle(any)]
fn array(text: &[u8], room: u32) -> Option<()>
    ensures { IfSome result (λ u. Whole array_text (SoundArray room) text.now) }
{
    if room == 0 {
        return None;
    }
    let mut left = text;
    'values: while begins(left, 1) {
        let (value, rest) = bytes_field(left, 1)?;
        any(value, room - 1)?;
        left = rest;
    }
    unknown::<ArrayValue>(left, room - 1)?;
    Some(())
}

/// Goes over a list of keys with their values.
#[cycle(any)]
fn list(text: &[u8], room: u32) -> Option<()>
    ensures { IfSome result (λ u. Whole list_text (SoundList room) text.now) }
{
    if room == 0 {
        return None;
    }
    let mut left = text;
    'values: while begins(left, 1) {
        let (value, rest) = bytes_field(left, 1)?;
        key_value(value, room - 1)?;
        left = rest;
    }
    unknown::<KeyValueList>(left, room - 1)?;
    Some(())
}

/// What stands behind a bool or a number.
#[inline(always)]
pub fn scalar(text: &[u8]) -> Option<&[u8]>
    ensures { (room : ℕ) → IfSome result
        (λ rest. Front kind_text (SoundKind room) text.now rest.now) }
{
    let first = text.first()?;
    match *first {
        0x10 => boolean(text),
        0x18 => int(text),
        0x21 => double(text),
        _ => None,
    }
}

/// Goes over a key whose value is a bool or a number behind which nothing stands, and over that value.
fn scalar_pair(key: &[u8], value: &[u8]) -> Option<()>
    ensures key { IfSome result (λ u. IsUtf8 key.now) }
    ensures value { (room : ℕ) → 0 < room → IfSome result
        (λ u. Whole any_text (SoundAny room) value.now) }
{
    let rest = scalar(value)?;
    if !rest.is_empty() {
        return None;
    }
    if is_utf8(key) { Some(()) } else { None }
}

/// The byte behind the tag of a field of this number and wire type `Bytes` at the front, and the rest. It is the
/// field's length where it is below 128.
#[inline(always)]
fn short_front(text: &[u8], number: u8) -> Option<(usize, &[u8])>
    requires fits { number < 16 }
    ensures { IfSome result (λ x. text.now ≡ (8 * number + 2) ∷ x.0 ∷ x.1.now) }
{
    let (front, rest) = text.split_first_chunk::<2>()?;
    if front[0] != number * 8 + 2 {
        return None;
    }
    Some((usize::from(front[1]), rest))
}

/// Goes over a key with a string in ASCII, a bool or a number behind which nothing stands, where each length has one
/// byte, which most attributes are. One with a string is looked at once for all: in ASCII such lengths are, too.
/// `Some(None)` where each length has one byte and the value has no string: then `plain_pair` needn't be asked.
#[inline(always)]
fn short_pair(text: &[u8], room: u32) -> Option<Option<()>>
    ensures { IfSome result (λ sound. IfSome sound
        (λ u. Whole key_value_text (SoundKeyValue room) text.now)) }
{
    if room < 2 {
        return None;
    }
    let (key_size, behind) = short_front(text, 1)?;
    if key_size == 0 {
        return None;
    }
    let (key, rest) = split(behind, key_size)?;
    let (value_size, value) = short_front(rest, 2)?;
    if value.len() != value_size {
        return None;
    }
    let Some((string_size, string)) = short_front(value, 1) else {
        if key_size >= 128 || value_size >= 128 {
            return None;
        }
        return Some(scalar_pair(key, value));
    };
    if string.len() != string_size {
        return None;
    }
    if text.is_ascii() {
        Some(Some(()))
    } else {
        None
    }
}

/// Goes over a key with a string, a bool or a number behind which nothing stands, whose lengths have any number of
/// bytes.
#[inline(never)]
fn plain_pair(text: &[u8], room: u32) -> Option<()>
    ensures { IfSome result (λ u. Whole key_value_text (SoundKeyValue room) text.now) }
{
    if room < 2 {
        return None;
    }
    let (key, rest) = bytes_field(text, 1)?;
    if key.is_empty() {
        return None;
    }
    let (value, end) = bytes_field(rest, 2)?;
    if !end.is_empty() {
        return None;
    }
    let Some((string, more)) = bytes_field(value, 1) else {
        return scalar_pair(key, value);
    };
    if !more.is_empty() {
        return None;
    }
    if !is_utf8(key) {
        return None;
    }
    if str::from_utf8(string).is_err() {
        None
    } else {
        Some(())
    }
}

/// Whether the text may be what `plain_pair` goes over and `short_pair` doesn't: where its lengths have one byte each,
/// it is that only with a string that has nothing behind it.
#[inline(always)]
fn may_be_plain(text: &[u8]) -> bool {
    let Some((_key, behind)) = short_field(text, 1) else {
        return true;
    };
    let Some((value, end)) = short_field(behind, 2) else {
        return true;
    };
    match short_field(value, 1) {
        Some((_string, more)) => end.is_empty() && more.is_empty(),
        None => false,
    }
}

/// Goes over a key with or without a value.
#[cycle(any)]
fn any_pair(text: &[u8], room: u32) -> Option<()>
    ensures { IfSome result (λ u. Whole key_value_text (SoundKeyValue room) text.now) }
{
    if room == 0 {
        return None;
    }
    let key = some_string(text, 1)?;
    if !begins(key, 2) {
        unknown::<KeyValue>(key, room - 1)?;
        return Some(());
    }
    let (value, rest) = bytes_field(key, 2)?;
    // Most that isn't canonical ends here.
    if matches!(rest.first(), Some(0x0a | 0x12)) {
        return None;
    }
    any(value, room - 1)?;
    unknown::<KeyValue>(rest, room - 1)?;
    Some(())
}

/// Goes over a key with or without a value. Most are short, and take no call.
#[cycle(any)]
#[inline(always)]
pub fn key_value(text: &[u8], room: u32) -> Option<()>
    ensures { IfSome result (λ u. Whole key_value_text (SoundKeyValue room) text.now) }
{
    if let Some(sound) = short_pair(text, room) {
        if sound.is_some() {
            return sound;
        }
    } else if may_be_plain(text) && plain_pair(text, room).is_some() {
        return Some(());
    }
    any_pair(text, room)
}
