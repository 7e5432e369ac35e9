//! Fields at the front of a text, as they are written. Each of those with `some` in its name is left out at its proto3
//! default, so that it takes none of a text that begins otherwise.

ghost use Rattle.std.specs.Prelude.{◌≡◌, ◌++◌, ◌∷◌, ◌<◌, ◌^◌, ◌*◌, ◌+◌, ℕ, length, option_map, IfSome, IsTrue, FitsSigned};
ghost use Rattle.std.specs.Int.{w32, w64, to_le_bytes};
ghost use Rattle.std.specs.Str.{IsUtf8};
ghost use Rattle.otlp_trace.specs.Text.{bytes_field, some_bytes, some_number, some_signed, some_eight, some_four};
ghost use Rattle.otlp_canonical.specs.Parts.{Front};
ghost use Rattle.otlp_canonical.specs.Sound.{Any};

use crate::number::{behind, content, short_content, shortest};

/// What the field of this number and wire type `Bytes` at the front holds, and the rest.
#[inline(always)]
pub fn bytes_field(text: &[u8], number: u8) -> Option<(&[u8], &[u8])>
    requires fits { number < 16 }
    ensures parts { IfSome result (λ x. text.now ≡ bytes_field number x.0.now ++ x.1.now) }
    ensures shorter { IfSome result (λ x. length x.1.now < length text.now) }
{
    let behind = behind(text, number * 8 + 2)?;
    let (bytes, rest) = content(behind)?;
    Some((bytes, rest))
}

/// What the field of this number and wire type `Bytes` at the front holds, and the rest. None where its length has more
/// than one byte.
#[inline(always)]
pub fn short_field(text: &[u8], number: u8) -> Option<(&[u8], &[u8])>
    requires fits { number < 16 }
    ensures parts { IfSome result (λ x. text.now ≡ bytes_field number x.0.now ++ x.1.now) }
    ensures shorter { IfSome result (λ x. length x.1.now < length text.now) }
    ensures short { IfSome result (λ x. length x.0.now < 128) }
{
    let behind = behind(text, number * 8 + 2)?;
    let (bytes, rest) = short_content(behind)?;
    Some((bytes, rest))
}

/// Whether the text begins with a field of this number and wire type `Bytes`.
#[inline(always)]
pub fn begins(text: &[u8], number: u8) -> bool
    requires fits { number < 16 }
{
    behind(text, number * 8 + 2).is_some()
}

/// What stands behind bytes that are left out where there are none.
#[inline(always)]
pub fn some_bytes(text: &[u8], number: u8) -> Option<&[u8]>
    requires fits { number < 16 }
    ensures { IfSome result (λ rest. Front (some_bytes number) Any text.now rest.now) }
{
    if !begins(text, number) {
        return Some(text);
    }
    let (bytes, rest) = bytes_field(text, number)?;
    if bytes.is_empty() { None } else { Some(rest) }
}

/// Whether the bytes are UTF-8. Most strings are ASCII, which is found out by words.
pub fn is_utf8(bytes: &[u8]) -> bool
    ensures { IsTrue result → IsUtf8 bytes.now }
{
    if bytes.is_ascii() {
        return true;
    }
    str::from_utf8(bytes).is_ok()
}

/// What stands behind a string that is left out where it is empty.
#[inline(always)]
pub fn some_string(text: &[u8], number: u8) -> Option<&[u8]>
    requires fits { number < 16 }
    ensures { IfSome result (λ rest. Front (some_bytes number) IsUtf8 text.now rest.now) }
{
    if !begins(text, number) {
        return Some(text);
    }
    let (bytes, rest) = bytes_field(text, number)?;
    if bytes.is_empty() {
        return None;
    }
    if is_utf8(bytes) { Some(rest) } else { None }
}

/// What stands behind a number of 32 bits that is left out where it is 0.
#[inline(always)]
pub fn some_number(text: &[u8], number: u8) -> Option<&[u8]>
    requires fits { number < 16 }
    ensures { IfSome result (λ rest. Front (some_number number) (λ x. x < 2 ^ 32) text.now
        rest.now) }
{
    let Some(value) = behind(text, number * 8) else {
        return Some(text);
    };
    let (value, rest) = shortest(value)?;
    if value == 0 {
        return None;
    }
    if value >= 1 << 32 { None } else { Some(rest) }
}

/// What stands behind a number of 32 bits with a sign that is left out where it is 0. A negative one has ten bytes.
#[inline(always)]
pub fn some_signed(text: &[u8], number: u8) -> Option<&[u8]>
    requires fits { number < 16 }
    ensures { IfSome result (λ rest. Front (some_signed number) (FitsSigned w32) text.now
        rest.now) }
{
    let Some(value) = behind(text, number * 8) else {
        return Some(text);
    };
    let (value, rest) = shortest(value)?;
    if value == 0 {
        return None;
    }
    if value < 1 << 31 {
        return Some(rest);
    }
    // A negative number is written as one of 64 bits.
    if value < u64::MAX - 0x7fff_ffff {
        None
    } else {
        Some(rest)
    }
}

/// What stands behind a number of eight bytes, which isn't 0.
fn eight(value: &[u8]) -> Option<&[u8]>
    ensures { IfSome result (λ rest. Front (to_le_bytes w64) (λ x. (0 < x) × (x < 2 ^ 64)) value.now
        rest.now) }
{
    if value.len() < 8 {
        return None;
    }
    let (b, rest) = value.split_at(8);
    let number = u64::from_le_bytes([b[0], b[1], b[2], b[3], b[4], b[5], b[6], b[7]]);
    if number == 0 { None } else { Some(rest) }
}

/// What stands behind a number of eight bytes that is left out where it is 0.
#[inline(always)]
pub fn some_eight(text: &[u8], number: u8) -> Option<&[u8]>
    requires fits { number < 16 }
    ensures { IfSome result (λ rest. Front (some_eight number) (λ x. x < 2 ^ 64) text.now
        rest.now) }
{
    match behind(text, number * 8 + 1) {
        None => Some(text),
        Some(value) => {
            let rest = eight(value)?;
            Some(rest)
        }
    }
}

/// What stands behind a number of four bytes, which isn't 0.
fn four(value: &[u8]) -> Option<&[u8]>
    ensures { IfSome result (λ rest. Front (to_le_bytes w32) (λ x. (0 < x) × (x < 2 ^ 32)) value.now
        rest.now) }
{
    if value.len() < 4 {
        return None;
    }
    let (b, rest) = value.split_at(4);
    let number = u32::from_le_bytes([b[0], b[1], b[2], b[3]]);
    if number == 0 { None } else { Some(rest) }
}

/// What stands behind a number of four bytes that is left out where it is 0.
#[inline(always)]
pub fn some_four(text: &[u8], number: u8) -> Option<&[u8]>
    requires fits { number < 16 }
    ensures { IfSome result (λ rest. Front (some_four number) (λ x. x < 2 ^ 32) text.now rest.now) }
{
    match behind(text, number * 8 + 5) {
        None => Some(text),
        Some(value) => {
            let rest = four(value)?;
            Some(rest)
        }
    }
}

/// What stands behind a tag of these two bytes, where the text begins with it.
#[inline(always)]
pub fn behind_two(text: &[u8], first: u8, second: u8) -> Option<&[u8]>
    ensures parts { IfSome result (λ rest. text.now ≡ first ∷ second ∷ rest.now) }
{
    let text = behind(text, first)?;
    let text = behind(text, second)?;
    Some(text)
}

/// What stands behind a span's flags, a number of four bytes that is left out where it is 0. Their tag has two bytes.
pub fn some_flags(text: &[u8]) -> Option<&[u8]>
    ensures { IfSome result (λ rest. Front (some_four 16) (λ x. x < 2 ^ 32) text.now rest.now) }
{
    match behind_two(text, 0x85, 0x01) {
        None => Some(text),
        Some(value) => {
            let rest = four(value)?;
            Some(rest)
        }
    }
}
