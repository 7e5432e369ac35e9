//! A span's status that stands several times. By the Protocol Buffers encoding guide ("Last One Wins") an embedded
//! message that stands again is merged, as if the fields of all stood in one.

ghost use Rattle.std.specs.Prelude.{◌≡◌, ◌++◌, ◌<◌, ◌^◌, true, IfOk, IfSome, IsTrue, OnOk};
ghost use Rattle.std.specs.Str.{IsUtf8};
ghost use Rattle.otlp_canonical.specs.Order.{PlaceRead};
ghost use Rattle.otlp_canonical.specs.Status.{AreFields, StatusesHeld, with_parts, message_text, code_text, StatusMakes, PartsHeld};

use crate::field::is_utf8;
use crate::order::{STATUS, place};
use otlp_trace::{put_bytes_field, wrap_in_field};
use pb_wire::{Value, WireType, next_field, put_tag, put_varint};
use std::alloc::AllocError;

/// Of the messages and the codes of statuses the last, which wins.
#[derive(Clone, Copy)]
struct StatusParts<'a> {
    /// The last message, empty where there is none.
    message: &'a [u8],

    /// There is one, an empty one too.
    has_message: bool,

    /// The last code as it stands, 0 where there is none.
    code: u64,

    /// There is one, 0 too.
    has_code: bool,
}

/// The last message and the last code of the status, or those of the statuses before it where it has none. None where
/// something else stands in it, or a message that isn't UTF-8.
#[inline(always)]
fn parts_behind<'a>(before: StatusParts<'a>, text: &'a [u8], depth: u32) -> Option<StatusParts<'a>>
    ensures valid { IfSome result (λ parts. IsUtf8 before.entry.message.now
        → IsUtf8 parts.message.now) }
    ensures makes { IfSome result (λ parts. StatusMakes depth text.now
        (with_parts before.entry.message.now before.entry.has_message before.entry.code
        before.entry.has_code)
        (with_parts parts.message.now parts.has_message parts.code parts.has_code)) }
{
    let mut message = before.message;
    let mut has_message = before.has_message;
    let mut code = before.code;
    let mut has_code = before.has_code;
    let mut left = text;
    'fields: while !left.is_empty() {
        let Ok(Some((field, rest))) = next_field(left, depth) else {
            return None;
        };
        match field.value {
            Value::Bytes(bytes) if field.number == 2 => {
                if !is_utf8(bytes) {
                    return None;
                }
                message = bytes;
                has_message = true;
            }
            Value::Varint(number) if field.number == 3 => {
                code = number;
                has_code = true;
            }
            _ => return None,
        }
        left = rest;
    }
    Some(StatusParts {
        message,
        has_message,
        code,
        has_code,
    })
}

/// The last message and the last code of all statuses of the text. None where it has no status, where something else
/// stands in one, or where a message isn't UTF-8.
fn last_parts(text: &[u8], depth: u32) -> Option<StatusParts<'_>>
    requires { depth < 102 }
    ensures valid { IfSome result (λ parts. IsUtf8 parts.message.now) }
    ensures held { IfSome result (λ parts. PartsHeld depth text.now
        (with_parts parts.message.now parts.has_message parts.code parts.has_code)) }
{
    let mut parts = StatusParts {
        message: &text[..0],
        has_message: false,
        code: 0,
        has_code: false,
    };
    let mut met = false;
    let mut left = text;
    'fields: while !left.is_empty() {
        let Ok(Some((field, rest))) = next_field(left, depth) else {
            return None;
        };
        if place(field) == STATUS {
            let Value::Bytes(held) = field.value else {
                return None;
            };
            let Some(later) = parts_behind(parts, held, depth + 1) else {
                return None;
            };
            parts = later;
            met = true;
        }
        left = rest;
    }
    if !met {
        return None;
    }
    Some(parts)
}

/// Appends the field of a status' message, an empty one too, if there is one.
fn put_message(copy: &mut Vec<u8>, parts: StatusParts<'_>) -> Result<(), AllocError>
    ensures { OnOk result (copy.new.items ≡ copy.old.items ++ message_text
        parts.entry.message.now parts.entry.has_message) }
{
    if !parts.has_message {
        return Ok(());
    }
    put_bytes_field(copy, 2, parts.message)
}

/// Appends the field of a status' code, 0 too, if there is one.
fn put_code(copy: &mut Vec<u8>, code: u64, has_code: bool) -> Result<(), AllocError>
    ensures fits { code < 2 ^ 64 }
    ensures put { OnOk result (copy.new.items ≡ copy.old.items ++ code_text code has_code) }
{
    if !has_code {
        return Ok(());
    }
    put_tag(copy, 3, WireType::Varint)?;
    put_varint(copy, code)
}

/// Whether the text is fields.
pub fn is_fields(text: &[u8], depth: u32) -> bool
    ensures { IsTrue result → AreFields depth text.now }
{
    let mut left = text;
    'fields: while let Ok(Some((_field, rest))) = next_field(left, depth) {
        left = rest;
    }
    left.is_empty()
}

/// Appends what the statuses of the text hold, one after the other. Tells whether there are any, all that they hold is
/// fields, and so is the text.
fn put_held(copy: &mut Vec<u8>, text: &[u8], depth: u32) -> Result<bool, AllocError>
    requires { depth < 102 }
    ensures { IfOk result (λ whole. whole ≡ true
        → StatusesHeld depth text.now copy.old.items copy.new.items) }
{
    let mut met = false;
    let mut left = text;
    'fields: while !left.is_empty() {
        let Ok(Some((field, rest))) = next_field(left, depth) else {
            return Ok(false);
        };
        if place(field) == STATUS {
            let Value::Bytes(held) = field.value else {
                return Ok(false);
            };
            if !is_fields(held, depth + 1) {
                return Ok(false);
            }
            copy.extend_from_slice(held)?;
            met = true;
        }
        left = rest;
    }
    Ok(met)
}

/// Appends what one status holds that holds the fields of all statuses of the text: the last message and the last code,
/// if nothing else stands in any of them. Tells whether it did.
fn put_merged(copy: &mut Vec<u8>, text: &[u8], depth: u32) -> Result<bool, AllocError>
    requires { depth < 102 }
    ensures { IfOk result (λ whole. whole ≡ true
        → StatusesHeld depth text.now copy.old.items copy.new.items) }
{
    let Some(parts) = last_parts(text, depth) else {
        let whole = put_held(copy, text, depth)?;
        return Ok(whole);
    };
    put_message(copy, parts)?;
    put_code(copy, parts.code, parts.has_code)?;
    Ok(true)
}

/// Appends one status that holds the fields of all statuses of the text. Tells whether it did.
pub fn put_status(copy: &mut Vec<u8>, text: &[u8], depth: u32) -> Result<bool, AllocError>
    requires { depth < 102 }
    ensures { IfOk result (λ whole. whole ≡ true
        → PlaceRead depth 15 text.now copy.old.items copy.new.items) }
{
    let start = copy.len();
    if !put_merged(copy, text, depth)? {
        return Ok(false);
    }
    wrap_in_field(copy, start, STATUS)?;
    Ok(true)
}
