//! Single fields. Those with `some` in their name are left out at their proto3 default.

ghost use Rattle.std.specs.Prelude.{◌≡◌, ◌^◌, ◌+◌, ◌<◌, ◌≤◌, ◌++◌, length, take, drop, OnOk, OnErr, vec_len, vec_capacity};
ghost use Rattle.otlp_trace.specs.Text.{number_field, bytes_field, eight_field, some_bytes, some_number, some_signed, some_eight, some_four};

use pb_wire::{WireType, put_bytes, put_tag, put_varint};
use std::alloc::AllocError;

/// A number, 0 too.
pub fn put_number_field(out: &mut Vec<u8>, number: u32, value: u64) -> Result<(), AllocError>
    requires number_not_zero { 0 < number }
    requires fits { number < 2 ^ 29 }
    ensures on_success { OnOk result (out.new.items ≡ out.old.items ++ number_field number value) }
{
    put_tag(out, number, WireType::Varint)?;
    put_varint(out, value)
}

/// Appends a field of these bytes: its tag, their length and the bytes themselves, none of them too; or nothing, where
/// memory is refused. The field's number is 1 to 2^29 - 1.
pub fn put_bytes_field(out: &mut Vec<u8>, number: u32, bytes: &[u8]) -> Result<(), AllocError>
    requires number_not_zero { 0 < number }
    requires fits { number < 2 ^ 29 }
    ensures on_success { OnOk result (out.new.items ≡ out.old.items ++ bytes_field number
        bytes.now) }
    ensures on_refusal { OnErr result (out.new.items ≡ out.old.items) }

    // Memory is refused only where the vector had too little room.
    ensures full { OnErr result (vec_capacity out.old < vec_len out.old + length
        (bytes_field number bytes.now)) }
{
    let before = out.len();
    put_tag(out, number, WireType::Bytes)?;
    if let Err(error) = put_bytes(out, bytes) {
        out.truncate(before);
        return Err(error);
    }
    Ok(())
}

/// Eight bytes, as they are.
pub fn put_eight_field(out: &mut Vec<u8>, number: u32, bytes: [u8; 8]) -> Result<(), AllocError>
    requires number_not_zero { 0 < number }
    requires fits { number < 2 ^ 29 }
    ensures on_success { OnOk result (out.new.items ≡ out.old.items ++ eight_field number bytes) }
{
    put_tag(out, number, WireType::Eight)?;
    out.extend_from_slice(&bytes)
}

/// Appends a field of these bytes, a string's too, or nothing where there are none or memory is refused. The field's
/// number is 1 to 2^29 - 1.
pub fn put_some_bytes(out: &mut Vec<u8>, number: u32, bytes: &[u8]) -> Result<(), AllocError>
    requires number_not_zero { 0 < number }
    requires fits { number < 2 ^ 29 }
    ensures on_success { OnOk result (out.new.items ≡ out.old.items ++ some_bytes number
        bytes.now) }
    ensures on_refusal { OnErr result (out.new.items ≡ out.old.items) }

    // Memory is refused only where the vector had too little room, so never for no bytes.
    ensures full { OnErr result (vec_capacity out.old < vec_len out.old + length
        (some_bytes number bytes.now)) }
{
    if bytes.len() == 0 {
        return Ok(());
    }
    put_bytes_field(out, number, bytes)
}

/// A number with no sign.
pub fn put_some_number(out: &mut Vec<u8>, number: u32, value: u64) -> Result<(), AllocError>
    requires number_not_zero { 0 < number }
    requires fits { number < 2 ^ 29 }
    ensures on_success { OnOk result (out.new.items ≡ out.old.items ++ some_number number value) }
{
    if value == 0 {
        return Ok(());
    }
    put_number_field(out, number, value)
}

/// A number with a sign, a negative one in ten bytes.
pub fn put_some_signed(out: &mut Vec<u8>, number: u32, value: i64) -> Result<(), AllocError>
    requires number_not_zero { 0 < number }
    requires fits { number < 2 ^ 29 }
    ensures on_success { OnOk result (out.new.items ≡ out.old.items ++ some_signed number value) }
{
    put_some_number(out, number, value.cast_unsigned())
}

/// A number in eight bytes.
pub fn put_some_eight(out: &mut Vec<u8>, number: u32, value: u64) -> Result<(), AllocError>
    requires number_not_zero { 0 < number }
    requires fits { number < 2 ^ 29 }
    ensures on_success { OnOk result (out.new.items ≡ out.old.items ++ some_eight number value) }
{
    if value == 0 {
        return Ok(());
    }
    put_eight_field(out, number, value.to_le_bytes())
}

/// A number in four bytes.
pub fn put_some_four(out: &mut Vec<u8>, number: u32, value: u32) -> Result<(), AllocError>
    requires number_not_zero { 0 < number }
    requires fits { number < 2 ^ 29 }
    ensures on_success { OnOk result (out.new.items ≡ out.old.items ++ some_four number value) }
{
    if value == 0 {
        return Ok(());
    }
    put_tag(out, number, WireType::Four)?;
    out.extend_from_slice(&value.to_le_bytes())
}

/// Makes the bytes from `start` on the content of a field with this number, 1 to 2^29 - 1: its tag and their length are
/// put before them. Where memory is refused, nothing changes.
pub fn wrap_in_field(out: &mut Vec<u8>, start: usize, number: u32) -> Result<(), AllocError>
    requires within { start ≤ length out.old.items }
    requires number_not_zero { 0 < number }
    requires fits { number < 2 ^ 29 }
    ensures on_success { OnOk result (out.new.items
        ≡ take start out.old.items ++ bytes_field number (drop start out.old.items)) }
    ensures on_refusal { OnErr result (out.new.items ≡ out.old.items) }

    // Memory is refused only where the vector had too little room.
    ensures full { OnErr result (vec_capacity out.old
        < start + length (bytes_field number (drop start out.old.items))) }
{
    let end = out.len();
    put_tag(out, number, WireType::Bytes)?;
    if let Err(error) = put_varint(out, (end - start) as u64) {
        out.truncate(end);
        return Err(error);
    }
    move_forward(out, start, end);
    Ok(())
}

/// The most bytes that a tag and a length have.
const LONGEST_HEADER: usize = 20;

/// The most bytes that are moved all at once, by way of the stack. Longer ones are moved one by one.
const SHORT: usize = 64;

/// Moves the bytes from `end` on, a field's tag and length, before those from `start` to `end`.
fn move_forward(out: &mut [u8], start: usize, end: usize)
    requires order { start ≤ end }
    requires within { end ≤ length out.old }
    requires move_bounded { length out.old ≤ end + 20 }
    ensures { out.new ≡ take start out.old ++ (drop end out.old ++ drop start (take end out.old)) }
{
    if end - start <= SHORT {
        move_over_short(out, start, end);
    } else {
        move_over_long(out, start, end);
    }
}

/// The same where those are short.
fn move_over_short(out: &mut [u8], start: usize, end: usize)
    requires order { start ≤ end }
    requires within { end ≤ length out.old }
    requires short { end ≤ start + 64 }
    ensures { out.new ≡ take start out.old ++ (drop end out.old ++ drop start (take end out.old)) }
{
    let added = out.len() - end;
    let size = end - start;
    let mut content = [0; SHORT];
    content[..size].copy_from_slice(&out[start..end]);
    out.copy_within(end.., start);
    out[start + added..].copy_from_slice(&content[..size]);
}

/// The same where those are long.
fn move_over_long(out: &mut [u8], start: usize, end: usize)
    requires order { start ≤ end }
    requires within { end ≤ length out.old }
    requires move_bounded { length out.old ≤ end + 20 }
    ensures { out.new ≡ take start out.old ++ (drop end out.old ++ drop start (take end out.old)) }
{
    let added = out.len() - end;
    let mut header = [0; LONGEST_HEADER];
    header[..added].copy_from_slice(&out[end..]);
    out.copy_within(start..end, start + added);
    out[start..start + added].copy_from_slice(&header[..added]);
}
