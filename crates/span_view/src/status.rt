//! The status of a span.

ghost use Rattle.std.specs.Prelude.{◌≡◌};
ghost use Rattle.pb_wire.specs.declared.field.WireType.TheVariants as types;
ghost use Rattle.span_view.specs.Reading.{fields_of, held, first_bytes, code_in};

use crate::fields::{bytes, past_bytes, varint};

/// The code that a status' text says.
pub fn code_of(text: &[u8]) -> i32
    ensures { result ≡ code_in text.now }
{
    let code = varint(text, 3);
    ((code & 0xffff_ffff) as u32).cast_signed()
}

/// The code of the status in a span's text, of which attributes stand first.
#[inline(always)]
pub fn code_behind(text: &[u8]) -> i32
    ensures { result ≡ code_in (first_bytes (held 15 types.Bytes (fields_of text.now))) }
{
    let left = past_bytes(text, 9);
    if left.is_empty() {
        return 0;
    }
    code_of(bytes(left, 15))
}
