//! Texts of a document as they are shown on a line.

ghost use Rattle.std.specs.Prelude.{◌≡◌, ◌++◌, IfOk, OnOk, string_bytes};
ghost use Rattle.settings_check.specs.Shown.{is_plain, shown_byte, shown};

use std::alloc::{AllocError, Global};

/// Whether a byte is shown as it is.
fn is_plain(byte: u8) -> bool
    ensures { result ≡ is_plain byte }
{
    32 <= byte && byte <= 126 && byte != b'\\'
}

/// Appends a byte as it is shown.
fn put_byte(alloc: Global, out: &mut String, byte: u8) -> Result<(), AllocError>
    ensures { OnOk result (string_bytes out.new ≡ string_bytes out.old ++ shown_byte byte) }
{
    if is_plain(byte) {
        return out.push(char::from(byte));
    }
    let digits = hex::encode(alloc, [byte].as_slice())?;
    out.push_str("\\x")?;
    out.push_str(digits.as_str())
}

/// A text as it is shown: bytes that aren't printable ASCII, and the backslash, as `\x` and two hexadecimal digits.
pub fn shown(alloc: Global, text: &str) -> Result<String, AllocError>
    ensures { IfOk result (λ line. string_bytes line ≡ shown text.now) }
{
    shown_bytes(alloc, text.as_bytes())
}

/// The bytes of a text, or of a piece of one, as they are shown.
pub fn shown_bytes(alloc: Global, text: &[u8]) -> Result<String, AllocError>
    ensures { IfOk result (λ line. string_bytes line ≡ shown text.now) }
{
    let mut line = String::new(alloc);
    for byte in text {
        put_byte(alloc, &mut line, *byte)?;
    }
    Ok(line)
}
