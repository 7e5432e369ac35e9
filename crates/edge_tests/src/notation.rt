//! How talks are written down.
//!
//! `\r`, `\n`, `\t` and `\xHH` are the bytes that they are in Rust, `{NAME}` is what the name stands for, and
//! `{NAME*COUNT}` that so often. A name that stands for nothing known is left as it is.

use std::alloc::{AllocError, Global};

/// A name, and what it stands for.
#[derive(Drop)]
pub struct Name {
    name: &'static str,
    bytes: Vec<u8>,
}

/// The names of a text with lines `NAME = TEXT`. Each may use those before it.
pub fn names_of(alloc: Global, lines: &'static str) -> Result<Vec<Name>, AllocError> {
    let mut names = Vec::new(alloc);
    for line in lines.lines() {
        if let Some((name, text)) = line.split_once(" = ") {
            let bytes = unfolded(alloc, &names, text)?;
            names.push(Name { name, bytes })?;
        }
    }
    Ok(names)
}

/// The bytes that a text stands for.
pub fn unfolded(alloc: Global, names: &[Name], text: &str) -> Result<Vec<u8>, AllocError> {
    let mut bytes = Vec::new(alloc);
    for part in text.split('{') {
        push_part(&mut bytes, names, part)?;
    }
    Ok(bytes)
}

/// Pushes a name and what stands behind its bracket, or what stands before the first name.
fn push_part(bytes: &mut Vec<u8>, names: &[Name], part: &str) -> Result<(), AllocError> {
    match part.split_once('}') {
        Some((name, rest)) => {
            push_name(bytes, names, name)?;
            push_plain(bytes, rest)
        }
        None => push_plain(bytes, part),
    }
}

/// Pushes what a name stands for, as often as it says.
fn push_name(bytes: &mut Vec<u8>, names: &[Name], text: &str) -> Result<(), AllocError> {
    let (name, count) = match text.split_once('*') {
        Some((name, count)) => (name, count.parse().unwrap_or(0)),
        None => (text, 1u32),
    };
    for known in names {
        if known.name == name {
            return push_often(bytes, &known.bytes, count);
        }
    }
    bytes.extend_from_slice(text.as_bytes())
}

fn push_often(bytes: &mut Vec<u8>, text: &[u8], count: u32) -> Result<(), AllocError> {
    for _ in 0..count {
        bytes.extend_from_slice(text)?;
    }
    Ok(())
}

/// Pushes a text without names.
fn push_plain(bytes: &mut Vec<u8>, text: &str) -> Result<(), AllocError> {
    let mut is_escaped = false;
    for part in text.split('\\') {
        if is_escaped {
            push_escaped(bytes, part.as_bytes())?;
        } else {
            bytes.extend_from_slice(part.as_bytes())?;
        }
        is_escaped = true;
    }
    Ok(())
}

/// Pushes what stands behind a backslash.
fn push_escaped(bytes: &mut Vec<u8>, text: &[u8]) -> Result<(), AllocError> {
    let (byte, rest) = match text {
        [b'r', rest @ ..] => (b'\r', rest),
        [b'n', rest @ ..] => (b'\n', rest),
        [b't', rest @ ..] => (b'\t', rest),
        [b'x', high, low, rest @ ..] => (
            digit(*high).wrapping_mul(16).wrapping_add(digit(*low)),
            rest,
        ),
        _ => (b'\\', text),
    };
    bytes.push(byte)?;
    bytes.extend_from_slice(rest)
}

/// The value of a hexadecimal digit.
fn digit(byte: u8) -> u8 {
    match byte {
        b'0'..=b'9' => byte - b'0',
        b'a'..=b'f' => byte - b'a' + 10,
        _ => 0,
    }
}
