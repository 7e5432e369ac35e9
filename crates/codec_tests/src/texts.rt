//! Lines of tables, and the bytes in them.

use std::alloc::Global;
use std::process::Abort;

/// A line's three words.
pub fn words<'a>(rt: &impl Abort, line: &'a str) -> (&'a str, &'a str, &'a str) {
    let (first, rest) = line.split_once(' ').expect(rt, "a line of three words");
    let (second, third) = rest.split_once(' ').expect(rt, "a line of three words");
    (first, second, third)
}

/// The bytes that these digits spell, none for `-`.
pub fn bytes_of(rt: &impl Abort, alloc: Global, digits: &str) -> Vec<u8> {
    if digits == "-" {
        return Vec::new(alloc);
    }
    hex::decode(alloc, digits).expect(rt, "hexadecimal digits")
}

/// Ends the test with the line where this doesn't hold.
pub fn ensure(rt: &impl Abort, holds: bool, line: &str) {
    assert!(rt; holds, "{line}");
}

/// Whether this was found: a text, or none for `none`.
pub fn is_found(rt: &impl Abort, alloc: Global, found: Option<Vec<u8>>, wanted: &str) -> bool {
    match found {
        None => wanted == "none",
        Some(_) if wanted == "none" => false,
        Some(copy) => {
            let wanted = bytes_of(rt, alloc, wanted);
            copy.as_slice() == wanted.as_slice()
        }
    }
}
