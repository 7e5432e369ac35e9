//! Lines of tables, and the bytes in them.

use std::alloc::Global;
use std::process::Abort;

/// A line's three words.
pub fn words<'a>(rt: &impl Abort, line: &'a str) -> (&'a str, &'a str, &'a str) {
    let (first, rest) = line.split_once(' ').expect(rt, "a line of three words");
    let (second, third) = rest.split_once(' ').expect(rt, "a line of three words");
    (first, second, third)
}

/// The bytes that these digits spell, none for `-`.
pub fn bytes_of(rt: &impl Abort, alloc: Global, digits: &str) -> Vec<u8> {
    if digits == "-" {
        return Vec::new(alloc);
    }
    hex::decode(alloc, digits).expect(rt, "hexadecimal digits")
}
