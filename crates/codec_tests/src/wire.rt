//! Texts and values from outside: the encoding guide's own examples, and texts spelled by hand.

use crate::texts::{bytes_of, ensure};
use pb_wire::{Field, Value, WireFault, WireType, next_field, put_bytes, put_tag, put_varint};
use std::alloc::{AllocError, Global};
use std::process::Abort;

/// Texts, a line each, and what is read of them from left to right: each field's number and value, and the number of
/// the fault that comes then and what it says.
const TEXTS: &str = "\
# The encoding guide.\n\
089601 1 Varint(150);\n\
120774657374696e67 2 Bytes([116, 101, 115, 116, 105, 110, 103]);\n\
1a03089601 3 Bytes([8, 150, 1]);\n\
220568656c6c6f 4 Bytes([104, 101, 108, 108, 111]);\n\
2801 5 Varint(1);\n\
# Minus two as an int32: ten bytes. 25.4 as a double, 200 as a fixed64 and as a fixed32.\n\
08feffffffffffffffff01 1 Varint(18446744073709551614);\n\
296666666666663940 5 Eight([102, 102, 102, 102, 102, 102, 57, 64]);\n\
31c800000000000000 6 Eight([200, 0, 0, 0, 0, 0, 0, 0]);\n\
35c8000000 6 Four([200, 0, 0, 0]);\n\
# Packed numbers: 3, 270 and 86942. A group, and one in it.\n\
3206038e029ea705 6 Bytes([3, 142, 2, 158, 167, 5]);\n\
4308021a03666f6f44 8 Group([8, 2, 26, 3, 102, 111, 111]);\n\
0b4308021a03666f6f440c 1 Group([67, 8, 2, 26, 3, 102, 111, 111, 68]);\n\
# By hand: 150 in a byte more than needed, 1 in ten bytes, the greatest number, with its bits past 64, and \
the greatest field number.\n\
08968100 1 Varint(150);\n\
0881808080808080808000 1 Varint(1);\n\
08ffffffffffffffffff7f 1 Varint(18446744073709551615);\n\
fdffffff0f00000000 536870911 Four([0, 0, 0, 0]);\n\
# What looks like an end is inside a string and inside four bytes.\n\
0b12010c0d0c0c0c0c0c 1 Group([18, 1, 12, 13, 12, 12, 12, 12]);\n\
# Field by field, and up to a fault.\n\
- \n\
089601120774657374696e671a030896010801 1 Varint(150);2 Bytes([116, 101, 115, 116, 105, 110, 103]);3 Bytes([8, \
150, 1]);1 Varint(1);\n\
089601120274 1 Varint(150);1: the text ends inside a field\n\
08960100 1 Varint(150);3: a tag that no field has\n\
# Each fault.\n\
08 1: the text ends inside a field\n\
08ff 1: the text ends inside a field\n\
0901020304050607 1: the text ends inside a field\n\
0a0261 1: the text ends inside a field\n\
08ffffffffffffffffffff 2: a number of more than ten bytes\n\
0000 3: a tag that no field has\n\
0e 3: a tag that no field has\n\
0f 3: a tag that no field has\n\
888080801000 3: a tag that no field has\n\
0c 4: a group's start and end don't match\n\
0b140c 4: a group's start and end don't match\n\
0b0801 4: a group's start and end don't match\n\
# The first fault counts, and a group's end is looked for from left to right.\n\
0b0e 3: a tag that no field has\n\
0b0880 1: the text ends inside a field";

/// What is read of a text.
fn told(alloc: Global, text: &[u8]) -> Result<String, AllocError> {
    let mut told = String::new(alloc);
    let mut left = text;
    loop {
        match next_field(left, 0) {
            Ok(None) => return Ok(told),
            Ok(Some((found, rest))) => {
                told = format!(in alloc; "{told}{} {:?};", found.number, found.value)?;
                left = rest;
            }
            Err(fault) => return format!(in alloc; "{told}{}: {fault}", fault.number()),
        }
    }
}

/// Whether a text is read so.
fn is_told(rt: &impl Abort, alloc: Global, text: &[u8], wanted: &str) -> bool {
    let told = told(alloc, text).expect(rt, "memory");
    told.as_str() == wanted
}

/// Whether a line's text is read so.
fn is_read_so(rt: &impl Abort, alloc: Global, line: &str) -> bool {
    let (digits, wanted) = line.split_once(' ').expect(rt, "a line of two words");
    let text = bytes_of(rt, alloc, digits);
    is_told(rt, alloc, text.as_slice(), wanted)
}

#[test]
fn texts_are_read_field_by_field(rt: HostRuntime) {
    for line in TEXTS.lines() {
        if !line.starts_with('#') {
            ensure(&rt, is_read_so(&rt, rt.alloc(), line), line);
        }
    }
}

/// Appends the tag of field 20 with this type so many times.
fn put_tags(rt: &impl Abort, out: &mut Vec<u8>, wire_type: WireType, count: usize) {
    for _ in 0..count {
        put_tag(out, 20, wire_type).expect(rt, "memory");
    }
}

/// Field 20 as a group, opened and closed so many times.
fn nested(rt: &impl Abort, alloc: Global, levels: usize) -> Vec<u8> {
    let mut text = Vec::new(alloc);
    put_tags(rt, &mut text, WireType::GroupStart, levels);
    put_tags(rt, &mut text, WireType::GroupEnd, levels);
    text
}

/// Whether so many groups, one in another, are nested too deep where they stand so many levels down.
fn are_too_deep(rt: &impl Abort, alloc: Global, groups: usize, levels: u32) -> bool {
    let text = nested(rt, alloc, groups);
    next_field(&text, levels) == Err(WireFault::TooDeep)
}

/// Whether the text is field 20, a group of these bytes, and nothing else.
fn is_group(text: &[u8], inside: &[u8]) -> bool {
    let field = Field {
        number: 20,
        value: Value::Group(inside),
    };
    next_field(text, 0) == Ok(Some((field, b"".as_slice())))
}

/// Whether a hundred groups are one in another.
fn are_nested(rt: &impl Abort, alloc: Global) -> bool {
    let sound = nested(rt, alloc, 100);
    sound.len() == 400 && is_group(&sound, &sound[2..398])
}

/// Whether it is told of one more that they are nested too deep.
fn is_one_too_deep(rt: &impl Abort, alloc: Global) -> bool {
    let deep = nested(rt, alloc, 101);
    is_told(rt, alloc, &deep, "5: nested deeper than 100 levels")
}

#[test]
fn a_hundred_groups_nest_and_no_more(rt: HostRuntime) {
    let alloc = rt.alloc();
    assert!(rt; are_nested(&rt, alloc) && is_one_too_deep(&rt, alloc));
    assert!(rt; are_too_deep(&rt, alloc, 100, 1) && are_too_deep(&rt, alloc, 10_000, 0));
}

/// Appends a number, a text and an empty text.
fn put_examples(rt: &impl Abort, out: &mut Vec<u8>) {
    put_tag(out, 1, WireType::Varint).expect(rt, "memory");
    put_varint(out, 150).expect(rt, "memory");
    put_tag(out, 2, WireType::Bytes).expect(rt, "memory");
    put_bytes(out, b"testing").expect(rt, "memory");
    put_tag(out, 3, WireType::Bytes).expect(rt, "memory");
    put_bytes(out, b"").expect(rt, "memory");
}

#[test]
fn the_encoding_guides_examples_are_written(rt: HostRuntime) {
    let mut out = Vec::new(rt.alloc());
    put_examples(&rt, &mut out);
    assert!(rt; out.as_slice() == b"\x08\x96\x01\x12\x07testing\x1a\x00".as_slice());
}

#[test]
fn long_bytes_have_a_long_length(rt: HostRuntime) {
    let mut out = Vec::new(rt.alloc());
    put_bytes(&mut out, &[7; 300]).expect(&rt, "memory");
    assert!(rt; out.len() == 302 && &out[..3] == b"\xac\x02\x07".as_slice());
}
