//! What a message is made of, and why a text is no list of fields.

ghost use Rattle.std.specs.Prelude.{◌≡◌};
ghost use Rattle.pb_wire.specs.Grammar.{fault_number};

use thiserror::Error;

/// What a field holds, borrowed from the text that it was read from.
#[derive(Clone, Copy, Debug, PartialEq, Eq)]
pub enum Value<'a> {
    /// A number of 64 bits. What it means (two's complement, zigzag, a bool) is the message's
    /// matter.
    Varint(u64),
    /// Eight bytes, least significant first: `fixed64`, `sfixed64`, `double`.
    Eight([u8; 8]),
    /// Bytes whose length stands before them: a string, bytes, a message, packed numbers.
    Bytes(&'a [u8]),
    /// Four bytes, least significant first: `fixed32`, `sfixed32`, `float`.
    Four([u8; 4]),
    /// The fields between a group's start and its end, both of them left out.
    Group(&'a [u8]),
}

/// A numbered value.
#[derive(Clone, Copy, Debug, PartialEq, Eq)]
pub struct Field<'a> {
    /// 1 to 2^29 - 1 in a field that was read.
    pub number: u32,
    /// What it holds, of the wire type that its tag has.
    pub value: Value<'a>,
}

/// Why no field begins here. Each fault has a number.
#[derive(Clone, Copy, Debug, PartialEq, Eq, Error)]
pub enum WireFault {
    /// The text ends inside a tag, a length or a value.
    #[error("the text ends inside a field")]
    Truncated = 1,
    /// The tenth byte of a varint says that another follows.
    #[error("a number of more than ten bytes")]
    VarintTooLong = 2,
    /// Field number 0, wire type 6 or 7, or a tag of 2^32 or more.
    #[error("a tag that no field has")]
    BadTag = 3,
    /// A group's end without its start, with another number, or missing.
    #[error("a group's start and end don't match")]
    GroupMismatch = 4,
    /// A group whose content would be at depth 101.
    #[error("nested deeper than 100 levels")]
    TooDeep = 5,
}

impl WireFault {
    /// The fault's number, 1 to 5.
    pub fn number(self) -> u32
        ensures { result ≡ fault_number self }
    {
        self as u32
    }
}

/// How a value is written: the low three bits of a tag.
#[derive(Clone, Copy, Debug, PartialEq, Eq)]
pub enum WireType {
    /// As a number of one to ten bytes.
    Varint = 0,
    /// As eight bytes.
    Eight = 1,
    /// As a length and so many bytes.
    Bytes = 2,
    /// What opens a group. Its fields follow.
    GroupStart = 3,
    /// What closes the group of the same number. It has no value.
    GroupEnd = 4,
    /// As four bytes.
    Four = 5,
}
