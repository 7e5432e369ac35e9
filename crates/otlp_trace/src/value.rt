//! Attributes and their values.

use crate::octets::Octets;

/// The eight bytes of a double, least first. They are carried as they came, so that NaNs keep their payload and zero
/// its sign.
#[derive(Clone, Copy, Debug, PartialEq, Eq)]
pub struct DoubleBits(pub [u8; 8]);

/// A value of any kind, or of none.
#[cycle(any)]
#[derive(Debug, Drop)]
pub struct AnyValue {
    /// The value itself.
    pub kind: AnyValueKind,
    /// Fields that this version doesn't know, as they were spelled.
    pub unknown: Octets,
}

/// Which member of the value's oneof is chosen.
#[cycle(any)]
#[derive(Debug, Drop)]
pub enum AnyValueKind {
    /// No member: a value with no content.
    Unset,
    String(String),
    Bool(bool),
    Int(i64),
    Double(DoubleBits),
    Array(ArrayValue),
    KeyValueList(KeyValueList),
    Bytes(Octets),
}

/// Values in order, of any kinds.
#[cycle(any)]
#[derive(Debug, Drop)]
pub struct ArrayValue {
    /// The values, in their order.
    pub values: Vec<AnyValue>,
    /// Fields that this version doesn't know, as they were spelled.
    pub unknown: Octets,
}

/// Keys with values, in order.
#[cycle(any)]
#[derive(Debug, Drop)]
pub struct KeyValueList {
    /// The keys with their values, in their order; a key may stand twice.
    pub values: Vec<KeyValue>,
    /// Fields that this version doesn't know, as they were spelled.
    pub unknown: Octets,
}

/// An attribute: a key, and a value where one is given.
#[cycle(any)]
#[derive(Debug, Drop)]
pub struct KeyValue {
    /// The attribute's name.
    pub key: String,
    /// None where the field is missing, which is another text than an empty value.
    pub value: Option<AnyValue>,
    /// Fields that this version doesn't know, as they were spelled.
    pub unknown: Octets,
}
