//! The bits of a note: which policies that hold no other a fact of a span meets.

ghost use Rattle.std.specs.Prelude.{◌≡◌, ◌≤◌, ◌<◌, ◌^◌, ◌*◌, ◌+◌, map};
ghost use Rattle.tail_settings.specs.Policy.{leaf_view, policy_view, leaves_of};
ghost use Rattle.tail_policy.specs.Note.{leaves_in, with_bit, bits_below, bits_of, attribute, fact_meets};
ghost use Rattle.tail_policy.specs.Marks.{IsReady};
ghost use Rattle.tail_policy.specs.AttributeTest.{fact_view};

use crate::attribute::{AttributeTest, is_wanted};
use crate::marks::mark;
use crate::status::is_listed;
use span_view::{AttributeRef, ValueRef};
use tail_settings::{LeafPolicy, PolicySpec};

/// What a policy that holds no other may ask of a span.
#[derive(Clone, Copy)]
pub enum Fact<'a> {
    /// The number of its status.
    Status(i32),
    /// An attribute of the span or its resource.
    Attribute(&'a str, ValueRef<'a>),
}

/// Whether a fact alone meets a policy that holds no other.
fn meets(fact: Fact<'_>, leaf: &LeafPolicy) -> bool
    ensures { result ≡ fact_meets (fact_view fact.entry) (leaf_view leaf.now) }
{
    match (fact, leaf) {
        (Fact::Status(status), LeafPolicy::StatusCode { status_codes }) => {
            is_listed(status_codes, status)
        }
        (Fact::Attribute(name, value), LeafPolicy::StringAttribute { key, values }) => {
            name == key.as_str() && is_wanted(AttributeTest::OneOf(values), value)
        }
        (
            Fact::Attribute(name, value),
            LeafPolicy::NumericAttribute {
                key,
                min_value,
                max_value,
            },
        ) => name == key.as_str()
            && is_wanted(AttributeTest::Within(*min_value, *max_value), value),
        _ => false,
    }
}

/// The lowest bit of a number whose other bits are `above`.
fn with_bit(is_met: bool, above: u64) -> u64
    requires fits { with_bit is_met above < 2 ^ 64 }
    ensures { result ≡ with_bit is_met above }
{
    if is_met { above * 2 + 1 } else { above * 2 }
}

/// One bit a policy, whether the fact meets it, below the bits of `above`.
fn leaf_bits(leaves: &[LeafPolicy], fact: Fact<'_>, above: u64) -> u64
    requires fits { bits_below (fact_meets (fact_view fact)) (map leaf_view leaves.now) above < 2 ^
        64 }
    ensures { result ≡ bits_below (fact_meets (fact_view fact.entry)) (map leaf_view leaves.now)
        above }
{
    let mut bits = above;
    let mut left = leaves;
    'leaves: while let Some((leaf, before)) = left.split_last() {
        bits = with_bit(meets(fact, leaf), bits);
        left = before;
    }
    bits
}

/// One bit a policy that holds no other, whether the fact meets it.
pub fn fact_bits(policies: &[PolicySpec], fact: Fact<'_>) -> u64
    requires leaves_bounded { leaves_of (map policy_view policies.now) ≤ 64 }
    ensures { result ≡ bits_of (fact_meets (fact_view fact.entry))
        (leaves_in (map policy_view policies.now)) }
{
    let mut bits = 0;
    let mut left = policies;
    'policies: while let Some((policy, before)) = left.split_last() {
        bits = match policy {
            PolicySpec::Leaf(leaf) => with_bit(meets(fact, leaf), bits),
            PolicySpec::And(leaves) => leaf_bits(leaves, fact, bits),
        };
        left = before;
    }
    bits
}

/// The same of an attribute. Where its key has no mark, neither its value nor a policy is looked at.
#[inline(always)]
pub fn attribute_bits(policies: &[PolicySpec], marks: &[bool], pair: &AttributeRef<'_>) -> u64
    requires ready { IsReady (map policy_view policies.now) marks.now }
    ensures { result ≡ bits_of (fact_meets (attribute pair.now))
        (leaves_in (map policy_view policies.now)) }
{
    let key = pair.key();
    if marks[mark(key)] {
        fact_bits(policies, Fact::Attribute(key, pair.value()))
    } else {
        0
    }
}
