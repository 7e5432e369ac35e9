//! Sampling policies, over whole lists of spans.

ghost use Rattle.std.specs.Prelude.{◌<◌, length};
ghost use Rattle.processor_tests.specs.Policies.{NoPolicies};

use crate::lines::{cut, words};
use span_view::{SpanRef, is_text};
use std::alloc::Global;
use std::process::Abort;
use tail_policy::keeps;
use tail_settings::{Settings, load};

/// Policies by a name, an array in TOML.
pub fn policies_of(name: &str) -> &'static str {
    match name {
        "second" => "[{ type = \"latency\", threshold_ms = 1000 }]",
        "longer" => "[{ type = \"latency\", threshold_ms = 1001 }]",
        "longer-or-any" => {
            "[{ type = \"latency\", threshold_ms = 1001 }, { type = \"always_sample\" }]"
        }
        // The greatest latency, 2^40 milliseconds, and the least.
        "longest" => "[{ type = \"latency\", threshold_ms = 1099511627776 }]",
        "shortest" => "[{ type = \"latency\", threshold_ms = 0 }]",
        _ => policies_of_spans(name),
    }
}

fn policies_of_spans(name: &str) -> &'static str {
    match name {
        "error" => "[{ type = \"status_code\", status_codes = [\"ERROR\"] }]",
        "no-error" => "[{ type = \"status_code\", status_codes = [\"OK\", \"UNSET\"] }]",
        // Of statuses and times alone. Bits, from the lowest: an error, latency, all but an error.
        "statuses" => {
            "[{ type = \"status_code\", status_codes = [\"ERROR\"] }, \
{ type = \"latency\", threshold_ms = 1000 }, \
{ type = \"status_code\", status_codes = [\"OK\", \"UNSET\"] }]"
        }
        "seven" => {
            "[{ type = \"numeric_attribute\", key = \"k\", min_value = 7, max_value = 7 }]"
        }
        "less" => {
            "[{ type = \"numeric_attribute\", key = \"k\", min_value = -7, max_value = 6 }]"
        }
        "more" => {
            "[{ type = \"numeric_attribute\", key = \"k\", min_value = 8, max_value = 100 }]"
        }
        "exchanged" => {
            "[{ type = \"numeric_attribute\", key = \"k\", min_value = 8, max_value = 6 }]"
        }
        "one" => { "[{ type = \"numeric_attribute\", key = \"k\", min_value = 1, max_value = 1 }]" }
        _ => policies_of_texts(name),
    }
}

fn policies_of_texts(name: &str) -> &'static str {
    match name {
        "has-v" => "[{ type = \"string_attribute\", key = \"k\", values = [\"v\"] }]",
        "has-x" => "[{ type = \"string_attribute\", key = \"k\", values = [\"other\", \"x\"] }]",
        "has-w" => "[{ type = \"string_attribute\", key = \"k\", values = [\"w\"] }]",
        "has-xy" => "[{ type = \"string_attribute\", key = \"k\", values = [\"xy\"] }]",
        "has-7" => "[{ type = \"string_attribute\", key = \"k\", values = [\"7\"] }]",
        "has-X" => "[{ type = \"string_attribute\", key = \"k\", values = [\"X\"] }]",
        "other-key" => "[{ type = \"string_attribute\", key = \"K\", values = [\"x\"] }]",
        _ => policies_together(name),
    }
}

/// What is joined: an error, and a first value of `k`.
fn policies_together(name: &str) -> &'static str {
    match name {
        "both" => {
            "[{ type = \"and\", and_sub_policy = [\
{ type = \"status_code\", status_codes = [\"ERROR\"] }, \
{ type = \"string_attribute\", key = \"k\", values = [\"v\"] }] }]"
        }
        // Or a number.
        "both-or-8" => {
            "[{ type = \"and\", and_sub_policy = [\
{ type = \"status_code\", status_codes = [\"ERROR\"] }, \
{ type = \"string_attribute\", key = \"k\", values = [\"v\"] }] }, \
{ type = \"numeric_attribute\", key = \"k\", min_value = 8, max_value = 8 }]"
        }
        // One of each kind, and two that are joined. Bits, from the lowest: always, latency, status, text, number;
        // status and text of the `and`.
        _ => {
            "[{ type = \"always_sample\" }, \
{ type = \"latency\", threshold_ms = 1000 }, \
{ type = \"status_code\", status_codes = [\"ERROR\"] }, \
{ type = \"string_attribute\", key = \"k\", values = [\"v\", \"w\"] }, \
{ type = \"numeric_attribute\", key = \"k\", min_value = 7, max_value = 8 }, \
{ type = \"and\", and_sub_policy = [\
{ type = \"status_code\", status_codes = [\"ERROR\"] }, \
{ type = \"string_attribute\", key = \"k\", values = [\"v\"] }] }]"
        }
    }
}

/// A span by a name: from when to when, in nanoseconds.
pub fn span_of(name: &str) -> &'static [u8] {
    match name {
        // From 5 to 1,000,000,004, and to one more.
        "nearly" => b"\x39\x05\x00\x00\x00\x00\x00\x00\x00\x41\x04\xca\x9a\x3b\x00\x00\x00\x00",
        "second" => b"\x39\x05\x00\x00\x00\x00\x00\x00\x00\x41\x05\xca\x9a\x3b\x00\x00\x00\x00",
        // From 1,000,000,005 to 5.
        "exchanged" => b"\x39\x05\xca\x9a\x3b\x00\x00\x00\x00\x41\x05\x00\x00\x00\x00\x00\x00\x00",
        // From 5 to 6, and from 1,000,000,004 to 1,000,000,005.
        "early" => b"\x39\x05\x00\x00\x00\x00\x00\x00\x00\x41\x06\x00\x00\x00\x00\x00\x00\x00",
        "late" => b"\x39\x04\xca\x9a\x3b\x00\x00\x00\x00\x41\x05\xca\x9a\x3b\x00\x00\x00\x00",
        // From 0 to 2^64 - 1, and from there to 0.
        "whole" => b"\x41\xff\xff\xff\xff\xff\xff\xff\xff",
        "backwards" => b"\x39\xff\xff\xff\xff\xff\xff\xff\xff",
        _ => span_with(name),
    }
}

/// A span by a name: with a status, or with attributes `k`.
fn span_with(name: &str) -> &'static [u8] {
    match name {
        "unset" => b"\x7a\x02\x18\x00",
        "ok" => b"\x7a\x02\x18\x01",
        "error" => b"\x7a\x02\x18\x02",
        "unknown" => b"\x7a\x02\x18\x03",
        "negative" => b"\x7a\x0b\x18\xfe\xff\xff\xff\xff\xff\xff\xff\xff\x01",
        // An error from 5 to 1,000,000,005.
        "late-error" => {
            b"\x39\x05\x00\x00\x00\x00\x00\x00\x00\x41\x05\xca\x9a\x3b\x00\x00\x00\x00\x7a\x02\x18\x02"
        }
        "seven" => b"\x4a\x07\x0a\x01k\x12\x02\x18\x07",
        "minus-seven" => b"\x4a\x10\x0a\x01k\x12\x0b\x18\xf9\xff\xff\xff\xff\xff\xff\xff\xff\x01",
        "true" => b"\x4a\x07\x0a\x01k\x12\x02\x10\x01",
        // The string `v`, and its key behind it.
        "value-first" => b"\x4a\x08\x12\x03\x0a\x01v\x0a\x01k",
        "vw" => b"\x4a\x09\x0a\x01k\x12\x04\x0a\x02vw",
        // The string `v`, and the number 7.
        "twice" => b"\x4a\x08\x0a\x01k\x12\x03\x0a\x01v\x4a\x07\x0a\x01k\x12\x02\x18\x07",
        // And the string `x`.
        _ => {
            b"\x4a\x08\x0a\x01k\x12\x03\x0a\x01v\
\x4a\x07\x0a\x01k\x12\x02\x18\x07\
\x4a\x08\x0a\x01k\x12\x03\x0a\x01x"
        }
    }
}

/// A resource with an attribute `k`, the string `w`.
pub const RESOURCE: &[u8] = b"\x0a\x08\x0a\x01k\x12\x03\x0a\x01w";

pub fn checked<'a>(rt: &impl Abort, span: &'a [u8], resource: &'a [u8]) -> SpanRef<'a> {
    assert!(rt; is_text(span, resource));
    SpanRef::of(span, resource)
}

/// The settings of one tenant with the policies of this array in TOML.
pub fn loaded(rt: &impl Abort, alloc: Global, policies: &str) -> Settings {
    let text = format!(in alloc;
        "[[tenant]]\nname = \"a\"\ntail_sampling.policy = {policies}\n"
    ).expect(rt, "memory");
    load(alloc, text.as_str()).expect(rt, "good settings")
}

/// Whether a trace with these spans is sampled by policies of this name.
fn is_sampled(rt: &impl Abort, alloc: Global, policies: &str, spans: &[SpanRef<'_>]) -> bool
    requires { 0 < length spans.now }
{
    let settings = loaded(rt, alloc, policies_of(policies));
    match settings.section(0) {
        Some(section) => keeps(&section.tail_sampling.policies, spans),
        None => false,
    }
}

/// The same of the trace of one span by its name, or of two.
fn is_named_sampled(
    rt: &impl Abort,
    alloc: Global,
    policies: &str,
    first: &str,
    second: &str,
) -> bool {
    let one = checked(rt, span_of(first), RESOURCE);
    if second.is_empty() {
        return is_sampled(rt, alloc, policies, &[one]);
    }
    let other = checked(rt, span_of(second), RESOURCE);
    is_sampled(rt, alloc, policies, &[one, other])
}

/// Policies, one span or two, and whether their trace is sampled:
///
/// - a trace lasts from its earliest start to its latest end, in whole milliseconds, rounded down;
/// - each status has its number, and a missing one is UNSET;
/// - each occurrence of a key counts, the resource's too, and a string is compared whole;
/// - both bounds of numbers are included;
/// - joined policies have to be met all, be it by different spans, and one policy of several is enough.
const CASES: &str = "\
second nearly = no
second second = yes
second exchanged = no
second early = no
second late = no
second late early = yes
shortest exchanged = yes
error error = yes
error ok = no
no-error error = no
no-error ok = yes
no-error unset = yes
no-error early = yes
no-error unknown = no
no-error negative = no
no-error error ok = yes
has-x thrice = yes
has-w thrice = yes
other-key thrice = no
has-X thrice = no
has-xy thrice = no
has-v vw = no
has-7 seven = no
has-v early = no
seven thrice = yes
seven minus-seven = no
less thrice = no
less minus-seven = yes
more thrice = no
exchanged seven = no
seven early = no
one true = no
both error = no
both thrice = no
both thrice error = yes
both-or-8 error = no
longer second = no
longer-or-any second = yes";

#[test]
fn traces_of_one_span_and_of_two(rt: HostRuntime) {
    for line in CASES.lines() {
        let (asked, wanted) = cut(line, " = ");
        let [policies, first, second, _, _, _, _] = words(asked);
        let sampled = is_named_sampled(&rt, rt.alloc(), policies, first, second);
        assert!(rt; sampled == (wanted == "yes"), "at {line}");
    }
}

/// The definitions, where there is no policy, give what was worked out by hand.
fn definitions_of_no_policies()
    ensures none { NoPolicies }
{}
