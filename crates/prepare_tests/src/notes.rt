//! Notes that are made in 1, 2 and 16 parts.

ghost use Rattle.std.specs.Prelude.{◌≤◌, ◌<◌};

use span_view::{SpanRef, is_text};
use std::alloc::Global;
use std::process::Abort;
use std::thread::Threads;
use tail_notes::note_all;
use tail_policy::{TenantPolicies, TraceNote};
use tail_settings::load;

/// From 5 to 6.
const PLAIN: &[u8] = b"\x39\x05\x00\x00\x00\x00\x00\x00\x00\x41\x06\x00\x00\x00\x00\x00\x00\x00";

/// From 7 to 999,999,999, with an attribute `k`, the string `v`.
const ATTRIBUTE: &[u8] = b"\x39\x07\x00\x00\x00\x00\x00\x00\x00\x41\xff\xc9\x9a\x3b\x00\x00\x00\x00\
\x4a\x08\x0a\x01k\x12\x03\x0a\x01v";

/// At 1,000,000,005, with a status of code 2.
const ERROR: &[u8] =
    b"\x39\x05\xca\x9a\x3b\x00\x00\x00\x00\x41\x05\xca\x9a\x3b\x00\x00\x00\x00\x7a\x02\x18\x02";

/// A resource with an attribute `k`, the string `w`.
const RESOURCE: &[u8] = b"\x0a\x08\x0a\x01k\x12\x03\x0a\x01w";

fn checked<'a>(rt: &impl Abort, span: &'a [u8], resource: &'a [u8]) -> SpanRef<'a> {
    assert!(rt; is_text(span, resource));
    SpanRef::of(span, resource)
}

/// In TOML: an error; a string that an attribute has; a string that the resource has.
const THREE: &str = "[{ type = \"status_code\", status_codes = [\"ERROR\"] }, \
{ type = \"string_attribute\", key = \"k\", values = [\"v\"] }, \
{ type = \"string_attribute\", key = \"k\", values = [\"w\"] }]";

/// What is kept of the five spans: the bits of the three policies, the first one's lowest, and the times.
fn five_notes() -> [TraceNote; 5] {
    [
        TraceNote::new(0b000, 5, 6),
        TraceNote::new(0b010, 7, 999_999_999),
        TraceNote::new(0b101, 1_000_000_005, 1_000_000_005),
        TraceNote::new(0b001, 1_000_000_005, 1_000_000_005),
        TraceNote::new(0b100, 5, 6),
    ]
}

/// Whether so many parts make these notes of the five spans.
fn are_five_noted<R: Threads + Abort + Sync>(rt: &R, alloc: Global, parts: u32) -> bool
    requires { (0 < parts) × (parts ≤ 16) }
{
    let text = format!(in alloc;
        "[[tenant]]\nname = \"a\"\ntail_sampling.policy = {THREE}\n"
    ).expect(rt, "memory");
    let settings = load(alloc, text.as_str()).expect(rt, "good settings");
    let section = settings.section(0).expect(rt, "a section");
    let policies = TenantPolicies::of(&section.tail_sampling.policies);
    let spans = [
        checked(rt, PLAIN, b""),
        checked(rt, ATTRIBUTE, b""),
        checked(rt, ERROR, RESOURCE),
        checked(rt, ERROR, b""),
        checked(rt, PLAIN, RESOURCE),
    ];
    let notes = note_all(rt, alloc, &policies, &spans, parts).expect(rt, "memory");
    notes.as_slice() == five_notes().as_slice()
}

#[test]
fn parts_make_the_notes_of_one_thread(rt: HostRuntime) {
    for parts in [1u32, 2, 16] {
        assert!(rt; are_five_noted(&rt, rt.alloc(), parts));
    }
}
