//! Views of spans.

ghost use Rattle.processor_tests.specs.Views.{Told, CanonicalTexts};

use otlp_trace::DoubleBits;
use span_view::{
    SpanField, SpanFields, SpanRef, ValueRef, canonical_text_is_viewed, equal_values, is_text,
};
use std::alloc::Global;
use std::process::Abort;

/// The span of opentelemetry-proto's example of a trace (examples/trace.json), with a status of code 2 and fields that
/// no span knows behind it.
const SPAN: &[u8] = b"\x0a\x10\x5b\x8e\xff\xf7\x98\x03\x81\x03\xd2\x69\xb6\x33\x81\x3f\xc6\x0c\
\x12\x08\xee\xe1\x9b\x7e\xc3\xc1\xb1\x74\
\x22\x08\xee\xe1\x9b\x7e\xc3\xc1\xb1\x73\
\x2a\x11I'm a server span\
\x30\x02\
\x39\x00\x48\x59\xe3\xfa\xeb\x6f\x15\
\x41\x00\x12\xf4\x1e\xfb\xeb\x6f\x15\
\x4a\x1c\x0a\x0cmy.span.attr\x12\x0c\x0a\x0asome value\
\x7a\x05\x12\x01m\x18\x02\
\x08\x09\
\x38\x63\
\xa3\x01\x0a\x01z\xa4\x01";

/// Its resource.
const RESOURCE: &[u8] = b"\x0a\x1c\x0a\x0cservice.name\x12\x0c\x0a\x0amy.service";

fn checked<'a>(rt: &impl Abort, span: &'a [u8], resource: &'a [u8]) -> SpanRef<'a> {
    assert!(rt; is_text(span, resource));
    SpanRef::of(span, resource)
}

fn has_ids(view: &SpanRef<'_>) -> bool {
    let id: &[u8] = b"\x5b\x8e\xff\xf7\x98\x03\x81\x03\xd2\x69\xb6\x33\x81\x3f\xc6\x0c";
    let span_id: &[u8] = b"\xee\xe1\x9b\x7e\xc3\xc1\xb1\x74";
    view.trace_id() == id && view.span_id() == span_id
}

fn has_times_and_status(view: &SpanRef<'_>) -> bool {
    (view.start(), view.end()) == (1544712660000000000, 1544712661000000000) && view.status() == 2
}

/// Whether this is an attribute with that key and value.
fn is_attribute(found: Option<(&str, ValueRef<'_>)>, key: &str, want: ValueRef<'_>) -> bool {
    match found {
        Some((name, value)) => name == key && value == want,
        None => false,
    }
}

fn has_attributes(view: &SpanRef<'_>) -> bool {
    let own = ValueRef::String("some value");
    let of_resource = ValueRef::String("my.service");
    let mut attributes = view.attributes();
    is_attribute(attributes.next(), "my.span.attr", own)
        && is_attribute(attributes.next(), "service.name", of_resource)
        && attributes.next().is_none()
        && attributes.next().is_none()
}

/// Whether this field tells an attribute with that key and value.
fn tells_attribute(found: Option<SpanField<'_>>, key: &str, want: ValueRef<'_>) -> bool {
    match found {
        Some(SpanField::Attribute(pair)) => pair.key() == key && pair.value() == want,
        _ => false,
    }
}

fn has_fields(view: &SpanRef<'_>) -> bool {
    let own = ValueRef::String("some value");
    let of_resource = ValueRef::String("my.service");
    let mut fields = view.fields();
    matches!(fields.next(), Some(SpanField::Start(1544712660000000000)))
        && matches!(fields.next(), Some(SpanField::End(1544712661000000000)))
        && tells_attribute(fields.next(), "my.span.attr", own)
        && matches!(fields.next(), Some(SpanField::Status(2)))
        && tells_attribute(fields.next(), "service.name", of_resource)
        && fields.next().is_none()
        && fields.next().is_none()
}

#[test]
fn the_example_of_a_trace_is_viewed(rt: HostRuntime) {
    let view = checked(&rt, SPAN, RESOURCE);
    assert!(rt; has_ids(&view) && has_times_and_status(&view) && has_attributes(&view));
    assert!(rt; has_fields(&view));
}

/// Whether the one attribute of this resource has no key and this value.
fn has_value(rt: &impl Abort, resource: &[u8], value: ValueRef<'_>) -> bool {
    let mut attributes = checked(rt, b"", resource).attributes();
    is_attribute(attributes.next(), "", value) && attributes.next().is_none()
}

/// A resource with one attribute, by the kind of its value, and the value that it is to have.
fn valued(kind: &str) -> (&'static [u8], ValueRef<'static>) {
    match kind {
        "none" => (b"\x0a\x04\x0a\x00\x12\x00", ValueRef::Unset),
        "empty" => (b"\x0a\x04\x12\x02\x0a\x00", ValueRef::String("")),
        "text" => (
            b"\x0a\x06\x12\x04\x0a\x02\xc3\xa4",
            ValueRef::String("\u{e4}"),
        ),
        "false" => (b"\x0a\x04\x12\x02\x10\x00", ValueRef::Bool(false)),
        "true" => (b"\x0a\x04\x12\x02\x10\x01", ValueRef::Bool(true)),
        "int" => (
            b"\x0a\x0d\x12\x0b\x18\xff\xff\xff\xff\xff\xff\xff\xff\xff\x01",
            ValueRef::Int(-1),
        ),
        "double" => (
            b"\x0a\x0b\x12\x09\x21\x01\x00\x00\x00\x00\x00\xf8\x7f",
            ValueRef::Double(DoubleBits([1, 0, 0, 0, 0, 0, 0xf8, 0x7f])),
        ),
        _ => valued_as(kind),
    }
}

/// The same of the other kinds.
fn valued_as(kind: &str) -> (&'static [u8], ValueRef<'static>) {
    match kind {
        "array" => (b"\x0a\x08\x12\x06\x2a\x04\x0a\x02\x18\x07", ValueRef::Array),
        "list" => (b"\x0a\x04\x12\x02\x32\x00", ValueRef::KeyValueList),
        "bytes" => (
            b"\x0a\x06\x12\x04\x3a\x02\xff\x00",
            ValueRef::Bytes(b"\xff\x00"),
        ),
        // The number 7 and then a bool: the first field tells.
        "first" => (b"\x0a\x06\x12\x04\x18\x07\x10\x01", ValueRef::Int(7)),
        // A field that no value knows, and one with another wire type.
        _ => (b"\x0a\x06\x12\x04\x40\x01\x08\x02", ValueRef::Unset),
    }
}

const KINDS: &str = "none empty text false true int double array list bytes first unknown";

#[test]
fn each_kind_of_value_is_told(rt: HostRuntime) {
    for kind in KINDS.split(' ') {
        let (resource, value) = valued(kind);
        assert!(rt; has_value(&rt, resource, value), "{kind}");
    }
}

/// Whether a span tells this trace id and this status, and no span id.
fn tells(rt: &impl Abort, span: &[u8], trace_id: &[u8], status: i32) -> bool {
    let view = checked(rt, span, b"");
    view.trace_id() == trace_id && view.status() == status && view.span_id().is_empty()
}

#[test]
fn what_tells_nothing_is_passed_over(rt: HostRuntime) {
    // No field; a status with a message alone, and one of minus two.
    assert!(rt; tells(&rt, b"", b"", 0) && tells(&rt, b"\x7a\x03\x12\x01m", b"", 0));
    assert!(rt;
        tells(
            &rt,
            b"\x7a\x0b\x18\xfe\xff\xff\xff\xff\xff\xff\xff\xff\x01",
            b"",
            -2
        )
    );
    // The first of two trace ids, behind the number 1 as a varint; and nothing behind a place where no field begins.
    assert!(rt; tells(&rt, b"\x08\x09\x0a\x01\x01\x0a\x01\x02", b"\x01", 0));
    assert!(rt; tells(&rt, b"\x0a\x01\x01\x00\x12\x01\x03", b"\x01", 0));
}

/// A start of 5, an end of 6, and an error.
const START: &[u8] = b"\x39\x05\x00\x00\x00\x00\x00\x00\x00";

const END: &[u8] = b"\x41\x06\x00\x00\x00\x00\x00\x00\x00";

const ERROR: &[u8] = b"\x7a\x02\x18\x02";

/// A span of these pieces of text.
fn joined(rt: &impl Abort, alloc: Global, pieces: &[&[u8]]) -> Vec<u8> {
    let mut span = Vec::new(alloc);
    for piece in pieces {
        span.extend_from_slice(piece).expect(rt, "memory");
    }
    span
}

/// Whether a span tells these times and this status, by one call for each, by one for both times, and by one for all.
fn tells_each(rt: &impl Abort, span: &[u8], start: u64, end: u64, status: i32) -> bool {
    let view = checked(rt, span, b"");
    (view.start(), view.end()) == (start, end)
        && view.times() == (start, end)
        && view.times_and_status() == (start, end, status)
        && view.status() == status
}

/// The same of a span of these pieces.
fn pieces_tell(
    rt: &impl Abort,
    alloc: Global,
    pieces: &[&[u8]],
    start: u64,
    end: u64,
    status: i32,
) -> bool {
    let span = joined(rt, alloc, pieces);
    tells_each(rt, &span, start, end, status)
}

/// Pieces, and the start and the end that they tell: the first of several, wherever it stands.
const TIMES: [(&[&[u8]], u64, u64); 10] = [
    (&[], 0, 0),
    (&[START], 5, 0),
    (&[END], 0, 6),
    (&[START, END], 5, 6),
    (&[END, START], 5, 6),
    (&[END, START, b"\x41\x09\x00\x00\x00\x00\x00\x00\x00"], 5, 6),
    (&[START, b"\x39\x07\x00\x00\x00\x00\x00\x00\x00", END], 5, 6),
    // A field of eight bytes that no span knows, a varint of the start's number, and an end that is cut short.
    (&[START, b"\x49\x01\x00\x00\x00\x00\x00\x00\x00", END], 5, 6),
    (&[b"\x38\x63", START], 5, 0),
    (&[START, b"\x41\x06"], 5, 0),
];

#[test]
fn times_are_told_together(rt: HostRuntime) {
    for (pieces, start, end) in TIMES {
        assert!(rt;
            pieces_tell(&rt, rt.alloc(), pieces, start, end, 0),
            "{start} {end}"
        );
    }
}

/// What stands before a start of 5, between it and an end of 6, and behind that; and the status that it tells: the
/// first, wherever it stands.
const STATUSES: [(&[u8], &[u8], &[u8], i32); 11] = [
    (b"", b"", b"", 0),
    (b"", b"", b"\x7a\x02\x18\x02", 2),
    (b"", b"", b"\x7a\x00", 0),
    (b"", b"", b"\x4a\x00\x4a\x00\x7a\x02\x18\x02", 2),
    (b"", b"", b"\x4a\x00\x50\x01\x4a\x00\x7a\x02\x18\x01", 1),
    (b"", b"", b"\x7a\x02\x18\x01\x7a\x02\x18\x02", 1),
    (b"\x7a\x02\x18\x01", b"", b"\x7a\x02\x18\x02", 1),
    (b"\x7a\x02\x18\x01", b"", b"", 1),
    (b"", b"\x7a\x02\x18\x01", b"\x7a\x02\x18\x02", 1),
    // A varint of the status' number, and an attribute that is cut short, behind which no field begins.
    (b"", b"", b"\x78\x01\x7a\x02\x18\x02", 2),
    (b"", b"", b"\x4a\x7f\x7a\x02\x18\x02", 0),
];

#[test]
fn times_and_status_are_told_together(rt: HostRuntime) {
    for (before, between, behind, status) in STATUSES {
        let pieces = [before, START, between, END, behind];
        assert!(rt;
            pieces_tell(&rt, rt.alloc(), &pieces, 5, 6, status),
            "{status}"
        );
    }
}

/// A span with so many letters, at most 128, behind a front, and then a start of 5, an end of 6 and an error.
fn lettered(rt: &impl Abort, alloc: Global, front: &[u8], count: usize) -> Vec<u8> {
    let letters = [b'a'; 128];
    joined(
        rt,
        alloc,
        &[front, &letters[..count.min(128)], START, END, ERROR],
    )
}

/// What stands before a key of so many bytes in a span's attribute: an attribute of 127 bytes and one of 128, and then
/// keys of 127 and of 128.
const HEADS: [(&[u8], usize); 4] = [
    (b"\x4a\x7f\x0a\x7d", 125),
    (b"\x4a\x80\x01\x0a\x7e", 126),
    (b"\x4a\x81\x01\x0a\x7f", 127),
    (b"\x4a\x83\x01\x0a\x80\x01", 128),
];

/// Whether the first attribute has a key of so many bytes, and is the first field.
fn has_key(view: &SpanRef<'_>, count: usize) -> bool {
    match view.attributes().next() {
        Some((key, _value)) => {
            key.len() == count && tells_attribute(view.fields().next(), key, ValueRef::Unset)
        }
        None => false,
    }
}

/// Whether a span has such a key, and what stands behind it.
fn is_keyed(rt: &impl Abort, alloc: Global, head: &[u8], count: usize) -> bool {
    let span = lettered(rt, alloc, head, count);
    tells_each(rt, &span, 5, 6, 2) && has_key(&checked(rt, &span, b""), count)
}

#[test]
fn short_and_long_keys_are_told_alike(rt: HostRuntime) {
    for (head, count) in HEADS {
        assert!(rt; is_keyed(&rt, rt.alloc(), head, count), "at {count}");
    }
}

/// What stands before a start of 5, an end of 6 and an error: what does so in canonical text, and other fields and
/// orders. Some end with so many letters.
const FRONTS: [(&[u8], usize); 11] = [
    (
        b"\x0a\x01\x01\x12\x01\x02\x1a\x01s\x22\x01\x03\x2a\x01n\x30\x02",
        0,
    ),
    (b"\x0a\x00\x12\x00\x2a\x00\x30\x00", 0),
    (b"\x0a\x01\x01\x30\x7f", 0),
    // A kind of two bytes, and one that holds bytes.
    (b"\x0a\x01\x01\x30\x80\x01", 0),
    (b"\x0a\x01\x01\x32\x01\x39", 0),
    // Two trace ids, a name before them, and a number of one byte in a name's place.
    (b"\x0a\x01\x01\x0a\x01\x02", 0),
    (b"\x2a\x01n\x0a\x01\x01", 0),
    (b"\x0a\x01\x01\x28\x39", 0),
    // The flags.
    (b"\x85\x01\x01\x00\x00\x00", 0),
    // Names of 127 and of 128 bytes.
    (b"\x2a\x7f", 127),
    (b"\x2a\x80\x01", 128),
];

/// Whether a view has these times and an error, field by field.
fn has_times_and_error(view: &SpanRef<'_>, start: u64, end: u64) -> bool {
    let mut fields = view.fields();
    matches!(fields.next(), Some(SpanField::Start(time)) if time == start)
        && matches!(fields.next(), Some(SpanField::End(time)) if time == end)
        && matches!(fields.next(), Some(SpanField::Status(2)))
}

/// Whether a front and letters are passed over.
fn is_passed_over(rt: &impl Abort, alloc: Global, front: &[u8], count: usize) -> bool {
    let span = lettered(rt, alloc, front, count);
    tells_each(rt, &span, 5, 6, 2) && has_times_and_error(&checked(rt, &span, b""), 5, 6)
}

/// Whether nothing is told behind a name that is cut short, behind which no field begins.
fn tells_nothing_behind(rt: &impl Abort, alloc: Global, name: &[u8]) -> bool {
    let span = lettered(rt, alloc, name, 0);
    tells_each(rt, &span, 0, 0, 0) && checked(rt, &span, b"").fields().next().is_none()
}

#[test]
fn what_stands_before_the_times_is_passed_over(rt: HostRuntime) {
    for (front, count) in FRONTS {
        let size = front.len();
        assert!(rt;
            is_passed_over(&rt, rt.alloc(), front, count),
            "behind {size} and {count}"
        );
    }
    assert!(rt; tells_nothing_behind(&rt, rt.alloc(), b"\x2a\x7f"));
}

#[test]
fn strings_that_are_not_utf8_are_found(rt: HostRuntime) {
    let none: &[u8] = b"";
    for (span, resource, expected) in [
        (b"\x4a\x03\x0a\x01\xff".as_slice(), none, false),
        (b"\x4a\x05\x12\x03\x0a\x01\xff".as_slice(), none, false),
        (none, b"\x0a\x03\x0a\x01\xff".as_slice(), false),
        // Bytes, and a name that no view reads.
        (b"\x4a\x05\x12\x03\x3a\x01\xff".as_slice(), none, true),
        (b"\x2a\x01\xff".as_slice(), none, true),
    ] {
        assert!(rt; is_text(span, resource) == expected);
    }
}

#[test]
fn laws_of_views_can_be_called(_rt: HostRuntime) {
    canonical_text_is_viewed();
    equal_values();
}

/// The definitions say of small spans and texts what was worked out by hand.
fn definitions_of_views()
    ensures told { Told }
    ensures canonical { CanonicalTexts }
{}
