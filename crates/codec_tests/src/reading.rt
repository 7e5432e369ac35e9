//! What messages are read to, which is told by what is printed of them for debugging, and replies.

use crate::canonical::SPAN;
use crate::texts::{bytes_of, ensure};
use otlp_read::{
    Partial, ReadFault, attribute_values_inside, messages_inside, read_resource,
    read_resource_spans, read_response, read_scope_spans, read_span, responses_or_faults,
    values_are_sound, values_or_faults,
};
use otlp_trace::Span;
use std::alloc::{AllocError, Global};
use std::process::Abort;

/// What `SPAN` is read to.
const SPAN_FIELDS: &str = "\
Span { trace_id: [49, 50], span_id: [51], trace_state: \"a=b\", parent_span_id: [52], name: \"n\", kind: 2, \
start_time_unix_nano: 1, end_time_unix_nano: 2, attributes: Repeated { values: [KeyValue { key: \"k\", value: \
Some(AnyValue { kind: Bool(true), unknown: [] }), unknown: [] }] }, dropped_attributes_count: 5, events: \
Repeated { values: [Event { time_unix_nano: 3, name: \"e\", attributes: Repeated { values: [KeyValue { key: \
\"\", value: None, unknown: [] }] }, dropped_attributes_count: 6, unknown: [] }] }, dropped_events_count: 7, \
links: Repeated { values: [Link { trace_id: [53], span_id: [54], trace_state: \"7=\", attributes: Repeated { \
values: [KeyValue { key: \"\", value: None, unknown: [] }] }, dropped_attributes_count: 8, flags: 9, unknown: \
[] }] }, dropped_links_count: 10, status: Some(Status { message: \"m\", code: 2, unknown: [] }), flags: 11, \
unknown: [] }";

#[test]
fn each_field_of_a_span(rt: HostRuntime) {
    let span = read_span(rt.alloc(), &SPAN, 98).expect(&rt, "a span");
    let told = format!(in rt.alloc(); "{span:?}").expect(&rt, "memory");
    assert_eq!(rt; told.as_str(), SPAN_FIELDS);
}

/// A field that isn't known, of which nothing stays, a scope, a span and a schema.
const SCOPE_SPANS: &[u8] = b"\x20\x01\x0a\x0a\x0a\x01s\x12\x01v\x1a\x00\x20\x03\x12\x00\x1a\x01u";

/// What it is read to.
const SCOPE_SPANS_FIELDS: &str = "\
ScopeSpans { scope: Some(InstrumentationScope { name: \"s\", version: \"v\", attributes: Repeated { values: \
[KeyValue { key: \"\", value: None, unknown: [] }] }, dropped_attributes_count: 3, unknown: [] }), spans: \
Repeated { values: [Span { trace_id: [], span_id: [], trace_state: \"\", parent_span_id: [], name: \"\", kind: \
0, start_time_unix_nano: 0, end_time_unix_nano: 0, attributes: Repeated { values: [] }, \
dropped_attributes_count: 0, events: Repeated { values: [] }, dropped_events_count: 0, links: Repeated { \
values: [] }, dropped_links_count: 0, status: None, flags: 0, unknown: [] }] }, schema_url: \"u\" }";

#[test]
fn each_field_of_scope_spans(rt: HostRuntime) {
    let group = read_scope_spans(rt.alloc(), SCOPE_SPANS, 99).expect(&rt, "scope spans");
    let told = format!(in rt.alloc(); "{group:?}").expect(&rt, "memory");
    assert_eq!(rt; told.as_str(), SCOPE_SPANS_FIELDS);
}

/// A resource in two pieces, a scope spans and a schema.
const RESOURCE_SPANS: &[u8] = b"\x0a\x04\x10\x04\x0a\x00\x0a\x02\x0a\x00\x12\x00\x1a\x01w";

/// What it is read to.
const RESOURCE_SPANS_FIELDS: &str = "\
ResourceSpans { resource: Some(Resource { attributes: Repeated { values: [KeyValue { key: \"\", value: None, \
unknown: [] }, KeyValue { key: \"\", value: None, unknown: [] }] }, dropped_attributes_count: 4, unknown: [] \
}), scope_spans: Repeated { values: [ScopeSpans { scope: None, spans: Repeated { values: [] }, schema_url: \"\" \
}] }, schema_url: \"w\" }";

#[test]
fn each_field_of_resource_spans(rt: HostRuntime) {
    let group = read_resource_spans(rt.alloc(), RESOURCE_SPANS, 100).expect(&rt, "resource spans");
    let told = format!(in rt.alloc(); "{group:?}").expect(&rt, "memory");
    assert_eq!(rt; told.as_str(), RESOURCE_SPANS_FIELDS);
}

/// Resources with one attribute, a line each, and its value, between what stands before it and behind.
const VALUES: &str = "\
0a021200 Unset, unknown: [\n\
0a0412020a00 String(\"\"), unknown: [\n\
0a0412021002 Bool(true), unknown: [\n\
0a0d120b18feffffffffffffffff01 Int(-2), unknown: [\n\
0a0b120921010000000000f87f Double(DoubleBits([1, 0, 0, 0, 0, 0, 248, 127])), unknown: [\n\
0a0b1209210000000000000080 Double(DoubleBits([0, 0, 0, 0, 0, 0, 0, 128])), unknown: [\n\
0a0512033a01ff Bytes([255]), unknown: [\n\
# Of two members the last counts.\n\
0a06120410011805 Int(5), unknown: [\n\
# Arrays and lists are merged, but where another member stands between.\n\
0a0c120a2a020a002a040a021001 Array(ArrayValue { values: [AnyValue { kind: Unset, unknown: [] }, AnyValue { \
kind: Bool(true), unknown: [] }], unknown: [] }), unknown: [\n\
0a0e120c2a020a0010012a040a021001 Array(ArrayValue { values: [AnyValue { kind: Bool(true), unknown: [] }], \
unknown: [] }), unknown: [\n\
0a0d120b32020a0032050a030a016b KeyValueList(KeyValueList { values: [KeyValue { key: \"\", value: None, unknown: \
[] }, KeyValue { key: \"k\", value: None, unknown: [] }], unknown: [] }), unknown: [\n\
# A field that no value has, and a bool that is bytes, are kept.\n\
0a0912074a01ff10011200 Bool(true), unknown: [74, 1, 255, 18, 0";

const BEFORE: &str =
    "Resource { attributes: Repeated { values: [KeyValue { key: \"\", value: Some(AnyValue { kind: ";

const BEHIND: &str = "] }), unknown: [] }] }, dropped_attributes_count: 0, unknown: [] }";

/// Whether a line's value is read so.
fn is_read_so(rt: &impl Abort, alloc: Global, line: &str) -> bool {
    let (digits, wanted) = line.split_once(' ').expect(rt, "a line of two words");
    let text = bytes_of(rt, alloc, digits);
    let resource = read_resource(alloc, text.as_slice(), 99).expect(rt, "a resource");
    let told = format!(in alloc; "{resource:?}").expect(rt, "memory");
    let wanted = format!(in alloc; "{BEFORE}{wanted}{BEHIND}").expect(rt, "memory");
    told.as_str() == wanted.as_str()
}

#[test]
fn values_of_attributes(rt: HostRuntime) {
    for line in VALUES.lines() {
        if !line.starts_with('#') {
            ensure(&rt, is_read_so(&rt, rt.alloc(), line), line);
        }
    }
}

/// 4 KB of unknown fields: the number 129 in the field 99, 1,024 times.
fn many(alloc: Global) -> Result<Vec<u8>, AllocError> {
    let mut many = Vec::new(alloc);
    for _ in 0..1024 {
        many.extend_from_slice(b"\x98\x06\x81\x01")?;
    }
    Ok(many)
}

/// Whether a span keeps the fields of a text as unknown ones.
fn is_unknown(rt: &impl Abort, alloc: Global, text: &[u8]) -> bool {
    let span = read_span(alloc, text, 98).expect(rt, "a span");
    text.len() == 4096 && span.unknown.as_slice() == text
}

#[test]
fn many_unknown_fields(rt: HostRuntime) {
    let many = many(rt.alloc()).expect(&rt, "memory");
    assert!(rt; is_unknown(&rt, rt.alloc(), many.as_slice()));
}

/// What a reply's body is read as.
fn reply_is(body: &[u8], rejected_spans: i64, error_message: &str) -> bool {
    read_response(body)
        == Ok(Some(Partial {
            rejected_spans,
            error_message,
        }))
}

#[test]
fn replies(rt: HostRuntime) {
    assert!(rt; read_response(b"") == Ok(None));
    assert!(rt; reply_is(b"\x0a\x00", 0, ""));
    // Two pieces, the second with a field that isn't known.
    let pieces = b"\x0a\x0b\x08\xff\xff\xff\xff\xff\xff\xff\xff\xff\x01\x0a\x06\x18\x01\x12\x02hi";
    assert!(rt; reply_is(pieces, -1, "hi"));
    assert!(rt; read_response(b"\x0a\x03\x12\x01\xff") == Err(ReadFault::NotUtf8));
    assert!(rt; read_response(b"\x0a\x01") == Err(ReadFault::Truncated));
    assert!(rt; ReadFault::OutOfMemory.number() == None);
}

#[test]
fn laws() {
    values_or_faults();
    responses_or_faults();
    messages_inside::<Span>();
    attribute_values_inside();
    values_are_sound();
}
