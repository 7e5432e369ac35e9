//! What batches are sent as. Bytes were put together by hand, by the numbers of the fields in opentelemetry-proto's
//! trace.proto and trace_service.proto and the encoding guide of Protocol Buffers.

ghost use Rattle.processor_tests.specs.BatchTexts.{Requests, ReadablePlaces};

use crate::lines::{cut, parts, small};
use span_batcher::{BatchText, batches_are_requests};
use span_pool::{SharedKeys, StoredSpan, TextKeys};
use std::alloc::Global;
use std::process::Abort;
use text_pool::{SharedBytes, TextPool};
use text_slice::TextSlice;

/// Resources of which one and two attributes were left out: field 2; a scope named s: field 1; URLs, and an empty text.
fn text_of(rt: &impl Abort, alloc: Global, name: &str) -> SharedBytes {
    let bytes: &[u8] = match name {
        "one" => b"\x10\x01",
        "two" => b"\x10\x02",
        "s" => b"\x0a\x01s",
        "u" => b"u",
        "v" => b"v",
        _ => b"",
    };
    let text = TextSlice::copy_from_slice(alloc, bytes).expect(rt, "memory");
    SharedBytes::of(alloc, text).expect(rt, "memory")
}

/// The key of the tenant's text of this name.
fn held(rt: &impl Abort, alloc: Global, pool: &mut TextPool, owner: u32, name: &str) -> u32 {
    let text = text_of(rt, alloc, name);
    pool.hold(owner, &text).expect(rt, "memory")
}

/// The key of a tenant's text: of one that it has, of another tenant's, of none; or no key.
fn key(rt: &impl Abort, alloc: Global, pool: &mut TextPool, owner: u32, name: &str) -> Option<u32> {
    match name {
        "-" => None,
        "others" => Some(held(rt, alloc, pool, 9, "one")),
        "gone" => Some(1000),
        _ => Some(held(rt, alloc, pool, owner, name)),
    }
}

/// A span by its name: field 5.
fn named(name: &str) -> &'static [u8] {
    match name {
        "a" => b"\x2a\x01a",
        "b" => b"\x2a\x01b",
        _ => b"\x2a\x01c",
    }
}

/// A span as `7:a:one:u:s:v` spells it: whose it is, its name, and a resource and a scope, each with the URL of its
/// schema.
fn spelled(rt: &impl Abort, alloc: Global, pool: &mut TextPool, word: &str) -> StoredSpan {
    let [owner, name, resource, resource_url, scope, scope_url, _] = parts(word, ':');
    let owner = small(owner);
    let keys = TextKeys {
        resource: key(rt, alloc, pool, owner, resource),
        resource_schema_url: key(rt, alloc, pool, owner, resource_url),
        scope: key(rt, alloc, pool, owner, scope),
        scope_schema_url: key(rt, alloc, pool, owner, scope_url),
    };
    let source = SharedKeys::of(alloc, owner, keys).expect(rt, "memory");
    let text = TextSlice::copy_from_slice(alloc, named(name)).expect(rt, "memory");
    StoredSpan::of(source, text)
}

fn all_spelled(rt: &impl Abort, alloc: Global, pool: &mut TextPool, text: &str) -> Vec<StoredSpan> {
    let mut spans = Vec::new(alloc);
    for word in text.split(' ') {
        let span = spelled(rt, alloc, pool, word);
        spans.push(span).expect(rt, "memory");
    }
    spans
}

/// Whether the batch of these spans has these bytes, and says how many they are before it is written.
fn is_batch(
    rt: &impl Abort,
    alloc: Global,
    pool: &TextPool,
    spans: &[StoredSpan],
    bytes: &[u8],
) -> bool {
    let mut lent = Vec::new(alloc);
    for span in spans {
        lent.push(span).expect(rt, "memory");
    }
    let batch = BatchText::of(alloc, pool, lent.as_slice()).expect(rt, "memory");
    let written = batch.write(alloc).expect(rt, "memory");
    batch.size() == bytes.len() && written.as_slice() == bytes
}

/// Whether these spans are sent as these bytes.
fn are_sent_as(rt: &impl Abort, alloc: Global, text: &str, bytes: &[u8]) -> bool {
    let mut pool = TextPool::new(alloc);
    let spans = all_spelled(rt, alloc, &mut pool, text);
    is_batch(rt, alloc, &pool, spans.as_slice(), bytes)
}

/// The bytes of a batch by a name.
fn bytes_of(name: &str) -> &'static [u8] {
    match name {
        // Resource spans of 21 bytes with scope spans of 15, and of 16 bytes with scope spans of 10.
        "neighbours" => {
            b"\x0a\x15\x0a\x02\x10\x01\x12\x0f\x0a\x03\x0a\x01s\x12\x03\x2a\x01a\x12\x03\x2a\x01b\
\x0a\x10\x0a\x02\x10\x02\x12\x0a\x0a\x03\x0a\x01s\x12\x03\x2a\x01c"
        }
        // Three resource spans of 16 bytes with scope spans of 10.
        "apart" => {
            b"\x0a\x10\x0a\x02\x10\x01\x12\x0a\x0a\x03\x0a\x01s\x12\x03\x2a\x01a\
\x0a\x10\x0a\x02\x10\x02\x12\x0a\x0a\x03\x0a\x01s\x12\x03\x2a\x01c\
\x0a\x10\x0a\x02\x10\x01\x12\x0a\x0a\x03\x0a\x01s\x12\x03\x2a\x01b"
        }
        // One of 16 bytes, and one with 3 more for the URL of its schema.
        "schemas" => {
            b"\x0a\x10\x0a\x02\x10\x01\x12\x0a\x0a\x03\x0a\x01s\x12\x03\x2a\x01a\
\x0a\x13\x0a\x02\x10\x01\x12\x0a\x0a\x03\x0a\x01s\x12\x03\x2a\x01b\x1a\x01u"
        }
        _ => bytes_of_scopes(name),
    }
}

/// Those of scopes, and of what isn't there.
fn bytes_of_scopes(name: &str) -> &'static [u8] {
    match name {
        // Resource spans of 41 bytes, 3 of them for the URL of its schema, with scope spans of 13, 10 and 5 bytes.
        "scopes" => {
            b"\x0a\x29\x0a\x02\x10\x01\x12\x0d\x0a\x03\x0a\x01s\x12\x03\x2a\x01a\x1a\x01v\
\x12\x0a\x0a\x03\x0a\x01s\x12\x03\x2a\x01b\x12\x05\x12\x03\x2a\x01c\x1a\x01u"
        }
        // One resource spans for the three, of 17 bytes, with scope spans of 15.
        "missing" => { b"\x0a\x11\x12\x0f\x12\x03\x2a\x01a\x12\x03\x2a\x01b\x12\x03\x2a\x01c" }
        // One resource spans for the three, of 26 bytes, with scope spans of 20.
        "blocks" => {
            b"\x0a\x1a\x0a\x02\x10\x01\x12\x14\x0a\x03\x0a\x01s\x12\x03\x2a\x01a\
\x12\x03\x2a\x01b\x12\x03\x2a\x01c"
        }
        // A missing resource, and an empty one of two bytes.
        "empty" => b"\x0a\x07\x12\x05\x12\x03\x2a\x01a\x0a\x09\x0a\x00\x12\x05\x12\x03\x2a\x01b",
        // One resource spans for the three, of 21 bytes, with scope spans of 15.
        _ => {
            b"\x0a\x15\x0a\x02\x10\x01\x12\x0f\x12\x03\x2a\x01a\x12\x03\x2a\x01b\x12\x03\x2a\x01c"
        }
    }
}

/// Spans, and the bytes of their batch. Neighbours of one resource and schema stand together, and in them those of one
/// scope and schema, under whichever keys; where the tenant has no text there is none.
const BATCHES: &str = "\
7:a:one:-:s:- 7:b:one:-:s:- 7:c:two:-:s:- = neighbours
7:a:one:-:s:- 7:c:two:-:s:- 7:b:one:-:s:- = apart
7:a:one:-:s:- 7:b:one:u:s:- = schemas
7:a:one:u:s:v 7:b:one:u:s:- 7:c:one:u:-:e = scopes
7:a:-:-:-:- 7:b:-:e:-:- 7:c:gone:-:-:- = missing
7:a:-:-:-:- 7:b:-:gone:-:- 7:c:others:others:-:- = missing
7:a:-:-:-:- 7:b:e:e:-:- = empty
7:a:one:-:s:- 7:b:one:-:s:- 8:c:one:-:s:- = blocks
7:a:one:-:-:- 8:b:one:-:-:- 7:c:one:-:-:- = keys";

#[test]
fn spans_are_sent_with_their_resources_and_scopes(rt: HostRuntime) {
    for line in BATCHES.lines() {
        let (spans, name) = cut(line, " = ");
        assert!(rt;
            are_sent_as(&rt, rt.alloc(), spans, bytes_of(name)),
            "at {line}"
        );
    }
}

#[test]
fn no_spans_are_no_bytes(rt: HostRuntime) {
    let pool = TextPool::new(rt.alloc());
    let spans: [StoredSpan; 0] = [];
    assert!(rt; is_batch(&rt, rt.alloc(), &pool, spans.as_slice(), b""));
    batches_are_requests();
}

/// The definitions, on small inputs, give what was worked out by hand.
fn definitions_of_requests()
    ensures requests { Requests }
    ensures readable_places { ReadablePlaces }
{}
