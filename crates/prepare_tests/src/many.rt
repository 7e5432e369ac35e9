//! Bodies of many spans, which are told apart by their ids.

ghost use Rattle.std.specs.Prelude.{◌<◌, ◌≤◌};

use crate::listed::TENANT;
use crate::sections::{THREE, section_of};
use bytes::Bytes;
use otlp_prepare::prepare;
use otlp_trace::put_bytes_field;
use std::alloc::Global;
use std::process::Abort;
use std::thread::Threads;
use tail_settings::Section;

/// A resource with an attribute `a` whose value is the string `w`.
const RESOURCE: &[u8] = b"\x0a\x08\x0a\x01a\x12\x03\x0a\x01w";

/// A span with this id, in one of eight traces, which ends after 7 ms if its id is odd.
fn span(rt: &impl Abort, alloc: Global, id: u8) -> Vec<u8> {
    let mut text = Vec::new(alloc);
    put_bytes_field(&mut text, 1, &[id % 8 + 1; 16]).expect(rt, "memory");
    put_bytes_field(&mut text, 2, &[id; 8]).expect(rt, "memory");
    let start = b"\x39\x01\x00\x00\x00\x00\x00\x00\x00\x41";
    text.extend_from_slice(start).expect(rt, "memory");
    let end: u64 = if id % 2 == 1 { 7_000_001 } else { 1 };
    text.extend_from_slice(&end.to_le_bytes())
        .expect(rt, "memory");
    text
}

/// The span with this id, with an empty name first where 50 divides the id evenly, so that its text isn't canonical.
fn span_of(rt: &impl Abort, alloc: Global, id: u8) -> Vec<u8> {
    let span = span(rt, alloc, id);
    if id % 50 != 0 {
        return span;
    }
    let mut text = Vec::from_slice(alloc, b"\x2a\x00").expect(rt, "memory");
    text.extend_from_slice(span.as_slice()).expect(rt, "memory");
    text
}

/// A scope spans of these many spans, from this id on.
fn scope_of(rt: &impl Abort, alloc: Global, first: u8, count: u8) -> Vec<u8> {
    let mut text = Vec::new(alloc);
    for more in 0..count {
        let span = span_of(rt, alloc, first.saturating_add(more));
        put_bytes_field(&mut text, 2, span.as_slice()).expect(rt, "memory");
    }
    text
}

/// A resource spans of two scopes of so many spans each.
fn group_of(rt: &impl Abort, alloc: Global, count: u8) -> Vec<u8> {
    let first = scope_of(rt, alloc, 1, count);
    let second = scope_of(rt, alloc, 120, count);
    let mut group = Vec::new(alloc);
    put_bytes_field(&mut group, 1, RESOURCE).expect(rt, "memory");
    put_bytes_field(&mut group, 2, first.as_slice()).expect(rt, "memory");
    put_bytes_field(&mut group, 2, second.as_slice()).expect(rt, "memory");
    group
}

/// A body in which a resource stands so many times, with two scopes of so many spans each.
fn body_of(rt: &impl Abort, alloc: Global, count: u8, times: u32) -> Vec<u8> {
    let group = group_of(rt, alloc, count);
    let mut body = Vec::new(alloc);
    for _ in 0..times {
        put_bytes_field(&mut body, 1, group.as_slice()).expect(rt, "memory");
    }
    body
}

/// In so many threads the body is prepared as in one.
fn assert_same<R: Threads + Abort + Sync>(
    rt: &R,
    alloc: Global,
    section: &Section,
    body: &[u8],
    parts: u32,
)
    requires { (0 < parts) × (parts ≤ 16) }
{
    let text = Bytes::copy_from_slice(alloc, body).expect(rt, "memory");
    let again = text.clone().expect(rt, "memory");
    let one = prepare(rt, alloc, TENANT, section, again, 1).expect(rt, "a good body");
    let other = prepare(rt, alloc, TENANT, section, text, parts).expect(rt, "a good body");
    assert!(rt; one == other);
}

/// The same in 1, 2 and 16 threads of a body in which a resource stands so many times, with so many spans a scope.
fn assert_same_in_parts<R: Threads + Abort + Sync>(
    rt: &R,
    alloc: Global,
    section: &Section,
    count: u8,
    times: u32,
) {
    let body = body_of(rt, alloc, count, times);
    for parts in [1u32, 2, 16] {
        assert_same(rt, alloc, section, body.as_slice(), parts);
    }
}

#[test]
fn many_spans_in_several_threads(rt: HostRuntime) {
    let section = section_of(&rt, rt.alloc(), THREE);
    // None, as many as one thread notes, and so many that there are others.
    for (count, times) in [(0, 1), (1, 1), (3, 1), (100, 3)] {
        assert_same_in_parts(&rt, rt.alloc(), &section, count, times);
    }
}
