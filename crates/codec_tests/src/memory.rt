//! Whose memory parts have.

use bytes::Bytes;
use otlp_parts::{BodyParts, read_parts};
use std::alloc::Global;
use std::process::Abort;
use text_slice::TextSlice;

/// A body of 34 bytes: one span of 28, which is valid and canonical.
const SPAN: [u8; 34] = *b"\x0a\x20\x12\x1e\x12\x1c\
    \x0a\x10\x01\x02\x03\x04\x05\x06\x07\x08\x09\x0a\x0b\x0c\x0d\x0e\x0f\x10\
    \x12\x08\x01\x02\x03\x04\x05\x06\x07\x08";

/// A body of these pieces.
fn joined(rt: &impl Abort, alloc: Global, pieces: &[&[u8]]) -> Bytes {
    let mut body = Vec::new(alloc);
    for piece in pieces {
        body.extend_from_slice(piece).expect(rt, "memory");
    }
    Bytes::from_vec(body).expect(rt, "memory")
}

/// The body with a field behind it that a request drops, of so many bytes, a hundred at most, and the two of its tag
/// and length.
fn with_dropped(rt: &impl Abort, alloc: Global, count: u8) -> Bytes {
    let dropped = [0x2e_u8; 100];
    joined(
        rt,
        alloc,
        &[
            &SPAN,
            &[0x7a, count],
            &dropped[..usize::from(count).min(100)],
        ],
    )
}

/// The parts of the body, which alone hold it beside the caller.
fn read(rt: &impl Abort, alloc: Global, body: &Bytes) -> BodyParts {
    let body = body.clone().expect(rt, "memory");
    let text = TextSlice::of(alloc, body).expect(rt, "memory");
    read_parts(alloc, &text).expect(rt, "parts of a body")
}

/// How many bytes of the body's parts are slices of it, which hold it where there are any.
fn sliced(rt: &impl Abort, alloc: Global, body: &Bytes) -> usize {
    let parts = read(rt, alloc, body);
    assert!(rt;
        body.is_unique() == (parts.sliced == 0),
        "the body is held without slices of it, or not held by them"
    );
    parts.sliced
}

/// Whether so many bytes of the body's parts are slices of it, and it is let go with its parts.
fn is_sliced(rt: &impl Abort, alloc: Global, body: &Bytes, slices: usize) -> bool {
    sliced(rt, alloc, body) == slices && body.is_unique()
}

/// The same of the body with a field behind it that is dropped.
fn is_sliced_before(rt: &impl Abort, alloc: Global, dropped: u8, slices: usize) -> bool {
    let body = with_dropped(rt, alloc, dropped);
    is_sliced(rt, alloc, &body, slices)
}

#[test]
fn slices_make_up_half_of_what_they_hold(rt: HostRuntime) {
    // A span of 28 bytes, in bodies of 36, of 56, of 57 and of 136.
    for (dropped, slices) in [(0u8, 28), (20, 28), (21, 0), (100, 0)] {
        assert!(rt; is_sliced_before(&rt, rt.alloc(), dropped, slices));
    }
}

/// Bodies of a resource, a scope and a span of 60 bytes of text and more, each of which ends in a default that its
/// canonical text leaves out, beside the span of 28 bytes.
const WRITTEN: [(&[u8], &[u8]); 3] = [
    (
        b"\x0a\x64\x0a\x42\x0a\x3e\x0a\x3c",
        b"\x10\x00\x12\x1e\x12\x1c",
    ),
    (b"\x0a\x62\x12\x60\x0a\x40\x0a\x3c", b"\x20\x00\x12\x1c"),
    (
        b"\x0a\x7e\x12\x7c\x12\x5c\x0a\x10................\x12\x08........\x2a\x3c",
        b"\x30\x00\x12\x1c",
    ),
];

/// Whether no slice is of a body whose long message has to be written anew, with the span behind it.
fn is_written_anew(rt: &impl Abort, alloc: Global, front: &[u8], back: &[u8]) -> bool {
    let body = joined(rt, alloc, &[front, &[0x2e; 60], back, &SPAN[6..]]);
    is_sliced(rt, alloc, &body, 0)
}

/// What is written of a message isn't a slice, however long it is: what is left of slices is less than half.
#[test]
fn what_is_written_is_no_slice(rt: HostRuntime) {
    for (front, back) in WRITTEN {
        assert!(rt; is_written_anew(&rt, rt.alloc(), front, back));
    }
}
