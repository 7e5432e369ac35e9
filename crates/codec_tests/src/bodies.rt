//! Bodies of Protocol Buffers' own libraries (tests/otlp).

use crate::listed::parts_of;
use crate::texts::{bytes_of, ensure, words};
use otlp_canonical::is_request_text;
use otlp_vectors::{FAULTS, VECTORS};
use std::alloc::Global;
use std::process::Abort;

/// Whether the bytes that these digits spell are canonical.
fn is_canonical(rt: &impl Abort, alloc: Global, digits: &str) -> bool {
    let body = bytes_of(rt, alloc, digits);
    is_request_text(body.as_slice())
}

/// Whether a vector's canonical text is canonical, and its body where it is that text.
fn is_so(rt: &impl Abort, alloc: Global, line: &str) -> bool {
    let (_name, body, canonical) = words(rt, line);
    is_canonical(rt, alloc, canonical) && is_canonical(rt, alloc, body) == (body == canonical)
}

#[test]
fn a_body_is_canonical_where_it_is_its_canonical_text(rt: HostRuntime) {
    assert_eq!(rt; VECTORS.lines().count(), 195);
    for line in VECTORS.lines() {
        ensure(&rt, is_so(&rt, rt.alloc(), line), line);
    }
}

/// Whether the line's body isn't canonical, and has no parts for its fault.
fn is_refused(rt: &impl Abort, alloc: Global, line: &str) -> bool {
    let (_name, number, body) = words(rt, line);
    let body = bytes_of(rt, alloc, body);
    let told = parts_of(rt, alloc, body.as_slice());
    let refused = told.as_str().strip_prefix("fault_") == Some(number);
    refused && !is_request_text(body.as_slice())
}

#[test]
fn faulty_bodies_are_refused_for_their_fault(rt: HostRuntime) {
    assert_eq!(rt; FAULTS.lines().count(), 80);
    for line in FAULTS.lines() {
        ensure(&rt, is_refused(&rt, rt.alloc(), line), line);
    }
}
