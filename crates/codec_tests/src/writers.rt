//! Writers of parts of a message, replies, and lists.

use otlp_trace::{
    ExportTracePartialSuccess, ExportTraceServiceResponse, Octets, Repeated, put_bytes_field,
    put_some_bytes, wrap_in_field, write_response, write_status,
};
use std::alloc::Global;
use std::process::Abort;

/// Whether a reply that tells of a partial success, or of none, is written so.
fn is_written(
    rt: &impl Abort,
    alloc: Global,
    partial_success: Option<ExportTracePartialSuccess>,
    text: &[u8],
) -> bool {
    let mut out = Vec::new(alloc);
    let response = ExportTraceServiceResponse { partial_success };
    write_response(alloc, &mut out, &response).expect(rt, "memory");
    out.as_slice() == text
}

/// Two spans that were rejected, with a message.
fn two_rejected(rt: &impl Abort, alloc: Global) -> ExportTracePartialSuccess {
    ExportTracePartialSuccess {
        rejected_spans: 2,
        error_message: String::from_str(alloc, "a").expect(rt, "memory"),
    }
}

#[test]
fn replies(rt: HostRuntime) {
    let alloc = rt.alloc();
    assert!(rt; is_written(&rt, alloc, None, b""));
    let text = b"\x0a\x05\x08\x02\x12\x01a";
    assert!(rt; is_written(&rt, alloc, Some(two_rejected(&rt, alloc)), text));
}

#[test]
fn what_stands_there_already_stays(rt: HostRuntime) {
    let alloc = rt.alloc();
    let mut out = Vec::new(alloc);
    out.push(0xff).expect(&rt, "memory");
    write_status(alloc, &mut out, "bad protobuf").expect(&rt, "memory");
    assert!(rt; out.as_slice() == b"\xff\x12\x0cbad protobuf".as_slice());
}

/// Appends a text, an empty one, and a field around another text.
fn put_texts(rt: &impl Abort, out: &mut Vec<u8>) {
    put_bytes_field(out, 1, b"ab").expect(rt, "memory");
    put_bytes_field(out, 2, b"").expect(rt, "memory");
    let start = out.len();
    put_some_bytes(out, 2, b"").expect(rt, "memory");
    put_some_bytes(out, 3, b"c").expect(rt, "memory");
    wrap_in_field(out, start, 16).expect(rt, "memory");
}

#[test]
fn fields_around_texts(rt: HostRuntime) {
    let mut out = Vec::new(rt.alloc());
    put_texts(&rt, &mut out);
    // Number 16 with wire type 2 is 130, a tag of two bytes.
    let text = b"\x0a\x02ab\x12\x00\x82\x01\x03\x1a\x01c";
    assert!(rt; out.as_slice() == text.as_slice());
}

/// Octets of these bytes.
fn octets_of(rt: &impl Abort, alloc: Global, bytes: &[u8]) -> Octets {
    Octets::from_slice(alloc, bytes).expect(rt, "memory")
}

/// Whether octets are equal to others of these bytes.
fn are_octets_of(rt: &impl Abort, alloc: Global, octets: &Octets, bytes: &[u8]) -> bool {
    *octets == octets_of(rt, alloc, bytes)
}

fn are_as_their_copy(rt: &impl Abort, octets: &Octets) -> bool {
    *octets == octets.clone().expect(rt, "memory")
}

/// Whether octets are the bytes that they were made of, equal by these alone, and none at first.
fn are_octets(rt: &impl Abort, alloc: Global, octets: &Octets) -> bool {
    octets.as_slice() == b"ab".as_slice()
        && are_as_their_copy(rt, octets)
        && !are_octets_of(rt, alloc, octets, b"ba")
        && Octets::new(alloc).as_slice().is_empty()
}

/// The same of a list of numbers.
fn are_numbers(rt: &impl Abort, alloc: Global, numbers: &Repeated<u8>) -> bool {
    numbers.as_slice() == b"ab".as_slice()
        && are_numbers_of(rt, alloc, numbers, b"ab")
        && !are_numbers_of(rt, alloc, numbers, b"a")
        && Repeated::<u8>::new(alloc).as_slice().is_empty()
}

fn are_numbers_of(rt: &impl Abort, alloc: Global, numbers: &Repeated<u8>, bytes: &[u8]) -> bool {
    *numbers == Repeated::from_vec(octets_of(rt, alloc, bytes).into_vec())
}

#[test]
fn lists(rt: HostRuntime) {
    let alloc = rt.alloc();
    let bytes = Octets::from_vec(octets_of(&rt, alloc, b"ab").into_vec());
    assert!(rt; are_octets(&rt, alloc, &bytes));
    let numbers = Repeated::from_vec(bytes.into_vec());
    // The list is let go of whole.
    assert!(rt; are_numbers(&rt, alloc, &numbers) && numbers.into_vec().len() == 2);
}
