//! What Protocol Buffers' own libraries make of the same bodies (tests/otlp).

use crate::lines::ensure;
use otlp_read::{ReadFault, read_request, read_response};
use otlp_trace::{
    ExportTracePartialSuccess, ExportTraceServiceRequest, ExportTraceServiceResponse,
    write_request, write_response,
};
use otlp_vectors::{FAULTS, RESPONSES, VECTORS};
use std::alloc::{AllocError, Global};
use std::process::Abort;

/// A line's three words.
fn words(line: &str) -> Option<(&str, &str, &str)> {
    let (name, rest) = line.split_once(' ')?;
    let (second, third) = rest.split_once(' ')?;
    Some((name, second, third))
}

/// The bytes that these digits spell, none for `-`.
fn bytes(rt: &impl Abort, alloc: Global, digits: &str) -> Vec<u8> {
    if digits == "-" {
        return Vec::new(alloc);
    }
    hex::decode(alloc, digits).expect(rt, "hexadecimal digits")
}

/// The digits of these bytes, `-` for none.
fn digits(alloc: Global, bytes: &[u8]) -> Result<String, AllocError> {
    if bytes.is_empty() {
        return String::from_str(alloc, "-");
    }
    hex::encode(alloc, bytes)
}

/// The digits of a request's canonical text.
fn written(rt: &impl Abort, alloc: Global, request: &ExportTraceServiceRequest) -> String {
    let mut out = Vec::new(alloc);
    write_request(alloc, &mut out, request).expect(rt, "memory");
    digits(alloc, out.as_slice()).expect(rt, "memory")
}

/// A fault's number as a text.
fn number_of(rt: &impl Abort, alloc: Global, fault: ReadFault) -> String {
    let Some(number) = fault.number() else {
        panic!(rt; "memory: OutOfMemory");
    };
    format!(in alloc; "{number}").expect(rt, "memory")
}

/// The digits of the canonical text of what a body is read as, or of the fault's number.
fn answer(rt: &impl Abort, alloc: Global, body: &[u8]) -> String {
    match read_request(alloc, body) {
        Ok(request) => written(rt, alloc, &request),
        Err(fault) => number_of(rt, alloc, fault),
    }
}

/// What a reply's body is read as.
fn response(rt: &impl Abort, alloc: Global, body: &[u8]) -> ExportTraceServiceResponse {
    let partial_success = match read_response(body).expect(rt, "a reply") {
        Some(partial) => Some(ExportTracePartialSuccess {
            rejected_spans: partial.rejected_spans,
            error_message: String::from_str(alloc, partial.error_message).expect(rt, "memory"),
        }),
        None => None,
    };
    ExportTraceServiceResponse { partial_success }
}

/// The digits of the canonical text of what a reply's body is read as.
fn reply(rt: &impl Abort, alloc: Global, body: &[u8]) -> String {
    let response = response(rt, alloc, body);
    let mut out = Vec::new(alloc);
    write_response(alloc, &mut out, &response).expect(rt, "memory");
    digits(alloc, out.as_slice()).expect(rt, "memory")
}

/// Whether a request's body is read as its canonical text or a fault's number says.
fn is_read(rt: &impl Abort, alloc: Global, body: &str, wanted: &str) -> bool {
    let body = bytes(rt, alloc, body);
    let answer = answer(rt, alloc, body.as_slice());
    answer.as_str() == wanted
}

/// Whether a reply's body is read as its canonical text says.
fn is_reply(rt: &impl Abort, alloc: Global, body: &str, wanted: &str) -> bool {
    let body = bytes(rt, alloc, body);
    let reply = reply(rt, alloc, body.as_slice());
    reply.as_str() == wanted
}

/// A table of bodies, a line each, of three words.
#[derive(Clone, Copy)]
enum Table {
    /// A name, a request's body, and its canonical text.
    Requests,
    /// A name, a fault's number, and a request's body.
    Faults,
    /// A name, a reply's body, and its canonical text.
    Replies,
}

/// Whether the line's body is read as the line says.
fn is_right(rt: &impl Abort, alloc: Global, table: Table, line: &str) -> bool {
    let Some((_, second, third)) = words(line) else {
        return false;
    };
    match table {
        Table::Requests => is_read(rt, alloc, second, third),
        Table::Faults => is_read(rt, alloc, third, second),
        Table::Replies => is_reply(rt, alloc, second, third),
    }
}

/// A table has so many lines, and the body of each is read as the line says.
fn bodies_are_read(rt: &impl Abort, alloc: Global, table: Table, text: &str, lines: usize) {
    for line in text.lines() {
        ensure(rt, is_right(rt, alloc, table, line), line);
    }
    assert_eq!(rt; text.lines().count(), lines);
}

#[test]
fn bodies_are_read_as_their_lines_say(rt: HostRuntime) {
    bodies_are_read(&rt, rt.alloc(), Table::Requests, VECTORS, 195);
    bodies_are_read(&rt, rt.alloc(), Table::Faults, FAULTS, 80);
    bodies_are_read(&rt, rt.alloc(), Table::Replies, RESPONSES, 11);
}
