//! A body that was prepared, as one text.

ghost use Rattle.std.specs.Prelude.{◌<◌, ◌≤◌};

use bytes::Bytes;
use otlp_prepare::{NotedSpan, Prepared, Refusal, SpanOrigin, prepare};
use std::alloc::Global;
use std::process::Abort;
use std::thread::Threads;
use tail_settings::Section;
use text_pool::SharedBytes;

/// The tenant's number.
pub const TENANT: u32 = 7;

/// Appends what is told, the bytes as hexadecimal digits, and a semicolon.
fn put(rt: &impl Abort, alloc: Global, out: &mut String, what: &str, bytes: &[u8]) {
    let digits = hex::encode(alloc, bytes).expect(rt, "memory");
    out.push_str(what).expect(rt, "memory");
    out.push_str(digits.as_str()).expect(rt, "memory");
    out.push(';').expect(rt, "memory");
}

/// The same where there is a text.
fn put_some(
    rt: &impl Abort,
    alloc: Global,
    out: &mut String,
    what: &str,
    text: Option<&SharedBytes>,
) {
    if let Some(text) = text {
        put(rt, alloc, out, what, text.bytes().as_slice());
    }
}

fn put_origin(rt: &impl Abort, alloc: Global, out: &mut String, origin: &SpanOrigin) {
    put_some(rt, alloc, out, "resource ", origin.resource());
    put_some(rt, alloc, out, "of ", origin.resource_schema_url());
    put_some(rt, alloc, out, "scope ", origin.scope());
    put_some(rt, alloc, out, "in ", origin.scope_schema_url());
}

fn put_span(
    rt: &impl Abort,
    alloc: Global,
    out: &mut String,
    origins: &[SpanOrigin],
    span: &NotedSpan,
) {
    let origin = origins.get(span.origin).expect(rt, "an origin");
    put_origin(rt, alloc, out, origin);
    put(rt, alloc, out, "trace ", &span.trace);
    put(rt, alloc, out, "span ", span.text.as_slice());
    let note = format!(in alloc; "{:?};", span.note).expect(rt, "memory");
    out.push_str(note.as_str()).expect(rt, "memory");
}

/// Each span: its resource, the URL of that's schema, its scope and the URL of that's schema, each where
/// there is one that isn't an empty URL, then its trace id, its text and its note; and last how many were left out.
fn listed(rt: &impl Abort, alloc: Global, prepared: &Prepared) -> String {
    let mut out = String::new(alloc);
    let (origins, spans) = prepared.parts();
    for span in spans {
        put_span(rt, alloc, &mut out, origins, span);
    }
    format!(in alloc; "{out}{}", prepared.invalid()).expect(rt, "memory")
}

/// A fault by its number.
fn refused(rt: &impl Abort, alloc: Global, refusal: Refusal) -> String {
    match refusal {
        Refusal::Bad(fault) => {
            let number = fault.number().expect(rt, "a fault of a body");
            format!(in alloc; "fault {number}").expect(rt, "memory")
        }
        Refusal::OutOfMemory => panic!(rt; "memory: OutOfMemory"),
    }
}

/// What preparing makes of a body in so many threads, `listed`, or `fault` and its number.
pub fn preparing<R: Threads + Abort + Sync>(
    rt: &R,
    alloc: Global,
    section: &Section,
    body: &[u8],
    parts: u32,
) -> String
    requires { (0 < parts) × (parts ≤ 16) }
{
    let body = Bytes::copy_from_slice(alloc, body).expect(rt, "memory");
    match prepare(rt, alloc, TENANT, section, body, parts) {
        Ok(prepared) => listed(rt, alloc, &prepared),
        Err(refusal) => refused(rt, alloc, refusal),
    }
}
