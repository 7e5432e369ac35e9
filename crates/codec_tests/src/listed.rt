//! The parts of a body as one text.

use otlp_parts::{
    BodyParts, PartText, ResourceParts, ScopeList, ScopeParts, SpanTexts, read_parts,
};
use std::alloc::Global;
use std::process::Abort;
use text_slice::TextSlice;

/// Appends what is told, the bytes as hexadecimal digits, and a semicolon.
fn put(rt: &impl Abort, alloc: Global, out: &mut String, what: &str, bytes: &[u8]) {
    let digits = hex::encode(alloc, bytes).expect(rt, "memory");
    out.push_str(what).expect(rt, "memory");
    out.push_str(digits.as_str()).expect(rt, "memory");
    out.push(';').expect(rt, "memory");
}

fn put_some(rt: &impl Abort, alloc: Global, out: &mut String, what: &str, text: &PartText) {
    if let Some(text) = text.as_ref() {
        put(rt, alloc, out, what, text.as_slice());
    }
}

/// A text that stands whether or not it is empty.
fn put_url(rt: &impl Abort, alloc: Global, out: &mut String, what: &str, url: &PartText) {
    match url.as_ref() {
        Some(url) => put(rt, alloc, out, what, url.as_slice()),
        None => put(rt, alloc, out, what, &[]),
    }
}

fn put_scope(rt: &impl Abort, alloc: Global, out: &mut String, parts: &ScopeParts) {
    put_some(rt, alloc, out, "scope_", &parts.scope);
    put_url(rt, alloc, out, "in_", &parts.schema_url);
    match &parts.spans {
        SpanTexts::One(span) => put(rt, alloc, out, "span_", span.as_slice()),
        SpanTexts::More(spans) => {
            for span in spans.as_slice() {
                put(rt, alloc, out, "span_", span.as_slice());
            }
        }
    }
}

fn put_resource(rt: &impl Abort, alloc: Global, out: &mut String, parts: &ResourceParts) {
    put_some(rt, alloc, out, "resource_", &parts.resource);
    put_url(rt, alloc, out, "of_", &parts.schema_url);
    match &parts.scopes {
        ScopeList::One(scope) => put_scope(rt, alloc, out, scope),
        ScopeList::More(scopes) => {
            for scope in scopes.as_slice() {
                put_scope(rt, alloc, out, scope);
            }
        }
    }
}

fn listed(rt: &impl Abort, alloc: Global, parts: &BodyParts) -> String {
    let mut out = String::new(alloc);
    for resource in parts.resources.as_slice() {
        put_resource(rt, alloc, &mut out, resource);
    }
    format!(in alloc; "{out}{}", parts.invalid).expect(rt, "memory")
}

/// The parts of a body: `resource_` and its text where there is one, `of_` and the URL of its schema; in it `scope_`,
/// `in_` and each `span_` likewise; last how many spans were left out. Or `fault_` and its number.
pub fn parts_of(rt: &impl Abort, alloc: Global, body: &[u8]) -> String {
    let body = TextSlice::copy_from_slice(alloc, body).expect(rt, "memory");
    match read_parts(alloc, &body) {
        Ok(parts) => listed(rt, alloc, &parts),
        Err(fault) => {
            let Some(number) = fault.number() else {
                panic!(rt; "memory: OutOfMemory");
            };
            format!(in alloc; "fault_{number}").expect(rt, "memory")
        }
    }
}
