//! Texts that are canonical, and neighbours of them that aren't, by the check and by reading and writing them.

ghost use Rattle.std.specs.Prelude.{◌<◌, ◌≤◌};

use crate::texts::{bytes_of, ensure, words};
use otlp_canonical::{is_request_text, is_resource_text, is_scope_text, is_span_text};
use otlp_read::{
    ReadFault, read_request, read_resource, read_scope, read_span, request_is_typed,
    resource_is_typed, scope_is_typed, span_is_typed, written_request_reads_back,
    written_resource_reads_back, written_scope_reads_back, written_span_reads_back,
};
use otlp_trace::{
    ExportTraceServiceRequest, InstrumentationScope, Resource, Span, write_request, write_resource,
    write_scope, write_span,
};
use std::alloc::Global;
use std::process::Abort;

/// Texts that are canonical, a line each: what they are texts of, the room for levels, and the bytes.
const CANONICAL: &str = "\
# Fields of a span that are missing.\n\
span 98 120100\n\
span 98 2a016e410200000000000000\n\
span 98 4a004a005a005a006a00\n\
span 98 7a00\n\
span 98 50ffffffff0f8501ffffffff\n\
# Kinds: 2^31 - 1, -1 and -2^31.\n\
span 98 30ffffffff07\n\
span 98 30ffffffffffffffffff01\n\
span 98 3080808080f8ffffffff01\n\
# A status whose code is -1.\n\
span 98 7a0b18ffffffffffffffffff01\n\
# Field 100 as a number, a trace id that is a number, field 100 as a group, and a flag of eight bytes.\n\
span 98 a00601\n\
span 98 2a016e0805\n\
span 98 a3060805a406\n\
span 98 81010000000000000000\n\
# Field 32 in four bytes, whose tag begins as that of the flags does.\n\
span 98 850200000000\n\
# They stay as they were spelled, also longer than need be.\n\
span 98 a0068100\n\
# In a status, an event and a link.\n\
span 98 5a03a006016a03a006017a03a00601\n\
# Values of attributes, each in an attribute without a key.\n\
span 98 4a021200\n\
span 98 4a0412020a00\n\
span 98 4a0612040a02c3a9\n\
span 98 4a0412021000\n\
span 98 4a0412021001\n\
span 98 4a0412021800\n\
span 98 4a0d120b18ffffffffffffffffff01\n\
span 98 4a0b1209210000000000000000\n\
span 98 4a0412022a00\n\
span 98 4a0a12082a060a000a021001\n\
span 98 4a0d120b32090a000a050a016b1200\n\
span 98 4a0412023a00\n\
span 98 4a0512033a01ff\n\
# A key with a number. With a string: both in ASCII, and one of them not. Field 100, behind the value and in it.\n\
span 98 4a070a016b12021805\n\
span 98 4a080a016b12030a0176\n\
span 98 4a090a016b12040a02c3a9\n\
span 98 4a090a02c3a912030a0176\n\
span 98 4a0b0a016b12030a0176a00601\n\
span 98 4a0b0a016b12060a0176a00601\n\
# With a string of 128 bytes.\n\
span 98 4a89010a016b1283010a800176767676767676767676767676767676767676767676767676767676767676767676767676767676\
7676767676767676767676767676767676767676767676767676767676767676767676767676767676767676767676767676767676767676\
7676767676767676767676767676767676767676767676767676767676767676\n\
# Field 100, in the value, in an array, in a list and in one of its keys.\n\
span 98 4a051203a00601\n\
span 98 4a0712050a00a00601\n\
span 98 4a0912072a050a00a00601\n\
span 98 4a0c120a32080a03a00601a00601\n\
# A resource.\n\
resource 99 -\n\
resource 99 0a000a030a016b1004\n\
resource 99 1004a00601\n\
# A scope.\n\
scope 98 -\n\
scope 98 0a01731201761a002003\n\
scope 98 120176a00601\n\
# A whole body.\n\
request 100 -\n\
request 100 0a000a00\n\
request 100 0a070a0012001a0175\n\
request 100 0a0912070a0012001a0175\n\
# Levels: as many as the text takes.\n\
span 1 -\n\
span 2 4a00\n\
span 3 4a021200\n\
span 2 2a016e6a00\n\
# Messages with fields of each kind, worked out by hand.\n\
span 98 2a0367657430ffffffffffffffffff014100010000000000004a030a016b5a0060ac02\
6a0535010000007a021802850101010000c03e05\n\
resource 99 0a0d0a016112082a060a021001180110017801\n\
request 100 0a0b0a0012040a0012001a0175\n\
scope 98 0a016e1201311a030a016b20012805";

/// Texts that are written otherwise, or no texts of such a message.
const OTHERS: &str = "\
# The flags' tag in three bytes.\n\
span 98 85810001000000\n\
# Before a known field, a known one behind it with a tag of two bytes, and a group that isn't closed.\n\
span 98 a006012a016e\n\
span 98 a00601aa00016e\n\
span 98 a3060805\n\
span 98 a0\n\
# Defaults that are written out.\n\
span 98 0a00\n\
span 98 2200\n\
span 98 2a00\n\
span 98 3000\n\
span 98 390000000000000000\n\
span 98 5000\n\
span 98 850100000000\n\
# A kind, a length and a tag that are longer than need be, and minus one in five bytes.\n\
span 98 308200\n\
span 98 2a81006e\n\
span 98 aa00016e\n\
span 98 30ffffffff0f\n\
# Not by rising number, and twice.\n\
span 98 30022a016e\n\
span 98 7a007001\n\
span 98 2a016e2a016e\n\
span 98 7a007a00\n\
# A name and a state that aren't UTF-8.\n\
span 98 2a01ff\n\
span 98 1a02c328\n\
# Numbers of 32 bits that are 2^32 and 2^31.\n\
span 98 508080808010\n\
span 98 308080808008\n\
# In a status, an event and a link: a default, an order and a default.\n\
span 98 7a021800\n\
span 98 5a052006120165\n\
span 98 6a063500000000\n\
# A bool that is two, or longer than need be, and a number of more than 64 bits.\n\
span 98 4a0412021002\n\
span 98 4a051203108100\n\
span 98 4a0d120b18ffffffffffffffffff02\n\
# A string that isn't UTF-8, and a double that is cut.\n\
span 98 4a0512030a01ff\n\
span 98 4a0a12082100000000000000\n\
# A key and a string, one of which isn't UTF-8. A string that is cut, and a key whose length is longer than need be.\n\
span 98 4a080a016b12030a01ff\n\
span 98 4a080a01ff12030a0176\n\
span 98 4a080a016b12030a0276\n\
span 98 4a090a81006b12030a0176\n\
# Two members, the same member twice, and a member behind what isn't known.\n\
span 98 4a0612040a001001\n\
span 98 4a06120418011801\n\
span 98 4a0612042a002a00\n\
span 98 4a071205a006011001\n\
# In an array, in a list, and a key behind its value.\n\
span 98 4a0812062a040a021002\n\
span 98 4a0912072a05a006010a00\n\
span 98 4a08120632040a020a00\n\
span 98 4a0b120932070a0512000a016b\n\
span 98 4a0a120832060a0412001200\n\
# A resource.\n\
resource 99 1000\n\
resource 99 10040a00\n\
resource 99 10041004\n\
resource 99 0a020a00\n\
resource 99 0a01\n\
# A scope.\n\
scope 98 0a00\n\
scope 98 1201760a0173\n\
scope 98 1201ff\n\
scope 98 2000\n\
scope 98 208300\n\
# What a request, a resource spans and a scope spans don't know is dropped.\n\
request 100 1001\n\
request 100 0a022001\n\
request 100 0a0412022001\n\
# A second resource and a second scope are merged.\n\
request 100 0a040a000a00\n\
request 100 0a0612040a000a00\n\
# Defaults, and an order.\n\
request 100 0a021a00\n\
request 100 0a0412021a00\n\
request 100 0a0412000a00\n\
request 100 0a06120412000a00\n\
# Levels: one fewer than the text takes.\n\
span 0 -\n\
span 1 4a00\n\
span 2 4a021200\n\
resource 0 -\n\
resource 1 0a00\n\
scope 0 -\n\
scope 1 1a00\n\
span 1 2a016e6a00\n\
span 0 2a016e6a00";

/// What a text is of.
#[derive(Clone, Copy)]
enum Kind {
    Span,
    Resource,
    Scope,
    Request,
}

fn kind_of(word: &str) -> Kind {
    if word == "span" {
        return Kind::Span;
    }
    if word == "resource" {
        return Kind::Resource;
    }
    if word == "scope" {
        return Kind::Scope;
    }
    Kind::Request
}

fn is_canonical(kind: Kind, room: u32, text: &[u8]) -> bool {
    match kind {
        Kind::Span => is_span_text(text, room),
        Kind::Resource => is_resource_text(text, room),
        Kind::Scope => is_scope_text(text, room),
        Kind::Request => is_request_text(text),
    }
}

/// The laws of what was read, called once.
fn laws_of_span(span: &Span) {
    span_is_typed(span);
    written_span_reads_back(span);
}

fn laws_of_resource(resource: &Resource) {
    resource_is_typed(resource);
    written_resource_reads_back(resource);
}

fn laws_of_scope(scope: &InstrumentationScope) {
    scope_is_typed(scope);
    written_scope_reads_back(scope);
}

fn laws_of_request(request: &ExportTraceServiceRequest) {
    request_is_typed(request);
    written_request_reads_back(request);
}

/// What is written of a span that is read.
fn span_again(rt: &impl Abort, alloc: Global, text: &[u8], room: u32) -> Result<Vec<u8>, ReadFault>
    requires { room ≤ 101 }
{
    let span = read_span(alloc, text, room)?;
    laws_of_span(&span);
    let mut out = Vec::new(alloc);
    write_span(alloc, &mut out, &span).expect(rt, "memory");
    Ok(out)
}

fn resource_again(
    rt: &impl Abort,
    alloc: Global,
    text: &[u8],
    room: u32,
) -> Result<Vec<u8>, ReadFault>
    requires { room ≤ 101 }
{
    let resource = read_resource(alloc, text, room)?;
    laws_of_resource(&resource);
    let mut out = Vec::new(alloc);
    write_resource(alloc, &mut out, &resource).expect(rt, "memory");
    Ok(out)
}

fn scope_again(rt: &impl Abort, alloc: Global, text: &[u8], room: u32) -> Result<Vec<u8>, ReadFault>
    requires { room ≤ 101 }
{
    let scope = read_scope(alloc, text, room)?;
    laws_of_scope(&scope);
    let mut out = Vec::new(alloc);
    write_scope(alloc, &mut out, &scope).expect(rt, "memory");
    Ok(out)
}

fn request_again(rt: &impl Abort, alloc: Global, text: &[u8]) -> Result<Vec<u8>, ReadFault> {
    let request = read_request(alloc, text)?;
    laws_of_request(&request);
    let mut out = Vec::new(alloc);
    write_request(alloc, &mut out, &request).expect(rt, "memory");
    Ok(out)
}

/// Whether the text is read, and what is written of it is the text again.
fn is_again(rt: &impl Abort, alloc: Global, kind: Kind, room: u32, text: &[u8]) -> bool
    requires { room ≤ 101 }
{
    let again = match kind {
        Kind::Span => span_again(rt, alloc, text, room),
        Kind::Resource => resource_again(rt, alloc, text, room),
        Kind::Scope => scope_again(rt, alloc, text, room),
        Kind::Request => request_again(rt, alloc, text),
    };
    match again {
        Ok(out) => out.as_slice() == text,
        Err(ReadFault::OutOfMemory) => panic!(rt; "memory: OutOfMemory"),
        Err(_) => false,
    }
}

/// Whether a line's text is canonical by both ways, or by neither.
fn is_so(rt: &impl Abort, alloc: Global, line: &str, canonical: bool) -> bool {
    let (kind, room, digits) = words(rt, line);
    let kind = kind_of(kind);
    let room = room.parse::<u32>().unwrap_or(0).min(100);
    let text = bytes_of(rt, alloc, digits);
    let again = is_again(rt, alloc, kind, room, text.as_slice());
    is_canonical(kind, room, text.as_slice()) == canonical && again == canonical
}

/// The text of each line is so, but for those that say what follows.
fn all_are_so(rt: &impl Abort, alloc: Global, lines: &str, canonical: bool) {
    for line in lines.lines() {
        if !line.starts_with('#') {
            ensure(rt, is_so(rt, alloc, line, canonical), line);
        }
    }
}

#[test]
fn texts_and_their_neighbours(rt: HostRuntime) {
    all_are_so(&rt, rt.alloc(), CANONICAL, true);
    all_are_so(&rt, rt.alloc(), OTHERS, false);
}

/// The fields of a span, each of them once and not at its default, by rising number.
pub const SPAN: [u8; 105] = *b"\x0a\x0212\x12\x013\x1a\x03a=b\x22\x014\x2a\x01n\x30\x02\
    \x39\x01\0\0\0\0\0\0\0\x41\x02\0\0\0\0\0\0\0\
    \x4a\x07\x0a\x01k\x12\x02\x10\x01\x50\x05\
    \x5a\x10\x09\x03\0\0\0\0\0\0\0\x12\x01e\x1a\0\x20\x06\x60\x07\
    \x6a\x13\x0a\x015\x12\x016\x1a\x027=\x22\0\x28\x08\x35\x09\0\0\0\x70\x0a\
    \x7a\x05\x12\x01m\x18\x02\x85\x01\x0b\0\0\0";

/// Where its fields end.
const ENDS: [usize; 16] = [
    4, 7, 12, 15, 18, 20, 29, 38, 47, 49, 67, 69, 90, 92, 99, 105,
];

/// A resource with two attributes, a scope and a span with a name, a kind, an attribute, a status and an unknown field.
const BODY: [u8; 59] = *b"\x0a\x39\x0a\x0c\x0a\x06\x12\x04\x0a\x02ab\x0a\0\x10\x04\
    \x12\x29\x0a\x03\x0a\x01s\x12\x1d\x2a\x01n\x30\x02\
    \x4a\x09\x0a\x01k\x12\x04\x2a\x02\x0a\0\
    \x7a\x05\x12\x01m\x18\x02\x85\x01\x01\0\0\0\x1a\x03url";

/// Whether a text is no request's, and is refused as one that was cut.
fn is_cut(alloc: Global, text: &[u8]) -> bool {
    !is_request_text(text) && matches!(read_request(alloc, text), Err(ReadFault::Truncated))
}

#[test]
fn fronts_end_inside_a_field(rt: HostRuntime) {
    for end in 0..=SPAN.len() {
        let whole = end == 0 || ENDS.contains(&end);
        assert!(rt; is_span_text(&SPAN[..end], 98) == whole);
    }
    for end in 1..BODY.len() {
        assert!(rt; is_cut(rt.alloc(), &BODY[..end]));
    }
}

/// Whether both ways give one answer, whatever stands at this place.
fn agree_at(rt: &impl Abort, alloc: Global, body: &mut [u8; 59], at: usize) -> bool
    requires { at < 59 }
{
    let was = body[at];
    for byte in 0..=255u8 {
        body[at] = byte;
        if is_request_text(body) != is_again(rt, alloc, Kind::Request, 100, body) {
            return false;
        }
    }
    body[at] = was;
    true
}

#[test]
fn the_answer_is_that_of_reading_and_writing(rt: HostRuntime) {
    let mut body = BODY;
    for at in 0..59 {
        assert!(rt; agree_at(&rt, rt.alloc(), &mut body, at));
    }
}
