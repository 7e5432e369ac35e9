//! Bodies that were worked out by hand, bodies from elsewhere, and cut ones.

use crate::listed::preparing;
use crate::sections::{THREE, section_of};
use crate::texts::{bytes_of, words};
use otlp_read::{ReadFault, read_request};
use otlp_trace::{ExportTraceServiceRequest, write_request};
use otlp_vectors::{FAULTS, VECTORS};
use std::alloc::Global;
use std::process::Abort;
use std::thread::Threads;
use tail_settings::Section;

/// Whether two bodies are prepared as one value.
fn are_as_one<R: Threads + Abort + Sync>(
    rt: &R,
    alloc: Global,
    section: &Section,
    body: &[u8],
    other: &[u8],
) -> bool {
    let one = preparing(rt, alloc, section, body, 2);
    let told = preparing(rt, alloc, section, other, 1);
    one.as_str() == told.as_str()
}

/// A vector's body is prepared as its canonical text is.
fn assert_same<R: Threads + Abort + Sync>(rt: &R, alloc: Global, section: &Section, line: &str) {
    let (_name, body, canonical) = words(rt, line);
    let body = bytes_of(rt, alloc, body);
    let canonical = bytes_of(rt, alloc, canonical);
    assert!(rt;
        are_as_one(rt, alloc, section, body.as_slice(), canonical.as_slice()),
        "{line}"
    );
}

#[test]
fn vectors_are_prepared_as_their_canonical_texts(rt: HostRuntime) {
    assert_eq!(rt; VECTORS.lines().count(), 195);
    let section = section_of(&rt, rt.alloc(), THREE);
    for line in VECTORS.lines() {
        assert_same(&rt, rt.alloc(), &section, line);
    }
}

/// Whether the body is refused for the fault with this number.
fn is_refused<R: Threads + Abort + Sync>(
    rt: &R,
    alloc: Global,
    section: &Section,
    body: &[u8],
    number: &str,
) -> bool {
    let told = preparing(rt, alloc, section, body, 1);
    told.as_str().strip_prefix("fault ") == Some(number)
}

/// The line's body is refused for its fault.
fn assert_refused<R: Threads + Abort + Sync>(rt: &R, alloc: Global, section: &Section, line: &str) {
    let (_name, number, body) = words(rt, line);
    let body = bytes_of(rt, alloc, body);
    assert!(rt;
        is_refused(rt, alloc, section, body.as_slice(), number),
        "{line}"
    );
}

#[test]
fn faulty_bodies_are_refused_for_their_fault(rt: HostRuntime) {
    assert_eq!(rt; FAULTS.lines().count(), 80);
    let section = section_of(&rt, rt.alloc(), THREE);
    for line in FAULTS.lines() {
        assert_refused(&rt, rt.alloc(), &section, line);
    }
}

/// The name of the body, the body, and how it is listed, `|` for the note of a span that starts and ends at 0 and meets
/// no policy.
const LISTED: &str = "\
nothing - 0\n\
one_span \
0a20121e121c0a100000000000000000000000000000000112080000000000000001 \
trace_00000000000000000000000000000001;span_0a100000000000000000000000000000000112080000000000000001;|0\n\
a_resource_twice \
0a300a070a030a01611003121e121c0a1000000000000000000000000000000001120800000000000000010a050a030a0162 \
resource_0a030a01610a030a01621003;trace_00000000000000000000000000000001;\
span_0a100000000000000000000000000000000112080000000000000001;|0\n\
spans_without_sound_ids \
0abb0112b801120012120a1001010101010101010101010101010101120a12080101010101010101121c0a10000000000000000000000000\
0000000012080000000000000001121c0a100000000000000000000000000000000112080000000000000000121b0a0f0101010101010101\
0101010101010112080101010101010101121d0a10010101010101010101010101010101011209010101010101010101121c0a1000000000\
00000000000000000000000212080000000000000002 \
trace_00000000000000000000000000000002;span_0a100000000000000000000000000000000212080000000000000002;|7\n\
counts_of_several_scopes 0a0a120212001204120012000a0412021200 4\n\
several_resources \
0a4c0a050a030a0161121e121c0a10000000000000000000000000000000011208000000000000000112230a030a0173121c0a1000000000\
000000000000000000000001120800000000000000020a270a050a030a0162121e121c0a1000000000000000000000000000000001120800\
00000000000003 \
resource_0a030a0161;trace_00000000000000000000000000000001;\
span_0a100000000000000000000000000000000112080000000000000001;|resource_0a030a0161;scope_0a0173;\
trace_00000000000000000000000000000001;span_0a100000000000000000000000000000000112080000000000000002;|\
resource_0a030a0162;trace_00000000000000000000000000000001;\
span_0a100000000000000000000000000000000112080000000000000003;|0\n\
schemas \
0a2d1a036f6c6412211a0175121c0a1000000000000000000000000000000001120800000000000000011a0375726c \
of_75726c;in_75;trace_00000000000000000000000000000001;\
span_0a100000000000000000000000000000000112080000000000000001;|0\n\
notes_of_a_span_with_its_resource \
0a3e0a0a0a080a016112030a01771230122e0a10000000000000000000000000000000011208000000000000000139010000\
000000000041c1cf6a0000000000 \
resource_0a080a016112030a0177;trace_00000000000000000000000000000001;\
span_0a10000000000000000000000000000000011208000000000000000139010000000000000041c1cf6a0000000000;\
TraceNote_{_met:_1,_start:_1,_end:_7000001_};0";

/// The note of a span that starts and ends at 0 and meets no policy.
const PLAIN: &str = "TraceNote { met: 0, start: 0, end: 0 };";

/// The text with a space for each `_` and the note of a plain span for each `|`.
fn spelled(rt: &impl Abort, alloc: Global, text: &str) -> String {
    let mut out = String::new(alloc);
    for mark in text.chars() {
        let put = match mark {
            '_' => out.push(' '),
            '|' => out.push_str(PLAIN),
            _ => out.push(mark),
        };
        put.expect(rt, "memory");
    }
    out
}

/// The line's body is listed so.
fn assert_listed<R: Threads + Abort + Sync>(rt: &R, alloc: Global, section: &Section, line: &str) {
    let (_name, body, wanted) = words(rt, line);
    let body = bytes_of(rt, alloc, body);
    let wanted = spelled(rt, alloc, wanted);
    let told = preparing(rt, alloc, section, body.as_slice(), 1);
    assert!(rt; told.as_str() == wanted.as_str(), "{line}");
}

#[test]
fn bodies_have_the_spans_that_were_worked_out(rt: HostRuntime) {
    assert_eq!(rt; LISTED.lines().count(), 8);
    let section = section_of(&rt, rt.alloc(), THREE);
    for line in LISTED.lines() {
        assert_listed(&rt, rt.alloc(), &section, line);
    }
}

/// A body with a resource that stands twice, a scope that does, spans that are canonical and one that isn't, and one
/// without ids.
const WHOLE: &str = "\
0a661a01720a070a030a0161100312430a030a0173121c0a1000000000000000000000000000000001120800000000000000\
01121e0a1000000000000000000000000000000001120800000000000000022200120c12001a01750a030a01730a000a050a\
030a0162";

/// What is written of a request.
fn written(rt: &impl Abort, alloc: Global, request: &ExportTraceServiceRequest) -> Vec<u8> {
    let mut text = Vec::new(alloc);
    write_request(alloc, &mut text, request).expect(rt, "memory");
    text
}

/// A fault's number as a text.
fn number_of(rt: &impl Abort, alloc: Global, fault: ReadFault) -> String {
    let Some(number) = fault.number() else {
        panic!(rt; "memory: OutOfMemory");
    };
    format!(in alloc; "{number}").expect(rt, "memory")
}

/// Whether a body is prepared as what is written of it when it is read, or refused for the fault of reading it.
fn is_as_reading<R: Threads + Abort + Sync>(
    rt: &R,
    alloc: Global,
    section: &Section,
    body: &[u8],
) -> bool {
    match read_request(alloc, body) {
        Ok(request) => {
            let text = written(rt, alloc, &request);
            are_as_one(rt, alloc, section, body, text.as_slice())
        }
        Err(fault) => {
            let number = number_of(rt, alloc, fault);
            is_refused(rt, alloc, section, body, number.as_str())
        }
    }
}

#[test]
fn cut_bodies_are_as_reading_has_them(rt: HostRuntime) {
    let section = section_of(&rt, rt.alloc(), THREE);
    let body = bytes_of(&rt, rt.alloc(), WHOLE);
    for end in 0..=body.len() {
        assert!(rt; is_as_reading(&rt, rt.alloc(), &section, &body.as_slice()[..end]));
    }
}
