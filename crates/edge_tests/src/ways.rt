//! The ways in which a talk is gone through.

use crate::notation::{Name, unfolded};
use http_edge::{EdgeFault, Handler, RefusalForm, connection_buffer, serve};
use http_line::{Line, MemoryLine};
use std::alloc::{AllocError, Global};
use std::process::Abort;
use std::thread::Threads;

/// A way in which a talk is gone through.
#[derive(Clone, Copy)]
pub enum Way {
    /// Whole, cut at each byte, and byte by byte.
    Cut,
    /// Whole, and byte by byte where it has at most 200,000 bytes.
    Long,
    /// Over a line that fails at its first call, at its second and so on.
    Failing,
    /// Whole, where memory may be refused.
    Refused,
}

/// What is read, and what is to be written.
#[derive(Drop)]
struct Talk {
    input: Vec<u8>,
    want: Vec<u8>,
}

/// So many cases of a text were as they have to be, and none wasn't.
pub fn are_all(rt: &impl Abort, (told, wrong): (u32, &'static str), count: u32) {
    assert_eq!(rt; wrong, "");
    assert_eq!(rt; told, count);
}

/// Goes through the talks of a text, a line each, up to the first that isn't as it has to be. How many were, and that
/// one.
pub fn walk<R: Threads + Sync + Abort, H: Handler>(
    rt: &R,
    alloc: Global,
    handler: &mut H,
    names: &[Name],
    lines: &'static str,
    way: Way,
) -> (u32, &'static str) {
    let mut count = 0u32;
    for line in lines.lines() {
        if let Some((input, want)) = line.split_once(" -> ") {
            let input = unfolded(alloc, names, input).expect(rt, "memory");
            let want = unfolded(alloc, names, want).expect(rt, "memory");
            if !is_told(rt, alloc, handler, &Talk { input, want }, way) {
                return (count, line);
            }
            count = count.saturating_add(1);
        }
    }
    (count, "")
}

fn is_told<R: Threads + Sync + Abort, H: Handler>(
    rt: &R,
    alloc: Global,
    handler: &mut H,
    talk: &Talk,
    way: Way,
) -> bool {
    match way {
        Way::Cut => is_told_cut(rt, alloc, handler, talk),
        Way::Long => is_told_long(rt, alloc, handler, talk),
        Way::Failing => breaks_off(rt, alloc, handler, talk),
        Way::Refused => is_told_or_refused(rt, alloc, handler, talk).expect(rt, "memory"),
    }
}

/// Whether that is written where the input comes in pieces of these lengths and then as it is.
fn is_told_in<R: Threads + Sync + Abort, H: Handler>(
    rt: &R,
    alloc: Global,
    handler: &mut H,
    talk: &Talk,
    pieces: Vec<usize>,
) -> bool {
    let input = Vec::from_slice(alloc, &talk.input).expect(rt, "memory");
    let mut line = MemoryLine::new(input, pieces, Vec::new(alloc), 0);
    let mut buffer = used_buffer(alloc).expect(rt, "memory");
    let told = serve(rt, alloc, &mut line, handler, &mut buffer);
    told.is_ok() && line.output() == talk.want.as_slice()
}

fn is_told_cut<R: Threads + Sync + Abort, H: Handler>(
    rt: &R,
    alloc: Global,
    handler: &mut H,
    talk: &Talk,
) -> bool {
    for cut in 0..=talk.input.len() {
        let pieces = Vec::from_slice(alloc, &[cut]).expect(rt, "memory");
        if !is_told_in(rt, alloc, handler, talk, pieces) {
            return false;
        }
    }
    is_told_singly(rt, alloc, handler, talk)
}

fn is_told_singly<R: Threads + Sync + Abort, H: Handler>(
    rt: &R,
    alloc: Global,
    handler: &mut H,
    talk: &Talk,
) -> bool {
    let single = vec![in alloc; 1usize; talk.input.len()].expect(rt, "memory");
    is_told_in(rt, alloc, handler, talk, single)
}

fn is_told_long<R: Threads + Sync + Abort, H: Handler>(
    rt: &R,
    alloc: Global,
    handler: &mut H,
    talk: &Talk,
) -> bool {
    let is_told = is_told_in(rt, alloc, handler, talk, Vec::new(alloc));
    if !is_told || talk.input.len() > 200_000 {
        return is_told;
    }
    is_told_singly(rt, alloc, handler, talk)
}

/// Whether over a line that fails at its first call, its second and so on a beginning of what is to be written is
/// written, up to the first line that doesn't fail.
fn breaks_off<R: Threads + Sync + Abort, H: Handler>(
    rt: &R,
    alloc: Global,
    handler: &mut H,
    talk: &Talk,
) -> bool {
    for fuse in 1..1000u64 {
        let mut line = failing_line(rt, alloc, &talk.input, 9, fuse);
        let mut buffer = used_buffer(alloc).expect(rt, "memory");
        match serve(rt, alloc, &mut line, handler, &mut buffer) {
            Ok(()) => return line.output() == talk.want.as_slice() && line.failures() == 0,
            Err(EdgeFault::OutOfMemory) => return false,
            Err(_) => if !talk.want.starts_with(line.output()) || line.failures() != 1 {
                return false;
            },
        }
    }
    false
}

/// A line whose input comes in pieces of so many bytes, and whose call number `fuse` fails.
pub fn failing_line(
    rt: &impl Abort,
    alloc: Global,
    input: &[u8],
    piece: usize,
    fuse: u64,
) -> MemoryLine {
    let pieces = vec![in alloc; piece; 100].expect(rt, "memory");
    let input = Vec::from_slice(alloc, input).expect(rt, "memory");
    MemoryLine::new(input, pieces, Vec::new(alloc), fuse)
}

/// A buffer with what a connection before left in it.
fn used_buffer(alloc: Global) -> Result<Vec<u8>, AllocError> {
    let mut buffer = connection_buffer(alloc)?;
    buffer.extend_from_slice(b"GET /404 HTTP/1.1\r\nHost: before\r\n\r\n")?;
    Ok(buffer)
}

/// The head and the body of what a client is told where memory was refused before its reply was there.
fn no_memory(form: RefusalForm) -> (&'static [u8], &'static [u8]) {
    match form {
        RefusalForm::Status => (
            b"HTTP/1.1 503 Service Unavailable\r\nContent-Type: application/x-protobuf\r\n\
Connection: close\r\nContent-Length: 15\r\n\r\n",
            b"\x12\x0dout of memory",
        ),
        RefusalForm::Json => (
            b"HTTP/1.1 503 Service Unavailable\r\nContent-Type: application/json\r\n\
Connection: close\r\nContent-Length: 25\r\n\r\n",
            b"{\"error\":\"out of memory\"}",
        ),
    }
}

/// What is written before that reply, which has a body or not.
fn before_no_memory(output: &[u8], form: RefusalForm, bodiless: bool) -> Option<&[u8]> {
    let (head, body) = no_memory(form);
    if bodiless {
        output.strip_suffix(head)
    } else {
        output.strip_suffix(body)?.strip_suffix(head)
    }
}

/// Whether the first message is HEAD, or one behind it is. A talk with HEAD has two messages at most.
fn is_head(input: &[u8], is_first: bool) -> bool {
    if is_first {
        input.starts_with(b"HEAD /")
    } else {
        input.windows(7).any(|w| w.ends_with(b"HEAD /"))
    }
}

/// Whether the client is told that there was no memory behind a beginning of what is to be written, by a reply that
/// has no body where the message that gets it is HEAD, and has it otherwise.
fn is_told_of_memory(talk: &Talk, output: &[u8], form: RefusalForm, bodiless: bool) -> bool {
    match before_no_memory(output, form, bodiless) {
        Some(front) => talk.want.starts_with(front)
            && is_head(&talk.input, front.is_empty()) == bodiless,
        None => false,
    }
}

/// Whether a talk is as it has to be, or the client is told that there was no memory: by the handler's reply, or
/// behind a beginning of what is to be written. Only a line without memory for what is written breaks it off.
fn is_told_or_refused<R: Threads + Sync, H: Handler>(
    rt: &R,
    alloc: Global,
    handler: &mut H,
    talk: &Talk,
) -> Result<bool, AllocError> {
    let input = Vec::from_slice(alloc, &talk.input)?;
    let mut line = MemoryLine::new(input, Vec::new(alloc), Vec::new(alloc), 0);
    let mut buffer = used_buffer(alloc)?;
    Ok(match serve(rt, alloc, &mut line, handler, &mut buffer) {
        Ok(()) => line.output() == talk.want.as_slice() || tells_of_memory(line.output()),
        Err(EdgeFault::ReadFailed) => false,
        Err(EdgeFault::WriteFailed) => talk.want.starts_with(line.output()),
        Err(EdgeFault::OutOfMemory) => {
            let form = H::refusals();
            is_told_of_memory(talk, line.output(), form, false)
                || is_told_of_memory(talk, line.output(), form, true)
        }
    })
}

fn tells_of_memory(output: &[u8]) -> bool {
    output.windows(12).any(|w| w == b"HTTP/1.1 503".as_slice())
}
