//! How often a line is called, of which no clause speaks.

use crate::handlers::{Heedless, Lacking};
use export_edge::post_over;
use http_edge::{Handler, connection_buffer, serve};
use http_line::{Line, MemoryLine};
use std::alloc::Global;
use std::process::Abort;
use std::thread::Threads;

/// A text with so many bytes in its midst.
#[derive(Clone, Copy)]
pub struct Message {
    pub head: &'static [u8],
    pub body: usize,
    pub tail: &'static [u8],
}

/// A line that gives as much as there is room for, and whose call number `fuse` fails.
pub fn line_of(rt: &impl Abort, alloc: Global, message: Message, fuse: u64) -> MemoryLine {
    let body = vec![in alloc; b'a'; message.body].expect(rt, "memory");
    let mut input = Vec::from_slice(alloc, message.head).expect(rt, "memory");
    input.extend_from_slice(&body).expect(rt, "memory");
    input.extend_from_slice(message.tail).expect(rt, "memory");
    MemoryLine::new(input, Vec::new(alloc), Vec::new(alloc), fuse)
}

/// Whether call number `fuse` is made while a message is answered.
fn is_made<R: Threads + Sync + Abort, H: Handler>(
    rt: &R,
    alloc: Global,
    handler: &mut H,
    message: Message,
    fuse: u64,
) -> bool {
    let mut line = line_of(rt, alloc, message, fuse);
    let mut buffer = connection_buffer(alloc).expect(rt, "memory");
    let _ = serve(rt, alloc, &mut line, handler, &mut buffer);
    line.failures() == 1
}

/// Whether a message is answered by so many calls of its line.
fn is_by<R: Threads + Sync + Abort, H: Handler>(
    rt: &R,
    alloc: Global,
    handler: &mut H,
    message: Message,
    calls: u64,
) -> bool {
    is_made(rt, alloc, handler, message, calls)
        && !is_made(rt, alloc, handler, message, calls.saturating_add(1))
}

/// The same by so many where its body is wanted, and by so many where it isn't.
fn is_answered_by<R: Threads + Sync + Abort>(
    rt: &R,
    alloc: Global,
    message: Message,
    wanted: u64,
    unwanted: u64,
) -> bool {
    let mut wants = Lacking {
        alloc,
        asked: false,
    };
    let mut heedless = Heedless { alloc, given: 0 };
    is_by(rt, alloc, &mut wants, message, wanted)
        && is_by(rt, alloc, &mut heedless, message, unwanted)
}

#[test]
fn a_head_that_came_whole_is_one_read(rt: HostRuntime) {
    let message = Message {
        head: b"GET / HTTP/1.1\r\nHost: c\r\nConnection: close\r\n\r\n",
        body: 0,
        tail: b"",
    };
    assert!(rt; is_answered_by(&rt, rt.alloc(), message, 2, 2));
}

/// The first read is of 4,096 bytes, of which 72 are the head's. The others go into one of 16,384, one of 32,768 and 16
/// of 65,536, and where they aren't wanted into 128 of 8,192.
#[test]
fn a_body_of_a_length_is_read_by_as_much_as_there_is_room_for(rt: HostRuntime) {
    let message = Message {
        head: b"POST / HTTP/1.1\r\nHost: c\r\nConnection: close\r\nContent-Length: 1048576\r\n\r\n",
        body: 1_048_576,
        tail: b"",
    };
    assert!(rt; is_answered_by(&rt, rt.alloc(), message, 20, 130));
}

/// A head of 75 bytes, the chunk's line of 8, its bytes and 7 behind them go into 257 reads of 4,096 bytes.
#[test]
fn a_chunk_is_read_by_as_much_as_is_looked_at(rt: HostRuntime) {
    let message = Message {
        head: b"POST / HTTP/1.1\r\nHost: c\r\nConnection: close\r\nTransfer-Encoding: chunked\r\n\r\n100000\r\n",
        body: 1_048_576,
        tail: b"\r\n0\r\n\r\n",
    };
    assert!(rt; is_answered_by(&rt, rt.alloc(), message, 258, 258));
}

/// Whether call number `fuse` is made while a post is made and answered.
fn is_made_of_a_post(rt: &impl Abort, alloc: Global, fuse: u64) -> bool {
    let answer = Message {
        head: b"HTTP/1.1 200 OK\r\nContent-Length: 3\r\n\r\n",
        body: 3,
        tail: b"",
    };
    let mut line = line_of(rt, alloc, answer, fuse);
    let _ = post_over(alloc, &mut line, "h:1", b"abc");
    line.failures() == 1
}

/// Its head and its payload are a write each, and an answer that came whole is one read.
#[test]
fn a_post_is_two_writes_and_a_read(rt: HostRuntime) {
    assert!(rt; is_made_of_a_post(&rt, rt.alloc(), 3));
    assert!(rt; !is_made_of_a_post(&rt, rt.alloc(), 4));
}
