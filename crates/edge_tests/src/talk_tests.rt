//! Talks and connections, in each way.

use crate::calls::{Message, line_of};
use crate::connections::CONNECTIONS;
use crate::handlers::{Echo, Front, Heedless, JsonEcho, Lacking, Measuring};
use crate::names::NAMES;
use crate::notation::names_of;
use crate::talks::{JSON_TALKS, LONG_TALKS, TALKS};
use crate::ways::{Way, are_all, walk};
use http_edge::{
    Allow, EdgeFault, MediaType, RefusalForm, Reply, connection_buffer, reply_bytes, serve,
};
use http_line::{Line, MemoryLine};
use std::alloc::{AllocError, Global};
use std::process::Abort;
use std::thread::Threads;
use tail_settings::{Settings, load};

/// Two tenants that keep every trace.
const SETTINGS: &str = "
[[tenant]]
name = \"a\"
tail_sampling = { policy = [{ type = \"always_sample\" }] }

[[tenant]]
name = \"b\"
tail_sampling = { policy = [{ type = \"always_sample\" }] }
";

/// How many talks with the echo are as they have to be, and the first that isn't.
fn echoed<R: Threads + Sync + Abort>(
    rt: &R,
    alloc: Global,
    talks: &'static str,
    way: Way,
) -> (u32, &'static str) {
    let names = names_of(alloc, NAMES).expect(rt, "memory");
    walk(rt, alloc, &mut Echo, &names, talks, way)
}

/// How many talks at a port whose refusals are JSON are as they have to be, and the first that isn't.
fn echoed_in_json<R: Threads + Sync + Abort>(
    rt: &R,
    alloc: Global,
    way: Way,
) -> (u32, &'static str) {
    let names = names_of(alloc, NAMES).expect(rt, "memory");
    walk(rt, alloc, &mut JsonEcho, &names, JSON_TALKS, way)
}

/// How many connections to a front are as they have to be, and the first that isn't.
fn routed<R: Threads + Sync + Abort>(
    rt: &R,
    alloc: Global,
    settings: &Settings,
    way: Way,
) -> (u32, &'static str) {
    let names = names_of(alloc, NAMES).expect(rt, "memory");
    let mut front = Front { alloc, settings };
    walk(rt, alloc, &mut front, &names, CONNECTIONS, way)
}

/// All connections to a front with two tenants are as they have to be.
fn are_routed<R: Threads + Sync + Abort>(rt: &R, alloc: Global, way: Way) {
    let settings = load(alloc, SETTINGS).expect(rt, "good settings");
    are_all(rt, routed(rt, alloc, &settings, way), 83);
}

#[test]
fn talks_cut_at_each_byte(rt: HostRuntime) {
    are_all(&rt, echoed(&rt, rt.alloc(), TALKS, Way::Cut), 217);
}

#[test]
fn talks_that_break_off(rt: HostRuntime) {
    are_all(&rt, echoed(&rt, rt.alloc(), TALKS, Way::Failing), 217);
}

/// What is looked at anew stays in proportion to what comes, so this takes seconds at most.
#[test]
fn long_talks(rt: HostRuntime) {
    are_all(&rt, echoed(&rt, rt.alloc(), LONG_TALKS, Way::Long), 23);
}

#[test]
fn talks_with_or_without_memory(rt: HostRuntime) {
    are_all(&rt, echoed(&rt, rt.alloc(), TALKS, Way::Refused), 217);
}

#[test]
fn refusals_in_json(rt: HostRuntime) {
    are_all(&rt, echoed_in_json(&rt, rt.alloc(), Way::Cut), 15);
    are_all(&rt, echoed_in_json(&rt, rt.alloc(), Way::Failing), 15);
}

#[test]
fn refusals_in_json_with_or_without_memory(rt: HostRuntime) {
    are_all(&rt, echoed_in_json(&rt, rt.alloc(), Way::Refused), 15);
}

#[test]
fn connections_cut_at_each_byte(rt: HostRuntime) {
    are_routed(&rt, rt.alloc(), Way::Cut);
}

#[test]
fn connections_that_break_off(rt: HostRuntime) {
    are_routed(&rt, rt.alloc(), Way::Failing);
}

#[test]
fn connections_with_or_without_memory(rt: HostRuntime) {
    are_routed(&rt, rt.alloc(), Way::Refused);
}

/// Whether a client is told that there was no memory, be it that the handler had none or that it was not asked.
fn is_told_of_memory<R: Threads + Sync>(rt: &R, alloc: Global) -> Result<bool, AllocError> {
    let input = Vec::from_slice(
        alloc,
        b"GET / HTTP/1.1\r\nHost: c\r\nConnection: close\r\n\r\n",
    )?;
    let mut line = MemoryLine::new(input, Vec::new(alloc), Vec::new(alloc), 0);
    let mut handler = Lacking {
        alloc,
        asked: false,
    };
    let mut buffer = connection_buffer(alloc)?;
    let told = serve(rt, alloc, &mut line, &mut handler, &mut buffer);
    let says = line.output().ends_with(b"out of memory");
    Ok(match told {
        Ok(()) => says,
        Err(EdgeFault::OutOfMemory) => says && !handler.asked,
        Err(_) => line.failures() == 1,
    })
}

/// tests/refused.py refuses each allocation in turn.
#[test]
fn a_reply_that_tells_of_memory_needs_none(rt: HostRuntime) {
    assert!(rt; is_told_of_memory(&rt, rt.alloc()).expect(&rt, "memory"));
}

/// How much room the body of a message has beside its bytes, where the message comes to the handler.
fn spare_room<R: Threads + Sync + Abort>(rt: &R, alloc: Global, message: &[u8]) -> Option<usize> {
    let input = Vec::from_slice(alloc, message).expect(rt, "memory");
    let mut line = MemoryLine::new(input, Vec::new(alloc), Vec::new(alloc), 0);
    let mut handler = Measuring { alloc, spare: None };
    let mut buffer = connection_buffer(alloc).expect(rt, "memory");
    match serve(rt, alloc, &mut line, &mut handler, &mut buffer) {
        Ok(()) => handler.spare,
        Err(_) => None,
    }
}

#[test]
fn bodies_have_no_room_that_they_leave_empty(rt: HostRuntime) {
    let sized = b"POST / HTTP/1.1\r\nHost: c\r\nContent-Length: 4\r\n\r\nabcd";
    let chunked = b"POST / HTTP/1.1\r\nHost: c\r\nTransfer-Encoding: chunked\r\n\r\n\
3\r\nabc\r\n1\r\nd\r\n0\r\n\r\n";
    assert!(rt;
        spare_room(&rt, rt.alloc(), sized) == Some(0)
            && spare_room(&rt, rt.alloc(), chunked) == Some(0)
    );
}

const NO_SUCH_PATH: &[u8] = b"HTTP/1.1 404 Not Found\r\nContent-Type: application/x-protobuf\r\n\
Content-Length: 14\r\n\r\n\x12\x0cno such path";

/// How many times this text is the whole output.
fn times(output: &[u8], text: &[u8]) -> Option<usize> {
    let mut rest = output;
    let mut count = 0usize;
    for _ in 0..output.len() {
        let Some(more) = rest.strip_prefix(text) else {
            break;
        };
        rest = more;
        count = count.saturating_add(1);
    }
    if rest.is_empty() { Some(count) } else { None }
}

/// Whether of messages whose heads settle their replies the handler is given one, the connection's buffer has as much
/// room as before, and so many replies say that there is no such path, and nothing else is written.
fn heeded<R: Threads + Sync + Abort>(
    rt: &R,
    alloc: Global,
    message: Message,
    replies: usize,
) -> bool {
    let mut line = line_of(rt, alloc, message, 0);
    let mut handler = Heedless { alloc, given: 0 };
    let mut buffer = connection_buffer(alloc).expect(rt, "memory");
    let room = buffer.capacity();
    let told = serve(rt, alloc, &mut line, &mut handler, &mut buffer);
    told.is_ok()
        && handler.given == 1
        && buffer.capacity() == room
        && times(line.output(), NO_SUCH_PATH) == Some(replies)
}

/// Its handler isn't given it, and nothing of it stays in the buffer. The message behind it comes whole.
#[test]
fn a_body_that_is_not_wanted_is_let_go_of(rt: HostRuntime) {
    let of_a_length = Message {
        head: b"POST / HTTP/1.1\r\nHost: c\r\nContent-Length: 1048576\r\n\r\n",
        body: 1_048_576,
        tail: b"GET / HTTP/1.1\r\nHost: c\r\n\r\n",
    };
    let chunked = Message {
        head: b"POST / HTTP/1.1\r\nHost: c\r\nTransfer-Encoding: chunked\r\n\r\n100000\r\n",
        body: 1_048_576,
        tail: b"\r\n0\r\n\r\nGET / HTTP/1.1\r\nHost: c\r\n\r\n",
    };
    assert!(rt; heeded(&rt, rt.alloc(), of_a_length, 2) && heeded(&rt, rt.alloc(), chunked, 2));
}

/// There is nothing to let go of where a body came whole with its head.
#[test]
fn a_body_that_came_with_its_head_is_given(rt: HostRuntime) {
    let message = Message {
        head: b"POST / HTTP/1.1\r\nHost: c\r\nContent-Length: 9\r\n\r\n",
        body: 9,
        tail: b"",
    };
    assert!(rt; heeded(&rt, rt.alloc(), message, 1));
}

/// A reply of this status and kind with the body `a`, after which the connection closes, begins so.
fn assert_begins(rt: &impl Abort, alloc: Global, status: u16, media: MediaType, begin: &str) {
    let reply = Reply {
        status,
        media,
        allow: Allow::Post,
        body: Vec::from_slice(alloc, b"a").expect(rt, "memory"),
    };
    let want = format!(in alloc;
        "HTTP/1.1 {begin}Connection: close\r\nContent-Length: 1\r\n\r\na"
    ).expect(rt, "memory");
    let bytes = reply_bytes(alloc, RefusalForm::Status, &reply, true).expect(rt, "memory");
    assert!(rt; bytes.as_slice() == want.as_bytes(), "{status}");
}

/// Each kind of content, and each status that no talk has.
const REPLIES: [(u16, MediaType, &str); 5] = [
    (
        200,
        MediaType::Protobuf,
        "200 OK\r\nContent-Type: application/x-protobuf\r\n",
    ),
    (
        201,
        MediaType::Json,
        "201 Created\r\nContent-Type: application/json\r\n",
    ),
    (
        401,
        MediaType::Json,
        "401 Unauthorized\r\nContent-Type: application/json\r\nWWW-Authenticate: Bearer realm=\"nimchaes\"\r\n",
    ),
    (
        409,
        MediaType::Html,
        "409 Conflict\r\nContent-Type: text/html; charset=utf-8\r\n",
    ),
    (
        422,
        MediaType::Metrics,
        "422 Unprocessable Content\r\nContent-Type: text/plain; version=0.0.4\r\n",
    ),
];

#[test]
fn replies_as_bytes(rt: HostRuntime) {
    for (status, media, begin) in REPLIES {
        assert_begins(&rt, rt.alloc(), status, media, begin);
    }
}
