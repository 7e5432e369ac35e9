//! Answers of back ends, as lines spell them.

use crate::lines::small;
use send_retry::Answer;
use std::alloc::Global;
use std::process::Abort;

/// The body of a name: partial successes (`ExportTracePartialSuccess`, whose field 1 is the number of rejected spans),
/// one without a number, one of less than none, -1 in ten bytes, and one that is cut short.
fn body(name: &str) -> &'static [u8] {
    match name {
        "two" => b"\x0a\x02\x08\x02",
        "five" => b"\x0a\x02\x08\x05",
        "numberless" => b"\x0a\x00",
        "negative" => b"\x0a\x0b\x08\xff\xff\xff\xff\xff\xff\xff\xff\xff\x01",
        "cut" => b"\x0a\x02\x08",
        "text" => b"no response",
        _ => b"",
    }
}

/// A wait in seconds, if one is asked for.
fn wait(word: &str) -> Option<u32> {
    if word == "-" { None } else { Some(small(word)) }
}

/// An answer of a status, a `Retry-After` and a body, each `-` where there is none; or none came, which is `failed`.
pub fn answer(
    rt: &impl Abort,
    alloc: Global,
    status: &str,
    retry_after: &str,
    name: &str,
) -> Answer {
    match status.parse::<u16>() {
        Ok(status) => Answer::Http {
            status,
            retry_after: wait(retry_after),
            body: Vec::from_slice(alloc, body(name)).expect(rt, "memory"),
        },
        Err(_) => Answer::Failed,
    }
}
