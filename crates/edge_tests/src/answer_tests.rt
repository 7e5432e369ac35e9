//! Posts over lines in memory, and the answers to them.

use crate::answers::{ANSWERS, LONG_ANSWERS};
use crate::names::NAMES;
use crate::notation::{Name, names_of, unfolded};
use crate::ways::{are_all, failing_line};
use export_edge::post_over;
use http_edge::{EdgeFault, read_answer, write_post};
use http_line::{Line, MemoryLine};
use send_retry::Answer;
use std::alloc::{AllocError, Global};
use std::process::Abort;

/// The post of `abc` to `h:1`.
const POST: &[u8] =
    b"POST /v1/traces HTTP/1.1\r\nHost: h:1\r\nContent-Type: application/x-protobuf\r\nContent-Length: 3\r\n\
Connection: close\r\n\r\nabc";

/// A way in which an answer is read.
#[derive(Clone, Copy)]
enum Way {
    /// Cut at each byte and byte by byte, and ended before each where it is whole only with its last.
    Cut,
    /// Whole.
    Long,
    /// Over a line that fails at its first call, at its second and so on.
    Failing,
    /// Whole, where memory may be refused.
    Refused,
}

/// What is read, and what it tells.
#[derive(Drop)]
struct Case {
    input: Vec<u8>,
    /// Whether it tells so only with its last byte.
    is_closed: bool,
    /// A status and the seconds to wait, or `none`.
    head: &'static str,
    body: Vec<u8>,
}

/// The case that a line says, none where it says none.
fn case_of(rt: &impl Abort, alloc: Global, names: &[Name], line: &'static str) -> Option<Case> {
    let (parts, is_closed) = match line.split_once(" => ") {
        Some(parts) => (Some(parts), true),
        None => (line.split_once(" -> "), false),
    };
    let (input, told) = parts?;
    let (head, body) = told.rsplit_once(' ').unwrap_or((told, ""));
    let input = unfolded(alloc, names, input).expect(rt, "memory");
    let body = unfolded(alloc, names, body).expect(rt, "memory");
    Some(Case {
        input,
        is_closed,
        head,
        body,
    })
}

fn is(answer: &Answer, case: &Case) -> bool {
    let Answer::Http {
        status,
        retry_after,
        body,
    } = answer
    else {
        return case.head == "none";
    };
    let (number, wait) = case.head.split_once(' ').unwrap_or(("", ""));
    number.parse().ok() == Some(*status)
        && wait.parse().ok() == *retry_after
        && body.as_slice() == case.body.as_slice()
}

fn has_failed(answer: &Answer) -> bool {
    match answer {
        Answer::Http { .. } => false,
        Answer::Failed => true,
    }
}

/// Posts over a line with this input in pieces of these lengths, whose call number `fuse` fails. The answer, and
/// whether the post was written whole.
fn posted(
    rt: &impl Abort,
    alloc: Global,
    input: &[u8],
    pieces: Vec<usize>,
    fuse: u64,
) -> (Answer, bool) {
    let input = Vec::from_slice(alloc, input).expect(rt, "memory");
    let mut line = MemoryLine::new(input, pieces, Vec::new(alloc), fuse);
    let answer = post_over(alloc, &mut line, "h:1", b"abc");
    (answer, line.output() == POST)
}

/// Goes through the cases of a text, a line each, up to the first that isn't as it has to be. How many were, and that
/// one.
fn walk(rt: &impl Abort, alloc: Global, lines: &'static str, way: Way) -> (u32, &'static str) {
    let names = names_of(alloc, NAMES).expect(rt, "memory");
    let mut count = 0u32;
    for line in lines.lines() {
        if let Some(case) = case_of(rt, alloc, &names, line) {
            if !is_told(rt, alloc, &case, way) {
                return (count, line);
            }
            count = count.saturating_add(1);
        }
    }
    (count, "")
}

fn is_told(rt: &impl Abort, alloc: Global, case: &Case, way: Way) -> bool {
    match way {
        Way::Cut => is_told_cut(rt, alloc, case) && fails_early(rt, alloc, case),
        Way::Long => is_told_in(rt, alloc, case, Vec::new(alloc)),
        Way::Failing => breaks_off(rt, alloc, case),
        Way::Refused => is_told_or_refused(alloc, case).expect(rt, "memory"),
    }
}

fn is_told_in(rt: &impl Abort, alloc: Global, case: &Case, pieces: Vec<usize>) -> bool {
    let (answer, is_whole) = posted(rt, alloc, &case.input, pieces, 0);
    is_whole && is(&answer, case)
}

fn is_told_cut(rt: &impl Abort, alloc: Global, case: &Case) -> bool {
    for cut in 0..=case.input.len() {
        let pieces = Vec::from_slice(alloc, &[cut]).expect(rt, "memory");
        if !is_told_in(rt, alloc, case, pieces) {
            return false;
        }
    }
    let single = vec![in alloc; 1usize; case.input.len()].expect(rt, "memory");
    is_told_in(rt, alloc, case, single)
}

/// Whether there is no answer where the input ends before its last byte.
fn fails_early(rt: &impl Abort, alloc: Global, case: &Case) -> bool {
    if !case.is_closed {
        return true;
    }
    for end in 0..case.input.len() {
        let (answer, is_whole) = posted(rt, alloc, &case.input[..end], Vec::new(alloc), 0);
        if !is_whole || !has_failed(&answer) {
            return false;
        }
    }
    true
}

/// Whether there is no answer where the line's first call fails, its second and so on, up to the first line that
/// doesn't fail. Two calls write the post.
fn breaks_off(rt: &impl Abort, alloc: Global, case: &Case) -> bool {
    for fuse in 1..1000u64 {
        let mut line = failing_line(rt, alloc, &case.input, 4, fuse);
        let answer = post_over(alloc, &mut line, "h:1", b"abc");
        if line.failures() == 0 {
            return fuse > 3 && line.output() == POST && is(&answer, case);
        }
        if !has_failed(&answer) || !POST.starts_with(line.output()) {
            return false;
        }
    }
    false
}

/// Where memory is refused there may be no answer, and no other one.
fn is_told_or_refused(alloc: Global, case: &Case) -> Result<bool, AllocError> {
    let input = Vec::from_slice(alloc, &case.input)?;
    let mut line = MemoryLine::new(input, Vec::new(alloc), Vec::new(alloc), 0);
    let answer = post_over(alloc, &mut line, "h:1", b"abc");
    Ok(POST.starts_with(line.output()) && (is(&answer, case) || has_failed(&answer)))
}

#[test]
fn answers_cut_at_each_byte(rt: HostRuntime) {
    are_all(&rt, walk(&rt, rt.alloc(), ANSWERS, Way::Cut), 63);
}

#[test]
fn long_answers(rt: HostRuntime) {
    are_all(&rt, walk(&rt, rt.alloc(), LONG_ANSWERS, Way::Long), 4);
}

#[test]
fn answers_that_break_off(rt: HostRuntime) {
    are_all(&rt, walk(&rt, rt.alloc(), ANSWERS, Way::Failing), 63);
}

#[test]
fn answers_with_or_without_memory(rt: HostRuntime) {
    are_all(&rt, walk(&rt, rt.alloc(), ANSWERS, Way::Refused), 63);
}

/// Which fault it is where a write or a read fails.
#[test]
fn faults_of_lines(rt: HostRuntime) {
    let alloc = rt.alloc();
    let mut line = MemoryLine::new(Vec::new(alloc), Vec::new(alloc), Vec::new(alloc), 2);
    assert!(rt; write_post(alloc, &mut line, "h:1", b"abc") == Err(EdgeFault::WriteFailed));
    let mut line = MemoryLine::new(Vec::new(alloc), Vec::new(alloc), Vec::new(alloc), 1);
    assert!(rt; matches!(read_answer(alloc, &mut line), Err(EdgeFault::ReadFailed)));
}
