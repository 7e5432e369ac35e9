//! Answers of a back end.
ghost use Rattle.std.specs.Prelude.{◌≡◌, ◌≢◌, ℕ, ◌+◌, ◌/◌, ◌≤◌, ◌==◌, ◌&&◌, nat_lt, not, List, [], length, IfOk, IfSome, OnOk, OnErr, Err};
ghost use Rattle.send_retry.specs.Class.{answer_view};
ghost use Rattle.http_line.specs.Line.{Moves};
ghost use Rattle.http_edge.specs.Steps.{HasFailed};
ghost use Rattle.http_edge.specs.Post.{Tells, LacksAnswer, OneAnswer};
ghost use Rattle.http_edge.specs.AnswerBody.{IsFinal, TellsBehind, LacksBehind};

use crate::answer_body::read_answer_body;
use crate::answer_head::{AnswerHead, AnswerHeadProgress, read_answer_head};
use crate::wire::{AnswerRoom, EdgeFault, drop_front};
use http_line::Line;
use send_retry::Answer;
use std::alloc::Global;

const MOST_INTERIMS: usize = 16;

/// Reads the answer to a post. `Answer::Failed` is no whole answer: a bad head, framing or body, or an end too early.
/// Nothing is read behind the end of the input.
pub fn read_answer<L: Line>(alloc: Global, line: &mut L) -> Result<Answer, EdgeFault>
    // The answer is what the bytes read tell.
    ensures on_success { IfOk result (λ answer. (read : List ℕ)
        × Moves L.gives L.takes line.old line.new read []
        × Tells read (nat_lt (L.ends line.old) (L.ends line.new)) (answer_view answer)) }
    ensures on_error { OnErr result ((read : List ℕ)
        × Moves L.gives L.takes line.old line.new read []) }
    // A read that failed was wanted: no whole answer that states its end had come before it.
    ensures unread { result ≡ Err EdgeFault.ReadFailed → (read : List ℕ)
        × Moves L.gives L.takes line.old line.new read []
        × LacksAnswer read }
    // One read at most gave no byte: nothing is read behind it.
    ensures stops { L.ends line.new ≤ L.ends line.old + 1 }
    // Without a fault, and where memory alone was refused, no call of the line has failed.
    ensures kept { OnOk result (L.failed line.new ≡ L.failed line.old) }
    ensures unfailed { result ≡ Err EdgeFault.OutOfMemory → L.failed line.new ≡ L.failed line.old }
    ensures failed { result ≡ Err EdgeFault.ReadFailed
        → HasFailed (L.failed line.old) (L.failed line.new) }
    ensures no_write { result ≢ Err EdgeFault.WriteFailed }
{
    let mut room: AnswerRoom = [0u8; 4096];
    let mut buffer = Vec::new(alloc);
    match read_final_head(line, &mut room, &mut buffer)? {
        None => Ok(Answer::Failed),
        Some(head) => {
            let answer = read_after(alloc, line, &mut room, &mut buffer, head)?;
            Ok(answer)
        }
    }
}

/// Reads the head that no other head follows, after at most so many interim ones. None: none comes.
fn read_final_head<L: Line>(
    line: &mut L,
    room: &mut AnswerRoom,
    buffer: &mut Vec<u8>,
) -> Result<Option<AnswerHead>, EdgeFault>
    requires { buffer.old.items ≡ [] }
    ensures on_success { IfOk result (λ found. (read : List ℕ)
        × Moves L.gives L.takes line.old line.new read []
        × IsFinal read (nat_lt (L.ends line.old) (L.ends line.new)) buffer.new.items found) }
    ensures whole { IfOk result (λ found. IfSome found (λ _. L.ends line.new ≡ L.ends line.old)) }
    ensures on_error { OnErr result ((read : List ℕ)
        × Moves L.gives L.takes line.old line.new read []) }
    ensures unread { result ≡ Err EdgeFault.ReadFailed → (read : List ℕ)
        × Moves L.gives L.takes line.old line.new read []
        × LacksAnswer read }
    ensures ends { L.ends line.old ≤ L.ends line.new }
    ensures stops { L.ends line.new ≤ L.ends line.old + 1 }
    ensures kept { OnOk result (L.failed line.new ≡ L.failed line.old) }
    ensures unfailed { result ≡ Err EdgeFault.OutOfMemory → L.failed line.new ≡ L.failed line.old }
    ensures failed { result ≡ Err EdgeFault.ReadFailed
        → HasFailed (L.failed line.old) (L.failed line.new) }
    ensures no_write { result ≢ Err EdgeFault.WriteFailed }
{
    let mut interims = 0;
    'heads: loop {
        match read_answer_head(line, room, buffer)? {
            AnswerHeadProgress::More => return Ok(None),
            AnswerHeadProgress::Bad => return Ok(None),
            AnswerHeadProgress::Whole(head) => {
                if !is_interim(head.status) {
                    return Ok(Some(head));
                }
                if interims == MOST_INTERIMS {
                    return Ok(None);
                }
                interims += 1;
                drop_front(buffer, head.len);
            }
        }
    }
}

/// Whether another head follows a head with this status.
fn is_interim(status: u16) -> bool
    ensures { result ≡ ((status / 100 == 1) && not (status == 101)) }
{
    status / 100 == 1 && status != 101
}

/// Reads what comes after the head.
fn read_after<L: Line>(
    alloc: Global,
    line: &mut L,
    room: &mut AnswerRoom,
    buffer: &mut Vec<u8>,
    head: AnswerHead,
) -> Result<Answer, EdgeFault>
    requires { head.len ≤ length buffer.old.items }
    ensures on_success { IfOk result (λ answer. TellsBehind L.gives L.takes line.old line.new
        (nat_lt (L.ends line.old) (L.ends line.new)) buffer.old.items head (answer_view answer)) }
    ensures on_error { OnErr result ((read : List ℕ)
        × Moves L.gives L.takes line.old line.new read []) }
    ensures unread { result ≡ Err EdgeFault.ReadFailed → LacksBehind L.gives L.takes line.old
        line.new buffer.old.items head }
    ensures ends { L.ends line.old ≤ L.ends line.new }
    ensures stops { L.ends line.new ≤ L.ends line.old + 1 }
    ensures kept { OnOk result (L.failed line.new ≡ L.failed line.old) }
    ensures unfailed { result ≡ Err EdgeFault.OutOfMemory → L.failed line.new ≡ L.failed line.old }
    ensures failed { result ≡ Err EdgeFault.ReadFailed
        → HasFailed (L.failed line.old) (L.failed line.new) }
    ensures no_write { result ≢ Err EdgeFault.WriteFailed }
{
    match head.framing {
        None => Ok(Answer::Failed),
        Some(framing) => {
            drop_front(buffer, head.len);
            match read_answer_body(alloc, line, room, buffer, framing)? {
                None => Ok(Answer::Failed),
                Some(body) => Ok(Answer::Http {
                    status: head.status,
                    retry_after: head.retry_after,
                    body,
                }),
            }
        }
    }
}

/// What is read settles the answer.
pub fn one_answer()
    ensures { OneAnswer }
{}
