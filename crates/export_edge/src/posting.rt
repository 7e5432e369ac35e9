//! A post and its answer over one line.
ghost use Rattle.std.specs.Prelude.{◌≡◌, ◌≢◌, ◌+◌, ◌≤◌, IfOk, IfErr, OnOk};
ghost use Rattle.send_retry.specs.Class.{answer_view};
ghost use Rattle.http_edge.specs.Post.{post_text};
ghost use Rattle.export_edge.specs.Posting.{Exchanges, BreaksOff, ComesTo};

use http_edge::{EdgeFault, read_answer, write_post};
use http_line::Line;
use send_retry::Answer;
use std::alloc::Global;

/// Posts the payload over a new line, and says what came of it. Each fault is `Answer::Failed`: of the line, of memory,
/// of the answer's head, its framing or its body. The line is given up with it.
pub fn post_over<L: Line>(alloc: Global, line: &mut L, host: &str, payload: &[u8]) -> Answer
    ensures comes_to { ComesTo L.gives L.takes L.ends L.failed (post_text host.now payload.now)
        line.old line.new (answer_view result) }
    // One read at most gave no byte: nothing is read behind it.
    ensures stops { L.ends line.new ≤ L.ends line.old + 1 }
    // Where an answer came, no call of the line has failed.
    ensures kept { result ≢ Answer.Failed → L.failed line.new ≡ L.failed line.old }
{
    match exchange(alloc, line, host, payload) {
        Ok(answer) => answer,
        Err(_) => Answer::Failed,
    }
}

/// Writes the post, and then reads the answer to it. Nothing is read behind the end of the input.
fn exchange<L: Line>(
    alloc: Global,
    line: &mut L,
    host: &str,
    payload: &[u8],
) -> Result<Answer, EdgeFault>
    ensures on_success { IfOk result (λ answer. Exchanges L.gives L.takes L.ends
        L.failed (post_text host.now payload.now) line.old
        line.new (answer_view answer)) }
    ensures on_error { IfErr result (λ fault. BreaksOff L.gives L.takes L.failed
        (post_text host.now payload.now) line.old
        line.new fault) }
    ensures stops { L.ends line.new ≤ L.ends line.old + 1 }
    ensures kept { OnOk result (L.failed line.new ≡ L.failed line.old) }
{
    write_post(alloc, line, host, payload)?;
    let answer = read_answer(alloc, line)?;
    Ok(answer)
}
