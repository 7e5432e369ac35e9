//! The head of an answer.
ghost use Rattle.std.specs.Prelude.{◌≡◌, ◌≢◌, ℕ, ◌+◌, ◌<◌, ◌≤◌, List, [], ◌++◌, length, map, All, IfOk, OnOk, OnErr, Ok, Err, false};
ghost use Rattle.httparse.specs.Spans.{IsResponseOf, IsResponseWithin, IsHeaderWithin, header_bytes};
ghost use Rattle.httparse.specs.Grammar.{HasNoResponse};
ghost use Rattle.http_edge.specs.Chunks.{has_text};
ghost use Rattle.http_edge.specs.Stages.{IsWatched};
ghost use Rattle.http_edge.specs.Message.{max_head};
ghost use Rattle.http_line.specs.Line.{Moves};
ghost use Rattle.http_edge.specs.Steps.{work, HasFailed};
ghost use Rattle.http_edge.specs.Post.{is_bodiless_status, answer_framing_in, retry_after_in, seconds_of};
ghost use Rattle.http_edge.specs.AnswerBody.{IsAnswerHeadProgress, IfAnswerHead};

use crate::fields::{field, framing_in, number};
use crate::limits::{MAX_FIELDS, MAX_HEAD};
use crate::single::Single;
use crate::wire::{AnswerRoom, EdgeFault, Watch, fill};
use http_line::Line;
use http1::framing::Framing;
use httparse::Status;
use httparse::spans::{EMPTY_HEADER_SPAN, HeaderSpan, ResponseSpans, parse_response};

const MOST_DIGITS: usize = 10;

/// A whole head: its length in bytes, how the end of its body is found where that is sound, and its `Retry-After` in
/// seconds.
#[derive(Clone, Copy, Drop)]
pub(crate) struct AnswerHead {
    pub len: usize,
    pub status: u16,
    pub framing: Option<Framing>,
    pub retry_after: Option<u32>,
}

/// What the buffer begins with.
#[derive(Clone, Copy, Drop)]
pub(crate) enum AnswerHeadProgress {
    Whole(AnswerHead),
    More,
    Bad,
}

/// Reads until a head is there, a bad one, or the end.
pub(crate) fn read_answer_head<L: Line>(
    line: &mut L,
    room: &mut AnswerRoom,
    buffer: &mut Vec<u8>,
) -> Result<AnswerHeadProgress, EdgeFault>
    ensures on_success { IfOk result (λ begin. (read : List ℕ)
        × Moves L.gives L.takes line.old line.new read []
        × (buffer.new.items ≡ buffer.old.items ++ read)
        × IsAnswerHeadProgress buffer.new.items begin) }
    ensures whole { IfOk result (λ begin. IfAnswerHead begin (L.ends line.new ≡ L.ends line.old)) }
    ensures end { result ≡ Ok AnswerHeadProgress.More → L.ends line.old < L.ends line.new }
    ensures on_error { OnErr result ((read : List ℕ)
        × Moves L.gives L.takes line.old line.new read []) }
    ensures unread { result ≡ Err EdgeFault.ReadFailed → (read : List ℕ)
        × Moves L.gives L.takes line.old line.new read []
        × HasNoResponse (buffer.old.items ++ read) }
    ensures ends { L.ends line.old ≤ L.ends line.new }
    ensures stops { L.ends line.new ≤ L.ends line.old + 1 }
    ensures kept { OnOk result (L.failed line.new ≡ L.failed line.old) }
    ensures unfailed { result ≡ Err EdgeFault.OutOfMemory → L.failed line.new ≡ L.failed line.old }
    ensures failed { result ≡ Err EdgeFault.ReadFailed
        → HasFailed (L.failed line.old) (L.failed line.new) }
    ensures no_write { result ≢ Err EdgeFault.WriteFailed }
{
    let mut watch = Watch::before_head();
    'looks: loop {
        match answer_head_due(buffer, &mut watch) {
            AnswerHeadProgress::More => {}
            begin => return Ok(begin),
        }
        if !fill(line, buffer, room)? {
            return Ok(AnswerHeadProgress::More);
        }
    }
}

/// What the bytes begin with. Before it is time to look they are less than a head: no line has ended since the last
/// look.
fn answer_head_due(bytes: &[u8], watch: &mut Watch) -> AnswerHeadProgress
    requires { IsWatched HasNoResponse bytes.now watch.old }
    ensures begin { IsAnswerHeadProgress bytes.now result }
    ensures seen { watch.new.seen ≡ length bytes.now }
    ensures blank { watch.new.is_begun ≡ false → has_text bytes.now ≡ false }
{
    if watch.is_due(bytes, false) {
        answer_head_at(bytes)
    } else {
        AnswerHeadProgress::More
    }
}

/// What the bytes begin with. More of a head than there is room for is bad.
fn answer_head_at(bytes: &[u8]) -> AnswerHeadProgress
    ensures { IsAnswerHeadProgress bytes.now result }
{
    if bytes.len() < MAX_HEAD {
        return answer_begin_at(bytes);
    }
    match answer_begin_at(&bytes[..MAX_HEAD]) {
        AnswerHeadProgress::More => AnswerHeadProgress::Bad,
        AnswerHeadProgress::Whole(head) => AnswerHeadProgress::Whole(head),
        AnswerHeadProgress::Bad => AnswerHeadProgress::Bad,
    }
}

fn answer_begin_at(bytes: &[u8]) -> AnswerHeadProgress
    requires { length bytes.now ≤ max_head }
    ensures { IsAnswerHeadProgress bytes.now result }
{
    let mut spans = [EMPTY_HEADER_SPAN; MAX_FIELDS];
    match parse_response(bytes, &mut spans) {
        Ok(Status::Complete(found)) => AnswerHeadProgress::Whole(answer_head(bytes, found, &spans)),
        Ok(Status::Partial) => AnswerHeadProgress::More,
        Err(_) => AnswerHeadProgress::Bad,
    }
}

/// What a head says.
fn answer_head(bytes: &[u8], found: ResponseSpans, spans: &[HeaderSpan]) -> AnswerHead
    requires size { length bytes.now ≤ max_head }
    requires room { length spans.now ≤ 64 }
    requires within { IsResponseWithin bytes.now spans.now found }
    requires head { IsResponseOf bytes.now spans.now found }
    ensures { IsAnswerHeadProgress bytes.now (AnswerHeadProgress.Whole result) }
{
    let fields = &spans[..found.headers];
    AnswerHead {
        len: found.len,
        status: found.code,
        framing: answer_framing(bytes, fields, found.code),
        retry_after: retry_after(bytes, fields),
    }
}

/// How the end of the body is found.
fn answer_framing(bytes: &[u8], spans: &[HeaderSpan], status: u16) -> Option<Framing>
    requires { All (IsHeaderWithin (length bytes.now)) spans.now }
    ensures { result ≡ answer_framing_in status (map (header_bytes bytes.now) spans.now) }
{
    if is_bodiless_status(status) {
        Some(Framing::NoBody)
    } else {
        framing_in(bytes, spans, Framing::UntilClose)
    }
}

fn is_bodiless_status(status: u16) -> bool
    ensures { result ≡ is_bodiless_status status }
{
    status == 101 || status == 204 || status == 304
}

/// The seconds that `Retry-After` names.
fn retry_after(bytes: &[u8], spans: &[HeaderSpan]) -> Option<u32>
    requires { All (IsHeaderWithin (length bytes.now)) spans.now }
    ensures { result ≡ retry_after_in (map (header_bytes bytes.now) spans.now) }
{
    match field(bytes, spans, b"retry-after") {
        Single::Absent => None,
        Single::One(text) => seconds(number(text, MOST_DIGITS)),
        Single::Repeated => None,
    }
}

fn seconds(number: Option<u64>) -> Option<u32>
    ensures { result ≡ seconds_of number }
{
    match number {
        Some(number) => Some(number.min(u64::from(u32::MAX)) as u32),
        None => None,
    }
}
