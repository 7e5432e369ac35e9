//! What an answer means.

ghost use Rattle.std.specs.Prelude.{◌≡◌, ◌↔◌, true};
ghost use Rattle.send_retry.specs.Class.{answer_view, not_negative, refused_of, wait_of, class_of, class_of_status};

use otlp_read::read_response;

/// A wait of more seconds is taken as this one: a day.
const LONGEST_WAIT: u32 = 86_400;

/// A back end's answer to an export request.
#[derive(Debug, Drop, PartialEq, Eq)]
pub enum Answer {
    /// An HTTP answer: its status, its `Retry-After` in seconds where it has one, and its body.
    Http {
        status: u16,
        retry_after: Option<u32>,
        body: Vec<u8>,
    },
    /// No whole answer came.
    Failed,
}

/// What an answer means for the batch.
#[derive(Clone, Copy, Debug, PartialEq, Eq)]
pub enum Verdict {
    /// The back end took the batch, but for so many spans. It may name more than the batch has.
    Taken { rejected: u64 },
    /// The batch is to be sent again, after that many seconds at least, at most 86,400.
    Again { wait_s: u32 },
    /// The batch is refused for good.
    Never,
}

/// Verdicts are equal where they say the same.
pub fn equal_verdicts()
    ensures { (a b : Verdict) → (⟦<Verdict as PartialEq>⟧.eq a b ≡ true) ↔ (a ≡ b) }
{}

/// Answers are equal where they say the same.
pub fn equal_answers()
    ensures { (a b : Answer) → (⟦<Answer as PartialEq>⟧.eq a b ≡ true) ↔
        (answer_view a ≡ answer_view b) }
{}

/// What an answer means for the batch. It takes no memory.
pub fn classify(answer: &Answer) -> Verdict
    ensures { result ≡ class_of (answer_view answer.now) }
{
    match answer {
        Answer::Http {
            status,
            retry_after,
            body,
        } => class_of_status(*status, *retry_after, body.as_slice()),
        Answer::Failed => Verdict::Again { wait_s: 0 },
    }
}

fn class_of_status(status: u16, retry_after: Option<u32>, body: &[u8]) -> Verdict
    ensures { result ≡ class_of_status status retry_after body.now }
{
    if 200 <= status && status <= 299 {
        Verdict::Taken {
            rejected: refused_spans(body),
        }
    } else if status == 429 || status == 503 {
        Verdict::Again {
            wait_s: wait_seconds(retry_after),
        }
    } else if status == 502 || status == 504 {
        Verdict::Again { wait_s: 0 }
    } else {
        Verdict::Never
    }
}

/// How many seconds to wait at least.
fn wait_seconds(retry_after: Option<u32>) -> u32
    ensures { result ≡ wait_of retry_after }
{
    match retry_after {
        Some(seconds) => seconds.min(LONGEST_WAIT),
        None => 0,
    }
}

/// How many spans the reply with this body says that it refused. A body that can't be read refuses none.
fn refused_spans(body: &[u8]) -> u64
    ensures { result ≡ refused_of body.now }
{
    match read_response(body) {
        Ok(Some(partial)) => not_negative(partial.rejected_spans),
        Ok(None) => 0,
        Err(_) => 0,
    }
}

/// The number, or 0 where it is negative.
fn not_negative(number: i64) -> u64
    ensures { result ≡ not_negative number }
{
    if number > 0 { number.unsigned_abs() } else { 0 }
}
