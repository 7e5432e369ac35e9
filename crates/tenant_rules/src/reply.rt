//! What a tenant is told.

use bytes::Bytes;
use otlp_trace::Octets;

/// The answer to a post, as HTTP has it.
#[derive(Debug, PartialEq, Drop)]
pub struct Reply {
    /// The status code (RFC 9110, section 15).
    pub status: u16,
    /// The content, which may be empty.
    pub body: Octets,
}

/// What a tenant is told of one of its own steps.
#[derive(Debug, Drop, PartialEq)]
pub enum StepReply {
    /// Of a post.
    Reply(Reply),
    /// Of a turn: a batch to be sent. Tickets are counted from 1.
    Job { ticket: u64, payload: Bytes },
    /// Of a turn: there was something to do, but no batch to be sent.
    Worked,
    /// Of an answer or a drain.
    Done,
    /// Of a report, or of a retirement: the counters' line, without its end.
    Report(Octets),
    /// Of an answer: its ticket names no batch in flight, and nothing but due timers has happened.
    UnknownTicket,
    /// Of a retirement: the tenant wasn't drained or holds spans, and nothing but due timers has happened.
    NotEmpty,
}
