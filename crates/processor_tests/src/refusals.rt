//! A sender that is refused memory: the call changes nothing, and does the next time what it is to do.

use crate::lines::{cut, number, words};
use crate::retry_settings::ENDLESS;
use bytes::Bytes;
use send_queue::{Batch, OfferFault, SendQueue, Settled};
use send_retry::Answer;
use std::alloc::Global;
use std::process::Abort;
use tail_settings::{MOST_QUEUE_BYTES, SendingQueue};

const TWO_AT_A_TIME: SendingQueue = SendingQueue {
    queue_size: 3,
    queue_bytes: MOST_QUEUE_BYTES,
    num_consumers: 2,
};

/// A batch that formed at 1000, of as many spans as its payload has bytes.
fn batch(payload: &'static [u8]) -> Batch {
    Batch {
        moment: 1000,
        spans: payload.len() as u64,
        payload: Bytes::from_static(payload),
    }
}

/// What is seen of a sender: from when on there is a job, how many spans leave the queue with the next one, and whether
/// there is none.
fn seen(queue: &SendQueue) -> (Option<u64>, u64, bool) {
    (queue.ready(), queue.leaving(9000), queue.is_empty())
}

/// Whether a batch is taken into the queue. Where memory is refused it comes back, nothing has changed, and it is
/// offered again.
fn is_taken_at_last(rt: &impl Abort, queue: &mut SendQueue, payload: &'static [u8]) -> bool {
    let before = seen(queue);
    match queue.offer(batch(payload)) {
        Ok(()) => true,
        Err(OfferFault::Full(_back)) => false,
        Err(OfferFault::OutOfMemory(back)) => {
            assert!(rt; back.payload.as_slice() == payload && seen(queue) == before);
            queue.offer(back).is_ok()
        }
    }
}

/// The ticket of the next job, 0 for none. Where memory is refused nothing has changed, and it is asked for again.
fn ticket_at_last(rt: &impl Abort, queue: &mut SendQueue, moment: u64) -> u64 {
    let before = seen(queue);
    if let Ok(job) = queue.take_job(moment) {
        return ticket_of(job);
    }
    assert!(rt; seen(queue) == before);
    ticket_of(queue.take_job(moment).expect(rt, "memory"))
}

fn ticket_of(job: Option<(u64, Bytes)>) -> u64 {
    match job {
        Some((ticket, _payload)) => ticket,
        None => 0,
    }
}

/// From when on a batch waits that wasn't answered, 0 where it doesn't.
fn due_of_failed(queue: &mut SendQueue, ticket: u64) -> u64 {
    match queue.settle(ticket, 1000, 0, &Answer::Failed) {
        Ok(Settled::Waits { spans: _, due }) => due,
        _ => 0,
    }
}

/// How many spans the batch has that was offered last, 0 where none waits.
fn spans_taken_back(queue: &mut SendQueue) -> u64 {
    match queue.undo_offer() {
        Some(batch) => batch.spans,
        None => 0,
    }
}

/// What a call gives: a ticket, a moment or a count of spans, 0 for none; or whether it is so, 0 or 1.
fn given(rt: &impl Abort, queue: &mut SendQueue, asked: &'static str) -> u64 {
    let [call, argument, _, _, _, _, _] = words(asked);
    match call {
        "offer" => u64::from(is_taken_at_last(rt, queue, argument.as_bytes())),
        "back" => spans_taken_back(queue),
        "job" => ticket_at_last(rt, queue, number(argument)),
        "failed" => due_of_failed(queue, number(argument)),
        "leaving" => queue.leaving(number(argument)),
        "ready" => queue.ready().unwrap_or(0),
        _ => u64::from(queue.is_empty()),
    }
}

/// Tells a story of calls and of what they give to a new sender.
fn tell(rt: &impl Abort, alloc: Global, story: &'static str) {
    let mut queue = SendQueue::new(alloc, &TWO_AT_A_TIME, &ENDLESS).expect(rt, "memory");
    for line in story.lines() {
        let (asked, wanted) = cut(line, " = ");
        assert!(rt; given(rt, &mut queue, asked) == number(wanted), "at {line}");
    }
}

/// Two of three batches are sent, fail, and are sent again.
const STORY: &str = "\
offer a = 1
offer bb = 1
offer ccc = 1
offer dddd = 0
job 1000 = 1
job 1000 = 2
failed 2 = 3500
failed 1 = 3500
job 3500 = 3
job 3500 = 4
job 3500 = 0
leaving 3500 = 0";

// Each run with one allocation refused has to end well, too.
#[test]
fn where_memory_is_refused_a_sender_stays(rt: HostRuntime) {
    tell(&rt, rt.alloc(), STORY);
}

/// What a step offered before it was refused memory leaves again, the latest first.
const TAKEN_BACK: &str = "\
offer a = 1
ready = 1000
leaving 9000 = 1
offer bb = 1
offer ccc = 1
back = 3
back = 2
ready = 1000
leaving 9000 = 1
is-empty = 0
job 1000 = 1
ready = 0
is-empty = 0";

#[test]
fn a_step_that_is_refused_memory_takes_back_its_batches(rt: HostRuntime) {
    tell(&rt, rt.alloc(), TAKEN_BACK);
}
