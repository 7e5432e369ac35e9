//! Deliveries whose jobs, answers and moments were worked out by hand. Moments are milliseconds.

ghost use Rattle.processor_tests.specs.Senders.{Tickets};

use crate::answers::answer;
use crate::lines::{cut, number, small, words};
use crate::retry_settings::{ENDLESS, LONG_ENOUGH};
use bytes::Bytes;
use send_queue::{Batch, OfferFault, SendQueue, SettleFault, Settled, offers_are_undone};
use std::alloc::{AllocError, Global};
use std::process::Abort;
use tail_settings::{MOST_QUEUE_BYTES, RetryOnFailure, SendingQueue};

/// What a call is to give: a word, and one or two numbers.
#[derive(Clone, Copy)]
struct Wanted<'a> {
    word: &'a str,
    first: u64,
    second: u64,
}

fn wanted_of(text: &str) -> Wanted<'_> {
    let [word, first, second, _, _, _, _] = words(text);
    Wanted {
        word,
        first: number(first),
        second: number(second),
    }
}

fn is(wanted: &Wanted<'_>, word: &str, first: u64, second: u64) -> bool {
    wanted.word == word && wanted.first == first && wanted.second == second
}

/// A batch that formed at a moment, of as many spans as its payload has bytes.
fn batch(moment: u64, payload: &'static str) -> Batch {
    Batch {
        moment,
        spans: payload.len() as u64,
        payload: Bytes::from_static(payload.as_bytes()),
    }
}

/// Whether a batch is taken into the queue or comes back, as wanted.
fn offers(queue: &mut SendQueue, batch: Batch, wanted: &Wanted<'_>) -> Result<bool, AllocError> {
    match queue.offer(batch) {
        Ok(()) => Ok(wanted.word == "taken"),
        Err(OfferFault::Full(back)) => Ok(is(wanted, "full", back.spans, 0)),
        Err(OfferFault::OutOfMemory(_back)) => Err(AllocError),
    }
}

/// Whether the batch that was offered last comes back with the wanted payload.
fn takes_back(queue: &mut SendQueue, wanted: &Wanted<'_>) -> bool {
    match queue.undo_offer() {
        Some(batch) => batch.payload.as_slice() == wanted.word.as_bytes(),
        None => wanted.word == "none",
    }
}

/// Whether there is the wanted job: its payload and its ticket, or none.
fn is_job(job: Option<(u64, Bytes)>, wanted: &Wanted<'_>) -> bool {
    match job {
        Some((ticket, payload)) => {
            payload.as_slice() == wanted.word.as_bytes() && ticket == wanted.first
        }
        None => wanted.word == "none",
    }
}

/// Whether as many batches wait to be sent first as wanted, of as many as may.
fn has_room(queue: &SendQueue, wanted: &Wanted<'_>) -> bool {
    is(
        wanted,
        "of",
        queue.queued() as u64,
        u64::from(queue.capacity()),
    )
}

/// Whether as many more bytes may wait as wanted.
fn has_bytes_left(queue: &SendQueue, wanted: &Wanted<'_>) -> bool {
    is(wanted, "left", queue.bytes_left(), 0)
}

/// Whether those that wait have no more bytes than this, once bytes are no bound, so that they may have as many again,
/// and as many more as wanted.
fn bounds_again(queue: &mut SendQueue, bytes: u64, wanted: &Wanted<'_>) -> bool {
    if bytes > MOST_QUEUE_BYTES || bytes + queue.bytes_left() < MOST_QUEUE_BYTES {
        return false;
    }
    queue.bound_bytes(bytes);
    has_bytes_left(queue, wanted)
}

fn is_ready(ready: Option<u64>, wanted: &Wanted<'_>) -> bool {
    match ready {
        Some(moment) => is(wanted, "at", moment, 0),
        None => wanted.word == "none",
    }
}

fn is_settled(settled: Result<Settled, SettleFault>, wanted: &Wanted<'_>) -> bool {
    match settled {
        Ok(Settled::Taken { exported, rejected }) => is(wanted, "taken", exported, rejected),
        Ok(Settled::Waits { spans, due }) => is(wanted, "waits", spans, due),
        Ok(Settled::Refused { spans }) => is(wanted, "refused", spans, 0),
        Ok(Settled::Exhausted { spans }) => is(wanted, "exhausted", spans, 0),
        Err(fault) => is(wanted, "fault", u64::from(fault.number()), 0),
    }
}

/// Whether an answer is settled as wanted: `TICKET MOMENT WORD`, and the answer.
fn settles(
    rt: &impl Abort,
    alloc: Global,
    queue: &mut SendQueue,
    asked: &str,
    wanted: &Wanted<'_>,
) -> bool {
    let [_, ticket, moment, word, status, retry_after, body] = words(asked);
    let answer = answer(rt, alloc, status, retry_after, body);
    let moment = number(moment).min(1 << 62);
    is_settled(
        queue.settle(number(ticket), moment, small(word), &answer),
        wanted,
    )
}

/// Whether a step of a story comes true.
fn goes(rt: &impl Abort, alloc: Global, queue: &mut SendQueue, line: &'static str) -> bool {
    let (asked, spelled) = cut(line, " = ");
    let wanted = wanted_of(spelled);
    let [call, moment, payload, _, _, _, _] = words(asked);
    let moment = number(moment).min(1 << 62);
    match call {
        "offer" => offers(queue, batch(moment, payload), &wanted).expect(rt, "memory"),
        "back" => takes_back(queue, &wanted),
        "job" => is_job(queue.take_job(moment).expect(rt, "memory"), &wanted),
        "leaves" => is(&wanted, "spans", queue.leaving(moment), 0),
        "ready" => is_ready(queue.ready(), &wanted),
        "room" => has_room(queue, &wanted),
        "bytes" => has_bytes_left(queue, &wanted),
        "lift" => is(&wanted, "was", queue.lift_bound(), 0),
        "bound" => bounds_again(queue, moment, &wanted),
        _ => settles(rt, alloc, queue, asked, &wanted),
    }
}

/// Tells a story to a new sender with these settings, which is to be empty in the end.
fn tell(
    rt: &impl Abort,
    alloc: Global,
    sending: &SendingQueue,
    retry: &RetryOnFailure,
    story: &'static str,
) {
    let mut queue = SendQueue::new(alloc, sending, retry).expect(rt, "memory");
    for line in story.lines() {
        assert!(rt; goes(rt, alloc, &mut queue, line), "at {line}");
    }
    assert!(rt; queue.is_empty());
}

/// One batch at a time, of which one waits.
const ONE: SendingQueue = SendingQueue {
    queue_size: 1,
    queue_bytes: MOST_QUEUE_BYTES,
    num_consumers: 1,
};

/// Two batches at a time, of which three wait.
const TWO: SendingQueue = SendingQueue {
    queue_size: 3,
    queue_bytes: MOST_QUEUE_BYTES,
    num_consumers: 2,
};

/// One batch at a time, of which three wait, of seven bytes together.
const SEVEN_BYTES: SendingQueue = SendingQueue {
    queue_size: 3,
    queue_bytes: 7,
    num_consumers: 1,
};

/// No attempt comes later than this after the first.
const FIFTY_SECONDS: RetryOnFailure = RetryOnFailure {
    initial_interval: 5000,
    max_interval: 30_000,
    max_elapsed_time: 50_000,
    multiplier: 1500,
    randomization_factor: 500,
};

const SENT: &str = "\
job 999 = none
room 999 = of 0 1
offer 1000 abc = taken
room 1000 = of 1 1
offer 1000 d = full 1
room 1000 = of 1 1
ready = at 1000
leaves 1000 = spans 3
answer 1 1000 0 200 - - = fault 21
job 1000 = abc 1
leaves 1000 = spans 0
room 1000 = of 0 1
offer 1000 ef = taken
leaves 1000 = spans 0
ready = none
job 1000 = none
answer 2 1000 0 200 - - = fault 21
answer 1 1000 0 200 - - = taken 3 0
answer 1 1000 0 200 - - = fault 21
ready = at 1000
job 1000 = ef 2
answer 2 1000 0 200 - - = taken 2 0
ready = none";

#[test]
fn a_batch_is_sent_and_its_consumer_is_free(rt: HostRuntime) {
    tell(&rt, rt.alloc(), &ONE, &ENDLESS, SENT);
}

/// Bytes count while a batch waits to be sent for the first time, and not once it is handed out or taken back.
const BY_BYTES: &str = "\
bytes 1000 = left 7
offer 1000 abc = taken
offer 1000 defg = taken
bytes 1000 = left 0
room 1000 = of 2 3
offer 1000 h = full 1
job 1000 = abc 1
bytes 1000 = left 3
offer 1000 ijkl = full 4
offer 1000 ijk = taken
bytes 1000 = left 0
back = ijk
bytes 1000 = left 3
offer 1000 h = taken
answer 1 1000 0 503 40 - = waits 3 41000
bytes 1000 = left 2
job 41000 = abc 2
bytes 1000 = left 2
answer 2 41000 0 200 - - = taken 3 0
job 41000 = defg 3
answer 3 41000 0 200 - - = taken 4 0
job 41000 = h 4
bytes 1000 = left 7
answer 4 41000 0 200 - - = taken 1 0";

#[test]
fn batches_that_wait_have_so_many_bytes_at_most(rt: HostRuntime) {
    tell(&rt, rt.alloc(), &SEVEN_BYTES, &ENDLESS, BY_BYTES);
}

/// Once bytes are no bound, as many batches wait as may.
const NOT_BY_BYTES: &str = "\
offer 1000 abcdefg = taken
offer 1000 h = full 1
lift 1000 = was 7
bytes 1000 = left 4398046511097
offer 1000 h = taken
bytes 1000 = left 4398046511096
offer 1000 ij = taken
offer 1000 k = full 1
lift 1000 = was 4398046511104
job 1000 = abcdefg 1
answer 1 1000 0 200 - - = taken 7 0
job 1000 = h 2
answer 2 1000 0 200 - - = taken 1 0
job 1000 = ij 3
answer 3 1000 0 200 - - = taken 2 0
bytes 1000 = left 4398046511104";

#[test]
fn a_bound_of_bytes_is_lifted(rt: HostRuntime) {
    tell(&rt, rt.alloc(), &SEVEN_BYTES, &ENDLESS, NOT_BY_BYTES);
}

#[test]
fn a_bound_of_bytes_is_put_back(rt: HostRuntime) {
    let mut queue = SendQueue::new(rt.alloc(), &SEVEN_BYTES, &ENDLESS).expect(&rt, "memory");
    queue.bound_bytes(2);
    assert!(rt; queue.bytes_left() == 2);
    assert!(rt; goes(&rt, rt.alloc(), &mut queue, "offer 1000 abc = full 3"));
    queue.lift_bound();
    assert!(rt; goes(&rt, rt.alloc(), &mut queue, "offer 1000 abc = taken"));
}

/// What waits already counts for a bound that is put back, and what was offered meanwhile and taken back doesn't.
const PUT_BACK: &str = "\
offer 1000 abcd = taken
offer 1000 ef = taken
bytes 1000 = left 1
lift 1000 = was 7
bytes 1000 = left 4398046511098
offer 1000 ghijk = taken
bytes 1000 = left 4398046511093
back = ghijk
bytes 1000 = left 4398046511098
bound 7 = left 1
offer 1000 gh = full 2
lift 1000 = was 7
bound 6 = left 0
offer 1000 g = full 1
job 1000 = abcd 1
bytes 1000 = left 4
offer 1000 ghijk = full 5
offer 1000 ghij = taken
bytes 1000 = left 0
lift 1000 = was 6
bound 9 = left 3
answer 1 1000 0 200 - - = taken 4 0
job 1000 = ef 2
answer 2 1000 0 200 - - = taken 2 0
job 1000 = ghij 3
answer 3 1000 0 200 - - = taken 4 0
bytes 1000 = left 9";

#[test]
fn a_bound_of_bytes_is_put_back_behind_batches_that_wait(rt: HostRuntime) {
    tell(&rt, rt.alloc(), &SEVEN_BYTES, &ENDLESS, PUT_BACK);
}

/// After 40 seconds that were asked for, and after 11,250 milliseconds that the greatest word picks.
const GIVEN_UP: &str = "\
offer 1000 abc = taken
job 1000 = abc 1
answer 1 1000 0 503 40 - = waits 3 41000
answer 1 1000 0 200 - - = fault 21
room 1000 = of 0 1
offer 2000 d = taken
ready = at 41000
job 40999 = none
leaves 41000 = spans 0
job 41000 = abc 2
answer 2 41000 4294967295 503 - - = exhausted 3
ready = at 2000
leaves 41000 = spans 1
job 41000 = d 3
answer 3 41000 0 301 - - = refused 1";

#[test]
fn a_batch_is_given_up_in_the_end(rt: HostRuntime) {
    tell(&rt, rt.alloc(), &ONE, &FIFTY_SECONDS, GIVEN_UP);
}

const JUST_IN_TIME: &str = "\
offer 1000 abc = taken
job 1000 = abc 1
answer 1 1000 0 503 40 - = waits 3 41000
job 41000 = abc 2
answer 2 41000 4294967295 failed - - = waits 3 52250
job 52249 = none
job 52250 = abc 3
answer 3 52250 0 200 - five = taken 0 3";

#[test]
fn a_batch_is_sent_a_third_time_just_in_time(rt: HostRuntime) {
    tell(&rt, rt.alloc(), &ONE, &LONG_ENOUGH, JUST_IN_TIME);
}

/// With the least word the first delay is 2,500 and the second 3,750. In the end what was offered last is taken back.
const IN_ORDER: &str = "\
offer 1000 aaa = taken
offer 1000 bb = taken
offer 1000 c = taken
job 1000 = aaa 1
job 1000 = bb 2
job 1000 = none
answer 1 1500 0 502 - - = waits 3 4000
answer 2 1000 0 502 - - = waits 2 3500
ready = at 3500
leaves 4000 = spans 0
job 4000 = bb 3
job 4000 = aaa 4
answer 4 5000 0 502 - - = waits 3 8750
answer 3 5000 0 502 - - = waits 2 8750
job 8750 = bb 5
job 8750 = aaa 6
answer 5 8750 0 400 - - = refused 2
leaves 8750 = spans 1
job 8750 = c 7
answer 6 9000 0 200 - two = taken 1 2
answer 7 9000 0 200 - - = taken 1 0
offer 1000 a = taken
offer 1100 b = taken
room 1100 = of 2 3
back = b
room 1100 = of 1 3
ready = at 1000
back = a
ready = none
back = none
job 2000 = none";

#[test]
fn retries_go_by_moment_and_ticket_and_the_newest_is_taken_back(rt: HostRuntime) {
    tell(&rt, rt.alloc(), &TWO, &ENDLESS, IN_ORDER);
    offers_are_undone();
}

/// The definitions, on the last tickets, give what was worked out by hand.
fn definitions_of_senders()
    ensures tickets { Tickets }
{}
