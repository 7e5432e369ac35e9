//! Batches of a tenant's spans.

ghost use Rattle.std.specs.Prelude.{◌≤◌, ◌^◌};

use crate::lines::{cut, number, small};
use span_batcher::{Batch, SpanBatcher};
use std::alloc::{AllocError, Global};
use std::process::Abort;

/// A group comes; where it has no span, or the timer runs out first, nothing changes.
fn added(
    rt: &impl Abort,
    alloc: Global,
    batcher: &mut SpanBatcher,
    moment: u64,
    spans: &[u32],
) -> Vec<Batch>
    requires { moment ≤ 2 ^ 62 }
{
    if spans.is_empty() {
        return Vec::new(alloc);
    }
    match batcher.next_due() {
        Some(due) => {
            if due <= moment {
                return Vec::new(alloc);
            }
            let planned = batcher.plan(moment, spans).expect(rt, "memory");
            batcher.take(planned)
        }
        None => {
            let planned = batcher.plan(moment, spans).expect(rt, "memory");
            batcher.take(planned)
        }
    }
}

/// A group comes that fills no batch; where it has no span, fills one, or the timer runs out first, nothing changes.
fn appended(batcher: &mut SpanBatcher, moment: u64, spans: &[u32]) -> Result<(), AllocError>
    requires { moment ≤ 2 ^ 62 }
{
    if spans.is_empty() || batcher.fills(spans.len()) {
        return Ok(());
    }
    match batcher.next_due() {
        Some(due) => {
            if due <= moment {
                return Ok(());
            }
            batcher.append(moment, spans)
        }
        None => batcher.append(moment, spans),
    }
}

/// The timer runs out, where there is one.
fn fired(batcher: &mut SpanBatcher) -> Option<Batch> {
    match batcher.next_due() {
        None => None,
        Some(_) => Some(batcher.fire()),
    }
}

/// The drain, where the timer does not run out first.
fn drained(batcher: &mut SpanBatcher, moment: u64) -> Option<Batch> {
    match batcher.next_due() {
        Some(due) => {
            if due <= moment {
                return None;
            }
            batcher.drain(moment)
        }
        None => batcher.drain(moment),
    }
}

/// The numbers of spans that spaces part.
fn spans_of(rt: &impl Abort, alloc: Global, text: &str) -> Vec<u32> {
    let mut spans = Vec::new(alloc);
    for word in text.split(' ') {
        spans.push(small(word)).expect(rt, "memory");
    }
    spans
}

/// Whether a batch is of this moment and these spans, as `1000 21 22` spells it.
fn is_batch(batch: &Batch, spelled: &str) -> bool {
    let (moment, rest) = cut(spelled, " ");
    let mut words = rest.split(' ');
    for span in batch.spans() {
        match words.next() {
            Some(word) if number(word) == *span as u64 => {}
            _ => return false,
        }
    }
    words.next().is_none() && batch.moment() == number(moment)
}

/// Whether there are these batches, which commas part, or none.
fn are_batches(batches: &[Batch], spelled: &str) -> bool {
    let mut texts = spelled.split(", ");
    for batch in batches {
        match texts.next() {
            Some(text) if is_batch(batch, text) => {}
            _ => return false,
        }
    }
    texts.next().is_none() || spelled == "none"
}

fn is_one(batch: Option<Batch>, spelled: &str) -> bool {
    match batch {
        Some(batch) => is_batch(&batch, spelled),
        None => spelled == "none",
    }
}

fn is_due(due: Option<u64>, spelled: &str) -> bool {
    match due {
        Some(moment) => moment == number(spelled),
        None => spelled == "none",
    }
}

/// Whether spans that come make these batches: `MOMENT SPAN ..`.
fn adds(
    rt: &impl Abort,
    alloc: Global,
    batcher: &mut SpanBatcher,
    asked: &str,
    wanted: &str,
) -> bool {
    let (moment, spelled) = cut(asked, " ");
    let spans = spans_of(rt, alloc, spelled);
    let moment = number(moment).min(1 << 62);
    let batches = added(rt, alloc, batcher, moment, spans.as_slice());
    are_batches(batches.as_slice(), wanted)
}

/// Whether a step of a story comes true.
fn goes(rt: &impl Abort, alloc: Global, batcher: &mut SpanBatcher, line: &str) -> bool {
    let (asked, wanted) = cut(line, " = ");
    let (call, rest) = cut(asked, " ");
    match call {
        "add" => adds(rt, alloc, batcher, rest, wanted),
        "fire" => is_one(fired(batcher), wanted),
        "drain" => is_one(drained(batcher, number(rest)), wanted),
        _ => is_due(batcher.next_due(), wanted),
    }
}

fn tell(rt: &impl Abort, alloc: Global, mut batcher: SpanBatcher, story: &str) {
    for line in story.lines() {
        assert!(rt; goes(rt, alloc, &mut batcher, line), "at {line}");
    }
}

/// Two spans fill a batch, and three are the most in one; the rest waits its 200 milliseconds. A group that comes when
/// the timer has run out is none.
const THREES: &str = "\
add 1000 21 22 23 24 25 26 27 = 1000 21 22 23, 1000 24 25 26
due = 1200
fire = 1200 27
due = none
add 1300 28 = none
drain 1400 = 1400 28
due = none
drain 1500 = none";

#[test]
fn seven_spans_leave_as_three_and_three_and_the_last_in_time(rt: HostRuntime) {
    let batcher = SpanBatcher::new(rt.alloc(), 200, 2, 3);
    tell(&rt, rt.alloc(), batcher, THREES);
}

#[test]
fn without_a_timer_nothing_waits(rt: HostRuntime) {
    let batcher = SpanBatcher::new(rt.alloc(), 0, 2, 3);
    let all = "add 1000 21 22 23 24 25 26 27 = 1000 21 22 23, 1000 24 25 26, 1000 27\ndue = none";
    tell(&rt, rt.alloc(), batcher, all);
}

/// A span, and another when its timer runs out, which is first.
const TIMER_FIRST: &str = "\
add 1000 21 = none
due = 2000
fire = 2000 21
add 2000 22 = none
due = 3000";

#[test]
fn the_timer_is_first(rt: HostRuntime) {
    let batcher = SpanBatcher::new(rt.alloc(), 1000, 8192, 0);
    tell(&rt, rt.alloc(), batcher, TIMER_FIRST);
}

/// The third of three spans that came alone fills a batch, and a drain takes all that waits.
const ALONE: &str = "\
add 1000 21 = none
add 1000 22 = none
add 1000 23 = 1000 21 22 23
add 1000 24 = none
add 1050 25 = none
drain 1100 = 1100 24 25
due = none";

#[test]
fn spans_of_several_groups_share_a_batch(rt: HostRuntime) {
    let batcher = SpanBatcher::new(rt.alloc(), 200, 3, 0);
    tell(&rt, rt.alloc(), batcher, ALONE);
}

#[test]
fn spans_that_fill_no_batch_are_appended(rt: HostRuntime) {
    let mut batcher = SpanBatcher::new(rt.alloc(), 200, 3, 0);
    assert!(rt; !batcher.fills(2) && batcher.fills(3));
    appended(&mut batcher, 1000, &[21]).expect(&rt, "memory");
    assert!(rt; !batcher.fills(1) && batcher.fills(2));
    appended(&mut batcher, 1100, &[22]).expect(&rt, "memory");
    assert!(rt; batcher.spans() == [21_u32, 22].as_slice() && batcher.next_due() == Some(1200));
}

#[test]
fn appended_spans_are_taken_back(rt: HostRuntime) {
    let mut batcher = SpanBatcher::new(rt.alloc(), 200, 4, 0);
    let none = batcher.mark();
    appended(&mut batcher, 1000, &[21]).expect(&rt, "memory");
    let one = batcher.mark();
    appended(&mut batcher, 1100, &[22, 23]).expect(&rt, "memory");
    batcher.cut_back(one);
    assert!(rt; batcher.spans() == [21_u32].as_slice() && batcher.next_due() == Some(1200));
    batcher.cut_back(none);
    assert!(rt; batcher.spans().is_empty() && batcher.next_due().is_none());
}
