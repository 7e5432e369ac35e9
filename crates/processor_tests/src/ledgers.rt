//! Ledgers whose counters were worked out by hand.

ghost use Rattle.processor_tests.specs.Ledgers.{Soundness};

use drop_ledger::{Ledger, Place};

/// All spans that may be counted, but for one.
const ONE_BELOW_THE_MOST: u64 = (1 << 62) - 1;

/// Five spans came: one waits for the decision and one for a batch, three were sent, two of which arrived. Seven that
/// came with them weren't valid, and for eight there was no room.
fn some_sent() -> Ledger {
    let mut ledger = Ledger::new();
    ledger.take(5);
    ledger.move_spans(Place::Undecided, Place::Pending, 4);
    ledger.move_spans(Place::Pending, Place::Queued, 3);
    ledger.move_spans(Place::Queued, Place::Active, 3);
    ledger.move_spans(Place::Active, Place::Exported, 2);
    ledger.leave_out(7, 8);
    ledger
}

const SOME_SENT: [u64; 14] = [5, 1, 1, 0, 1, 2, 0, 0, 0, 0, 0, 0, 7, 8];

#[test]
fn spans_are_where_they_were_moved(rt: HostRuntime) {
    let ledger = some_sent();
    assert!(rt; ledger.accepted() == 5 && ledger.counters() == SOME_SENT);
    assert!(rt; ledger.places() == Ledger::of(SOME_SENT).places());
    assert!(rt; ledger.places() != Ledger::new().places());
}

/// The places of 2 to 12 spans, which are 77 together.
const EACH: [u64; 14] = [77, 2, 3, 4, 5, 6, 7, 8, 9, 10, 11, 12, 13, 14];

#[test]
fn each_counter_is_the_one_of_its_place(rt: HostRuntime) {
    let ledger = Ledger::of(EACH);
    for (place, spans) in [
        (Place::Undecided, 2),
        (Place::Pending, 3),
        (Place::Queued, 4),
        (Place::Active, 5),
        (Place::Exported, 6),
        (Place::NotSampled, 7),
        (Place::TooEarly, 8),
        (Place::QueueFull, 9),
        (Place::RetryExhausted, 10),
        (Place::BackEndRefused, 11),
        (Place::BackEndRejected, 12),
    ] {
        assert_eq!(rt; ledger.places().held(place), spans);
    }
}

#[test]
fn the_report_names_each_counter(rt: HostRuntime) {
    let text = Ledger::of(EACH)
        .report_text(rt.alloc())
        .expect(&rt, "memory");
    assert_eq!(rt;
        text.as_str(),
        "accepted=77 undecided=2 pending=3 queued=4 active=5 exported=6 not_sampled=7 too_early=8 queue_full=9 \
retry_exhausted=10 back_end_refused=11 back_end_rejected=12 invalid=13 over_budget=14"
    );
}

#[test]
fn no_more_than_the_most_fits(rt: HostRuntime) {
    let most = ONE_BELOW_THE_MOST;
    let ledger = Ledger::of([most, 0, 0, 0, 0, most, 0, 0, 0, 0, 0, 0, 0, 0]);
    assert!(rt; ledger.fits(1) && !ledger.fits(2) && !ledger.fits(u64::MAX));
}

#[test]
fn spans_that_are_left_out_count(rt: HostRuntime) {
    let mut ledger = Ledger::new();
    ledger.leave_out(1, 1);
    assert!(rt; ledger.fits(ONE_BELOW_THE_MOST - 1) && !ledger.fits(ONE_BELOW_THE_MOST));
    assert!(rt; ledger.accepted() == 0);
}

/// The definitions, on small ledgers, give what was worked out by hand.
fn definitions_of_ledgers()
    ensures soundness { Soundness }
{}
