//! Lines of reports.

use crate::figures::EACH;
use admin_pages::read_report;
use drop_ledger::Ledger;

#[test]
fn a_report_is_read_back(rt: HostRuntime) {
    let text = Ledger::of(EACH)
        .report_text(rt.alloc())
        .expect(&rt, "memory");
    assert!(rt; read_report(text.as_bytes()) == Some(EACH));
}

#[test]
fn the_largest_counter_is_read_back(rt: HostRuntime) {
    let most = 1 << 62;
    let counters = [most, 0, 0, 0, 0, most, 0, 0, 0, 0, 0, 0, 0, 0];
    let text = Ledger::of(counters)
        .report_text(rt.alloc())
        .expect(&rt, "memory");
    assert!(rt; read_report(text.as_bytes()) == Some(counters));
}

/// Lines that no report has, one a line: with a leading zero, a sign, another order, a counter too few, a word more, a
/// space at the end, a number that is too large, and none at all.
const OTHERS: &str = "\
accepted=00 undecided=0 pending=0 queued=0 active=0 exported=0 not_sampled=0 too_early=0 queue_full=0 \
retry_exhausted=0 back_end_refused=0 back_end_rejected=0 invalid=0 over_budget=0
accepted=+0 undecided=0 pending=0 queued=0 active=0 exported=0 not_sampled=0 too_early=0 queue_full=0 \
retry_exhausted=0 back_end_refused=0 back_end_rejected=0 invalid=0 over_budget=0
undecided=0 accepted=0 pending=0 queued=0 active=0 exported=0 not_sampled=0 too_early=0 queue_full=0 \
retry_exhausted=0 back_end_refused=0 back_end_rejected=0 invalid=0 over_budget=0
accepted=0 undecided=0 pending=0 queued=0 active=0 exported=0 not_sampled=0 too_early=0 queue_full=0 \
retry_exhausted=0 back_end_refused=0 back_end_rejected=0 invalid=0
accepted=0 undecided=0 pending=0 queued=0 active=0 exported=0 not_sampled=0 too_early=0 queue_full=0 \
retry_exhausted=0 back_end_refused=0 back_end_rejected=0 invalid=0 over_budget=0 more=0
accepted=0 undecided=0 pending=0 queued=0 active=0 exported=0 not_sampled=0 too_early=0 queue_full=0 \
retry_exhausted=0 back_end_refused=0 back_end_rejected=0 invalid=0 over_budget=0\u{20}
accepted=18446744073709551616 undecided=0 pending=0 queued=0 active=0 exported=0 not_sampled=0 too_early=0 \
queue_full=0 retry_exhausted=0 back_end_refused=0 back_end_rejected=0 invalid=0 over_budget=0
accepted= undecided=0 pending=0 queued=0 active=0 exported=0 not_sampled=0 too_early=0 queue_full=0 \
retry_exhausted=0 back_end_refused=0 back_end_rejected=0 invalid=0 over_budget=0
none";

#[test]
fn nothing_else_is_read(rt: HostRuntime) {
    for line in OTHERS.split('\n') {
        assert!(rt; read_report(line.as_bytes()).is_none());
    }
    assert!(rt; read_report(b"").is_none());
}
