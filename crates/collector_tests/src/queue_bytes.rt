//! Stories of tenants whose queues hold so many bytes at most, which no script of `replay` can tell: no document says
//! how many.

use crate::lines::lines_are_told;
use crate::sections::{BASE, opened, settings_of};
use std::alloc::Global;
use std::process::Abort;
use std::thread::Threads;

/// A batch of one span has 34 bytes, and one of two has 64. Of 68 bytes two of one span may wait, and no third, each
/// tenant's for itself. A batch that was handed out doesn't count, be it on its way or to be sent again.
const TWO_WAIT: &str = "post a 0 11.21 = reply a 200 -
post a 0 12.22 = reply a 200 -
post a 0 13.23 = reply a 200 -
post b 0 14.25 = reply b 200 -
post b 0 15.27 = reply b 200 -
turn 0 1000 = job a 1 11.21
turn 0 1000 = job b 1 14.25
report a 1000 = report a accepted=3 undecided=0 pending=0 queued=1 active=1 \
exported=0 not_sampled=0 too_early=0 queue_full=1 \
retry_exhausted=0 back_end_refused=0 back_end_rejected=0 invalid=0 over_budget=0
report b 1000 = report b accepted=2 undecided=0 pending=0 queued=1 active=1 \
exported=0 not_sampled=0 too_early=0 queue_full=0 \
retry_exhausted=0 back_end_refused=0 back_end_rejected=0 invalid=0 over_budget=0
answer a 1000 1 0 503 40 - = done a
post a 1000 14.25 = reply a 200 -
report a 2000 = report a accepted=4 undecided=0 pending=0 queued=2 active=1 \
exported=0 not_sampled=0 too_early=0 queue_full=1 \
retry_exhausted=0 back_end_refused=0 back_end_rejected=0 invalid=0 over_budget=0
post a 2000 15.27 = reply a 200 -
report a 3000 = report a accepted=5 undecided=0 pending=0 queued=2 active=1 \
exported=0 not_sampled=0 too_early=0 queue_full=2 \
retry_exhausted=0 back_end_refused=0 back_end_rejected=0 invalid=0 over_budget=0
turn 0 40999 = idle 0
turn 0 41000 = job a 2 11.21
answer a 41000 2 0 200 - - = done a
turn 0 41000 = job a 3 12.22
post a 41000 16.25+16.26 = reply a 200 -
report a 42000 = report a accepted=7 undecided=0 pending=0 queued=1 active=1 \
exported=1 not_sampled=0 too_early=0 queue_full=4 \
retry_exhausted=0 back_end_refused=0 back_end_rejected=0 invalid=0 over_budget=0";

/// Of 67 bytes one may wait. One of three spans has 94, and finds no room where no other waits either.
const ONE_WAITS: &str = "post a 0 11.21 = reply a 200 -
post a 0 12.22 = reply a 200 -
turn 0 1000 = job a 1 11.21
report a 1000 = report a accepted=2 undecided=0 pending=0 queued=0 active=1 \
exported=0 not_sampled=0 too_early=0 queue_full=1 \
retry_exhausted=0 back_end_refused=0 back_end_rejected=0 invalid=0 over_budget=0
post a 1000 16.25+16.26 = reply a 200 -
report a 2000 = report a accepted=4 undecided=0 pending=0 queued=2 active=1 \
exported=0 not_sampled=0 too_early=0 queue_full=1 \
retry_exhausted=0 back_end_refused=0 back_end_rejected=0 invalid=0 over_budget=0
answer a 2000 1 0 200 - - = done a
turn 0 2000 = job a 2 16.25+16.26
post a 2000 17.21+17.22+17.23 = reply a 200 -
report a 3000 = report a accepted=7 undecided=0 pending=0 queued=0 active=2 \
exported=1 not_sampled=0 too_early=0 queue_full=4 \
retry_exhausted=0 back_end_refused=0 back_end_rejected=0 invalid=0 over_budget=0";

/// What a drain decides isn't bounded in bytes, and what is due at its moment is, since that is decided first.
const DRAINED: &str = "post a 0 11.21 = reply a 200 -
post a 0 12.22 = reply a 200 -
post a 0 13.23 = reply a 200 -
post a 500 14.25 = reply a 200 -
post a 500 15.27 = reply a 200 -
drain a 1000 = done a
report a 1000 = report a accepted=5 undecided=0 pending=0 queued=4 active=0 \
exported=0 not_sampled=0 too_early=0 queue_full=1 \
retry_exhausted=0 back_end_refused=0 back_end_rejected=0 invalid=0 over_budget=0
turn 0 1000 = job a 1 11.21
turn 0 1000 = idle 0
answer a 1000 1 0 200 - - = done a
turn 0 1000 = job a 2 12.22
answer a 1000 2 0 200 - - = done a
turn 0 1000 = job a 3 14.25
answer a 1000 3 0 200 - - = done a
turn 0 1000 = job a 4 15.27
answer a 1000 4 0 200 - - = done a
report a 1000 = report a accepted=5 undecided=0 pending=0 queued=0 active=0 \
exported=4 not_sampled=0 too_early=0 queue_full=1 \
retry_exhausted=0 back_end_refused=0 back_end_rejected=0 invalid=0 over_budget=0";

/// A shard of two tenants whose queues hold so many bytes each is told the story.
fn story_is_told<R: Threads + Abort + Sync>(rt: &R, alloc: Global, bytes: u64, story: &str) {
    let mut settings = settings_of(rt, alloc, &[BASE, BASE]);
    settings.bound_queues(bytes);
    let mut fixture = opened(rt, alloc, settings, &[0, 1]);
    lines_are_told(rt, alloc, &mut fixture, story);
}

#[test]
fn batches_that_wait_have_so_many_bytes_at_most(rt: HostRuntime) {
    story_is_told(&rt, rt.alloc(), 68, TWO_WAIT);
    story_is_told(&rt, rt.alloc(), 67, ONE_WAITS);
    story_is_told(&rt, rt.alloc(), 68, DRAINED);
}
