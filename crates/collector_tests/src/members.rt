//! Stories of one shard that no script of `replay` can tell: bodies for other policies, strangers, and what members
//! wait for.

use crate::lines::{ensure, line_is_told, lines_are_told};
use crate::sections::{BASE, ERRORS, Fixture, settings_of, shard_of};
use std::alloc::Global;
use std::process::Abort;
use std::thread::Threads;
use tail_settings::Settings;
use tenant_shard::{Shard, members_of};

/// A turn that finds no job says so once, and then nothing is due. Spans of no error are dropped. A body for other
/// policies, and any step of a stranger, change nothing.
const REFUSED: &str = "post a 0 11.21 = reply a 200 -
post a.b 5000 11.22 = refused a 23
post h.b 5000 11.22 = refused h 22
answer h 5000 1 0 200 - - = refused h 22
report h 5000 = refused h 22
drain h 5000 = refused h 22
report a 999 = report a accepted=1 undecided=1 pending=0 queued=0 active=0 \
exported=0 not_sampled=0 too_early=0 queue_full=0 \
retry_exhausted=0 back_end_refused=0 back_end_rejected=0 invalid=0 over_budget=0
turn 0 1000 = worked a
turn 0 1000 = idle 0
report a 1000 = report a accepted=1 undecided=0 pending=0 queued=0 active=0 \
exported=0 not_sampled=1 too_early=0 queue_full=0 \
retry_exhausted=0 back_end_refused=0 back_end_rejected=0 invalid=0 over_budget=0";

/// Equal policies of another section are the tenant's policies.
const EQUAL: &str = "post a.b 0 11.21 = reply a 200 -
turn 0 1000 = job a 1 11.21";

/// A tenant comes with the second's section, unless it is or was a member, and goes once it was drained and holds no
/// span. In a document `63` is c and `62` is b.
const COMING: &str = "post c.b 0 11.21 = refused c 22
retire c 0 = refused c 22
add 6162 = refused a 25
add 6362 = done c
add 6362 = refused c 25
post c.a 0 11.21 = refused c 23
post c.b 0 11.21 = reply c 200 -
drain c 999 = done c
retire c 999 = refused c 26
turn 0 999 = job c 1 11.21
retire c 999 = refused c 26
answer c 999 1 0 200 - - = done c
retire c 999 = report c accepted=1 undecided=0 pending=0 queued=0 active=0 \
exported=1 not_sampled=0 too_early=0 queue_full=0 \
retry_exhausted=0 back_end_refused=0 back_end_rejected=0 invalid=0 over_budget=0
retire c 999 = refused c 22
post c.b 999 11.22 = refused c 22
add 6362 = refused c 25";

/// The first comes to the second's shard, and leaves it.
const STRANGER: &str = "add 6161 = done a
post a 0 11.21 = reply a 200 -
turn 0 1000 = worked a
retire a 1000 = refused a 26
drain a 1000 = done a
retire a 1000 = report a accepted=1 undecided=0 pending=0 queued=0 active=0 \
exported=0 not_sampled=1 too_early=0 queue_full=0 \
retry_exhausted=0 back_end_refused=0 back_end_rejected=0 invalid=0 over_budget=0
add 6161 = refused a 25";

const BOTH: &[u32] = &[1, 0, 7, 0];

/// A new shard with these members, of two tenants of which the first has this table, is told the story.
fn story_is_told<R: Threads + Abort + Sync>(
    rt: &R,
    alloc: Global,
    table: &str,
    members: &[u32],
    story: &str,
) {
    let mut fixture = shard_of(rt, alloc, &[table, BASE], members);
    lines_are_told(rt, alloc, &mut fixture, story);
}

#[test]
fn members_are_told_their_own(rt: HostRuntime) {
    let alloc = rt.alloc();
    story_is_told(&rt, alloc, ERRORS, BOTH, REFUSED);
    story_is_told(&rt, alloc, BASE, BOTH, EQUAL);
    story_is_told(&rt, alloc, ERRORS, BOTH, COMING);
    story_is_told(&rt, alloc, ERRORS, &[1], STRANGER);
}

/// What a member alone waits for after each step: whether it is empty, and the second tenant, which is no member, when
/// each is ready, and when the shard is. A moment that is past counts as the latest one, so that the span waits
/// from 100 on; a batch that failed is sent again after half of the first interval.
const HELD: &str = "empty holds - - - post a.b 0 11.21 = refused a 23
empty holds - - - report a 100 = report a accepted=0 undecided=0 pending=0 queued=0 active=0 \
exported=0 not_sampled=0 too_early=0 queue_full=0 \
retry_exhausted=0 back_end_refused=0 back_end_rejected=0 invalid=0 over_budget=0
holds holds 1100 - 1100 post a 0 11.21 = reply a 200 -
holds holds 1100 - 1100 turn 0 1099 = idle 0
holds holds - - - turn 0 1100 = job a 1 11.21
holds holds 3600 - 3600 answer a 1100 1 0 failed - - = done a
holds holds 3600 - 3600 report a 0 = report a accepted=1 undecided=0 pending=0 queued=0 active=1 \
exported=0 not_sampled=0 too_early=0 queue_full=0 \
retry_exhausted=0 back_end_refused=0 back_end_rejected=0 invalid=0 over_budget=0
holds holds 3600 - 3600 turn 0 3599 = idle 0
holds holds - - - turn 0 3600 = job a 2 11.21
holds holds - - - answer a 3600 1 0 200 - - = refused a 21
empty holds - - - answer a 3600 2 0 200 - - = done a
empty holds - - - drain a 3600 = done a
empty holds - - - turn 0 3600 = idle 0
empty holds - - - report a 3600 = report a accepted=1 undecided=0 pending=0 queued=0 active=0 \
exported=1 not_sampled=0 too_early=0 queue_full=0 \
retry_exhausted=0 back_end_refused=0 back_end_rejected=0 invalid=0 over_budget=0";

/// The same of two members. The second's error waits a second for its trace, and another one for a batch, which its
/// drain makes at once. Once it is retired it is no member. The first's second batch waits for the answer to the one
/// before it.
const BOTH_WAIT: &str = "empty holds - 1050 1050 post b 50 11.21.7a021802 = reply b 200 -
holds holds 1100 1050 1050 post a 100 11.21 = reply a 200 -
holds holds 1100 2050 1100 turn 0 1050 = worked b
holds holds - 2050 2050 turn 0 1100 = job a 1 11.21
holds holds 2102 2050 2050 post a 1102 12.22 = reply a 200 -
holds holds 2102 1103 1103 drain b 1103 = done b
holds holds 2102 1103 1103 turn 0 1102 = idle 0
holds holds 2102 - 2102 turn 0 1103 = job b 1 11.21.7a021802
holds empty 2102 - 2102 answer b 1103 1 0 200 - - = done b
holds holds 2102 - 2102 retire b 1103 = report b accepted=1 undecided=0 pending=0 queued=0 active=0 \
exported=1 not_sampled=0 too_early=0 queue_full=0 \
retry_exhausted=0 back_end_refused=0 back_end_rejected=0 invalid=0 over_budget=0
holds holds - - - turn 0 2102 = worked a
holds holds 2102 - 2102 answer a 2102 1 0 200 - - = done a
holds holds - - - turn 0 2102 = job a 2 12.22
empty holds - - - answer a 2102 2 0 200 - - = done a";

/// A line's first column, and the rest.
fn column_of(line: &str) -> (&str, &str) {
    line.split_once(' ').unwrap_or((line, ""))
}

/// Whether a tenant is as empty, and it and the shard are ready when these columns say, of which a dash says never.
fn is_waiting(shard: &Shard, tenant: u32, holds: &str, ready: &str, shard_ready: &str) -> bool {
    let waiting = shard.waiting(tenant);
    waiting.is_empty == (holds == "empty")
        && waiting.is_empty == shard.is_empty(tenant)
        && ready.parse().ok() == waiting.tenant_ready
        && shard_ready.parse().ok() == waiting.shard_ready
}

/// The step of a line gives what the line says, and leaves the first two tenants and the shard waiting for what its
/// columns say. Else the test ends with the line.
fn line_is_left<R: Threads + Abort + Sync>(
    rt: &R,
    alloc: Global,
    fixture: &mut Fixture,
    line: &str,
) {
    let (first, rest) = column_of(line);
    let (second, rest) = column_of(rest);
    let (first_ready, rest) = column_of(rest);
    let (second_ready, rest) = column_of(rest);
    let (ready, step) = column_of(rest);
    line_is_told(rt, alloc, fixture, step);
    let is_left = is_waiting(&fixture.shard, 0, first, first_ready, ready)
        && is_waiting(&fixture.shard, 1, second, second_ready, ready);
    ensure(rt, is_left, line);
}

/// A new shard waits for nothing and holds no span of the first tenant, and each line leaves it as its columns say.
fn lines_are_left<R: Threads + Abort + Sync>(
    rt: &R,
    alloc: Global,
    fixture: &mut Fixture,
    lines: &str,
) {
    let is_idle = is_waiting(&fixture.shard, 0, "empty", "-", "-");
    ensure(rt, is_idle, "a new shard waits");
    for line in lines.lines() {
        line_is_left(rt, alloc, fixture, line);
    }
}

/// The same of a shard with these members, of two tenants.
fn story_is_left<R: Threads + Abort + Sync>(rt: &R, alloc: Global, members: &[u32], lines: &str) {
    let mut fixture = shard_of(rt, alloc, &[BASE, ERRORS], members);
    lines_are_left(rt, alloc, &mut fixture, lines);
}

fn has_members(
    rt: &impl Abort,
    alloc: Global,
    settings: &Settings,
    shard: u32,
    members: &[u32],
) -> bool {
    let found = members_of(alloc, settings, shard).expect(rt, "memory");
    found.as_slice() == members
}

/// Whether both tenants are in the only shard.
fn are_in_one_shard(rt: &impl Abort, alloc: Global) -> bool {
    let settings = settings_of(rt, alloc, &[BASE, ERRORS]);
    has_members(rt, alloc, &settings, 0, &[0, 1]) && has_members(rt, alloc, &settings, 1, &[])
}

#[test]
fn a_member_is_empty_once_its_batches_are_answered(rt: HostRuntime) {
    assert!(rt; are_in_one_shard(&rt, rt.alloc()));
    story_is_left(&rt, rt.alloc(), &[0], HELD);
}

#[test]
fn a_shard_waits_for_the_first_of_its_members(rt: HostRuntime) {
    story_is_left(&rt, rt.alloc(), &[1, 0], BOTH_WAIT);
}
