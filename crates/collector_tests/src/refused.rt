//! A run over three tenants in which memory is refused. Each run with one allocation refused has to end well, too.

use crate::lines::{
    answers_of, ensure, is_told, lines_are_told, parts_of, put_all, step_of, steps_of,
};
use crate::sections::{
    ERRORS, Fixture, NARROW, NONE_REMEMBERED, ONE_OF_EACH, THREES, TWO_DROPPED, TWO_OR_THREE,
    TWO_SAMPLED, shard_of,
};
use std::alloc::{AllocError, Global};
use std::process::Abort;
use std::test::Fail;
use std::thread::Threads;
use tenant_shard::{Outcome, Shard, Step, Stopped};

/// Tenant a has batches of two or three spans, b has room for two traces and one batch, and c samples errors.
const TABLES: [&str; 3] = [TWO_OR_THREE, NARROW, ERRORS];

/// Spans join, come late and are evicted, batches are sent again and given up, are taken, rejected and refused, a queue
/// is full, and tenants are drained. A fourth comes with the section of c, and goes.
const STORY: &str = "post a 0 1001:11.21+11.22/1002:12.23 = reply a 200 -
post b 0 1001:11.21/12.22 = reply b 200 -
post c 0 11.21.7a021802+12.22 = reply c 200 -
post b 100 13.23+14.24 = reply b 200 -
post a 500 1001:11.24+13.25 = reply a 200 -
turn 0 1000 = job a 1 1001:11.21+11.22+11.24
turn 0 1000 = worked c
post c 1000 12.23.7a021802+11.24 = reply c 200 -
turn 0 1100 = job b 1 13.23
answer b 1100 1 0 503 - - = done b
turn 0 1500 = job a 2 1002:12.23/1001:13.25
answer a 1600 1 0 200 - 0a020801 = done a
turn 0 2000 = job c 1 11.21.7a021802+11.24
turn 0 2100 = job b 2 13.23
answer b 2100 2 0 503 - - = done b
post b 2100 14.25 = reply b 200 -
post c 2100 13.25.7a021802+14.26 = reply c 200 -
drain c 2200 = done c
post c 2200 15.27 = reply c 503 120d7368757474696e6720646f776e
turn 0 2200 = job b 3 14.25
answer c 2300 1 0 400 - - = done c
turn 0 2300 = job c 2 13.25.7a021802
answer c 2300 2 0 200 - - = done c
answer c 2300 2 0 200 - - = refused c 21
answer b 2300 3 0 200 - - = done b
drain a 2300 = done a
drain b 2300 = done b
answer a 2300 2 0 200 - - = done a
report a 2300 = report a accepted=5 undecided=0 pending=0 queued=0 \
active=0 exported=4 not_sampled=0 too_early=0 queue_full=0 \
retry_exhausted=0 back_end_refused=0 back_end_rejected=1 invalid=0 over_budget=0
report b 2300 = report b accepted=5 undecided=0 pending=0 queued=0 \
active=0 exported=1 not_sampled=0 too_early=2 queue_full=1 \
retry_exhausted=1 back_end_refused=0 back_end_rejected=0 invalid=0 over_budget=0
report c 2300 = report c accepted=6 undecided=0 pending=0 queued=0 \
active=0 exported=1 not_sampled=3 too_early=0 queue_full=0 \
retry_exhausted=0 back_end_refused=2 back_end_rejected=0 invalid=0 over_budget=0
add 6863 = done h
post h.c 2300 11.21.7a021802 = reply h 200 -
drain h 2300 = done h
turn 0 2300 = job h 1 11.21.7a021802
retire h 2300 = refused h 26
answer h 2300 1 0 200 - - = done h
retire h 2300 = report h accepted=1 undecided=0 pending=0 queued=0 \
active=0 exported=1 not_sampled=0 too_early=0 queue_full=0 \
retry_exhausted=0 back_end_refused=0 back_end_rejected=0 invalid=0 over_budget=0
add 6863 = refused h 25
turn 0 999999 = idle 0";

/// Of traces that left a remembers one that was sampled and one that wasn't, b two that were sampled, and c none.
const REMEMBERING: [&str; 3] = [ONE_OF_EACH, TWO_SAMPLED, NONE_REMEMBERED];

/// Spans come whose row has left: they follow the decision that is remembered, or open a row where none is. Trace 11 of
/// b stays remembered, since a span of it came, and 12 is forgotten before it.
const REMEMBERED: &str = "post a 0 11.21.7a021802 = reply a 200 -
post b 0 11.21 = reply b 200 -
post c 0 11.21 = reply c 200 -
post a 1000 12.22 = reply a 200 -
post b 1000 12.22 = reply b 200 -
post c 1000 12.22 = reply c 200 -
post c 1500 11.22 = reply c 200 -
report c 1500 = report c accepted=3 undecided=1 pending=0 queued=1 \
active=0 exported=0 not_sampled=0 too_early=1 queue_full=0 \
retry_exhausted=0 back_end_refused=0 back_end_rejected=0 invalid=0 over_budget=0
post a 2000 13.23 = reply a 200 -
post b 2000 13.23 = reply b 200 -
post a 2100 11.22+12.22 = reply a 200 -
report a 2100 = report a accepted=5 undecided=1 pending=0 queued=2 \
active=0 exported=0 not_sampled=2 too_early=0 queue_full=0 \
retry_exhausted=0 back_end_refused=0 back_end_rejected=0 invalid=0 over_budget=0
post b 2500 11.22 = reply b 200 -
post b 3000 14.25 = reply b 200 -
post b 3500 12.22 = reply b 200 -
post b 3600 11.22 = reply b 200 -
report b 3600 = report b accepted=7 undecided=1 pending=0 queued=5 \
active=0 exported=0 not_sampled=0 too_early=1 queue_full=0 \
retry_exhausted=0 back_end_refused=0 back_end_rejected=0 invalid=0 over_budget=0";

/// The counters of all tenants. Where memory is refused they are asked for again. Reports of the first moment run no
/// timer that hasn't run.
fn reports(shard: &mut Shard) -> Result<Vec<Outcome>, Stopped> {
    let steps = [
        Step::Report { tenant: 0, now: 0 },
        Step::Report { tenant: 1, now: 0 },
        Step::Report { tenant: 2, now: 0 },
    ];
    match shard.run(&steps) {
        Ok(outcomes) => Ok(outcomes),
        Err(_) => shard.run(&steps),
    }
}

/// Whose step it was.
fn tenant_of(outcome: &Outcome) -> Option<u32> {
    match outcome {
        Outcome::Reply(tenant, _) => Some(*tenant),
        Outcome::Job(tenant, _, _) => Some(*tenant),
        Outcome::Worked(tenant) => Some(*tenant),
        Outcome::Idle => None,
        Outcome::Done(tenant) => Some(*tenant),
        Outcome::Report(tenant, _) => Some(*tenant),
        Outcome::Refused(tenant, _) => Some(*tenant),
    }
}

/// Whether the reports of all tenants but this one are as before.
fn are_others_same(own: Option<u32>, before: &[Outcome], after: &[Outcome]) -> bool {
    for (one, other) in before.iter().zip(after.iter()) {
        if one != other && tenant_of(one) != own {
            return false;
        }
    }
    before.len() == 3 && after.len() == 3
}

/// What a step gives that was refused memory, if it left the counters of all tenants but its own as they were before.
fn given_again(shard: &mut Shard, step: &Step, before: &[Outcome]) -> Result<Outcome, Fail> {
    let after = reports(shard)?;
    let outcome = shard.step(step)?;
    if are_others_same(tenant_of(&outcome), before, after.as_slice()) {
        Ok(outcome)
    } else {
        Err(Fail::new("another tenant's counters changed"))
    }
}

/// What a step gives, after it was refused memory where it is.
fn given_at_last(shard: &mut Shard, step: &Step) -> Result<Outcome, Fail> {
    let before = reports(shard)?;
    match shard.step(step) {
        Ok(outcome) => Ok(outcome),
        Err(_) => given_again(shard, step, before.as_slice()),
    }
}

/// The step of a line gives what the line says. Else the test ends with the line.
fn line_is_given<R: Threads + Abort + Sync>(
    rt: &R,
    alloc: Global,
    fixture: &mut Fixture,
    line: &str,
) -> Result<(), Fail> {
    let (step, wanted) = parts_of(line);
    let step = step_of(rt, alloc, &fixture.settings, step);
    let outcome = given_at_last(&mut fixture.shard, &step)?;
    ensure(rt, is_told(rt, alloc, &outcome, wanted), line);
    Ok(())
}

/// The same of each line of a story, of three tenants with these tables.
fn each_is_given<R: Threads + Abort + Sync>(
    rt: &R,
    alloc: Global,
    tables: &[&str],
    story: &str,
) -> Result<(), Fail> {
    let mut fixture = shard_of(rt, alloc, tables, &[0, 1, 2]);
    for line in story.lines() {
        line_is_given(rt, alloc, &mut fixture, line)?;
    }
    Ok(())
}

#[test]
fn a_refused_step_is_done_again(rt: HostRuntime) -> Result<(), Fail> {
    each_is_given(&rt, rt.alloc(), &TABLES, STORY)
}

#[test]
fn a_refused_step_is_remembered_once(rt: HostRuntime) -> Result<(), Fail> {
    each_is_given(&rt, rt.alloc(), &REMEMBERING, REMEMBERED)
}

/// Appends what a run tells up to where it stopped, and says how many outcomes these are.
fn put_run(
    alloc: Global,
    out: &mut Vec<u8>,
    shard: &mut Shard,
    steps: &[Step],
) -> Result<usize, AllocError> {
    let outcomes = match shard.run(steps) {
        Ok(outcomes) => outcomes,
        Err(Stopped { outcomes }) => outcomes,
    };
    put_all(alloc, out, outcomes.as_slice())?;
    Ok(outcomes.len())
}

/// What a run tells that stops where memory is refused, with the outcomes so far, and goes on with the refused step.
fn told_at_last(alloc: Global, shard: &mut Shard, steps: &[Step]) -> Result<Vec<u8>, AllocError> {
    let mut out = Vec::new(alloc);
    let done = put_run(alloc, &mut out, shard, steps)?;
    if let Some(left) = steps.get(done..) {
        put_run(alloc, &mut out, shard, left)?;
    }
    Ok(out)
}

/// Whether a run of the steps of a story tells at last what answers them.
fn goes_on(rt: &impl Abort, alloc: Global, shard: &mut Shard, steps: &[Step], story: &str) -> bool {
    let told = told_at_last(alloc, shard, steps).expect(rt, "memory");
    let answers = answers_of(rt, alloc, story);
    told.as_slice() == answers.as_bytes()
}

fn story_goes_on<R: Threads + Abort + Sync>(rt: &R, alloc: Global) -> bool {
    let mut fixture = shard_of(rt, alloc, &TABLES, &[0, 1, 2]);
    let steps = steps_of(rt, alloc, &fixture.settings, STORY);
    goes_on(rt, alloc, &mut fixture.shard, steps.as_slice(), STORY)
}

#[test]
fn a_run_goes_on_where_it_stopped(rt: HostRuntime) {
    assert!(rt; story_goes_on(&rt, rt.alloc()));
}

/// A post that is tried once, with the table of its tenant.
struct Tried {
    table: &'static str,
    /// What is told before it.
    before: &'static str,
    post: &'static str,
    /// What is told behind it where it was taken.
    taken: &'static str,
    /// And where it was refused.
    refused: &'static str,
}

/// Traces 11 and 12 have left and are remembered, 11 to be forgotten first, and no timer is due before 3000.
const BEFORE: &str = "post a 0 11.21 = reply a 200 -
post a 1000 12.22 = reply a 200 -
post a 2000 13.23 = reply a 200 -";

/// A span of 11 follows its decision, and one of 13 joins its row.
const JOINS: &str = "post a 2500 11.22+13.23";

/// At 3000 the decision of 13 takes the place of that of 12, or of 11 where that post was refused and isn't done again.
const SAMPLED: Tried = Tried {
    table: TWO_SAMPLED,
    before: BEFORE,
    post: JOINS,
    taken: "post a 3000 14.25 = reply a 200 -
post a 3100 12.22 = reply a 200 -
report a 3100 = report a accepted=7 undecided=1 pending=0 queued=5 active=0 exported=0 not_sampled=0 too_early=1 \
queue_full=0 retry_exhausted=0 back_end_refused=0 back_end_rejected=0 invalid=0 over_budget=0",
    refused: "post a 3000 14.25 = reply a 200 -
post a 3100 12.22 = reply a 200 -
report a 3100 = report a accepted=5 undecided=1 pending=0 queued=4 active=0 exported=0 not_sampled=0 too_early=0 \
queue_full=0 retry_exhausted=0 back_end_refused=0 back_end_rejected=0 invalid=0 over_budget=0",
};

/// The same where nothing is sampled.
const DROPPED: Tried = Tried {
    table: TWO_DROPPED,
    before: BEFORE,
    post: JOINS,
    taken: "post a 3000 14.25 = reply a 200 -
post a 3100 12.22 = reply a 200 -
report a 3100 = report a accepted=7 undecided=1 pending=0 queued=0 active=0 exported=0 not_sampled=5 too_early=1 \
queue_full=0 retry_exhausted=0 back_end_refused=0 back_end_rejected=0 invalid=0 over_budget=0",
    refused: "post a 3000 14.25 = reply a 200 -
post a 3100 12.22 = reply a 200 -
report a 3100 = report a accepted=5 undecided=1 pending=0 queued=0 active=0 exported=0 not_sampled=4 too_early=0 \
queue_full=0 retry_exhausted=0 back_end_refused=0 back_end_rejected=0 invalid=0 over_budget=0",
};

/// Trace 11 was sampled, and a late span of it is pending from 1000 on. The first of the three that come at 1100 waits
/// too, the second fills a batch, and the third waits. Where they were refused, the one that was pending leaves at its
/// own time.
const LATE: Tried = Tried {
    table: THREES,
    before: "post a 0 11.21+11.22+11.23 = reply a 200 -
turn 0 1000 = job a 1 11.21+11.22+11.23
post a 1000 11.24 = reply a 200 -",
    post: "post a 1100 11.25+11.26+11.27",
    taken: "turn 0 1999 = job a 2 11.24+11.25+11.26
turn 0 2000 = idle 0
turn 0 2099 = idle 0
turn 0 2100 = job a 3 11.27",
    refused: "turn 0 1999 = idle 0
turn 0 2000 = job a 2 11.24
turn 0 2099 = idle 0
turn 0 2100 = idle 0",
};

/// What stands before and behind the post is told.
fn lines_around_are_told<R: Threads + Abort + Sync>(
    rt: &R,
    alloc: Global,
    fixture: &mut Fixture,
    tried: &Tried,
) {
    lines_are_told(rt, alloc, fixture, tried.before);
    let post = step_of(rt, alloc, &fixture.settings, tried.post);
    let behind = match fixture.shard.step(&post) {
        Ok(_) => tried.taken,
        Err(_) => tried.refused,
    };
    lines_are_told(rt, alloc, fixture, behind);
}

/// The same of a new shard.
fn is_tried<R: Threads + Abort + Sync>(rt: &R, alloc: Global, tried: &Tried) {
    let mut fixture = shard_of(rt, alloc, &[tried.table], &[0]);
    lines_around_are_told(rt, alloc, &mut fixture, tried);
}

#[test]
fn a_refused_post_leaves_what_is_remembered_as_it_was(rt: HostRuntime) {
    is_tried(&rt, rt.alloc(), &SAMPLED);
    is_tried(&rt, rt.alloc(), &DROPPED);
}

#[test]
fn a_refused_post_leaves_what_is_pending_as_it_was(rt: HostRuntime) {
    is_tried(&rt, rt.alloc(), &LATE);
}
