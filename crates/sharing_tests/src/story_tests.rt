//! A story of three tenants in two shards, and of a fourth that comes and goes, called by one thread.

ghost use Rattle.std.specs.Prelude.{◌≡◌};
ghost use Rattle.machine_hub.specs.Hub.{slots_of};

use crate::calls::{Made, made, stepped};
use crate::outcomes::{is_entry, is_outcome, is_waiting};
use crate::story::{Line, SETTINGS, STORY, line_of};
use audit_log::PackedEntry;
use decision_cache::HashKeys;
use shared_hub::{Caller, HubFault, HubKeeper, Receipt, ShardLog, SharedHub};
use std::alloc::Global;
use std::process::Abort;
use std::sync::Wait;
use std::thread::Threads;
use tail_settings::{Settings, load};
use tenant_shard::{Outcome, Step};

/// The tests' own trace ids are no one's choice.
const KEYS: HashKeys = HashKeys {
    first: 0x0123_4567_89ab_cdef,
    second: 7,
};

/// Whether a receipt is that of the next entry of its shard; there is none where nothing is kept.
fn is_next(receipt: Option<Receipt>, next: &mut [u64; 2], keeps: bool) -> bool {
    let Some(receipt) = receipt else {
        return !keeps;
    };
    if receipt.shard >= 2 || receipt.position != next[receipt.shard] {
        return false;
    }
    next[receipt.shard] = receipt.position.saturating_add(1);
    keeps
}

/// Whether the call of a line is told what stands there.
fn is_told<R: Threads + Wait + Sync>(
    rt: &R,
    alloc: Global,
    settings: &Settings,
    hub: &SharedHub,
    me: &mut Caller,
    next: &mut [u64; 2],
    keeps: bool,
    line: &Line<'_>,
) -> bool
    requires { slots_of me.old ≡ hub.now }
    ensures { slots_of me.new ≡ hub.now }
{
    if line.shard == "-" {
        let told = hub.look(rt, me, line.tenant);
        return !told.stopped
            && is_waiting(alloc, &told.answer, line.outcome)
            && hub.empty(rt, me, line.tenant) == told.answer.is_empty;
    }
    match made(rt, alloc, settings, hub, me, line) {
        Some((outcome, receipt)) => {
            is_outcome(alloc, &outcome, line.outcome) && is_next(receipt, next, keeps)
        }
        None => false,
    }
}

/// Makes the calls of the story, up to the first that isn't told what stands there. How many were, and that one.
fn follow<R: Threads + Wait + Sync>(
    rt: &R,
    alloc: Global,
    settings: &Settings,
    hub: &SharedHub,
    me: &mut Caller,
    next: &mut [u64; 2],
    keeps: bool,
) -> (u32, &'static str)
    requires { slots_of me.old ≡ hub.now }
    ensures { slots_of me.new ≡ hub.now }
{
    let mut count = 0u32;
    for text in STORY.lines() {
        if !is_told(rt, alloc, settings, hub, me, next, keeps, &line_of(text)) {
            return (count, text);
        }
        count = count.saturating_add(1);
    }
    (count, "")
}

/// Whether the entry, unpacked, is that of a line.
fn is_of_line(alloc: Global, kept: &PackedEntry, line: &Line<'_>) -> bool {
    match kept.entry(alloc) {
        Ok(entry) => is_entry(alloc, &entry, line),
        Err(_refused) => false,
    }
}

/// Whether a log has the story's calls at this shard, in their order, and no others.
fn has_calls(alloc: Global, kept: &[PackedEntry], shard: &str) -> bool {
    let mut next = 0;
    for text in STORY.lines() {
        let line = line_of(text);
        if line.shard == shard {
            if next >= kept.len() || !is_of_line(alloc, &kept[next], &line) {
                return false;
            }
            next += 1;
        }
    }
    next == kept.len()
}

/// Whether a log has as many entries as receipts were given, and where it has any, the story's calls at this shard.
fn is_kept(alloc: Global, kept: &[PackedEntry], made: u64, given: u64, shard: &str) -> bool {
    made == given && (made == 0 && kept.is_empty() || has_calls(alloc, kept, shard))
}

/// The same of a shard's log.
fn is_logged(alloc: Global, shard: ShardLog, next: &[u64; 2]) -> bool {
    let made = shard.made();
    let (name, given) = match shard.number() {
        0 => ("0", next[0]),
        _ => ("1", next[1]),
    };
    let (_machine, log) = shard.into_parts();
    is_kept(alloc, &log.kept, made, given, name)
}

/// The same of both shards.
fn are_logged(alloc: Global, logs: Vec<ShardLog>, next: &[u64; 2]) -> bool {
    let mut is_well = logs.len() == 2;
    for shard in logs {
        is_well = is_logged(alloc, shard, next) && is_well;
    }
    is_well
}

/// Closes a hub, whose caller comes back, and looks at its logs.
fn is_closed<R: Wait + Abort>(
    rt: &R,
    alloc: Global,
    hub: SharedHub,
    keeper: HubKeeper,
    me: Caller,
    next: &[u64; 2],
) -> bool
    requires keeper { keeper.slots ≡ hub }
    requires same_hub { slots_of me ≡ hub }
{
    let callers = vec![in alloc; me].expect(rt, "memory");
    match hub.close(rt, keeper, callers) {
        Ok(logs) => are_logged(alloc, logs, next),
        Err(_missing) => false,
    }
}

/// Opens a hub, makes the calls of the story, closes it and looks at its logs.
fn run_story<R: Threads + Wait + Sync + Abort>(
    rt: &R,
    alloc: Global,
    settings: &Settings,
    keeps: bool,
) -> (u32, &'static str, bool) {
    let opened = SharedHub::open(rt, alloc, settings, 1, keeps, KEYS);
    let (hub, keeper, mut callers) = opened.expect(rt, "memory");
    let mut me = callers.pop().expect(rt, "a caller");
    let mut next = [0u64; 2];
    let (count, wrong) = follow(rt, alloc, settings, &hub, &mut me, &mut next, keeps);
    let is_well = is_closed(rt, alloc, hub, keeper, me, &next);
    (count, wrong, is_well)
}

/// All calls of the story are told what stands there, and are in the logs.
fn is_told_whole<R: Threads + Wait + Sync + Abort>(rt: &R, alloc: Global, keeps: bool) {
    let settings = load(alloc, SETTINGS).expect(rt, "good settings");
    let (count, wrong, is_well) = run_story(rt, alloc, &settings, keeps);
    assert_eq!(rt; wrong, "");
    assert!(rt; count == 61 && is_well);
}

/// Each call is told what stands in the story, and the logs have each with its outcome, its word and its receipt.
#[test]
fn each_call_has_its_entry(rt: HostRuntime) {
    is_told_whole(&rt, rt.alloc(), true);
}

/// Where the logs keep nothing each call is told the same, and has no receipt.
#[test]
fn calls_are_told_the_same_without_logs(rt: HostRuntime) {
    is_told_whole(&rt, rt.alloc(), false);
}

/// Whether a call is an idle turn, and the first one at shard 1.
fn is_first(made: Option<Made>) -> bool {
    match made {
        Some((Outcome::Idle, Some(receipt))) => receipt.shard == 1 && receipt.position == 0,
        _ => false,
    }
}

/// Whether a hub isn't closed without its caller (24), whose turn is its first call then.
fn is_kept_open<R: Wait>(
    rt: &R,
    alloc: Global,
    hub: SharedHub,
    keeper: HubKeeper,
    away: &mut Caller,
) -> bool
    requires keeper { keeper.slots ≡ hub }
    requires same_hub { slots_of away.old ≡ hub }
{
    match hub.close(rt, keeper, Vec::new(alloc)) {
        Ok(_shards) => false,
        Err(missing) => {
            let turn = Step::Turn { now: 0 };
            is_first(stepped(rt, alloc, &missing.hub, away, 1, turn)) && missing.number() == 24
        }
    }
}

/// The same of a new hub.
fn is_new_kept_open<R: Wait + Abort>(rt: &R, alloc: Global, settings: &Settings) -> bool {
    let opened = SharedHub::open(rt, alloc, settings, 1, true, KEYS);
    let (hub, keeper, mut callers) = opened.expect(rt, "memory");
    let mut away = callers.pop().expect(rt, "a caller");
    is_kept_open(rt, alloc, hub, keeper, &mut away)
}

#[test]
fn a_missing_caller_keeps_the_hub_open(rt: HostRuntime) {
    let settings = load(rt.alloc(), SETTINGS).expect(&rt, "good settings");
    assert!(rt; is_new_kept_open(&rt, rt.alloc(), &settings));
}

/// A log that lost entries, an entry that is another call's, and want of memory, which has no number.
#[test]
fn faults_have_their_numbers(rt: HostRuntime) {
    let receipt = Receipt {
        shard: 0,
        position: 0,
    };
    assert!(rt; HubFault::Behind { entries: 0 }.number() == Some(27));
    assert!(rt; HubFault::OtherEntry { receipt }.number() == Some(28));
    assert!(rt; HubFault::OutOfMemory.number() == None);
}
