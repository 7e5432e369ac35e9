//! Two threads at one shard.

ghost use Rattle.std.specs.Prelude.{◌≡◌, ◌<◌, [], false, length};
ghost use Rattle.machine_hub.specs.Hub.{slots_of};

use crate::counter::Counter;
use machine_hub::{Caller, Hub, HubKeeper, LoggedMachine, OptionalLog};
use std::alloc::Global;
use std::process::Abort;
use std::sync::Wait;
use std::thread::{Threads, join};

/// A caller, and the positions of its three calls.
#[derive(Drop)]
struct Took {
    caller: Caller<Counter, OptionalLog<Counter>>,
    positions: [u64; 3],
}

/// A counter from 0 with an empty log that keeps all.
fn logged(alloc: Global) -> LoggedMachine<Counter, OptionalLog<Counter>>
    ensures { (result.entries ≡ []) × (result.stopped ≡ false) }
{
    LoggedMachine::new(Counter { count: 0 }, OptionalLog::new(alloc, true), 0)
}

/// Three calls at shard 0. Each adds one, so that what it gives, the count before, is its entry's position; 99 where
/// that isn't so.
fn three_calls<R: Wait>(
    rt: &R,
    alloc: Global,
    hub: &Hub<Counter, OptionalLog<Counter>>,
    mut caller: Caller<Counter, OptionalLog<Counter>>,
) -> Took
    requires shard { 0 < length hub.now }
    requires same_hub { slots_of caller ≡ hub.now }
    ensures { slots_of result.caller ≡ hub.now }
{
    let mut positions = [99u64; 3];
    for i in 0..3usize {
        if let Ok((before, Some(receipt))) = hub.step(rt, alloc, &mut caller, 0, 1)
            && receipt.position == before
        {
            positions[i] = before;
        }
    }
    Took { caller, positions }
}

/// Three calls of each of two threads.
fn both_call<R: Threads + Wait + Sync>(
    rt: &R,
    alloc: Global,
    hub: &Hub<Counter, OptionalLog<Counter>>,
    one: Caller<Counter, OptionalLog<Counter>>,
    two: Caller<Counter, OptionalLog<Counter>>,
) -> (Took, Took)
    requires shard { 0 < length hub.now }
    requires same_hub { (slots_of one ≡ hub.now) × (slots_of two ≡ hub.now) }
    ensures first { slots_of result.0.caller ≡ hub.now }
    ensures second { slots_of result.1.caller ≡ hub.now }
{
    join(
        rt,
        move || -> Took
            requires { (0 < length hub.now) × (slots_of one ≡ hub.now) }
            ensures { slots_of result.caller ≡ hub.entry.now }
        { three_calls(rt, alloc, hub, one) },
        move || -> Took
            requires { (0 < length hub.now) × (slots_of two ≡ hub.now) }
            ensures { slots_of result.caller ≡ hub.entry.now }
        { three_calls(rt, alloc, hub, two) },
    )
}

/// How many entries the log of the last shard has, once the hub's callers are back and it is closed.
fn entries_of<R: Wait + Abort>(
    rt: &R,
    alloc: Global,
    hub: Hub<Counter, OptionalLog<Counter>>,
    keeper: HubKeeper<Counter, OptionalLog<Counter>>,
    one: Caller<Counter, OptionalLog<Counter>>,
    two: Caller<Counter, OptionalLog<Counter>>,
) -> usize
    requires keeper { keeper.slots ≡ hub }
    requires same_hub { (slots_of one ≡ hub) × (slots_of two ≡ hub) }
{
    let callers = vec![in alloc; one, two].expect(rt, "memory");
    let mut shards = hub
        .close(rt, keeper, callers)
        .ok()
        .expect(rt, "all callers");
    let shard = shards.pop().expect(rt, "a shard");
    let (_counter, log) = shard.into_parts();
    log.kept.len()
}

/// Six calls of two threads on one shard: how many entries its log has, and the positions of each thread's calls.
fn two_threads<R: Threads + Wait + Sync + Abort>(
    rt: &R,
    alloc: Global,
) -> (usize, [u64; 3], [u64; 3]) {
    let machines = vec![in alloc; logged(alloc)].expect(rt, "memory");
    let (hub, keeper, mut callers) = Hub::open(rt, alloc, machines, 2).expect(rt, "memory");
    let one = callers.pop().expect(rt, "a caller");
    let two = callers.pop().expect(rt, "another");
    let (one, two) = both_call(rt, alloc, &hub, one, two);
    let (ones, others) = (one.positions, two.positions);
    let entries = entries_of(rt, alloc, hub, keeper, one.caller, two.caller);
    (entries, ones, others)
}

/// A bit for each of the first six positions.
fn bits(positions: [u64; 3]) -> u64 {
    let mut sum = 0u64;
    for position in positions {
        sum |= match position {
            0 => 1,
            1 => 2,
            2 => 4,
            3 => 8,
            4 => 16,
            5 => 32,
            _ => 0,
        };
    }
    sum
}

fn rise(positions: [u64; 3]) -> bool {
    positions[0] < positions[1] && positions[1] < positions[2]
}

/// Six calls of two threads are six entries, and nobody's receipts are another's.
#[test]
fn each_call_has_its_entry(rt: HostRuntime) {
    let (entries, ones, others) = two_threads(&rt, rt.alloc());
    assert!(rt; entries == 6);
    assert!(rt; rise(ones) && rise(others));
    assert_eq!(rt; bits(ones) | bits(others), 63);
}
