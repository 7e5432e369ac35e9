//! Two threads at two shards at once; and what is told once memory was refused.

ghost use Rattle.std.specs.Prelude.{◌≡◌, ◌<◌, [], length, false, IfOk};
ghost use Rattle.machine_hub.specs.Hub.{slots_of};

use crate::counter::Counter;
use crate::holding::{HoldingLog, WITHOUT_ROOM};
use machine_hub::{Caller, Hub, LoggedMachine, Told};
use std::alloc::{AllocError, Global};
use std::process::Abort;
use std::sync::atomic::{AtomicU64, Ordering};
use std::sync::{Arc, Wait};
use std::thread::{Threads, join};

/// A counter from 0 with a log that holds steps.
fn held(
    returned: &Arc<AtomicU64, Global>,
    number: u32,
) -> Result<LoggedMachine<Counter, HoldingLog>, AllocError>
    ensures { IfOk result (λ machine. (machine.entries ≡ []) × (machine.stopped ≡ false)) }
{
    let returned = Arc::try_clone(returned)?;
    Ok(LoggedMachine::new(Counter { count: 0 }, HoldingLog { returned }, number))
}

/// A call at a shard, after which `returned` counts one more. Gives what `returned` was when the call had its answer.
fn call<R: Wait>(
    rt: &R,
    alloc: Global,
    hub: &Hub<Counter, HoldingLog>,
    mut caller: Caller<Counter, HoldingLog>,
    shard: usize,
    returned: &AtomicU64,
) -> u64
    requires shard { shard < length hub.now }
    requires same_hub { slots_of caller ≡ hub.now }
{
    let _ = hub.step(rt, alloc, &mut caller, shard, 1);
    returned.fetch_add(1, Ordering::SeqCst)
}

/// The call at shard 0 is held until the one at shard 1 has returned. How many calls had returned before each.
fn two_threads<R: Threads + Wait + Sync + Abort>(rt: &R, alloc: Global) -> (u64, u64) {
    let returned = Arc::new(alloc, AtomicU64::new(0)).expect(rt, "memory");
    let first = held(&returned, 0).expect(rt, "memory");
    let second = held(&returned, 1).expect(rt, "memory");
    let machines = vec![in alloc; first, second].expect(rt, "memory");
    let (hub, _keeper, mut callers) = Hub::open(rt, alloc, machines, 2).expect(rt, "memory");
    let one = callers.pop().expect(rt, "a caller");
    let two = callers.pop().expect(rt, "another");
    let shared = &hub;
    let counter = &*returned;
    join(
        rt,
        move || -> u64
            requires { (0 < length shared.now) × (slots_of one ≡ shared.now) }
        { call(rt, alloc, shared, one, 0, counter) },
        move || -> u64
            requires { (1 < length shared.now) × (slots_of two ≡ shared.now) }
        { call(rt, alloc, shared, two, 1, counter) },
    )
}

/// A machine for whose step there is no room: what is told of a question before the step and after it, as numbers of
/// two bits, the answer and whether memory was refused before.
fn told_around_a_refusal<R: Wait + Abort>(rt: &R, alloc: Global) -> (u8, u8) {
    let returned = Arc::new(alloc, AtomicU64::new(0)).expect(rt, "memory");
    let machine = held(&returned, WITHOUT_ROOM).expect(rt, "memory");
    let machines = vec![in alloc; machine].expect(rt, "memory");
    let (hub, _keeper, mut callers) = Hub::open(rt, alloc, machines, 1).expect(rt, "memory");
    let mut me = callers.pop().expect(rt, "a caller");
    let before = hub.ask(rt, &mut me, 0, &1);
    let _ = hub.step(rt, alloc, &mut me, 0, 1);
    let after = hub.ask(rt, &mut me, 0, &0);
    (bits(before), bits(after))
}

fn bits(told: Told<bool>) -> u8 {
    match (told.answer, told.stopped) {
        (false, false) => 0,
        (true, false) => 1,
        (false, true) => 2,
        (true, true) => 3,
    }
}

/// Who asks is told whether memory was refused before: not at first, when the counter isn't yet 1, and then it was.
#[test]
fn who_asks_is_told_of_refused_memory(rt: HostRuntime) {
    assert!(rt; told_around_a_refusal(&rt, rt.alloc()) == (0, 3));
}

/// A step on shard 0 that waits for one on shard 1 doesn't keep it from being made.
#[test]
fn shards_are_stepped_at_once(rt: HostRuntime) {
    assert!(rt; two_threads(&rt, rt.alloc()) == (1, 0));
}
