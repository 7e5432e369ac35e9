//! A machine with its log, on one thread.

use crate::counter::Counter;
use crate::holding::{HoldingLog, WITHOUT_ROOM};
use machine_hub::{LoggedMachine, OptionalLog, StepLog};
use std::sync::Arc;
use std::sync::atomic::AtomicU64;

/// Where the log has no room the counter stays, and the log is stopped: later steps are made, and have no entry.
#[test]
fn a_step_without_room_is_not_made(rt: HostRuntime) {
    let returned = Arc::new(rt.alloc(), AtomicU64::new(0)).expect(&rt, "memory");
    let log = HoldingLog { returned };
    let mut machine = LoggedMachine::new(Counter { count: 7 }, log, WITHOUT_ROOM);
    assert!(rt; machine.apply(rt.alloc(), 1).is_err());
    assert!(rt; machine.stopped());
    let (before, given) = machine.apply(rt.alloc(), 1).expect(&rt, "memory");
    assert!(rt; before == 7 && given.is_none());
}

/// A log that keeps makes its room before the step.
#[test]
fn room_is_made_for_an_entry(rt: HostRuntime) {
    let mut log: OptionalLog<Counter> = OptionalLog::new(rt.alloc(), true);
    log.room(rt.alloc(), 0).expect(&rt, "memory");
    assert!(rt; log.kept.capacity() > 0);
}
