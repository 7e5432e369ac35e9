//! Many decisions and look-ups go through a full cache. tests/cached.py takes the memory of a test here, and how many
//! instructions the calls of each take.

use crate::load::trace_id;
use decision_cache::{DecisionCaches, HashKeys};
use std::alloc::{AllocError, Global};
use std::process::Abort;

/// How many calls a test makes of a full cache.
const CALLS: u64 = 100_000;

/// What is done with it.
#[derive(Clone, Copy)]
enum Call {
    /// A trace is decided.
    Decide,
    /// A trace is looked up whose id is there.
    Find,
    /// A trace is looked up whose id isn't there.
    Miss,
    /// A span follows the decision that it finds.
    Follow,
}

/// Traces are decided: so many from this number on.
fn decide_all(caches: &mut DecisionCaches, first: u64, count: u64) -> Result<u64, AllocError> {
    for number in 0..count {
        caches.commit();
        caches.put(trace_id(first.wrapping_add(number)), true)?;
    }
    Ok(count)
}

/// A span of a trace follows its decision, where it finds one.
fn follow(caches: &mut DecisionCaches, trace: u64) -> Result<bool, AllocError> {
    let id = trace_id(trace);
    match caches.find(id) {
        Some(sampled) => {
            caches.push_hit(id, sampled)?;
            caches.commit();
            Ok(true)
        }
        None => Ok(false),
    }
}

/// Whether a call does what it is to do. Traces below this number are in the cache before all calls.
fn is_done(
    caches: &mut DecisionCaches,
    call: Call,
    traces: u64,
    number: u64,
) -> Result<bool, AllocError> {
    let known = number.wrapping_mul(7_919) % traces.max(1);
    let other = traces.wrapping_add(number);
    match call {
        Call::Decide => Ok(decide_all(caches, other, 1)? == 1),
        Call::Find => Ok(caches.find(trace_id(known)).is_some()),
        Call::Miss => Ok(caches.find(trace_id(other)).is_none()),
        Call::Follow => follow(caches, known),
    }
}

/// How many calls of a full cache of so many ids do what they are to do.
fn done(rt: &impl Abort, alloc: Global, size: u32, call: Call, calls: u64) -> u64 {
    let keys = HashKeys {
        first: 0x0123_4567_89ab_cdef,
        second: 7,
    };
    let mut caches = DecisionCaches::new(alloc, size, 0, keys).expect(rt, "memory");
    let traces = decide_all(&mut caches, 0, u64::from(size)).expect(rt, "memory");
    let mut done: u64 = 0;
    for number in 0..calls {
        if is_done(&mut caches, call, traces, number).expect(rt, "memory") {
            done = done.saturating_add(1);
        }
    }
    done
}

/// All these calls of a full cache do what they are to do.
fn all_are_done(rt: &impl Abort, alloc: Global, size: u32, call: Call, calls: u64) {
    assert!(rt; done(rt, alloc, size, call, calls) == calls);
}

#[test]
fn a_thousand_ids(rt: HostRuntime) {
    all_are_done(&rt, rt.alloc(), 1_000, Call::Decide, 0);
}

#[test]
fn a_thousand_ids_and_decisions(rt: HostRuntime) {
    all_are_done(&rt, rt.alloc(), 1_000, Call::Decide, CALLS);
}

#[test]
fn a_thousand_ids_that_are_found(rt: HostRuntime) {
    all_are_done(&rt, rt.alloc(), 1_000, Call::Find, CALLS);
}

#[test]
fn a_thousand_ids_beside_others(rt: HostRuntime) {
    all_are_done(&rt, rt.alloc(), 1_000, Call::Miss, CALLS);
}

#[test]
fn a_thousand_ids_that_are_followed(rt: HostRuntime) {
    all_are_done(&rt, rt.alloc(), 1_000, Call::Follow, CALLS);
}

#[test]
fn a_million_ids(rt: HostRuntime) {
    all_are_done(&rt, rt.alloc(), 1_000_000, Call::Decide, 0);
}

#[test]
fn a_million_ids_and_decisions(rt: HostRuntime) {
    all_are_done(&rt, rt.alloc(), 1_000_000, Call::Decide, CALLS);
}

#[test]
fn a_million_ids_that_are_found(rt: HostRuntime) {
    all_are_done(&rt, rt.alloc(), 1_000_000, Call::Find, CALLS);
}

#[test]
fn a_million_ids_beside_others(rt: HostRuntime) {
    all_are_done(&rt, rt.alloc(), 1_000_000, Call::Miss, CALLS);
}

#[test]
fn a_million_ids_that_are_followed(rt: HostRuntime) {
    all_are_done(&rt, rt.alloc(), 1_000_000, Call::Follow, CALLS);
}
