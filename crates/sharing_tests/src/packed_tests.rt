//! Entries whose texts are packed.

use crate::story::SETTINGS;
use audit_log::PackedEntry;
use bytes::Bytes;
use machine_hub::Entry;
use otlp_prepare::prepare;
use otlp_trace::Octets;
use shared_hub::{LoggedStep, WordSource};
use std::alloc::Global;
use std::process::Abort;
use std::sync::Arc;
use std::thread::Threads;
use tail_settings::{Settings, load};
use tenant_rules::Reply;
use tenant_shard::{Outcome, Step};

/// A resource with two scopes, the second without one, and three spans of one trace, two in the first.
const BODY: &str = "0a6f0a0a0a080a016112030a016212410a030a0173\
121c0a101111111111111111111111111111111112082121212121212121\
121c0a101111111111111111111111111111111112082222222222222222\
121e121c0a101111111111111111111111111111111112082323232323232323";

/// The bytes of the body.
fn body(rt: &impl Abort, alloc: Global) -> Bytes {
    let bytes = hex::decode(alloc, BODY).expect(rt, "hexadecimal digits");
    Bytes::from_vec(bytes).expect(rt, "memory")
}

/// The step of a body that comes to the first tenant.
fn post<R: Threads + Sync + Abort>(
    rt: &R,
    alloc: Global,
    settings: &Settings,
    body: &Bytes,
) -> Step {
    let section = settings.section(0).expect(rt, "a section");
    let body = body.clone().expect(rt, "memory");
    let prepared = prepare(rt, alloc, 0, section, body, 1).expect(rt, "a good body");
    Step::Post { now: 7, prepared }
}

/// An entry of a step that its caller handed in.
fn entry_of(
    rt: &impl Abort,
    alloc: Global,
    step: Step,
    outcome: Outcome,
) -> Arc<Entry<LoggedStep, Outcome>, Global> {
    let step = LoggedStep {
        step,
        word: WordSource::Caller,
    };
    Arc::new(alloc, Entry { step, outcome }).expect(rt, "memory")
}

/// The outcome of a post that was taken.
fn taken(alloc: Global) -> Outcome {
    let body = Octets::from_vec(Vec::new(alloc));
    Outcome::Reply(0, Reply { status: 200, body })
}

/// Whether the entry, packed and unpacked, is of this step, with this outcome.
fn is_again(alloc: Global, packed: &PackedEntry, step: &Step, outcome: &Outcome) -> bool {
    match packed.entry(alloc) {
        Ok(entry) => entry.step.step == *step && entry.outcome == *outcome,
        Err(_refused) => false,
    }
}

#[test]
fn a_packed_post_is_the_post_and_holds_no_body(rt: HostRuntime) {
    let settings = load(rt.alloc(), SETTINGS).expect(&rt, "good settings");
    let body = body(&rt, rt.alloc());
    let step = post(&rt, rt.alloc(), &settings, &body);
    let entry = entry_of(&rt, rt.alloc(), step, taken(rt.alloc()));
    let packed = PackedEntry::of(rt.alloc(), &entry).expect(&rt, "memory");
    assert!(rt; !body.is_unique());
    drop(entry);
    assert!(rt; body.is_unique());
    let step = post(&rt, rt.alloc(), &settings, &body);
    assert!(rt; is_again(rt.alloc(), &packed, &step, &taken(rt.alloc())));
}

#[test]
fn a_packed_job_is_the_job(rt: HostRuntime) {
    let payload = body(&rt, rt.alloc());
    let job = Outcome::Job(1, 2, payload.clone().expect(&rt, "memory"));
    let entry = entry_of(&rt, rt.alloc(), Step::Turn { now: 7 }, job);
    let packed = PackedEntry::of(rt.alloc(), &entry).expect(&rt, "memory");
    drop(entry);
    assert!(rt; payload.is_unique());
    let job = Outcome::Job(1, 2, payload);
    assert!(rt; is_again(rt.alloc(), &packed, &Step::Turn { now: 7 }, &job));
}

#[test]
fn an_entry_without_texts_is_kept_as_it_is(rt: HostRuntime) {
    let entry = entry_of(&rt, rt.alloc(), Step::Turn { now: 7 }, Outcome::Idle);
    let packed = PackedEntry::of(rt.alloc(), &entry).expect(&rt, "memory");
    assert!(rt; is_again(rt.alloc(), &packed, &Step::Turn { now: 7 }, &Outcome::Idle));
}
