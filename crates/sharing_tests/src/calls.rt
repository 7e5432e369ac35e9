//! The calls of a story's lines.

ghost use Rattle.std.specs.Prelude.{◌≡◌};
ghost use Rattle.machine_hub.specs.Hub.{slots_of};

use crate::story::Line;
use bytes::Bytes;
use otlp_prepare::{Prepared, prepare};
use send_retry::Answer;
use shared_hub::{Caller, Receipt, SharedHub};
use std::alloc::Global;
use std::sync::Wait;
use std::thread::Threads;
use tail_settings::{Section, Settings};
use tenant_shard::{Outcome, Step};

/// What a call gives.
pub type Made = (Outcome, Option<Receipt>);

/// A body that came to a tenant, by its digits.
fn prepared_of<R: Threads + Sync>(
    rt: &R,
    alloc: Global,
    settings: &Settings,
    line: &Line<'_>,
) -> Option<Prepared> {
    let section = settings.section(line.second.parse().unwrap_or(line.tenant))?;
    let body = Bytes::from_vec(hex::decode(alloc, line.first).ok()?).ok()?;
    prepare(rt, alloc, line.tenant, section, body, 1).ok()
}

/// The section that a tenant comes with, by the tenant of the settings that has it.
fn section_like(settings: &Settings, tenant: &str) -> Option<Section> {
    settings.section(tenant.parse().ok()?)?.copy().ok()
}

/// A back end's answer, without a body.
fn answer_of(alloc: Global, line: &Line<'_>) -> Answer {
    Answer::Http {
        status: line.first.parse().unwrap_or(0),
        retry_after: line.second.parse().ok(),
        body: Vec::new(alloc),
    }
}

/// A step that the caller hands in.
fn step_of<R: Threads + Sync>(
    rt: &R,
    alloc: Global,
    settings: &Settings,
    line: &Line<'_>,
) -> Option<Step> {
    let (tenant, now) = (line.tenant, line.now);
    match line.kind {
        "turn" => Some(Step::Turn { now }),
        "report" => Some(Step::Report { tenant, now }),
        "drain" => Some(Step::Drain { tenant, now }),
        "retire" => Some(Step::Retire { tenant, now }),
        "add" => {
            let section = section_like(settings, line.first)?;
            Some(Step::Add { tenant, section })
        }
        "answer" => Some(Step::Answer {
            tenant,
            now,
            ticket: line.ticket,
            word: line.word,
            answer: answer_of(alloc, line),
        }),
        _ => {
            let prepared = prepared_of(rt, alloc, settings, line)?;
            Some(Step::Post { now, prepared })
        }
    }
}

/// A step at a shard.
pub fn stepped<R: Wait>(
    rt: &R,
    alloc: Global,
    hub: &SharedHub,
    me: &mut Caller,
    shard: usize,
    step: Step,
) -> Option<Made>
    requires { slots_of me.old ≡ hub.now }
    ensures { slots_of me.new ≡ hub.now }
{
    if shard >= hub.shards() {
        return None;
    }
    hub.step(rt, alloc, me, shard, step).ok()
}

/// A back end's answer, whose word is drawn.
fn answered<R: Wait>(
    rt: &R,
    alloc: Global,
    hub: &SharedHub,
    me: &mut Caller,
    line: &Line<'_>,
) -> Option<Made>
    requires { slots_of me.old ≡ hub.now }
    ensures { slots_of me.new ≡ hub.now }
{
    let answer = answer_of(alloc, line);
    hub.answer(rt, alloc, me, line.tenant, line.now, line.ticket, &answer)
        .ok()
}

/// The call of a line.
pub fn made<R: Threads + Wait + Sync>(
    rt: &R,
    alloc: Global,
    settings: &Settings,
    hub: &SharedHub,
    me: &mut Caller,
    line: &Line<'_>,
) -> Option<Made>
    requires { slots_of me.old ≡ hub.now }
    ensures { slots_of me.new ≡ hub.now }
{
    if line.kind == "answer" && line.word_of != "caller" {
        return answered(rt, alloc, hub, me, line);
    }
    let shard = line.shard.parse().unwrap_or(usize::MAX);
    match step_of(rt, alloc, settings, line) {
        Some(step) => stepped(rt, alloc, hub, me, shard, step),
        None => None,
    }
}
