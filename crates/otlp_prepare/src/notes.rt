//! The notes of spans.

ghost use Rattle.std.specs.Prelude.{◌≡◌, ◌<◌, ◌≤◌, List, [], map, length, IfOk};
ghost use Rattle.span_view.specs.Reading.{facts_of};
ghost use Rattle.tail_settings.specs.Policy.{PolicyData};
ghost use Rattle.otlp_prepare.specs.BodySpans.{own_note, noted};

use crate::reversed::{AT_A_TIME, first_of};
use crate::unnoted::UnnotedSpan;
use prepared_body::NotedSpan;
use span_view::SpanRef;
use std::alloc::{AllocError, Global};
use std::thread::Threads;
use tail_notes::note_all;
use tail_policy::{Policy, TenantPolicies, TraceNote};

/// Fewer spans than this are noted by the thread that is there: another one would take longer to start than they take.
const MANY: usize = 512;

/// What each span tells by itself.
fn own_views(alloc: Global, parts: &[UnnotedSpan]) -> Result<Vec<SpanRef<'_>>, AllocError>
    ensures { IfOk result (λ views. views.items ≡ map (λ p. facts_of p.text []) parts.now) }
{
    parts.iter().map(|part| part.own_view()).collect(alloc)
}

/// The notes of spans without their resources, made in at most `threads` threads.
fn own_notes<R: Threads + Sync>(
    rt: &R,
    alloc: Global,
    policies: &TenantPolicies<'_>,
    parts: &[UnnotedSpan],
    threads: u32,
) -> Result<Vec<TraceNote>, AllocError>
    requires threads { (0 < threads) × (threads ≤ 16) }
    requires few { length parts.now ≤ 4096 }
    ensures { IfOk result (λ notes. notes.items ≡ map (own_note policies.now) parts.now) }
{
    let views = own_views(alloc, parts)?;
    note_all(rt, alloc, policies, views.as_slice(), threads)
}

/// Spans with their notes, by their notes without their resources.
fn with_notes(
    alloc: Global,
    parts: Vec<UnnotedSpan>,
    own: Vec<TraceNote>,
) -> Result<Vec<NotedSpan>, AllocError>
    ensures { (policies : List PolicyData) → own.items ≡ map (own_note policies) parts.items
        → IfOk result (λ spans. spans.items ≡ map (noted policies) parts.items) }
{
    parts
        .into_iter()
        .zip(own)
        .map(|(part, own)| part.with_note(own))
        .collect(alloc)
}

/// Spans with their notes, in order, made in this thread: each whole before the next, so that no list stands between.
fn noted_here(
    alloc: Global,
    policies: &TenantPolicies<'_>,
    parts: Vec<UnnotedSpan>,
) -> Result<Vec<NotedSpan>, AllocError>
    ensures { IfOk result (λ spans. spans.items ≡ map (noted policies.now) parts.items) }
{
    let mut spans = Vec::with_capacity(alloc, parts.len())?;
    for part in parts {
        let own = policies.note(&part.own_view())?;
        spans.push(part.with_note(own))?;
    }
    Ok(spans)
}

/// Spans with their notes, in order, made in at most `threads` threads. They are few, since the memory of their notes
/// without their resources is taken at once.
fn noted_at_once<R: Threads + Sync>(
    rt: &R,
    alloc: Global,
    policies: &TenantPolicies<'_>,
    parts: Vec<UnnotedSpan>,
    threads: u32,
) -> Result<Vec<NotedSpan>, AllocError>
    requires threads { (0 < threads) × (threads ≤ 16) }
    requires few { length parts.items ≤ 4096 }
    ensures { IfOk result (λ spans. spans.items ≡ map (noted policies.now) parts.items) }
{
    if parts.len() < MANY {
        return noted_here(alloc, policies, parts);
    }
    let own = own_notes(rt, alloc, policies, parts.as_slice(), threads)?;
    with_notes(alloc, parts, own)
}

/// Spans with their notes, in order, made in at most `threads` threads: of so many at a time that what is made of them
/// takes the memory that they had.
#[tactic(auto, using(crate::proofs::Lists::none_made, crate::proofs::Lists::all_made))]
pub fn noted_in<R: Threads + Sync>(
    rt: &R,
    alloc: Global,
    policies: &TenantPolicies<'_>,
    parts: Vec<UnnotedSpan>,
    threads: u32,
) -> Result<Vec<NotedSpan>, AllocError>
    requires { (0 < threads) × (threads ≤ 16) }
    ensures { IfOk result (λ spans. spans.items ≡ map (noted policies.now) parts.items) }
{
    // Most bodies have no more, so that nothing of them is moved.
    if parts.len() <= AT_A_TIME {
        return noted_at_once(rt, alloc, policies, parts, threads);
    }
    let mut spans = Vec::with_capacity(alloc, parts.len())?;
    let mut left = parts;
    left.reverse();
    while !left.is_empty() {
        let now = first_of(alloc, &mut left)?;
        let mut more = noted_at_once(rt, alloc, policies, now, threads)?;
        spans.append(&mut more)?;
    }
    Ok(spans)
}
