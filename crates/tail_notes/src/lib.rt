//! Notes of many spans, made in several threads.
//!
//! What a policy keeps of a span (`tail_policy`) follows from that span and its resource alone. So the notes of a
//! body's spans can be made side by side, before any lock is taken: [`note_all`] gives those of one thread, in order.
//!
//! It stands on `tail_policy` and `span_view`, and on std's threads.
#![tactic(auto)]

ghost use Rattle.std.specs.Prelude.{◌≡◌, ◌<◌, ◌≤◌, map, IfOk};
ghost use Rattle.std.specs.Thread.{IsSync};

use span_view::SpanRef;
use std::alloc::{AllocError, Global};
use std::thread::{Threads, join};
use tail_policy::Policy;

/// The note of each span, in order, made in at most `parts` threads, this one among them, and in no more than there are
/// spans. `parts` is from 1 to 16.
///
/// It waits only for threads that it started. Where a thread can't be started, this one does its part, after its own.
/// On want of memory, the policy's own among it, nothing is kept; notes of other parts may have been made.
pub fn note_all<P: Policy + Sync, R: Threads + Sync>(
    rt: &R,
    alloc: Global,
    policy: &P,
    spans: &[SpanRef<'_>],
    parts: u32,
) -> Result<Vec<P::Note>, AllocError>
    requires { (0 < parts) × (parts ≤ 16) }
    ensures { IfOk result (λ notes. notes.items ≡ map (P.note_of policy.now) spans.now) }
{
    note_parts(rt, alloc, policy, spans, parts as usize)
}

/// The note of each span, in order, made in at most `parts` threads. The parts have equally many spans each, and the
/// last ones fewer where that doesn't come out even.
fn note_parts<P: Policy + Sync, R: Threads + Sync>(
    rt: &R,
    alloc: Global,
    policy: &P,
    spans: &[SpanRef<'_>],
    parts: usize,
) -> Result<Vec<P::Note>, AllocError>
    requires { (0 < parts) × (parts ≤ 16) }
    ensures { IfOk result (λ notes. notes.items ≡ map (P.note_of policy.now) spans.now) }
{
    let busy = parts.min(spans.len());
    if busy < 2 {
        return note_here(alloc, policy, spans);
    }
    let few = busy / 2;
    let size = spans.len().div_ceil(busy);
    let (left, right) = spans.split_at(size.saturating_mul(few).min(spans.len()));
    let (first, second) = join(
        rt,
        || -> Result<Vec<P::Note>, AllocError>
            requires { IsSync R.row × (0 < few) × (few ≤ 16) }
            ensures { IfOk result (λ notes. notes.items ≡ map (P.note_of policy.entry.now)
                left.entry.now) }
        { note_parts(rt, alloc, policy, left, few) },
        || -> Result<Vec<P::Note>, AllocError>
            requires { IsSync R.row × (few < busy) × (busy ≤ 16) }
            ensures { IfOk result (λ notes. notes.items ≡ map (P.note_of policy.entry.now)
                right.entry.now) }
        { note_parts(rt, alloc, policy, right, busy - few) },
    );
    let mut notes = first?;
    let mut more = second?;
    notes.append(&mut more)?;
    Ok(notes)
}

/// The notes, made in this thread.
fn note_here<P: Policy>(
    alloc: Global,
    policy: &P,
    spans: &[SpanRef<'_>],
) -> Result<Vec<P::Note>, AllocError>
    ensures { IfOk result (λ notes. notes.items ≡ map (P.note_of policy.now) spans.now) }
{
    let mut notes = Vec::with_capacity(alloc, spans.len())?;
    for span in spans {
        notes.push(policy.note(span)?)?;
    }
    Ok(notes)
}
