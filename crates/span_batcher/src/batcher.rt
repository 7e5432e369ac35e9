//! The pending spans of one tenant.

ghost use Rattle.std.specs.Prelude.{◌≡◌, ℕ, ◌+◌, ◌^◌, ◌≤◌, ◌<◌, List, [], ◌∷◌, ◌++◌, length, IfOk, OnOk, OnErr, Option, Some, None, ◌≢◌, nat_le};
ghost use Rattle.span_batcher.specs.Batches.{AreValidRules, at_most};
ghost use Rattle.span_batcher.specs.State.{State, state, next_due, IsAfter, Adds, Fires, Drains, Begins};
ghost use Rattle.span_batcher.specs.Machine.{rules_of, threshold, start_in, cuts, uncut, added, fired, drained, taken};
ghost use Rattle.span_batcher.specs.Marks.{mark_of, cut_back};

use crate::batch::Batch;
use crate::mark::PendingMark;
use crate::planned::Planned;
use std::alloc::{AllocError, Global};
use std::marker::Model;

/// Spans that wait until there are enough of them, or long enough.
#[derive(Drop)]
pub struct SpanBatcher {
    alloc: Global,
    timeout: u64,
    size: usize,
    most: usize,
    start: Option<u64>,
    spans: Vec<u32>,
}

impl Model for SpanBatcher {
    ghost use Rattle.std.specs.Prelude.{ℕ};
    ghost use Rattle.span_batcher.specs.State.{State};
    ghost use Rattle.span_batcher.specs.Machine.{IsFit};

    ghost Value = { State ℕ };

    ghost view = { λ b. record {
      rules = record { timeout = b.timeout; size = b.size; most = b.most };
      start = b.start;
      spans = b.spans.items;
    } };

    ghost invariant = { λ b. IsFit b.timeout b.size b.most b.start };
}

/// From how many pending spans on a batch is cut: with no timeout from one on.
fn threshold(timeout: u64, size: usize) -> usize
    ensures { result ≡ threshold (rules_of timeout size 0) }
{
    if timeout == 0 { 1 } else { size }
}

/// How many of so many pending spans a batch takes.
fn at_most(most: usize, count: usize) -> usize
    ensures { result ≡ at_most most count }
{
    if most == 0 { count } else { most.min(count) }
}

/// When the timer of a new rest starts.
fn start_in(moment: u64, rest: &[u32]) -> Option<u64>
    ensures { result ≡ start_in moment rest.now }
{
    match rest {
        [] => None,
        [_, ..] => Some(moment),
    }
}

/// The batches of the spans, and the rest.
fn cut_all(
    alloc: Global,
    timeout: u64,
    size: usize,
    most: usize,
    moment: u64,
    all: &[u32],
) -> Result<(Vec<Batch>, Vec<u32>), AllocError>
    requires valid_rules { AreValidRules (rules_of timeout size most) }
    ensures batches { IfOk result (λ cut. cut.0.items ≡ cuts (rules_of timeout size most) moment
        all.now) }
    ensures rest { IfOk result (λ cut. cut.1.items ≡ uncut (rules_of timeout size most) all.now) }
{
    let least = threshold(timeout, size);
    let mut batches = Vec::new(alloc);
    let mut rest = all;
    while least <= rest.len() {
        let count = at_most(most, rest.len());
        let (front, back) = rest.split_at(count);
        let spans = Vec::from_slice(alloc, front)?;
        batches.push(Batch::new(moment, spans))?;
        rest = back;
    }
    let left = Vec::from_slice(alloc, rest)?;
    Ok((batches, left))
}

impl SpanBatcher {
    /// No spans are pending. The timeout is in milliseconds, of which 0 is no wait; `size` spans fill a batch, and
    /// `most` is the greatest number of spans in one, of which 0 is no limit.
    pub fn new(alloc: Global, timeout: u64, size: usize, most: usize) -> Self
        requires valid_rules { AreValidRules (rules_of timeout size most) }
        requires timer { timeout ≤ 2 ^ 32 }
        ensures begins { Begins (rules_of timeout size most) result }
        ensures none { result ≡ record {
          rules = rules_of timeout size most;
          start = None;
          spans
              = [];
        } }
    {
        SpanBatcher {
            alloc,
            timeout,
            size,
            most,
            start: None,
            spans: Vec::new(alloc),
        }
    }

    /// The keys of the pending spans, in the order in which the spans came.
    pub fn spans(&self) -> &[u32]
        ensures { result.now ≡ self.now.spans }
    {
        self.spans.as_slice()
    }

    /// When the timer runs out, in milliseconds; none where nothing is pending.
    pub fn next_due(&self) -> Option<u64>
        ensures { result ≡ next_due self.now }
    {
        match self.start {
            None => None,
            Some(start) => Some(start + self.timeout),
        }
    }

    /// Whether a group of so many spans fills a batch.
    pub fn fills(&self, count: usize) -> bool
        ensures { result ≡ nat_le (threshold self.now.rules) (length self.now.spans + count) }
    {
        threshold(self.timeout, self.size).saturating_sub(self.spans.len()) <= count
    }

    /// A group of spans comes at a moment in milliseconds, before the timer runs out, and fills no batch: it is pending
    /// with what was. Of many that follow each other, each takes time by its own spans alone. Where memory is refused,
    /// nothing has changed.
    pub fn append(&mut self, moment: u64, spans: &[u32]) -> Result<(), AllocError>
        requires not_empty { 0 < length spans.now }
        requires moment { moment ≤ 2 ^ 62 }
        requires timer { IsAfter (next_due self.old) moment }
        requires fills_none { length self.old.spans + length spans.now < threshold self.old.rules }
        ensures adds { OnOk result (Adds moment spans.now self.old [] self.new) }

        // What that is, in terms of the pending spans alone.
        ensures batches { cuts self.old.rules moment (self.old.spans ++ spans.now) ≡ [] }
        ensures pending { OnOk result (self.new ≡ added moment spans.now self.old) }
        ensures on_refusal { OnErr result (self.new ≡ self.old) }
    {
        self.spans.extend_from_slice(spans)?;
        self.start = Some(self.start.unwrap_or(moment));
        Ok(())
    }

    /// How many spans are pending, and when their timer started.
    pub fn mark(&self) -> PendingMark
        ensures { result ≡ mark_of self.now }
    {
        PendingMark {
            count: self.spans.len(),
            start: self.start,
        }
    }

    /// What was appended since a mark was made, with nothing else between, is taken back: what was pending then is
    /// again, with its timer. It takes no memory.
    pub fn cut_back(&mut self, mark: PendingMark)
        ensures { self.new ≡ cut_back mark self.old }
    {
        self.start = mark.start;
        self.spans.truncate(mark.count);
    }

    /// What a group of spans makes of the pending ones at a moment in milliseconds, before the timer runs out. Nothing
    /// changes yet, and `take` makes it so.
    pub fn plan(&self, moment: u64, spans: &[u32]) -> Result<Planned, AllocError>
        requires not_empty { 0 < length spans.now }
        requires moment { moment ≤ 2 ^ 62 }
        requires timer { IsAfter (next_due self.now) moment }
        ensures adds { IfOk result (λ planned.
            Adds moment spans.now self.now planned.batches (taken planned self.now)) }

        // What that is, in terms of the pending spans alone.
        ensures batches { IfOk result (λ planned.
            planned.batches ≡ cuts self.now.rules moment (self.now.spans ++ spans.now)) }
        ensures pending { IfOk result (λ planned. taken planned self.now ≡ added moment spans.now
            self.now) }
    {
        let mut all = Vec::with_capacity(self.alloc, self.spans.len() + spans.len())?;
        all.extend_from_slice(&self.spans)?;
        all.extend_from_slice(spans)?;
        if all.len() < threshold(self.timeout, self.size) {
            let start = Some(self.start.unwrap_or(moment));
            let batches = Vec::new(self.alloc);
            return Ok(Planned {
                batches,
                start,
                spans: all,
            });
        }
        let (batches, rest) = cut_all(
            self.alloc,
            self.timeout,
            self.size,
            self.most,
            moment,
            &all,
        )?;
        let start = start_in(moment, &rest);
        Ok(Planned {
            batches,
            start,
            spans: rest,
        })
    }

    /// What was planned comes about, and its batches leave. It takes no memory.
    pub fn take(&mut self, planned: Planned) -> Vec<Batch>
        ensures batches { result.items ≡ planned.batches }
        ensures pending { self.new ≡ taken planned self.old }
    {
        let Planned {
            batches,
            start,
            spans,
        } = planned;
        self.start = start;
        self.spans = spans;
        batches
    }

    /// What was planned comes about, and `planned` has what was pending before, so that a second call takes it back.
    /// The batches stay with it. It takes no memory.
    pub fn exchange(&mut self, planned: &mut Planned)
        ensures pending { self.new ≡ taken planned.old self.old }
        ensures former { planned.new ≡ record planned.old
            { start = self.old.start; spans = self.old.spans } }
    {
        std::mem::swap(&mut self.start, &mut planned.start);
        std::mem::swap(&mut self.spans, &mut planned.spans);
    }

    /// The timer runs out: all that is pending is one batch. It takes no memory.
    pub fn fire(&mut self) -> Batch
        requires pending { next_due self.old ≢ None }
        ensures fires { (due : ℕ) → next_due self.old ≡ Some due
            → Fires due self.old result self.new }
        ensures batch { (due : ℕ) → next_due self.old ≡ Some due →
            result ≡ record { moment = due; spans = self.old.spans } }
        ensures pending { self.new ≡ fired self.old }
    {
        let due = match self.start {
            None => unreachable!(),
            Some(start) => start + self.timeout,
        };
        let spans = std::mem::replace(&mut self.spans, Vec::new(self.alloc));
        self.start = None;
        Batch::new(due, spans)
    }

    /// The drain, at a moment in milliseconds before the timer runs out: all that is pending is one batch, with no
    /// more wait. It takes no memory.
    pub fn drain(&mut self, moment: u64) -> Option<Batch>
        requires timer { IsAfter (next_due self.old) moment }
        ensures drains { Drains moment self.old result self.new }
        ensures batch { result ≡ drained moment self.old.spans }
        ensures pending { self.new ≡ fired self.old }
    {
        self.start = None;
        if self.spans.is_empty() {
            return None;
        }
        let spans = std::mem::replace(&mut self.spans, Vec::new(self.alloc));
        Some(Batch::new(moment, spans))
    }
}
