//! What is a tenant's own.

ghost use Rattle.std.specs.Prelude.{◌≡◌, [], IfOk, length};
ghost use Rattle.tail_settings.specs.Section.{section_view};
ghost use Rattle.tail_policy.specs.declared.note.TraceNote.{TraceNote as Note};
ghost use Rattle.tenant_stores.specs.Counts.{no_rows};
ghost use Rattle.tenant_stores.specs.Part.{Part, part};
ghost use Rattle.tenant_stores.specs.Invariant.{StoreInvariant};
ghost use Rattle.tenant_stores.specs.Promises.{OthersUnchanged};
ghost use Rattle.tenant_rules.specs.Ready.{ready};
ghost use Rattle.tenant_rules.specs.Retiring.{holds_none};
ghost use Rattle.tenant_pipeline.specs.StateIn.{state_of, state_in};
ghost use Rattle.tenant_pipeline.specs.Present.{rows_present, bytes_waiting, usage_of};
ghost use Rattle.tenant_pipeline.specs.Invariant.{PipelineInvariantBy, PipelineInvariant, IsSwept, HasNonePending};
ghost use Rattle.tenant_pipeline.specs.Steps.{StandsFor};

use crate::unsent::Unsent;
use crate::usage::Usage;
use decision_cache::{DecisionCaches, HashKeys};
use drop_ledger::Ledger;
use send_queue::SendQueue;
use span_batcher::SpanBatcher;
use std::alloc::{AllocError, Global};
use tail_policy::TraceNote;
use tail_settings::{MOST_QUEUE_BYTES, Section};
use tenant_stores::Stores;

/// A later moment is taken as this one, in milliseconds.
pub const LATEST_MOMENT: u64 = 1 << 62;

/// How many of a tenant's rows there are. Rows are numbered from 1, as they open.
#[derive(Clone, Copy, Debug, PartialEq, Eq)]
pub struct RowCounts {
    /// So many have left the table, which are the first.
    pub swept: u64,
    /// So many are no longer present, which are the first.
    pub first: u64,
    /// So many are decided or no longer present, which are the first.
    pub decided: u64,
    /// So many have opened.
    pub opened: u64,
}

/// What is kept of one tenant beside the stores: its settings, its clock, how many rows it has, the keys of its spans
/// that wait for a batch or in one that isn't written, its batches on their way, and its counters.
#[derive(Drop)]
pub struct Pipeline {
    pub(crate) alloc: Global,
    // Its number, under which the stores know it.
    pub(crate) tenant: u32,
    pub(crate) section: Section,
    // The moment of the last step or timer, in milliseconds, which no later one is before.
    pub(crate) clock: u64,
    // Whether it takes no more spans.
    pub(crate) drained: bool,
    pub(crate) rows: RowCounts,
    pub(crate) batcher: SpanBatcher,
    pub(crate) sender: SendQueue,
    pub(crate) ledger: Ledger,
    // The ids of traces that were decided, by verdict.
    pub(crate) caches: DecisionCaches,
    // The batches of its drain that aren't written yet. They wait behind those of `sender`, of which there is one then.
    pub(crate) unsent: Unsent,
}

impl Pipeline {
    /// A tenant with no steps so far, over any stores that have nothing of it. The keys may be those of other tenants
    /// too; no one who picks trace ids knows them, and no answer depends on them.
    pub fn new(
        alloc: Global,
        tenant: u32,
        section: &Section,
        keys: HashKeys,
    ) -> Result<Self, AllocError>
        ensures stands { IfOk result (λ made. (p : Part Note) → StoreInvariant no_rows [] [] p →
            StandsFor (section_view section.now) [] (state_of made p)) }
        ensures invariant { IfOk result (λ made. (p : Part Note) → StoreInvariant no_rows [] [] p
            → PipelineInvariantBy made p) }
        ensures swept { IfOk result (λ made. IsSwept made) }
        ensures tenant { IfOk result (λ made. made.tenant ≡ tenant) }
    {
        let section = section.copy()?;
        let sender = SendQueue::new(alloc, &section.sending_queue, &section.retry_on_failure)?;
        let batcher = SpanBatcher::new(
            alloc,
            section.batch.timeout,
            section.batch.send_batch_size as usize,
            section.batch.send_batch_max_size as usize,
        );
        let caches = DecisionCaches::new(
            alloc,
            section.tail_sampling.sampled_cache_size,
            section.tail_sampling.non_sampled_cache_size,
            keys.of_tenant(tenant),
        )?;
        Ok(Pipeline {
            alloc,
            tenant,
            section,
            clock: 0,
            drained: false,
            rows: RowCounts {
                swept: 0,
                first: 0,
                decided: 0,
                opened: 0,
            },
            batcher,
            sender,
            ledger: Ledger::new(),
            caches,
            unsent: Unsent::new(alloc),
        })
    }

    /// The tenant's number.
    pub fn tenant(&self) -> u32
        ensures { result ≡ self.now.tenant }
    {
        self.tenant
    }

    /// A tenant that was told its last report leaves the stores, with its rows and their spans, as if it had never
    /// been. It takes no memory, and a step for each row that the table has.
    pub fn leave(self, stores: &mut Stores<TraceNote>)
        requires invariant { PipelineInvariant self stores.old }
        requires may_leave { HasNonePending self }
        ensures gone { StoreInvariant no_rows [] [] (part self.tenant stores.new) }
        ensures others_unchanged { OthersUnchanged self.tenant stores.old stores.new }
    {
        stores.vanish(self.tenant, self.rows.swept, self.rows.opened);
    }

    /// When there is next something to do, in milliseconds: the moment of the next timer, or that from which on there
    /// is a job.
    pub fn ready(&self, stores: &Stores<TraceNote>) -> Option<u64>
        requires invariant { PipelineInvariant self.now stores.now }
        ensures { result ≡ ready (state_in self.now stores.now) }
    {
        let job = self.sender.ready();
        if !self.unsent.is_empty() {
            return job;
        }
        lesser(self.next_timer(stores), job)
    }

    /// How full it is, and how full it may be. It takes no memory.
    pub fn usage(&self) -> Usage
        ensures { (p : Part Note) → PipelineInvariantBy self.now p → result
            ≡ usage_of (state_of self.now p) }
    {
        Usage {
            rows: self.rows_present(),
            undecided_rows: self.rows_undecided(),
            rows_limit: u64::from(self.section.tail_sampling.num_traces),
            spans_limit: u64::from(self.section.max_spans),
            queued_batches: (self.sender.queued() as u64).saturating_add(self.unsent.len() as u64),
            queued_batches_limit: u64::from(self.sender.capacity()),
            queued_bytes: self.bytes_waiting(),
            queued_bytes_limit: self.bytes_allowed(),
        }
    }

    /// How many bytes its batches that wait have together; 0 after a drain.
    fn bytes_waiting(&self) -> u64
        ensures { (p : Part Note) → PipelineInvariantBy self.now p → result
            ≡ bytes_waiting (state_of self.now p) }
    {
        if self.drained {
            return 0;
        }
        self.bytes_allowed()
            .saturating_sub(self.sender.bytes_left())
    }

    /// How many bytes they may have so.
    fn bytes_allowed(&self) -> u64
        ensures { (p : Part Note) → PipelineInvariantBy self.now p → result
            ≡ (state_of self.now p).sender.sending.queue_bytes }
    {
        if self.drained {
            return MOST_QUEUE_BYTES;
        }
        self.section.sending_queue.queue_bytes
    }

    /// How many of its rows are present: those that wait, and decided ones that late spans still follow.
    fn rows_present(&self) -> u64
        ensures { (p : Part Note) → PipelineInvariantBy self.now p → result
            ≡ rows_present (state_of self.now p) }
    {
        self.rows.opened.saturating_sub(self.rows.first)
    }

    /// How many of its rows wait for their decision.
    fn rows_undecided(&self) -> u64
        ensures { (p : Part Note) → PipelineInvariantBy self.now p → result
            ≡ length (state_of self.now p).waiting }
    {
        self.rows.opened.saturating_sub(self.rows.decided)
    }

    /// Whether none of its spans waits for anything: each that was taken was exported or dropped.
    pub fn is_empty(&self) -> bool
        ensures { result ≡ holds_none self.now.ledger.places }
    {
        let places = self.ledger.places();
        places.undecided == 0 && places.pending == 0 && places.queued == 0 && places.active == 0
    }
}

ghost use Rattle.tenant_rules.specs.Ready.{lesser};

/// The lesser of two moments, of which one or both may be none.
pub(crate) fn lesser(one: Option<u64>, other: Option<u64>) -> Option<u64>
    ensures { result ≡ lesser one other }
{
    match (one, other) {
        (None, other) => other,
        (Some(one), None) => Some(one),
        (Some(one), Some(other)) => Some(one.min(other)),
    }
}
