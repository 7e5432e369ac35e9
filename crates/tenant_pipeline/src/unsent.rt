//! Batches of a drain that aren't written yet: their spans are in the stores still.

ghost use Rattle.std.specs.Prelude.{◌≡◌, ◌≤◌, ◌↔◌, ◌++◌, ◌∷◌, [], ℕ, false, length, drop, IsTrue, IfOk, MatchOption, OnOk, OnErr};
ghost use Rattle.send_queue.specs.Sender.{is_full};
ghost use Rattle.span_batcher.specs.Maps.{spans_of};
ghost use Rattle.tenant_stores.specs.Part.{part};
ghost use Rattle.tenant_rules.specs.Batching.{as_sent};
ghost use Rattle.tenant_pipeline.specs.StateIn.{batch_at, with_behind};
ghost use Rattle.tenant_pipeline.specs.Unsent.{AddsAll, IsWeighed, IsSizeIn};

use crate::outbox::{is_too_large, size_at, written};
use drop_ledger::{Ledger, Place};
use send_queue::{OfferFault, SendQueue};
use span_batcher::Batch;
use std::alloc::{AllocError, Global};
use std::collections::VecDeque;
use std::marker::Model;
use tail_policy::TraceNote;
use tenant_stores::Stores;

/// A batch that isn't written: when it formed, in milliseconds, and the keys of its spans, in their order.
#[derive(Drop)]
pub(crate) struct UnsentBatch {
    pub(crate) moment: u64,
    pub(crate) keys: Vec<u32>,
}

impl Model for UnsentBatch {
    ghost use Rattle.std.specs.Prelude.{ℕ};
    ghost use Rattle.span_batcher.specs.Batches.{Batch as BatchValue};

    ghost Value = { BatchValue ℕ };

    ghost view = { λ b. record { moment = b.moment; spans = b.keys.items } };
}

impl UnsentBatch {
    /// A batch of these spans.
    fn of(alloc: Global, moment: u64, keys: &[u32]) -> Result<UnsentBatch, AllocError>
        ensures { IfOk result (λ batch. batch ≡ record { moment = moment; spans = keys.now }) }
    {
        let keys = Vec::from_slice(alloc, keys)?;
        Ok(UnsentBatch { moment, keys })
    }

    /// The keys of its spans, in their order.
    pub(crate) fn keys(&self) -> &[u32]
        ensures { result.now ≡ self.now.spans }
    {
        self.keys.as_slice()
    }
}

/// Batches that aren't written, the oldest first.
#[derive(Drop)]
pub(crate) struct Unsent {
    batches: VecDeque<UnsentBatch>,
}

impl Model for Unsent {
    ghost use Rattle.std.specs.Prelude.{ℕ, List};
    ghost use Rattle.span_batcher.specs.Batches.{Batch as BatchValue};

    ghost Value = { List (BatchValue ℕ) };

    ghost view = { λ u. u.batches.items };
}

impl Unsent {
    /// No batches, which take no memory.
    pub(crate) fn new(alloc: Global) -> Unsent
        ensures { result ≡ [] }
    {
        Unsent {
            batches: VecDeque::new(alloc),
        }
    }

    /// How many there are.
    pub(crate) fn len(&self) -> usize
        ensures { result ≡ length self.now }
    {
        self.batches.len()
    }

    /// Whether there are none.
    pub(crate) fn is_empty(&self) -> bool
        ensures { IsTrue result ↔ (self.now ≡ []) }
    {
        self.batches.is_empty()
    }

    /// The first of them.
    pub(crate) fn first(&self) -> Option<&UnsentBatch>
        ensures { MatchOption result (self.now ≡ [])
            (λ first. self.now ≡ first.now ∷ drop 1 self.now) }
    {
        self.batches.front()
    }

    /// The first of them leaves.
    pub(crate) fn pop(&mut self) -> Option<UnsentBatch>
        ensures first { MatchOption result (self.old ≡ []) (λ first. self.old ≡ first ∷ self.new) }
        ensures rest { self.new ≡ drop 1 self.old }
    {
        self.batches.pop_front()
    }

    /// One more, behind the others.
    fn push(&mut self, alloc: Global, moment: u64, keys: &[u32]) -> Result<(), AllocError>
        ensures on_success { OnOk result (self.new ≡
            self.old ++ record { moment = moment; spans = keys.now } ∷ []) }
        ensures on_refusal { OnErr result (self.new ≡ self.old) }
    {
        let batch = UnsentBatch::of(alloc, moment, keys)?;
        self.batches.push_back(batch)?;
        Ok(())
    }
}

/// The batch is written, and waits behind those that are, for which there is room.
pub(crate) fn write(
    alloc: Global,
    stores: &Stores<TraceNote>,
    tenant: u32,
    sender: &mut SendQueue,
    batch: &UnsentBatch,
) -> Result<(), AllocError>
    requires room { is_full (as_sent (batch_at (part tenant stores.now) batch.now)) sender.old
        ≡ false }
    ensures on_success { OnOk result (sender.new ≡
        with_behind (as_sent (batch_at (part tenant stores.now) batch.now) ∷ []) sender.old) }
    ensures on_refusal { OnErr result (sender.new ≡ sender.old) }
{
    let sent = written(alloc, stores, tenant, batch.moment, batch.keys.as_slice())?;
    match sender.offer(sent) {
        Ok(()) => Ok(()),
        Err(OfferFault::Full(_)) => unreachable!(),
        Err(OfferFault::OutOfMemory(_)) => Err(AllocError),
    }
}

/// The batches that a drain forms.
#[derive(Drop)]
pub(crate) struct Leaving {
    alloc: Global,
    /// Those that find room.
    pub(crate) unsent: Unsent,
    /// How many bytes these will have, until the first of them is written.
    pub(crate) bytes: u64,
    /// The keys of the spans in the others, and in those that were written. They are still stored.
    pub(crate) gone: Vec<u32>,
}

impl Leaving {
    /// None so far, which takes no memory.
    pub(crate) fn none(alloc: Global) -> Leaving
        ensures unsent { result.unsent ≡ [] }
        ensures bytes { result.bytes ≡ 0 }
        ensures gone { result.gone.items ≡ [] }
    {
        Leaving {
            alloc,
            unsent: Unsent::new(alloc),
            bytes: 0,
            gone: Vec::new(alloc),
        }
    }

    /// How many bytes a batch of the tenant's spans at these keys will have, where it finds room behind the others,
    /// whenever it forms. Its spans are looked at only where fewer batches wait than may.
    fn size_if_room(
        &self,
        stores: &Stores<TraceNote>,
        tenant: u32,
        sender: &SendQueue,
        keys: &[u32],
    ) -> Result<Option<u64>, AllocError>
        requires weighed { IsWeighed (part tenant stores.now) self.now }
        ensures { IfOk result (λ found. (moment : ℕ) → IsSizeIn found (part tenant stores.now)
            (record { moment = moment; spans = keys.now }) self.now sender.now) }
    {
        let room = (sender.capacity() as usize).saturating_sub(sender.queued());
        if room <= self.unsent.len() {
            return Ok(None);
        }
        let size = size_at(self.alloc, stores, tenant, keys)?;
        if is_too_large(sender, self.bytes, size) {
            return Ok(None);
        }
        Ok(Some(size as u64))
    }

    /// A batch of the tenant's pending spans, by their keys, that formed at a moment, in milliseconds. It waits behind
    /// the others; where it finds no room, its spans are dropped.
    pub(crate) fn add(
        &mut self,
        stores: &Stores<TraceNote>,
        tenant: u32,
        sender: &SendQueue,
        ledger: &mut Ledger,
        moment: u64,
        keys: &[u32],
    ) -> Result<(), AllocError>
        requires pending { length keys.now ≤ ledger.old.places.pending }
        requires weighed { IsWeighed (part tenant stores.now) self.old }
        ensures { OnOk result (AddsAll (part tenant stores.now)
            (record { moment = moment; spans = keys.now } ∷ [])
            sender.now self.old self.new ledger.old ledger.new) }
    {
        let spans = keys.len() as u64;
        let Some(size) = self.size_if_room(stores, tenant, sender, keys)? else {
            self.gone.extend_from_slice(keys)?;
            ledger.move_spans(Place::Pending, Place::QueueFull, spans);
            return Ok(());
        };
        self.unsent.push(self.alloc, moment, keys)?;
        self.bytes += size;
        ledger.move_spans(Place::Pending, Place::Queued, spans);
        Ok(())
    }

    /// Several batches of pending spans, one after the other.
    pub(crate) fn add_all(
        &mut self,
        stores: &Stores<TraceNote>,
        tenant: u32,
        sender: &SendQueue,
        ledger: &mut Ledger,
        batches: &[Batch],
    ) -> Result<(), AllocError>
        requires pending { length (spans_of batches.now) ≤ ledger.old.places.pending }
        requires weighed { IsWeighed (part tenant stores.now) self.old }
        ensures { OnOk result (AddsAll (part tenant stores.now) batches.now
            sender.now self.old self.new ledger.old ledger.new) }
    {
        for batch in batches {
            self.add(
                stores,
                tenant,
                sender,
                ledger,
                batch.moment(),
                batch.spans(),
            )?;
        }
        Ok(())
    }
}
