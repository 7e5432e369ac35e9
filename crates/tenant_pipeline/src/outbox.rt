//! Spans that leave their rows become batches that wait to be sent.

ghost use Rattle.std.specs.Prelude.{◌≡◌, ◌<◌, ◌≤◌, ◌+◌, ◌^◌, ◌++◌, ◌||◌, [], ℕ, true, false, length, nat_lt, IfOk, MatchOption, OnOk, OnErr};
ghost use Rattle.drop_ledger.specs.Ledger.{moved};
ghost use Rattle.drop_ledger.specs.declared.places.Place.TheVariants.{Undecided, Pending};
ghost use Rattle.send_queue.specs.Sender.{payload_bytes};
ghost use Rattle.send_queue.specs.View.{batch_view};
ghost use Rattle.span_batcher.specs.Blocks.{capped};
ghost use Rattle.span_batcher.specs.State.{next_due, IsAfter};
ghost use Rattle.span_batcher.specs.Machine.{threshold, cuts, added};
ghost use Rattle.span_batcher.specs.Maps.{spans_of};
ghost use Rattle.span_batcher.specs.Texts.{spans_in};
ghost use Rattle.tenant_stores.specs.Part.{part};
ghost use Rattle.tenant_stores.specs.Counts.{count};
ghost use Rattle.tenant_stores.specs.View.{spans_at};
ghost use Rattle.tail_settings.specs.Section.{section_view};
ghost use Rattle.tenant_rules.specs.Batching.{rules_of};
ghost use Rattle.tenant_rules.specs.ExportText.{export_text};
ghost use Rattle.tenant_rules.specs.Sender.{most_bytes, finds_no_room};
ghost use Rattle.tenant_rules.specs.Timers.{recount, all_queued};
ghost use Rattle.tenant_pipeline.specs.declared.pipeline.Pipeline.{Pipeline as Own};
ghost use Rattle.tenant_pipeline.specs.StateIn.{part_in, unsent_at};
ghost use Rattle.tenant_pipeline.specs.Outbox.{arrivals_at, sent_at, AreThere, Offers, Sends, Groups, GroupsUnsent, Took, HasRoom};
ghost use Rattle.tenant_pipeline.specs.Undo.{TakesBack};
ghost use Rattle.tenant_pipeline.specs.Unsent.{IsWeighed, count_left};

use crate::pipeline::Pipeline;
use crate::undo::{Undo, take_back_offers};
use crate::unsent::Leaving;
use drop_ledger::{Ledger, Place};
use send_queue::{Batch, OfferFault, SendQueue};
use span_batcher::BatchText;
use span_pool::StoredSpan;
use std::alloc::{AllocError, Global};
use tail_policy::TraceNote;
use tenant_stores::Stores;

/// So many bytes a batch has at most. A larger one finds no room and is never written, so that one tenant's spans can't
/// take all memory.
const MOST_BYTES: usize = 1 << 25;

/// The tenant's spans at these keys, in their order. A key that has none is left out.
fn spans_by_keys<'a>(
    alloc: Global,
    stores: &'a Stores<TraceNote>,
    tenant: u32,
    keys: &[u32],
) -> Result<Vec<&'a StoredSpan>, AllocError>
    ensures { IfOk result (λ spans. spans_in stores.now.texts spans.items ≡
        spans_at (part tenant stores.now).spans (part tenant stores.now).texts keys.now) }
{
    let mut spans = Vec::with_capacity(alloc, keys.len())?;
    for key in keys {
        let Some(found) = stores.span(tenant, *key) else {
            continue;
        };
        spans.push(found)?;
    }
    Ok(spans)
}

/// A batch of the tenant's spans at these keys, as it is sent, however many bytes it has. It formed at a moment, in
/// milliseconds.
pub(crate) fn written(
    alloc: Global,
    stores: &Stores<TraceNote>,
    tenant: u32,
    moment: u64,
    keys: &[u32],
) -> Result<Batch, AllocError>
    ensures { IfOk result (λ batch. batch_view batch ≡
        sent_at moment keys.now (part tenant stores.now)) }
{
    let spans = spans_by_keys(alloc, stores, tenant, keys)?;
    let text = BatchText::of(alloc, stores.texts(), spans.as_slice())?;
    let payload = text.write(alloc)?;
    Ok(Batch {
        moment,
        spans: spans.len() as u64,
        payload,
    })
}

/// How many bytes a batch of the tenant's spans at these keys has. Nothing is written. A number of which there is no
/// `usize` is the greatest one.
pub(crate) fn size_at(
    alloc: Global,
    stores: &Stores<TraceNote>,
    tenant: u32,
    keys: &[u32],
) -> Result<usize, AllocError>
    ensures { IfOk result (λ size. size ≡
        capped (length (export_text (arrivals_at (part tenant stores.now) keys.now)))) }
{
    let spans = spans_by_keys(alloc, stores, tenant, keys)?;
    let text = BatchText::of(alloc, stores.texts(), spans.as_slice())?;
    Ok(text.size())
}

/// Whether a batch of a size that [`size_at`] told is larger than a batch may be, or than may still wait, where others
/// of `ahead` bytes wait behind those of the queue.
pub(crate) fn is_too_large(sender: &SendQueue, ahead: u64, size: usize) -> bool
    ensures large { (bytes : ℕ) → size ≡ capped bytes → result ≡ (nat_lt most_bytes bytes
        || nat_lt sender.now.sending.queue_bytes
        (payload_bytes sender.now.queue + ahead + bytes)) }
    ensures small { result ≡ false → ahead + size ≤ 2 ^ 42 }
{
    if size > MOST_BYTES {
        return true;
    }
    ahead.saturating_add(size as u64) > sender.bytes_left()
}

/// A batch of the tenant's spans at these keys, as it is sent, where it finds room behind those that wait. It forms at
/// a moment, in milliseconds. Nothing is written where it finds none.
fn written_if_room(
    alloc: Global,
    stores: &Stores<TraceNote>,
    tenant: u32,
    sender: &SendQueue,
    moment: u64,
    keys: &[u32],
) -> Result<Option<Batch>, AllocError>
    ensures { let sent = sent_at moment keys.now (part tenant stores.now) in
        IfOk result (λ found. MatchOption found
        (finds_no_room sent sender.now ≡ true)
        (λ batch. (batch_view batch ≡ sent) × (finds_no_room sent sender.now ≡ false))) }
{
    if sender.queued() >= sender.capacity() as usize {
        return Ok(None);
    }
    let spans = spans_by_keys(alloc, stores, tenant, keys)?;
    let text = BatchText::of(alloc, stores.texts(), spans.as_slice())?;
    if is_too_large(sender, 0, text.size()) {
        return Ok(None);
    }
    let payload = text.write(alloc)?;
    Ok(Some(Batch {
        moment,
        spans: spans.len() as u64,
        payload,
    }))
}

/// A batch of the tenant's pending spans at these keys forms at a moment, in milliseconds. Where it finds room, it is
/// written and waits behind the others; else nothing is written, and its spans are dropped. The answer is how many the
/// queue took, one or none. Where memory is refused, nothing has changed.
pub(crate) fn offer(
    alloc: Global,
    stores: &Stores<TraceNote>,
    tenant: u32,
    sender: &mut SendQueue,
    ledger: &mut Ledger,
    moment: u64,
    keys: &[u32],
) -> Result<usize, AllocError>
    requires there { AreThere (part tenant stores.now) keys.now }
    requires pending { length keys.now ≤ ledger.old.places.pending }
    ensures on_success { OnOk result (Offers (sent_at moment keys.now (part tenant stores.now))
        sender.old sender.new ledger.old ledger.new) }
    ensures took { IfOk result (λ offers. Took offers sender.old sender.new) }
    ensures at_most_one { IfOk result (λ offers. offers ≤ 1) }
    ensures on_refusal { OnErr result (sender.new ≡ sender.old) }
    ensures ledger_on_refusal { OnErr result (ledger.new ≡ ledger.old) }
{
    let spans = keys.len() as u64;
    let Some(batch) = written_if_room(alloc, stores, tenant, sender, moment, keys)? else {
        ledger.move_spans(Place::Pending, Place::QueueFull, spans);
        return Ok(0);
    };
    match sender.offer(batch) {
        Ok(()) => {
            ledger.move_spans(Place::Pending, Place::Queued, spans);
            Ok(1)
        }
        Err(OfferFault::Full(_)) => unreachable!(),
        Err(OfferFault::OutOfMemory(_)) => Err(AllocError),
    }
}

/// The keys of all spans of these batches, in their order.
fn keys_of(alloc: Global, batches: &[span_batcher::Batch]) -> Result<Vec<u32>, AllocError>
    ensures { IfOk result (λ keys. keys.items ≡ spans_of batches.now) }
{
    let mut keys = Vec::new(alloc);
    for batch in batches {
        keys.extend_from_slice(batch.spans())?;
    }
    Ok(keys)
}

impl Pipeline {
    /// Batches of pending spans are offered, one after the other, all or none. The answer is how many the queue took.
    fn offer_all(
        &mut self,
        stores: &Stores<TraceNote>,
        batches: &[span_batcher::Batch],
    ) -> Result<usize, AllocError>
        requires there { AreThere (part_in self.old stores.now) (spans_of batches.now) }
        requires pending { length (spans_of batches.now) ≤ self.old.ledger.places.pending }
        requires room { HasRoom self.old }
        ensures on_success { OnOk result (Sends
            (all_queued (unsent_at (part_in self.old stores.now) batches.now)) self.old self.new) }
        ensures took { IfOk result (λ offers. Took offers self.old.sender self.new.sender) }
        ensures on_refusal { OnErr result (self.new ≡ self.old) }
    {
        let before = self.ledger.counters();
        let mut offers = 0;
        for batch in batches {
            match offer(
                self.alloc,
                stores,
                self.tenant,
                &mut self.sender,
                &mut self.ledger,
                batch.moment(),
                batch.spans(),
            ) {
                Ok(taken) => offers += taken,
                Err(refused) => {
                    take_back_offers(&mut self.sender, offers);
                    self.ledger = Ledger::of(before);
                    return Err(refused);
                }
            }
        }
        Ok(offers)
    }

    /// So many undecided spans become pending, and then batches of pending spans are offered, all or none. The answer
    /// is how many the queue took.
    fn offer_group(
        &mut self,
        stores: &Stores<TraceNote>,
        spans: u64,
        batches: &[span_batcher::Batch],
    ) -> Result<usize, AllocError>
        requires undecided { spans ≤ self.old.ledger.places.undecided }
        requires there { AreThere (part_in self.old stores.now) (spans_of batches.now) }
        requires pending { length (spans_of batches.now) ≤ self.old.ledger.places.pending + spans }
        requires room { HasRoom self.old }
        ensures on_success { OnOk result (Sends (λ s. all_queued
            (unsent_at (part_in self.old stores.now) batches.now)
            (recount Undecided Pending spans s)) self.old self.new) }
        ensures took { IfOk result (λ offers. Took offers self.old.sender self.new.sender) }
        ensures on_refusal { OnErr result (self.new ≡ self.old) }
    {
        let before = self.ledger.counters();
        self.ledger
            .move_spans(Place::Undecided, Place::Pending, spans);
        let offered = self.offer_all(stores, batches);
        if offered.is_err() {
            self.ledger = Ledger::of(before);
        }
        offered
    }

    /// The undecided spans at these keys leave together at a moment, in milliseconds, fill no batch, and are pending
    /// with what was. Where memory is refused, nothing has changed.
    fn append_group(&mut self, moment: u64, keys: &[u32]) -> Result<(), AllocError>
        requires not_empty { 0 < length keys.now }
        requires moment { moment ≤ 2 ^ 62 }
        requires timer { IsAfter (next_due self.old.batcher) moment }
        requires fills_none { length self.old.batcher.spans + length keys.now < threshold
            self.old.batcher.rules }
        requires undecided { length keys.now ≤ self.old.ledger.places.undecided }
        ensures batches { cuts self.old.batcher.rules moment (self.old.batcher.spans ++ keys.now)
            ≡ [] }
        ensures on_success { OnOk result (self.new ≡ record self.old {
          batcher = added moment keys.now self.old.batcher;
          ledger = moved Undecided Pending (length keys.now) self.old.ledger;
        }) }
        ensures on_refusal { OnErr result (self.new ≡ self.old) }
    {
        self.batcher.append(moment, keys)?;
        self.ledger
            .move_spans(Place::Undecided, Place::Pending, keys.len() as u64);
        Ok(())
    }

    /// The undecided spans at these keys leave together at a moment, in milliseconds, and wait for a batch. Batches
    /// that this fills are offered, and the keys of their spans noted as gone. All of it happens, or nothing.
    pub(crate) fn group(
        &mut self,
        stores: &Stores<TraceNote>,
        undo: &mut Undo,
        moment: u64,
        keys: &[u32],
    ) -> Result<(), AllocError>
        requires not_empty { 0 < length keys.now }
        requires moment { moment ≤ 2 ^ 62 }
        requires timer { IsAfter (next_due self.old.batcher) moment }
        requires rules { self.old.batcher.rules ≡ rules_of (section_view self.old.section) }
        requires undecided { length keys.now ≤ self.old.ledger.places.undecided }
        requires pending { self.old.ledger.places.pending ≡ length self.old.batcher.spans }
        requires there { AreThere (part_in self.old stores.now)
            (self.old.batcher.spans ++ keys.now) }
        requires room { HasRoom self.old }
        requires offers { undo.old.offers ≤ length self.old.sender.queue }
        ensures on_success { OnOk result
            (Groups moment keys.now (part_in self.old stores.now) self.old self.new) }

        // Each key is pending or gone, as often as before.
        ensures gone { OnOk result ((key : ℕ)
            → count key undo.new.gone.items + count key self.new.batcher.spans ≡ count key
            undo.old.gone.items + (count key self.old.batcher.spans + count key keys.now)) }

        // It can be taken back as before.
        ensures back { (start : Own) → TakesBack undo.old start self.old
            → TakesBack undo.new start self.new }
        ensures offers { undo.new.offers ≤ length self.new.sender.queue }
        ensures on_refusal { OnErr result (self.new ≡ self.old) }
        ensures gone_on_refusal { OnErr result (undo.new.gone.items ≡ undo.old.gone.items) }
    {
        if !self.batcher.fills(keys.len()) {
            return self.append_group(moment, keys);
        }
        let mut planned = self.batcher.plan(moment, keys)?;
        let mut gone = keys_of(self.alloc, planned.batches())?;
        let kept = undo.gone.len();
        undo.gone.append(&mut gone)?;
        match self.offer_group(stores, keys.len() as u64, planned.batches()) {
            Ok(offers) => {
                self.batcher.exchange(&mut planned);
                undo.note(planned, offers);
                Ok(())
            }
            Err(refused) => {
                undo.gone.truncate(kept);
                Err(refused)
            }
        }
    }

    /// The undecided spans at these keys leave together at a moment, in milliseconds, and wait for a batch. Batches
    /// that this fills are among those that a drain forms. What it changes can be taken back, also where memory is
    /// refused.
    pub(crate) fn group_unsent(
        &mut self,
        stores: &Stores<TraceNote>,
        undo: &mut Undo,
        leaving: &mut Leaving,
        moment: u64,
        keys: &[u32],
    ) -> Result<(), AllocError>
        requires not_empty { 0 < length keys.now }
        requires moment { moment ≤ 2 ^ 62 }
        requires timer { IsAfter (next_due self.old.batcher) moment }
        requires rules { self.old.batcher.rules ≡ rules_of (section_view self.old.section) }
        requires undecided { length keys.now ≤ self.old.ledger.places.undecided }
        requires pending { self.old.ledger.places.pending ≡ length self.old.batcher.spans }
        requires offers { undo.old.offers ≤ length self.old.sender.queue }
        requires few { length self.old.sender.queue < 2 ^ 32 }
        requires weighed { IsWeighed (part_in self.old stores.now) leaving.old }
        ensures on_success { OnOk result (GroupsUnsent moment keys.now
            (part_in self.old stores.now) leaving.old.unsent leaving.new.unsent self.old self.new) }

        // Each key is pending, in a batch or gone, as often as before.
        ensures gone { OnOk result ((key : ℕ)
            → count_left leaving.new key + count key self.new.batcher.spans ≡ count_left leaving.old
            key + (count key self.old.batcher.spans + count key keys.now)) }
        ensures back { (start : Own) → TakesBack undo.old start self.old
            → TakesBack undo.new start self.new }
        ensures offers { undo.new.offers ≤ length self.new.sender.queue }
        ensures sender { self.new.sender ≡ self.old.sender }
        ensures weighed { OnOk result (IsWeighed (part_in self.old stores.now) leaving.new) }
    {
        if !self.batcher.fills(keys.len()) {
            return self.append_group(moment, keys);
        }
        let mut planned = self.batcher.plan(moment, keys)?;
        self.ledger
            .move_spans(Place::Undecided, Place::Pending, keys.len() as u64);
        leaving.add_all(
            stores,
            self.tenant,
            &self.sender,
            &mut self.ledger,
            planned.batches(),
        )?;
        self.batcher.exchange(&mut planned);
        undo.note(planned, 0);
        Ok(())
    }
}
