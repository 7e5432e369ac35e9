//! The end of a tenant: its rows are decided at once, and all that is pending is one batch.

ghost use Rattle.std.specs.Prelude.{◌≡◌, ◌≢◌, ◌<◌, ◌≤◌, ◌+◌, [], true, ◌^◌, ℕ, max, List, None, Some, OnOk, OnErr, length};
ghost use Rattle.span_batcher.specs.Maps.{spans_of};
ghost use Rattle.span_batcher.specs.State.{next_due, IsAfter};
ghost use Rattle.trace_rows.specs.Part.{with_at};
ghost use Rattle.trace_rows.specs.declared.table.Row.{Row};
ghost use Rattle.tail_policy.specs.declared.note.TraceNote.{TraceNote as Note};
ghost use Rattle.tenant_stores.specs.Part.{Part, part};
ghost use Rattle.tenant_stores.specs.Counts.{count};
ghost use Rattle.tenant_stores.specs.Invariant.{StoreInvariant};
ghost use Rattle.tenant_stores.specs.Shows.{row_shown};
ghost use Rattle.tenant_stores.specs.View.{view};
ghost use Rattle.tail_settings.specs.Section.{section_view};
ghost use Rattle.tenant_rules.specs.Batching.{rules_of};
ghost use Rattle.tenant_rules.specs.Machine.{emptied};
ghost use Rattle.tenant_pipeline.specs.declared.pipeline.Pipeline.{Pipeline as Own};
ghost use Rattle.tenant_pipeline.specs.Acts.{ActsAt};
ghost use Rattle.tenant_pipeline.specs.Drains.{HasRow, SendsRowUnsent, SendsRestUnsent, SendsAll, SettlesAlike, SettlesSoundly, StaysAlikeWith, StaysSoundWith};
ghost use Rattle.tenant_pipeline.specs.Drains.{closed_view, sampled_at, sampled_waiting, verdict_given};
ghost use Rattle.tenant_pipeline.specs.Outbox.{AreThere, HasRoom};
ghost use Rattle.tenant_pipeline.specs.StateIn.{counts_in, part_in, policies_of, state_in, waiting_of, written_state_in, written_with};
ghost use Rattle.tenant_pipeline.specs.Invariant.{PipelineInvariantAt, PipelineInvariantFrom, IsSwept};
ghost use Rattle.tenant_pipeline.specs.Undo.{TakesBack};
ghost use Rattle.tenant_pipeline.specs.Unsent.{IsWeighed, count_left};
ghost use Rattle.tenant_stores.specs.Promises.{OthersUnchanged};

use crate::pipeline::Pipeline;
use crate::undo::Undo;
use crate::unsent::{Leaving, write};
use drop_ledger::Place;
use std::alloc::AllocError;
use tail_policy::TraceNote;
use tenant_stores::Stores;

impl Pipeline {
    /// The end of a tenant that is drained, at a moment, in milliseconds, by which no timer is due. Its batches are
    /// decided, and one at most is written; the spans of the others stay in the stores until they are. This takes four
    /// bytes for each span in a batch, and for one batch at a time, until its size is known, a pointer for each span
    /// and 32 bytes for each run of neighbours with the same resource and scope. Where memory is refused, nothing has
    /// changed.
    pub(crate) fn close(
        &mut self,
        stores: &mut Stores<TraceNote>,
        moment: u64,
    ) -> Result<(), AllocError>
        requires holds { PipelineInvariantAt moment [] [] self.old (part_in self.old stores.old) }
        requires quiet { IsAfter (next_due self.old.batcher) moment }
        requires drained { self.old.drained ≡ true }
        ensures on_success { OnOk result (ActsAt moment (emptied moment)
            (written_state_in self.old stores.old) (state_in self.new stores.new)) }
        ensures holds { OnOk result (PipelineInvariantFrom moment self.new
            (part_in self.new stores.new)) }
        ensures others_unchanged { OthersUnchanged self.old.tenant stores.old stores.new }
        ensures on_refusal { OnErr result (self.new ≡ self.old) }
        ensures part_on_refusal { OnErr result
            (part self.old.tenant stores.new ≡ part self.old.tenant stores.old) }
        ensures tenant { self.new.tenant ≡ self.old.tenant }
        ensures section { self.new.section ≡ self.old.section }
        ensures clock { self.new.clock ≡ self.old.clock }
        ensures swept { IsSwept self.old → IsSwept self.new }
        ensures first { OnOk result
            (length self.new.sender.queue ≤ max 1 (length self.old.sender.queue)) }
    {
        let mut undo = Undo::of(self);
        let mut leaving = Leaving::none(self.alloc);
        match self.send_all(stores, &mut undo, &mut leaving, moment) {
            Ok(()) => {
                let Leaving { unsent, gone, .. } = leaving;
                let _ = self.batcher.drain(moment);
                self.settle_rows(stores);
                stores.flush(self.tenant, gone.as_slice());
                self.unsent = unsent;
                Ok(())
            }
            Err(refused) => {
                self.take_back(undo);
                Err(refused)
            }
        }
    }

    /// The spans of all rows that wait leave, row by row, those of sampled rows for batches, and what is pending then
    /// is one batch. The first batch is written where none waits that is. The stores have all spans still.
    fn send_all(
        &mut self,
        stores: &Stores<TraceNote>,
        undo: &mut Undo,
        leaving: &mut Leaving,
        moment: u64,
    ) -> Result<(), AllocError>
        requires holds { PipelineInvariantAt moment [] [] self.old (part_in self.old stores.now) }
        requires quiet { IsAfter (next_due self.old.batcher) moment }
        requires none { leaving.old.unsent ≡ [] }
        requires none_gone { leaving.old.gone.items ≡ [] }
        requires none_weigh { leaving.old.bytes ≡ 0 }
        requires offers { undo.old.offers ≤ length self.old.sender.queue }
        ensures on_success { OnOk result (SendsAll moment (part_in self.old stores.now) self.old
            (written_with leaving.new.unsent (part_in self.old stores.now) self.new)) }
        ensures gone { OnOk result ((key : ℕ)
            → count_left leaving.new key ≡ count key self.old.batcher.spans + count key
            (sampled_waiting self.old (part_in self.old stores.now))) }
        ensures behind { OnOk result
            (0 < length leaving.new.unsent → 0 < length self.new.sender.queue) }
        ensures first { OnOk result
            (length self.new.sender.queue ≤ max 1 (length self.old.sender.queue)) }
        ensures back { (start : Own) → TakesBack undo.old start self.old
            → TakesBack undo.new start self.new }
    {
        let mut number = self.rows.decided;
        while number < self.rows.opened {
            number += 1;
            self.send_row(stores, undo, leaving, moment, number)?;
        }
        self.send_rest(stores, leaving, moment)?;
        self.write_first(stores, undo, leaving)
    }

    /// The spans of a row that waits leave, for a batch where it is sampled.
    fn send_row(
        &mut self,
        stores: &Stores<TraceNote>,
        undo: &mut Undo,
        leaving: &mut Leaving,
        moment: u64,
        number: u64,
    ) -> Result<(), AllocError>
        requires there { HasRow self.old (part_in self.old stores.now) number }
        requires quiet { IsAfter (next_due self.old.batcher) moment }
        requires fits { moment ≤ 2 ^ 62 }
        requires rules { self.old.batcher.rules ≡ rules_of (section_view self.old.section) }
        requires pending { self.old.ledger.places.pending ≡ length self.old.batcher.spans }
        requires room { HasRoom (written_with leaving.old.unsent (part_in self.old stores.now)
            self.old) }
        requires offers { undo.old.offers ≤ length self.old.sender.queue }
        requires weighed { IsWeighed (part_in self.old stores.now) leaving.old }
        ensures on_success { OnOk result (SendsRowUnsent moment number
            (part_in self.old stores.now) leaving.old.unsent leaving.new.unsent self.old self.new) }
        ensures gone { OnOk result ((key : ℕ)
            → count_left leaving.new key + count key self.new.batcher.spans ≡ count_left leaving.old
            key + (count key self.old.batcher.spans + count key
            (sampled_at self.old (part_in self.old stores.now) number))) }
        ensures back { (start : Own) → TakesBack undo.old start self.old
            → TakesBack undo.new start self.new }
        ensures offers { undo.new.offers ≤ length self.new.sender.queue }
        ensures sender { self.new.sender ≡ self.old.sender }
        ensures weighed { OnOk result (IsWeighed (part_in self.old stores.now) leaving.new) }
    {
        let Some(row) = stores.row(self.tenant, number) else {
            unreachable!()
        };
        let keys = row.keys.as_slice();
        if row
            .note
            .samples(self.section.tail_sampling.policies.as_slice())
        {
            return self.group_unsent(stores, undo, leaving, moment, keys);
        }
        self.ledger
            .move_spans(Place::Undecided, Place::NotSampled, keys.len() as u64);
        Ok(())
    }

    /// What is pending is one batch.
    fn send_rest(
        &mut self,
        stores: &Stores<TraceNote>,
        leaving: &mut Leaving,
        moment: u64,
    ) -> Result<(), AllocError>
        requires pending { self.old.ledger.places.pending ≡ length self.old.batcher.spans }
        requires weighed { IsWeighed (part_in self.old stores.now) leaving.old }
        ensures on_success { OnOk result (SendsRestUnsent moment (part_in self.old stores.now)
            leaving.old.unsent leaving.new.unsent self.old self.new) }
        ensures gone { OnOk result ((key : ℕ)
            → count_left leaving.new key ≡ count_left leaving.old key + count key
            self.old.batcher.spans) }
        ensures same { self.new ≡ record self.old { ledger = self.new.ledger } }
    {
        let keys = self.batcher.spans();
        if keys.is_empty() {
            return Ok(());
        }
        leaving.add(
            stores,
            self.tenant,
            &self.sender,
            &mut self.ledger,
            moment,
            keys,
        )
    }

    /// The first batch that isn't written is, where none waits that is: one always stands before the others.
    fn write_first(
        &mut self,
        stores: &Stores<TraceNote>,
        undo: &mut Undo,
        leaving: &mut Leaving,
    ) -> Result<(), AllocError>
        requires room { HasRoom (written_with leaving.old.unsent (part_in self.old stores.now)
            self.old) }
        requires offers { undo.old.offers ≤ length self.old.sender.queue }
        ensures on_success { OnOk result
            (written_with leaving.new.unsent (part_in self.old stores.now) self.new
            ≡ written_with leaving.old.unsent (part_in self.old stores.now) self.old) }
        ensures gone { OnOk result ((key : ℕ)
            → count_left leaving.new key ≡ count_left leaving.old key) }
        ensures behind { OnOk result
            (0 < length leaving.new.unsent → 0 < length self.new.sender.queue) }
        ensures one { OnOk result
            (length leaving.old.unsent ≤ length leaving.new.unsent + 1) }
        ensures first { OnOk result
            (length self.new.sender.queue ≤ max 1 (length self.old.sender.queue)) }
        ensures back { (start : Own) → TakesBack undo.old start self.old
            → TakesBack undo.new start self.new }
    {
        if self.sender.queued() > 0 {
            return Ok(());
        }
        let Some(first) = leaving.unsent.first() else {
            return Ok(());
        };
        leaving.gone.extend_from_slice(first.keys())?;
        write(self.alloc, stores, self.tenant, &mut self.sender, first)?;
        undo.offers += 1;
        let _ = leaving.unsent.pop();
        Ok(())
    }

    /// All rows that wait have their verdict, and no keys any more.
    fn settle_rows(&mut self, stores: &mut Stores<TraceNote>)
        requires store_invariant { (pending : List ℕ)
            × StoreInvariant (counts_in self.old) pending [] (part_in self.old stores.old) }
        requires rows_bounded { self.old.rows.opened ≤ 2 ^ 62 }
        ensures only_decided { self.new ≡ record self.old {
          rows = record self.old.rows { decided = self.old.rows.opened };
        } }
        ensures store_invariant { StaysSoundWith
            (sampled_waiting self.old (part_in self.old stores.old)) (counts_in self.old)
            (counts_in self.new) (part_in self.old stores.old) (part_in self.new stores.new) }
        ensures shows { view (counts_in self.new) [] (part_in self.new stores.new) ≡ closed_view
            (policies_of self.old) (view (counts_in self.old) [] (part_in self.old stores.old)) }
        ensures alike { StaysAlikeWith (sampled_waiting self.old (part_in self.old stores.old))
            (counts_in self.old) (part_in self.old stores.old) (part_in self.new stores.new) }
        ensures others_unchanged { OthersUnchanged self.old.tenant stores.old stores.new }
    {
        let mut number = self.rows.decided;
        while number < self.rows.opened {
            number += 1;
            self.settle_row(stores, number);
        }
        self.rows.decided = number;
    }

    /// The row has its verdict: where it is sampled its keys are pending, and else its spans leave.
    fn settle_row(&self, stores: &mut Stores<TraceNote>, number: u64)
        requires there { (part_in self.now stores.old).rows number ≢ None }
        ensures store_invariant { SettlesSoundly number
            (sampled_at self.now (part_in self.now stores.old) number) (part_in self.now stores.old)
            (part_in self.now stores.new) }
        ensures alike { SettlesAlike number
            (sampled_at self.now (part_in self.now stores.old) number) (policies_of self.now)
            (part_in self.now stores.old) (part_in self.now stores.new) }
        ensures rows { (part_in self.now stores.new).rows ≡ with_at number
            (verdict_given (policies_of self.now) ((part_in self.now stores.old).rows number))
            (part_in self.now stores.old).rows }
        ensures others_unchanged { OthersUnchanged self.now.tenant stores.old stores.new }
    {
        let Some(row) = stores.row(self.tenant, number) else {
            unreachable!()
        };
        if row
            .note
            .samples(self.section.tail_sampling.policies.as_slice())
        {
            stores.keep_row(self.tenant, number);
        } else {
            stores.drop_row(self.tenant, number);
        }
    }
}
