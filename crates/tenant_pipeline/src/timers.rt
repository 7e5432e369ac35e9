//! A tenant's due timers, which run one at a time: the batch timer, and the decisions of rows.

ghost use Rattle.std.specs.Prelude.{◌≡◌, ◌<◌, ◌≤◌, ◌^◌, ℕ, [], true, false, Some, IsOk, OnOk, OnErr};
ghost use Rattle.span_batcher.specs.State.{next_due};
ghost use Rattle.span_batcher.specs.Timers.{is_due};
ghost use Rattle.tenant_rules.specs.Timers.{first_due, next_timer, is_batch, flushed, decide, one_run, ran, enough, IsFront};
ghost use Rattle.tenant_pipeline.specs.StateIn.{part_in, written_state_in};
ghost use Rattle.tenant_pipeline.specs.Invariant.{WrittenInvariant, PipelineInvariantAt, IsSwept};
ghost use Rattle.tenant_stores.specs.Promises.{OthersUnchanged};

use crate::outbox::offer;
use crate::pipeline::{Pipeline, lesser};
use crate::undo::Undo;
use drop_ledger::Place;
use std::alloc::AllocError;
use tail_policy::TraceNote;
use tenant_stores::Stores;

/// Whether the batch timer is the first of these two.
fn is_batch(batch: Option<u64>, decision: Option<u64>) -> bool
    ensures { result ≡ is_batch batch decision }
{
    match (batch, decision) {
        (None, _) => false,
        (Some(_), None) => true,
        (Some(batch), Some(decision)) => batch <= decision,
    }
}

/// Whether a timer is due by the moment.
fn is_due(timer: Option<u64>, moment: u64) -> bool
    ensures { result ≡ is_due timer moment }
{
    match timer {
        None => false,
        Some(due) => due <= moment,
    }
}

impl Pipeline {
    /// When the first row that waits is due, in milliseconds.
    fn first_due(&self, stores: &Stores<TraceNote>) -> Option<u64>
        requires invariant { WrittenInvariant self.now stores.now }
        ensures { result ≡ first_due (written_state_in self.now stores.now).waiting }
    {
        if self.rows.decided >= self.rows.opened {
            return None;
        }
        let Some(row) = stores.row(self.tenant, self.rows.decided + 1) else {
            unreachable!()
        };
        Some(row.due)
    }

    /// When the first timer is due, in milliseconds.
    pub(crate) fn next_timer(&self, stores: &Stores<TraceNote>) -> Option<u64>
        requires invariant { WrittenInvariant self.now stores.now }
        ensures { result ≡ next_timer (written_state_in self.now stores.now) }
    {
        lesser(self.batcher.next_due(), self.first_due(stores))
    }

    /// The batch timer runs out: all that is pending is one batch.
    fn flush(&mut self, stores: &mut Stores<TraceNote>) -> Result<(), AllocError>
        requires invariant { WrittenInvariant self.old stores.old }
        requires first { is_batch (next_due self.old.batcher)
            (first_due (written_state_in self.old stores.old).waiting) ≡ true }
        requires fits { (due : ℕ) → next_due self.old.batcher ≡ Some due → due ≤ 2 ^ 62 }
        ensures on_success { OnOk result (written_state_in self.new stores.new ≡
            flushed (next_due (written_state_in self.old stores.old).pending)
            (written_state_in self.old stores.old)) }
        ensures invariant { WrittenInvariant self.new stores.new }
        ensures others_unchanged { OthersUnchanged self.old.tenant stores.old stores.new }
        ensures on_refusal { OnErr result
            (written_state_in self.new stores.new ≡ written_state_in self.old stores.old) }
        ensures tenant { self.new.tenant ≡ self.old.tenant }
        ensures section { self.new.section ≡ self.old.section }
        ensures swept { IsSwept self.old → IsSwept self.new }
        ensures clock { (moment : ℕ) → self.old.clock ≤ moment
            → ((due : ℕ) → next_due self.old.batcher ≡ Some due → due ≤ moment)
            → self.new.clock ≤ moment }
    {
        let Some(due) = self.batcher.next_due() else {
            return Ok(());
        };
        let tenant = self.tenant;
        offer(
            self.alloc,
            stores,
            tenant,
            &mut self.sender,
            &mut self.ledger,
            due,
            self.batcher.spans(),
        )?;
        let fired = self.batcher.fire();
        stores.flush(tenant, fired.spans());
        self.clock = due;
        Ok(())
    }

    /// The row of this number has its verdict, by a moment.
    fn pass(&mut self, number: u64, moment: u64)
        ensures { self.new ≡ record self.old
            { rows = record self.old.rows { decided = number }; clock = moment } }
    {
        self.rows.decided = number;
        self.clock = moment;
    }

    /// The first row that waits is decided: its spans wait for a batch where it is sampled, and else they leave. A
    /// cache has its trace then.
    fn decide(&mut self, stores: &mut Stores<TraceNote>) -> Result<(), AllocError>
        requires invariant { WrittenInvariant self.old stores.old }
        requires row_undecided { self.old.rows.decided < self.old.rows.opened }
        requires first { is_batch (next_due self.old.batcher)
            (first_due (written_state_in self.old stores.old).waiting) ≡ false }
        requires fits { (due : ℕ) → first_due (written_state_in self.old stores.old).waiting ≡ Some
            due
            → due ≤ 2 ^ 62 }
        requires no_hits { self.old.caches.hits ≡ [] }
        ensures on_success { OnOk result (written_state_in self.new stores.new ≡
            decide (written_state_in self.old stores.old).waiting
            (written_state_in self.old stores.old)) }
        ensures invariant { WrittenInvariant self.new stores.new }
        ensures others_unchanged { OthersUnchanged self.old.tenant stores.old stores.new }
        ensures on_refusal { OnErr result
            (written_state_in self.new stores.new ≡ written_state_in self.old stores.old) }
        ensures tenant { self.new.tenant ≡ self.old.tenant }
        ensures section { self.new.section ≡ self.old.section }
        ensures swept { IsSwept self.old → IsSwept self.new }
        ensures clock { (moment : ℕ) → self.old.clock ≤ moment
            → ((due : ℕ) → first_due (written_state_in self.old stores.old).waiting ≡ Some due
            → due ≤ moment)
            → self.new.clock ≤ moment }
    {
        let tenant = self.tenant;
        let number = self.rows.decided + 1;
        let Some(row) = stores.row(tenant, number) else {
            unreachable!()
        };
        let due = row.due;
        let trace = row.trace;
        let policies = self.section.tail_sampling.policies.as_slice();
        if row.note.samples(policies) {
            let mut undo = Undo::of(self);
            let keys = row.keys.as_slice();
            self.group(stores, &mut undo, due, keys)?;
            return match self.caches.put(trace, true) {
                Ok(()) => {
                    stores.keep_row(tenant, number);
                    let gone = undo.gone.as_slice();
                    stores.flush(tenant, gone);
                    self.pass(number, due);
                    Ok(())
                }
                Err(refused) => {
                    self.take_back(undo);
                    Err(refused)
                }
            };
        }
        self.caches.put(trace, false)?;
        let spans = stores.drop_row(tenant, number);
        self.ledger
            .move_spans(Place::Undecided, Place::NotSampled, spans as u64);
        self.pass(number, due);
        Ok(())
    }

    /// The first timer runs, where the first row that waits is due at `decision`.
    fn run_one(
        &mut self,
        stores: &mut Stores<TraceNote>,
        decision: Option<u64>,
        moment: u64,
    ) -> Result<(), AllocError>
        requires invariant { WrittenInvariant self.old stores.old }
        requires decision { decision ≡ first_due (written_state_in self.old stores.old).waiting }
        requires due { is_due (next_timer (written_state_in self.old stores.old)) moment ≡ true }
        requires fits { moment ≤ 2 ^ 62 }
        ensures on_success { OnOk result
            (written_state_in self.new stores.new ≡ one_run
            (written_state_in self.old stores.old)) }
        ensures invariant { WrittenInvariant self.new stores.new }
        ensures others_unchanged { OthersUnchanged self.old.tenant stores.old stores.new }
        ensures on_refusal { OnErr result
            (written_state_in self.new stores.new ≡ written_state_in self.old stores.old) }
        ensures tenant { self.new.tenant ≡ self.old.tenant }
        ensures section { self.new.section ≡ self.old.section }
        ensures swept { IsSwept self.old → IsSwept self.new }
        ensures clock { self.old.clock ≤ moment → self.new.clock ≤ moment }
    {
        if is_batch(self.batcher.next_due(), decision) {
            self.flush(stores)
        } else {
            self.caches.commit();
            self.decide(stores)
        }
    }

    /// The timers that are due by the moment, in milliseconds, run. Where one is refused memory, those before it have
    /// run.
    pub(crate) fn run_due(
        &mut self,
        stores: &mut Stores<TraceNote>,
        moment: u64,
    ) -> Result<(), AllocError>
        requires invariant { WrittenInvariant self.old stores.old }
        requires later { self.old.clock ≤ moment }
        requires fits { moment ≤ 2 ^ 62 }

        // All of them have run, or some first ones.
        ensures on_success { OnOk result (written_state_in self.new stores.new ≡
            ran (enough (written_state_in self.old stores.old)) moment
            (written_state_in self.old stores.old)) }
        ensures front { IsFront moment (written_state_in self.old stores.old)
            (written_state_in self.new stores.new) }
        ensures quiet { OnOk result (is_due (next_timer (written_state_in self.new stores.new))
            moment ≡ false) }

        // Where none is due, no memory is taken.
        ensures none { is_due (next_timer (written_state_in self.old stores.old)) moment ≡ false
            → IsOk result }

        // What always holds goes on to hold, up to the moment where all have run.
        ensures invariant { WrittenInvariant self.new stores.new }
        ensures reached { OnOk result (PipelineInvariantAt moment [] [] self.new
            (part_in self.new stores.new)) }
        ensures others_unchanged { OthersUnchanged self.old.tenant stores.old stores.new }
        ensures tenant { self.new.tenant ≡ self.old.tenant }
        ensures section { self.new.section ≡ self.old.section }
        ensures swept { IsSwept self.old → IsSwept self.new }
    {
        let mut decision = self.first_due(stores);
        while is_due(lesser(self.batcher.next_due(), decision), moment) {
            self.run_one(stores, decision, moment)?;
            decision = self.first_due(stores);
        }
        Ok(())
    }
}
