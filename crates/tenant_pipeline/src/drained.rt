//! Steps of a tenant that was drained, while batches wait that aren't written yet.

ghost use Rattle.std.specs.Prelude.{◌≡◌, ◌<◌, ◌≤◌, ◌^◌, ℕ, true, length, max, IsOk, IfOk, OnOk, OnErr};
ghost use Rattle.tenant_stores.specs.Part.{part};
ghost use Rattle.tenant_stores.specs.Promises.{OthersUnchanged};
ghost use Rattle.tenant_rules.specs.Answers.{turn_told};
ghost use Rattle.tenant_rules.specs.Machine.{acts, told_at, turned};
ghost use Rattle.tenant_rules.specs.Own.{Drain};
ghost use Rattle.tenant_pipeline.specs.Acts.{ActsAt, at};
ghost use Rattle.tenant_pipeline.specs.Invariant.{PipelineInvariant, PipelineInvariantFrom, IsSwept};
ghost use Rattle.tenant_pipeline.specs.OwnStep.{own_step_of};
ghost use Rattle.tenant_pipeline.specs.StateIn.{part_in, state_in};
ghost use Rattle.tenant_pipeline.specs.Steps.{asks_none};
ghost use Rattle.tenant_pipeline.specs.Unsent.{HandsOut, IsAhead};

use crate::pipeline::Pipeline;
use crate::reply::refusal;
use crate::step::OwnStep;
use crate::unsent::write;
use std::alloc::AllocError;
use tail_policy::TraceNote;
use tenant_rules::StepReply;
use tenant_stores::Stores;

impl Pipeline {
    /// What was asked for is done at a moment, in milliseconds, while batches wait that aren't written: no timer is due
    /// then. Where memory is refused, the rules see no change.
    pub(crate) fn take_drained(
        &mut self,
        stores: &mut Stores<TraceNote>,
        moment: u64,
        step: &OwnStep<'_>,
    ) -> Result<StepReply, AllocError>
        requires invariant { PipelineInvariant self.old stores.old }
        requires unsent { 0 < length self.old.unsent }
        requires later { self.old.clock ≤ moment }
        requires fits { moment ≤ 2 ^ 62 }
        ensures on_success { OnOk result (ActsAt moment (acts moment (own_step_of step.now))
            (state_in self.old stores.old) (state_in self.new stores.new)) }
        ensures told { IfOk result (λ told. told ≡
            told_at moment (own_step_of step.now) (at moment (state_in self.old stores.old))) }
        ensures holds { OnOk result (PipelineInvariantFrom moment self.new
            (part_in self.new stores.new)) }
        ensures on_refusal { OnErr result
            (state_in self.new stores.new ≡ state_in self.old stores.old) }
        ensures holds_on_refusal { OnErr result (PipelineInvariant self.new stores.new) }
        ensures few { length self.new.sender.queue ≤ max 2 (length self.old.sender.queue) }
        ensures again { (now : ℕ) → own_step_of step.now ≡ Drain now → self.new ≡ self.old }
        ensures none { asks_none (own_step_of step.now) (state_in self.old stores.old) ≡ true
            → IsOk result }
        ensures swept { IsSwept self.old → IsSwept self.new }
        ensures others_unchanged { OthersUnchanged self.old.tenant stores.old stores.new }
        ensures tenant { self.new.tenant ≡ self.old.tenant }
        ensures section { self.new.section ≡ self.old.section }
    {
        match step {
            OwnStep::Post { .. } => {
                let reply = refusal(self.alloc, 503, "shutting down")?;
                Ok(StepReply::Reply(reply))
            }
            OwnStep::Turn { .. } => self.hand_out_next(stores, moment),
            OwnStep::Answer {
                ticket,
                word,
                answer,
                ..
            } => Ok(self.settle(moment, *ticket, *word, answer)),
            OwnStep::Report { .. } => self.report_told(),
            OwnStep::Drain { .. } => Ok(StepReply::Done),
            OwnStep::Retire { .. } => self.retire_told(),
        }
    }

    /// Hands out the job whose turn it is at a moment, in milliseconds, where there is one. One more batch is written
    /// first, so that one waits afterwards that is while any waits that isn't.
    fn hand_out_next(
        &mut self,
        stores: &mut Stores<TraceNote>,
        moment: u64,
    ) -> Result<StepReply, AllocError>
        requires invariant { PipelineInvariant self.old stores.old }
        requires unsent { 0 < length self.old.unsent }
        ensures step_reply { IfOk result (λ told. told ≡ turn_told moment self.old.sender) }
        ensures on_success { OnOk result (HandsOut moment self.old self.new
            (part_in self.old stores.old) (part_in self.old stores.new)) }
        ensures on_refusal { OnErr result (IsAhead self.old self.new (part_in self.old stores.old)
            (part_in self.old stores.new)) }
        ensures others_unchanged { OthersUnchanged self.old.tenant stores.old stores.new }
    {
        self.write_ahead(stores)?;
        self.hand_out(moment)
    }

    /// The next batch is written, unless two wait that are, and its spans leave the stores. Where memory is refused,
    /// nothing has changed.
    fn write_ahead(&mut self, stores: &mut Stores<TraceNote>) -> Result<(), AllocError>
        requires invariant { PipelineInvariant self.old stores.old }
        requires unsent { 0 < length self.old.unsent }
        ensures ahead { IsAhead self.old self.new (part_in self.old stores.old)
            (part_in self.old stores.new) }
        ensures two { OnOk result (1 < length self.new.sender.queue) }
        ensures on_refusal { OnErr result (self.new ≡ self.old) }
        ensures part_on_refusal { OnErr result
            (part self.old.tenant stores.new ≡ part self.old.tenant stores.old) }
        ensures others_unchanged { OthersUnchanged self.old.tenant stores.old stores.new }
    {
        if self.sender.queued() > 1 {
            return Ok(());
        }
        let Some(next) = self.unsent.first() else {
            unreachable!()
        };
        write(self.alloc, stores, self.tenant, &mut self.sender, next)?;
        let Some(written) = self.unsent.pop() else {
            unreachable!()
        };
        stores.flush(self.tenant, written.keys());
        Ok(())
    }
}
