//! A tenant's own steps, one at a time.

ghost use Rattle.std.specs.Prelude.{◌≡◌, ◌<◌, ◌≤◌, ◌^◌, ◌↔◌, ℕ, List, [], true, false, length, max, IsTrue, IsOk, IfOk, OnOk, OnErr};
ghost use Rattle.span_batcher.specs.Timers.{is_due};
ghost use Rattle.tenant_stores.specs.Part.{part};
ghost use Rattle.tenant_stores.specs.Promises.{OthersUnchanged};
ghost use Rattle.tenant_rules.specs.Own.{asked, moment_of, Drain, Retire};
ghost use Rattle.tenant_rules.specs.Machine.{acts, drain, effective, told_at};
ghost use Rattle.tenant_rules.specs.Timers.{advanced, next_timer, IsFront};
ghost use Rattle.tenant_rules.specs.declared.reply.StepReply.TheVariants as replies;
ghost use Rattle.tenant_pipeline.specs.Acts.{ActsAt, all_run, at};
ghost use Rattle.tenant_pipeline.specs.StateIn.{part_in, policies_of, state_in, written_state_in};
ghost use Rattle.tenant_pipeline.specs.Invariant.{PipelineInvariant, PipelineInvariantAt, PipelineInvariantFrom, IsSwept, HasNonePending};
ghost use Rattle.tenant_pipeline.specs.OwnStep.{own_step_of, IsMadeFor};
ghost use Rattle.tenant_pipeline.specs.Steps.{Answers, FollowsFromState, TakesNone, asks_none};

use crate::pipeline::{LATEST_MOMENT, Pipeline};
use prepared_body::Prepared;
use send_retry::Answer;
use std::alloc::AllocError;
use tail_policy::TraceNote;
use tenant_rules::StepReply;
use tenant_stores::Stores;

/// One step of a tenant's own. Moments are in milliseconds, and one above [`LATEST_MOMENT`] is taken as that one.
#[derive(Clone, Copy)]
pub enum OwnStep<'a> {
    /// A body's spans come. It was made ready for the tenant's policies.
    Post {
        now: u64,
        prepared: &'a Prepared,
    },
    /// A worker asks for a job.
    Turn {
        now: u64,
    },
    /// A back end answers the job of a ticket. The word, any 32 bits, picks the delay before another attempt.
    Answer {
        now: u64,
        ticket: u64,
        word: u32,
        answer: &'a Answer,
    },
    /// The counters are asked for.
    Report {
        now: u64,
    },
    /// The tenant takes no more spans, and sends all it holds.
    Drain {
        now: u64,
    },
    /// The tenant is to retire. It is told its last report where it was drained and holds no span, and else that it has
    /// to wait.
    Retire {
        now: u64,
    },
}

impl OwnStep<'_> {
    /// The moment that it asks for, in milliseconds.
    fn asked(&self) -> u64
        ensures { result ≡ asked (own_step_of self.now) }
    {
        match self {
            OwnStep::Post { now, .. } => *now,
            OwnStep::Turn { now } => *now,
            OwnStep::Answer { now, .. } => *now,
            OwnStep::Report { now } => *now,
            OwnStep::Drain { now } => *now,
            OwnStep::Retire { now } => *now,
        }
    }
}

impl Pipeline {
    /// Does one step: the timers that are due by its moment run, each at its own, and then what was asked for is done.
    /// Where memory is refused, some of these timers may have run, and nothing else has happened: no span of a post has
    /// come, no ticket is used up, an answer hasn't come, and a tenant that is to be drained goes on as before.
    pub fn step(
        &mut self,
        stores: &mut Stores<TraceNote>,
        step: &OwnStep<'_>,
    ) -> Result<StepReply, AllocError>
        requires invariant { PipelineInvariant self.old stores.old }
        requires policies { IsMadeFor (policies_of self.old) step.now }

        // What is told is what the settings and the own steps say, and the state is what they and this step give. Where
        // no own steps leave the old state, as after refused memory, both follow from that state.
        ensures on_success { IfOk result (λ told. Answers (own_step_of step.now)
            (state_in self.old stores.old) told (state_in self.new stores.new)) }
        ensures from_state { IfOk result (λ told. FollowsFromState (own_step_of step.now)
            (state_in self.old stores.old) told (state_in self.new stores.new)) }

        // Some first due timers have run, and all else is as before.
        ensures on_refusal { OnErr result (let old = state_in self.old stores.old in
            IsFront (effective (own_step_of step.now) old) old (state_in self.new stores.new)) }

        // An answer that finds no timer due takes no memory, nor do some others.
        ensures takes_none { TakesNone (own_step_of step.now) (state_in self.old stores.old)
            → IsOk result }

        // What always holds goes on to hold, and nothing of other tenants changes.
        ensures invariant { PipelineInvariant self.new stores.new }
        ensures swept { IsSwept self.old → IsSwept self.new }
        ensures others_unchanged { OthersUnchanged self.old.tenant stores.old stores.new }
        ensures tenant { self.new.tenant ≡ self.old.tenant }
        ensures section { self.new.section ≡ self.old.section }

        // While batches of a drain wait that aren't written, no more wait that are than two, or than before.
        ensures few { 0 < length self.old.unsent
            → length self.new.sender.queue ≤ max 2 (length self.old.sender.queue) }

        // A drain leaves no more batches in the queue than one, or than its due timers do.
        ensures first { (now : ℕ) → own_step_of step.now ≡ Drain now → OnOk result
            (let old = written_state_in self.old stores.old in length self.new.sender.queue
            ≤ max 1 (length (advanced (effective (own_step_of step.now) old) old).sender.queue)) }

        // Where its retirement is told the last report, it may leave the stores.
        ensures may_leave { IfOk result (λ told. (now : ℕ) (text : List ℕ)
            → own_step_of step.now ≡ Retire now → told ≡ replies.Report text
            → HasNonePending self.new) }
    {
        let moment = self.effective(step);
        let told = self.run(stores, moment, step)?;
        self.clock = moment;
        Ok(told)
    }

    /// Whether a step's body, where it brings one, was made ready for this tenant's policies. `step` asks for that.
    pub fn takes(&self, step: &OwnStep<'_>) -> bool
        ensures { IsTrue result ↔ IsMadeFor (policies_of self.now) step.now }
    {
        match step {
            OwnStep::Post { prepared, .. } => {
                prepared.has_policies(self.section.tail_sampling.policies.as_slice())
            }
            _ => true,
        }
    }

    /// When a step takes effect, in milliseconds: moments never fall.
    fn effective(&self, step: &OwnStep<'_>) -> u64
        ensures at { result ≡ max self.now.clock (moment_of (own_step_of step.now)) }
        ensures later { self.now.clock ≤ result }
        ensures fits { self.now.clock ≤ 2 ^ 62 → result ≤ 2 ^ 62 }
    {
        self.clock.max(step.asked().min(LATEST_MOMENT))
    }

    /// The timers run that are due by a moment, in milliseconds, and then what was asked for is done. Where memory is
    /// refused, some of these timers may have run, and nothing else has happened.
    fn run(
        &mut self,
        stores: &mut Stores<TraceNote>,
        moment: u64,
        step: &OwnStep<'_>,
    ) -> Result<StepReply, AllocError>
        requires invariant { PipelineInvariant self.old stores.old }
        requires policies { IsMadeFor (policies_of self.old) step.now }
        requires later { self.old.clock ≤ moment }
        requires fits { moment ≤ 2 ^ 62 }

        ensures on_success { OnOk result (ActsAt moment (acts moment (own_step_of step.now))
            (all_run moment (state_in self.old stores.old)) (state_in self.new stores.new)) }
        ensures told { IfOk result (λ told. told ≡ told_at moment (own_step_of step.now)
            (at moment (all_run moment (state_in self.old stores.old)))) }
        ensures holds { OnOk result (PipelineInvariantFrom moment self.new
            (part_in self.new stores.new)) }
        ensures on_refusal { OnErr result
            (IsFront moment (state_in self.old stores.old) (state_in self.new stores.new)) }
        ensures holds_on_refusal { OnErr result (PipelineInvariant self.new stores.new) }
        ensures swept { IsSwept self.old → IsSwept self.new }
        ensures others_unchanged { OthersUnchanged self.old.tenant stores.old stores.new }
        ensures tenant { self.new.tenant ≡ self.old.tenant }
        ensures section { self.new.section ≡ self.old.section }
        ensures few { 0 < length self.old.unsent
            → length self.new.sender.queue ≤ max 2 (length self.old.sender.queue) }
        ensures first { (now : ℕ) → own_step_of step.now ≡ Drain now → OnOk result
            (length self.new.sender.queue
            ≤ max 1 (length (all_run moment (written_state_in self.old stores.old)).sender.queue)) }
        ensures none { is_due (next_timer (state_in self.old stores.old)) moment ≡ false
            → asks_none (own_step_of step.now) (state_in self.old stores.old) ≡ true
            → IsOk result }
    {
        if !self.unsent.is_empty() {
            return self.take_drained(stores, moment, step);
        }
        self.run_due(stores, moment)?;
        self.take(stores, moment, step)
    }

    /// What was asked for is done at a moment, in milliseconds, by which no timer is due. Where memory is refused,
    /// nothing has changed.
    fn take(
        &mut self,
        stores: &mut Stores<TraceNote>,
        moment: u64,
        step: &OwnStep<'_>,
    ) -> Result<StepReply, AllocError>
        requires holds { PipelineInvariantAt moment [] [] self.old (part_in self.old stores.old) }
        requires quiet { is_due (next_timer (written_state_in self.old stores.old)) moment ≡ false }
        requires policies { IsMadeFor (policies_of self.old) step.now }

        ensures on_success { OnOk result (ActsAt moment (acts moment (own_step_of step.now))
            (written_state_in self.old stores.old) (state_in self.new stores.new)) }
        ensures told { IfOk result (λ told. told ≡
            told_at moment (own_step_of step.now)
            (at moment (written_state_in self.old stores.old))) }
        ensures on_refusal { OnErr result (self.new ≡ self.old) }
        ensures part_on_refusal { OnErr result
            (part self.old.tenant stores.new ≡ part self.old.tenant stores.old) }

        ensures holds { OnOk result (PipelineInvariantFrom moment self.new
            (part_in self.new stores.new)) }
        ensures swept { IsSwept self.old → IsSwept self.new }
        ensures others_unchanged { OthersUnchanged self.old.tenant stores.old stores.new }
        ensures tenant { self.new.tenant ≡ self.old.tenant }
        ensures section { self.new.section ≡ self.old.section }
        ensures first { (now : ℕ) → own_step_of step.now ≡ Drain now → OnOk result
            (length self.new.sender.queue ≤ max 1 (length self.old.sender.queue)) }
        ensures none { asks_none (own_step_of step.now) (written_state_in self.old stores.old)
            ≡ true → IsOk result }
    {
        match step {
            OwnStep::Post { prepared, .. } => {
                let reply = self.take_post(stores, moment, prepared)?;
                Ok(StepReply::Reply(reply))
            }
            OwnStep::Turn { .. } => self.hand_out(moment),
            OwnStep::Answer {
                ticket,
                word,
                answer,
                ..
            } => Ok(self.settle(moment, *ticket, *word, answer)),
            OwnStep::Report { .. } => self.report_told(),
            OwnStep::Drain { .. } => self.drain(stores, moment),
            OwnStep::Retire { .. } => self.retire_told(),
        }
    }

    /// A drain, the first or another, at a moment, in milliseconds, by which no timer is due. Where memory is refused,
    /// nothing has changed.
    fn drain(
        &mut self,
        stores: &mut Stores<TraceNote>,
        moment: u64,
    ) -> Result<StepReply, AllocError>
        requires holds { PipelineInvariantAt moment [] [] self.old (part_in self.old stores.old) }
        requires quiet { is_due (next_timer (written_state_in self.old stores.old)) moment ≡ false }

        ensures on_success { OnOk result (ActsAt moment (drain moment)
            (written_state_in self.old stores.old) (state_in self.new stores.new)) }
        ensures told { IfOk result (λ told. told ≡ replies.Done) }
        ensures on_refusal { OnErr result (self.new ≡ self.old) }
        ensures part_on_refusal { OnErr result
            (part self.old.tenant stores.new ≡ part self.old.tenant stores.old) }

        ensures holds { OnOk result (PipelineInvariantFrom moment self.new
            (part_in self.new stores.new)) }
        ensures swept { IsSwept self.old → IsSwept self.new }
        ensures others_unchanged { OthersUnchanged self.old.tenant stores.old stores.new }
        ensures tenant { self.new.tenant ≡ self.old.tenant }
        ensures section { self.new.section ≡ self.old.section }
        ensures first { OnOk result
            (length self.new.sender.queue ≤ max 1 (length self.old.sender.queue)) }
        ensures none { self.old.drained ≡ true → IsOk result }
    {
        if self.drained {
            return Ok(StepReply::Done);
        }
        self.drained = true;
        let bound = self.sender.lift_bound();
        match self.close(stores, moment) {
            Ok(()) => Ok(StepReply::Done),
            Err(refused) => {
                self.drained = false;
                self.sender.bound_bytes(bound);
                Err(refused)
            }
        }
    }
}
