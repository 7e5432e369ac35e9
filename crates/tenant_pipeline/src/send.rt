//! What workers, back ends and reports are told, and what they change.

ghost use Rattle.std.specs.Prelude.{◌≡◌, ◌≤◌, ◌^◌, ◌&&◌, false, IsOk, IfOk, OnOk, OnErr};
ghost use Rattle.drop_ledger.specs.Report.{report_text};
ghost use Rattle.send_retry.specs.Class.{answer_view};
ghost use Rattle.send_queue.specs.Sender.{in_flight};
ghost use Rattle.tenant_rules.specs.Answers.{turn_told, heard};
ghost use Rattle.tenant_rules.specs.Machine.{turned, settled, all_moved};
ghost use Rattle.tenant_rules.specs.Retiring.{holds_none, retire_told};
ghost use Rattle.tenant_rules.specs.Sender.{sizes, active_sizes};
ghost use Rattle.tenant_rules.specs.Sending.{ended_by};
ghost use Rattle.tenant_rules.specs.declared.reply.StepReply.TheVariants as replies;
ghost use Rattle.tenant_pipeline.specs.Outbox.{Sends, spans_ended};

use crate::pipeline::Pipeline;
use drop_ledger::Place;
use otlp_trace::Octets;
use send_queue::{SettleFault, Settled};
use send_retry::Answer;
use std::alloc::AllocError;
use tenant_rules::StepReply;

impl Pipeline {
    /// Hands out the job whose turn it is at a moment, in milliseconds, where there is one.
    pub(crate) fn hand_out(&mut self, moment: u64) -> Result<StepReply, AllocError>
        requires queued { sizes self.old.sender.queue ≤ self.old.ledger.places.queued }
        ensures step_reply { IfOk result (λ told. told ≡ turn_told moment self.old.sender) }
        ensures on_success { OnOk result (Sends (turned moment) self.old self.new) }
        ensures on_refusal { OnErr result (self.new ≡ self.old) }
    {
        let leaving = self.sender.leaving(moment);
        let Some((ticket, payload)) = self.sender.take_job(moment)? else {
            return Ok(StepReply::Worked);
        };
        self.ledger
            .move_spans(Place::Queued, Place::Active, leaving);
        Ok(StepReply::Job { ticket, payload })
    }

    /// The batch in flight under a ticket was answered at a moment, in milliseconds. It takes no memory.
    pub(crate) fn settle(
        &mut self,
        moment: u64,
        ticket: u64,
        word: u32,
        answer: &Answer,
    ) -> StepReply
        requires fits { moment ≤ 2 ^ 62 }
        requires active { active_sizes self.old.sender.active ≡ self.old.ledger.places.active }
        ensures step_reply { result ≡ heard (in_flight ticket self.old.sender) }
        ensures sends { Sends (settled ticket moment word (answer_view answer.now)) self.old
            self.new }
    {
        match self.sender.settle(ticket, moment, word, answer) {
            Ok(settled) => {
                self.end(settled);
                StepReply::Done
            }
            Err(SettleFault::UnknownTicket) => StepReply::UnknownTicket,
        }
    }

    /// The spans of an active batch end, by what became of it.
    fn end(&mut self, settled: Settled)
        requires active { spans_ended settled ≤ self.old.ledger.places.active }
        ensures { self.new ≡ record self.old
            { ledger = all_moved (ended_by settled) self.old.ledger } }
    {
        match settled {
            Settled::Taken { exported, rejected } => {
                self.ledger
                    .move_spans(Place::Active, Place::BackEndRejected, rejected);
                self.ledger
                    .move_spans(Place::Active, Place::Exported, exported);
            }
            Settled::Waits { .. } => {}
            Settled::Refused { spans } => {
                self.ledger
                    .move_spans(Place::Active, Place::BackEndRefused, spans);
            }
            Settled::Exhausted { spans } => {
                self.ledger
                    .move_spans(Place::Active, Place::RetryExhausted, spans);
            }
        }
    }

    /// What a retirement tells: the last report, or that the tenant wasn't drained or holds spans.
    pub(crate) fn retire_told(&self) -> Result<StepReply, AllocError>
        ensures told { IfOk result (λ told. told ≡ retire_told self.now.drained self.now.ledger) }
        ensures none { (self.now.drained && holds_none self.now.ledger.places) ≡ false
            → IsOk result }
    {
        if self.drained && self.is_empty() {
            self.report_told()
        } else {
            Ok(StepReply::NotEmpty)
        }
    }

    /// What a report tells.
    pub(crate) fn report_told(&self) -> Result<StepReply, AllocError>
        ensures { IfOk result (λ told. told ≡ replies.Report (report_text self.now.ledger)) }
    {
        let text = self.ledger.report_text(self.alloc)?;
        Ok(StepReply::Report(Octets::from_vec(text.into_bytes())))
    }
}
