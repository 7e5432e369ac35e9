//! Where a thread works: its caller at the shards, and what it does there.

ghost use Rattle.std.specs.Prelude.{◌≡◌, ◌<◌, ◌≤◌, length, IfOk};
ghost use Rattle.machine_hub.specs.Hub.{slots_of};
ghost use Rattle.service_context.specs.Work.{turned_of};

use crate::naming::Naming;
use crate::post::post_body;
use crate::shared::Shared;
use export_edge::{AnswerRefused, AnswerSink, Beat, JobSource, TurnResult};
use http_edge::{Handler, HttpMessage, RefusalForm, Reply};
use job_lane::Job;
use otlp_prepare::RecentTexts;
use send_retry::Answer;
use service_front::{destination_of, refusal_of};
use service_runtime::{BodyClaim, ServiceBeat, Signals, Teller};
use shared_hub::{Caller, HubFault, SharedHub};
use std::alloc::{AllocError, Global};
use std::marker::PhantomData;
use std::sync::{Mutex, Wait};
use std::thread::Threads;
use std::time::Clock;
use tail_settings::Section;
use tenant_registry::replies::{is_without_memory, refused, without_memory};
use tenant_registry::{Destination, InForce};
use tenant_shard::{Outcome, Step, Waiting};
use text_slice::TextSlice;

/// One thread's place at the shards.
#[derive(Drop)]
pub struct WorkerContext<'h, J: Naming, R> {
    pub rt: &'h R,
    pub alloc: Global,
    pub settings: &'h Mutex<InForce<J>>,
    // In how many threads notes are made of a body.
    parts: u32,
    pub hub: &'h SharedHub,
    /// The thread's caller at the shards.
    pub caller: Caller,
    // Of the body before, as a receiver: a sender's bodies come over one connection, one after another.
    recent: RecentTexts,
    /// Whose turns it makes.
    pub shard: usize,
    pub beat: ServiceBeat<'h, R>,
    pub teller: Teller<'h, R>,
    /// For the body of the message that comes, as a receiver.
    pub claim: BodyClaim<'h>,
    of: PhantomData<J>,
    pub ghost hub_is: { hub.now ≡ J.slots },
    pub ghost ours: { slots_of caller ≡ J.slots },
    pub ghost shard_is: { shard < length J.slots },
    pub ghost parts_range: { (0 < parts) × (parts ≤ 16) },
}

impl<'h, J: Naming, R: Wait + Clock> WorkerContext<'h, J, R> {
    ghost use Rattle.std.specs.Prelude.{◌≡◌, ◌<◌, ◌≤◌, ◌%◌, length, Option, IfOk, IfErr, OnErr};
    ghost use Rattle.machine_hub.specs.declared.receipt.Receipt.{Receipt};
    ghost use Rattle.machine_hub.specs.declared.told.Told.{Told};
    ghost use Rattle.tenant_shard.specs.declared.step.Step.TheVariants as steps;
    ghost use Rattle.tenant_shard.specs.declared.waiting.Waiting.{Waiting};
    ghost use Rattle.machine_hub.specs.Hub.{IsRefusedOn};
    ghost use Rattle.shared_hub.specs.Logs.{IsStepOn, IsEmptyOn, IsLookOn};
    ghost use Rattle.shared_hub.specs.declared.fault.HubFault.TheVariants as faults;

    /// The place of the thread with this caller, which makes turns of this shard.
    pub fn of_thread(
        shared: &Shared<'h, J, R>,
        caller: Caller,
        shard: usize,
    ) -> WorkerContext<'h, J, R>
        requires hub { shared.now.hub.now ≡ J.slots }
        requires same_hub { slots_of caller ≡ J.slots }
        requires shard { shard < length J.slots }
        ensures shard { result.shard ≡ shard }
        ensures caller { result.caller ≡ caller }
        ensures hub { result.hub.now ≡ shared.now.hub.now }
    {
        let signals = shared.beat.signals();
        WorkerContext {
            rt: shared.rt,
            alloc: shared.alloc,
            settings: shared.settings,
            parts: shared.limits.parts,
            hub: shared.hub,
            caller,
            recent: RecentTexts::new(),
            shard,
            beat: shared.beat.with_short_pauses(),
            teller: Teller::new(shared.rt, signals),
            claim: BodyClaim::new(signals.body_memory()),
            of: PhantomData,
        }
    }

    /// The caller, once the work is done.
    pub fn into_caller(self) -> Caller
        ensures same_hub { slots_of result ≡ J.slots }
        ensures caller { result ≡ self.entry.caller }
    {
        self.caller
    }

    /// Makes one step at this tenant's shard.
    pub fn step(&mut self, tenant: u32, step: Step) -> Result<Outcome, HubFault>
        ensures call { IfOk result (λ outcome. (receipt : Option Receipt)
            × IsStepOn self.old.caller self.new.caller (tenant % length self.old.hub.now) step
            outcome receipt) }
        ensures on_refusal { OnErr result (IsRefusedOn self.old.caller self.new.caller
            (tenant % length self.old.hub.now)) }
        ensures fault { IfErr result (λ fault. fault ≡ faults.OutOfMemory) }
        ensures hub { self.new.hub ≡ self.old.hub }
    {
        let shard = self.hub.shard_of(tenant);
        let (outcome, _receipt) = self
            .hub
            .step(self.rt, self.alloc, &mut self.caller, shard, step)?;
        self.teller.made(shard);
        Ok(outcome)
    }

    /// Asks for this tenant's counters. No turner is told: what is due after it is due by the time, and its shard's
    /// turner looks for that by itself.
    pub fn look(&mut self, tenant: u32) -> Result<Outcome, HubFault>
        ensures call { IfOk result (λ outcome. (receipt : Option Receipt)
            × IsStepOn self.old.caller self.new.caller (tenant % length self.old.hub.now)
            (steps.Report tenant self.new.beat.last) outcome receipt) }
        ensures moment { self.old.beat.last ≤ self.new.beat.last }
        ensures on_refusal { OnErr result (IsRefusedOn self.old.caller self.new.caller
            (tenant % length self.old.hub.now)) }
        ensures fault { IfErr result (λ fault. fault ≡ faults.OutOfMemory) }
        ensures hub { self.new.hub ≡ self.old.hub }
    {
        let now = self.beat.now();
        let shard = self.hub.shard_of(tenant);
        let step = Step::Report { tenant, now };
        let (outcome, _receipt) = self
            .hub
            .step(self.rt, self.alloc, &mut self.caller, shard, step)?;
        Ok(outcome)
    }

    /// Whether the tenant holds no span.
    pub fn is_empty(&mut self, tenant: u32) -> bool
        ensures empty { IsEmptyOn self.old.caller (tenant % length self.old.hub.now) tenant result }
        ensures same { self.new.caller ≡ self.old.caller }
        ensures hub { self.new.hub ≡ self.old.hub }
    {
        self.hub.empty(self.rt, &mut self.caller, tenant)
    }

    /// What the tenant and its shard wait for.
    pub fn waiting(&mut self, tenant: u32) -> Waiting
        ensures looked { (told : Told Waiting)
            × IsLookOn self.old.caller (tenant % length self.old.hub.now) tenant told
            × (told.answer ≡ result) }
        ensures same { self.new.caller ≡ self.old.caller }
        ensures hub { self.new.hub ≡ self.old.hub }
    {
        self.hub.look(self.rt, &mut self.caller, tenant).answer
    }
}

impl<'h, J: Naming, R: Wait + Clock> JobSource for WorkerContext<'h, J, R> {
    ghost use Rattle.std.specs.Prelude.{◌≡◌};
    ghost use Rattle.service_context.specs.Work.{MakesTurn};

    ghost turns = { λ old t new. (new.shard ≡ old.shard) × MakesTurn old.caller new.caller old.shard t };

    /// The job of the turn before is in the lane by now.
    fn turn(&mut self, now: u64) -> TurnResult {
        self.teller.begin_turn(self.shard, now);
        let step = Step::Turn { now };
        match self
            .hub
            .step(self.rt, self.alloc, &mut self.caller, self.shard, step)
        {
            Ok((outcome, _receipt)) => {
                let turned = turn_result(outcome);
                self.teller.end_turn(self.shard, &turned);
                if let TurnResult::Idle = turned {
                    self.note_due();
                }
                turned
            }
            Err(_) => {
                self.teller.refuse_turn(self.shard);
                TurnResult::Idle
            }
        }
    }
}

impl<'h, J: Naming, R: Wait + Clock> WorkerContext<'h, J, R> {
    ghost use Rattle.std.specs.Prelude.{◌≡◌};

    /// Asks until when its shard has nothing to do by the time alone, behind a turn that found nothing. A shard is
    /// asked about a tenant, and tells beside that when it is due itself. The shard's own index is passed as that
    /// tenant's number: a tenant is at the shard of its number modulo the number of shards, which gives the index back,
    /// since there are more shards than that. The tenant needn't be present, and what is told of it isn't looked at.
    fn note_due(&mut self)
        ensures shard { self.new.shard ≡ self.old.shard }
        ensures caller { self.new.caller ≡ self.old.caller }
        ensures hub { self.new.hub ≡ self.old.hub }
    {
        let due = match u32::try_from(self.shard) {
            Ok(tenant) => {
                let told = self.hub.look(self.rt, &mut self.caller, tenant);
                told.answer.shard_ready
            }
            // No tenant has the number of so late a shard: it is looked at again at once, as if it were always due.
            Err(_) => Some(0),
        };
        self.teller.note_due(self.shard, due);
    }

    /// Tells the turner of this tenant's shard, behind a call by which something may be due there sooner. It isn't
    /// woken where it looks by then anyway: most spans wait for longer than what was there before them.
    fn tell_turner(&mut self, tenant: u32)
        ensures shard { self.new.shard ≡ self.old.shard }
        ensures caller { self.new.caller ≡ self.old.caller }
        ensures hub { self.new.hub ≡ self.old.hub }
        ensures moment { self.new.beat.last ≡ self.old.beat.last }
    {
        let shard = self.hub.shard_of(tenant);
        let due = if self.teller.note_call(shard) {
            let told = self.hub.look(self.rt, &mut self.caller, tenant);
            told.answer.shard_ready
        } else {
            Some(0)
        };
        self.teller.tell_due(shard, due);
    }
}

/// What a turn's outcome is to who made it.
fn turn_result(outcome: Outcome) -> TurnResult
    ensures { result ≡ turned_of outcome }
{
    match outcome {
        Outcome::Job(tenant, ticket, payload) => TurnResult::Job(Job {
            tenant,
            ticket,
            payload,
        }),
        Outcome::Worked(_) => TurnResult::Worked,
        _ => TurnResult::Idle,
    }
}

impl<'h, J: Naming, R: Wait + Clock> AnswerSink for WorkerContext<'h, J, R> {
    ghost use Rattle.std.specs.Prelude.{◌≡◌, length};
    ghost use Rattle.service_context.specs.Work.{TakesAnswer, RefusesAnswer};

    ghost takes = { λ old g new. TakesAnswer old.caller new.caller (length old.hub.now) g };

    ghost refuses = { λ old g new. RefusesAnswer old.caller new.caller (length old.hub.now) g };

    fn answer(
        &mut self,
        tenant: u32,
        now: u64,
        ticket: u64,
        answer: &Answer,
    ) -> Result<(), AnswerRefused> {
        match self.hub.answer(
            self.rt,
            self.alloc,
            &mut self.caller,
            tenant,
            now,
            ticket,
            answer,
        ) {
            Ok(_) => {
                let shard = self.hub.shard_of(tenant);
                self.teller.answered(shard);
                self.tell_turner(tenant);
                let signals = self.beat.signals();
                signals.tally().end_job(answer);
                signals.last_answers().note(tenant, now, answer);
                Ok(())
            }
            Err(_) => {
                self.teller.want();
                Err(AnswerRefused)
            }
        }
    }
}

impl<'h, J: Naming, R: Wait + Clock> Handler for WorkerContext<'h, J, R> {
    ghost use Rattle.std.specs.Prelude.{◌≡◌, length};
    ghost use Rattle.http_edge.specs.declared.message.RefusalForm.TheVariants as forms;
    ghost use Rattle.service_context.specs.Post.{IsHandled};

    ghost refusals = { forms.Status };

    ghost answers = { λ old request told new. IsHandled J.first old.beat.last new.beat.last old.caller new.caller
        (length old.hub.now) request told };

    fn refusals() -> RefusalForm
        ensures { result ≡ forms.Status }
    {
        RefusalForm::Status
    }

    /// Who goes to no tenant is refused before the body comes, by the settings that are in force then. So is a body for
    /// which too little memory is left.
    fn reply_to_head(&self, head: &HttpMessage) -> Option<Reply> {
        match refusal_of(self.rt, self.settings, head) {
            Some(refusal) => Some(refused(self.alloc, refusal)),
            None => if self.claim.claim(head) {
                None
            } else {
                Some(without_memory(self.alloc))
            },
        }
    }

    fn handle<T: Threads + Sync>(&mut self, rt: &T, message: HttpMessage) -> Reply {
        let reply = self.reply_to(rt, message);
        self.claim.give_back();
        reply
    }
}

impl<'h, J: Naming, R: Wait + Clock> WorkerContext<'h, J, R> {
    ghost use Rattle.std.specs.Prelude.{◌≡◌, length, Some};
    ghost use Rattle.http_edge.specs.Seen.{response_of, seen};
    ghost use Rattle.tail_settings.specs.Section.{section_view};
    ghost use Rattle.service_context.specs.Post.{IsHandled, IsSent};

    /// The reply to a message, whose body is let go of.
    fn reply_to<T: Threads + Sync>(&mut self, rt: &T, message: HttpMessage) -> Reply
        ensures { IsHandled J.first self.old.beat.last self.new.beat.last self.old.caller
            self.new.caller (length self.old.hub.now) (seen message) (response_of result) }
    {
        match destination_of(self.rt, self.settings, &message) {
            Ok(Destination::To { tenant, section }) => {
                let HttpMessage { body, .. } = message;
                self.post(rt, tenant, &section, body)
            }
            Ok(Destination::Nowhere(refusal)) => refused(self.alloc, refusal),
            Err(AllocError) => without_memory(self.alloc),
        }
    }

    /// Posts a body to the tenant with this number and section, once there is room for it, at the moment that it is
    /// then. What is kept of the body shares its bytes.
    fn post<T: Threads + Sync>(
        &mut self,
        rt: &T,
        tenant: u32,
        section: &Section,
        body: Vec<u8>,
    ) -> Reply
        ensures { IsSent (Some (section_view section.now)) self.old.beat.last self.new.beat.last
            self.old.caller self.new.caller (length self.old.hub.now) tenant body.items
            (response_of result) }
    {
        let bytes = body.len();
        let signals = self.beat.signals();
        signals.large_bodies().enter(self.rt, tenant, bytes);
        let now = self.beat.now();
        match admitted(self.alloc, signals, self.hub.shard_of(tenant), now, body) {
            Ok(body) => {
                let reply = post_body(
                    rt,
                    self.rt,
                    self.alloc,
                    self.hub,
                    &mut self.caller,
                    &mut self.recent,
                    now,
                    tenant,
                    section,
                    body,
                    self.parts,
                    signals.gates(),
                );
                if is_without_memory(&reply) {
                    signals.refuse_post();
                }
                self.end_post(tenant, bytes);
                reply
            }
            Err(AllocError) => {
                self.end_post(tenant, bytes);
                without_memory(self.alloc)
            }
        }
    }

    /// A post of a body of so many bytes is done: there is room for others, and its shard's turner is told.
    fn end_post(&mut self, tenant: u32, bytes: usize)
        ensures shard { self.new.shard ≡ self.old.shard }
        ensures caller { self.new.caller ≡ self.old.caller }
        ensures hub { self.new.hub ≡ self.old.hub }
        ensures moment { self.new.beat.last ≡ self.old.beat.last }
    {
        self.beat
            .signals()
            .large_bodies()
            .leave(self.rt, tenant, bytes);
        self.tell_turner(tenant);
    }
}

/// The body as it may be shared, where a post may come to this shard at this moment.
fn admitted(
    alloc: Global,
    signals: &Signals,
    shard: usize,
    now: u64,
    body: Vec<u8>,
) -> Result<TextSlice, AllocError>
    ensures { IfOk result (λ text. text ≡ body.items) }
{
    if signals.is_short(shard, now) {
        return Err(AllocError);
    }
    // No byte is copied.
    TextSlice::from_vec(alloc, body)
}
