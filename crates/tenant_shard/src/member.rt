//! The members, which stand by number, and a step of one of them.

ghost use Rattle.std.specs.Prelude.{◌≡◌, ◌<◌, ◌≤◌, IfOk, IfErr, length};
ghost use Rattle.tenant_pipeline.specs.OwnStep.{own_step_of};
ghost use Rattle.tenant_shard.specs.Members.{AreInOrder, IsPlaceOf, IsGapFor};
ghost use Rattle.tenant_shard.specs.Outcomes.{Answered, Piped, asked_by, asked_in, named};
ghost use Rattle.tenant_shard.specs.Steps.{IsForPipeline, ends};

use crate::step::{Outcome, Step};
use tenant_pipeline::{OwnStep, Pipeline};
use tenant_rules::StepReply;

/// The number of the refusal of an answer to a job that isn't in flight.
const UNKNOWN_TICKET: u8 = 21;

/// The number of the refusal of a retirement of a tenant that wasn't drained or holds spans.
const NOT_EMPTY: u8 = 26;

/// What a pipeline told, with the number of the tenant whose it is.
pub fn named(tenant: u32, told: StepReply) -> Outcome
    ensures { result ≡ named tenant (Answered told) }
{
    match told {
        StepReply::Reply(reply) => Outcome::Reply(tenant, reply),
        StepReply::Job { ticket, payload } => Outcome::Job(tenant, ticket, payload),
        StepReply::Worked => Outcome::Worked(tenant),
        StepReply::Done => Outcome::Done(tenant),
        StepReply::Report(text) => Outcome::Report(tenant, text),
        StepReply::UnknownTicket => Outcome::Refused(tenant, UNKNOWN_TICKET),
        StepReply::NotEmpty => Outcome::Refused(tenant, NOT_EMPTY),
    }
}

/// Where the member stands, or would.
pub fn place_of(members: &[Pipeline], tenant: u32) -> Result<usize, usize>
    requires { AreInOrder members.now }
    ensures found { IfOk result (λ i. (i < length members.now) × IsPlaceOf tenant members.now i) }
    ensures absent { IfErr result (λ i. (i ≤ length members.now) × IsGapFor tenant members.now i) }
{
    members.binary_search_by_key(&tenant, |member| member.tenant())
}

/// A step of a member's pipeline, as that takes it.
pub fn own_step(step: &Step) -> OwnStep<'_>
    requires piped { IsForPipeline (asked_in step.now) }
    ensures { asked_in step.now ≡ Piped (asked_by result) }
{
    match step {
        Step::Post { now, prepared } => OwnStep::Post {
            now: *now,
            prepared,
        },
        Step::Turn { now } => OwnStep::Turn { now: *now },
        Step::Answer {
            now,
            ticket,
            word,
            answer,
            ..
        } => OwnStep::Answer {
            now: *now,
            ticket: *ticket,
            word: *word,
            answer,
        },
        Step::Report { now, .. } => OwnStep::Report { now: *now },
        Step::Drain { now, .. } => OwnStep::Drain { now: *now },
        Step::Retire { now, .. } => OwnStep::Retire { now: *now },
        Step::Add { .. } => unreachable!(),
    }
}

/// Whether a member goes that was told this.
pub fn ends(step: &OwnStep<'_>, told: &StepReply) -> bool
    ensures { result ≡ ends (own_step_of step.now) told.now }
{
    match step {
        OwnStep::Retire { .. } => matches!(told, StepReply::Report(_)),
        _ => false,
    }
}
