//! Whose a step is.

ghost use Rattle.std.specs.Prelude.{◌≡◌};
ghost use Rattle.tenant_shard.specs.Members.{AreInOrder};
ghost use Rattle.tenant_shard.specs.Outcomes.{Piped, asked_by, asked_in};
ghost use Rattle.tenant_shard.specs.Addressee.{IsWhose, IsAddressee};

use crate::member::place_of;
use crate::step::{Outcome, Step};
use shard_agenda::Agenda;
use tenant_pipeline::{LATEST_MOMENT, OwnStep, Pipeline};

/// The number of the refusal of a tenant that is no member.
const NOT_MEMBER: u8 = 22;

/// The number of the refusal of a body that was prepared for other policies than the tenant's.
const OTHER_POLICIES: u8 = 23;

/// Whose pipeline a step reaches.
#[derive(Drop)]
pub enum Addressee {
    /// That of the member at this place, which has this number.
    Member { place: usize, tenant: u32 },
    /// Nobody's, and this is told.
    Nobody(Outcome),
}

/// A step reaches the tenant whose it is, where that is a member with the policies that a body was prepared for.
pub fn addressee_of(
    agenda: &Agenda,
    members: &[Pipeline],
    step: &Step,
    own: &OwnStep<'_>,
) -> Addressee
    requires order { AreInOrder members.now }
    requires asked { asked_in step.now ≡ Piped (asked_by own.now) }
    ensures { IsAddressee step.now (asked_by own.now) agenda.now members.now result }
{
    let Some(tenant) = whose(agenda, step) else {
        return Addressee::Nobody(Outcome::Idle);
    };
    let Ok(place) = place_of(members, tenant) else {
        return Addressee::Nobody(Outcome::Refused(tenant, NOT_MEMBER));
    };
    if !members[place].takes(own) {
        return Addressee::Nobody(Outcome::Refused(tenant, OTHER_POLICIES));
    }
    Addressee::Member { place, tenant }
}

/// The tenant that the step names, or for a turn the member that is ready first.
fn whose(agenda: &Agenda, step: &Step) -> Option<u32>
    ensures { IsWhose step.now agenda.now result }
{
    match step {
        Step::Post { prepared, .. } => Some(prepared.tenant()),
        Step::Turn { now } => agenda.first_due((*now).min(LATEST_MOMENT)),
        Step::Answer { tenant, .. } => Some(*tenant),
        Step::Report { tenant, .. } => Some(*tenant),
        Step::Drain { tenant, .. } => Some(*tenant),
        Step::Add { tenant, .. } => Some(*tenant),
        Step::Retire { tenant, .. } => Some(*tenant),
    }
}
