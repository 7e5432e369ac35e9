//! Tenants that come, and those that go.

ghost use Rattle.std.specs.Prelude.{◌≡◌, ◌<◌, ◌≤◌, false, [], length, slice_index_or, vec_capacity, IfOk, OnOk, OnErr};
ghost use Rattle.tail_settings.specs.Section.{section_view};
ghost use Rattle.tail_settings.specs.Settings.{settings_view};
ghost use Rattle.tenant_pipeline.specs.Invariant.{HasNonePending};
ghost use Rattle.tenant_shard.specs.Members.{IsPlaceOf, IsGapFor, views, all_views, is_gone};
ghost use Rattle.tenant_shard.specs.Steps.{IsAdditionOf, IsComingOf, IsDepartureOf};
ghost use Rattle.tenant_shard.specs.Table.{OpensOneMore};
ghost use Rattle.tenant_shard.specs.View.{was_of};
ghost use Rattle.tenant_shard.specs.Whole.{IsShard};

use crate::member::place_of;
use crate::step::Outcome;
use decision_cache::HashKeys;
use shard_agenda::Agenda;
use std::alloc::{AllocError, Global};
use tail_policy::TraceNote;
use tail_settings::{Section, Settings};
use tenant_pipeline::Pipeline;
use tenant_stores::Stores;

/// The number of the refusal of a tenant that comes and is or was a member.
const NUMBER_USED: u8 = 25;

/// A tenant comes: it is let in where its number is new.
pub fn add(
    alloc: Global,
    keys: HashKeys,
    stores: &Stores<TraceNote>,
    agenda: &mut Agenda,
    members: &mut Vec<Pipeline>,
    gone: &mut Vec<u32>,
    tenant: u32,
    section: &Section,
) -> Result<Outcome, AllocError>
    requires whole { IsShard stores.now agenda.old members.old.items gone.old.items
        (vec_capacity gone.old) }
    ensures on_success { IfOk result (λ outcome. IsComingOf tenant (section_view section.now)
        (all_views stores.now members.old.items gone.old.items) outcome
        (all_views stores.now members.new.items gone.new.items)) }
    ensures on_refusal { OnErr result ((was_of tenant
        (all_views stores.now members.old.items gone.old.items) ≡ false)
        × (all_views stores.now members.new.items gone.new.items
        ≡ all_views stores.now members.old.items gone.old.items)) }
    ensures whole { IsShard stores.now agenda.new members.new.items gone.new.items
        (vec_capacity gone.new) }
{
    let Err(at) = place_of(members, tenant) else {
        return Ok(Outcome::Refused(tenant, NUMBER_USED));
    };
    if gone.binary_search(&tenant).is_ok() {
        return Ok(Outcome::Refused(tenant, NUMBER_USED));
    }
    admit(
        alloc, keys, stores, agenda, members, gone, at, tenant, section,
    )?;
    Ok(Outcome::Done(tenant))
}

/// One more member, unless it is there or is no number of the table.
pub fn open_member(
    alloc: Global,
    settings: &Settings,
    keys: HashKeys,
    stores: &Stores<TraceNote>,
    agenda: &mut Agenda,
    members: &mut Vec<Pipeline>,
    gone: &mut Vec<u32>,
    tenant: u32,
) -> Result<(), AllocError>
    requires whole { IsShard stores.now agenda.old members.old.items gone.old.items
        (vec_capacity gone.old) }
    requires nobody_left { gone.old.items ≡ [] }
    ensures whole { IsShard stores.now agenda.new members.new.items gone.new.items
        (vec_capacity gone.new) }
    ensures nobody_left { gone.new.items ≡ [] }
    ensures stands { OnOk result (OpensOneMore (settings_view settings.now) tenant
        (all_views stores.now members.old.items []) (all_views stores.now members.new.items [])) }
{
    let Err(at) = place_of(members, tenant) else {
        return Ok(());
    };
    let Some(section) = settings.section(tenant) else {
        return Ok(());
    };
    admit(
        alloc, keys, stores, agenda, members, gone, at, tenant, section,
    )
}

/// One more member, which has had no steps so far, in its gap. Where memory is refused nothing has changed.
fn admit(
    alloc: Global,
    keys: HashKeys,
    stores: &Stores<TraceNote>,
    agenda: &mut Agenda,
    members: &mut Vec<Pipeline>,
    gone: &mut Vec<u32>,
    at: usize,
    tenant: u32,
    section: &Section,
) -> Result<(), AllocError>
    requires whole { IsShard stores.now agenda.old members.old.items gone.old.items
        (vec_capacity gone.old) }
    requires within { at ≤ length members.old.items }
    requires gap { IsGapFor tenant members.old.items at }
    requires is_new { is_gone tenant gone.old.items ≡ false }
    ensures added { OnOk result (IsAdditionOf tenant (section_view section.now)
        (views stores.now members.old.items) (views stores.now members.new.items)) }
    ensures gone { gone.new.items ≡ gone.old.items }
    ensures on_refusal { OnErr result (members.new.items ≡ members.old.items) }
    ensures whole { IsShard stores.now agenda.new members.new.items gone.new.items
        (vec_capacity gone.new) }
{
    let pipeline = Pipeline::new(alloc, tenant, section, keys)?;
    members.reserve(1)?;
    gone.reserve(members.len() + 1)?;
    agenda.admit(tenant)?;
    let ready = pipeline.ready(stores);
    agenda.set(tenant, ready);
    let Ok(()) = members.insert(at, pipeline) else {
        unreachable!()
    };
    Ok(())
}

/// The member at a place goes, and its number is kept. It takes no memory.
pub fn let_go(
    stores: &mut Stores<TraceNote>,
    agenda: &mut Agenda,
    members: &mut Vec<Pipeline>,
    gone: &mut Vec<u32>,
    i: usize,
    tenant: u32,
)
    requires whole { IsShard stores.old agenda.old members.old.items gone.old.items
        (vec_capacity gone.old) }
    requires within { i < length members.old.items }
    requires place { IsPlaceOf tenant members.old.items i }
    requires may_leave { (d : Pipeline) → HasNonePending (slice_index_or members.old.items i d) }
    ensures left { IsDepartureOf tenant (all_views stores.old members.old.items gone.old.items)
        (all_views stores.new members.new.items gone.new.items) }
    ensures whole { IsShard stores.new agenda.new members.new.items gone.new.items
        (vec_capacity gone.new) }
{
    let Err(at) = gone.binary_search(&tenant) else {
        unreachable!()
    };
    let Ok(()) = gone.insert(at, tenant) else {
        unreachable!()
    };
    let member = members.remove(i);
    agenda.dismiss(tenant);
    member.leave(stores);
}
