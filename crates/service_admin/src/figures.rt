//! The figures that a thread's caller asks its shards for.

ghost use Rattle.std.specs.Prelude.{◌≡◌, ◌%◌, length, map, option_map, IfOk, OnOk, OnErr};
ghost use Rattle.admin_pages.specs.Figures.{tenant_of};
ghost use Rattle.drop_ledger.specs.Ledger.{ledger_of};
ghost use Rattle.http_edge.specs.Seen.{response_of};
ghost use Rattle.machine_hub.specs.Hub.{IsRefusedOn};
ghost use Rattle.service_admin.specs.Shown.{AreFigures, AreLooked, LooksMore, ShowsTenant, ShowsTenants};
ghost use Rattle.service_context.specs.Looks.{IsLooked, OnlyLooks};
ghost use Rattle.tenant_registry.specs.Roster.{entry_of};

use admin_pages::TenantFigures;
use http_edge::Reply;
use service_context::{Naming, WorkerContext};
use service_front::{
    find, push_figures, section_of, tenant_reply, tenants_in, tenants_reply, told_counters,
};
use service_runtime::notices::unknown;
use shared_hub::HubFault;
use std::alloc::AllocError;
use std::sync::Wait;
use std::time::Clock;
use tenant_registry::Present;

/// All figures of the tenants that are present, in the order of their numbers. Of a tenant that goes meanwhile
/// there are none.
pub fn figures<J: Naming, R: Wait + Clock>(
    context: &mut WorkerContext<'_, J, R>,
) -> Result<Vec<TenantFigures>, AllocError>
    ensures looked { IfOk result (λ figures. AreFigures J.first (length context.old.hub.now)
        context.old.caller context.new.caller (map tenant_of figures.items)) }
    ensures looks { OnErr result (OnlyLooks (length context.old.hub.now) context.old.caller
        context.new.caller) }
{
    let tenants = tenants_in(context.rt, context.alloc, context.settings)?;
    figures_of(context, tenants.as_slice())
}

/// The figures of these tenants.
fn figures_of<J: Naming, R: Wait + Clock>(
    context: &mut WorkerContext<'_, J, R>,
    tenants: &[Present],
) -> Result<Vec<TenantFigures>, AllocError>
    ensures looked { IfOk result (λ figures. AreLooked (length context.old.hub.now)
        context.old.caller (map entry_of tenants.now) (map tenant_of figures.items)
        context.new.caller) }
    ensures looks { OnErr result (OnlyLooks (length context.old.hub.now) context.old.caller
        context.new.caller) }
{
    let mut figures = Vec::new(context.alloc);
    for tenant in tenants {
        add_figures(context, tenant, &mut figures)?;
    }
    Ok(figures)
}

/// Appends the figures of a tenant, unless it has gone.
fn add_figures<J: Naming, R: Wait + Clock>(
    context: &mut WorkerContext<'_, J, R>,
    tenant: &Present,
    figures: &mut Vec<TenantFigures>,
) -> Result<(), AllocError>
    ensures looked { OnOk result (LooksMore (length context.old.hub.now) tenant.now
        context.old.caller context.new.caller (map tenant_of figures.old.items)
        (map tenant_of figures.new.items)) }
    ensures looks { OnErr result (OnlyLooks (length context.old.hub.now) context.old.caller
        context.new.caller) }
    ensures hub { context.new.hub ≡ context.old.hub }
{
    let counters = counters(context, tenant.number)?;
    let waiting = context.waiting(tenant.number);
    let answer = context
        .beat
        .signals()
        .last_answers()
        .answer_of(tenant.number);
    push_figures(figures, tenant, counters, waiting, answer)
}

/// The counters of the tenant of this number. None where it has gone.
fn counters<J: Naming, R: Wait + Clock>(
    context: &mut WorkerContext<'_, J, R>,
    tenant: u32,
) -> Result<Option<[u64; 14]>, AllocError>
    ensures looked { IfOk result (λ counters. IsLooked context.old.caller context.new.caller
        (length context.old.hub.now) tenant (option_map ledger_of counters)) }
    ensures refused { OnErr result (IsRefusedOn context.old.caller context.new.caller
        (tenant % length context.old.hub.now)) }
    ensures hub { context.new.hub ≡ context.old.hub }
{
    match context.look(tenant) {
        Ok(outcome) => Ok(told_counters(&outcome)),
        Err(HubFault::OutOfMemory) => Err(AllocError),
        Err(HubFault::Behind { .. } | HubFault::OtherEntry { .. }) => unreachable!(),
    }
}

/// All tenants' figures, as JSON.
pub fn tenants_shown<J: Naming, R: Wait + Clock>(
    context: &mut WorkerContext<'_, J, R>,
) -> Result<Reply, AllocError>
    ensures shown { IfOk result (λ reply. ShowsTenants J.first (length context.old.hub.now)
        context.old.caller context.new.caller (response_of reply)) }
    ensures looks { OnErr result (OnlyLooks (length context.old.hub.now) context.old.caller
        context.new.caller) }
{
    let figures = figures(context)?;
    tenants_reply(context.alloc, figures.as_slice())
}

/// The figures of the tenant of this name, and its settings, as JSON.
pub fn tenant_shown<J: Naming, R: Wait + Clock>(
    context: &mut WorkerContext<'_, J, R>,
    name: &[u8],
) -> Result<Reply, AllocError>
    ensures shown { IfOk result (λ reply. ShowsTenant J.first (length context.old.hub.now) name.now
        context.old.caller context.new.caller (response_of reply)) }
    ensures looks { OnErr result (OnlyLooks (length context.old.hub.now) context.old.caller
        context.new.caller) }
{
    let alloc = context.alloc;
    let Some((name, number)) = find(context.rt, context.settings, name) else {
        return unknown(alloc);
    };
    let Some(section) = section_of(context.rt, context.settings, number)? else {
        return unknown(alloc);
    };
    let Some(counters) = counters(context, number)? else {
        return unknown(alloc);
    };
    let waiting = context.waiting(number);
    let answer = context.beat.signals().last_answers().answer_of(number);
    tenant_reply(alloc, name, counters, &waiting, answer, &section)
}
