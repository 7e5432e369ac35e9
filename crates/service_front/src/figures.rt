//! Tenants' figures, as the admin port shows them.

ghost use Rattle.std.specs.Prelude.{◌≡◌, map, option_map, string_bytes, IfOk, OnOk};
ghost use Rattle.admin_pages.specs.Figures.{tenant_of};
ghost use Rattle.admin_pages.specs.Json.{tenants_text};
ghost use Rattle.admin_pages.specs.Settings.{settled_text};
ghost use Rattle.drop_ledger.specs.Ledger.{ledger_of};
ghost use Rattle.http_edge.specs.Seen.{response_of};
ghost use Rattle.http_edge.specs.declared.message.MediaType.TheVariants as media;
ghost use Rattle.service_front.specs.Figures.{Tells, figures_with, told_of, usage_shown};
ghost use Rattle.service_runtime.specs.Notice.{reply_of};
ghost use Rattle.tail_settings.specs.Section.{section_view};

use admin_pages::{
    LastAnswer, TenantFigures, TenantUsage, put_settled_tenant, put_tenants, read_report,
};
use http_edge::{MediaType, Reply};
use service_runtime::notices::shown;
use std::alloc::{AllocError, Global};
use tail_settings::Section;
use tenant_registry::Present;
use tenant_shard::{Outcome, Waiting};

/// The counters that an outcome tells. None where it tells none.
pub fn told_counters(outcome: &Outcome) -> Option<[u64; 14]>
    ensures { Tells outcome.now (option_map ledger_of result) }
{
    match outcome {
        Outcome::Report(_, counters) => read_report(counters.as_slice()),
        _ => None,
    }
}

/// Appends the figures of a tenant, where there are any.
pub fn push_figures(
    figures: &mut Vec<TenantFigures>,
    tenant: &Present,
    counters: Option<[u64; 14]>,
    waiting: Waiting,
    answer: Option<LastAnswer>,
) -> Result<(), AllocError>
    ensures { OnOk result (map tenant_of figures.new.items ≡ told_of
        (map tenant_of figures.old.items) (string_bytes tenant.now.name)
        (option_map ledger_of counters) waiting answer) }
{
    let Some(counters) = counters else {
        return Ok(());
    };
    let name = tenant.name.clone()?;
    figures.push(TenantFigures {
        name,
        counters,
        usage: usage_shown(&waiting),
        ready: waiting.tenant_ready,
        back_end: answer,
    })?;
    Ok(())
}

/// How full a tenant is and may be, as its shard says.
fn usage_shown(waiting: &Waiting) -> TenantUsage
    ensures { result ≡ usage_shown waiting.now }
{
    let usage = &waiting.usage;
    TenantUsage {
        rows: usage.rows,
        undecided_rows: usage.undecided_rows,
        rows_limit: usage.rows_limit,
        spans_limit: usage.spans_limit,
        queued_batches: usage.queued_batches,
        queued_batches_limit: usage.queued_batches_limit,
        queued_bytes: usage.queued_bytes,
        queued_bytes_limit: usage.queued_bytes_limit,
    }
}

/// The reply that shows these figures.
pub fn tenants_reply(alloc: Global, figures: &[TenantFigures]) -> Result<Reply, AllocError>
    ensures { IfOk result (λ reply. response_of reply
        ≡ reply_of 200 media.Json (tenants_text (map tenant_of figures.now))) }
{
    let mut text = Vec::new(alloc);
    put_tenants(alloc, &mut text, figures)?;
    Ok(shown(200, MediaType::Json, text))
}

/// The reply that shows the figures of a tenant with these counters that waits so, and its settings.
pub fn tenant_reply(
    alloc: Global,
    name: &str,
    counters: [u64; 14],
    waiting: &Waiting,
    answer: Option<LastAnswer>,
    section: &Section,
) -> Result<Reply, AllocError>
    ensures { IfOk result (λ reply. response_of reply ≡ reply_of 200 media.Json (settled_text
        (figures_with name.now (ledger_of counters) waiting.now answer)
        (section_view section.now))) }
{
    let figures = TenantFigures {
        name: String::from_str(alloc, name)?,
        counters,
        usage: usage_shown(waiting),
        ready: waiting.tenant_ready,
        back_end: answer,
    };
    let mut text = Vec::new(alloc);
    put_settled_tenant(alloc, &mut text, &figures, section)?;
    Ok(shown(200, MediaType::Json, text))
}
