//! What the admin port answers beside the tenants' figures.

ghost use Rattle.std.specs.Prelude.{◌≡◌, ◌++◌, map, option_copied, IfOk};
ghost use Rattle.admin_pages.specs.Figures.{tenant_of};
ghost use Rattle.admin_pages.specs.Metrics.{tenants_text as metrics_text};
ghost use Rattle.admin_pages.specs.Service.{service_text};
ghost use Rattle.http_edge.specs.Seen.{response_of};
ghost use Rattle.http_edge.specs.declared.message.MediaType.TheVariants as media;
ghost use Rattle.service_front.specs.Pages.{TellsGoing, TellsReadiness, drained_reply, page_reply, refused_reply};
ghost use Rattle.service_runtime.specs.Notice.{reply_of};
ghost use Rattle.service_runtime.specs.declared.desk.Asked.{Asked as AskedCode};
ghost use Rattle.tenant_registry.specs.Changed.{TellsAdding};

use crate::lookup::find;
use admin_page::PAGE;
use admin_pages::{ServiceFigures, TenantFigures, put_service, put_tenant_metrics};
use http_edge::{MediaType, Reply};
use service_runtime::notices::{notice, shown, unknown};
use service_runtime::{AdminDesk, Signals};
use std::alloc::{AllocError, Global};
use std::sync::{Mutex, Wait};
use std::time::{Clock, Duration};
use tenant_registry::changes::{added, retired};
use tenant_registry::{InForce, SettingsNaming};

/// The seconds for which a request waits until a line of the input is answered.
const LONGEST_ANSWER: u64 = 5;

/// The reply that shows these figures of tenants, and those of the service.
pub fn metrics_reply(
    alloc: Global,
    figures: &[TenantFigures],
    service: &ServiceFigures,
) -> Result<Reply, AllocError>
    ensures { IfOk result (λ reply. response_of reply ≡ reply_of 200 media.Metrics
        (metrics_text (map tenant_of figures.now) ++ service_text service.now)) }
{
    let mut text = Vec::new(alloc);
    put_tenant_metrics(alloc, &mut text, figures)?;
    put_service(alloc, &mut text, service)?;
    Ok(shown(200, MediaType::Metrics, text))
}

/// Whether the end was asked for, or has come.
pub fn is_draining<R: Wait>(rt: &R, desk: &AdminDesk, signals: &Signals) -> bool {
    desk.is_ended(rt) || signals.is_closing()
}

/// Whether spans are taken.
pub fn readiness(alloc: Global, is_draining: bool) -> Result<Reply, AllocError>
    ensures { IfOk result (λ reply. TellsReadiness (response_of reply)) }
{
    if is_draining {
        notice(alloc, 503, "state", "draining")
    } else {
        notice(alloc, 200, "state", "ready")
    }
}

/// Ends the input.
pub fn drain<R: Wait>(
    rt: &R,
    alloc: Global,
    desk: &AdminDesk,
    signals: &Signals,
) -> Result<Reply, AllocError>
    ensures { IfOk result (λ reply. response_of reply ≡ drained_reply) }
{
    signals.ask_end();
    desk.end(rt);
    notice(alloc, 200, "state", "draining")
}

/// Asks that the tenant of a document comes.
pub fn ask_to_come<R: Wait + Clock>(
    rt: &R,
    alloc: Global,
    desk: &AdminDesk,
    document: &[u8],
) -> Result<Reply, AllocError>
    ensures { IfOk result (λ reply. (asked : AskedCode) × TellsAdding asked document.now
        (response_of reply)) }
{
    let line = Vec::from_slice(alloc, b"add posted\n")?;
    let copy = Vec::from_slice(alloc, document)?;
    let asked = desk.ask(rt, line, copy, Duration::from_secs(LONGEST_ANSWER));
    added(alloc, asked, document)
}

/// Asks that the tenant of this name goes.
pub fn ask_to_go<J: SettingsNaming, R: Wait + Clock>(
    rt: &R,
    alloc: Global,
    settings: &Mutex<InForce<J>>,
    desk: &AdminDesk,
    name: &[u8],
) -> Result<Reply, AllocError>
    ensures { IfOk result (λ reply. TellsGoing J.first name.now (response_of reply)) }
{
    let Some((name, _)) = find(rt, settings, name) else {
        return unknown(alloc);
    };
    let line = format!(in alloc; "retire {name}\n")?.into_bytes();
    let nothing = Vec::new(alloc);
    let asked = desk.ask(rt, line, nothing, Duration::from_secs(LONGEST_ANSWER));
    retired(alloc, asked, name)
}

/// The page to look at.
pub fn page(alloc: Global) -> Result<Reply, AllocError>
    ensures { IfOk result (λ reply. response_of reply ≡ page_reply) }
{
    let page = Vec::from_slice(alloc, PAGE.as_bytes())?;
    Ok(shown(200, MediaType::Html, page))
}

/// The reply to who isn't let in, where this token is wanted, or to a page where none is.
pub fn not_let_in(alloc: Global, wanted: Option<&[u8]>) -> Result<Reply, AllocError>
    ensures { IfOk result (λ reply. response_of reply ≡ refused_reply
        (option_copied wanted.entry)) }
{
    match wanted {
        Some(_) => notice(alloc, 401, "error", "the token is missing or another"),
        None => notice(
            alloc,
            403,
            "error",
            "a change from a page needs a token, and none is configured",
        ),
    }
}
