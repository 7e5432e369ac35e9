//! The line that reports a ledger.

ghost use Rattle.std.specs.Prelude.{◌≡◌, IfOk};
ghost use Rattle.std.specs.String.{string_bytes};
ghost use Rattle.drop_ledger.specs.Report.{counter, waiting_text, ended_text, refused_text};

use crate::places::Places;
use std::alloc::{AllocError, Global};

/// A counter with its name.
pub fn counter(alloc: Global, name: &str, spans: u64) -> Result<String, AllocError>
    ensures { IfOk result (λ text. string_bytes text ≡ counter name.now spans) }
{
    let text = format!(in alloc; "{name}={spans}")?;
    Ok(text)
}

/// The counters of spans that wait for something.
pub fn waiting_text(alloc: Global, places: &Places) -> Result<String, AllocError>
    ensures { IfOk result (λ text. string_bytes text ≡ waiting_text places.now) }
{
    let undecided = counter(alloc, "undecided", places.undecided)?;
    let pending = counter(alloc, "pending", places.pending)?;
    let queued = counter(alloc, "queued", places.queued)?;
    let active = counter(alloc, "active", places.active)?;
    let text = format!(in alloc; "{undecided} {pending} {queued} {active}")?;
    Ok(text)
}

/// The counters of spans that were sent, or dropped before their batch was.
pub fn ended_text(alloc: Global, places: &Places) -> Result<String, AllocError>
    ensures { IfOk result (λ text. string_bytes text ≡ ended_text places.now) }
{
    let exported = counter(alloc, "exported", places.exported)?;
    let not_sampled = counter(alloc, "not_sampled", places.not_sampled)?;
    let too_early = counter(alloc, "too_early", places.too_early)?;
    let queue_full = counter(alloc, "queue_full", places.queue_full)?;
    let text = format!(in alloc; "{exported} {not_sampled} {too_early} {queue_full}")?;
    Ok(text)
}

/// The counters of spans that the back end didn't take.
pub fn refused_text(alloc: Global, places: &Places) -> Result<String, AllocError>
    ensures { IfOk result (λ text. string_bytes text ≡ refused_text places.now) }
{
    let retry_exhausted = counter(alloc, "retry_exhausted", places.retry_exhausted)?;
    let refused = counter(alloc, "back_end_refused", places.back_end_refused)?;
    let rejected = counter(alloc, "back_end_rejected", places.back_end_rejected)?;
    let text = format!(in alloc; "{retry_exhausted} {refused} {rejected}")?;
    Ok(text)
}
