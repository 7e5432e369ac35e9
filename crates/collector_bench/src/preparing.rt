//! Bodies made ready for a tenant, as the collector does it.

use crate::fault::{BenchFault, of_refusal, of_settings};
use bytes::Bytes;
use otlp_prepare::prepare;
use std::alloc::{AllocError, Global};
use std::rt::Clock;
use std::thread::Threads;
use std::time::Instant;
use tail_settings::{Section, load};

/// A document of one tenant with so many policies, each of which asks for an attribute of its own.
fn document(alloc: Global, policies: u32) -> Result<String, AllocError> {
    let mut text = String::from_str(
        alloc,
        "tenant = [{ name = \"bench\", tail_sampling = { policy = [",
    )?;
    for key in 0..policies {
        let policy = format!(in alloc;
            "{{ type = \"string_attribute\", key = \"k{key}\", values = [\"w\"] }}, "
        )?;
        text.push_str(&policy)?;
    }
    text.push_str("] } }]")?;
    Ok(text)
}

/// The section of a tenant with so many policies, 1 to 64.
fn section(alloc: Global, policies: u32) -> Result<Section, BenchFault> {
    let settings = load(alloc, document(alloc, policies)?.as_str()).map_err(of_settings)?;
    match settings.tenants.into_iter().next() {
        Some((_name, tenant)) => Ok(tenant.section),
        None => Err(BenchFault::Settings),
    }
}

/// Makes the body ready so many times for a tenant with so many policies, holds what was made until the end, and prints
/// how many spans that were and how many nanoseconds they took.
pub(crate) fn measure_prepare<R: Threads + Sync + Clock + Print + AllocGlobal>(
    rt: &R,
    body: &[u8],
    rounds: u32,
    policies: u32,
) -> Result<(), BenchFault> {
    let section = section(rt.alloc(), policies)?;
    let start = Instant::now(rt)?;
    let spans = prepare_rounds(rt, &section, body, rounds)?;
    let nanos = start.elapsed(rt)?.as_nanos();
    println!(rt; "prepared: {spans} spans, {nanos} ns")?;
    Ok(())
}

/// How many spans were made ready in so many rounds.
fn prepare_rounds<R: Threads + Sync + AllocGlobal>(
    rt: &R,
    section: &Section,
    body: &[u8],
    rounds: u32,
) -> Result<usize, BenchFault> {
    let alloc = rt.alloc();
    let mut held = Vec::new(alloc);
    let mut spans = 0usize;
    'each: for _round in 0..rounds {
        let copy = Bytes::copy_from_slice(alloc, body)?;
        let prepared = prepare(rt, alloc, 0, section, copy, 1).map_err(of_refusal)?;
        spans = spans.saturating_add(prepared.parts().1.len());
        held.push(prepared)?;
    }
    Ok(spans)
}
