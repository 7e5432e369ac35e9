//! Bodies are read for a tenant.

ghost use Rattle.std.specs.Prelude.{◌≡◌, ◌≢◌, ◌<◌, ◌≤◌, ◌^◌, Ok, IfOk, IfErr};
ghost use Rattle.std.specs.List.{All};
ghost use Rattle.otlp_trace.specs.Data.{RequestData};
ghost use Rattle.otlp_read.specs.Fault.{Gives};
ghost use Rattle.otlp_read.specs.Nested.{NestedRequest};
ghost use Rattle.otlp_read.specs.Typed.{TypedRequest};
ghost use Rattle.otlp_read.specs.Value.{IsValue, IsFault};
ghost use Rattle.otlp_read.specs.declared.fault.ReadFault.{ReadFault};
ghost use Rattle.otlp_parts.specs.Parts.{body_parts_view};
ghost use Rattle.otlp_parts.specs.Texts.{ArePartsOf, texts_of};
ghost use Rattle.tail_settings.specs.Section.{section_view};
ghost use Rattle.otlp_prepare.specs.BodySpans.{AreRead};
ghost use Rattle.otlp_prepare.specs.Prepared.{IsPrepared, PreparesValue, NamesFault, prepared_of};

use crate::body_spans::found_in;
use crate::notes::noted_in;
use crate::recent::RecentTexts;
use crate::refusal::Refusal;
use bytes::Bytes;
use otlp_parts::{BodyParts, read_parts};
use otlp_read::{ReadFault, values_are_sound};
use prepared_body::Prepared;
use span_pool::read_spans_are_viewed;
use std::alloc::{AllocError, Global};
use std::thread::Threads;
use tail_policy::TenantPolicies;
use tail_settings::Section;
use text_slice::TextSlice;

/// Bytes are below 256, told of a whole text.
fn are_bytes(text: &[u8])
    ensures { All (λ byte. byte < 2 ^ 8) text.now }
{
    prove!(text.iter().all(|byte| *byte <= u8::MAX));
}

/// The parts of a body, whose texts are those of messages that were read. The body's block is let go of where none of
/// them is a slice of it.
fn read_body(alloc: Global, body: TextSlice) -> Result<BodyParts, ReadFault>
    ensures value { IfOk result (λ parts. ArePartsOf body (body_parts_view parts)) }
    ensures read { IfOk result (λ parts. AreRead (body_parts_view parts)) }
    ensures typed { (v : RequestData) → IsValue body v → TypedRequest v }
    ensures nested { (v : RequestData) → IsValue body v → NestedRequest v }
    ensures only { (v : RequestData) → IsValue body v
        → Gives body_parts_view result (Ok (texts_of v)) }
    ensures fault { IfErr result (λ fault. fault ≢ ReadFault.OutOfMemory → IsFault body fault) }
{
    are_bytes(body.as_slice());
    values_are_sound();
    read_parts(alloc, &body)
}

/// What is prepared of a body that was read.
fn prepare_parts<R: Threads + Sync>(
    rt: &R,
    alloc: Global,
    recent: &RecentTexts,
    tenant: u32,
    section: &Section,
    body: BodyParts,
    parts: u32,
) -> Result<Prepared, AllocError>
    requires parts { (0 < parts) × (parts ≤ 16) }
    requires read { AreRead (body_parts_view body) }
    ensures { (v : RequestData) → TypedRequest v → NestedRequest v
        → body_parts_view body ≡ texts_of v
        → IfOk result (λ prepared. prepared ≡ prepared_of tenant (section_view section.now) v) }
{
    let policies = TenantPolicies::of(section.tail_sampling.policies.as_slice());
    let invalid = body.invalid;
    let found = found_in(alloc, &policies, recent, body)?;
    let spans = noted_in(rt, alloc, &policies, found.parts, parts)?;
    let shared = section.tail_sampling.policies.clone()?;
    read_spans_are_viewed();
    Ok(Prepared::of(tenant, shared, found.origins, spans, invalid))
}

/// What is made of a body, of which texts that are remembered are shared.
fn prepare_by<R: Threads + Sync>(
    rt: &R,
    alloc: Global,
    recent: &RecentTexts,
    tenant: u32,
    section: &Section,
    body: TextSlice,
    parts: u32,
) -> Result<Prepared, Refusal>
    requires { (0 < parts) × (parts ≤ 16) }
    ensures value { IfOk result (λ prepared. IsPrepared tenant (section_view section.now) body
        prepared) }
    ensures only { PreparesValue tenant (section_view section.now) body result }
    ensures bad { NamesFault body result }
{
    let read = read_body(alloc, body)?;
    let prepared = prepare_parts(rt, alloc, recent, tenant, section, read, parts)?;
    Ok(prepared)
}

/// Reads a body, a request in protobuf, for the tenant with this number and section, and makes the notes of its spans
/// in at most `parts` threads, 1 to 16, this one among them. It waits only for threads that it started. What is
/// prepared names the tenant and shares the section's policies, which takes no memory; texts of its spans are slices of
/// the body where those that can be make up half of it, and all others are copies. A body of 2^32 bytes or more is
/// refused as memory is.
pub fn prepare<R: Threads + Sync>(
    rt: &R,
    alloc: Global,
    tenant: u32,
    section: &Section,
    body: Bytes,
    parts: u32,
) -> Result<Prepared, Refusal>
    requires { (0 < parts) × (parts ≤ 16) }

    // What is prepared is the section's policies and the value of the body.
    ensures value { IfOk result (λ prepared. IsPrepared tenant (section_view section.now) body
        prepared) }

    // A body with a value is prepared, unless memory runs out.
    ensures only { PreparesValue tenant (section_view section.now) body result }

    // The fault of a body that is bad stands in it.
    ensures bad { NamesFault body result }
{
    let block = TextSlice::of(alloc, body)?;
    prepare_by(
        rt,
        alloc,
        &RecentTexts::new(),
        tenant,
        section,
        block,
        parts,
    )
}

/// The same for who prepares one body after another: no digest is made of those texts round the body's first spans
/// that are remembered of a body before ([`RecentTexts`]). What is prepared tells nothing of what is remembered, also
/// where that is another tenant's: a text is shared only where it has the same bytes.
pub fn prepare_next<R: Threads + Sync>(
    rt: &R,
    alloc: Global,
    recent: &mut RecentTexts,
    tenant: u32,
    section: &Section,
    body: TextSlice,
    parts: u32,
) -> Result<Prepared, Refusal>
    requires { (0 < parts) × (parts ≤ 16) }
    ensures value { IfOk result (λ prepared. IsPrepared tenant (section_view section.now) body
        prepared) }
    ensures only { PreparesValue tenant (section_view section.now) body result }
    ensures bad { NamesFault body result }
{
    let made = prepare_by(rt, alloc, recent, tenant, section, body, parts);
    if let Ok(prepared) = &made {
        recent.remember(alloc, prepared.parts().0.first());
    }
    made
}
