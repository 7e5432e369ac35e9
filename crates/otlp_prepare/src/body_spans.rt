//! The spans of a body's parts, one after the other, and what stands round them.

ghost use Rattle.std.specs.Prelude.{◌≡◌, ◌<◌, ◌≤◌, ◌++◌, length, map, IfOk, OnOk, Some, None};
ghost use Rattle.std.specs.List.{AllByRecursion, flat_map};
ghost use Rattle.otlp_read.specs.RoundTrip.{IsShort};
ghost use Rattle.otlp_parts.specs.Parts.{body_parts_view, resource_parts_view, scope_parts_view, scopes_in, spans_in};
ghost use Rattle.span_pool.specs.Stored.{bytes_of};
ghost use Rattle.prepared_body.specs.Arrivals.{origin_view, AreGrouped};
ghost use Rattle.otlp_prepare.specs.BodySpans.{IsValidRead, IsScopeRead, IsResourceRead, IsGroupRead, AreRead, IsAround, part_with, AreFound, Adds, part_arrivals, arrivals_in_resource, arrivals_in_body, AddsAround, arrivals_around, arrivals_around_all, KeepsGroup, KeepsGrouped};

use crate::recent::RecentTexts;
use crate::reversed::first_of;
use crate::unnoted::UnnotedSpan;
use otlp_parts::{BodyParts, PartText, ResourceParts, ScopeList, ScopeParts, SpanTexts};
use prepared_body::SpanOrigin;
use span_pool::read_spans_are_viewed;
use std::alloc::{AllocError, Global};
use tail_policy::{PolicyByParts, ResourceBits, TenantPolicies, views_of_parts};
use text_pool::SharedBytes;
use text_slice::TextSlice;

/// How many of the last origins are looked at for the scope of one more.
const LOOKED_AT: usize = 4;

/// The spans of a body and what stands round them.
#[derive(Drop)]
pub struct BodySpans {
    /// What stands round the spans of each scope of each resource that has spans.
    pub origins: Vec<SpanOrigin>,
    /// The spans, each with the index of its origin.
    pub parts: Vec<UnnotedSpan>,
    // Stands in the place of texts that are missing, where no other is there. None until then: a digest takes time.
    empty: Option<SharedBytes>,
}

/// What stands round the spans of a resource, but for their scope.
#[derive(Drop)]
struct ResourceOrigin {
    // Which of the body's origins is the first one of this resource spans, once there is one.
    first: u32,
    resource: Option<SharedBytes>,
    schema_url: Option<SharedBytes>,
    // What the resource tells the policies.
    bits: ResourceBits,
}

/// These bytes with their digest, or the last text where that has the same.
#[tactic(auto, using(otlp_parts::proofs::Same::the_same_text))]
fn shared_text(
    alloc: Global,
    bytes: &TextSlice,
    last: Option<&SharedBytes>,
) -> Result<SharedBytes, AllocError>
    ensures { IfOk result (λ text. text ≡ bytes.now) }
{
    if let Some(last) = last {
        if last.bytes() == bytes {
            return last.shared();
        }
    }
    SharedBytes::of(alloc, bytes.shared()?)
}

/// The same text with its digest, where there is one.
fn text_of(
    alloc: Global,
    text: &PartText,
    last: Option<&SharedBytes>,
) -> Result<Option<SharedBytes>, AllocError>
    ensures { IfOk result (λ same. same ≡ text.now) }
{
    match text.as_ref() {
        Some(bytes) => Ok(Some(shared_text(alloc, bytes, last)?)),
        None => Ok(None),
    }
}

/// The same text, where there is one.
fn again(text: &Option<SharedBytes>) -> Result<Option<SharedBytes>, AllocError>
    ensures { IfOk result (λ same. same ≡ text.now) }
{
    match text {
        Some(text) => Ok(Some(text.shared()?)),
        None => Ok(None),
    }
}

/// The bytes of a text, none where it is missing.
fn bytes_in(text: &PartText) -> &[u8]
    ensures same { result.now ≡ bytes_of text.now }
    ensures short { IsShort (bytes_of text.now) }
{
    match text.as_ref() {
        Some(text) => text.as_slice(),
        None => &[],
    }
}

/// What a resource tells the policies.
fn resource_told(
    policies: &TenantPolicies<'_>,
    resource: &PartText,
) -> Result<ResourceBits, AllocError>
    requires { IsResourceRead resource.now }
    ensures { IfOk result (λ bits. IsAround policies.now resource.now bits) }
{
    read_spans_are_viewed();
    views_of_parts();
    policies.resource_note(bytes_in(resource))
}

/// The index of an origin to come. Where that is 2^32 or more it is refused as memory is.
fn next_index(origins: &[SpanOrigin]) -> Result<u32, AllocError>
    ensures { IfOk result (λ index. index ≡ length origins.now) }
{
    let Ok(index) = u32::try_from(origins.len()) else {
        return Err(AllocError);
    };
    Ok(index)
}

/// What stands round the spans of a resource, but for their scope. Texts that are the same as in the last origin are
/// shared with it.
fn outer_of(
    alloc: Global,
    first: u32,
    resource: &PartText,
    schema_url: &PartText,
    bits: ResourceBits,
    last: Option<&SpanOrigin>,
) -> Result<ResourceOrigin, AllocError>
    ensures { IfOk result (λ outer. (outer.resource ≡ resource.now)
        × (outer.schema_url ≡ schema_url.now) × (outer.bits ≡ bits) × (outer.first ≡ first)) }
{
    Ok(ResourceOrigin {
        first,
        resource: text_of(alloc, resource, last.and_then(|last| last.resource()))?,
        schema_url: text_of(
            alloc,
            schema_url,
            last.and_then(|last| last.resource_schema_url()),
        )?,
        bits,
    })
}

/// Whether it has this scope.
fn has_scope(origin: &SpanOrigin, scope: &TextSlice) -> bool {
    match origin.scope() {
        Some(text) => text.bytes() == scope,
        None => false,
    }
}

/// The latest of the last few origins that has this scope, or else the last one, and before the first one what is
/// remembered. Where resources have the same scopes in the same order, it is that of the resource before.
fn latest_like<'a>(
    origins: &'a [SpanOrigin],
    recent: &'a RecentTexts,
    scope: &PartText,
) -> Option<&'a SpanOrigin> {
    if let Some(scope) = scope.as_ref() {
        let from = origins.len().saturating_sub(LOOKED_AT);
        for origin in origins[from..].iter().rev() {
            if has_scope(origin, scope) {
                return Some(origin);
            }
        }
    }
    origins.last().or(recent.first())
}

/// One of these texts, whichever is there, or else one that is made once.
fn any_text(
    alloc: Global,
    empty: &mut Option<SharedBytes>,
    resource: &Option<SharedBytes>,
    scope: &Option<SharedBytes>,
) -> Result<SharedBytes, AllocError> {
    if let Some(text) = resource {
        return text.shared();
    }
    if let Some(text) = scope {
        return text.shared();
    }
    if let Some(text) = empty {
        return text.shared();
    }
    let made = SharedBytes::of(alloc, TextSlice::copy_from_slice(alloc, &[])?)?;
    *empty = Some(made.shared()?);
    Ok(made)
}

/// What stands round the spans of a scope of this resource. Texts that are the same as in this other one are shared
/// with it: resources and scopes come again and again.
fn origin_of(
    alloc: Global,
    empty: &mut Option<SharedBytes>,
    outer: &ResourceOrigin,
    scope: &PartText,
    schema_url: &PartText,
    last: Option<&SpanOrigin>,
) -> Result<SpanOrigin, AllocError>
    ensures texts { IfOk result (λ origin. origin_view origin ≡
        record {
          resource = outer.now.resource;
          resource_schema_url = bytes_of outer.now.schema_url;
          scope = scope.now;
          scope_schema_url = bytes_of schema_url.now;
        }) }
    ensures first { IfOk result (λ origin. origin.first ≡ outer.now.first) }
{
    let resource = again(&outer.resource)?;
    let resource_schema_url = again(&outer.schema_url)?;
    let scope = text_of(alloc, scope, last.and_then(|last| last.scope()))?;
    let scope_schema_url = text_of(
        alloc,
        schema_url,
        last.and_then(|last| last.scope_schema_url()),
    )?;
    let other = any_text(alloc, empty, &resource, &scope)?;
    SpanOrigin::of(
        outer.first,
        &other,
        resource,
        resource_schema_url,
        scope,
        scope_schema_url,
    )
}

/// Appends spans of one origin.
fn add_spans(
    parts: &mut Vec<UnnotedSpan>,
    origin: usize,
    bits: ResourceBits,
    texts: SpanTexts,
) -> Result<(), AllocError>
    requires { AllByRecursion IsValidRead (spans_in texts) }
    ensures parts { OnOk result (parts.new.items ≡ parts.old.items ++ map (part_with bits origin)
        (spans_in texts)) }
    ensures short { OnOk result (AllByRecursion IsShort (spans_in texts)) }
{
    match texts {
        SpanTexts::One(text) => {
            parts.push(UnnotedSpan::of(text, origin, bits))?;
            Ok(())
        }
        SpanTexts::More(texts) => add_texts(parts, origin, bits, texts),
    }
}

/// Appends the spans of these texts.
fn add_texts(
    parts: &mut Vec<UnnotedSpan>,
    origin: usize,
    bits: ResourceBits,
    texts: Vec<TextSlice>,
) -> Result<(), AllocError>
    requires { AllByRecursion IsValidRead texts.items }
    ensures parts { OnOk result (parts.new.items ≡ parts.old.items ++ map (part_with bits origin)
        texts.items) }
    ensures short { OnOk result (AllByRecursion IsShort texts.items) }
{
    parts.reserve(texts.len())?;
    for text in texts {
        parts.push(UnnotedSpan::of(text, origin, bits))?;
    }
    Ok(())
}

/// Appends the spans of one scope of this resource, and what stands round them if there are any.
fn add_scope(
    alloc: Global,
    found: &mut BodySpans,
    recent: &RecentTexts,
    outer: &ResourceOrigin,
    scope: ScopeParts,
) -> Result<(), AllocError>
    requires read { IsScopeRead (scope_parts_view scope) }
    ensures adds { OnOk result (AddsAround outer.now.resource outer.now.bits
        (arrivals_around outer.now.resource outer.now.schema_url (scope_parts_view scope))
        found.old.origins.items found.old.parts.items found.new.origins.items
        found.new.parts.items) }
    ensures grouped { OnOk result (KeepsGroup outer.now.first outer.now.resource
        outer.now.schema_url found.old.origins.items found.new.origins.items) }
{
    if scope.spans.is_empty() {
        return Ok(());
    }
    read_spans_are_viewed();
    let origin = origin_of(
        alloc,
        &mut found.empty,
        outer,
        &scope.scope,
        &scope.schema_url,
        latest_like(found.origins.as_slice(), recent, &scope.scope),
    )?;
    let index = found.origins.len();
    found.origins.push(origin)?;
    add_spans(&mut found.parts, index, outer.bits, scope.spans)?;
    Ok(())
}

/// Appends the spans of several scopes of this resource.
fn add_scopes(
    alloc: Global,
    found: &mut BodySpans,
    recent: &RecentTexts,
    outer: &ResourceOrigin,
    scopes: Vec<ScopeParts>,
) -> Result<(), AllocError>
    requires read { AllByRecursion IsScopeRead (map scope_parts_view scopes.items) }
    ensures adds { OnOk result (AddsAround outer.now.resource outer.now.bits
        (arrivals_around_all outer.now.resource outer.now.schema_url scopes.items)
        found.old.origins.items found.old.parts.items found.new.origins.items
        found.new.parts.items) }
    ensures grouped { OnOk result (KeepsGroup outer.now.first outer.now.resource
        outer.now.schema_url found.old.origins.items found.new.origins.items) }
{
    for scope in scopes {
        add_scope(alloc, found, recent, outer, scope)?;
    }
    Ok(())
}

/// Appends the spans of one resource, which is looked through once.
fn add_resource(
    alloc: Global,
    policies: &TenantPolicies<'_>,
    found: &mut BodySpans,
    recent: &RecentTexts,
    group: ResourceParts,
) -> Result<(), AllocError>
    requires read { IsGroupRead (resource_parts_view group) }
    requires found { AreFound policies.now found.old.origins.items found.old.parts.items }
    ensures adds { OnOk result (Adds policies.now
        (arrivals_in_resource (resource_parts_view group))
        found.old.origins.items found.old.parts.items found.new.origins.items
        found.new.parts.items) }
    ensures grouped { OnOk result (KeepsGrouped found.old.origins.items
        found.new.origins.items) }
{
    let ResourceParts {
        resource,
        schema_url,
        scopes,
    } = group;
    let bits = resource_told(policies, &resource)?;
    let first = next_index(found.origins.as_slice())?;
    let last = found.origins.last().or(recent.first());
    let outer = outer_of(alloc, first, &resource, &schema_url, bits, last)?;
    match scopes {
        ScopeList::One(scope) => add_scope(alloc, found, recent, &outer, scope),
        ScopeList::More(scopes) => add_scopes(alloc, found, recent, &outer, scopes),
    }
}

/// Appends the spans of several resources. Each resource spans is let go of once its spans were found.
fn add_resources(
    alloc: Global,
    policies: &TenantPolicies<'_>,
    found: &mut BodySpans,
    recent: &RecentTexts,
    groups: Vec<ResourceParts>,
) -> Result<(), AllocError>
    requires read { AllByRecursion IsGroupRead (map resource_parts_view groups.items) }
    requires found { AreFound policies.now found.old.origins.items found.old.parts.items }
    ensures adds { OnOk result (Adds policies.now
        (flat_map arrivals_in_resource (map resource_parts_view groups.items))
        found.old.origins.items found.old.parts.items found.new.origins.items
        found.new.parts.items) }
    ensures grouped { OnOk result (KeepsGrouped found.old.origins.items
        found.new.origins.items) }
{
    for group in groups {
        add_resource(alloc, policies, found, recent, group)?;
    }
    Ok(())
}

/// The spans of a body, in its order, each with what its resource tells the policies. Of many resource spans so many
/// are taken at a time that what was read takes less memory as what is found takes more. Texts of the first that are
/// remembered are shared.
#[tactic(auto, using(crate::proofs::Gathered::all_whole))]
pub fn found_in(
    alloc: Global,
    policies: &TenantPolicies<'_>,
    recent: &RecentTexts,
    body: BodyParts,
) -> Result<BodySpans, AllocError>
    requires { AreRead (body_parts_view body) }
    ensures found { IfOk result (λ found. AreFound policies.now found.origins.items
        found.parts.items) }
    ensures arrivals { IfOk result (λ found.
        part_arrivals found.origins.items found.parts.items ≡ arrivals_in_body
        (body_parts_view body)) }
    ensures sparing { IfOk result (λ found. length found.origins.items
        ≤ length found.parts.items) }
    ensures grouped { IfOk result (λ found. AreGrouped found.origins.items) }
{
    let mut found = BodySpans {
        origins: Vec::new(alloc),
        parts: Vec::new(alloc),
        empty: None,
    };
    let mut left = body.resources;
    left.reverse();
    'pieces: while !left.is_empty() {
        let now = first_of(alloc, &mut left)?;
        add_resources(alloc, policies, &mut found, recent, now)?;
    }
    Ok(found)
}
