//! Parts with memory of their own.

ghost use Rattle.std.specs.Prelude.{◌≡◌, IfOk, map};
ghost use Rattle.otlp_parts.specs.Parts.{body_parts_view, resource_parts_view, scope_parts_view, scopes_in, spans_in};

use crate::part_text::PartText;
use crate::parts::{BodyParts, ResourceParts, ScopeList, ScopeParts, SpanTexts};
use std::alloc::{AllocError, Global};
use text_slice::TextSlice;

/// A copy of a text, where there is one.
fn copied(alloc: Global, text: PartText) -> Result<PartText, AllocError>
    ensures { IfOk result (λ copy. copy ≡ text) }
{
    match text.as_ref() {
        Some(text) => {
            let copy = TextSlice::copy_from_slice(alloc, text.as_slice())?;
            Ok(PartText::of(Some(copy)))
        }
        None => Ok(PartText::of(None)),
    }
}

/// Copies of texts, in their order.
fn copied_texts(alloc: Global, texts: Vec<TextSlice>) -> Result<Vec<TextSlice>, AllocError>
    ensures { IfOk result (λ copies. copies.items ≡ texts.items) }
{
    let mut copies = Vec::with_capacity(alloc, texts.len())?;
    for text in texts {
        let copy = TextSlice::copy_from_slice(alloc, text.as_slice())?;
        copies.push(copy)?;
    }
    Ok(copies)
}

/// Copies of the spans of a scope, in their order.
fn copied_spans(alloc: Global, spans: SpanTexts) -> Result<SpanTexts, AllocError>
    ensures { IfOk result (λ copy. spans_in copy ≡ spans_in spans) }
{
    match spans {
        SpanTexts::One(span) => {
            let copy = TextSlice::copy_from_slice(alloc, span.as_slice())?;
            Ok(SpanTexts::One(copy))
        }
        SpanTexts::More(spans) => {
            let copies = copied_texts(alloc, spans)?;
            Ok(SpanTexts::More(copies))
        }
    }
}

/// A copy of the parts of a scope spans.
fn copied_scope(alloc: Global, parts: ScopeParts) -> Result<ScopeParts, AllocError>
    ensures { IfOk result (λ copy. scope_parts_view copy ≡ scope_parts_view parts) }
{
    Ok(ScopeParts {
        scope: copied(alloc, parts.scope)?,
        schema_url: copied(alloc, parts.schema_url)?,
        spans: copied_spans(alloc, parts.spans)?,
    })
}

/// Copies of the scope spans of a resource, in their order. One has its texts in common with the one before it, where
/// they are the same.
fn copied_scopes(alloc: Global, scopes: Vec<ScopeParts>) -> Result<Vec<ScopeParts>, AllocError>
    ensures { IfOk result (λ copies. map scope_parts_view copies.items ≡ map scope_parts_view
        scopes.items) }
{
    let mut copies = Vec::with_capacity(alloc, scopes.len())?;
    for scope in scopes {
        let copy = copied_scope(alloc, scope)?.like(copies.last())?;
        copies.push(copy)?;
    }
    Ok(copies)
}

/// A copy of the list of a resource's scope spans.
fn copied_list(alloc: Global, scopes: ScopeList) -> Result<ScopeList, AllocError>
    ensures { IfOk result (λ copy. scopes_in copy ≡ scopes_in scopes) }
{
    match scopes {
        ScopeList::One(scope) => {
            let copy = copied_scope(alloc, scope)?;
            Ok(ScopeList::One(copy))
        }
        ScopeList::More(scopes) => {
            let copies = copied_scopes(alloc, scopes)?;
            Ok(ScopeList::More(copies))
        }
    }
}

/// A copy of the parts of a resource spans.
fn copied_resource(alloc: Global, parts: ResourceParts) -> Result<ResourceParts, AllocError>
    ensures { IfOk result (λ copy. resource_parts_view copy ≡ resource_parts_view parts) }
{
    Ok(ResourceParts {
        resource: copied(alloc, parts.resource)?,
        schema_url: copied(alloc, parts.schema_url)?,
        scopes: copied_list(alloc, parts.scopes)?,
    })
}

/// A copy of the parts of a body, of which no byte lies in the body.
pub fn copied_body(alloc: Global, parts: BodyParts) -> Result<BodyParts, AllocError>
    ensures same { IfOk result (λ copy. body_parts_view copy ≡ body_parts_view parts) }
    ensures sliced { IfOk result (λ copy. copy.sliced ≡ 0) }
{
    let mut resources = Vec::with_capacity(alloc, parts.resources.len())?;
    for resource in parts.resources {
        let copy = copied_resource(alloc, resource)?.like(resources.last())?;
        resources.push(copy)?;
    }
    Ok(BodyParts {
        resources,
        invalid: parts.invalid,
        sliced: 0,
    })
}
