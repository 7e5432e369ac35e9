//! What stands round spans, in memory of its own.

ghost use Rattle.std.specs.Prelude.{◌≡◌, ◌<◌, length, map, IfOk, option_copied};
ghost use Rattle.span_pool.specs.Stored.{bytes_of};
ghost use Rattle.prepared_body.specs.Arrivals.{origin_view, origin_at, AreGrouped};
ghost use Rattle.audit_log.specs.Origins.{around, HasItsResource};

use prepared_body::SpanOrigin;
use std::alloc::{AllocError, Global};
use text_pool::SharedBytes;
use text_slice::TextSlice;

/// The text in memory of its own, where there is one.
fn copied(alloc: Global, text: Option<&SharedBytes>) -> Result<Option<SharedBytes>, AllocError>
    ensures { IfOk result (λ copy. copy ≡ option_copied text.entry) }
{
    match text {
        Some(text) => {
            let bytes = TextSlice::copy_from_slice(alloc, text.bytes().as_slice())?;
            Ok(Some(SharedBytes::of(alloc, bytes)?))
        }
        None => Ok(None),
    }
}

/// The text, which is shared, where there is one.
fn again(text: Option<&SharedBytes>) -> Result<Option<SharedBytes>, AllocError>
    ensures { IfOk result (λ same. same ≡ option_copied text.entry) }
{
    match text {
        Some(text) => Ok(Some(text.shared()?)),
        None => Ok(None),
    }
}

/// The texts of a resource and of the URL of its schema: those of the first origin of its resource spans, where that
/// was copied before, or else copies. So a resource that has many scopes is copied once.
fn resource_of(
    alloc: Global,
    origin: &SpanOrigin,
    copies: &[SpanOrigin],
) -> Result<(Option<SharedBytes>, Option<SharedBytes>), AllocError>
    requires first { HasItsResource origin.now copies.now }
    ensures resource { IfOk result (λ texts. texts.0 ≡ (origin_view origin.now).resource) }
    ensures schema_url { IfOk result (λ texts. bytes_of texts.1
        ≡ (origin_view origin.now).resource_schema_url) }
{
    match copies.get(origin.first() as usize) {
        Some(first) => Ok((
            again(first.resource())?,
            again(first.resource_schema_url())?,
        )),
        None => Ok((
            copied(alloc, origin.resource())?,
            copied(alloc, origin.resource_schema_url())?,
        )),
    }
}

/// One of these texts, whichever is there, or else an empty one.
fn any_text(
    alloc: Global,
    resource: &Option<SharedBytes>,
    scope: &Option<SharedBytes>,
) -> Result<SharedBytes, AllocError> {
    if let Some(text) = resource {
        return text.shared();
    }
    if let Some(text) = scope {
        return text.shared();
    }
    SharedBytes::of(alloc, TextSlice::copy_from_slice(alloc, &[])?)
}

/// The same origin, behind those that were copied before.
fn copy_of(
    alloc: Global,
    origin: &SpanOrigin,
    copies: &[SpanOrigin],
) -> Result<SpanOrigin, AllocError>
    requires first { HasItsResource origin.now copies.now }
    ensures { IfOk result (λ copy. around copy ≡ around origin.now) }
{
    let (resource, resource_schema_url) = resource_of(alloc, origin, copies)?;
    let scope = copied(alloc, origin.scope())?;
    let scope_schema_url = copied(alloc, origin.scope_schema_url())?;
    let other = any_text(alloc, &resource, &scope)?;
    SpanOrigin::of(
        origin.first(),
        &other,
        resource,
        resource_schema_url,
        scope,
        scope_schema_url,
    )
}

/// The same origins, so that no body stays for them.
pub(crate) fn copies_of(
    alloc: Global,
    origins: &[SpanOrigin],
) -> Result<Vec<SpanOrigin>, AllocError>
    requires grouped { AreGrouped origins.now }
    ensures { IfOk result (λ copies. map around copies.items ≡ map around origins.now) }
{
    let mut copies = Vec::with_capacity(alloc, origins.len())?;
    for origin in origins {
        let copy = copy_of(alloc, origin, copies.as_slice())?;
        copies.push(copy)?;
    }
    Ok(copies)
}

/// The same origins, whose texts are shared.
pub(crate) fn shared(alloc: Global, origins: &[SpanOrigin]) -> Result<Vec<SpanOrigin>, AllocError>
    ensures { IfOk result (λ same. same.items ≡ origins.now) }
{
    let mut same = Vec::with_capacity(alloc, origins.len())?;
    for origin in origins {
        same.push(origin.shared()?)?;
    }
    Ok(same)
}
