//! Spans that are ready, and what stands round them.

ghost use Rattle.std.specs.Prelude.{◌≡◌, IfOk, option_copied};
ghost use Rattle.span_pool.specs.Stored.{bytes_of, same_bytes, same_text};
ghost use Rattle.prepared_body.specs.Origin.{text_if, is_within, are_texts_within};

use std::alloc::{AllocError, Global};
use std::marker::Model;
use tail_policy::TraceNote;
use text_pool::SharedBytes;
use text_slice::TextSlice;

/// The texts that the spans of one scope of one resource share: canonical, each with its digest. It takes 40 bytes, and
/// whoever shares a text takes no more. The origins of one resource spans are known by the index of their first one.
#[derive(Debug, Drop)]
pub struct SpanOrigin {
    // Where one is missing, any other stands in its place.
    resource: SharedBytes,
    resource_schema_url: SharedBytes,
    scope: SharedBytes,
    scope_schema_url: SharedBytes,
    // Which of the body's origins is the first one of the same resource spans.
    first: u32,
    // Which of the texts are there.
    has_resource: bool,
    has_resource_schema_url: bool,
    has_scope: bool,
    has_scope_schema_url: bool,
}

impl Model for SpanOrigin {
    ghost use Rattle.prepared_body.specs.Origin.{OriginTexts, text_if};

    ghost Value = { OriginTexts };

    ghost view = { λ o. record {
      first = o.first;
      resource = text_if o.has_resource o.resource;
      resource_schema_url = text_if o.has_resource_schema_url o.resource_schema_url;
      scope = text_if o.has_scope o.scope;
      scope_schema_url = text_if o.has_scope_schema_url o.scope_schema_url;
    } };
}

/// This text, which is there, or another one in its place, where it isn't.
fn text_or(
    text: Option<SharedBytes>,
    other: &SharedBytes,
) -> Result<(SharedBytes, bool), AllocError>
    ensures { IfOk result (λ kept. text_if kept.1 kept.0 ≡ text) }
{
    match text {
        Some(text) => Ok((text, true)),
        None => Ok((other.shared()?, false)),
    }
}

/// The text, where it is there.
fn text_if(there: bool, text: &SharedBytes) -> Option<&SharedBytes>
    ensures { option_copied result ≡ text_if there text.now }
{
    if there { Some(text) } else { None }
}

/// A copy of this text where it is there, or another one in its place, where it isn't.
fn copy_or(
    alloc: Global,
    there: bool,
    text: &SharedBytes,
    other: &SharedBytes,
) -> Result<SharedBytes, AllocError>
    ensures { IfOk result (λ copy. text_if there copy ≡ text_if there text.now) }
{
    if there {
        text.copied(alloc)
    } else {
        other.shared()
    }
}

/// Whether the text, where it is there, is no longer than so many bytes.
fn is_text_within(text: Option<&SharedBytes>, bytes: usize) -> bool
    ensures { result ≡ is_within bytes (option_copied text.entry) }
{
    match text {
        Some(text) => text.bytes().len() <= bytes,
        None => true,
    }
}

impl SpanOrigin {
    /// These texts, as far as they are there, with the index of the first origin of the same resource spans. Another
    /// one stands in the place of those that are missing.
    pub fn of(
        first: u32,
        other: &SharedBytes,
        resource: Option<SharedBytes>,
        resource_schema_url: Option<SharedBytes>,
        scope: Option<SharedBytes>,
        scope_schema_url: Option<SharedBytes>,
    ) -> Result<SpanOrigin, AllocError>
        ensures { IfOk result (λ origin. origin ≡
            record {
              first = first;
              resource = resource;
              resource_schema_url = resource_schema_url;
              scope = scope;
              scope_schema_url = scope_schema_url;
            }) }
    {
        let (resource, has_resource) = text_or(resource, other)?;
        let (resource_schema_url, has_resource_schema_url) = text_or(resource_schema_url, other)?;
        let (scope, has_scope) = text_or(scope, other)?;
        let (scope_schema_url, has_scope_schema_url) = text_or(scope_schema_url, other)?;
        Ok(SpanOrigin {
            resource,
            resource_schema_url,
            scope,
            scope_schema_url,
            first,
            has_resource,
            has_resource_schema_url,
            has_scope,
            has_scope_schema_url,
        })
    }

    /// The same texts, which are shared: no byte is looked at. It takes no memory, and is refused only where the owners
    /// can't be counted any more.
    pub fn shared(&self) -> Result<SpanOrigin, AllocError>
        ensures { IfOk result (λ origin. origin ≡ self.now) }
    {
        let resource = self.resource.shared()?;
        let resource_schema_url = self.resource_schema_url.shared()?;
        let scope = self.scope.shared()?;
        let scope_schema_url = self.scope_schema_url.shared()?;
        Ok(SpanOrigin {
            resource,
            resource_schema_url,
            scope,
            scope_schema_url,
            ..*self
        })
    }

    /// The same texts in memory of their own, so that no body's block stays for them. No digest is made.
    pub fn copied(&self, alloc: Global) -> Result<SpanOrigin, AllocError>
        ensures { IfOk result (λ origin. origin ≡ self.now) }
    {
        let resource = self.resource.copied(alloc)?;
        let resource_schema_url = copy_or(
            alloc,
            self.has_resource_schema_url,
            &self.resource_schema_url,
            &resource,
        )?;
        let scope = copy_or(alloc, self.has_scope, &self.scope, &resource)?;
        let scope_schema_url = copy_or(
            alloc,
            self.has_scope_schema_url,
            &self.scope_schema_url,
            &resource,
        )?;
        Ok(SpanOrigin {
            resource,
            resource_schema_url,
            scope,
            scope_schema_url,
            ..*self
        })
    }

    /// Whether none of the texts that are there is longer than so many bytes.
    pub fn is_within(&self, bytes: usize) -> bool
        ensures { result ≡ are_texts_within bytes self.now }
    {
        is_text_within(self.resource(), bytes)
            && is_text_within(self.resource_schema_url(), bytes)
            && is_text_within(self.scope(), bytes)
            && is_text_within(self.scope_schema_url(), bytes)
    }

    /// Which of the body's origins is the first one of the same resource spans. Those of one resource spans have the
    /// same resource, and the same URL of its schema.
    pub fn first(&self) -> u32
        ensures { result ≡ self.now.first }
    {
        self.first
    }

    /// The resource's.
    pub fn resource(&self) -> Option<&SharedBytes>
        ensures value { option_copied result ≡ self.now.resource }
    {
        text_if(self.has_resource, &self.resource)
    }

    /// The URL of the resource's schema, where that isn't empty.
    pub fn resource_schema_url(&self) -> Option<&SharedBytes>
        ensures value { option_copied result ≡ self.now.resource_schema_url }
    {
        text_if(self.has_resource_schema_url, &self.resource_schema_url)
    }

    /// The scope's.
    pub fn scope(&self) -> Option<&SharedBytes>
        ensures value { option_copied result ≡ self.now.scope }
    {
        text_if(self.has_scope, &self.scope)
    }

    /// The URL of the scope's schema, where that isn't empty.
    pub fn scope_schema_url(&self) -> Option<&SharedBytes>
        ensures value { option_copied result ≡ self.now.scope_schema_url }
    {
        text_if(self.has_scope_schema_url, &self.scope_schema_url)
    }
}

/// A valid span with what the tenant's policies keep of it.
#[derive(Debug, Drop)]
pub struct NotedSpan {
    /// Its trace id.
    pub trace: [u8; 16],
    /// Its own canonical text.
    pub text: TextSlice,
    /// Which of the body's origins is its.
    pub origin: usize,
    /// Its note, with its resource.
    pub note: TraceNote,
}

/// Whether both are the same text, or missing. Digests are looked at first.
fn is_same_text(one: Option<&SharedBytes>, other: Option<&SharedBytes>) -> bool
    ensures { result ≡ same_text (option_copied one.entry) (option_copied other.entry) }
{
    match (one, other) {
        (Some(one), Some(other)) => one.is_same(other),
        (None, None) => true,
        _ => false,
    }
}

/// Whether both are the same URL, which is empty where it is missing.
fn is_same_url(one: Option<&SharedBytes>, other: Option<&SharedBytes>) -> bool
    ensures { result ≡ same_bytes (bytes_of (option_copied one.entry))
        (bytes_of (option_copied other.entry)) }
{
    match (one, other) {
        (Some(one), Some(other)) => one.is_same(other),
        (Some(url), None) | (None, Some(url)) => url.bytes().is_empty(),
        (None, None) => true,
    }
}

impl PartialEq for SpanOrigin {
    ghost use Rattle.prepared_body.specs.Equal.{same_origin, same_origin_laws};

    ghost eq = { same_origin };

    ghost laws = { same_origin_laws };

    fn eq(&self, other: &SpanOrigin) -> bool {
        is_same_text(self.resource(), other.resource())
            && is_same_url(self.resource_schema_url(), other.resource_schema_url())
            && is_same_text(self.scope(), other.scope())
            && is_same_url(self.scope_schema_url(), other.scope_schema_url())
    }
}
