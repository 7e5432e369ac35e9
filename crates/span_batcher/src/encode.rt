//! What blocks are written as, run by run, and in how many bytes.

ghost use Rattle.std.specs.Prelude.{◌≡◌, ◌^◌, ◌-◌, ◌<◌, ◌≤◌, ◌++◌, ◌∷◌, ◌==◌, ℕ, Bool, List, length, take, drop, flat_map, IfOk, OnOk, option_copied};
ghost use Rattle.pb_wire.specs.Text.{tag_text, varint_text};
ghost use Rattle.otlp_trace.specs.Text.{embedded, repeated};
ghost use Rattle.span_pool.specs.Stored.{SpanTexts, text_at, bytes_of, same_bytes, same_text};
ghost use Rattle.span_batcher.specs.ExportText.{runs, same_resource, same_scope, scope_spans_field, resource_spans_field};
ghost use Rattle.span_batcher.specs.Texts.{texts_in, span_in};
ghost use Rattle.span_batcher.specs.Blocks.{own_texts, placed, alike, fields_in, scope_content, resource_content, capped};

use crate::block::Block;
use crate::size::{embedded_size, field_size, url_size};
use otlp_trace::{put_bytes_field, put_some_bytes};
use pb_wire::{WireType, put_tag, put_varint};
use span_pool::{Owned, StoredSpan};
use std::alloc::AllocError;
use text_pool::TextPool;
use text_slice::TextSlice;

/// The number of `resource` in a `ResourceSpans`, of `scope` in a `ScopeSpans`, and of `resource_spans` in a request.
const FIRST: u32 = 1;

/// The number of `scope_spans` in a `ResourceSpans`.
const SCOPE_SPANS: u32 = 2;

/// The number of `schema_url` in both.
const SCHEMA_URL: u32 = 3;

/// The tenant's text at a key, where there is a key and a text.
fn text_at(texts: &TextPool, tenant: u32, key: Option<u32>) -> Option<&TextSlice>
    ensures { option_copied result ≡ text_at (texts_in texts.now tenant) key }
{
    match key {
        Some(key) => texts.text(tenant, key),
        None => None,
    }
}

/// The bytes of the tenant's text at a key, none where there is no text.
fn bytes_at(texts: &TextPool, tenant: u32, key: Option<u32>) -> &[u8]
    ensures { result.now ≡ bytes_of (text_at (texts_in texts.now tenant) key) }
{
    match text_at(texts, tenant, key) {
        Some(text) => text.as_slice(),
        None => &[],
    }
}

/// The text of a span's resource, where it has one.
fn resource_of<'a>(texts: &'a TextPool, span: &StoredSpan) -> Option<&'a TextSlice>
    ensures { option_copied result ≡ (span_in texts.now span.now).origin.resource }
{
    text_at(texts, span.owner(), span.keys().resource)
}

/// The URL of the resource's schema, empty where there is none.
fn resource_url_of<'a>(texts: &'a TextPool, span: &StoredSpan) -> &'a [u8]
    ensures { result.now ≡ (span_in texts.now span.now).origin.resource_schema_url }
{
    bytes_at(texts, span.owner(), span.keys().resource_schema_url)
}

/// The text of a span's scope, where it has one.
fn scope_of<'a>(texts: &'a TextPool, span: &StoredSpan) -> Option<&'a TextSlice>
    ensures { option_copied result ≡ (span_in texts.now span.now).origin.scope }
{
    text_at(texts, span.owner(), span.keys().scope)
}

/// The URL of the scope's schema, empty where there is none.
fn scope_url_of<'a>(texts: &'a TextPool, span: &StoredSpan) -> &'a [u8]
    ensures { result.now ≡ (span_in texts.now span.now).origin.scope_schema_url }
{
    bytes_at(texts, span.owner(), span.keys().scope_schema_url)
}

/// Whether both are missing, or both are there with the same bytes.
fn are_same(one: Option<&TextSlice>, other: Option<&TextSlice>) -> bool
    ensures { result ≡ same_text (option_copied one.entry) (option_copied other.entry) }
{
    match (one, other) {
        (Some(one), Some(other)) => *one == *other,
        (None, None) => true,
        _ => false,
    }
}

/// Whether the texts at keys of two tenants are the same, or missing at both. Of one tenant the keys most often tell.
fn is_same_text(texts: &TextPool, tenants: (u32, u32), one: Option<u32>, other: Option<u32>) -> bool
    ensures { result ≡ same_text
        (text_at (texts_in texts.now tenants.0) one)
        (text_at (texts_in texts.now tenants.1) other) }
{
    match (one, other) {
        (Some(one), Some(other)) if tenants.0 == tenants.1 => {
            texts.is_same(tenants.0, one, other)
        }
        _ => are_same(
            text_at(texts, tenants.0, one),
            text_at(texts, tenants.1, other),
        ),
    }
}

/// Whether the URLs at keys of two tenants are the same, of which a missing one is empty.
fn is_same_url(texts: &TextPool, tenants: (u32, u32), one: Option<u32>, other: Option<u32>) -> bool
    ensures { result ≡ same_bytes (bytes_of (text_at (texts_in texts.now tenants.0) one))
        (bytes_of (text_at (texts_in texts.now tenants.1) other)) }
{
    is_same_text(texts, tenants, one, other)
        || (bytes_at(texts, tenants.0, one).is_empty()
            && bytes_at(texts, tenants.1, other).is_empty())
}

/// Appends the resource or the scope, where there is one.
fn put_embedded(out: &mut Vec<u8>, text: Option<&TextSlice>) -> Result<(), AllocError>
    ensures { OnOk result (out.new.items ≡ out.old.items ++ embedded 1 (option_copied text.entry)) }
{
    match text {
        Some(text) => put_bytes_field(out, FIRST, text.as_slice()),
        None => Ok(()),
    }
}

/// Appends what stands before a field's content: the tag, and that the content has so many bytes. A size that isn't
/// below the greatest `usize` is refused, since more bytes than that may count as so many.
fn put_front(out: &mut Vec<u8>, number: u32, size: usize) -> Result<(), AllocError>
    requires number_not_zero { 0 < number }
    requires fits { number < 2 ^ 29 }
    ensures on_success { OnOk result (out.new.items ≡ out.old.items ++ (tag_text number
        WireType.Bytes ++ varint_text size)) }
    ensures counted { OnOk result (size < 2 ^ 64 - 1) }
{
    if size == usize::MAX {
        return Err(AllocError);
    }
    put_tag(out, number, WireType::Bytes)?;
    put_varint(out, size as u64)
}

/// Appends the blocks' spans, each as a field of a `ScopeSpans`.
fn put_blocks(out: &mut Vec<u8>, blocks: &[Block<'_>]) -> Result<(), AllocError>
    ensures { OnOk result (out.new.items ≡ out.old.items
        ++ flat_map (λ block. repeated 2 (λ text. text) (own_texts block)) blocks.now) }
{
    for block in blocks {
        block.put(out)?;
    }
    Ok(())
}

/// How many bytes the blocks' spans take so.
fn blocks_size(blocks: &[Block<'_>]) -> usize
    ensures { result ≡ capped (length (flat_map (λ block. repeated 2 (λ text. text)
        (own_texts block)) blocks.now)) }
{
    let mut size = 0usize;
    for block in blocks {
        size = size.saturating_add(block.bytes());
    }
    size
}

/// What neighbours share, what is written of those that share it, and in how many bytes.
pub trait Level {
    ghost same: { SpanTexts → SpanTexts → Bool };

    ghost field: { List SpanTexts → List ℕ };

    fn is_same(texts: &TextPool, one: &StoredSpan, other: &StoredSpan) -> bool
        ensures { result ≡ same (span_in texts.now one.now) (span_in texts.now other.now) };

    fn size(texts: &TextPool, blocks: &[Block<'_>]) -> usize
        ensures { result ≡ capped (length (field (placed texts.now blocks.now))) };

    fn put(out: &mut Vec<u8>, texts: &TextPool, blocks: &[Block<'_>]) -> Result<(), AllocError>
        ensures { OnOk result (out.new.items ≡ out.old.items ++ field
            (placed texts.now blocks.now)) };
}

/// How many blocks the first run has.
fn leading<L: Level>(texts: &TextPool, blocks: &[Block<'_>]) -> usize
    requires { 0 < length blocks.now }
    ensures not_empty { 0 < result }
    ensures within { result ≤ length blocks.now }
    ensures first { runs (alike texts.now L.same) blocks.now ≡ take result blocks.now
        ∷ runs (alike texts.now L.same) (drop result blocks.now) }
{
    let mut last = 0;
    while last + 1 < blocks.len()
        && L::is_same(
            texts,
            blocks[last].first_span(),
            blocks[last + 1].first_span(),
        )
    {
        last += 1;
    }
    last + 1
}

/// How many bytes the blocks take, run by run.
pub fn runs_size<L: Level>(texts: &TextPool, blocks: &[Block<'_>]) -> usize
    ensures { result ≡ capped (length (fields_in texts.now L.same L.field blocks.now)) }
{
    let mut size = 0usize;
    let mut start = 0;
    while start < blocks.len() {
        let (_, left) = blocks.split_at(start);
        let count = leading::<L>(texts, left);
        let (run, _) = left.split_at(count);
        let more = L::size(texts, run);
        size = size.saturating_add(more);
        start += count;
    }
    size
}

/// Appends the blocks run by run.
pub fn put_runs<L: Level>(
    out: &mut Vec<u8>,
    texts: &TextPool,
    blocks: &[Block<'_>],
) -> Result<(), AllocError>
    ensures { OnOk result (out.new.items ≡ out.old.items ++ fields_in texts.now L.same L.field
        blocks.now) }
{
    let mut start = 0;
    while start < blocks.len() {
        let (_, left) = blocks.split_at(start);
        let count = leading::<L>(texts, left);
        let (run, _) = left.split_at(count);
        L::put(out, texts, run)?;
        start += count;
    }
    Ok(())
}

/// A scope, with its schema.
pub struct ScopeLevel;

/// How many bytes a `ScopeSpans` with the first's scope holds.
fn scope_size(texts: &TextPool, first: &StoredSpan, blocks: &[Block<'_>]) -> usize
    ensures { result ≡ capped (length (scope_content (span_in texts.now first.now)
        (placed texts.now blocks.now))) }
{
    embedded_size(scope_of(texts, first))
        .saturating_add(blocks_size(blocks))
        .saturating_add(url_size(scope_url_of(texts, first)))
}

/// Appends what a `ScopeSpans` with the first's scope holds.
fn put_scope(
    out: &mut Vec<u8>,
    texts: &TextPool,
    first: &StoredSpan,
    blocks: &[Block<'_>],
) -> Result<(), AllocError>
    ensures { OnOk result (out.new.items ≡ out.old.items ++ scope_content
        (span_in texts.now first.now) (placed texts.now blocks.now)) }
{
    put_embedded(out, scope_of(texts, first))?;
    put_blocks(out, blocks)?;
    put_some_bytes(out, SCHEMA_URL, scope_url_of(texts, first))
}

impl Level for ScopeLevel {
    ghost same = { same_scope };

    ghost field = { scope_spans_field };

    fn is_same(texts: &TextPool, one: &StoredSpan, other: &StoredSpan) -> bool {
        let tenants = (one.owner(), other.owner());
        let (one, other) = (one.keys(), other.keys());
        is_same_text(texts, tenants, one.scope, other.scope)
            && is_same_url(texts, tenants, one.scope_schema_url, other.scope_schema_url)
    }

    fn size(texts: &TextPool, blocks: &[Block<'_>]) -> usize {
        let Some(block) = blocks.first() else {
            return 0;
        };
        field_size(scope_size(texts, block.first_span(), blocks))
    }

    fn put(out: &mut Vec<u8>, texts: &TextPool, blocks: &[Block<'_>]) -> Result<(), AllocError> {
        let Some(block) = blocks.first() else {
            return Ok(());
        };
        let first = block.first_span();
        put_front(out, SCOPE_SPANS, scope_size(texts, first, blocks))?;
        put_scope(out, texts, first, blocks)
    }
}

/// A resource, with its schema.
pub struct ResourceLevel;

/// How many bytes a `ResourceSpans` with the first's resource holds.
fn resource_size(texts: &TextPool, first: &StoredSpan, blocks: &[Block<'_>]) -> usize
    ensures { result ≡ capped (length (resource_content (span_in texts.now first.now)
        (placed texts.now blocks.now))) }
{
    embedded_size(resource_of(texts, first))
        .saturating_add(runs_size::<ScopeLevel>(texts, blocks))
        .saturating_add(url_size(resource_url_of(texts, first)))
}

/// Appends what a `ResourceSpans` with the first's resource holds.
fn put_resource(
    out: &mut Vec<u8>,
    texts: &TextPool,
    first: &StoredSpan,
    blocks: &[Block<'_>],
) -> Result<(), AllocError>
    ensures { OnOk result (out.new.items ≡ out.old.items ++ resource_content
        (span_in texts.now first.now) (placed texts.now blocks.now)) }
{
    put_embedded(out, resource_of(texts, first))?;
    put_runs::<ScopeLevel>(out, texts, blocks)?;
    put_some_bytes(out, SCHEMA_URL, resource_url_of(texts, first))
}

impl Level for ResourceLevel {
    ghost same = { same_resource };

    ghost field = { resource_spans_field };

    fn is_same(texts: &TextPool, one: &StoredSpan, other: &StoredSpan) -> bool {
        let tenants = (one.owner(), other.owner());
        let (one, other) = (one.keys(), other.keys());
        is_same_text(texts, tenants, one.resource, other.resource)
            && is_same_url(
                texts,
                tenants,
                one.resource_schema_url,
                other.resource_schema_url,
            )
    }

    fn size(texts: &TextPool, blocks: &[Block<'_>]) -> usize {
        let Some(block) = blocks.first() else {
            return 0;
        };
        field_size(resource_size(texts, block.first_span(), blocks))
    }

    fn put(out: &mut Vec<u8>, texts: &TextPool, blocks: &[Block<'_>]) -> Result<(), AllocError> {
        let Some(block) = blocks.first() else {
            return Ok(());
        };
        let first = block.first_span();
        put_front(out, FIRST, resource_size(texts, first, blocks))?;
        put_resource(out, texts, first, blocks)
    }
}
