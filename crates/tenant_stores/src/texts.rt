//! Uses of several texts at once. What holds and releases them is inlined: no [`TextRequest`] is then made in memory.

ghost use Rattle.std.specs.Prelude.{◌≡◌, ◌++◌, ◌∷◌, [], ℕ, Option, IfOk, OnErr, option_to_list, option_copied};
ghost use Rattle.text_pool.specs.Part.{part};
ghost use Rattle.text_pool.specs.declared.pool.CountedText.{CountedText};
ghost use Rattle.tenant_stores.specs.View.{text_keys};
ghost use Rattle.tenant_stores.specs.Changes.{all_released};
ghost use Rattle.tenant_stores.specs.HeldTexts.{AreHeld, IsKnown, wanted_text, again_of, OtherTextsUnchanged, WhereKnown, IsWantedAt, IsWantedOrigin};

use span_pool::TextKeys;
use std::alloc::AllocError;
use text_pool::{SharedBytes, TextPool};

/// A text of which one use more is wanted.
#[derive(Clone, Copy)]
pub(crate) enum TextRequest<'a> {
    /// None.
    Nothing,
    /// This text.
    New(&'a SharedBytes),
    /// The text at this key.
    Again(u32),
}

/// This text, where there is one.
pub(crate) fn wanted_new(text: Option<&SharedBytes>) -> TextRequest<'_>
    ensures known { (texts : ℕ → Option CountedText) → IsKnown result texts }
    ensures text { (texts : ℕ → Option CountedText)
        → wanted_text result texts ≡ option_copied text.entry }
{
    match text {
        Some(text) => TextRequest::New(text),
        None => TextRequest::Nothing,
    }
}

/// The text at this key, where there is one.
#[inline(always)]
pub(crate) fn wanted_again<'a>(key: Option<u32>) -> TextRequest<'a>
    ensures { result ≡ again_of key }
{
    match key {
        Some(key) => TextRequest::Again(key),
        None => TextRequest::Nothing,
    }
}

/// One use more of a text, where one is wanted. The answer is its key.
#[inline(always)]
fn hold_one(
    texts: &mut TextPool,
    tenant: u32,
    wanted: TextRequest<'_>,
) -> Result<Option<u32>, AllocError>
    ensures keys_held { IfOk result (λ key. WhereKnown (wanted.entry ∷ []) (part tenant texts.old)
        (AreHeld (option_to_list key) (part tenant texts.old) (part tenant texts.new))) }
    ensures text { IfOk result (λ key. WhereKnown (wanted.entry ∷ []) (part tenant texts.old)
        (IsWantedAt wanted.entry key (part tenant texts.old) (part tenant texts.new))) }
    ensures others_unchanged { OtherTextsUnchanged tenant texts.old texts.new }
    ensures on_refusal { OnErr result (part tenant texts.new ≡ part tenant texts.old) }
{
    match wanted {
        TextRequest::Nothing => Ok(None),
        TextRequest::New(text) => {
            let key = texts.hold(tenant, text)?;
            Ok(Some(key))
        }
        TextRequest::Again(key) => {
            let again = texts.hold_again(tenant, key)?;
            Ok(Some(again))
        }
    }
}

/// One use more of two texts, or of none.
#[inline(always)]
fn hold_two(
    texts: &mut TextPool,
    tenant: u32,
    first: TextRequest<'_>,
    second: TextRequest<'_>,
) -> Result<(Option<u32>, Option<u32>), AllocError>
    ensures keys_held { IfOk result (λ keys. WhereKnown (first.entry ∷ second.entry ∷ [])
        (part tenant texts.old) (AreHeld (option_to_list keys.0 ++ option_to_list keys.1)
        (part tenant texts.old) (part tenant texts.new))) }
    ensures first { IfOk result (λ keys. WhereKnown (first.entry ∷ second.entry ∷ [])
        (part tenant texts.old) (IsWantedAt first.entry keys.0 (part tenant texts.old)
        (part tenant texts.new))) }
    ensures second { IfOk result (λ keys. WhereKnown (first.entry ∷ second.entry ∷ [])
        (part tenant texts.old) (IsWantedAt second.entry keys.1 (part tenant texts.old)
        (part tenant texts.new))) }
    ensures others_unchanged { OtherTextsUnchanged tenant texts.old texts.new }
    ensures on_refusal { OnErr result (WhereKnown (second.entry ∷ []) (part tenant texts.old)
        (part tenant texts.new ≡ part tenant texts.old)) }
{
    let last = hold_one(texts, tenant, second)?;
    match hold_one(texts, tenant, first) {
        Ok(key) => Ok((key, last)),
        Err(refused) => {
            release(texts, tenant, last);
            Err(refused)
        }
    }
}

/// One use more of each of the four texts that a span shares with others, or of none. The answer is their keys.
#[inline(always)]
pub(crate) fn hold_four(
    texts: &mut TextPool,
    tenant: u32,
    resource: TextRequest<'_>,
    resource_schema_url: TextRequest<'_>,
    scope: TextRequest<'_>,
    scope_schema_url: TextRequest<'_>,
) -> Result<TextKeys, AllocError>
    ensures keys_held { IfOk result (λ keys. WhereKnown
        (resource.entry ∷ resource_schema_url.entry ∷ scope.entry ∷ scope_schema_url.entry ∷ [])
        (part tenant texts.old) (AreHeld (text_keys keys) (part tenant texts.old)
        (part tenant texts.new))) }
    ensures origin { IfOk result (λ keys. IsWantedOrigin resource.entry resource_schema_url.entry
        scope.entry scope_schema_url.entry keys (part tenant texts.old) (part tenant texts.new)) }
    ensures others_unchanged { OtherTextsUnchanged tenant texts.old texts.new }
    ensures on_refusal { OnErr result (WhereKnown
        (resource.entry ∷ resource_schema_url.entry ∷ scope.entry ∷ scope_schema_url.entry ∷ [])
        (part tenant texts.old) (part tenant texts.new ≡ part tenant texts.old)) }
{
    let lower = hold_two(texts, tenant, scope, scope_schema_url)?;
    match hold_two(texts, tenant, resource, resource_schema_url) {
        Ok(upper) => Ok(TextKeys {
            resource: upper.0,
            resource_schema_url: upper.1,
            scope: lower.0,
            scope_schema_url: lower.1,
        }),
        Err(refused) => {
            release(texts, tenant, lower.0);
            release(texts, tenant, lower.1);
            Err(refused)
        }
    }
}

/// One use less of each of the texts with these keys.
pub(crate) fn release_all(texts: &mut TextPool, tenant: u32, keys: TextKeys)
    ensures uses_removed { part tenant texts.new ≡ all_released (text_keys keys)
        (part tenant texts.old) }
    ensures others_unchanged { OtherTextsUnchanged tenant texts.old texts.new }
{
    release(texts, tenant, keys.resource);
    release(texts, tenant, keys.resource_schema_url);
    release(texts, tenant, keys.scope);
    release(texts, tenant, keys.scope_schema_url);
}

/// One use less of the text with this key, where there is a key.
#[inline(always)]
fn release(texts: &mut TextPool, tenant: u32, key: Option<u32>)
    ensures uses_removed { part tenant texts.new ≡ all_released (option_to_list key)
        (part tenant texts.old) }
    ensures others_unchanged { OtherTextsUnchanged tenant texts.old texts.new }
{
    if let Some(key) = key {
        texts.release(tenant, key);
    }
}
