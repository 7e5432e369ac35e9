//! The spans of all tenants of a shard, each under a key.

ghost use Rattle.std.specs.Prelude.{◌≡◌, ◌≢◌, ℕ, None, Some, IsSome, IfOk, OnOk, OnErr, IfErr, IfSome, option_copied};
ghost use Rattle.slab.specs.Slab.{Slab as Slots, get};
ghost use Rattle.span_pool.specs.Pool.{part, with_span};

use crate::owned::Owned;
use slab::Slab;
use std::alloc::{AllocFailed, Global};
use std::marker::Model;
use thiserror::Error;

/// At this key the tenant owns no span: it is another tenant's, or none is there.
#[derive(Clone, Copy, Debug, PartialEq, Eq, Error)]
#[error("the tenant owns no span at this key")]
pub struct NotYours;

impl NotYours {
    /// The fault's number, 20.
    pub fn number(self) -> u32
        ensures { result ≡ 20 }
    {
        20
    }
}

/// All tenants' spans, by keys that the pool gives out. A key is given out anew once its span was taken. A span is of
/// any type that tells whose it is.
#[derive(Drop)]
pub struct SpanPool<S> {
    spans: Slab<S>,
}

impl<S> Model for SpanPool<S> {
    ghost use Rattle.slab.specs.Slab.{Slab as Slots, slab_code};

    ghost Value = { Slots S };

    ghost coded = { slab_code S.code };

    ghost view = { λ p. p.spans };
}

impl<S: Owned> SpanPool<S> {
    /// No spans of any tenant, which take no memory.
    pub fn new(alloc: Global) -> Self
        ensures { (tenant : ℕ) → part S.owner tenant result ≡ λ _. None }
    {
        SpanPool {
            spans: Slab::new(alloc),
        }
    }

    /// The span goes into its owner's part, under a key that was vacant. Where memory is refused, and where the vacant
    /// key would be 2^32 or more, the error has the span.
    pub fn put(&mut self, span: S) -> Result<u32, AllocFailed<S>>
        ensures vacant { IfOk result (λ key. (tenant : ℕ)
            → part S.owner tenant self.old key ≡ None) }
        ensures own_part { IfOk result (λ key. part S.owner (S.owner span) self.new ≡
            with_span key (Some span) (part S.owner (S.owner span) self.old)) }

        // Other tenants' parts stay as they were, and where memory is refused the owner's too.
        ensures others_unchanged { (other : ℕ) → other ≢ S.owner span
            → part S.owner other self.new ≡ part S.owner other self.old }
        ensures on_refusal { OnErr result (part S.owner (S.owner span) self.new
            ≡ part S.owner (S.owner span) self.old) }
        ensures back { IfErr result (λ failed. failed.value ≡ span) }
    {
        let Ok(key) = u32::try_from(self.spans.vacant_key()) else {
            return Err(AllocFailed { value: span });
        };
        self.spans.insert(span)?;
        Ok(key)
    }

    /// The span at a key, whoever owns it.
    pub fn get(&self, key: u32) -> Option<&S>
        ensures { option_copied result ≡ get self.now key }
    {
        self.spans.get(key as usize)
    }

    /// The tenant's own span at a key.
    pub fn owned(&self, tenant: u32, key: u32) -> Option<&S>
        ensures { option_copied result ≡ part S.owner tenant self.now key }
    {
        match self.spans.get(key as usize) {
            Some(span) if span.owner() == tenant => Some(span),
            _ => None,
        }
    }

    /// Takes out a span that the tenant owns. Where it owns none at the key, nothing changes. It takes no memory.
    pub fn take(&mut self, tenant: u32, key: u32) -> Result<S, NotYours>
        ensures yours { IfOk result (λ span. part S.owner tenant self.old key ≡ Some span) }
        ensures own_part { OnOk result (part S.owner tenant self.new
            ≡ with_span key None (part S.owner tenant self.old)) }
        ensures others_unchanged { (other : ℕ) → other ≢ tenant
            → part S.owner other self.new ≡ part S.owner other self.old }
        ensures on_error { OnErr result (part S.owner tenant self.old key ≡ None) }
        ensures unchanged { OnErr result (self.new ≡ self.old) }
    {
        match self.spans.get(key as usize) {
            Some(span) if span.owner() == tenant => Ok(self.spans.remove(key as usize)),
            _ => Err(NotYours),
        }
    }

    /// Takes back a span of the tenant's that was put under this key. Where it owns none there, nothing changes. It
    /// takes no memory.
    pub fn undo_put(&mut self, tenant: u32, key: u32)
        ensures own_part { part S.owner tenant self.new ≡ with_span key None
            (part S.owner tenant self.old) }
        ensures others_unchanged { (other : ℕ) → other ≢ tenant
            → part S.owner other self.new ≡ part S.owner other self.old }
    {
        let _ = self.take(tenant, key);
    }
}

/// Each span of a pool is in its owner's part, and in no other tenant's.
pub fn each_span_has_one_owner<S: Owned>()
    ensures all { (pool : Slots S) (key : ℕ)
        → IfSome (get pool key) (λ span. part S.owner (S.owner span) pool key ≡ Some span) }
    ensures owner { (pool : Slots S) (tenant key : ℕ)
        → IfSome (part S.owner tenant pool key) (λ span. S.owner span ≡ tenant) }
    ensures one { (pool : Slots S) (tenant other key : ℕ)
        → IsSome (part S.owner tenant pool key) → IsSome (part S.owner other pool key)
        → tenant ≡ other }
{}
