//! The texts of all tenants of a shard, each under a key.

ghost use Rattle.std.specs.Prelude.{◌≡◌, ◌≢◌, ◌<◌, ◌+◌, ◌^◌, ℕ, None, Some, Ok, IfOk, OnOk, OnErr, IfSome, option_copied};
ghost use Rattle.slab.specs.Slab.{get, ContainsKey, Updates};
ghost use Rattle.text_pool.specs.Part.{part, with_text, with_uses, held, released, text_of, same_text};

use crate::shared_bytes::SharedBytes;
use slab::Slab;
use std::alloc::{AllocError, Global};
use std::collections::BTreeSet;
use std::marker::Model;
use text_slice::TextSlice;

/// A text that is kept, and how often.
#[derive(Drop)]
pub struct CountedText {
    /// The number of the tenant whose text it is.
    pub owner: u32,
    /// The text.
    pub text: SharedBytes,
    /// For how many it is kept, at least one.
    pub uses: u64,
}

/// All tenants' texts, by keys that the pool gives out. A key is given out anew once its text was released as often as
/// it was held.
#[derive(Drop)]
pub struct TextPool {
    alloc: Global,
    texts: Slab<CountedText>,
    // The digest of each text, its owner and its key. A text is looked at before its key is taken from here.
    keys: BTreeSet<(u64, u32, u32)>,
}

impl Model for TextPool {
    ghost use Rattle.slab.specs.Slab.{Slab as Slots, slab_code};
    ghost use Rattle.text_pool.specs.declared.pool.CountedText.{CountedText};

    ghost Value = { Slots CountedText };

    ghost view = { λ p. p.texts };
}

impl TextPool {
    /// No texts of any tenant, which take no memory.
    pub fn new(alloc: Global) -> Self
        ensures { (tenant : ℕ) → part tenant result ≡ λ _. None }
    {
        TextPool {
            alloc,
            texts: Slab::new(alloc),
            keys: BTreeSet::new(alloc),
        }
    }

    /// One use more of a text of the tenant's, of which a copy is kept from now on if none was. The answer is its key.
    pub fn hold(&mut self, tenant: u32, text: &SharedBytes) -> Result<u32, AllocError>
        ensures own_part { IfOk result (λ key. part tenant self.new ≡ with_text key
            (held tenant text.now (part tenant self.old key)) (part tenant self.old)) }
        ensures same { IfOk result (λ key. IfSome (part tenant self.old key)
            (λ kept. kept.text ≡ text.now)) }

        // Other tenants' parts stay as they were, and where memory is refused this tenant's too.
        ensures others_unchanged { (other : ℕ) → other ≢ tenant
            → part other self.new ≡ part other self.old }
        ensures on_refusal { OnErr result (part tenant self.new ≡ part tenant self.old) }
    {
        let Some((key, uses)) = self.known(tenant, text) else {
            return self.put(tenant, text);
        };
        self.set_uses(key, uses + 1);
        Ok(key)
    }

    /// One use more of the tenant's text at this key, of which nothing is looked up. The answer is the key under which
    /// that use is kept, another one only where this one's uses can't be counted any more. Where the tenant has no text
    /// there, nothing changes, and the answer is this key.
    pub fn hold_again(&mut self, tenant: u32, key: u32) -> Result<u32, AllocError>
        ensures own_part { IfOk result (λ again. IfSome (part tenant self.old key)
            (λ kept. part tenant self.new ≡ with_text again
            (held tenant kept.text (part tenant self.old again)) (part tenant self.old))) }
        ensures same { IfOk result (λ again. IfSome (part tenant self.old again) (λ kept.
            Some kept.text ≡ text_of (part tenant self.old key))) }
        ensures vacant { part tenant self.old key ≡ None
            → (result ≡ Ok key) × (part tenant self.new ≡ part tenant self.old) }
        ensures room { IfSome (part tenant self.old key)
            (λ kept. kept.uses + 1 < 2 ^ 64 → result ≡ Ok key) }

        // Other tenants' parts stay as they were, and where memory is refused this tenant's too.
        ensures others_unchanged { (other : ℕ) → other ≢ tenant
            → part other self.new ≡ part other self.old }
        ensures on_refusal { OnErr result (part tenant self.new ≡ part tenant self.old) }
    {
        let Some(kept) = self.owned(tenant, key) else {
            return Ok(key);
        };
        if kept.uses == u64::MAX {
            let text = kept.text.shared()?;
            return self.hold(tenant, &text);
        }
        let uses = kept.uses + 1;
        self.set_uses(key, uses);
        Ok(key)
    }

    /// The key of the tenant's text and its uses, where the key is known and one more use can be counted.
    fn known(&self, tenant: u32, text: &SharedBytes) -> Option<(u32, u64)>
        ensures known { IfSome result (λ found. part tenant self.now found.0 ≡
            Some (record { owner = tenant; text = text.now; uses = found.1 })) }
        ensures uses_bounded { IfSome result (λ found. found.1 + 1 < 2 ^ 64) }
    {
        let digest = text.digest();
        for place in self.keys.range((digest, tenant, 0)..) {
            let (found, owner, key) = *place;
            if found != digest || owner != tenant {
                return None;
            }
            if let Some(uses) = self.uses_of(tenant, key, text) {
                return Some((key, uses));
            }
        }
        None
    }

    /// For how many the tenant's text at this key is kept, where it is this one and one use more can be counted.
    fn uses_of(&self, tenant: u32, key: u32, text: &SharedBytes) -> Option<u64>
        ensures known { IfSome result (λ uses. part tenant self.now key ≡
            Some (record { owner = tenant; text = text.now; uses = uses })) }
        ensures uses_bounded { IfSome result (λ uses. uses + 1 < 2 ^ 64) }
    {
        let kept = self.owned(tenant, key)?;
        if kept.uses < u64::MAX && kept.text.is_same(text) {
            Some(kept.uses)
        } else {
            None
        }
    }

    /// The text at this key is kept for so many.
    fn set_uses(&mut self, key: u32, uses: u64)
        ensures changed { get self.new key ≡ with_uses uses (get self.old key) }
        ensures others_unchanged { (other : ℕ) → other ≢ key
            → get self.new other ≡ get self.old other }
    {
        if let Some(kept) = self.texts.get_mut(key as usize) {
            kept.uses = uses;
        }
    }

    /// A copy of a text comes under a key that was vacant: the text may be a slice of a body, which would stay for it.
    /// It is refused where memory is, or where that key is 2^32 or more.
    fn put(&mut self, tenant: u32, text: &SharedBytes) -> Result<u32, AllocError>
        ensures vacant { IfOk result (λ key. part tenant self.old key ≡ None) }
        ensures own_part { IfOk result (λ key. part tenant self.new ≡
            with_text key (held tenant text.now None) (part tenant self.old)) }
        ensures others_unchanged { (other : ℕ) → other ≢ tenant
            → part other self.new ≡ part other self.old }
        ensures on_refusal { OnErr result (part tenant self.new ≡ part tenant self.old) }
    {
        let Ok(key) = u32::try_from(self.texts.vacant_key()) else {
            return Err(AllocError);
        };
        let copy = text.copied(self.alloc)?;
        self.texts.reserve(1)?;
        self.keys.insert((copy.digest(), tenant, key))?;
        self.texts.insert_reserved(CountedText {
            owner: tenant,
            text: copy,
            uses: 1,
        });
        Ok(key)
    }

    /// One use less of the tenant's text at this key, which leaves with the last one. It takes no memory.
    pub fn release(&mut self, tenant: u32, key: u32)
        ensures own_part { part tenant self.new ≡
            with_text key (released (part tenant self.old key)) (part tenant self.old) }
        ensures others_unchanged { (other : ℕ) → other ≢ tenant
            → part other self.new ≡ part other self.old }
    {
        let Some(kept) = self.owned(tenant, key) else {
            return;
        };
        if kept.uses == 1 {
            self.remove(tenant, key);
        } else {
            let uses = kept.uses.saturating_sub(1);
            self.set_uses(key, uses);
        }
    }

    /// The text at this key leaves, and what led to it.
    fn remove(&mut self, tenant: u32, key: u32)
        requires { ContainsKey self.old key }
        ensures { Updates self.old self.new key None }
    {
        let kept = self.texts.remove(key as usize);
        self.keys.remove(&(kept.text.digest(), tenant, key));
    }

    /// The tenant's text at a key.
    pub fn text(&self, tenant: u32, key: u32) -> Option<&TextSlice>
        ensures { option_copied result ≡ text_of (part tenant self.now key) }
    {
        Some(self.owned(tenant, key)?.text.bytes())
    }

    /// Whether the tenant's texts at two keys are the same, or missing at both.
    pub fn is_same(&self, tenant: u32, one: u32, other: u32) -> bool
        ensures { result ≡ same_text (part tenant self.now one) (part tenant self.now other) }
    {
        if one == other {
            return true;
        }
        match (self.owned(tenant, one), self.owned(tenant, other)) {
            (Some(one), Some(other)) => one.text.is_same(&other.text),
            (None, None) => true,
            _ => false,
        }
    }

    fn owned(&self, tenant: u32, key: u32) -> Option<&CountedText>
        ensures { option_copied result ≡ part tenant self.now key }
    {
        match self.texts.get(key as usize) {
            Some(kept) if kept.owner == tenant => Some(kept),
            _ => None,
        }
    }
}
