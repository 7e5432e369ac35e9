//! What is kept of a span: its own text, and keys in the place of those that it shares.

ghost use Rattle.std.specs.Prelude.{◌≡◌};
ghost use Rattle.span_pool.specs.Stored.{is_like};

use crate::keys::TextKeys;
use crate::owned::Owned;
use crate::shared_keys::SharedKeys;
use std::marker::Model;
use text_slice::TextSlice;

/// A span whose own canonical text is a slice of the body that it came in, and whose resource, scope and schemas are
/// named by keys: their texts are kept apart, once for all spans of the tenant, and the keys once for all spans that
/// were given them together. It has 24 bytes, without those of the body and of the keys.
#[derive(Debug, Drop)]
pub struct StoredSpan {
    source: SharedKeys,
    text: TextSlice,
}

impl Model for StoredSpan {
    ghost use Rattle.span_pool.specs.Stored.{StoredData};

    ghost Value = { StoredData };

    ghost view = { λ s. record { owner = s.source.owner; keys = s.source.keys; text = s.text } };
}

impl StoredSpan {
    /// A span of its canonical text, with the keys of what it shares, of which the tenant is the owner. It copies no
    /// byte, and takes no memory.
    pub fn of(source: SharedKeys, text: TextSlice) -> StoredSpan
        ensures { result ≡ record { owner = source.owner; keys = source.keys; text = text } }
    {
        StoredSpan { source, text }
    }

    /// The span's own text.
    pub fn text(&self) -> &TextSlice
        ensures { result.now ≡ self.now.text }
    {
        &self.text
    }

    /// The keys of the texts that it shares.
    pub fn keys(&self) -> TextKeys
        ensures { result ≡ self.now.keys }
    {
        self.source.keys()
    }

    /// Whether both are one tenant's and have the same keys. No text is looked at, so spans that are unlike may share
    /// all the same: equal texts can have several keys.
    #[inline(always)]
    pub fn is_like(&self, other: &StoredSpan) -> bool
        ensures { result ≡ is_like self.now other.now }
    {
        self.source.owner() == other.source.owner() && self.source.keys() == other.source.keys()
    }
}

impl Owned for StoredSpan {
    ghost owner = { λ s. s.owner };

    fn owner(&self) -> u32 {
        self.source.owner()
    }
}
