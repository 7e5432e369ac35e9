//! A cache of ids.

ghost use Rattle.std.specs.Prelude.{◌≡◌, true, IsOk, IfOk, OnOk, OnErr};
ghost use Rattle.decision_cache.specs.Ids.{no_ids, with_id, contains};

use crate::keyed::{HashKeys, Keyed};
use lru::LruCache;
use std::alloc::{AllocError, Global};
use std::marker::Model;
use std::num::NonZeroUsize;

/// The most recently used ids, up to a number, which contracts see as a list with the latest first.
#[derive(Drop)]
pub(crate) struct RecentIds {
    // How many ids there may be.
    size: usize,
    // None where there may be none. It has room for more than twice as many ids as there may be, all made at the start:
    // a table as full as it may be would move all of its ids once ids that left have used up its free places.
    cache: Option<LruCache<[u8; 16], (), Keyed>>,
}

impl Model for RecentIds {
    ghost use Rattle.std.specs.Prelude.{◌≡◌, ◌<◌, ◌≤◌, [], length, MatchOption};
    ghost use Rattle.std.specs.Option.{option_map_or};
    ghost use Rattle.std.specs.Map.{keys_of};
    ghost use Rattle.decision_cache.specs.Ids.{IdsData};

    ghost Value = { IdsData };

    ghost view = { λ s. record { size = s.size; ids = option_map_or (λ c. keys_of c.entries) s.cache [] } };

    ghost invariant = { λ s. MatchOption s.cache (s.size ≡ 0)
        (λ c. (length c.entries ≤ s.size) × (s.size < c.cap) × (0 < s.size)) };
}

impl RecentIds {
    /// A cache of at most so many ids. It makes its room at once, and none where the size is 0.
    pub(crate) fn new(alloc: Global, size: u32, keys: HashKeys) -> Result<Self, AllocError>
        ensures made { IfOk result (λ made. made ≡ no_ids size) }
        ensures inactive { size ≡ 0 → IsOk result }
    {
        let size = size as usize;
        let cache = match NonZeroUsize::new(2 * (size + 1)) {
            Some(room) if size > 0 => Some(LruCache::with_hasher(alloc, room, Keyed::new(keys))?),
            _ => None,
        };
        Ok(RecentIds { size, cache })
    }

    /// Whether it has the id. The order stays as it is.
    pub(crate) fn contains(&self, id: [u8; 16]) -> bool
        ensures { result ≡ contains id self.now }
    {
        match &self.cache {
            None => false,
            Some(cache) => cache.contains(&id),
        }
    }

    /// The id goes first, and the last one goes where there are too many.
    pub(crate) fn put(&mut self, id: [u8; 16]) -> Result<(), AllocError>
        ensures on_success { OnOk result (self.new ≡ with_id id self.old) }
        ensures on_refusal { OnErr result (self.new ≡ self.old) }
        ensures inactive { self.old.size ≡ 0 → IsOk result }
    {
        let Some(cache) = &mut self.cache else {
            return Ok(());
        };
        cache.put(id, ())?;
        if cache.len() > self.size {
            let _ = cache.pop_lru();
        }
        Ok(())
    }

    /// An id that it has goes first. It takes no memory.
    pub(crate) fn promote(&mut self, id: [u8; 16])
        requires there { contains id self.old ≡ true }
        ensures { self.new ≡ with_id id self.old }
    {
        let Some(cache) = &mut self.cache else {
            return;
        };
        cache.promote(&id);
    }
}
