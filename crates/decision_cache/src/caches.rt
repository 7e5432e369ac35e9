//! The caches of a tenant, and what was hit.

ghost use Rattle.std.specs.Prelude.{◌≡◌, true, [], ◌∷◌, ◌++◌, take, length, Some, IsOk, IfOk, OnOk, OnErr};
ghost use Rattle.decision_cache.specs.Ids.{contains};
ghost use Rattle.decision_cache.specs.Caches.{both, with_hits, no_decisions, cache_of, noted_in, all_noted, shown, found, CachesInvariant};

use crate::keyed::HashKeys;
use crate::recent::RecentIds;
use std::alloc::{AllocError, Global};
use std::marker::Model;

/// Room stays for so many hits. A post seldom has more, and what one took beyond that is given back behind it.
const KEPT_HITS: usize = 1024;

/// A tenant's caches of the ids of traces that were decided: those that were sampled, and those that weren't.
///
/// What a span hits is noted beside them, and becomes part of their order with a commit, which needs no memory. Until
/// then it can be taken back.
#[derive(Drop)]
pub struct DecisionCaches {
    sampled: RecentIds,
    other: RecentIds,
    // The ids that were hit since the last commit, in order, each with whether its trace was sampled.
    hits: Vec<([u8; 16], bool)>,
}

impl Model for DecisionCaches {
    ghost use Rattle.decision_cache.specs.Caches.{CachesData, with_hits, CachesInvariant};

    ghost Value = { CachesData };

    ghost view = { λ s. with_hits s.sampled s.other s.hits.items };

    ghost invariant = { λ s. CachesInvariant (with_hits s.sampled s.other s.hits.items) };
}

impl DecisionCaches {
    /// Caches of at most so many ids each. A cache makes its room at once; of size 0 it takes none, and stays empty.
    ///
    /// Whoever picks trace ids can't know the keys. No answer depends on them.
    pub fn new(
        alloc: Global,
        sampled_size: u32,
        other_size: u32,
        keys: HashKeys,
    ) -> Result<Self, AllocError>
        ensures made { IfOk result (λ caches. caches ≡ no_decisions sampled_size other_size) }
        ensures inactive { sampled_size ≡ 0 → other_size ≡ 0 → IsOk result }
    {
        let sampled = RecentIds::new(alloc, sampled_size, keys)?;
        let other = RecentIds::new(alloc, other_size, keys)?;
        Ok(DecisionCaches {
            sampled,
            other,
            hits: Vec::new(alloc),
        })
    }

    /// Whether the trace was sampled, where a cache has its id. That of sampled traces is looked at first.
    pub fn find(&self, id: [u8; 16]) -> Option<bool>
        ensures { result ≡ found id (shown self.now) }
    {
        if self.sampled.contains(id) {
            return Some(true);
        }
        if self.other.contains(id) {
            return Some(false);
        }
        None
    }

    /// A span hits an id, in the cache where `find` finds it.
    pub fn push_hit(&mut self, id: [u8; 16], sampled: bool) -> Result<(), AllocError>
        requires there { found id (shown self.old) ≡ Some sampled }
        ensures hits { OnOk result (self.new ≡
            record self.old { hits = self.old.hits ++ (id, sampled) ∷ [] }) }
        ensures shown { OnOk result (shown self.new ≡ noted_in sampled id (shown self.old)) }
        ensures on_refusal { OnErr result (self.new ≡ self.old) }
    {
        self.hits.push((id, sampled))?;
        Ok(())
    }

    /// How many hits wait for a commit.
    pub fn hits(&self) -> usize
        ensures { result ≡ length self.now.hits }
    {
        self.hits.len()
    }

    /// Takes back the hits behind the first so many. No want of memory keeps it from that.
    pub fn undo_hits(&mut self, count: usize)
        ensures { self.new ≡ record self.old { hits = take count self.old.hits } }
    {
        self.hits.truncate(count);
        self.hits.shrink_to(KEPT_HITS);
    }

    /// What was hit goes first, in the order of the hits, and none can be taken back any more. No want of memory keeps
    /// it from that.
    pub fn commit(&mut self)
        ensures none { self.new.hits ≡ [] }
        ensures shown { shown self.new ≡ shown self.old }
    {
        promote_all(&mut self.sampled, &mut self.other, self.hits.as_slice());
        self.hits.clear();
        self.hits.shrink_to(KEPT_HITS);
    }

    /// A trace was decided while no hits wait: its id goes first in the cache of its verdict, and the last one goes
    /// where there are too many.
    pub fn put(&mut self, id: [u8; 16], sampled: bool) -> Result<(), AllocError>
        requires none { self.old.hits ≡ [] }
        ensures none { self.new.hits ≡ [] }
        ensures shown { OnOk result (shown self.new ≡ noted_in sampled id (shown self.old)) }
        ensures on_refusal { OnErr result (self.new ≡ self.old) }
        ensures inactive { (cache_of sampled (shown self.old)).size ≡ 0 → IsOk result }
    {
        if sampled {
            self.sampled.put(id)
        } else {
            self.other.put(id)
        }
    }
}

/// Each id that was hit goes first in its cache, one after the other.
fn promote_all(sampled: &mut RecentIds, other: &mut RecentIds, hits: &[([u8; 16], bool)])
    requires invariant { CachesInvariant (with_hits sampled.old other.old hits.now) }
    ensures invariant { CachesInvariant (with_hits sampled.new other.new []) }
    ensures noted { both sampled.new other.new ≡ all_noted hits.now (both sampled.old other.old) }
{
    for hit in hits {
        promote(sampled, other, hit.0, hit.1);
    }
}

/// An id goes first in the cache that it is in.
fn promote(sampled: &mut RecentIds, other: &mut RecentIds, id: [u8; 16], was_sampled: bool)
    requires there { contains id (cache_of was_sampled (both sampled.old other.old)) ≡ true }
    ensures { both sampled.new other.new ≡ noted_in was_sampled id (both sampled.old other.old) }
{
    if was_sampled {
        sampled.promote(id);
    } else {
        other.promote(id);
    }
}
