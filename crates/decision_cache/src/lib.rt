//! The latest decisions of a tenant, by trace id, after their rows have left.
//!
//! A tenant may keep the ids of the traces that were sampled last, and of those that weren't, in two caches of sizes of
//! its own: `decision_cache` of the Collector's `tail_sampling` processor, with `sampled_cache_size` and
//! `non_sampled_cache_size`. A late span whose trace isn't present is then treated as its trace was. An id has an event
//! in a cache where it is put there and where a span hits it, and each cache has the ids whose events are the latest,
//! up to its size. A cache of size 0 takes no memory, and a look-up there is one comparison.
//!
//! [`DecisionCaches`] is both caches with the hits that wait for a commit. Contracts see it as two lists of ids, each
//! with the most recently used first, and a list of hits (`specs/Caches`), and speak of the caches as they are shown,
//! with those hits noted. That the lists are what the events say is a law (`lists_follow_events`), and so is that a hit
//! changes the order alone (`hits_keep`).
//!
//! It stands on the library's `lru`.
#![tactic(auto)]

ghost use Rattle.decision_cache.specs.Law.{ListsSay, EventsAreNoted, HitsKeep, HitsKeepLength};

mod caches;
mod keyed;
mod recent;

pub use caches::DecisionCaches;
pub use keyed::HashKeys;

/// The list of a cache has the ids that its events say, and goes on with each event: a law over the definitions.
pub fn lists_follow_events()
    ensures lists { ListsSay }
    ensures events { EventsAreNoted }
{}

/// After an event of an id that is in a cache, the cache has the same ids: a law over the definitions.
pub fn hits_keep()
    ensures ids { HitsKeep }
    ensures length { HitsKeepLength }
{}
