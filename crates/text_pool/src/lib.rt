//! Texts that many spans share, each kept once for a tenant.
//!
//! A resource's text stands in a body once and belongs to all its spans, and the bodies of one sender have the same
//! resource again and again. A [`TextPool`] keeps a copy of such a text once under a key, and counts for how many it is
//! kept: [`TextPool::hold`] answers the key of a text, and [`TextPool::release`] gives one use back. Whoever keeps a
//! key in the place of a text finds by [`TextPool::is_same`] whether two texts are one. That looks at the keys, then at
//! digests, and at bytes only where both leave it open. So no length of a text makes it dear, no order in which texts
//! come does, and nothing is asked of the caller.
//!
//! A [`SharedBytes`] is made with the first bytes of its SHA-256 (FIPS 180-4), which costs time by its length. That can
//! be done before the pool is at hand. Equal digests are never taken for equal texts.
//!
//! It stands on `text_slice`, and the library's `sha2` and `slab`.
#![tactic(auto)]

mod pool;
mod shared_bytes;

pub use pool::{CountedText, TextPool};
pub use shared_bytes::SharedBytes;
