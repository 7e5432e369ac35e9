//! Spans as they are kept.
//!
//! A [`StoredSpan`] has a span's canonical text, the number of the tenant whose span it is, and [`TextKeys`]: the texts
//! that it shares with others, of its resource and scope and the URLs of their schemas, are kept apart. What it stands
//! for is told by a function from keys to texts (`specs/Stored`). Spans that were given the same keys share one
//! [`SharedKeys`], which has them and the tenant's number.
//!
//! The canonical texts of a span that was read and of its resource can be viewed, and a view over them tells what the
//! two are ([`read_spans_are_viewed`]).
//!
//! A [`SpanPool`] has the spans of all tenants of a shard, of any type that tells whose one is ([`Owned`]), under keys
//! that it gives out. Contracts speak of a tenant's part, a function from keys to its own spans (`specs/Pool`): each
//! call changes the part of the tenant that it names, and leaves every other one as it was. Only [`SpanPool::put`]
//! takes memory; where it is refused, nothing has changed.
//!
//! It stands on `span_view`, `text_slice` and the library's `slab`, and for what a span that was read is on `otlp_read`
//! and those below it.
#![tactic(auto)]

mod keys;
mod law;
mod owned;
mod pool;
mod shared_keys;
mod stored;

pub use keys::TextKeys;
pub use law::read_spans_are_viewed;
pub use owned::Owned;
pub use pool::{NotYours, SpanPool, each_span_has_one_owner};
pub use shared_keys::SharedKeys;
pub use stored::StoredSpan;
