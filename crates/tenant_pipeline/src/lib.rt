//! One tenant's pipeline over the stores that all tenants of a shard share.
//!
//! The spans of a body wait in their trace's row, each as its canonical text, with its resource and its scope kept once
//! for all that share them. A row is decided when the tenant's wait is over, by what was noted of its spans as they
//! came: where the tenant's policies sample it, its spans wait for a batch, and else they are dropped. A span that
//! comes after its row's decision waits for a batch alone where the row is sampled, and else it is dropped. Rows leave
//! to make room for others, a budget bounds the spans that are held, batches wait in a queue, are sent and sent again,
//! and every span that was taken is counted in one place.
//!
//! What a tenant is told depends on its settings and its own steps alone: `tenant_rules` says what it is after any list
//! of own steps, and what it is told of the next one. A [`Pipeline`] answers so, over [`tenant_stores::Stores`] that it
//! is lent for a step: contracts see what the rules see of both together (`specs/StateIn`), and what always holds of
//! them (`specs/Invariant`). A step takes effect at the greatest moment so far, after the timers that are due by then,
//! each at its own moment. It changes the part of its own tenant alone.
//!
//! A drain decides all that waits in one step, but its batches are written one at a time, as workers take them: until
//! then a batch is the keys of its spans, which stay in the stores. The rules see it in the queue, as it will be sent.
//!
//! Where memory is refused, some of those timers may have run, the clock then stands at the last one's moment, and
//! nothing else has changed that the rules see. What a tenant is told afterwards follows from that state.
//!
//! It stands on `tenant_rules`, `tenant_stores`, `span_batcher`, `send_queue`, `drop_ledger`, `decision_cache`,
//! `prepared_body`, `tail_policy` and `tail_settings`, and on the crates that write OTLP.
#![tactic(auto)]

mod drain;
mod drained;
mod journal;
mod law;
mod outbox;
mod pipeline;
mod place;
mod post;
mod reply;
mod send;
mod step;
mod timers;
mod undo;
mod unsent;
mod usage;

pub use law::drained_holds_none;
pub use pipeline::{LATEST_MOMENT, Pipeline, RowCounts};
pub use step::OwnStep;
pub use usage::Usage;
