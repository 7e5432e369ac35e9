//! The work of one thread of a service at the shards: it posts bodies, makes turns, hands in back ends' responses, and
//! handles the messages of a connection.
//!
//! [`post_body`] posts one body to its tenant's shard. A [`WorkerContext`] has a thread's caller at the shards, and
//! calls them for the dispatcher, the sender and the receiver that it is lent to. It locks no shard while it reads
//! bytes, parses a body or sends a payload. [`Shared`] is what all contexts share. [`Naming`] names the hub, the lane
//! and the settings in the proofs.
#![tactic(auto)]

mod context;
mod naming;
mod post;
mod reception;
mod shared;

pub use crate::context::WorkerContext;
pub use crate::naming::Naming;
pub use crate::post::post_body;
pub use crate::shared::Shared;
