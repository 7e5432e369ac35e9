//! The collector as a service, from its start to its end: threads that receive bodies, make turns, send jobs and hand
//! in back ends' responses, over shards that they share.
//!
//! [`run_service`] starts as many threads as its options and the settings say, and returns after the input has ended
//! and all tenants have sent what they held. It locks no shard while it reads bytes, parses a body or sends a payload.
//!
//! What a thread does is in other crates: `service_context` (posts, turns, responses), `service_workers` (roles and the
//! lane), `service_control` (lines of the input), `service_admin` (the admin port), and `service_front` (what calls no
//! shard). This crate opens the hub and the lane, starts the threads, and closes what it opened.
#![tactic(auto)]

mod audit;
mod beside;
mod service;
mod shared;
mod start;
mod workers;

pub use crate::service::run_service;
pub use crate::start::{Console, ServiceStart};
pub use service_context::post_body;
pub use service_control::{ServiceFault, tenants_are_in_force};
pub use service_front::{ServiceOptions, refusals_agree};
pub use service_workers::popped_jobs_were_given;
