//! The admin port of a service, request by request.
//!
//! [`serve_admin`] serves one client after another until the work is over. It answers each request by its route: a
//! page, figures that its own steps ask the shards for, or a change of the tenants, which it hands to the control
//! thread as a line of the input.
#![tactic(auto)]

mod admin_handler;
mod figures;

pub use crate::admin_handler::serve_admin;
