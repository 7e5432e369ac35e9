//! What all threads share.

use crate::naming::Naming;
use job_lane::Lane;
use service_front::ServiceLimits;
use service_runtime::{AdminEntrance, Entrance, ServiceBeat};
use shared_hub::SharedHub;
use std::alloc::Global;
use std::sync::Mutex;
use tenant_registry::InForce;

/// What all threads share.
#[derive(Drop)]
pub struct Shared<'h, J: Naming, R> {
    pub rt: &'h R,
    pub alloc: Global,
    pub settings: &'h Mutex<InForce<J>>,
    pub limits: ServiceLimits,
    pub hub: &'h SharedHub,
    pub lane: &'h Lane,
    pub entrance: Entrance<'h>,
    /// Its admin port, if it has one.
    pub admin: Option<AdminEntrance<'h>>,
    pub beat: ServiceBeat<'h, R>,
    /// How many threads there are.
    pub threads: usize,
    /// Whether the service logs back ends' responses to standard error, unless they are 2xx.
    pub is_verbose: bool,
}
