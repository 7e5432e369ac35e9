//! What a service is started with.

use service_front::ServiceOptions;
use service_runtime::AdminPort;
use std::alloc::Global;
use std::net::TcpListener;

/// What a service is started with, beside its settings.
#[derive(Drop)]
pub struct ServiceStart<'a, R, D> {
    /// The system: its threads, its clock, its connections.
    pub rt: &'a R,
    pub alloc: Global,
    /// Where clients come in.
    pub listener: &'a TcpListener,
    /// Where the documents of those who come are read from.
    pub documents: &'a D,
    /// Its admin port, if it is to have one.
    pub admin: Option<AdminPort<'a>>,
    pub options: ServiceOptions,
}

/// Where a service is told what to do, and tells what came of it.
#[derive(Drop)]
pub struct Console<I, O, L> {
    /// Its lines are commands, and its end is the service's.
    pub input: I,
    /// Answers and reports are written there.
    pub output: O,
    pub observer: L,
}
