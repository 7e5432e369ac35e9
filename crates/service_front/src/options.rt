//! How a service is run, beside its settings.

use decision_cache::HashKeys;
use std::time::Duration;

/// How a service is run, beside its settings.
#[derive(Clone, Copy)]
pub struct ServiceOptions {
    /// Whether the shards' logs are kept, and their lengths written at the end.
    pub audit: bool,
    /// Whether standard error is told of answers of back ends that aren't those of success.
    pub verbose: bool,
    /// Under these trace ids are hashed. No client knows them.
    pub keys: HashKeys,
    /// So many connections are served at a time, each by a thread of its own; without it as many as the settings have
    /// receivers.
    pub connections: Option<u32>,
    /// So many jobs are posted at a time, each by a thread of its own; without it as many as the settings have senders.
    pub senders: Option<u32>,
    /// So long a client's connection may rest, within a message and between two of them, before it is closed; without
    /// it for ever. Not 0.
    pub client_timeout: Option<Duration>,
    /// So long a client may take for a request, from its first byte on, and anew behind `100 Continue`, before its
    /// connection is closed; without it for ever. Not 0.
    pub request_timeout: Option<Duration>,
    /// So long a whole attempt at a job may take, from connecting to its back end to the end of the answer, before it
    /// has failed; without it for ever. Not 0.
    pub back_end_timeout: Option<Duration>,
    /// So many bytes of clients' bodies may be on their way at a time, of all connections together; without it any
    /// number. Not below 20,971,520, which the longest body has.
    pub body_memory: Option<u64>,
}
