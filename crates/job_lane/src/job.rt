//! What a lane carries.

use bytes::Bytes;
use std::alloc::Global;

/// A batch that is to be sent to a tenant's back end.
#[derive(Drop)]
pub struct Job {
    /// The tenant's number, from 0, in the order of the settings.
    pub tenant: u32,
    /// Under which the back end's answer is handed in.
    pub ticket: u64,
    /// The bytes of the request's body.
    pub payload: Bytes<Global>,
}
