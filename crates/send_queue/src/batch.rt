//! A batch that is to be sent.

use bytes::Bytes;

/// A batch that is to be sent.
#[derive(Clone, Debug, Drop)]
pub struct Batch {
    /// When it formed, in milliseconds.
    pub moment: u64,
    /// How many spans it has.
    pub spans: u64,
    /// The body of its export request.
    pub payload: Bytes,
}
