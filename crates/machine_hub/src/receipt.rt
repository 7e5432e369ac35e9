//! What a call is given for its entry.

/// A call's entry: its position, from 0, in the log of a shard. Where the log keeps nothing, or is stopped, a call has
/// none.
#[derive(Clone, Copy, PartialEq, Eq, Debug)]
pub struct Receipt {
    pub shard: usize,
    pub position: u64,
}
