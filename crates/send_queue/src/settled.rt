//! What became of a batch that was answered.

/// What an answer made of a batch. Each of the batch's spans is in one of the counts.
#[derive(Clone, Copy, Debug, PartialEq, Eq)]
pub enum Settled {
    /// The back end took so many of its spans and not the others. It is no longer active.
    Taken { exported: u64, rejected: u64 },
    /// It has so many spans, stays active, and is sent again from the moment `due` on, in milliseconds.
    Waits { spans: u64, due: u64 },
    /// It had so many spans, and the back end refused it for good. It is no longer active.
    Refused { spans: u64 },
    /// It had so many spans, and the next attempt would have come too late. It is no longer active.
    Exhausted { spans: u64 },
}
