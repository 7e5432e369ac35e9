//! What a span changed.

/// A span that joined a row: the key that it lies at, and what was noted of the row's spans until then.
#[derive(Drop)]
pub struct Joining<N> {
    /// The span's key.
    pub key: u32,
    /// The row's note before this span.
    pub former: N,
}

/// A span that opened a row: the key that it lies at, and the trace's latest row until then.
#[derive(Clone, Copy, Debug, PartialEq, Eq)]
pub struct Opening {
    /// The span's key.
    pub key: u32,
    /// The number of the trace's latest row before this one.
    pub earlier: Option<u64>,
}

/// What one span changed, so that it can be taken back.
#[derive(Drop)]
pub enum UndoEntry<N> {
    /// Nothing.
    Left,
    /// It joined a row: the row's number, and its note until then. The span's key is the row's latest.
    Joined(u64, N),
    /// It opened a row: the row's number, the span's key, and the latest row of its trace until then.
    Opened(u64, u32, Option<u64>),
    /// It came late to a row that was sampled, and waits for a batch: its key.
    Late(u32),
}
