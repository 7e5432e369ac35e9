//! What two policies keep.

/// What two policies keep, side by side.
#[derive(Drop)]
pub struct BothNotes<M, N> {
    pub first: M,
    pub second: N,
}
