//! What a log has of a step.

use crate::machine::Machine;

/// A step that was made, and what it gave.
#[derive(Drop)]
pub struct Entry<S, O> {
    pub step: S,
    pub outcome: O,
}

/// An entry of a machine's log.
pub type EntryOf<M> = Entry<<M as Machine>::Step, <M as Machine>::Outcome>;
