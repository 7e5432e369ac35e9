//! What a question is told.

/// The answer to a question, at one moment of the call.
#[derive(Debug, Drop)]
pub struct Told<A> {
    pub answer: A,
    /// Whether the machine was refused memory before that moment.
    pub stopped: bool,
}
