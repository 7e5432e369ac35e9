//! What such a machine is asked for, and which steps it makes.

use send_retry::Answer;
use tenant_shard::Step;

/// What a caller asks for. A moment is in milliseconds.
#[derive(Drop)]
pub enum Call {
    /// A step as it stands, also an answer with a word of the caller's.
    Step(Step),
    /// A tenant's back end answers the job of a ticket. The tenant's generator gives the word that picks the delay
    /// before another attempt.
    Answer {
        tenant: u32,
        now: u64,
        ticket: u64,
        answer: Answer,
    },
}

/// Where a step's word is from.
#[derive(Clone, Copy, Debug)]
pub enum WordSource {
    /// The caller handed in the step, with its word if it has one.
    Caller,
    /// The step's tenant has drawn it.
    Generator,
    /// The step's tenant has no generator, since it is no member: the word is 0.
    Nobody,
}

/// A step that was made.
#[derive(Drop)]
pub struct LoggedStep {
    pub step: Step,
    pub word: WordSource,
}
