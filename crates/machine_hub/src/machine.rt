//! What makes steps.

use std::alloc::{AllocError, Global};

/// A state machine. A call names a step, but for what only the machine knows, as the next of its random words.
pub trait Machine: Drop + Send {
    ghost use Rattle.std.specs.Prelude.{◌≡◌, IfOk, OnErr};

    /// What a caller asks for.
    type Call: Drop;

    /// A step that was made.
    type Step: Drop + Send + Sync;

    /// What a step gave.
    type Outcome: Drop + Send + Sync;

    /// What can be asked of a state without a step.
    type Question: Drop;

    /// What a question is told.
    type Reading: Drop;

    // a state of no meaning, which stands in clauses before there is a machine
    ghost nowhere: { Self };

    // the step is one that the call asks for
    ghost asks: { Self.Call → Self.Step → Type 0 };

    // the step leads from one state to another, and gives that outcome
    ghost steps: { Self → Self.Step → Self.Outcome → Self → Type 0 };

    // want of memory at a call may leave a state so
    ghost loses: { Self.Call → Self → Self → Type 0 };

    // a question may be told this in a state
    ghost reads: { Self → Self.Question → Self.Reading → Type 0 };

    /// Makes one step. Where memory is refused the step isn't done.
    fn make(
        &mut self,
        alloc: Global,
        call: Self::Call,
    ) -> Result<(Self::Step, Self::Outcome), AllocError>
        ensures asked { IfOk result (λ made. asks call made.0) }
        ensures made { IfOk result (λ made. steps self.old made.0 made.1 self.new) }
        ensures lost { OnErr result (loses call self.old self.new) };

    /// What the question is told. It changes nothing.
    fn tell(&self, question: &Self::Question) -> Self::Reading
        ensures { reads self.now question.now result };

    /// A copy of an outcome.
    fn copied(outcome: &Self::Outcome) -> Result<Self::Outcome, AllocError>
        ensures { IfOk result (λ copy. copy ≡ outcome.now) };
}
