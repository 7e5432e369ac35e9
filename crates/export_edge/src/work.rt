//! What turners and senders work with.
ghost use Rattle.std.specs.Prelude.{OnOk, OnErr};
ghost use Rattle.send_retry.specs.Class.{answer_view};
ghost use Rattle.export_edge.specs.Work.{Turn, turn_at, Given, given, BeatCall, looked, gave, paused};

use job_lane::Job;
use send_retry::Answer;

/// What a turn came to.
#[derive(Drop)]
pub enum TurnResult {
    /// A job is to be sent.
    Job(Job),
    /// Something was done, and no job came of it: another turn may be worth while at once.
    Worked,
    /// There was nothing to do, or memory was refused: another turn is worth while after a pause.
    Idle,
}

/// Makes turns: where jobs come from.
pub trait JobSource {
    // From the first state a turn comes to this at its moment, and the second state is left.
    ghost turns: { Self → Turn → Self → Type 0 };

    /// Makes one turn at the moment `now`, in milliseconds.
    fn turn(&mut self, now: u64) -> TurnResult
        ensures { turns self.old (turn_at now result) self.new };
}

/// An answer was not taken, since memory was refused. It is to be handed in again.
#[derive(Clone, Copy, Debug, Drop)]
pub struct AnswerRefused;

/// Takes answers of back ends: where answers go.
pub trait AnswerSink {
    // From the first state the answer is taken, and the second state is left.
    ghost takes: { Self → Given → Self → Type 0 };

    // From the first state the answer isn't taken, and the second state is left.
    ghost refuses: { Self → Given → Self → Type 0 };

    /// Hands in the answer to the tenant's job with this ticket at the moment `now`, in milliseconds.
    fn answer(
        &mut self,
        tenant: u32,
        now: u64,
        ticket: u64,
        answer: &Answer,
    ) -> Result<(), AnswerRefused>
        ensures taken { OnOk result (takes self.old
            (given tenant now ticket (answer_view answer.now)) self.new) }
        ensures on_refusal { OnErr result
            (refuses self.old (given tenant now ticket (answer_view answer.now)) self.new) };
}

/// To what turners and senders work: what the moment is, and when their work is over.
pub trait Beat {
    // From the first state it is called so, and the second state is left.
    ghost calls: { Self → BeatCall → Self → Type 0 };

    /// Whether the work is over. A sender that has a job sends it nevertheless.
    fn is_over(&mut self) -> bool
        ensures { calls self.old (looked result) self.new };

    /// The moment, in milliseconds.
    fn now(&mut self) -> u64
        ensures { calls self.old (gave result) self.new };

    /// Waits a while, about a millisecond, before the next attempt.
    fn pause(&mut self)
        ensures { calls self.old paused self.new };
}
