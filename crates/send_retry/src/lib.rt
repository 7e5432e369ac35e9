//! What becomes of a batch that was sent.
//!
//! [`classify`] says what a back end's answer means: the batch is taken but for some spans, is to be sent again, or
//! never. Where it is to be sent again, [`next_delay`] says when, or that it was tried for too long. Both take no
//! memory, and their results are functions of what they are given (`specs/Class`, `specs/Delay`), so that a batch's
//! fate can be told from its answers.
//!
//! It stands on `otlp_read`, for what a reply's body says, and on `tail_settings`, for a tenant's table
//! `retry_on_failure`. Rules are those of OTLP/HTTP's specification and of the OpenTelemetry Collector's
//! exporterhelper.
#![tactic(auto)]

ghost use Rattle.send_retry.specs.Law.{RefusalsAreForGood, SuccessesAreTaken, PickedAreNear, LateIsPastTheEnd};

mod answer;
mod delay;
mod state;

pub use answer::{Answer, Verdict, classify, equal_answers, equal_verdicts};
pub use delay::{NextDelay, next_delay};
pub use state::RetryState;

/// A batch is refused for good by an answer whose status is no success and none of 429, 502, 503 and 504, and by no
/// other: a law over the definitions.
pub fn refusals_are_for_good()
    ensures { RefusalsAreForGood }
{}

/// A batch is taken, but for the spans that the answer's body says were refused, by an answer whose status is a success
/// (2xx), and by no other: a law over the definitions.
pub fn successes_are_taken()
    ensures { SuccessesAreTaken }
{}

/// The words of 32 bits pick the delays that lie no further from the interval than its spread, each of them and no
/// other: a law over the definitions.
pub fn delays_are_near()
    ensures { PickedAreNear }
{}

/// An attempt comes too late where `max_elapsed_time` isn't 0 and that long after the first job lies before it, and
/// nowhere else: a law over the definitions.
pub fn late_is_past_the_end()
    ensures { LateIsPastTheEnd }
{}
