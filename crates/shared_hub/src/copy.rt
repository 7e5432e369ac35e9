//! A copy of what a back end answered.

ghost use Rattle.std.specs.Prelude.{◌≡◌, IfOk};
ghost use Rattle.send_retry.specs.Class.{answer_view};

use send_retry::Answer;
use std::alloc::AllocError;

/// The same answer.
pub(crate) fn copy_of(answer: &Answer) -> Result<Answer, AllocError>
    ensures { IfOk result (λ copy. answer_view copy ≡ answer_view answer.now) }
{
    match answer {
        Answer::Http {
            status,
            retry_after,
            body,
        } => Ok(Answer::Http {
            status: *status,
            retry_after: *retry_after,
            body: body.clone()?,
        }),
        Answer::Failed => Ok(Answer::Failed),
    }
}
