//! Batches that were handed out and aren't settled yet.

ghost use Rattle.std.specs.Prelude.{◌≡◌, ◌≤◌, ◌^◌, None, IfOk};
ghost use Rattle.send_retry.specs.Class.{answer_view};
ghost use Rattle.send_retry.specs.Delay.{state_view};
ghost use Rattle.send_queue.specs.View.{fate_view};
ghost use Rattle.send_queue.specs.Sender.{taken, fate_of};

use crate::batch::Batch;
use crate::settled::Settled;
use send_retry::{Answer, NextDelay, RetryState, Verdict, classify, next_delay};
use std::alloc::AllocError;

/// A batch that was handed out and isn't settled.
#[derive(Drop)]
pub(crate) struct Active {
    pub(crate) batch: Batch,
    pub(crate) retry: RetryState,
    // When it is sent again, in milliseconds; none while it is in flight.
    pub(crate) due: Option<u64>,
}

/// A batch that waits to be sent again: from when on, in milliseconds, and the ticket that it had last.
#[derive(Clone, Copy, Debug, PartialEq, Eq, PartialOrd, Ord)]
pub(crate) struct Retry {
    pub(crate) due: u64,
    pub(crate) ticket: u64,
}

/// What an answer makes of a batch.
#[derive(Clone, Copy)]
pub(crate) enum Fate {
    /// It is no longer active.
    Leaves(Settled),
    /// It is sent again from the moment `due` on; `state` is for the answer to that attempt.
    Waits { due: u64, state: RetryState },
}

/// How many spans the back end took and how many it didn't, where it says that it rejected so many.
fn taken(spans: u64, rejected: u64) -> Settled
    ensures { result ≡ taken spans rejected }
{
    let rejected = rejected.min(spans);
    Settled::Taken {
        exported: spans - rejected,
        rejected,
    }
}

impl Active {
    /// A batch that is sent for the first time.
    pub(crate) fn new(batch: Batch, retry: RetryState) -> Active
        ensures { result ≡ record { batch = batch; retry = retry; due = None } }
    {
        Active {
            batch,
            retry,
            due: None,
        }
    }

    /// The batch as it is when it is sent again. Its payload is shared and not copied.
    pub(crate) fn sent_again(&self) -> Result<Active, AllocError>
        ensures { IfOk result (λ active. active ≡ record self.now { due = None }) }
    {
        let batch = self.batch.clone()?;
        Ok(Active::new(batch, self.retry))
    }

    /// What an answer at the moment `now`, in milliseconds, makes of the batch; the word picks the delay.
    pub(crate) fn fate(&self, now: u64, word: u32, answer: &Answer) -> Fate
        requires moment { now ≤ 2 ^ 62 }
        ensures { fate_view result ≡
            fate_of (state_view self.now.retry) self.now.batch.spans now word
            (answer_view answer.now) }
    {
        let spans = self.batch.spans;
        match classify(answer) {
            Verdict::Taken { rejected } => Fate::Leaves(taken(spans, rejected)),
            Verdict::Never => Fate::Leaves(Settled::Refused { spans }),
            Verdict::Again { wait_s } => match next_delay(&self.retry, now, word, wait_s) {
                NextDelay::GiveUp => Fate::Leaves(Settled::Exhausted { spans }),
                NextDelay::Delay { due, state } => Fate::Waits { due, state },
            },
        }
    }
}
