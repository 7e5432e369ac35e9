//! A tenant's batches on their way to its back end.
//!
//! A batch waits in a queue until a consumer is free. Then it is handed out as a job, under a ticket, and stays active
//! until the back end's answer settles it: it is exported, refused, or waits to be sent again, under another ticket,
//! until it was tried for too long. A [`SendQueue`] is the state of one tenant: it says which batch is handed out next,
//! what an answer makes of it, and when there is something to hand out. It sends nothing itself, and moments, answers
//! and the words that pick delays come in as values, so what it says is a function of what it was told
//! (`specs/Sender`). Moments are milliseconds.
//!
//! It stands on `send_retry`, for what an answer means and when a batch is sent again, on `tail_settings`, for a
//! tenant's tables `sending_queue` and `retry_on_failure`, and on the library's `bytes`. How many batches wait and how
//! many are sent at a time follow the OpenTelemetry Collector's exporterhelper; tickets, and which job is next, are
//! this project's own rule.
#![tactic(auto)]

mod active;
mod actives;
mod batch;
mod fault;
mod law;
mod queue;
mod settled;

pub use batch::Batch;
pub use fault::{OfferFault, SettleFault};
pub use law::offers_are_undone;
pub use queue::SendQueue;
pub use settled::Settled;
