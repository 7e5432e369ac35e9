//! Why a call changed nothing.

ghost use Rattle.std.specs.Prelude.{◌≡◌};

use crate::batch::Batch;
use thiserror::Error;

/// Why a batch wasn't taken into the queue. It comes back.
#[derive(Debug, Drop, Error)]
pub enum OfferFault {
    /// As many batches wait as may, or with this one they would have more bytes than they may.
    #[error("the sending queue is full")]
    Full(Batch),
    /// Memory was refused.
    #[error("out of memory")]
    OutOfMemory(Batch),
}

/// Why an answer settles nothing.
#[derive(Clone, Copy, Debug, PartialEq, Eq, Error)]
pub enum SettleFault {
    /// No batch is in flight under the ticket: it wasn't handed out, or was answered already.
    #[error("unknown ticket")]
    UnknownTicket,
}

impl SettleFault {
    /// The fault's number.
    pub fn number(self) -> u32
        ensures { result ≡ 21 }
    {
        match self {
            SettleFault::UnknownTicket => 21,
        }
    }
}
