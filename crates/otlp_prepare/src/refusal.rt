//! Why a body isn't posted.

ghost use Rattle.std.specs.Prelude.{◌≡◌};
ghost use Rattle.otlp_prepare.specs.Prepared.{refusal_of};
ghost use Rattle.otlp_prepare.specs.declared.refusal.Refusal.TheVariants as refusal;

use otlp_read::ReadFault;
use std::alloc::AllocError;
use thiserror::Error;

/// Why a body isn't posted.
#[derive(Clone, Copy, Debug, PartialEq, Eq, Error)]
pub enum Refusal {
    /// The body has no value.
    #[error("bad protobuf")]
    Bad(ReadFault),
    /// A growth was refused, which says nothing of the body.
    #[error("out of memory")]
    OutOfMemory,
}

impl From<AllocError> for Refusal {
    ghost from_gives = { λ _ given. given ≡ refusal.OutOfMemory };

    fn from(_error: AllocError) -> Refusal {
        Refusal::OutOfMemory
    }
}

impl From<ReadFault> for Refusal {
    ghost from_gives = { λ fault given. given ≡ refusal_of fault };

    fn from(fault: ReadFault) -> Refusal {
        match fault {
            ReadFault::OutOfMemory => Refusal::OutOfMemory,
            _ => Refusal::Bad(fault),
        }
    }
}
