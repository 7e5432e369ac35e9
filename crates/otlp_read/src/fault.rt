//! Why nothing was read.

ghost use Rattle.std.specs.Prelude.{◌≡◌};
ghost use Rattle.otlp_read.specs.Fault.{fault_number, of_wire};
ghost use Rattle.otlp_read.specs.declared.fault.ReadFault.TheVariants.{OutOfMemory};

use pb_wire::WireFault;
use std::alloc::{AllocError, AllocFailed};
use thiserror::Error;

/// What is wrong with a body, or want of memory. Each fault of a body has a number.
#[derive(Clone, Copy, Debug, PartialEq, Eq, Error)]
pub enum ReadFault {
    /// The body, or a known message in it, ends inside a tag, a length or a value.
    #[error("the text ends inside a field")]
    Truncated,
    /// A tenth byte says that another follows.
    #[error("a number of more than ten bytes")]
    VarintTooLong,
    /// Field number 0, type 6 or 7, or a tag of 2^32 or more.
    #[error("a tag that no field has")]
    BadTag,
    /// A group's end without its start, with another number, or missing.
    #[error("a group's start and end don't match")]
    GroupMismatch,
    /// A known message or a group at depth 101, the body being at depth 0.
    #[error("nested deeper than 100 levels")]
    TooDeep,
    /// A known string isn't UTF-8.
    #[error("a string that isn't UTF-8")]
    NotUtf8,
    /// A growth was refused, which says nothing of the body.
    #[error("out of memory")]
    OutOfMemory,
}

impl ReadFault {
    /// The fault's number, 1 to 6. Want of memory has none.
    pub fn number(self) -> Option<u32>
        ensures { result ≡ fault_number self }
    {
        match self {
            ReadFault::Truncated => Some(1),
            ReadFault::VarintTooLong => Some(2),
            ReadFault::BadTag => Some(3),
            ReadFault::GroupMismatch => Some(4),
            ReadFault::TooDeep => Some(5),
            ReadFault::NotUtf8 => Some(6),
            ReadFault::OutOfMemory => None,
        }
    }
}

impl From<WireFault> for ReadFault {
    ghost from_gives = { λ wire fault. fault ≡ of_wire wire };

    fn from(fault: WireFault) -> ReadFault {
        match fault {
            WireFault::Truncated => ReadFault::Truncated,
            WireFault::VarintTooLong => ReadFault::VarintTooLong,
            WireFault::BadTag => ReadFault::BadTag,
            WireFault::GroupMismatch => ReadFault::GroupMismatch,
            WireFault::TooDeep => ReadFault::TooDeep,
        }
    }
}

impl From<AllocError> for ReadFault {
    ghost from_gives = { λ _ fault. fault ≡ OutOfMemory };

    fn from(_error: AllocError) -> ReadFault {
        ReadFault::OutOfMemory
    }
}

impl<T: Drop> From<AllocFailed<T>> for ReadFault {
    ghost from_gives = { λ _ fault. fault ≡ OutOfMemory };

    fn from(_error: AllocFailed<T>) -> ReadFault {
        ReadFault::OutOfMemory
    }
}
