//! The faults with which a service ends.

ghost use Rattle.std.specs.Prelude.{◌≡◌};
ghost use Rattle.std.specs.IoError.{error_kind};
ghost use Rattle.service_control.specs.Fault.{IsOfLine, of_hub};
ghost use Rattle.service_control.specs.declared.fault.ServiceFault.TheVariants as faults;

use shared_hub::HubFault;
use std::alloc::AllocError;
use std::io;
use std::io::ErrorKind;
use thiserror::Error;

/// The fault with which a service ended.
#[derive(Clone, Copy, Debug, Drop, PartialEq, Eq, Error)]
pub enum ServiceFault {
    /// The clock or the input failed.
    #[error("input or output fault")]
    Line,
    /// An allocation failed.
    #[error("out of memory")]
    OutOfMemory,
    /// A thread couldn't be started.
    #[error("no thread")]
    NoThread,
}

impl From<AllocError> for ServiceFault {
    ghost from_gives = { λ _ given. given ≡ faults.OutOfMemory };

    fn from(_error: AllocError) -> ServiceFault {
        ServiceFault::OutOfMemory
    }
}

/// Of the input's faults only an allocation failure has a fault of its own.
impl From<io::Error> for ServiceFault {
    ghost from_gives = { λ error given. IsOfLine (error_kind error) given };

    fn from(error: io::Error) -> ServiceFault {
        if error.kind() == ErrorKind::OutOfMemory {
            ServiceFault::OutOfMemory
        } else {
            ServiceFault::Line
        }
    }
}

/// Of a hub's faults only an allocation failure occurs.
impl From<HubFault> for ServiceFault {
    ghost from_gives = { λ fault given. given ≡ of_hub fault };

    fn from(fault: HubFault) -> ServiceFault {
        match fault {
            HubFault::OutOfMemory => ServiceFault::OutOfMemory,
            HubFault::Behind { .. } | HubFault::OtherEntry { .. } => ServiceFault::Line,
        }
    }
}
