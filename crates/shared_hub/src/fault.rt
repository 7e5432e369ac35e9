//! Why a call of a hub isn't answered.

ghost use Rattle.std.specs.Prelude.{◌≡◌};
ghost use Rattle.shared_hub.specs.declared.fault.HubFault.TheVariants as faults;

use crate::hub::SharedHub;
use crate::{Caller, HubKeeper};
use machine_hub::Receipt;
use std::alloc::AllocError;
use thiserror::Error;

/// Why a call isn't answered. Calls of this crate's hub answer want of memory alone: the other two have their numbers
/// for hubs of other kinds, whose logs may lose entries.
#[derive(Clone, Copy, Debug, PartialEq, Eq, Error)]
pub enum HubFault {
    /// A growth was refused. The step isn't done, unless it was its entry that found no room; the shard's log takes no
    /// more entries.
    #[error("out of memory")]
    OutOfMemory,
    /// A shard's log has no more than so many entries, and the caller has a receipt of one behind them.
    #[error("the log has {entries} entries")]
    Behind { entries: u64 },
    /// The entry of a receipt is another call's.
    #[error("another entry")]
    OtherEntry { receipt: Receipt },
}

impl HubFault {
    ghost use Rattle.shared_hub.specs.Fault.{fault_number};

    /// The fault's number, 27 or 28. Want of memory has none.
    pub fn number(self) -> Option<u32>
        ensures { result ≡ fault_number self }
    {
        match self {
            HubFault::OutOfMemory => None,
            HubFault::Behind { .. } => Some(27),
            HubFault::OtherEntry { .. } => Some(28),
        }
    }
}

impl From<AllocError> for HubFault {
    ghost from_gives = { λ _ given. given ≡ faults.OutOfMemory };

    fn from(_error: AllocError) -> HubFault {
        HubFault::OutOfMemory
    }
}

/// Not all callers came. All is handed back.
#[derive(Drop)]
pub struct CallersMissing {
    pub hub: SharedHub,
    pub keeper: HubKeeper,
    pub callers: Vec<Caller>,
}

impl CallersMissing {
    /// The refusal's number.
    pub fn number(&self) -> u32
        ensures { result ≡ 24 }
    {
        24
    }
}
