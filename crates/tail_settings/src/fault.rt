//! Why a document gives no settings.

ghost use Rattle.std.specs.Prelude.{◌≡◌, ◌↔◌, true, option_map};
ghost use Rattle.tail_settings.specs.declared.fault.SettingsFault.TheVariants.{OutOfMemory};

use std::alloc::{AllocError, AllocFailed};
use thiserror::Error;

/// Why a document gives no settings. Each fault of the document has a number, which its text says.
#[derive(Debug, Drop, PartialEq, Error)]
pub enum SettingsFault {
    /// The text is no TOML document.
    #[error("settings fault 10")]
    NotToml,
    /// A key that has to be there is missing.
    #[error("settings fault 11 {0}")]
    MissingKey(&'static str),
    /// The key's value, or a member of its array, is of another kind.
    #[error("settings fault 12 {0}")]
    WrongKind(&'static str),
    /// The key's value isn't one that the key allows.
    #[error("settings fault 13 {0}")]
    OutOfRange(&'static str),
    /// A second tenant of this name.
    #[error("settings fault 14 {0}")]
    DoubleTenant(String),
    /// More than 1,000 tenants, more than 64 policies of one tenant that hold no other, or a sum of `max_spans` above
    /// 2,147,483,648.
    #[error("settings fault 15")]
    TooMany,
    /// Memory was refused, which says nothing of the document.
    #[error("out of memory")]
    OutOfMemory,
}

impl SettingsFault {
    ghost use Rattle.tail_settings.specs.Fault.{fault_view, fault_number};

    /// The fault's number, 10 to 15. Refused memory has none.
    pub fn number(&self) -> Option<u32>
        ensures { result ≡ option_map fault_number (fault_view self.now) }
    {
        match self {
            SettingsFault::NotToml => Some(10),
            SettingsFault::MissingKey(_) => Some(11),
            SettingsFault::WrongKind(_) => Some(12),
            SettingsFault::OutOfRange(_) => Some(13),
            SettingsFault::DoubleTenant(_) => Some(14),
            SettingsFault::TooMany => Some(15),
            SettingsFault::OutOfMemory => None,
        }
    }
}

ghost use Rattle.tail_settings.specs.Fault.{fault_view};

/// Faults are equal where they say the same of the document; refused memory says nothing of it.
pub fn equal_faults()
    ensures { (a b : SettingsFault) → (⟦<SettingsFault as PartialEq>⟧.eq a b ≡ true) ↔
        (fault_view a ≡ fault_view b) }
{}

impl From<AllocError> for SettingsFault {
    ghost from_gives = { λ _ e. e ≡ OutOfMemory };

    fn from(_error: AllocError) -> SettingsFault {
        SettingsFault::OutOfMemory
    }
}

impl<T: Drop> From<AllocFailed<T>> for SettingsFault {
    ghost from_gives = { λ _ e. e ≡ OutOfMemory };

    fn from(_error: AllocFailed<T>) -> SettingsFault {
        SettingsFault::OutOfMemory
    }
}
