//! Documents of those who are to come, and why nobody came.

ghost use Rattle.std.specs.Prelude.{◌≡◌, Ok, IfOk, IfErr, string_bytes};
ghost use Rattle.std.specs.IoError.{error_kind};
ghost use Rattle.tail_settings.specs.Fault.{fault_view};
ghost use Rattle.tenant_registry.specs.Documents.{IsOfReading, IsUnread};
ghost use Rattle.tenant_registry.specs.NotAdded.{why_not};
ghost use Rattle.tenant_registry.specs.declared.documents.NotAdded.TheVariants as why;

use service_runtime::Documents;
use std::alloc::{AllocError, Global};
use std::io::ErrorKind;
use std::{io, str};
use tail_settings::SettingsFault;

/// What is told where a file can't be read, or has no text: that it has no document.
const NOT_READ: u8 = 10;

/// Why no tenant came.
#[derive(Clone, Copy, PartialEq, Eq, Debug)]
pub enum NotAdded {
    /// By the number of the fault of the file or its document, or of the shard's refusal.
    Refused(u8),
    /// There was no memory.
    OutOfMemory,
}

impl From<AllocError> for NotAdded {
    ghost from_gives = { λ _ given. given ≡ why.OutOfMemory };

    fn from(_error: AllocError) -> NotAdded {
        NotAdded::OutOfMemory
    }
}

/// Of a file only the want of memory is told apart.
impl From<io::Error> for NotAdded {
    ghost from_gives = { λ error given. IsOfReading (error_kind error) given };

    fn from(error: io::Error) -> NotAdded {
        if error.kind() == ErrorKind::OutOfMemory {
            NotAdded::OutOfMemory
        } else {
            NotAdded::Refused(NOT_READ)
        }
    }
}

impl From<SettingsFault> for NotAdded {
    ghost from_gives = { λ fault given. given ≡ why_not (fault_view fault) };

    fn from(fault: SettingsFault) -> NotAdded {
        match fault.number() {
            Some(number) => NotAdded::Refused(number as u8),
            None => NotAdded::OutOfMemory,
        }
    }
}

/// The text of the file at this path, or why there is none.
pub fn document<D: Documents>(documents: &D, alloc: Global, path: &[u8]) -> Result<String, NotAdded>
    ensures text { IfOk result (λ text. D.reads path.now (Ok (string_bytes text))) }
    ensures unread { IfErr result (λ why. IsUnread D.reads path.now why) }
{
    let Ok(path) = str::from_utf8(path) else {
        return Err(NotAdded::Refused(NOT_READ));
    };
    let bytes = documents.read_document(alloc, path)?;
    match String::from_utf8(bytes) {
        Ok(text) => Ok(text),
        Err(_) => Err(NotAdded::Refused(NOT_READ)),
    }
}
