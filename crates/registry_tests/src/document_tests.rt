//! Documents that are read, and why there is none.

use service_runtime::Documents;
use std::alloc::Global;
use std::io;
use std::io::ErrorKind;
use tail_settings::SettingsFault;
use tenant_registry::{NotAdded, document};

/// Has a file with a text, one whose bytes are none, and one for which there is no memory.
#[derive(Drop)]
struct Shelf;

impl Documents for Shelf {
    ghost reads = { λ _ _. Unit {0} };

    fn read_document(&self, alloc: Global, path: &str) -> io::Result<Vec<u8>> {
        match path {
            "/shop é.toml" => Ok(Vec::from_slice(alloc, b"tenant = []\n")?),
            "/bytes" => Ok(Vec::from_slice(alloc, b"\xff")?),
            "/large" => Err(io::Error::from(ErrorKind::OutOfMemory)),
            _ => Err(io::Error::from(ErrorKind::NotFound)),
        }
    }
}

/// Whether a document is read at this path, and has this text.
fn has_text(alloc: Global, path: &str, wanted: &str) -> Result<bool, NotAdded> {
    let text = document(&Shelf, alloc, path.as_bytes())?;
    Ok(text.as_str() == wanted)
}

/// Why no document is read at this path. None where one is.
fn why_not(alloc: Global, path: &[u8]) -> Option<NotAdded> {
    match document(&Shelf, alloc, path) {
        Ok(_) => None,
        Err(why) => Some(why),
    }
}

/// Where a file can't be read, or has no text, what is told is that it has no document: 10 (docs/SETTINGS.md).
#[test]
fn a_document_is_read_or_why_not_is_told(rt: HostRuntime) {
    let alloc = rt.alloc();
    assert!(rt; has_text(alloc, "/shop é.toml", "tenant = []\n").expect(&rt, "a document"));
    let no_document = Some(NotAdded::Refused(10));
    assert!(rt;
        why_not(alloc, b"/bytes") == no_document
            && why_not(alloc, b"/none") == no_document
            && why_not(alloc, b"/\xff") == no_document
            && why_not(alloc, b"/large") == Some(NotAdded::OutOfMemory)
    );
}

#[test]
fn a_fault_of_settings_is_told_by_its_number(rt: HostRuntime) {
    let fault = NotAdded::from(SettingsFault::WrongKind("name"));
    let no_memory = NotAdded::from(SettingsFault::OutOfMemory);
    assert!(rt; fault == NotAdded::Refused(12) && no_memory == NotAdded::OutOfMemory);
}
