//! The memory that the process has.

ghost use Rattle.std.specs.Prelude.{◌≡◌};
ghost use Rattle.service_runtime.specs.Resident.{resident_in};

use crate::proc_text::number_behind;
use std::fs::File;
use std::io::{Read, Seek, SeekFrom};
use std::sync::{Mutex, Wait};

/// So many bytes of the file are read, in which the figure stands.
const ROOM: usize = 4096;

/// Behind this stands the figure, in a text as that of /proc/self/status.
const TITLE: &[u8] = b"\nVmRSS:";

/// Behind the figure stands this, which is 1,024 bytes.
const UNIT: &[u8] = b" kB";

/// How many bytes of memory the process has, by Linux's `/proc/self/status`. None where that doesn't tell it.
pub fn resident_bytes<R: Wait>(rt: &R, status: &Mutex<File>) -> Option<u64> {
    let mut file = status.lock(rt);
    let _place = file.seek(SeekFrom::Start(0)).ok()?;
    let mut room = [0; ROOM];
    let count = file.read(&mut room).ok()?;
    resident_in(&room[..count])
}

/// How many bytes of memory a process has by the text of that file, which has a line as `VmRSS:     5432 kB`.
fn resident_in(text: &[u8]) -> Option<u64>
    ensures { result ≡ resident_in text.now }
{
    match number_behind(text, TITLE, UNIT) {
        Some(kibibytes) => Some(kibibytes * 1024),
        None => None,
    }
}
