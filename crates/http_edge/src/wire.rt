//! Reading into a buffer, and writing.
ghost use Rattle.std.specs.Prelude.{◌≡◌, ◌≢◌, ℕ, ◌+◌, ◌-◌, ◌/◌, ◌<◌, ◌≤◌, List, [], ◌++◌, length, drop, IfOk, OnOk, OnErr, IsTrue, true, false, Ok, Err, vec_len, vec_capacity};
ghost use Rattle.httparse.specs.Pieces.{is_newline};
ghost use Rattle.http_edge.specs.Chunks.{has_line_end, has_text};
ghost use Rattle.http_edge.specs.Limits.{max_part, max_read};
ghost use Rattle.http_line.specs.Line.{Moves};
ghost use Rattle.http_edge.specs.Steps.{work, HasFailed};
ghost use Rattle.http_edge.specs.Fault.{fault_number};
ghost use Rattle.http_edge.specs.declared.wire.EdgeFault.TheVariants.{ReadFailed, WriteFailed, OutOfMemory};

use crate::limits::MAX_PART;
use http_line::{Line, LineFailed};
use std::alloc::AllocError;
use thiserror::Error;

/// Why an edge gave up. The line is given up with it.
#[derive(Clone, Copy, Debug, Drop, PartialEq, Eq, Error)]
pub enum EdgeFault {
    /// A read failed. What was written is a beginning of what was due.
    #[error("a read failed")]
    ReadFailed,
    /// A write failed. What was written is a beginning of what was due.
    #[error("a write failed")]
    WriteFailed,
    /// A growth was refused. What was written is a beginning of what was due.
    #[error("out of memory")]
    OutOfMemory,
}

impl EdgeFault {
    /// The fault's number, 30 or 31. Want of memory has none.
    pub fn number(self) -> Option<u32>
        ensures { result ≡ fault_number self }
    {
        match self {
            EdgeFault::ReadFailed => Some(30),
            EdgeFault::WriteFailed => Some(31),
            EdgeFault::OutOfMemory => None,
        }
    }
}

impl From<AllocError> for EdgeFault {
    ghost from_gives = { λ _ e. e ≡ OutOfMemory };

    fn from(_: AllocError) -> EdgeFault {
        EdgeFault::OutOfMemory
    }
}

/// What a connection reads through. It is small, since each one that is open has its own.
pub(crate) type Room = [u8; 8192];

/// A head, a chunk and an answer are read in so many bytes at most, so that little is behind what is looked at.
pub(crate) const READ_AT_MOST: usize = 4096;

/// What an answer is read through.
pub(crate) type AnswerRoom = [u8; 4096];

/// Reads once, through this room, to the end of the buffer, and says whether a byte came.
pub(crate) fn fill<L: Line>(
    line: &mut L,
    buffer: &mut Vec<u8>,
    room: &mut [u8],
) -> Result<bool, EdgeFault>
    requires some { 0 < length room.old }
    requires most { length room.old ≤ max_read }
    ensures on_success { OnOk result ((read : List ℕ)
        × Moves L.gives L.takes line.old line.new read []
        × (buffer.new.items ≡ buffer.old.items ++ read)) }
    ensures on_error { OnErr result ((read : List ℕ)
        × Moves L.gives L.takes line.old line.new read []) }
    ensures unread { result ≡ Err EdgeFault.ReadFailed
        → Moves L.gives L.takes line.old line.new [] []
        × (buffer.new.items ≡ buffer.old.items) }
    ensures end { IfOk result (λ more. more ≡ false → (buffer.new.items ≡ buffer.old.items)
        × (L.ends line.old < L.ends line.new)) }
    ensures more { result ≡ Ok true → L.ends line.new ≡ L.ends line.old }
    ensures quiet { result ≡ Ok false → Moves L.gives L.takes line.old line.new [] [] }
    ensures bound { OnOk result (length buffer.new.items ≤ length buffer.old.items + length
        room.old) }
    ensures reads { OnOk result (L.reads_left line.new < L.reads_left line.old) }
    ensures work { OnOk result (work (L.reads_left line.new) buffer.new.items < work
        (L.reads_left line.old) buffer.old.items) }
    ensures ends { L.ends line.old ≤ L.ends line.new }
    ensures stops { L.ends line.new ≤ L.ends line.old + 1 }
    ensures kept { OnOk result (L.failed line.new ≡ L.failed line.old) }
    ensures unfailed { result ≡ Err EdgeFault.OutOfMemory → L.failed line.new ≡ L.failed line.old }
    ensures roomy { vec_len buffer.old + length room.old ≤ vec_capacity buffer.old
        → result ≢ Err EdgeFault.OutOfMemory }
    ensures failed { result ≡ Err EdgeFault.ReadFailed
        → HasFailed (L.failed line.old) (L.failed line.new) }
    ensures no_write { result ≢ Err EdgeFault.WriteFailed }
{
    match line.read_some(room) {
        Ok(count) => {
            buffer.extend_from_slice(&room[..count])?;
            Ok(count > 0)
        }
        Err(LineFailed) => Err(EdgeFault::ReadFailed),
    }
}

/// Reads once, up to so many bytes, straight to the end of the buffer, and says whether a byte came.
pub(crate) fn fill_behind<L: Line>(
    line: &mut L,
    buffer: &mut Vec<u8>,
    most: usize,
) -> Result<bool, EdgeFault>
    requires some { 0 < most }
    requires most { most ≤ max_read }
    ensures on_success { OnOk result ((read : List ℕ)
        × Moves L.gives L.takes line.old line.new read []
        × (buffer.new.items ≡ buffer.old.items ++ read)) }
    ensures on_error { OnErr result ((read : List ℕ)
        × Moves L.gives L.takes line.old line.new read []) }
    ensures unread { result ≡ Err EdgeFault.ReadFailed
        → Moves L.gives L.takes line.old line.new [] [] }
    ensures more { result ≡ Ok true → L.ends line.new ≡ L.ends line.old }
    ensures quiet { result ≡ Ok false → Moves L.gives L.takes line.old line.new [] [] }
    ensures end { result ≡ Ok false → L.ends line.old < L.ends line.new }
    ensures bound { OnOk result (length buffer.new.items ≤ length buffer.old.items + most) }
    ensures reads { OnOk result (L.reads_left line.new < L.reads_left line.old) }
    ensures ends { L.ends line.old ≤ L.ends line.new }
    ensures stops { L.ends line.new ≤ L.ends line.old + 1 }
    ensures kept { OnOk result (L.failed line.new ≡ L.failed line.old) }
    ensures unfailed { result ≡ Err EdgeFault.OutOfMemory → L.failed line.new ≡ L.failed line.old }
    ensures failed { result ≡ Err EdgeFault.ReadFailed
        → HasFailed (L.failed line.old) (L.failed line.new) }
    ensures no_write { result ≢ Err EdgeFault.WriteFailed }
{
    let come = buffer.len();
    buffer.resize(come + most, 0)?;
    match line.read_some(&mut buffer[come..]) {
        Ok(count) => {
            buffer.truncate(come + count);
            Ok(count > 0)
        }
        Err(LineFailed) => Err(EdgeFault::ReadFailed),
    }
}

/// When to look at the front of a buffer again, to which bytes are added: where a line has ended, where they are twice
/// as many as at the last look, and where they are too many. So what is looked at anew stays in proportion to what
/// comes.
#[derive(Drop)]
pub(crate) struct Watch {
    /// The bytes up to here were searched for the end of a line.
    seen: usize,
    /// So many bytes there were at the last look.
    looked: usize,
    /// A byte came that isn't of an empty line before a head.
    is_begun: bool,
}

impl Watch {
    /// Before a head, where empty lines may come.
    pub fn before_head() -> Watch
        ensures seen { result.seen ≡ 0 }
        ensures looked { result.looked ≡ 0 }
        ensures begun { result.is_begun ≡ false }
    {
        Watch {
            seen: 0,
            looked: 0,
            is_begun: false,
        }
    }

    /// In a body, where each line counts.
    pub fn within_body() -> Watch
        ensures seen { result.seen ≡ 0 }
        ensures looked { result.looked ≡ 0 }
        ensures begun { result.is_begun ≡ true }
    {
        Watch {
            seen: 0,
            looked: 0,
            is_begun: true,
        }
    }

    /// Whether it is time for a look, as it always is at the end of the input.
    pub fn is_due(&mut self, bytes: &[u8], ended: bool) -> bool
        ensures end { ended ≡ true → result ≡ true }
        ensures long { max_part ≤ length bytes.now → result ≡ true }
        ensures doubled { self.old.looked ≤ length bytes.now / 2 → result ≡ true }
        ensures seen { self.new.seen ≡ length bytes.now }
        ensures looked { result ≡ true → self.new.looked ≡ length bytes.now }
        ensures kept { result ≡ false → self.new.looked ≡ self.old.looked }
        ensures line { self.new.is_begun ≡ true → self.old.seen ≤ length bytes.now
            → has_line_end (drop self.old.seen bytes.now) ≡ true → result ≡ true }
        ensures blank { self.new.is_begun ≡ false → self.old.seen ≤ length bytes.now
            → has_text (drop self.old.seen bytes.now) ≡ false }
        ensures begun { self.old.is_begun ≡ true → self.new.is_begun ≡ true }
    {
        let fresh = &bytes[self.seen.min(bytes.len())..];
        self.seen = bytes.len();
        self.is_begun |= has_text(fresh);
        // What takes time is asked last: the first look at a head's bytes is due without it.
        let is_due = ended
            || bytes.len() >= MAX_PART
            || bytes.len() / 2 >= self.looked
            || self.is_begun && fresh.contains(&b'\n');
        if is_due {
            self.looked = bytes.len();
        }
        is_due
    }

    /// So many bytes were dropped from the front.
    pub fn drop_front(&mut self, count: usize)
        ensures seen { self.new.seen ≡ self.old.seen - count }
        ensures looked { self.new.looked ≡ self.old.looked - count }
        ensures begun { self.new.is_begun ≡ self.old.is_begun }
    {
        self.seen = self.seen.saturating_sub(count);
        self.looked = self.looked.saturating_sub(count);
    }
}

/// Whether a byte came that isn't of a line's end.
fn has_text(bytes: &[u8]) -> bool
    ensures { result ≡ has_text bytes.now }
{
    bytes.iter().any(|b| !is_line_end(*b))
}

/// Whether the byte is one that ends a line.
pub(crate) fn is_line_end(b: u8) -> bool
    ensures { result ≡ is_newline b }
{
    b == b'\r' || b == b'\n'
}

/// Drops so many bytes from the front of the buffer, which keeps its room.
pub(crate) fn drop_front(buffer: &mut Vec<u8>, count: usize)
    requires { count ≤ length buffer.old.items }
    ensures { buffer.new.items ≡ drop count buffer.old.items }
{
    let len = buffer.len();
    if 0 < count && count < len {
        buffer.as_mut_slice().copy_within(count..len, 0);
    }
    buffer.truncate(len - count);
}

/// Writes all the bytes.
pub(crate) fn send<L: Line>(line: &mut L, bytes: &[u8]) -> Result<(), EdgeFault>
    ensures on_success { OnOk result (Moves L.gives L.takes line.old line.new []
        bytes.now) }
    ensures on_error { OnErr result ((front : List ℕ) × (missing : List ℕ)
        × (bytes.now ≡ front ++ missing)
        × Moves L.gives L.takes line.old line.new [] front) }
    ensures end { L.ends line.new ≡ L.ends line.old }
    ensures reads { L.reads_left line.new ≡ L.reads_left line.old }
    ensures kept { OnOk result (L.failed line.new ≡ L.failed line.old) }
    ensures failed { result ≡ Err EdgeFault.WriteFailed
        → HasFailed (L.failed line.old) (L.failed line.new) }
    ensures no_read { result ≢ Err EdgeFault.ReadFailed }
    ensures no_memory { result ≢ Err EdgeFault.OutOfMemory }
{
    let mut at = 0;
    'pieces: while at < bytes.len() {
        match line.write_some(&bytes[at..]) {
            Ok(count) => at += count,
            Err(LineFailed) => return Err(EdgeFault::WriteFailed),
        }
    }
    Ok(())
}
