//! The body of a message.
ghost use Rattle.std.specs.Prelude.{◌≡◌, ◌≢◌, ℕ, ◌+◌, ◌<◌, ◌≤◌, min, List, [], ◌++◌, length, drop, vec_capacity, IfOk, OnOk, OnErr, true, false, Err, Ok};
ghost use Rattle.http_edge.specs.Message.{sized, chunked, max_body, HasNoBody};
ghost use Rattle.http_edge.specs.Limits.{first_room, max_read};
ghost use Rattle.http_line.specs.Line.{Moves};
ghost use Rattle.http_edge.specs.Steps.{work, HasFailed};
ghost use Rattle.http_edge.specs.Stages.{frame_by, bytes_due, Gathers, IsAt, IsPieces, IsRead, IfWhole};

use crate::chunks::{ChunkedState, Piece, bytes_due, next_piece};
use crate::head::BodyKind;
use crate::limits::MAX_BODY;
use crate::wire::{EdgeFault, READ_AT_MOST, Room, Watch, drop_front, fill, fill_behind};
use http_line::Line;
use std::alloc::{AllocError, Global};

/// Room for so many bytes of a body is made before they come, so that a head alone takes no more.
const FIRST_ROOM: usize = 1_048_576;

/// So many bytes of a body the first read behind its head asks for, and any later one at most.
const FIRST_READ: usize = 16_384;

const MOST_READ: usize = 65_536;

/// What came of a body. A whole one that wasn't wanted is empty.
#[derive(Debug, Drop)]
pub(crate) enum BodyRead {
    Whole(Vec<u8>),
    TooLong,
    Bad,
    Ended,
}

/// Why there are no more pieces of a chunked body in the buffer.
#[derive(Clone, Copy, Debug, Drop, PartialEq, Eq)]
pub(crate) enum Pieces {
    End,
    More,
    TooLong,
    Bad,
}

/// A body in chunks as far as it has come: how many bytes, and these, where they are wanted.
#[derive(Drop)]
pub(crate) struct ChunkedBody {
    pub wanted: bool,
    pub len: usize,
    pub bytes: Vec<u8>,
}

impl ChunkedBody {
    /// Takes one piece more.
    fn add(&mut self, piece: &[u8]) -> Result<(), AllocError>
        requires { self.old.len + length piece.now ≤ max_body }
        ensures gathers { OnOk result ((body : List ℕ) → Gathers body self.old
            → Gathers (body ++ piece.now) self.new) }
        ensures len { OnOk result (self.new.len ≡ self.old.len + length piece.now) }
        ensures wanted { OnOk result (self.new.wanted ≡ self.old.wanted) }
    {
        if self.wanted {
            self.bytes.extend_from_slice(piece)?;
        }
        self.len += piece.len();
        Ok(())
    }
}

/// Reads the body that begins after so many bytes of the buffer, and takes it and them from there. One that isn't
/// wanted is let go of as it comes.
pub(crate) fn read_body<L: Line>(
    alloc: Global,
    line: &mut L,
    room: &mut Room,
    buffer: &mut Vec<u8>,
    from: usize,
    kind: BodyKind,
    wanted: bool,
) -> Result<BodyRead, EdgeFault>
    requires within { from ≤ length buffer.old.items }
    requires fits { (n : ℕ) → frame_by kind ≡ sized n → n ≤ max_body }
    ensures on_success { IfOk result (λ found. (read : List ℕ)
        × Moves L.gives L.takes line.old line.new read []
        × IsRead wanted (frame_by kind) (drop from buffer.old.items ++ read) buffer.new.items
        found) }
    ensures whole { IfOk result (λ found. IfWhole found (L.ends line.new ≡ L.ends line.old)) }
    ensures on_error { OnErr result ((read : List ℕ)
        × Moves L.gives L.takes line.old line.new read []) }
    ensures unread { result ≡ Err EdgeFault.ReadFailed → (read : List ℕ)
        × Moves L.gives L.takes line.old line.new read []
        × HasNoBody (frame_by kind) (drop from buffer.old.items ++ read) }
    ensures end { result ≡ Ok BodyRead.Ended → L.ends line.old < L.ends line.new }
    ensures work { OnOk result (work (L.reads_left line.new) buffer.new.items + from ≤ work
        (L.reads_left line.old) buffer.old.items) }
    ensures ends { L.ends line.old ≤ L.ends line.new }
    ensures stops { L.ends line.new ≤ L.ends line.old + 1 }
    ensures kept { OnOk result (L.failed line.new ≡ L.failed line.old) }
    ensures unfailed { result ≡ Err EdgeFault.OutOfMemory → L.failed line.new ≡ L.failed line.old }
    ensures failed { result ≡ Err EdgeFault.ReadFailed
        → HasFailed (L.failed line.old) (L.failed line.new) }
    ensures no_write { result ≢ Err EdgeFault.WriteFailed }
{
    match kind {
        BodyKind::Sized(len) => if wanted {
            read_sized(alloc, line, buffer, from, len as usize)
        } else {
            skip_sized(alloc, line, room, buffer, from, len as usize)
        },
        BodyKind::Chunks => {
            drop_front(buffer, from);
            read_chunks(alloc, line, room, buffer, wanted)
        }
    }
}

/// Reads a body of so many bytes. What has come of it is copied, and the others are read to behind it.
fn read_sized<L: Line>(
    alloc: Global,
    line: &mut L,
    buffer: &mut Vec<u8>,
    from: usize,
    len: usize,
) -> Result<BodyRead, EdgeFault>
    requires within { from ≤ length buffer.old.items }
    requires fits { len ≤ max_body }
    ensures on_success { IfOk result (λ found. (read : List ℕ)
        × Moves L.gives L.takes line.old line.new read []
        × IsRead true (sized len) (drop from buffer.old.items ++ read) buffer.new.items found) }
    ensures whole { IfOk result (λ found. IfWhole found (L.ends line.new ≡ L.ends line.old)) }
    ensures on_error { OnErr result ((read : List ℕ)
        × Moves L.gives L.takes line.old line.new read []) }
    ensures unread { result ≡ Err EdgeFault.ReadFailed → (read : List ℕ)
        × Moves L.gives L.takes line.old line.new read []
        × HasNoBody (sized len) (drop from buffer.old.items ++ read) }
    ensures end { result ≡ Ok BodyRead.Ended → L.ends line.old < L.ends line.new }
    ensures work { OnOk result (work (L.reads_left line.new) buffer.new.items + from ≤ work
        (L.reads_left line.old) buffer.old.items) }
    ensures ends { L.ends line.old ≤ L.ends line.new }
    ensures stops { L.ends line.new ≤ L.ends line.old + 1 }
    ensures kept { OnOk result (L.failed line.new ≡ L.failed line.old) }
    ensures unfailed { result ≡ Err EdgeFault.OutOfMemory → L.failed line.new ≡ L.failed line.old }
    ensures failed { result ≡ Err EdgeFault.ReadFailed
        → HasFailed (L.failed line.old) (L.failed line.new) }
    ensures no_write { result ≢ Err EdgeFault.WriteFailed }
{
    let mut body = take_front(alloc, buffer, from, len)?;
    let mut most = FIRST_READ;
    'reads: while body.len() < len {
        let come = body.len();
        let due = next_stage(come, len) - come;
        body.reserve_exact(due)?;
        if !fill_behind(line, &mut body, due.min(most))? {
            return Ok(BodyRead::Ended);
        }
        most = next_read(body.len() - come);
    }
    Ok(BodyRead::Whole(body))
}

/// Takes what has come of a body of so many bytes from the buffer, and what stands before it. There is room for more of
/// it, up to its first part.
fn take_front(
    alloc: Global,
    buffer: &mut Vec<u8>,
    from: usize,
    len: usize,
) -> Result<Vec<u8>, AllocError>
    requires { from ≤ length buffer.old.items }
    ensures parts { IfOk result (λ body. body.items ++ buffer.new.items ≡ drop from
        buffer.old.items) }
    ensures within { IfOk result (λ body. length body.items ≤ len) }
    ensures all { IfOk result (λ body. length body.items < len → buffer.new.items ≡ []) }
    ensures room { IfOk result (λ body. min len first_room ≤ vec_capacity body) }
    ensures shorter { OnOk result (length buffer.new.items + from ≤ length buffer.old.items) }
{
    let end = from + len.min(buffer.len() - from);
    let mut body = first_room(alloc, len)?;
    body.extend_from_slice(&buffer[from..end])?;
    drop_front(buffer, end);
    Ok(body)
}

/// Room for the first part of a body of so many bytes.
fn first_room(alloc: Global, len: usize) -> Result<Vec<u8>, AllocError>
    ensures empty { IfOk result (λ body. body.items ≡ []) }
    ensures room { IfOk result (λ body. vec_capacity body ≡ min len first_room) }
{
    Vec::with_capacity(alloc, len.min(FIRST_ROOM))
}

/// For how many bytes of a body there is to be room where so many have come: once the first part has, for all of it.
fn next_stage(come: usize, len: usize) -> usize
    requires { come < len }
    ensures more { come < result }
    ensures within { result ≤ len }
    ensures first { come < first_room → result ≤ first_room }
{
    if come < FIRST_ROOM {
        len.min(FIRST_ROOM)
    } else {
        len
    }
}

/// How many bytes the next read asks for, after one that gave so many. Room that is read to is filled before, so few
/// are asked for where few come at a time.
fn next_read(count: usize) -> usize
    ensures some { 0 < result }
    ensures most { result ≤ max_read }
{
    count.saturating_mul(2).max(READ_AT_MOST).min(MOST_READ)
}

/// Reads a body of so many bytes, which isn't wanted, and lets go of them as they come.
fn skip_sized<L: Line>(
    alloc: Global,
    line: &mut L,
    room: &mut Room,
    buffer: &mut Vec<u8>,
    from: usize,
    len: usize,
) -> Result<BodyRead, EdgeFault>
    requires within { from ≤ length buffer.old.items }
    requires fits { len ≤ max_body }
    ensures on_success { IfOk result (λ found. (read : List ℕ)
        × Moves L.gives L.takes line.old line.new read []
        × IsRead false (sized len) (drop from buffer.old.items ++ read) buffer.new.items found) }
    ensures whole { IfOk result (λ found. IfWhole found (L.ends line.new ≡ L.ends line.old)) }
    ensures on_error { OnErr result ((read : List ℕ)
        × Moves L.gives L.takes line.old line.new read []) }
    ensures unread { result ≡ Err EdgeFault.ReadFailed → (read : List ℕ)
        × Moves L.gives L.takes line.old line.new read []
        × HasNoBody (sized len) (drop from buffer.old.items ++ read) }
    ensures end { result ≡ Ok BodyRead.Ended → L.ends line.old < L.ends line.new }
    ensures work { OnOk result (work (L.reads_left line.new) buffer.new.items + from ≤ work
        (L.reads_left line.old) buffer.old.items) }
    ensures ends { L.ends line.old ≤ L.ends line.new }
    ensures stops { L.ends line.new ≤ L.ends line.old + 1 }
    ensures kept { OnOk result (L.failed line.new ≡ L.failed line.old) }
    ensures unfailed { result ≡ Err EdgeFault.OutOfMemory → L.failed line.new ≡ L.failed line.old }
    ensures failed { result ≡ Err EdgeFault.ReadFailed
        → HasFailed (L.failed line.old) (L.failed line.new) }
    ensures no_write { result ≢ Err EdgeFault.WriteFailed }
{
    let come = len.min(buffer.len() - from);
    drop_front(buffer, from + come);
    let mut left = len - come;
    'reads: while left > 0 {
        let most = left.min(room.len());
        if !fill(line, buffer, &mut room[..most])? {
            return Ok(BodyRead::Ended);
        }
        left -= buffer.len();
        buffer.clear();
    }
    Ok(BodyRead::Whole(Vec::new(alloc)))
}

/// Reads a chunked body with its trailer. One that isn't wanted is let go of as it comes.
fn read_chunks<L: Line>(
    alloc: Global,
    line: &mut L,
    room: &mut Room,
    buffer: &mut Vec<u8>,
    wanted: bool,
) -> Result<BodyRead, EdgeFault>
    ensures on_success { IfOk result (λ found. (read : List ℕ)
        × Moves L.gives L.takes line.old line.new read []
        × IsRead wanted chunked (buffer.old.items ++ read) buffer.new.items found) }
    ensures whole { IfOk result (λ found. IfWhole found (L.ends line.new ≡ L.ends line.old)) }
    ensures on_error { OnErr result ((read : List ℕ)
        × Moves L.gives L.takes line.old line.new read []) }
    ensures unread { result ≡ Err EdgeFault.ReadFailed → (read : List ℕ)
        × Moves L.gives L.takes line.old line.new read []
        × HasNoBody chunked (buffer.old.items ++ read) }
    ensures end { result ≡ Ok BodyRead.Ended → L.ends line.old < L.ends line.new }
    ensures work { OnOk result (work (L.reads_left line.new) buffer.new.items ≤ work
        (L.reads_left line.old) buffer.old.items) }
    ensures ends { L.ends line.old ≤ L.ends line.new }
    ensures stops { L.ends line.new ≤ L.ends line.old + 1 }
    ensures kept { OnOk result (L.failed line.new ≡ L.failed line.old) }
    ensures unfailed { result ≡ Err EdgeFault.OutOfMemory → L.failed line.new ≡ L.failed line.old }
    ensures failed { result ≡ Err EdgeFault.ReadFailed
        → HasFailed (L.failed line.old) (L.failed line.new) }
    ensures no_write { result ≢ Err EdgeFault.WriteFailed }
{
    let mut part = ChunkedState::Line;
    let mut body = ChunkedBody {
        wanted,
        len: 0,
        bytes: Vec::new(alloc),
    };
    let mut watch = Watch::within_body();
    let mut ended = false;
    'reads: loop {
        let due = watch.is_due(buffer, ended);
        let (taken, pieces) = take_pieces(buffer, &mut part, &mut body, due)?;
        drop_front(buffer, taken);
        match pieces {
            Pieces::End => {
                // Who keeps it keeps all its room.
                body.bytes.shrink_to_fit();
                return Ok(BodyRead::Whole(body.bytes));
            }
            Pieces::TooLong => return Ok(BodyRead::TooLong),
            Pieces::Bad => return Ok(BodyRead::Bad),
            Pieces::More => if ended {
                return Ok(BodyRead::Ended);
            },
        }
        watch.drop_front(taken);
        let more = fill(line, buffer, &mut room[..READ_AT_MOST])?;
        ended = !more;
    }
}

/// Takes what the bytes have of a chunked body, and says how many of them were taken. Where it isn't due to look at
/// them, it takes none.
fn take_pieces(
    bytes: &[u8],
    part: &mut ChunkedState,
    body: &mut ChunkedBody,
    due: bool,
) -> Result<(usize, Pieces), AllocError>
    requires { body.old.len + bytes_due part.old ≤ max_body }
    ensures within { IfOk result (λ r. r.0 ≤ length bytes.now) }
    ensures fits { OnOk result (body.new.len + bytes_due part.new ≤ max_body) }
    ensures wanted { OnOk result (body.new.wanted ≡ body.old.wanted) }
    ensures pieces { IfOk result (λ r. (stream come : List ℕ)
        → IsAt stream part.old come bytes.now → Gathers come body.old
        → IsPieces stream part.new body.new (drop r.0 bytes.now) due r.1) }
{
    if !due {
        return Ok((0, Pieces::More));
    }
    let mut at = 0;
    'pieces: loop {
        let rest = &bytes[at..];
        match next_piece(*part, rest) {
            Piece::Passed { len, next } => {
                if bytes_due(next) > MAX_BODY - body.len as u64 {
                    return Ok((at, Pieces::TooLong));
                }
                *part = next;
                at += len;
            }
            Piece::Data { len, left } => {
                body.add(&rest[..len])?;
                *part = ChunkedState::Bytes(left);
                at += len;
            }
            Piece::End { len } => return Ok((at + len, Pieces::End)),
            Piece::More => return Ok((at, Pieces::More)),
            Piece::Bad => return Ok((at, Pieces::Bad)),
        }
    }
}
