//! The body of an answer.
ghost use Rattle.std.specs.Prelude.{◌≡◌, ◌≢◌, ℕ, ◌+◌, ◌<◌, ◌≤◌, List, [], ◌++◌, length, drop, option_map, IfOk, OnOk, OnErr, true, false, Err};
ghost use Rattle.http_line.specs.Line.{Moves};
ghost use Rattle.http_edge.specs.Steps.{HasFailed};
ghost use Rattle.http_edge.specs.Stages.{IsAt};
ghost use Rattle.http_edge.specs.AnswerBody.{Keeps, HasCome, IsPlainPieces, IsChunkPieces, IsPlainBody, IsAnswerBody, LacksPlainBody, LacksAnswerBody};

use crate::chunks::{ChunkedState, Piece, next_piece};
use crate::limits::{MAX_FIELDS, MAX_PART};
use crate::wire::{AnswerRoom, EdgeFault, Watch, drop_front, fill};
use http_line::Line;
use http1::Limits;
use http1::decode::{Decoded, Decoder};
use http1::framing::Framing;
use httparse::spans::EMPTY_HEADER_SPAN;
use std::alloc::{AllocError, Global};

const MAX_KEPT: usize = 4_194_304;

/// The body of an answer as far as it has come: its bytes, and none once there are too many.
#[derive(Drop)]
pub(crate) struct AnswerBody {
    pub bytes: Vec<u8>,
    pub is_over: bool,
}

impl AnswerBody {
    /// Takes one piece more.
    fn add(&mut self, piece: &[u8]) -> Result<(), AllocError>
        ensures { OnOk result ((body : List ℕ) → Keeps body self.old
            → Keeps (body ++ piece.now) self.new) }
    {
        if self.is_over {
            return Ok(());
        }
        if piece.len() > MAX_KEPT || self.bytes.len() > MAX_KEPT - piece.len() {
            self.bytes.clear();
            self.is_over = true;
            return Ok(());
        }
        self.bytes.extend_from_slice(piece)
    }
}

/// Why there are no more pieces of a body in the buffer.
#[derive(Clone, Copy, Debug, Drop, PartialEq, Eq)]
pub(crate) enum AnswerPieces {
    End,
    More,
    Bad,
}

/// Reads the body of an answer, which is left out where it is above the limit. None: no whole one came.
pub(crate) fn read_answer_body<L: Line>(
    alloc: Global,
    line: &mut L,
    room: &mut AnswerRoom,
    buffer: &mut Vec<u8>,
    framing: Framing,
) -> Result<Option<Vec<u8>>, EdgeFault>
    ensures on_success { IfOk result (λ found. (read : List ℕ)
        × Moves L.gives L.takes line.old line.new read []
        × IsAnswerBody framing (buffer.old.items ++ read) (L.ends line.old < L.ends line.new)
        (option_map (λ v. v.items) found)) }
    ensures on_error { OnErr result ((read : List ℕ)
        × Moves L.gives L.takes line.old line.new read []) }
    ensures unread { result ≡ Err EdgeFault.ReadFailed → (read : List ℕ)
        × Moves L.gives L.takes line.old line.new read []
        × LacksAnswerBody framing (buffer.old.items ++ read) }
    ensures ends { L.ends line.old ≤ L.ends line.new }
    ensures stops { L.ends line.new ≤ L.ends line.old + 1 }
    ensures kept { OnOk result (L.failed line.new ≡ L.failed line.old) }
    ensures unfailed { result ≡ Err EdgeFault.OutOfMemory → L.failed line.new ≡ L.failed line.old }
    ensures failed { result ≡ Err EdgeFault.ReadFailed
        → HasFailed (L.failed line.old) (L.failed line.new) }
    ensures no_write { result ≢ Err EdgeFault.WriteFailed }
{
    if is_chunked(framing) {
        return read_answer_chunks(alloc, line, room, buffer);
    }
    let plain = read_plain_body(alloc, line, room, buffer, framing)?;
    Ok(plain)
}

fn is_chunked(framing: Framing) -> bool
    ensures yes { result ≡ true → framing ≡ Framing.Chunked }
    ensures no { result ≡ false → framing ≢ Framing.Chunked }
{
    match framing {
        Framing::Chunked => true,
        Framing::NoBody => false,
        Framing::Length(_) => false,
        Framing::UntilClose => false,
    }
}

/// Reads a body in chunks with its trailer.
fn read_answer_chunks<L: Line>(
    alloc: Global,
    line: &mut L,
    room: &mut AnswerRoom,
    buffer: &mut Vec<u8>,
) -> Result<Option<Vec<u8>>, EdgeFault>
    ensures on_success { IfOk result (λ found. (read : List ℕ)
        × Moves L.gives L.takes line.old line.new read []
        × IsAnswerBody Framing.Chunked (buffer.old.items ++ read)
        (L.ends line.old < L.ends line.new) (option_map (λ v. v.items) found)) }
    ensures on_error { OnErr result ((read : List ℕ)
        × Moves L.gives L.takes line.old line.new read []) }
    ensures unread { result ≡ Err EdgeFault.ReadFailed → (read : List ℕ)
        × Moves L.gives L.takes line.old line.new read []
        × LacksAnswerBody Framing.Chunked (buffer.old.items ++ read) }
    ensures ends { L.ends line.old ≤ L.ends line.new }
    ensures stops { L.ends line.new ≤ L.ends line.old + 1 }
    ensures kept { OnOk result (L.failed line.new ≡ L.failed line.old) }
    ensures unfailed { result ≡ Err EdgeFault.OutOfMemory → L.failed line.new ≡ L.failed line.old }
    ensures failed { result ≡ Err EdgeFault.ReadFailed
        → HasFailed (L.failed line.old) (L.failed line.new) }
    ensures no_write { result ≢ Err EdgeFault.WriteFailed }
{
    let mut part = ChunkedState::Line;
    let mut kept = AnswerBody {
        bytes: Vec::new(alloc),
        is_over: false,
    };
    let mut watch = Watch::within_body();
    let mut ended = false;
    'reads: loop {
        let due = watch.is_due(buffer, ended);
        let (taken, pieces) = take_chunks(buffer, &mut part, &mut kept, due)?;
        drop_front(buffer, taken);
        match pieces {
            AnswerPieces::End => return Ok(Some(kept.bytes)),
            AnswerPieces::Bad => return Ok(None),
            AnswerPieces::More => if ended {
                return Ok(None);
            },
        }
        watch.drop_front(taken);
        let more = fill(line, buffer, room)?;
        ended = !more;
    }
}

/// Takes what the bytes have of a body in chunks, and says how many of them were taken. Where it isn't due to look at
/// them, it takes none.
fn take_chunks(
    bytes: &[u8],
    part: &mut ChunkedState,
    kept: &mut AnswerBody,
    due: bool,
) -> Result<(usize, AnswerPieces), AllocError>
    ensures within { IfOk result (λ r. r.0 ≤ length bytes.now) }
    ensures pieces { IfOk result (λ r. (stream body : List ℕ) → IsAt stream part.old body bytes.now
        → Keeps body kept.old → IsChunkPieces stream part.new kept.new (drop r.0 bytes.now) due
        r.1) }
{
    if !due {
        return Ok((0, AnswerPieces::More));
    }
    let mut at = 0;
    'pieces: loop {
        let rest = &bytes[at..];
        match next_piece(*part, rest) {
            Piece::Passed { len, next } => {
                *part = next;
                at += len;
            }
            Piece::Data { len, left } => {
                kept.add(&rest[..len])?;
                *part = ChunkedState::Bytes(left);
                at += len;
            }
            Piece::End { len } => return Ok((at + len, AnswerPieces::End)),
            Piece::More => return Ok((at, AnswerPieces::More)),
            Piece::Bad => return Ok((at, AnswerPieces::Bad)),
        }
    }
}

/// Takes what the bytes have of a body that isn't in chunks, and says how many of them were taken.
fn take_plain(
    bytes: &[u8],
    decoder: &mut Decoder,
    kept: &mut AnswerBody,
) -> Result<(usize, AnswerPieces), AllocError>
    ensures within { IfOk result (λ r. r.0 ≤ length bytes.now) }
    ensures pieces { IfOk result (λ r. (framing : Framing) (stream body : List ℕ)
        → HasCome framing stream decoder.old body bytes.now
        → Keeps body kept.old → IsPlainPieces framing stream decoder.new kept.new
        (drop r.0 bytes.now) r.1) }
{
    let mut spans = [EMPTY_HEADER_SPAN; MAX_FIELDS];
    let mut at = 0;
    'pieces: loop {
        let rest = &bytes[at..];
        match decoder.decode(rest, &mut spans) {
            Ok(Decoded::Data(span)) => {
                kept.add(span.of(rest))?;
                at += span.end;
            }
            Ok(Decoded::NeedMore(len)) => return Ok((at + len, AnswerPieces::More)),
            Ok(Decoded::End { len, .. }) => return Ok((at + len, AnswerPieces::End)),
            Err(_) => return Ok((at, AnswerPieces::Bad)),
        }
    }
}

/// Reads a body that isn't in chunks.
fn read_plain_body<L: Line>(
    alloc: Global,
    line: &mut L,
    room: &mut AnswerRoom,
    buffer: &mut Vec<u8>,
    framing: Framing,
) -> Result<Option<Vec<u8>>, EdgeFault>
    ensures on_success { IfOk result (λ found. (read : List ℕ)
        × Moves L.gives L.takes line.old line.new read []
        × IsPlainBody framing (buffer.old.items ++ read) (L.ends line.old < L.ends line.new)
        (option_map (λ v. v.items) found)) }
    ensures on_error { OnErr result ((read : List ℕ)
        × Moves L.gives L.takes line.old line.new read []) }
    ensures unread { result ≡ Err EdgeFault.ReadFailed → (read : List ℕ)
        × Moves L.gives L.takes line.old line.new read []
        × LacksPlainBody framing (buffer.old.items ++ read) }
    ensures ends { L.ends line.old ≤ L.ends line.new }
    ensures stops { L.ends line.new ≤ L.ends line.old + 1 }
    ensures kept { OnOk result (L.failed line.new ≡ L.failed line.old) }
    ensures unfailed { result ≡ Err EdgeFault.OutOfMemory → L.failed line.new ≡ L.failed line.old }
    ensures failed { result ≡ Err EdgeFault.ReadFailed
        → HasFailed (L.failed line.old) (L.failed line.new) }
    ensures no_write { result ≢ Err EdgeFault.WriteFailed }
{
    let limits = Limits {
        max_head_len: MAX_PART,
        max_extensions_len: MAX_PART,
        max_trailers_len: MAX_PART,
    };
    let mut decoder = Decoder::new(framing, &limits);
    let mut kept = AnswerBody {
        bytes: Vec::new(alloc),
        is_over: false,
    };
    'reads: loop {
        let (taken, pieces) = take_plain(buffer, &mut decoder, &mut kept)?;
        drop_front(buffer, taken);
        match pieces {
            AnswerPieces::End => return Ok(Some(kept.bytes)),
            AnswerPieces::Bad => return Ok(None),
            AnswerPieces::More => {}
        }
        if !fill(line, buffer, room)? {
            match framing {
                Framing::UntilClose => return Ok(Some(kept.bytes)),
                Framing::NoBody => return Ok(None),
                Framing::Length(_) => return Ok(None),
                Framing::Chunked => return Ok(None),
            }
        }
    }
}
