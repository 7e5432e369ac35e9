//! Bodies in chunks, one part after another.
ghost use Rattle.std.specs.Prelude.{◌≡◌, ℕ, ◌<◌, ◌≤◌, List, length};
ghost use Rattle.http_edge.specs.Chunks.{line_ends};
ghost use Rattle.http_edge.specs.Stages.{bytes_due, piece_len, IsStep, IsAt, IsPiece};

use crate::limits::{MAX_FIELDS, MAX_PART};
use httparse::spans::{EMPTY_HEADER_SPAN, parse_headers};
use httparse::{Status, parse_chunk_size};

/// What is due next: the line of a chunk, so many bytes of data and the end of their line, or the trailer.
#[derive(Clone, Copy, Debug, Drop, PartialEq, Eq)]
pub(crate) enum ChunkedState {
    Line,
    Bytes(u64),
    Trailer,
}

/// What input has of a part: so many bytes that are no data, after which the next part is due; bytes of data, after
/// which so many are left; the end of the body; less than the part; or something else.
#[derive(Clone, Copy, Debug, Drop, PartialEq, Eq)]
pub(crate) enum Piece {
    Passed { len: usize, next: ChunkedState },
    Data { len: usize, left: u64 },
    End { len: usize },
    More,
    Bad,
}

/// How many bytes of data are still due.
pub(crate) fn bytes_due(part: ChunkedState) -> u64
    ensures { result ≡ bytes_due part }
{
    match part {
        ChunkedState::Line => 0,
        ChunkedState::Bytes(left) => left,
        ChunkedState::Trailer => 0,
    }
}

/// Looks for a part at the front of the input.
pub(crate) fn next_piece(part: ChunkedState, input: &[u8]) -> Piece
    ensures within { piece_len result ≤ length input.now }
    ensures step { IsStep part result }
    ensures piece { (stream body : List ℕ) → IsAt stream part body input.now
        → IsPiece stream part body input.now result }
{
    match part {
        ChunkedState::Line => next_line(input),
        ChunkedState::Bytes(left) => if left > 0 {
            next_bytes(left, input)
        } else {
            next_end(input)
        },
        ChunkedState::Trailer => next_trailer(input),
    }
}

fn next_line(input: &[u8]) -> Piece
    ensures within { piece_len result ≤ length input.now }
    ensures step { IsStep ChunkedState.Line result }
    ensures piece { (stream body : List ℕ) → IsAt stream ChunkedState.Line body input.now
        → IsPiece stream ChunkedState.Line body input.now result }
{
    let front = &input[..input.len().min(MAX_PART)];
    match parse_chunk_size(front) {
        Ok(Status::Complete((len, size))) => if size > 0 {
            Piece::Passed {
                len,
                next: ChunkedState::Bytes(size),
            }
        } else {
            Piece::Passed {
                len,
                next: ChunkedState::Trailer,
            }
        },
        Ok(Status::Partial) => if input.len() < MAX_PART {
            Piece::More
        } else {
            Piece::Bad
        },
        Err(_) => Piece::Bad,
    }
}

fn next_bytes(left: u64, input: &[u8]) -> Piece
    requires { 0 < left }
    ensures within { piece_len result ≤ length input.now }
    ensures step { IsStep (ChunkedState.Bytes left) result }
    ensures piece { (stream body : List ℕ) → IsAt stream (ChunkedState.Bytes left) body input.now
        → IsPiece stream (ChunkedState.Bytes left) body input.now result }
{
    if input.is_empty() {
        return Piece::More;
    }
    let len = left.min(input.len() as u64);
    Piece::Data {
        len: len as usize,
        left: left - len,
    }
}

/// Looks for the end of the line that data stands on.
fn next_end(input: &[u8]) -> Piece
    ensures within { piece_len result ≤ length input.now }
    ensures step { IsStep (ChunkedState.Bytes 0) result }
    ensures piece { (stream body : List ℕ) → IsAt stream (ChunkedState.Bytes 0) body input.now
        → IsPiece stream (ChunkedState.Bytes 0) body input.now result }
{
    if input.is_empty() {
        return Piece::More;
    }
    if input[0] != b'\r' {
        return Piece::Bad;
    }
    if input.len() < 2 {
        return Piece::More;
    }
    if input[1] != b'\n' {
        return Piece::Bad;
    }
    Piece::Passed {
        len: 2,
        next: ChunkedState::Line,
    }
}

fn next_trailer(input: &[u8]) -> Piece
    ensures within { piece_len result ≤ length input.now }
    ensures step { IsStep ChunkedState.Trailer result }
    ensures piece { (stream body : List ℕ) → IsAt stream ChunkedState.Trailer body input.now
        → IsPiece stream ChunkedState.Trailer body input.now result }
{
    let front = &input[..input.len().min(MAX_PART)];
    let mut spans = [EMPTY_HEADER_SPAN; MAX_FIELDS];
    match parse_headers(front, &mut spans) {
        Ok(Status::Complete((len, _))) => Piece::End { len },
        Ok(Status::Partial) => if input.len() >= MAX_PART {
            Piece::Bad
        } else if line_ends(input) > MAX_FIELDS {
            Piece::Bad
        } else {
            Piece::More
        },
        Err(_) => Piece::Bad,
    }
}

/// How many lines have ended.
pub(crate) fn line_ends(bytes: &[u8]) -> usize
    ensures { result ≡ line_ends bytes.now }
{
    let mut count = 0;
    for b in bytes {
        if *b == b'\n' {
            count += 1;
        }
    }
    count
}
