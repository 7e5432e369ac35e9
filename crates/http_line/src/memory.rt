//! A line in memory, for tests.
ghost use Rattle.std.specs.Prelude.{◌≡◌, ◌+◌, ◌-◌, ◌^◌, ◌≤◌, min, take, drop, length, vec_len};

use crate::{Line, LineFailed};

const MOST_READS: u64 = 1 << 62;

/// Input that comes in pieces, and what was written. The call that the fuse counts down to fails.
#[derive(Drop)]
pub struct MemoryLine {
    input: Vec<u8>,
    at: usize,
    /// The lengths of the pieces. Past the last one the rest is one piece.
    pieces: Vec<usize>,
    piece: usize,
    output: Vec<u8>,
    calls: u64,
    fuse: u64,
    failures: u64,
    ends: u64,
    reads: u64,
    ghost within: { at ≤ vec_len input },
    ghost counted: { reads ≤ 2 ^ 62 },
    ghost ended: { ends ≤ reads },
}

impl MemoryLine {
    /// A line whose call number `fuse`, counted from 1, fails, and none where that is 0.
    pub fn new(input: Vec<u8>, pieces: Vec<usize>, output: Vec<u8>, fuse: u64) -> MemoryLine
        ensures input { result.input.items ≡ input.items }
        ensures at { result.at ≡ 0 }
        ensures pieces { result.pieces.items ≡ pieces.items }
        ensures output { result.output.items ≡ output.items }
        ensures fuse { result.fuse ≡ fuse }
        ensures failures { result.failures ≡ 0 }
        ensures ends { result.ends ≡ 0 }
        ensures reads { result.reads ≡ 0 }
    {
        MemoryLine {
            input,
            at: 0,
            pieces,
            piece: 0,
            output,
            calls: 0,
            fuse,
            failures: 0,
            ends: 0,
            reads: 0,
        }
    }

    /// What was written.
    pub fn output(&self) -> &[u8]
        ensures { result.now ≡ self.now.output.items }
    {
        self.output.as_slice()
    }

    /// Whether this call fails.
    fn blows(&mut self) -> bool
        ensures input { self.new.input.items ≡ self.old.input.items }
        ensures at { self.new.at ≡ self.old.at }
        ensures output { self.new.output.items ≡ self.old.output.items }
        ensures failures { self.new.failures ≡ self.old.failures }
        ensures ends { self.new.ends ≡ self.old.ends }
        ensures reads { self.new.reads ≡ self.old.reads }
    {
        if self.calls < u64::MAX {
            self.calls += 1;
        }
        self.calls == self.fuse
    }

    /// How much a read may take.
    fn next_piece(&mut self) -> usize
        ensures input { self.new.input.items ≡ self.old.input.items }
        ensures at { self.new.at ≡ self.old.at }
        ensures output { self.new.output.items ≡ self.old.output.items }
        ensures failures { self.new.failures ≡ self.old.failures }
        ensures ends { self.new.ends ≡ self.old.ends }
        ensures reads { self.new.reads ≡ self.old.reads }
    {
        if self.piece < self.pieces.len() {
            let most = self.pieces[self.piece].max(1);
            self.piece += 1;
            most
        } else {
            usize::MAX
        }
    }

    fn fail(&mut self) -> LineFailed
        ensures input { self.new.input.items ≡ self.old.input.items }
        ensures at { self.new.at ≡ self.old.at }
        ensures output { self.new.output.items ≡ self.old.output.items }
        ensures failures { self.new.failures ≡ min (self.old.failures + 1) (2 ^ 64 - 1) }
        ensures ends { self.new.ends ≡ self.old.ends }
        ensures reads { self.new.reads ≡ self.old.reads }
    {
        self.failures = self.failures.saturating_add(1);
        LineFailed
    }
}

/// Copies so many bytes to the front of the room.
fn give(bytes: &[u8], at: usize, count: usize, room: &mut [u8])
    requires bytes { at + count ≤ length bytes.now }
    requires room { count ≤ length room.old }
    ensures { take count room.new ≡ take count (drop at bytes.now) }
{
    room[..count].copy_from_slice(&bytes[at..at + count]);
}

impl Line for MemoryLine {
    ghost use Rattle.std.specs.Prelude.{◌≡◌, [], ◌++◌, drop};

    // The bytes read are the next of the input, and those written come behind the output. Nothing else moves.
    ghost gives = { λ old new bytes. (drop old.at old.input.items ≡ bytes ++ drop new.at new.input.items)
        × (new.output.items ≡ old.output.items) };

    ghost takes = { λ old new bytes. (new.output.items ≡ old.output.items ++ bytes)
        × (drop new.at new.input.items ≡ drop old.at old.input.items) };

    ghost ends = { λ line. line.ends };

    ghost at_end = { λ line. drop line.at line.input.items ≡ [] };

    ghost failed = { λ line. line.failures };

    ghost reads_left = { λ line. 2 ^ 62 - line.reads };

    fn read_some(&mut self, room: &mut [u8]) -> Result<usize, LineFailed> {
        if self.reads == MOST_READS || self.blows() {
            return Err(self.fail());
        }
        self.reads += 1;
        let most = room.len().min(self.input.len() - self.at);
        if most == 0 {
            if !room.is_empty() {
                self.ends += 1;
            }
            return Ok(0);
        }
        let count = self.next_piece().min(most).max(1);
        give(&self.input, self.at, count, room);
        self.at += count;
        Ok(count)
    }

    fn write_some(&mut self, bytes: &[u8]) -> Result<usize, LineFailed> {
        if self.blows() {
            return Err(self.fail());
        }
        match self.output.extend_from_slice(bytes) {
            Ok(()) => Ok(bytes.len()),
            Err(_) => Err(self.fail()),
        }
    }

    fn failures(&self) -> u64 {
        self.failures
    }
}
