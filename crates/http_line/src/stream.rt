//! A line over a stream that reads and writes, such as a socket. Its bytes are those that the stream gives and takes.
ghost use Rattle.std.specs.Prelude.{◌≡◌, ◌+◌, ◌-◌, ◌^◌, ◌≤◌, min};

use crate::{Line, LineFailed};
use std::io::{ErrorKind, Read, Write};

/// So many reads are made at most.
const MOST_READS: u64 = 1 << 62;

/// So often a write is tried that is interrupted each time.
const MOST_WRITES: u64 = 1 << 62;

/// A stream, with what its calls have come to. A call that is interrupted is tried again, as those of std are.
#[derive(Drop)]
pub struct StreamLine<S> {
    stream: S,
    // How many calls failed, up to 2^64 - 1.
    failures: u64,
    // How many reads into room gave no byte. They are among `reads`.
    ends: u64,
    // How many reads were made, at most 2^62. Each try of a call counts.
    reads: u64,
    ghost counted: { reads ≤ 2 ^ 62 },
    ghost ended: { ends ≤ reads },
}

impl<S: Read + Write> StreamLine<S> {
    /// A line over this stream. What its calls come to is counted from here on.
    pub fn new(stream: S) -> StreamLine<S>
        ensures stream { result.stream ≡ stream }
        ensures failures { result.failures ≡ 0 }
        ensures ends { result.ends ≡ 0 }
        ensures reads { result.reads ≡ 0 }
    {
        StreamLine {
            stream,
            failures: 0,
            ends: 0,
            reads: 0,
        }
    }

    fn fail(&mut self) -> LineFailed
        ensures stream { self.new.stream ≡ self.old.stream }
        ensures failures { self.new.failures ≡ min (self.old.failures + 1) (2 ^ 64 - 1) }
        ensures ends { self.new.ends ≡ self.old.ends }
        ensures reads { self.new.reads ≡ self.old.reads }
    {
        self.failures = self.failures.saturating_add(1);
        LineFailed
    }
}

impl<S: Read + Write> Line for StreamLine<S> {
    ghost use Rattle.std.specs.Io.KnownBytes.{Appends, Consumes, IsAtEnd};

    // What is read is what the stream loses, and what is written is what it takes, where the stream says what it has.
    ghost gives = { λ old new bytes. Consumes (S.remaining old.stream) (S.remaining new.stream) bytes };

    ghost takes = { λ old new bytes. Appends (S.contents old.stream) (S.contents new.stream) bytes };

    ghost ends = { λ line. line.ends };

    ghost at_end = { λ line. IsAtEnd (S.remaining line.stream) };

    ghost failed = { λ line. line.failures };

    ghost reads_left = { λ line. 2 ^ 62 - line.reads };

    fn read_some(&mut self, room: &mut [u8]) -> Result<usize, LineFailed> {
        'tries: while self.reads < MOST_READS {
            self.reads += 1;
            match self.stream.read(room) {
                Ok(count) => {
                    if count == 0 && !room.is_empty() {
                        self.ends += 1;
                    }
                    return Ok(count);
                }
                Err(error) => if error.kind() != ErrorKind::Interrupted {
                    return Err(self.fail());
                },
            }
        }
        Err(self.fail())
    }

    fn write_some(&mut self, bytes: &[u8]) -> Result<usize, LineFailed> {
        'tries: for _ in 0..MOST_WRITES {
            match self.stream.write(bytes) {
                Ok(count) if count > 0 || bytes.is_empty() => return Ok(count),
                Ok(_) => return Err(self.fail()),
                Err(error) => if error.kind() != ErrorKind::Interrupted {
                    return Err(self.fail());
                },
            }
        }
        Err(self.fail())
    }

    fn failures(&self) -> u64 {
        self.failures
    }
}
