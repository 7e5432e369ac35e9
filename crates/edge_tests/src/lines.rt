//! Lines over streams of std, and a line in memory, call by call.

use http_line::{Line, MemoryLine, StreamLine};
use std::alloc::{AllocError, Global};
use std::collections::VecDeque;
use std::io;
use std::io::{ErrorKind, Read, Write};

/// Whether a read gives so many bytes, and the room begins with these then.
fn reads<L: Line>(line: &mut L, room: &mut [u8], count: usize, bytes: &[u8]) -> bool {
    line.read_some(room).ok() == Some(count) && room.starts_with(bytes)
}

/// Whether so many of these bytes are written.
fn writes<L: Line>(line: &mut L, bytes: &[u8], count: usize) -> bool {
    line.write_some(bytes).ok() == Some(count)
}

#[test]
fn what_is_written_to_a_queue_is_read_from_it(rt: HostRuntime) {
    let mut line = StreamLine::new(VecDeque::new(rt.alloc()));
    let mut room = [0u8; 2];
    let calls = [
        writes(&mut line, b"abc", 3),
        reads(&mut line, &mut room, 2, b"ab"),
        reads(&mut line, &mut room, 1, b"cb"),
        reads(&mut line, &mut room, 0, b""),
        line.failures() == 0,
    ];
    assert!(rt; calls == [true; 5]);
}

/// A stream that pauses in so many calls, with this error, before each in which it doesn't. So many of these take or
/// give a byte, and then they fail, or neither take nor give any.
#[derive(Drop)]
struct Fits {
    pause: ErrorKind,
    pauses: u32,
    paused: u32,
    calls: u32,
    fails: bool,
}

impl Fits {
    fn next(&mut self) -> io::Result<usize> {
        if self.paused < self.pauses {
            self.paused += 1;
            return Err(self.pause.into());
        }
        self.paused = 0;
        if self.calls == 0 {
            return if self.fails {
                Err(ErrorKind::Other.into())
            } else {
                Ok(0)
            };
        }
        self.calls -= 1;
        Ok(1)
    }
}

impl Read for Fits {
    fn read(&mut self, buf: &mut [u8]) -> io::Result<usize> {
        let count = self.next()?;
        Ok(count.min(buf.len()))
    }
}

impl Write for Fits {
    fn write(&mut self, buf: &[u8]) -> io::Result<usize> {
        let count = self.next()?;
        Ok(count.min(buf.len()))
    }

    fn flush(&mut self) -> io::Result<()> {
        Ok(())
    }
}

#[test]
fn what_is_interrupted_is_tried_again(rt: HostRuntime) {
    let mut line = StreamLine::new(Fits {
        pause: ErrorKind::Interrupted,
        pauses: 5,
        paused: 0,
        calls: 4,
        fails: true,
    });
    let mut room = [0u8; 2];
    let calls = [
        reads(&mut line, &mut room, 1, b""),
        writes(&mut line, b"abc", 1),
        reads(&mut line, &mut room, 1, b""),
        writes(&mut line, b"bc", 1),
        line.failures() == 0,
        line.read_some(&mut room).is_err(),
        line.write_some(b"c").is_err(),
        line.failures() == 2,
    ];
    assert!(rt; calls == [true; 8]);
}

/// A socket's limits of time are told so, and then the peer has rested for long enough.
#[test]
fn what_runs_into_a_limit_is_not_tried_again(rt: HostRuntime) {
    for pause in [ErrorKind::WouldBlock, ErrorKind::TimedOut] {
        let mut line = StreamLine::new(Fits {
            pause,
            pauses: 1,
            paused: 0,
            calls: 2,
            fails: true,
        });
        let mut room = [0u8; 2];
        let calls = [
            line.read_some(&mut room).is_err(),
            reads(&mut line, &mut room, 1, b""),
            line.write_some(b"a").is_err(),
            writes(&mut line, b"a", 1),
            line.failures() == 2,
        ];
        assert!(rt; calls == [true; 5]);
    }
}

#[test]
fn a_stream_that_takes_no_byte_has_failed(rt: HostRuntime) {
    let mut line = StreamLine::new(Fits {
        pause: ErrorKind::Interrupted,
        pauses: 0,
        paused: 0,
        calls: 0,
        fails: false,
    });
    let mut room = [0u8; 2];
    let calls = [
        reads(&mut line, &mut room, 0, b""),
        line.failures() == 0,
        line.write_some(b"a").is_err(),
        line.write_some(b"a").is_err(),
        line.failures() == 2,
        writes(&mut line, b"", 0),
    ];
    assert!(rt; calls == [true; 6]);
}

/// Pieces of two and three bytes and then the rest, and a fourth call that fails.
fn line_in_pieces(alloc: Global) -> Result<MemoryLine, AllocError> {
    let pieces = Vec::from_slice(alloc, &[2usize, 3])?;
    let input = Vec::from_slice(alloc, b"abcdefghi")?;
    Ok(MemoryLine::new(input, pieces, Vec::new(alloc), 4))
}

#[test]
fn a_line_in_memory_is_cut_and_fails_where_it_is_told(rt: HostRuntime) {
    let mut line = line_in_pieces(rt.alloc()).expect(&rt, "memory");
    let mut room = [0u8; 9];
    let calls = [
        reads(&mut line, &mut room, 2, b"ab"),
        reads(&mut line, &mut room, 3, b"cde"),
        writes(&mut line, b"x", 1),
        line.read_some(&mut room).is_err(),
        writes(&mut line, b"y", 1),
        reads(&mut line, &mut room, 4, b"fghi"),
        reads(&mut line, &mut room, 0, b""),
        line.failures() == 1,
        line.output() == b"xy".as_slice(),
    ];
    assert!(rt; calls == [true; 9]);
}
