//! The lines of the input.

ghost use Rattle.std.specs.Prelude.{◌≡◌, List, ℕ, [], ◌∷◌, ◌++◌, take, IfSome, IfOk};
ghost use Rattle.service_runtime.specs.Input.{Comes, TakesLine, line_room};

use arrayvec::ArrayVec;
use std::io;
use std::io::{BufRead, ErrorKind};
use std::sync::Wait;

/// Of a line so many bytes are kept, one more than the longest has that asks for a tenant to come: a path has 4,095.
const LINE_ROOM: usize = 4_100;

/// The first bytes of a line. They lie in the value itself, so that a line takes no memory.
pub type Line = ArrayVec<u8, LINE_ROOM>;

/// What came of one read.
#[derive(Clone, Copy, PartialEq, Eq, Debug)]
pub enum ReadResult {
    /// The next byte.
    Byte(u8),
    /// Nothing, since the read was interrupted.
    Nothing,
    /// The end of the input.
    End,
}

/// Reads the next line, without its end, and keeps its first bytes. False where there is none.
pub fn next_line<I: BufRead, R: Wait>(rt: &R, input: &mut I, line: &mut Line) -> io::Result<bool>
    ensures { IfOk result (λ found. IfSome (I.remaining input.old)
        (λ text. TakesLine text (I.remaining input.new) line.new.items found)) }
{
    line.clear();
    'bytes: for _ in rt.forever() {
        match next_byte(input)? {
            ReadResult::Byte(byte) => {
                if byte == b'\n' {
                    return Ok(true);
                }
                keep(line, byte);
            }
            ReadResult::Nothing => {}
            ReadResult::End => return Ok(!line.is_empty()),
        }
    }
    unreachable!()
}

/// Keeps one more byte of a line, where there is room.
fn keep(line: &mut Line, byte: u8)
    ensures { (front : List ℕ) → line.old.items ≡ take line_room front
        → line.new.items ≡ take line_room (front ++ byte ∷ []) }
{
    if line.is_full() {
        return;
    }
    line.push(byte);
}

/// Reads one byte.
fn next_byte<I: BufRead>(input: &mut I) -> io::Result<ReadResult>
    ensures { IfOk result (λ came. Comes (I.remaining input.old) (I.remaining input.new) came) }
{
    let mut room = [0; 1];
    match input.read(&mut room) {
        Ok(count) => {
            if count == 0 {
                return Ok(ReadResult::End);
            }
            Ok(ReadResult::Byte(room[0]))
        }
        Err(error) => {
            if error.kind() == ErrorKind::Interrupted {
                return Ok(ReadResult::Nothing);
            }
            Err(error)
        }
    }
}
