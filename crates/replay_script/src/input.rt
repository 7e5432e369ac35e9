//! Reading lines of which only so much is kept as a command can have.

ghost use Rattle.std.specs.Prelude.{◌≡◌, ◌≢◌, ◌==◌, ℕ, ◌+◌, ◌<◌, ◌≤◌, ◌∷◌, [], ◌++◌, All, take, length, IfOk, IfErr, OnOk, OnErr, IfSome};
ghost use Rattle.std.specs.Io.KnownBytes.{Keeps};
ghost use Rattle.std.specs.List.{position};
ghost use Rattle.replay_script.specs.declared.input.FragmentEnd.TheVariants.{More, LineEnd, InputEnd};
ghost use Rattle.replay_script.specs.Input.{TakesPart, TakesLine, ReadsOne, kept_of, with_end, IsOutside};
ghost use Rattle.replay_script.specs.Output.{Sends};

use crate::fault::ScriptFault;
use crate::output::Output;
use memchr::memchr;
use std::alloc::AllocError;
use std::io::{BufRead, ErrorKind, Write};

/// A line of which so much is kept is longer than any command but an answer, so that it is refused, or skipped, like
/// the whole line. An answer may be of any length, and is kept whole.
const LINE_ROOM: usize = 41_943_131;

/// What came behind a part of a line.
#[derive(Debug, Clone, Copy, PartialEq, Eq)]
pub enum FragmentEnd {
    /// The line may go on.
    More,
    /// The line's end, which is read too.
    LineEnd,
    /// The end of the input. The part has no bytes.
    InputEnd,
}

/// The place of a part of a line in bytes that were read.
#[derive(Debug, Clone, Copy)]
struct Fragment {
    len: usize,
    read: usize,
    ahead: usize,
    part: FragmentEnd,
}

/// How far a reader was used.
#[derive(Debug, Clone, Copy)]
pub struct Input {
    /// So many bytes it has shown that are yet to be taken: while there are some, it shows them again without a wait.
    pub ahead: usize,
    /// How many more calls of it there may be.
    pub reads: u64,
}

/// Reads the next line, without its end. `false` where there is none. Before the reader may have to wait, what the
/// output holds is written.
#[tactic(auto, using(crate::proofs::Sent::sends_nothing))]
pub fn next_line<R: BufRead, W: Write>(
    reader: &mut R,
    input: &mut Input,
    writer: &mut W,
    output: &mut Output,
    line: &mut Vec<u8>,
) -> Result<bool, ScriptFault>
    ensures line { IfOk result (λ found. IfSome (R.remaining reader.old)
        (λ text. TakesLine text (R.remaining reader.new) found line.new.items)) }
    ensures unread { OnErr result (IfSome (R.remaining reader.old)
        (λ text. ReadsOne text (R.remaining reader.new))) }
    ensures sends { Sends (W.contents writer.old) (W.contents writer.new)
        output.old.text.items [] output.new.text.items }
    ensures reads { OnOk result (input.new.reads < input.old.reads) }
    ensures on_error { IfErr result IsOutside }
{
    line.clear();
    'parts: while input.reads > 0 {
        input.reads -= 1;
        output.send_before_wait(writer, input.ahead)?;
        match take_fragment(reader, &mut input.ahead, output, line)? {
            FragmentEnd::More => {}
            FragmentEnd::LineEnd => return Ok(true),
            FragmentEnd::InputEnd => return Ok(!line.is_empty()),
        }
    }
    Err(ScriptFault::Line)
}

/// Takes what one read gives of the line. Nothing is held back while the reader may have to wait.
fn take_fragment<R: BufRead>(
    reader: &mut R,
    ahead: &mut usize,
    held: &Output,
    line: &mut Vec<u8>,
) -> Result<FragmentEnd, ScriptFault>
    requires kept { kept_of line.old.items ≡ line.old.items }
    requires nothing_held { ahead.old ≡ 0 → held.now.text.items ≡ [] }
    ensures part { IfOk result
        (TakesPart (R.remaining reader.old) (R.remaining reader.new) line.old.items
        line.new.items) }
    ensures unread { OnErr result (Keeps (R.remaining reader.old) (R.remaining reader.new)) }
    ensures on_error { IfErr result IsOutside }
{
    prove!(*ahead > 0 || held.text.is_empty());
    let shown = match reader.fill_buf() {
        Ok(shown) => shown,
        Err(error) => {
            return if error.kind() == ErrorKind::Interrupted {
                Ok(FragmentEnd::More)
            } else {
                Err(ScriptFault::Line)
            };
        }
    };
    let cut = find_fragment(shown);
    keep(line, &shown[..cut.len])?;
    reader.consume(cut.read);
    *ahead = cut.ahead;
    Ok(cut.part)
}

/// The part of a line that bytes begin with.
fn find_fragment(shown: &[u8]) -> Fragment
    ensures len { result.len ≤ length shown.now }
    ensures read { result.read + result.ahead ≡ length shown.now }
    ensures inside { All (λ byte. byte ≢ 10) (take result.len shown.now) }
    ensures taken { take result.read shown.now ≡ with_end result.part (take result.len shown.now) }
    ensures end { result.part ≡ InputEnd → length shown.now ≡ 0 }
{
    match line_end(shown) {
        Some(at) => Fragment {
            len: at,
            read: at + 1,
            ahead: shown.len() - (at + 1),
            part: FragmentEnd::LineEnd,
        },
        None => Fragment {
            len: shown.len(),
            read: shown.len(),
            ahead: 0,
            part: if shown.is_empty() {
                FragmentEnd::InputEnd
            } else {
                FragmentEnd::More
            },
        },
    }
}

fn line_end(shown: &[u8]) -> Option<usize>
    ensures { result ≡ position (λ byte. byte == 10) shown.now }
{
    memchr(b'\n', shown)
}

/// Joins a part to a line, as far as it is to be kept.
fn keep(line: &mut Vec<u8>, part: &[u8]) -> Result<(), AllocError>
    requires { kept_of line.old.items ≡ line.old.items }
    ensures { OnOk result (line.new.items ≡ kept_of (line.old.items ++ part.now)) }
{
    let len = part.len().min(LINE_ROOM.saturating_sub(line.len()));
    line.extend_from_slice(&part[..len])?;
    if line.starts_with(b"answer ") {
        line.extend_from_slice(&part[len..])?;
    }
    Ok(())
}
