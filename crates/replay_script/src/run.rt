//! Running a script: one line after another is read, done and answered.

ghost use Rattle.std.specs.Prelude.{◌≡◌, ℕ, ◌<◌, List, ◌++◌, length, IfSome, IfErr, OnOk, OnErr};
ghost use Rattle.std.specs.Io.KnownBytes.{Appends};
ghost use Rattle.replay_script.specs.Line.{kind_of, lines_of};
ghost use Rattle.replay_script.specs.Transcript.{Ends, SendsAnswers};
ghost use Rattle.replay_script.specs.Step.{Adds, Refuses};

use crate::command::parse_line;
use crate::fault::ScriptFault;
use crate::input::{Input, next_line};
use crate::output::Output;
use crate::session::{AnswerFault, Session};
use std::alloc::Global;
use std::io::{BufRead, Write};
use std::thread::Threads;

/// A replay ends after so many calls of its reader or its writer.
const MAX_CALLS: u64 = 1 << 62;

/// Runs the script that the reader gives, and writes the answers: before the reader may have to wait, all answers so
/// far are written and the writer is flushed. Where a line is faulty, the answers to all lines before it were written,
/// and nothing behind it was read; where memory was refused, the answers to all lines that were read, but to the last
/// at most; where the reader or the writer failed, a beginning of the answers' text.
pub fn run_script<T: Threads + Sync, S: Session, R: BufRead, W: Write>(
    rt: &T,
    alloc: Global,
    session: &mut S,
    reader: &mut R,
    writer: &mut W,
) -> Result<(), ScriptFault>
    ensures output { IfSome (R.remaining reader.old) (λ script. (written : List ℕ)
        × Appends (W.contents writer.old) (W.contents writer.new) written
        × Ends S.answers (lines_of script) session.old (R.remaining reader.new) written result) }
{
    let mut output = Output::new(alloc, MAX_CALLS);
    let told = answer_lines(rt, alloc, session, reader, writer, &mut output);
    output.send(writer)?;
    told
}

/// Does the lines that the reader gives. Some of the answers may be left in the output, but little of them.
fn answer_lines<T: Threads + Sync, S: Session, R: BufRead, W: Write>(
    rt: &T,
    alloc: Global,
    session: &mut S,
    reader: &mut R,
    writer: &mut W,
    output: &mut Output,
) -> Result<(), ScriptFault>
    ensures output { IfSome (R.remaining reader.old)
        (λ script. SendsAnswers S.answers (lines_of script) session.old (R.remaining reader.new)
        (W.contents writer.old) (W.contents writer.new) output.old.text.items output.new.text.items
        result) }
    ensures little { OnOk result (length output.old.text.items < 65536
        → length output.new.text.items < 65536) }
{
    let mut line = Vec::new(alloc);
    let mut input = Input {
        ahead: 0,
        reads: MAX_CALLS,
    };
    let mut number = 0u64;
    'lines: while next_line(reader, &mut input, writer, output, &mut line)? {
        number += 1;
        answer_line(
            rt,
            alloc,
            session,
            line.as_slice(),
            number,
            &mut output.text,
        )?;
        output.send_much(writer)?;
    }
    Ok(())
}

/// Does the line of this number, unless it is to be skipped.
#[tactic(auto, unfolding(crate::specs::Line::kind_of))]
fn answer_line<T: Threads + Sync, S: Session>(
    rt: &T,
    alloc: Global,
    session: &mut S,
    line: &[u8],
    number: u64,
    out: &mut Vec<u8>,
) -> Result<(), ScriptFault>
    ensures on_success { OnOk result ((text : List ℕ) × (out.new.items ≡ out.old.items ++ text)
        × Adds S.answers session.old (kind_of line.now) text session.new) }
    ensures fault { IfErr result (Refuses S.answers session.old (kind_of line.now) number) }
    ensures on_error { OnErr result (out.new.items ≡ out.old.items) }
{
    if line.is_empty() || line[0] == b'#' {
        return Ok(());
    }
    let Some(command) = parse_line(alloc, line)? else {
        return Err(ScriptFault::Script { line: number });
    };
    match session.answer(rt, alloc, command, out) {
        Ok(()) => Ok(()),
        Err(AnswerFault::Unknown) => Err(ScriptFault::Script { line: number }),
        Err(AnswerFault::OutOfMemory) => Err(ScriptFault::OutOfMemory),
    }
}
