//! The word `replay`.

ghost use Rattle.std.specs.Prelude.{ℕ, List, IfSome};
ghost use Rattle.std.specs.Io.KnownBytes.{Appends};
ghost use Rattle.collector_command.specs.Run.{IsRun};

use crate::fault::ProgramFault;
use crate::files::{read_file, settings_text};
use crate::reason::Reason;
use std::alloc::Global;
use std::io;
use std::io::{BufRead, BufReader, Write};
use std::rt::Files;
use std::thread::Threads;
use trace_collector::replay;

/// The command reads its input in pieces of at most this many bytes.
pub const READ_SIZE: usize = 65_536;

/// Replays the script on standard input under the settings in a file.
pub fn replay_file(
    rt: &(impl Files + Input + Print + AllocGlobal + Threads + Sync),
    path: &str,
    reason: &mut Reason,
) -> Result<(), ProgramFault> {
    let settings = read_file(rt, path, reason)?;
    let alloc = rt.alloc();
    let mut reader = BufReader::with_capacity(alloc, READ_SIZE, rt.reader())?;
    let mut writer = io::writer(rt);
    replay_under(rt, alloc, settings, &mut reader, &mut writer)
}

/// Replays a script under the settings in a file's bytes.
fn replay_under<T: Threads + Sync, R: BufRead, W: Write>(
    rt: &T,
    alloc: Global,
    settings: Vec<u8>,
    reader: &mut R,
    writer: &mut W,
) -> Result<(), ProgramFault>
    ensures { IfSome (R.remaining reader.old) (λ script. (written : List ℕ)
        × Appends (W.contents writer.old) (W.contents writer.new) written
        × IsRun settings.items script written result) }
{
    let settings = settings_text(settings)?;
    replay(rt, alloc, settings.as_str(), reader, writer)?;
    Ok(())
}
