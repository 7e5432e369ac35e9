//! Settings and a script, replayed.

ghost use Rattle.std.specs.Prelude.{◌≡◌, ℕ, List, IfSome, Err};
ghost use Rattle.std.specs.Io.KnownBytes.{Appends};
ghost use Rattle.trace_collector.specs.Alone.{TellsEachAlone};
ghost use Rattle.trace_collector.specs.Fault.{settings_fault, script_fault};
ghost use Rattle.trace_collector.specs.Replay.{IsReplay, StopsReading, WritesSoFar};
ghost use Rattle.trace_collector.specs.declared.engine.ReplayFault.TheVariants as faults;

use crate::shards::Shards;
use replay_script::{ScriptFault, run_script};
use std::alloc::{AllocError, Global};
use std::io::{BufRead, Write};
use std::thread::Threads;
use tail_settings::{SettingsFault, load};
use thiserror::Error;

/// Why a replay ended early. What its steps were answered until then was written, as far as that went.
#[derive(Debug, Drop, Error)]
pub enum ReplayFault {
    /// The settings' text means no settings.
    #[error("{0}")]
    Settings(SettingsFault),
    /// That line says no command, or one for a tenant or a shard that there isn't. Lines count from 1, those that are
    /// skipped among them.
    #[error("script fault at line {line}")]
    Script { line: u64 },
    /// The reader or the writer failed, or was called 2^62 times.
    #[error("input or output fault")]
    Line,
    /// There was no memory.
    #[error("out of memory")]
    OutOfMemory,
}

/// Does the commands of a script, one after another, under these settings, and writes what they are answered, each
/// answer before it waits for more of the script. Back ends' answers, with the words that spread the next attempts, are
/// the script's. A body's spans are noted in as many threads as the settings have `parts`, the caller's among them,
/// where there are 512 or more, and else by the caller alone.
pub fn replay<T: Threads + Sync, R: BufRead, W: Write>(
    rt: &T,
    alloc: Global,
    settings: &str,
    reader: &mut R,
    writer: &mut W,
) -> Result<(), ReplayFault>
    ensures output { IfSome (R.remaining reader.old) (λ script. (written : List ℕ)
        × Appends (W.contents writer.old) (W.contents writer.new) written
        × IsReplay settings.now script written result) }
    // Each tenant is told what it would be told alone, whatever the other tenants' settings and commands.
    ensures each_alone { IfSome (R.remaining reader.old) (λ script. (written : List ℕ)
        × Appends (W.contents writer.old) (W.contents writer.new) written
        × TellsEachAlone settings.now script written result) }
    // Where memory was refused, all answers so far were written.
    ensures so_far { result ≡ Err ReplayFault.OutOfMemory
        → IfSome (R.remaining reader.old)
        (λ script. WritesSoFar settings.now script (R.remaining reader.new) (W.contents writer.old)
        (W.contents writer.new)) }
    // Nothing is read behind a faulty line.
    ensures to_fault { IfSome (R.remaining reader.old)
        (λ script. StopsReading script (R.remaining reader.new) result) }
{
    let settings = load(alloc, settings)?;
    let mut shards = Shards::open(alloc, settings)?;
    run_script(rt, alloc, &mut shards, reader, writer)?;
    Ok(())
}

impl From<SettingsFault> for ReplayFault {
    ghost from_gives = { λ fault given. given ≡ settings_fault fault };

    fn from(fault: SettingsFault) -> ReplayFault {
        match fault {
            SettingsFault::OutOfMemory => ReplayFault::OutOfMemory,
            _ => ReplayFault::Settings(fault),
        }
    }
}

impl From<ScriptFault> for ReplayFault {
    ghost from_gives = { λ fault given. given ≡ script_fault fault };

    fn from(fault: ScriptFault) -> ReplayFault {
        match fault {
            ScriptFault::Script { line } => ReplayFault::Script { line },
            ScriptFault::Line => ReplayFault::Line,
            ScriptFault::OutOfMemory => ReplayFault::OutOfMemory,
        }
    }
}

impl From<AllocError> for ReplayFault {
    ghost from_gives = { λ _ given. given ≡ faults.OutOfMemory };

    fn from(_error: AllocError) -> ReplayFault {
        ReplayFault::OutOfMemory
    }
}
