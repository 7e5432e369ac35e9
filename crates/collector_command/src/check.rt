//! The word `check`.

ghost use Rattle.std.specs.Prelude.{codes, ◌≡◌, ℕ, List, IfOk, IfErr, OnOk, OnErr, string_bytes};
ghost use Rattle.std.specs.Io.KnownBytes.{Appends};
ghost use Rattle.collector_command.specs.Check.{IsChecked};
ghost use Rattle.collector_command.specs.Fault.{IsOutside};
ghost use Rattle.collector_command.specs.Reason.{TellsOf};

use crate::fault::ProgramFault;
use crate::files::read_file;
use crate::reason::Reason;
use settings_check::check;
use std::alloc::Global;
use std::io;
use std::io::Write;
use std::rt::Files;

/// How the program ends where it has done what it was asked for.
#[derive(Clone, Copy, Debug, PartialEq, Eq)]
pub enum End {
    /// There is no fault.
    Good,
    /// The settings that were checked have a fault, which is told on standard output.
    Faulty,
}

/// Checks the settings in a file, and writes to standard output what is to be said of them, and to standard error what
/// is doubtful in them. What can't be written of that is left out.
pub fn check_file(
    rt: &(impl Files + Print + Eprint + AllocGlobal),
    path: &str,
    reason: &mut Reason,
) -> Result<End, ProgramFault> {
    reason.tell();
    let settings = read_file(rt, path, reason)?;
    let mut writer = io::writer(rt);
    let (end, doubts) = check_into(rt.alloc(), settings.as_slice(), &mut writer, reason)?;
    let _ = rt.eprint(doubts);
    Ok(end)
}

/// Checks the settings in a file's bytes, and writes what is to be said of them: the end, and what is doubtful in them.
fn check_into<W: Write>(
    alloc: Global,
    settings: &[u8],
    writer: &mut W,
    reason: &mut Reason,
) -> Result<(End, String), ProgramFault>
    ensures output { IfOk result (λ r. (report : List ℕ)
        × Appends (W.contents writer.old) (W.contents writer.new) report
        × IsChecked settings.now report (string_bytes r.1) r.0) }
    ensures fault { IfErr result IsOutside }
    ensures told { reason.new.is_told ≡ reason.old.is_told }
    ensures line { OnErr result (TellsOf (codes "standard output") reason.old reason.new) }
    ensures same { OnOk result (reason.new ≡ reason.old) }
{
    let report = check(alloc, settings)?;
    if let Err(error) = writer.write_all(report.text.as_bytes()) {
        return Err(reason.of("standard output", error));
    }
    if report.is_good {
        Ok((End::Good, report.doubts))
    } else {
        Ok((End::Faulty, report.doubts))
    }
}
