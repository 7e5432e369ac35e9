//! How the command ends.

ghost use Rattle.std.specs.Prelude.{◌≡◌};
ghost use Rattle.std.specs.Process.{exit_status};
ghost use Rattle.collector_command.specs.Status.{end_status};

use crate::check::End;
use crate::fault::ProgramFault;
use crate::reason::Reason;
use std::process::ExitCode;

/// The status with which the program ends. A fault is told on standard error, and behind it its reason.
pub fn ended(rt: &impl Eprint, end: Result<End, ProgramFault>, reason: &Reason) -> ExitCode
    ensures { exit_status result ≡ end_status end }
{
    match end {
        Ok(End::Good) => ExitCode::SUCCESS,
        Ok(End::Faulty) => ExitCode::from(1),
        Err(fault) => {
            let status = fault.status();
            // Where standard error can't be written, the status has to do.
            let _ = rt.eprintln(fault);
            reason.print(rt);
            ExitCode::from(status)
        }
    }
}
