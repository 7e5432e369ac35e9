//! Why the command ends early.

ghost use Rattle.std.specs.Prelude.{◌≡◌, ◌↔◌, IfErr, Ok};
ghost use Rattle.std.specs.IoError.{error_kind};
ghost use Rattle.collector_command.specs.Fault.{IsOfFile, IsOfArguments};
ghost use Rattle.collector_command.specs.Status.{status_of};
ghost use Rattle.collector_command.specs.declared.fault.ProgramFault.TheVariants as faults;
ghost use Rattle.trace_collector.specs.declared.engine.ReplayFault.TheVariants as replay_faults;

use std::alloc::{AllocError, AllocFailed};
use std::io;
use std::io::ErrorKind;
use thiserror::Error;
use trace_collector::ReplayFault;

/// Why the program ends early.
#[derive(Debug, Drop, Error)]
pub enum ProgramFault {
    /// The arguments ask for nothing that the program does, or one of them isn't UTF-8.
    #[error("usage: trace_collector replay SETTINGS | serve SETTINGS [--audit]")]
    Usage,
    /// The replay ended early, or there was none.
    #[error("{0}")]
    Replay(ReplayFault),
}

impl ProgramFault {
    /// The status with which the program ends.
    pub fn status(&self) -> u8
        ensures { result ≡ status_of self.now }
    {
        match self {
            ProgramFault::Usage => 2,
            ProgramFault::Replay(ReplayFault::OutOfMemory) => 3,
            ProgramFault::Replay(_) => 1,
        }
    }
}

impl From<ReplayFault> for ProgramFault {
    ghost from_gives = { λ fault given. given ≡ faults.Replay fault };

    fn from(fault: ReplayFault) -> ProgramFault {
        ProgramFault::Replay(fault)
    }
}

/// Of files, input and output only the want of memory is told apart.
impl From<io::Error> for ProgramFault {
    ghost from_gives = { λ error given. IsOfFile (error_kind error) given };

    fn from(error: io::Error) -> ProgramFault {
        if error.kind() == ErrorKind::OutOfMemory {
            ProgramFault::Replay(ReplayFault::OutOfMemory)
        } else {
            ProgramFault::Replay(ReplayFault::Line)
        }
    }
}

impl From<AllocError> for ProgramFault {
    ghost from_gives = { λ _ given. given ≡ faults.Replay replay_faults.OutOfMemory };

    fn from(_error: AllocError) -> ProgramFault {
        ProgramFault::Replay(ReplayFault::OutOfMemory)
    }
}

impl<T: Drop> From<AllocFailed<T>> for ProgramFault {
    ghost from_gives = { λ _ given. given ≡ faults.Replay replay_faults.OutOfMemory };

    fn from(_error: AllocFailed<T>) -> ProgramFault {
        ProgramFault::Replay(ReplayFault::OutOfMemory)
    }
}

/// The library gives all arguments as text, or none where one of them isn't UTF-8, the program's own name included.
/// Such arguments are wrong usage: this stands in for telling which of them it is.
pub fn of_arguments(error: io::Error) -> ProgramFault
    ensures { IsOfArguments (error_kind error) result }
{
    match error.kind() {
        ErrorKind::OutOfMemory => ProgramFault::Replay(ReplayFault::OutOfMemory),
        _ => ProgramFault::Usage,
    }
}

/// The fault of a service of whose answers so many were lost.
pub fn whole(lost: u64) -> Result<(), ProgramFault>
    ensures whole { result ≡ Ok tt ↔ lost ≡ 0 }
    ensures fault { IfErr result (λ fault. fault ≡ faults.Replay replay_faults.Line) }
{
    if lost == 0 {
        Ok(())
    } else {
        Err(ProgramFault::Replay(ReplayFault::Line))
    }
}
