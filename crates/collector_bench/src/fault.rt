//! Why the program ends early, and what the faults of others are told as.

ghost use Rattle.std.specs.Prelude.{◌≡◌};
ghost use Rattle.std.specs.IoError.{error_kind};
ghost use Rattle.std.specs.Process.{exit_status};
ghost use Rattle.collector_bench.specs.Faults.{IsOfFile, body_fault, edge_fault, refusal_fault, settings_fault};
ghost use Rattle.collector_bench.specs.Status.{status_of, end_status};
ghost use Rattle.collector_bench.specs.declared.fault.BenchFault.TheVariants.{OutOfMemory};

use http_edge::EdgeFault;
use otlp_prepare::Refusal;
use otlp_read::ReadFault;
use std::alloc::{AllocError, AllocFailed};
use std::io::{self, ErrorKind};
use std::process::ExitCode;
use tail_settings::SettingsFault;
use thiserror::Error;

/// Why the program ends early.
#[derive(Debug, Drop, Error)]
pub enum BenchFault {
    /// The arguments ask for nothing that the program does.
    #[error("usage: collector_bench [codec FILE ROUNDS | prepare FILE ROUNDS POLICIES | edge FILE ROUNDS]")]
    Usage,
    /// The body has no value.
    #[error("the body is faulty: {0}")]
    Body(ReadFault),
    /// The body has a value, whose canonical text is another.
    #[error("the body is not as it is written")]
    NotCanonical,
    /// Some message wasn't posted to a tenant.
    #[error("the message is no post of the tenant bench")]
    NotPosted,
    /// The settings aren't taken. The program writes them itself, so that nothing but memory can be wrong with them.
    #[error("the program's own settings are faulty")]
    Settings,
    /// A file can't be read, the clock can't be asked or the output can't be written.
    #[error("input or output fault")]
    InputOutput,
    /// There was no memory.
    #[error("out of memory")]
    OutOfMemory,
}

/// The status with which the program ends. A fault is told on standard error.
pub(crate) fn ended(rt: &impl Eprint, end: Result<(), BenchFault>) -> ExitCode
    ensures { exit_status result ≡ end_status end }
{
    match end {
        Ok(()) => ExitCode::SUCCESS,
        Err(fault) => {
            let status = status(&fault);
            // Where standard error can't be written, the status has to do.
            let _ = rt.eprintln(fault);
            ExitCode::from(status)
        }
    }
}

/// The status of a fault.
fn status(fault: &BenchFault) -> u8
    ensures { result ≡ status_of fault.now }
{
    match fault {
        BenchFault::Usage => 2,
        BenchFault::OutOfMemory => 3,
        BenchFault::Body(_)
        | BenchFault::NotCanonical
        | BenchFault::NotPosted
        | BenchFault::Settings
        | BenchFault::InputOutput => 1,
    }
}

/// What a fault of reading is told as.
pub(crate) fn of_body(fault: ReadFault) -> BenchFault
    ensures { result ≡ body_fault fault }
{
    match fault {
        ReadFault::OutOfMemory => BenchFault::OutOfMemory,
        _ => BenchFault::Body(fault),
    }
}

/// What a refusal of what makes bodies ready is told as.
pub(crate) fn of_refusal(refusal: Refusal) -> BenchFault
    ensures { result ≡ refusal_fault refusal }
{
    match refusal {
        Refusal::OutOfMemory => BenchFault::OutOfMemory,
        Refusal::Bad(fault) => BenchFault::Body(fault),
    }
}

/// What a fault of the settings is told as.
pub(crate) fn of_settings(fault: SettingsFault) -> BenchFault
    ensures { result ≡ settings_fault fault }
{
    match fault {
        SettingsFault::OutOfMemory => BenchFault::OutOfMemory,
        _ => BenchFault::Settings,
    }
}

/// What a fault of an edge is told as.
pub(crate) fn of_edge(fault: EdgeFault) -> BenchFault
    ensures { result ≡ edge_fault fault }
{
    match fault {
        EdgeFault::OutOfMemory => BenchFault::OutOfMemory,
        EdgeFault::ReadFailed | EdgeFault::WriteFailed => BenchFault::InputOutput,
    }
}

impl From<AllocError> for BenchFault {
    ghost from_gives = { λ _ given. given ≡ OutOfMemory };

    fn from(_error: AllocError) -> BenchFault {
        BenchFault::OutOfMemory
    }
}

impl<T: Drop> From<AllocFailed<T>> for BenchFault {
    ghost from_gives = { λ _ given. given ≡ OutOfMemory };

    fn from(_error: AllocFailed<T>) -> BenchFault {
        BenchFault::OutOfMemory
    }
}

/// Of files, the clock and the output only the want of memory is told apart.
impl From<io::Error> for BenchFault {
    ghost from_gives = { λ error given. IsOfFile (error_kind error) given };

    fn from(error: io::Error) -> BenchFault {
        if error.kind() == ErrorKind::OutOfMemory {
            BenchFault::OutOfMemory
        } else {
            BenchFault::InputOutput
        }
    }
}
