//! Why a script's replay ended early.

ghost use Rattle.std.specs.Prelude.{◌≡◌};
ghost use Rattle.replay_script.specs.declared.fault.ScriptFault.TheVariants.{OutOfMemory};

use std::alloc::AllocError;
use thiserror::Error;

/// Why a script's replay ended early.
#[derive(Debug, Clone, Copy, PartialEq, Eq, Error)]
pub enum ScriptFault {
    /// That line says no command, one for a tenant or a shard that there isn't, or one that the session doesn't do.
    /// Lines count from 1, those that are skipped among them.
    #[error("script fault at line {line}")]
    Script { line: u64 },
    /// The reader or the writer failed, or was called 2^62 times.
    #[error("input or output fault")]
    Line,
    /// There was no memory.
    #[error("out of memory")]
    OutOfMemory,
}

impl From<AllocError> for ScriptFault {
    ghost from_gives = { λ _ fault. fault ≡ OutOfMemory };

    fn from(_error: AllocError) -> ScriptFault {
        ScriptFault::OutOfMemory
    }
}
