//! What does a script's commands.

ghost use Rattle.std.specs.Prelude.{◌≡◌, ℕ, List, Option, Some, None, ◌++◌, OnOk, OnErr};
ghost use Rattle.std.specs.Thread.{IsSync};
ghost use Rattle.replay_script.specs.Command.{CommandData};
ghost use Rattle.replay_script.specs.Named.{command_view};
ghost use Rattle.replay_script.specs.declared.session.AnswerFault.TheVariants.{OutOfMemory};

use crate::command::Command;
use std::alloc::{AllocError, Global};
use std::thread::Threads;
use thiserror::Error;

/// What does a script's commands.
pub trait Session {
    // From a state, a command may be answered by this line, or by none where it names a tenant or a shard that there
    // isn't, or asks for what the session doesn't do, and lead to that state.
    ghost answers: { Self → CommandData → Option (List ℕ) → Self → Type 0 };

    /// Does a command, whose bytes the session may keep, and appends the line that answers it. It may start threads.
    fn answer<T: Threads + Sync>(
        &mut self,
        rt: &T,
        alloc: Global,
        command: Command<'_>,
        out: &mut Vec<u8>,
    ) -> Result<(), AnswerFault>
        // Threads may share what starts them, which the bound says of a function, but not yet of a trait's method.
        requires { IsSync T.row }
        ensures on_success { OnOk result ((line : List ℕ) × (out.new.items ≡ out.old.items ++ line)
            × answers self.old (command_view command.entry) (Some line) self.new) }
        ensures unknown { result ≡ Err AnswerFault.Unknown
            → answers self.old (command_view command.entry) None self.new }
        ensures on_error { OnErr result (out.new.items ≡ out.old.items) };
}

/// Why a command got no answer.
#[derive(Debug, Clone, Copy, PartialEq, Eq, Error)]
pub enum AnswerFault {
    /// There is no such tenant or no such shard, or the session does no such commands.
    #[error("no such tenant, shard or command")]
    Unknown,
    /// There was no memory.
    #[error("out of memory")]
    OutOfMemory,
}

impl From<AllocError> for AnswerFault {
    ghost from_gives = { λ _ fault. fault ≡ OutOfMemory };

    fn from(_error: AllocError) -> AnswerFault {
        AnswerFault::OutOfMemory
    }
}
