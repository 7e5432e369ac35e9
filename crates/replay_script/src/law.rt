//! When values are equal.

ghost use Rattle.std.specs.Prelude.{◌≡◌, ◌↔◌, true};
ghost use Rattle.replay_script.specs.Named.{command_view};

use crate::command::Command;
use crate::fault::ScriptFault;
use crate::session::AnswerFault;

/// Commands are equal where they say the same, and faults where they are the same.
pub fn equal_commands()
    ensures command { (a b : Command)
        → (⟦<Command<'static> as PartialEq>⟧.eq a b ≡ true) ↔ (command_view a ≡ command_view b) }
    ensures script_fault { (a b : ScriptFault)
        → (⟦<ScriptFault as PartialEq>⟧.eq a b ≡ true) ↔ (a ≡ b) }
    ensures answer_fault { (a b : AnswerFault)
        → (⟦<AnswerFault as PartialEq>⟧.eq a b ≡ true) ↔ (a ≡ b) }
{}
