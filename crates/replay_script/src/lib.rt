//! Scripts of a replay.
//!
//! A script is a text of lines, each a command, a comment or nothing ([`parse_line`]), and each command is answered by
//! a line. [`run_script`] reads a script from a reader, has each command done by a [`Session`], and writes the answers
//! to a writer, up to the first faulty line, and each before it waits for more of the script. What is written is
//! exactly the answers' text.
//!
//! It stands on the library's `hex` and `memchr` and, for a back end's answers, on `send_retry`. The grammar is this
//! project's own, and the README has it.
#![tactic(auto)]

mod answer;
mod command;
mod fault;
mod input;
mod law;
mod output;
mod run;
mod session;
mod word;

pub use answer::{
    put_added, put_done, put_idle, put_job, put_refused, put_reply, put_report, put_worked,
};
pub use command::{Command, parse_line};
pub use fault::ScriptFault;
pub use law::equal_commands;
pub use run::run_script;
pub use session::{AnswerFault, Session};
