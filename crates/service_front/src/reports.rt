//! The response to a line of the input.

ghost use Rattle.std.specs.Prelude.{◌≡◌, ◌++◌, IfOk, OnOk};
ghost use Rattle.service_front.specs.CommandReply.{reply_text};
ghost use Rattle.service_front.specs.Lines.{outcome_line};

use export_edge::Beat;
use replay_script::{put_added, put_refused, put_report};
use service_runtime::{ServiceBeat, Teller};
use std::alloc::{AllocError, Global};
use std::sync::Wait;
use std::time::Clock;
use tenant_shard::Outcome;

/// What a line of the input is answered.
#[derive(Clone, Copy)]
pub enum CommandReply<'t> {
    /// What came of a tenant's report or retirement.
    Outcome { name: &'t str, outcome: &'t Outcome },
    /// A tenant came.
    Added { name: &'t str, number: u32 },
    /// A tenant didn't come, by the number of the fault or the refusal.
    NotAdded(u8),
}

/// The line that says it. Of a report or a retirement it has the counters, or why it was refused; any other outcome has
/// no line.
fn line_of(alloc: Global, reply: CommandReply<'_>) -> Result<Vec<u8>, AllocError>
    ensures { IfOk result (λ line. line.items ≡ reply_text reply.entry) }
{
    let mut line = Vec::new(alloc);
    match reply {
        CommandReply::Outcome { name, outcome } => put_outcome(alloc, &mut line, name, outcome)?,
        CommandReply::Added { name, number } => put_added(alloc, &mut line, name, number)?,
        CommandReply::NotAdded(number) => put_refused(alloc, &mut line, "add", number)?,
    }
    Ok(line)
}

/// Appends the line of what a report or a retirement came to.
fn put_outcome(
    alloc: Global,
    line: &mut Vec<u8>,
    name: &str,
    outcome: &Outcome,
) -> Result<(), AllocError>
    ensures { OnOk result (line.new.items ≡ line.old.items ++ outcome_line name.now outcome.now) }
{
    match outcome {
        Outcome::Report(_, counters) => put_report(alloc, line, name, counters.as_slice()),
        Outcome::Refused(_, number) => put_refused(alloc, line, name, *number),
        _ => Ok(()),
    }
}

/// The line that says this: again, after a pause, where memory is refused.
pub fn line_again<R: Wait + Clock>(
    rt: &R,
    alloc: Global,
    teller: &mut Teller<'_, R>,
    beat: &ServiceBeat<'_, R>,
    reply: CommandReply<'_>,
) -> Vec<u8>
    ensures { result.items ≡ reply_text reply.entry }
{
    'attempts: for _ in rt.forever() {
        match line_of(alloc, reply) {
            Ok(line) => {
                teller.sate();
                return line;
            }
            Err(AllocError) => {
                teller.want();
                beat.with_short_pauses().pause();
            }
        }
    }
    unreachable!()
}
