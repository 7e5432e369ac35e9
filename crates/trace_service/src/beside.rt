//! The work of all threads, and of who directs it beside.

ghost use Rattle.std.specs.Prelude.{IfOk};

use crate::start::Console;
use service_control::{Director, ServiceFault};
use service_runtime::Observer;
use std::io::{BufRead, Write};
use std::thread::{Threads, join_mut};

/// The team's work, in a thread of its own, with that of its director beside it: how many answers were lost, or how the
/// input failed.
pub(crate) fn work_beside<R, F, D, I, O, L>(
    rt: &R,
    team: &mut F,
    director: &mut D,
    console: &mut Console<I, O, L>,
    threads: usize,
) -> Result<u64, ServiceFault>
where
    R: Threads,
    F: FnMut() + Send,
    D: Director,
    I: BufRead,
    O: Write,
    L: Observer,
    requires { F.pre team.old }
    ensures team { F.step team.old tt team.new }
    ensures directed { IfOk result (λ lost. D.directs director.old
        (I.remaining console.old.input) (O.contents console.old.output) director.new
        (O.contents console.new.output, lost)) }
{
    let Console {
        input,
        output,
        observer,
    } = console;
    let ((), ended) = join_mut(
        rt,
        team,
        &mut ||
            ensures { IfOk result (λ lost. D.directs director.entry.now
                (I.remaining input.entry.now) (O.contents output.entry.now) director.exit.now
                (O.contents output.exit.now, lost)) }
        { director.direct(input, output, observer, threads) },
    );
    ended
}
