//! How threads wait until all are at their work.

ghost use Rattle.std.specs.Prelude.{◌<◌, IfSome};

use crate::beat::ServiceBeat;
use export_edge::Beat;
use std::sync::Wait;
use std::time::Clock;

/// So often a thread looks in vain whether another one came.
const MOST_LOOKS: u32 = 10;

/// Says that this thread is there, and waits for the others. False where ten seconds pass in which none comes, or the
/// work is over.
pub fn all_arrive<C: Wait + Clock>(beat: &ServiceBeat<'_, C>, threads: usize) -> bool {
    let signals = beat.signals();
    let mut waiting = beat.of_arrival();
    let mut here = signals.arrive(threads);
    while here < threads {
        match more_arrive(&mut waiting, here) {
            Some(more) => here = more,
            None => {
                signals.end();
                return false;
            }
        }
    }
    !signals.is_over()
}

/// Waits until more threads are there than so many: how many then. None where they don't come, or the work is over.
fn more_arrive<C: Wait + Clock>(waiting: &mut ServiceBeat<'_, C>, here: usize) -> Option<usize>
    ensures { IfSome result (λ more. here < more) }
{
    for _ in 0..MOST_LOOKS {
        if waiting.is_over() {
            return None;
        }
        let more = waiting.signals().here();
        if here < more {
            return Some(more);
        }
        waiting.pause();
    }
    let more = waiting.signals().here();
    if here < more { Some(more) } else { None }
}
