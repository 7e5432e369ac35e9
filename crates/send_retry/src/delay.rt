//! When a batch is sent again.

ghost use Rattle.std.specs.Prelude.{◌≡◌, ◌≤◌, ◌^◌};
ghost use Rattle.send_retry.specs.Delay.{state_view, next_view, next_delay};

use crate::state::RetryState;

/// When a batch is sent again.
#[derive(Clone, Copy, Debug)]
pub enum NextDelay {
    /// At the moment `due`, in milliseconds; `state` is for the answer to that attempt.
    Delay { due: u64, state: RetryState },
    /// It isn't: the next attempt would come too late.
    GiveUp,
}

/// When the batch is sent again after an answer at the time `now`, in milliseconds and at most 2^62, if the back end
/// asked for a wait of `wait_s` seconds, 0 for none. The next attempt may be due later than 2^62. The random word picks
/// the delay among those that the settings allow. It takes no memory.
pub fn next_delay(state: &RetryState, now: u64, word: u32, wait_s: u32) -> NextDelay
    requires moment { now ≤ 2 ^ 62 }
    ensures { next_view result ≡ next_delay (state_view state.now) now word wait_s }
{
    let delay = state.picked(word).max(1000 * u64::from(wait_s));
    let due = now + delay;
    if state.is_too_late(due) {
        return NextDelay::GiveUp;
    }
    NextDelay::Delay {
        due,
        state: state.with_next_interval(),
    }
}
