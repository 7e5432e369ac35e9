//! What the attempts of one batch go by.

ghost use Rattle.std.specs.Prelude.{◌≡◌, ◌≤◌};

use tail_settings::RetryOnFailure;

/// What the next attempt of a batch goes by.
#[derive(Clone, Copy, Debug)]
pub struct RetryState {
    settings: RetryOnFailure,
    // The interval from which the next delay is drawn, in milliseconds.
    interval: u64,
    // The moment of the batch's first job, in milliseconds.
    first_job: u64,
    ghost interval_range: { interval ≤ 86400000 },
}

impl RetryState {
    ghost use Rattle.tail_settings.specs.RetryOnFailure.{retry_view};
    ghost use Rattle.send_retry.specs.Delay.{state_view, first_state, picked, next_interval, is_too_late, with_interval};

    /// Of a batch whose first job came at that moment, in milliseconds.
    pub fn new(settings: &RetryOnFailure, first_job: u64) -> RetryState
        ensures { state_view result ≡ first_state (retry_view settings.now) first_job }
    {
        RetryState {
            settings: *settings,
            interval: settings.initial_interval,
            first_job,
        }
    }

    /// The delay that a word picks, in milliseconds.
    pub(crate) fn picked(&self, word: u32) -> u64
        ensures value { result ≡ picked (state_view self.now) word }
        ensures bounded { result ≤ 172800001 }
    {
        let spread = self.interval * u64::from(self.settings.randomization_factor) / 1000;
        self.interval - spread + (2 * spread + 1) * u64::from(word) / (1 << 32)
    }

    /// The state for the answer to the next attempt: it has the interval after this one.
    pub(crate) fn with_next_interval(&self) -> RetryState
        ensures { state_view result ≡ with_interval (next_interval (state_view self.now))
            (state_view self.now) }
    {
        let longer = self.interval * u64::from(self.settings.multiplier) / 1000;
        RetryState {
            settings: self.settings,
            interval: longer.min(self.settings.max_interval),
            first_job: self.first_job,
        }
    }

    /// Whether an attempt at that moment comes too late.
    pub(crate) fn is_too_late(&self, due: u64) -> bool
        ensures { result ≡ is_too_late (state_view self.now) due }
    {
        let longest = self.settings.max_elapsed_time;
        longest != 0 && longest < due.saturating_sub(self.first_job)
    }
}
