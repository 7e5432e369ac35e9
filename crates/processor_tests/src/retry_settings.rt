//! When a batch is sent again, as settings have it.

use tail_settings::RetryOnFailure;

/// The exporterhelper's defaults, without an end.
pub const ENDLESS: RetryOnFailure = RetryOnFailure {
    initial_interval: 5000,
    max_interval: 30_000,
    max_elapsed_time: 0,
    multiplier: 1500,
    randomization_factor: 500,
};

/// The same, but that no attempt comes later than this after the first: just long enough for a third one.
pub const LONG_ENOUGH: RetryOnFailure = RetryOnFailure {
    initial_interval: 5000,
    max_interval: 30_000,
    max_elapsed_time: 51_250,
    multiplier: 1500,
    randomization_factor: 500,
};
