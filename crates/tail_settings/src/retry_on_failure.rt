//! A tenant's table `retry_on_failure`.

ghost use Rattle.std.specs.Prelude.{◌≤◌, ◌^◌};
ghost use Rattle.tail_settings.specs.Keys.{IsFrom};

use crate::fault::SettingsFault;
use crate::keys;
use toml::Table;

/// When a batch is sent again.
#[derive(Clone, Copy, Debug, PartialEq)]
pub struct RetryOnFailure {
    /// The first interval between two attempts, in milliseconds, 1 to 86,400,000.
    pub initial_interval: u64,
    /// The longest interval after the first, in milliseconds, 1 to 86,400,000.
    pub max_interval: u64,
    /// For how long a batch is tried, in milliseconds, 0 to 2^40. With 0 there is no end.
    pub max_elapsed_time: u64,
    /// What an interval is multiplied with for the next, in thousandths, 1,000 to 100,000.
    pub multiplier: u32,
    /// How far a delay lies from its interval at most, in thousandths of the interval, 0 to 1,000.
    pub randomization_factor: u32,
    pub ghost initial_interval_range: { IsFrom 1 86400000 initial_interval },
    pub ghost max_interval_range: { IsFrom 1 86400000 max_interval },
    pub ghost max_elapsed_time_range: { max_elapsed_time ≤ 2 ^ 40 },
    pub ghost multiplier_range: { IsFrom 1000 100000 multiplier },
    pub ghost randomization_factor_range: { randomization_factor ≤ 1000 },
}

impl RetryOnFailure {
    ghost use Rattle.std.specs.Prelude.{IfErr};
    ghost use Rattle.tail_settings.specs.Fault.{Tells, IsOfDocument};
    ghost use Rattle.tail_settings.specs.Keys.{keys_of};
    ghost use Rattle.tail_settings.specs.RetryOnFailure.{retry_view, retry_of};

    /// The table of a tenant.
    #[tactic(auto, using(crate::proofs::Told::tells_more), unfolding(crate::specs::RetryOnFailure::retry_of))]
    pub(crate) fn read(tenant: Option<&Table>) -> Result<RetryOnFailure, SettingsFault>
        ensures meaning { Tells retry_view result (retry_of (keys_of tenant.entry)) }
        ensures no_memory { IfErr result IsOfDocument }
    {
        let retry = keys::table(tenant, "retry_on_failure")?;
        let initial_interval = keys::number(retry, "initial_interval_ms", 1, 86_400_000, 5000)?;
        let max_interval = keys::number(retry, "max_interval_ms", 1, 86_400_000, 30_000)?;
        let max_elapsed_time = keys::number(retry, "max_elapsed_time_ms", 0, 1 << 40, 300_000)?;
        let multiplier = keys::number(retry, "multiplier", 1000, 100_000, 1500)?;
        let randomization_factor = keys::number(retry, "randomization_factor", 0, 1000, 500)?;
        Ok(RetryOnFailure {
            initial_interval,
            max_interval,
            max_elapsed_time,
            multiplier: multiplier as u32,
            randomization_factor: randomization_factor as u32,
        })
    }
}
