//! A tenant's table `tail_sampling`.

ghost use Rattle.std.specs.Prelude.{◌<◌, ◌≤◌, length, map};
ghost use Rattle.std.specs.Arc.{arc_slice_items};
ghost use Rattle.tail_settings.specs.Keys.{IsFrom};
ghost use Rattle.tail_settings.specs.Policy.{policy_view, leaves_of};

use crate::fault::SettingsFault;
use crate::policy::PolicySpec;
use crate::{keys, policy_table};
use std::alloc::Global;
use std::sync::ArcSlice;
use toml::Table;

/// How a tenant chooses the traces that it keeps.
#[derive(Debug, PartialEq, Drop)]
pub struct TailSampling {
    /// How long a trace waits for its decision, in milliseconds, 1 to 86,400,000.
    pub decision_wait: u64,
    /// How many traces are held, 1 to 1,000,000.
    pub num_traces: u32,
    /// How many ids of sampled traces are remembered, 0 to 1,000,000. Later spans of these are sampled too.
    pub sampled_cache_size: u32,
    /// How many ids of traces that weren't sampled are remembered, 0 to 1,000,000. Later spans of these aren't either.
    pub non_sampled_cache_size: u32,
    /// A trace is kept where one of them says so. One or more, of which at most 64 hold no other. A clone shares them
    /// and takes no memory.
    pub policies: ArcSlice<PolicySpec>,
    pub ghost decision_wait_range: { IsFrom 1 86400000 decision_wait },
    pub ghost num_traces_range: { IsFrom 1 1000000 num_traces },
    pub ghost sampled_cache_size_range: { sampled_cache_size ≤ 1000000 },
    pub ghost non_sampled_cache_size_range: { non_sampled_cache_size ≤ 1000000 },
    pub ghost some_policy: { 0 < length (arc_slice_items policies) },
    pub ghost few_leaves: { leaves_of (map policy_view (arc_slice_items policies)) ≤ 64 },
}

impl TailSampling {
    ghost use Rattle.tail_settings.specs.Fault.{Tells};
    ghost use Rattle.tail_settings.specs.Keys.{keys_of};
    ghost use Rattle.tail_settings.specs.TailSampling.{tail_sampling_view, tail_sampling_of};

    /// The table of a tenant.
    #[tactic(auto, using(crate::proofs::Told::tells_more), unfolding(crate::specs::TailSampling::tail_sampling_of))]
    pub(crate) fn read(alloc: Global, tenant: Option<&Table>) -> Result<TailSampling, SettingsFault>
        ensures { Tells tail_sampling_view result (tail_sampling_of (keys_of tenant.entry)) }
    {
        let sampling = keys::table(tenant, "tail_sampling")?;
        let decision_wait = keys::number(sampling, "decision_wait_ms", 1, 86_400_000, 30_000)?;
        let num_traces = keys::number(sampling, "num_traces", 1, 1_000_000, 50_000)?;
        let cache = keys::table(sampling, "decision_cache")?;
        let sampled = keys::number(cache, "sampled_cache_size", 0, 1_000_000, 0)?;
        let non_sampled = keys::number(cache, "non_sampled_cache_size", 0, 1_000_000, 0)?;
        let policies = policy_table::policies(alloc, sampling)?;
        Ok(TailSampling {
            decision_wait,
            num_traces: num_traces as u32,
            sampled_cache_size: sampled as u32,
            non_sampled_cache_size: non_sampled as u32,
            policies,
        })
    }
}
