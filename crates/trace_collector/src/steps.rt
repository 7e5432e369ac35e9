//! One step of a shard, and its line.

ghost use Rattle.std.specs.Prelude.{◌≡◌, ◌<◌, List, Some, length, slice_get, slice_set, IfOk, OnOk, OnErr};
ghost use Rattle.tail_settings.specs.Settings.{settings_view};
ghost use Rattle.tenant_shard.specs.View.{View};
ghost use Rattle.tenant_shard.specs.Run.{ShardSteps};
ghost use Rattle.trace_collector.specs.Standing.{IsDone};

use crate::lines::put_outcome;
use std::alloc::{AllocError, Global};
use tail_settings::Settings;
use tenant_shard::{Outcome, Shard, Step};

/// One step of the shard at a place, and its line.
pub fn step_and_put(
    alloc: Global,
    settings: &Settings,
    shards: &mut Vec<Shard>,
    shard: u32,
    step: &Step,
    out: &mut Vec<u8>,
) -> Result<(), AllocError>
    requires { shard < length shards.old.items }
    ensures on_success { OnOk result (IsDone (settings_view settings.now) shard step.now
        shards.old.items shards.new.items out.old.items out.new.items) }
    ensures len { length shards.new.items ≡ length shards.old.items }
    ensures on_refusal { OnErr result (out.new.items ≡ out.old.items) }
{
    let outcome = step_at(shards, shard as usize, step)?;
    put_outcome(alloc, out, settings, u64::from(shard), &outcome)
}

/// One step of the shard at a place.
pub fn step_at(shards: &mut Vec<Shard>, place: usize, step: &Step) -> Result<Outcome, AllocError>
    requires { place < length shards.old.items }
    ensures on_success { IfOk result (λ outcome. (old : List View) × (new : List View)
        × (slice_get shards.old.items place ≡ Some old)
        × ShardSteps step.now old outcome new
        × (shards.new.items ≡ slice_set shards.old.items place new)) }
    ensures len { length shards.new.items ≡ length shards.old.items }
{
    let shard = &mut shards[place];
    let outcome = shard.step(step)?;
    Ok(outcome)
}
