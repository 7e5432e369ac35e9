//! Settings, what they say of tenants beside their names, and a shard of such tenants.

use std::alloc::Global;
use std::process::Abort;
use tail_settings::{Settings, load};
use tenant_shard::Shard;

/// Every trace is sampled a second after it opened, each group of spans is a batch, and one batch at a time is on its
/// way.
pub const BASE: &str = "tail_sampling = { decision_wait_ms = 1000, num_traces = 10, \
policy = [{ type = \"always_sample\" }] }, batch = { timeout_ms = 0 }, sending_queue = { num_consumers = 1 }";

/// Errors are sampled, and wait a second for a batch.
pub const ERRORS: &str = "tail_sampling = { decision_wait_ms = 1000, num_traces = 10, \
policy = [{ type = \"status_code\", status_codes = [\"ERROR\"] }] }, batch = { timeout_ms = 1000 }, \
sending_queue = { num_consumers = 1 }";

/// Batches are of two or three spans, or of those of a second.
pub const TWO_OR_THREE: &str = "tail_sampling = { decision_wait_ms = 1000, num_traces = 10, \
policy = [{ type = \"always_sample\" }] }, \
batch = { send_batch_size = 2, timeout_ms = 1000, send_batch_max_size = 3 }, sending_queue = { num_consumers = 3 }";

/// Batches have three spans, or wait a second, after a second's wait for a trace.
pub const THREES: &str = "tail_sampling = { decision_wait_ms = 1000, num_traces = 10, \
policy = [{ type = \"always_sample\" }] }, \
batch = { send_batch_size = 3, timeout_ms = 1000, send_batch_max_size = 3 }, sending_queue = { num_consumers = 3 }";

/// Two traces are present, one batch waits, and each is sent a second time at most.
pub const NARROW: &str = "tail_sampling = { decision_wait_ms = 1000, num_traces = 2, \
policy = [{ type = \"always_sample\" }] }, batch = { timeout_ms = 0 }, \
sending_queue = { queue_size = 1, num_consumers = 1 }, \
retry_on_failure = { initial_interval_ms = 1000, max_elapsed_time_ms = 1500, randomization_factor = 0 }";

/// One trace is present, and nothing is remembered of those that left.
pub const NONE_REMEMBERED: &str = "tail_sampling = { decision_wait_ms = 1000, num_traces = 1, \
policy = [{ type = \"always_sample\" }] }, batch = { timeout_ms = 0 }";

/// One trace is present, and of two that left it is remembered that they were sampled.
pub const TWO_SAMPLED: &str = "tail_sampling = { decision_wait_ms = 1000, num_traces = 1, \
decision_cache = { sampled_cache_size = 2 }, policy = [{ type = \"always_sample\" }] }, batch = { timeout_ms = 0 }";

/// Errors are sampled, one trace is present, and of two that left it is remembered that they weren't sampled.
pub const TWO_DROPPED: &str = "tail_sampling = { decision_wait_ms = 1000, num_traces = 1, \
decision_cache = { non_sampled_cache_size = 2 }, \
policy = [{ type = \"status_code\", status_codes = [\"ERROR\"] }] }, batch = { timeout_ms = 0 }";

/// Errors are sampled, one trace is present, and one trace that was sampled is remembered and one that wasn't.
pub const ONE_OF_EACH: &str = "tail_sampling = { decision_wait_ms = 1000, num_traces = 1, \
decision_cache = { sampled_cache_size = 1, non_sampled_cache_size = 1 }, \
policy = [{ type = \"status_code\", status_codes = [\"ERROR\"] }] }, batch = { timeout_ms = 0 }";

/// Settings of tenants a, b and c, or the first of them, each with these tables.
pub fn settings_of(rt: &impl Abort, alloc: Global, tables: &[&str]) -> Settings {
    let mut text = String::from_str(alloc, "tenant = [").expect(rt, "memory");
    for (name, table) in ["a", "b", "c"].iter().zip(tables.iter()) {
        text = format!(in alloc; "{text}{{ name = \"{name}\", {table} }}, ").expect(rt, "memory");
    }
    text.push_str("]").expect(rt, "memory");
    load(alloc, text.as_str()).expect(rt, "good settings")
}

/// A shard, and the settings of its tenants.
#[derive(Drop)]
pub struct Fixture {
    pub settings: Settings,
    pub shard: Shard,
}

/// A new shard with these members.
pub fn opened(rt: &impl Abort, alloc: Global, settings: Settings, members: &[u32]) -> Fixture {
    let shard = Shard::open(alloc, &settings, members).expect(rt, "memory");
    Fixture { settings, shard }
}

/// A new shard with these members, of tenants with these tables.
pub fn shard_of(rt: &impl Abort, alloc: Global, tables: &[&str], members: &[u32]) -> Fixture {
    let settings = settings_of(rt, alloc, tables);
    opened(rt, alloc, settings, members)
}
