//! Documents that load, and what they are read to.

use std::alloc::{AllocError, Global};
use tail_settings::{PolicySpec, Section, Settings, SettingsFault, load, same_policies};

/// The text of `examples/everything.toml`.
const EVERYTHING: &str =
    "# Every key, with its default where it has one. Durations are milliseconds, factors are thousandths.

[global]
shards = 1
parts = 2
receivers = 4
senders = 4
lane_size = 64
listen = \"127.0.0.1:4318\"
tenant_header = \"x-scope-orgid\"

[[tenant]]
name = \"everything\"
endpoint = \"127.0.0.1:4319\"
max_spans = 100000
seed = 0

[tenant.tail_sampling]
decision_wait_ms = 30000
num_traces = 50000

[tenant.tail_sampling.decision_cache]
sampled_cache_size = 0
non_sampled_cache_size = 0

[[tenant.tail_sampling.policy]]
type = \"always_sample\"

[[tenant.tail_sampling.policy]]
type = \"latency\"
threshold_ms = 5000

[[tenant.tail_sampling.policy]]
type = \"status_code\"
status_codes = [\"ERROR\", \"UNSET\", \"OK\"]

[[tenant.tail_sampling.policy]]
type = \"string_attribute\"
key = \"http.route\"
values = [\"/cart\", \"/checkout\"]

[[tenant.tail_sampling.policy]]
type = \"numeric_attribute\"
key = \"http.response.status_code\"
min_value = 500
max_value = 599

[[tenant.tail_sampling.policy]]
type = \"and\"
and_sub_policy = [
  { type = \"latency\", threshold_ms = 1000 },
  { type = \"status_code\", status_codes = [\"ERROR\"] },
]

[tenant.batch]
send_batch_size = 8192
timeout_ms = 200
send_batch_max_size = 0

[tenant.sending_queue]
queue_size = 1000
num_consumers = 10

[tenant.retry_on_failure]
initial_interval_ms = 5000
max_interval_ms = 30000
max_elapsed_time_ms = 300000
multiplier = 1500
randomization_factor = 500
";

/// What it says of all tenants, and of its only one.
const ALL_POLICIES: &str =
    "GlobalSettings { shards: 1, parts: 2, receivers: 4, senders: 4, lane_size: 64, listen: \"127.0.0.1:4318\", \
tenant_header: \"x-scope-orgid\" }
Section { endpoint: \"127.0.0.1:4319\", max_spans: 100000, seed: 0, \
tail_sampling: TailSampling { decision_wait: 30000, num_traces: 50000, sampled_cache_size: 0, \
non_sampled_cache_size: 0, policies: [\
Leaf(AlwaysSample), \
Leaf(Latency { threshold_ms: 5000 }), \
Leaf(StatusCode { status_codes: [Error, Unset, Ok] }), \
Leaf(StringAttribute { key: \"http.route\", values: [\"/cart\", \"/checkout\"] }), \
Leaf(NumericAttribute { key: \"http.response.status_code\", min_value: 500, max_value: 599 }), \
And([Latency { threshold_ms: 1000 }, StatusCode { status_codes: [Error] }])] }, \
batch: Batch { send_batch_size: 8192, timeout: 200, send_batch_max_size: 0 }, \
sending_queue: SendingQueue { queue_size: 1000, queue_bytes: 4398046511104, num_consumers: 10 }, \
retry_on_failure: RetryOnFailure { initial_interval: 5000, max_interval: 30000, max_elapsed_time: 300000, \
multiplier: 1500, randomization_factor: 500 } }";

/// What settings say of all tenants, and of the one with this number.
fn printed(alloc: Global, settings: &Settings, number: u32) -> Result<String, AllocError> {
    let global = &settings.global;
    match settings.section(number) {
        Some(section) => format!(in alloc; "{global:?}\n{section:?}"),
        None => String::from_str(alloc, "no such tenant"),
    }
}

#[test]
fn every_key_is_read(rt: HostRuntime) {
    let settings = load(rt.alloc(), EVERYTHING).expect(&rt, "good settings");
    let told = printed(rt.alloc(), &settings, 0).expect(&rt, "memory");
    assert_eq!(rt; told.as_str(), ALL_POLICIES);
}

const TWO_TENANTS: &str = "tenant = [
    { name = \"a\", tail_sampling = { policy = [{ type = \"latency\", threshold_ms = 1 }] } },
    { name = \"b\", tail_sampling = { policy = [{ type = \"latency\", threshold_ms = 2 }] } },
]";

/// There are the tenants `a` and `b`, and no other.
fn are_a_and_b(settings: &Settings) -> bool {
    settings.tenants_len() == 2
        && settings.number("b") == Some(1)
        && settings.number("c").is_none()
        && settings.name(0) == Some("a")
        && settings.name(2).is_none()
        && settings.section(2).is_none()
}

/// A tenant's policies, none where there is no tenant.
fn policies_of(section: Option<&Section>) -> &[PolicySpec] {
    match section {
        Some(section) => section.tail_sampling.policies.as_slice(),
        None => &[],
    }
}

/// Whether a copy of policies is told to be the same, and other policies aren't.
fn are_told_apart(
    alloc: Global,
    policies: &[PolicySpec],
    others: &[PolicySpec],
) -> Result<bool, AllocError> {
    let copy = Vec::from_clones(alloc, policies)?;
    Ok(!copy.is_empty() && same_policies(&copy, policies) && !same_policies(&copy, others))
}

#[test]
fn tenants_by_name_and_number(rt: HostRuntime) {
    let settings = load(rt.alloc(), TWO_TENANTS).expect(&rt, "good settings");
    assert!(rt; are_a_and_b(&settings));
    let first = policies_of(settings.section(0));
    let second = policies_of(settings.section(1));
    assert!(rt; are_told_apart(rt.alloc(), first, second).expect(&rt, "memory"));
}

#[test]
fn numbers_of_faults_and_refused_memory(rt: HostRuntime) {
    assert!(rt; SettingsFault::WrongKind("name").number() == Some(12));
    let text = format!(in rt.alloc(); "{}", SettingsFault::OutOfMemory).expect(&rt, "memory");
    assert_eq!(rt; text.as_str(), "out of memory");
}
