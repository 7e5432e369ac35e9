//! Settings in force as a page reads them.

use crate::figures::tenant;
use admin_pages::put_settled_tenant;
use std::alloc::Global;
use std::process::Abort;
use tail_settings::load;

/// What a tenant without spans is, up to its settings.
const BEFORE: &str =
    "{\"tenant\":\"a\",\"accepted\":0,\"undecided\":0,\"pending\":0,\"queued\":0,\"active\":0,\
\"exported\":0,\"not_sampled\":0,\"too_early\":0,\"queue_full\":0,\"retry_exhausted\":0,\"back_end_refused\":0,\
\"back_end_rejected\":0,\"invalid\":0,\"over_budget\":0,\"rows\":0,\"undecided_rows\":0,\"rows_limit\":0,\
\"spans_limit\":0,\"queued_batches\":0,\"queued_batches_limit\":0,\"queued_bytes\":0,\"queued_bytes_limit\":0,\
\"ready_at_ms\":null,\"back_end_status\":null,\"back_end_status_at_ms\":null,\"settings\":";

/// What is shown of the only tenant of a document, behind its counters.
fn shown(rt: &impl Abort, alloc: Global, document: &str) -> Vec<u8> {
    let settings = load(alloc, document).expect(rt, "good settings");
    let section = settings.section(0).expect(rt, "a tenant");
    let figures = tenant(rt, alloc, "a", [0; 14]);
    let mut text = Vec::new(alloc);
    put_settled_tenant(alloc, &mut text, &figures, section).expect(rt, "memory");
    text
}

/// Nothing is left to a default: the values are those of docs/SETTINGS.md.
#[test]
fn defaults_are_shown(rt: HostRuntime) {
    let document =
        "[[tenant]]\nname = 'a'\n[[tenant.tail_sampling.policy]]\ntype = 'always_sample'\n";
    let wanted = format!(in rt.alloc();
        "{BEFORE}{{\"endpoint\":\"127.0.0.1:4319\",\"max_spans\":100000,\"seed\":0,\
\"tail_sampling\":{{\"decision_wait_ms\":30000,\"num_traces\":50000,\
\"decision_cache\":{{\"sampled_cache_size\":0,\"non_sampled_cache_size\":0}},\
\"policy\":[{{\"type\":\"always_sample\"}}]}},\
\"batch\":{{\"send_batch_size\":8192,\"timeout_ms\":200,\"send_batch_max_size\":0}},\
\"sending_queue\":{{\"queue_size\":1000,\"num_consumers\":10}},\
\"retry_on_failure\":{{\"initial_interval_ms\":5000,\"max_interval_ms\":30000,\"max_elapsed_time_ms\":300000,\
\"multiplier\":1500,\"randomization_factor\":500}}}}}}"
    )
    .expect(&rt, "memory");
    let shown = shown(&rt, rt.alloc(), document);
    assert!(rt; shown.as_slice() == wanted.as_bytes());
}

/// A tenant that sets each key, and has each kind of policy.
const EACH_KEY: &str = r#"
[[tenant]]
name = "a"
endpoint = "traces.\"x\":1"
max_spans = 1
seed = 2
[tenant.tail_sampling]
decision_wait_ms = 3
num_traces = 4
decision_cache = { sampled_cache_size = 5, non_sampled_cache_size = 6 }
[[tenant.tail_sampling.policy]]
type = "latency"
threshold_ms = 7
[[tenant.tail_sampling.policy]]
type = "status_code"
status_codes = ["ERROR", "OK", "UNSET"]
[[tenant.tail_sampling.policy]]
type = "string_attribute"
key = "k\"\\"
values = ["\u0001", ""]
[[tenant.tail_sampling.policy]]
type = "numeric_attribute"
key = "n"
min_value = -9223372036854775808
max_value = 9223372036854775807
[[tenant.tail_sampling.policy]]
type = "and"
and_sub_policy = [{ type = "always_sample" }, { type = "latency", threshold_ms = 8 }]
[tenant.batch]
send_batch_size = 9
timeout_ms = 10
send_batch_max_size = 11
[tenant.sending_queue]
queue_size = 12
num_consumers = 13
[tenant.retry_on_failure]
initial_interval_ms = 14
max_interval_ms = 15
max_elapsed_time_ms = 16
multiplier = 1017
randomization_factor = 18
"#;

#[test]
fn each_key_is_shown(rt: HostRuntime) {
    let wanted = format!(in rt.alloc();
        "{BEFORE}{{\"endpoint\":\"traces.\\\"x\\\":1\",\"max_spans\":1,\"seed\":2,\
\"tail_sampling\":{{\"decision_wait_ms\":3,\"num_traces\":4,\
\"decision_cache\":{{\"sampled_cache_size\":5,\"non_sampled_cache_size\":6}},\
\"policy\":[{{\"type\":\"latency\",\"threshold_ms\":7}},\
{{\"type\":\"status_code\",\"status_codes\":[\"ERROR\",\"OK\",\"UNSET\"]}},\
{{\"type\":\"string_attribute\",\"key\":\"k\\\"\\\\\",\"values\":[\"\\u0001\",\"\"]}},\
{{\"type\":\"numeric_attribute\",\"key\":\"n\",\"min_value\":-9223372036854775808,\
\"max_value\":9223372036854775807}},\
{{\"type\":\"and\",\"and_sub_policy\":[{{\"type\":\"always_sample\"}},\
{{\"type\":\"latency\",\"threshold_ms\":8}}]}}]}},\
\"batch\":{{\"send_batch_size\":9,\"timeout_ms\":10,\"send_batch_max_size\":11}},\
\"sending_queue\":{{\"queue_size\":12,\"num_consumers\":13}},\
\"retry_on_failure\":{{\"initial_interval_ms\":14,\"max_interval_ms\":15,\"max_elapsed_time_ms\":16,\
\"multiplier\":1017,\"randomization_factor\":18}}}}}}"
    )
    .expect(&rt, "memory");
    let shown = shown(&rt, rt.alloc(), EACH_KEY);
    assert!(rt; shown.as_slice() == wanted.as_bytes());
}
