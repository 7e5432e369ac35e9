//! Reports on documents.

use settings_check::{address_fault, check, settings_text};
use std::alloc::{AllocError, Global};
use tail_settings::load;

/// The smallest document but for a key that no setting has.
const MISSPELT: &str = "[[tenant]]
name = \"a\"
[tenant.tail_sampling]
decision_wait = \"10s\"
[[tenant.tail_sampling.policy]]
type = \"always_sample\"
";

/// What stands before them.
const BEFORE: &str =
    "# warning: tenant 1 (a), table tail_sampling: no setting has the key decision_wait, so it is \
                      ignored; perhaps decision_wait_ms was meant
# the settings in force
";

/// All that it says.
const IN_FORCE: &str = "[global]
lane_size = 64
listen = \"127.0.0.1:4318\"
parts = 2
receivers = 4
senders = 4
shards = 1
tenant_header = \"x-scope-orgid\"

[[tenant]]
endpoint = \"127.0.0.1:4319\"
max_spans = 100000
name = \"a\"
seed = 0

[tenant.batch]
send_batch_max_size = 0
send_batch_size = 8192
timeout_ms = 200

[tenant.retry_on_failure]
initial_interval_ms = 5000
max_elapsed_time_ms = 300000
max_interval_ms = 30000
multiplier = 1500
randomization_factor = 500

[tenant.sending_queue]
num_consumers = 10
queue_size = 1000

[tenant.tail_sampling]
decision_wait_ms = 30000
num_traces = 50000

[tenant.tail_sampling.decision_cache]
non_sampled_cache_size = 0
sampled_cache_size = 0

[[tenant.tail_sampling.policy]]
type = \"always_sample\"
";

/// A document that has each doubt: a listener without a port, fewer receivers than tenants, fewer senders than the
/// twelve consumers, a field that no request has for a name, back ends with a scheme, without a host and at the
/// listener, fewer spans than a batch is cut at, retries that all come too late, and policies that keep nothing, of
/// which two are parts of a third.
const DOUBTFUL: &str = "tenant = [
    { name = \"a\", endpoint = \"http://10.0.0.1:4318\", tail_sampling.policy = [{ type = \"always_sample\" }] },
    { name = \"b\", endpoint = \":4318\", sending_queue.num_consumers = 1, max_spans = 8191,
      tail_sampling.policy = [{ type = \"always_sample\" }] },
    { name = \"c\", endpoint = \"127.0.0.1\", sending_queue.num_consumers = 1, max_spans = 2, batch.send_batch_size = 3,
      retry_on_failure = { initial_interval_ms = 60000, max_elapsed_time_ms = 10 },
      tail_sampling.policy = [
        { type = \"numeric_attribute\", key = \"status\", min_value = -1, max_value = -2 },
        { type = \"numeric_attribute\", key = \"port\", min_value = 80, max_value = 80 },
        { type = \"and\", and_sub_policy = [
          { type = \"numeric_attribute\", key = \"rows\", min_value = 2, max_value = 1 },
          { type = \"latency\", threshold_ms = 1 },
          { type = \"numeric_attribute\", key = \"b\\u00fccher\", min_value = 1, max_value = 0 },
        ] },
      ] },
]
global = { listen = \"127.0.0.1\", receivers = 1, senders = 10, tenant_header = \"host\" }
";

/// What is told of them.
const DOUBTS: &str =
    "warning: table global: listen 127.0.0.1 doesn't end with a colon and a port from 0 to 65535
warning: table global: receivers is 1, and there are 3 tenants: each client that keeps its connection keeps a receiver
warning: table global: senders is 10, and the tenants' num_consumers are 12 together: back ends that don't answer can \
     keep every sender
warning: table global: tenant_header is host, which a request has for another purpose: hardly any can name a \
     tenant by it
warning: tenant a: endpoint http://10.0.0.1:4318 has a scheme, where a host, a colon and a port are wanted
warning: tenant b: endpoint :4318 has no host before its port
warning: tenant b: max_spans is 8191, and send_batch_size is 8192: a batch is cut by timeout_ms alone, and posts can \
     get 429 until then
warning: tenant c: endpoint 127.0.0.1 doesn't end with a colon and a port from 0 to 65535
warning: tenant c: endpoint is 127.0.0.1, as listen is: the service would post to itself
warning: tenant c: max_spans is 2, and send_batch_size is 3: a batch is cut by timeout_ms alone, and posts can \
     get 429 until then
warning: tenant c: max_elapsed_time_ms is 10, and the delay before a retry is at least 30000 ms: no batch is sent again
warning: tenant c: the numeric_attribute policy of the key status has a min_value above its max_value: it keeps nothing
warning: tenant c: the numeric_attribute policy of the key rows has a min_value above its max_value: it keeps nothing
warning: tenant c: the numeric_attribute policy of the key b\\xc3\\xbccher has a min_value above its max_value: it \
     keeps nothing
";

#[test]
fn what_is_doubtful_is_told_beside_a_good_document(rt: HostRuntime) {
    let report = check(rt.alloc(), DOUBTFUL.as_bytes()).expect(&rt, "memory");
    assert!(rt; report.is_good);
    assert_eq!(rt; report.doubts.as_str(), DOUBTS);
}

#[test]
fn a_good_document_is_told_with_all_settings_in_force(rt: HostRuntime) {
    let report = check(rt.alloc(), MISSPELT.as_bytes()).expect(&rt, "memory");
    assert!(rt; report.is_good);
    let in_force = report
        .text
        .as_str()
        .strip_prefix(BEFORE)
        .expect(&rt, "what is doubtful");
    assert_eq!(rt; in_force, IN_FORCE);
}

#[test]
fn settings_are_written_as_a_document(rt: HostRuntime) {
    let settings = load(rt.alloc(), MISSPELT).expect(&rt, "good settings");
    let text = settings_text(rt.alloc(), &settings).expect(&rt, "memory");
    assert_eq!(rt; text.as_str(), IN_FORCE);
}

/// Documents, each with what is told of it: faults in one of several policies and in a part of one, and too many spans.
const FAULTY: &str = "[[tenant]]
name = 'a'
[[tenant.tail_sampling.policy]]
type = 'latency'
threshold_ms = 1
[[tenant.tail_sampling.policy]]
name = 'slow'
type = 'latency'
[[tenant.tail_sampling.policy]]
type = 'latency'
----
settings fault 11 threshold_ms
tenant 1 (a), policy 2 (slow): the key threshold_ms is missing
threshold_ms may be: whole milliseconds from 0 to 1099511627776
# warning: tenant 1 (a), policy 2: no setting has the key name, so it is ignored
====
[[tenant]]
name = 'a'
[[tenant.tail_sampling.policy]]
type = 'always_sample'
[[tenant]]
name = 'b'
[[tenant.tail_sampling.policy]]
type = 'and'
and_sub_policy = [{ type = 'always_sample' }, { type = 'and' }]
----
settings fault 13 type
tenant 2 (b), policy 1, part 2: the key type has a value that it may not have
type may be: always_sample, latency, status_code, string_attribute, numeric_attribute, or and, which no and can hold
====
[[tenant]]
name = 'a'
[[tenant.tail_sampling.policy]]
type = 'always_sample'
[[tenant.tail_sampling.policy]]
type = 'and'
----
settings fault 11 and_sub_policy
tenant 1 (a), policy 2: the key and_sub_policy is missing
and_sub_policy may be: an array of one or more tables, each a policy of a type other than and
====
tenant = [
    { name = 'a', max_spans = 2147483648, tail_sampling.policy = [{ type = 'always_sample' }] },
    { name = 'b', max_spans = 1, tail_sampling.policy = [{ type = 'always_sample' }] },
]
----
settings fault 15
the document: the max_spans of all tenants are above 2147483648 together
";

/// The first case of which something else is told.
fn first_wrong(alloc: Global, cases: &'static str) -> Result<&'static str, AllocError> {
    for case in cases.split("====\n") {
        let Some((document, wanted)) = case.split_once("----\n") else {
            return Ok(case);
        };
        let report = check(alloc, document.as_bytes())?;
        if report.is_good || report.text.as_str() != wanted {
            return Ok(case);
        }
    }
    Ok("")
}

#[test]
fn a_fault_is_told_with_the_policy_that_it_is_in(rt: HostRuntime) {
    let wrong = first_wrong(rt.alloc(), FAULTY).expect(&rt, "memory");
    assert_eq!(rt; wrong, "");
}

#[test]
fn what_an_address_lacks_is_told(rt: HostRuntime) {
    assert!(rt; address_fault(b"127.0.0.1:4318").is_none());
    assert!(rt;
        address_fault(b"http://127.0.0.1:4318")
            == Some("has a scheme, where a host, a colon and a port are wanted")
    );
    assert!(rt;
        address_fault(b"127.0.0.1:4318/v1/traces")
            == Some("doesn't end with a colon and a port from 0 to 65535")
    );
}
