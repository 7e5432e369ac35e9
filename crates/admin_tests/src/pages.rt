//! Figures as a scraper and a page read them.

use crate::figures::{EACH, HALF_FULL, answered, due, tenant, with_usage};
use admin_pages::{
    MetricKind, TenantFigures, TenantUsage, put_gone, put_measure, put_string, put_tenant,
    put_tenant_metrics, put_tenants,
};
use std::alloc::Global;
use std::process::Abort;

/// The metrics of tenants.
fn metrics(rt: &impl Abort, alloc: Global, tenants: &[TenantFigures]) -> Vec<u8> {
    let mut text = Vec::new(alloc);
    put_tenant_metrics(alloc, &mut text, tenants).expect(rt, "memory");
    text
}

/// A tenant as an object.
fn object(rt: &impl Abort, alloc: Global, figures: &TenantFigures) -> Vec<u8> {
    let mut text = Vec::new(alloc);
    put_tenant(alloc, &mut text, figures).expect(rt, "memory");
    text
}

/// One that has gone as an object.
fn gone(rt: &impl Abort, alloc: Global, figures: &TenantFigures) -> Vec<u8> {
    let mut text = Vec::new(alloc);
    put_gone(alloc, &mut text, figures).expect(rt, "memory");
    text
}

#[test]
fn metrics_have_a_sample_for_each_tenant(rt: HostRuntime) {
    let tenants = [
        tenant(&rt, rt.alloc(), "a", EACH),
        tenant(&rt, rt.alloc(), "b\\c\"d\ne", [0; 14]),
    ];
    let text = metrics(&rt, rt.alloc(), &tenants);
    let begins = b"# HELP otelcol_receiver_accepted_spans_total Spans that were taken\n\
# TYPE otelcol_receiver_accepted_spans_total counter\n\
otelcol_receiver_accepted_spans_total{tenant=\"a\"} 77\n\
otelcol_receiver_accepted_spans_total{tenant=\"b\\\\c\\\"d\\ne\"} 0\n\
# HELP nimchaes_undecided_spans Spans whose trace waits for its decision\n\
# TYPE nimchaes_undecided_spans gauge\n\
nimchaes_undecided_spans{tenant=\"a\"} 2\n"
        .as_slice();
    assert!(rt; text.starts_with(begins));
    let ends = b"# TYPE otelcol_exporter_queue_capacity gauge\n\
otelcol_exporter_queue_capacity{tenant=\"a\"} 0\n\
otelcol_exporter_queue_capacity{tenant=\"b\\\\c\\\"d\\ne\"} 0\n\
# HELP nimchaes_queued_bytes Bytes of batches that wait to be sent or 0 after a drain\n\
# TYPE nimchaes_queued_bytes gauge\n\
nimchaes_queued_bytes{tenant=\"a\"} 0\n\
nimchaes_queued_bytes{tenant=\"b\\\\c\\\"d\\ne\"} 0\n\
# HELP nimchaes_queued_bytes_limit Bytes that batches may have that wait to be sent\n\
# TYPE nimchaes_queued_bytes_limit gauge\n\
nimchaes_queued_bytes_limit{tenant=\"a\"} 0\n\
nimchaes_queued_bytes_limit{tenant=\"b\\\\c\\\"d\\ne\"} 0\n\
# HELP nimchaes_ready_uptime_seconds Seconds after the start at which something of the tenant is due next\n\
# TYPE nimchaes_ready_uptime_seconds gauge\n\
# HELP nimchaes_back_end_last_status Status that the back end answered last or 0 if no whole answer came\n\
# TYPE nimchaes_back_end_last_status gauge\n\
# HELP nimchaes_back_end_last_status_uptime_seconds Seconds after the start at which the back end answered last\n\
# TYPE nimchaes_back_end_last_status_uptime_seconds gauge\n"
        .as_slice();
    assert!(rt; text.ends_with(ends));
    assert_eq!(rt;
        text.iter().filter(|byte| **byte == b'\n').count(),
        22 * 4 + 3 * 2
    );
}

/// What stands from the last counter of two tenants on, of whom the first is half full.
const FULLNESS: &str = "\
nimchaes_over_budget_spans_total{tenant=\"a\"} 0\n\
nimchaes_over_budget_spans_total{tenant=\"b\\\"\"} 0\n\
# HELP otelcol_processor_tail_sampling_sampling_traces_on_memory \
Traces that are present, undecided ones and decided ones\n\
# TYPE otelcol_processor_tail_sampling_sampling_traces_on_memory gauge\n\
otelcol_processor_tail_sampling_sampling_traces_on_memory{tenant=\"a\"} 5\n\
otelcol_processor_tail_sampling_sampling_traces_on_memory{tenant=\"b\\\"\"} 18446744073709551615\n\
# HELP nimchaes_undecided_traces Traces that wait for their decision\n\
# TYPE nimchaes_undecided_traces gauge\n\
nimchaes_undecided_traces{tenant=\"a\"} 4\n\
nimchaes_undecided_traces{tenant=\"b\\\"\"} 0\n\
# HELP nimchaes_traces_limit Traces that may be present\n\
# TYPE nimchaes_traces_limit gauge\n\
nimchaes_traces_limit{tenant=\"a\"} 50000\n\
nimchaes_traces_limit{tenant=\"b\\\"\"} 0\n\
# HELP nimchaes_spans_limit Spans that may wait for a decision or for a batch\n\
# TYPE nimchaes_spans_limit gauge\n\
nimchaes_spans_limit{tenant=\"a\"} 1000\n\
nimchaes_spans_limit{tenant=\"b\\\"\"} 0\n\
# HELP otelcol_exporter_queue_size Batches that wait to be sent\n\
# TYPE otelcol_exporter_queue_size gauge\n\
otelcol_exporter_queue_size{tenant=\"a\"} 2\n\
otelcol_exporter_queue_size{tenant=\"b\\\"\"} 0\n\
# HELP otelcol_exporter_queue_capacity Batches that may wait to be sent\n\
# TYPE otelcol_exporter_queue_capacity gauge\n\
otelcol_exporter_queue_capacity{tenant=\"a\"} 3\n\
otelcol_exporter_queue_capacity{tenant=\"b\\\"\"} 0\n\
# HELP nimchaes_queued_bytes Bytes of batches that wait to be sent or 0 after a drain\n\
# TYPE nimchaes_queued_bytes gauge\n\
nimchaes_queued_bytes{tenant=\"a\"} 68\n\
nimchaes_queued_bytes{tenant=\"b\\\"\"} 0\n\
# HELP nimchaes_queued_bytes_limit Bytes that batches may have that wait to be sent\n\
# TYPE nimchaes_queued_bytes_limit gauge\n\
nimchaes_queued_bytes_limit{tenant=\"a\"} 70\n\
nimchaes_queued_bytes_limit{tenant=\"b\\\"\"} 0\n\
# HELP nimchaes_ready_uptime_seconds Seconds after the start at which something of the tenant is due next\n\
# TYPE nimchaes_ready_uptime_seconds gauge\n\
# HELP nimchaes_back_end_last_status Status that the back end answered last or 0 if no whole answer came\n\
# TYPE nimchaes_back_end_last_status gauge\n\
# HELP nimchaes_back_end_last_status_uptime_seconds Seconds after the start at which the back end answered last\n\
# TYPE nimchaes_back_end_last_status_uptime_seconds gauge\n";

#[test]
fn each_tenant_has_each_gauge(rt: HostRuntime) {
    let alloc = rt.alloc();
    let many = TenantUsage {
        rows: u64::MAX,
        ..TenantUsage::none()
    };
    let tenants = [
        with_usage(&rt, alloc, "a", HALF_FULL),
        with_usage(&rt, alloc, "b\"", many),
    ];
    let text = metrics(&rt, alloc, &tenants);
    assert!(rt; text.ends_with(FULLNESS.as_bytes()));
    let text = object(&rt, alloc, &with_usage(&rt, alloc, "a", HALF_FULL));
    let ends =
        b",\"over_budget\":0,\"rows\":5,\"undecided_rows\":4,\"rows_limit\":50000,\"spans_limit\":1000,\
\"queued_batches\":2,\"queued_batches_limit\":3,\"queued_bytes\":68,\"queued_bytes_limit\":70,\"ready_at_ms\":null,\
\"back_end_status\":null,\"back_end_status_at_ms\":null}"
            .as_slice();
    assert!(rt; text.ends_with(ends));
}

#[test]
fn who_waits_has_a_moment_in_seconds(rt: HostRuntime) {
    let alloc = rt.alloc();
    let tenants = [
        due(&rt, alloc, "a", 0),
        tenant(&rt, alloc, "nothing", EACH),
        due(&rt, alloc, "b", 7),
        due(&rt, alloc, "c", 10),
        due(&rt, alloc, "d", 999),
        due(&rt, alloc, "e", 1000),
        due(&rt, alloc, "f\"", 3_600_120),
        due(&rt, alloc, "g", u64::MAX),
    ];
    let text = metrics(&rt, alloc, &tenants);
    let ends = b"# TYPE nimchaes_ready_uptime_seconds gauge\n\
nimchaes_ready_uptime_seconds{tenant=\"a\"} 0.000\n\
nimchaes_ready_uptime_seconds{tenant=\"b\"} 0.007\n\
nimchaes_ready_uptime_seconds{tenant=\"c\"} 0.010\n\
nimchaes_ready_uptime_seconds{tenant=\"d\"} 0.999\n\
nimchaes_ready_uptime_seconds{tenant=\"e\"} 1.000\n\
nimchaes_ready_uptime_seconds{tenant=\"f\\\"\"} 3600.120\n\
nimchaes_ready_uptime_seconds{tenant=\"g\"} 18446744073709551.615\n\
# HELP nimchaes_back_end_last_status Status that the back end answered last or 0 if no whole answer came\n\
# TYPE nimchaes_back_end_last_status gauge\n\
# HELP nimchaes_back_end_last_status_uptime_seconds Seconds after the start at which the back end answered last\n\
# TYPE nimchaes_back_end_last_status_uptime_seconds gauge\n"
        .as_slice();
    assert!(rt; text.ends_with(ends));
}

#[test]
fn who_was_answered_has_the_last_status(rt: HostRuntime) {
    let alloc = rt.alloc();
    let tenants = [
        answered(&rt, alloc, "a", 200, 0),
        tenant(&rt, alloc, "nothing", EACH),
        answered(&rt, alloc, "b\"", 503, 61_005),
        answered(&rt, alloc, "none", 0, u64::MAX),
        answered(&rt, alloc, "any", u16::MAX, 7),
    ];
    let text = metrics(&rt, alloc, &tenants);
    let ends = b"# TYPE nimchaes_ready_uptime_seconds gauge\n\
# HELP nimchaes_back_end_last_status Status that the back end answered last or 0 if no whole answer came\n\
# TYPE nimchaes_back_end_last_status gauge\n\
nimchaes_back_end_last_status{tenant=\"a\"} 200\n\
nimchaes_back_end_last_status{tenant=\"b\\\"\"} 503\n\
nimchaes_back_end_last_status{tenant=\"none\"} 0\n\
nimchaes_back_end_last_status{tenant=\"any\"} 65535\n\
# HELP nimchaes_back_end_last_status_uptime_seconds Seconds after the start at which the back end answered last\n\
# TYPE nimchaes_back_end_last_status_uptime_seconds gauge\n\
nimchaes_back_end_last_status_uptime_seconds{tenant=\"a\"} 0.000\n\
nimchaes_back_end_last_status_uptime_seconds{tenant=\"b\\\"\"} 61.005\n\
nimchaes_back_end_last_status_uptime_seconds{tenant=\"none\"} 18446744073709551.615\n\
nimchaes_back_end_last_status_uptime_seconds{tenant=\"any\"} 0.007\n"
        .as_slice();
    assert!(rt; text.ends_with(ends));
}

#[test]
fn a_measure_is_a_family_of_one_sample(rt: HostRuntime) {
    let mut text = Vec::new(rt.alloc());
    let name = "nimchaes_lane_jobs";
    put_measure(
        rt.alloc(),
        &mut text,
        name,
        "Jobs in the lane",
        MetricKind::Gauge,
        3,
    )
    .expect(&rt, "memory");
    let wanted = b"# HELP nimchaes_lane_jobs Jobs in the lane\n\
# TYPE nimchaes_lane_jobs gauge\n\
nimchaes_lane_jobs 3\n"
        .as_slice();
    assert!(rt; text.as_slice() == wanted);
}

/// The counters of EACH.
const EACH_COUNTERS: &str =
    ",\"accepted\":77,\"undecided\":2,\"pending\":3,\"queued\":4,\"active\":5,\"exported\":6,\
\"not_sampled\":7,\"too_early\":8,\"queue_full\":9,\"retry_exhausted\":10,\"back_end_refused\":11,\
\"back_end_rejected\":12,\"invalid\":13,\"over_budget\":14";

/// What stands behind the counters of a tenant that isn't full and waits for nothing.
const EMPTY_MEMBERS: &str =
    ",\"rows\":0,\"undecided_rows\":0,\"rows_limit\":0,\"spans_limit\":0,\"queued_batches\":0,\
\"queued_batches_limit\":0,\"queued_bytes\":0,\"queued_bytes_limit\":0,\"ready_at_ms\":null,\"back_end_status\":null,\
\"back_end_status_at_ms\":null}";

#[test]
fn a_tenant_is_an_object(rt: HostRuntime) {
    let alloc = rt.alloc();
    let text = object(&rt, alloc, &tenant(&rt, alloc, "shop", EACH));
    let wanted = format!(in alloc; "{{\"tenant\":\"shop\"{EACH_COUNTERS}{EMPTY_MEMBERS}").expect(
        &rt, "memory",
    );
    assert!(rt; text.as_slice() == wanted.as_bytes());
}

#[test]
fn one_that_has_gone_has_its_counters_alone(rt: HostRuntime) {
    let alloc = rt.alloc();
    let text = gone(&rt, alloc, &tenant(&rt, alloc, "shop", EACH));
    let wanted = format!(in alloc; "{{\"tenant\":\"shop\"{EACH_COUNTERS}}}").expect(&rt, "memory");
    assert!(rt; text.as_slice() == wanted.as_bytes());
}

/// Who waits until this moment has it so in milliseconds.
fn is_due(rt: &impl Abort, alloc: Global, moment: u64, told: &str) {
    let text = object(rt, alloc, &due(rt, alloc, "a", moment));
    let ends = format!(in alloc;
        ",\"queued_bytes_limit\":0,\"ready_at_ms\":{told},\"back_end_status\":null,\"back_end_status_at_ms\":null}}"
    ).expect(rt, "memory");
    assert!(rt; text.ends_with(ends.as_bytes()));
}

#[test]
fn who_waits_has_a_moment_in_milliseconds(rt: HostRuntime) {
    is_due(&rt, rt.alloc(), 0, "0");
    is_due(&rt, rt.alloc(), 61_005, "61005");
    is_due(&rt, rt.alloc(), u64::MAX, "18446744073709551615");
}

/// Who was answered this at this moment is told so, and nothing of it once it has gone.
fn is_answered(rt: &impl Abort, alloc: Global, status: u16, moment: u64, ends: &str) {
    let figures = answered(rt, alloc, "a", status, moment);
    let text = object(rt, alloc, &figures);
    assert!(rt; text.ends_with(ends.as_bytes()));
    let text = gone(rt, alloc, &figures);
    assert!(rt; text.ends_with(b",\"over_budget\":0}"));
}

#[test]
fn who_was_answered_has_status_and_moment(rt: HostRuntime) {
    let good = ",\"ready_at_ms\":null,\"back_end_status\":200,\"back_end_status_at_ms\":0}";
    is_answered(&rt, rt.alloc(), 200, 0, good);
    let busy = ",\"ready_at_ms\":null,\"back_end_status\":503,\"back_end_status_at_ms\":12345}";
    is_answered(&rt, rt.alloc(), 503, 12_345, busy);
    let none =
        ",\"ready_at_ms\":null,\"back_end_status\":0,\"back_end_status_at_ms\":18446744073709551615}";
    is_answered(&rt, rt.alloc(), 0, u64::MAX, none);
}

/// Tenants stand in an array so.
fn stand_so(rt: &impl Abort, alloc: Global, tenants: &[TenantFigures], wanted: &str) {
    let mut text = Vec::new(alloc);
    put_tenants(alloc, &mut text, tenants).expect(rt, "memory");
    assert!(rt; text.as_slice() == wanted.as_bytes());
}

#[test]
fn tenants_stand_in_an_array(rt: HostRuntime) {
    let alloc = rt.alloc();
    stand_so(&rt, alloc, &[], "{\"tenants\":[]}");
    let tenants = [tenant(&rt, alloc, "a", EACH), tenant(&rt, alloc, "b", EACH)];
    let members = format!(in alloc; "{EACH_COUNTERS}{EMPTY_MEMBERS}").expect(&rt, "memory");
    let members = members.as_str();
    let wanted = format!(in alloc;
        "{{\"tenants\":[{{\"tenant\":\"a\"{members},{{\"tenant\":\"b\"{members}]}}"
    ).expect(&rt, "memory");
    stand_so(&rt, alloc, &tenants, wanted.as_str());
}

/// A string is written so.
fn is_written(rt: &impl Abort, alloc: Global, given: &str, wanted: &str) {
    let mut text = Vec::new(alloc);
    put_string(&mut text, given).expect(rt, "memory");
    assert!(rt; text.as_slice() == wanted.as_bytes());
}

/// Quotes, backslashes, control characters, and characters of one to four bytes (RFC 8259, section 7).
#[test]
fn strings_are_escaped(rt: HostRuntime) {
    let alloc = rt.alloc();
    is_written(&rt, alloc, "", "\"\"");
    is_written(&rt, alloc, "a\"b\\c", "\"a\\\"b\\\\c\"");
    is_written(&rt, alloc, "\u{0}\u{1f}\u{7f}", "\"\\u0000\\u001f\u{7f}\"");
    is_written(&rt, alloc, "\n\t\r", "\"\\u000a\\u0009\\u000d\"");
    is_written(&rt, alloc, "é€😀/", "\"é€😀/\"");
}
