//! Figures of a whole service as a scraper reads them.

use admin_pages::{
    STATUS_COUNTS, ServiceCounts, ServiceFigures, StatusCounts, class_place, put_service,
    status_place,
};
use std::alloc::Global;
use std::process::Abort;

/// So many of each class, from this number on.
fn counts(first: u64) -> StatusCounts {
    StatusCounts {
        success: first,
        client_error: first.saturating_add(1),
        server_error: first.saturating_add(2),
        other: first.saturating_add(3),
    }
}

/// How many requests there are of each status, all different.
const REQUESTS: [u64; STATUS_COUNTS] = [50, 51, 52, 53, 54, 55, 56, 57, 58, 59, 60];

/// A service whose other figures are all different.
fn figures(resident_bytes: Option<u64>, requests: [u64; STATUS_COUNTS]) -> ServiceFigures {
    ServiceFigures {
        version: "1.2.3",
        uptime: 10,
        tenants: 11,
        is_draining: true,
        resident_bytes,
        receivers: 13,
        senders: 32,
        lane_capacity: 31,
        counts: ServiceCounts {
            memory_refusals: 12,
            connections_open: 14,
            connections: 15,
            received_bytes: 16,
            sent_bytes: 17,
            requests,
            turns: 28,
            idle_turns: 29,
            lane_jobs: 30,
            senders_busy: 33,
            retries: 34,
            answers: counts(40),
            failed_answers: 44,
        },
    }
}

/// Each sample, in its order.
const SAMPLES: &str = "nimchaes_build_info{version=\"1.2.3\"} 1
otelcol_process_uptime_seconds_total 10
nimchaes_tenants 11
nimchaes_draining 1
nimchaes_memory_refusals_total 12
otelcol_process_memory_rss_bytes 18446744073709551615
nimchaes_receivers 13
nimchaes_connections_open 14
nimchaes_connections_total 15
nimchaes_received_bytes_total 16
nimchaes_sent_bytes_total 17
nimchaes_requests_total{code=\"200\"} 50
nimchaes_requests_total{code=\"400\"} 51
nimchaes_requests_total{code=\"403\"} 52
nimchaes_requests_total{code=\"404\"} 53
nimchaes_requests_total{code=\"405\"} 54
nimchaes_requests_total{code=\"413\"} 55
nimchaes_requests_total{code=\"415\"} 56
nimchaes_requests_total{code=\"429\"} 57
nimchaes_requests_total{code=\"431\"} 58
nimchaes_requests_total{code=\"503\"} 59
nimchaes_requests_total{code=\"other\"} 60
nimchaes_turns_total 28
nimchaes_idle_turns_total 29
nimchaes_lane_jobs 30
nimchaes_lane_capacity 31
nimchaes_senders 32
nimchaes_senders_busy 33
nimchaes_retries_total 34
nimchaes_back_end_answers_total{class=\"none\"} 44
nimchaes_back_end_answers_total{class=\"2xx\"} 40
nimchaes_back_end_answers_total{class=\"4xx\"} 41
nimchaes_back_end_answers_total{class=\"5xx\"} 42
nimchaes_back_end_answers_total{class=\"other\"} 43
";

/// What is told of these figures.
fn told(rt: &impl Abort, alloc: Global, figures: &ServiceFigures) -> Vec<u8> {
    let mut text = Vec::new(alloc);
    put_service(alloc, &mut text, figures).expect(rt, "memory");
    text
}

/// The lines of a text that aren't comments.
fn samples_of(rt: &impl Abort, alloc: Global, text: &[u8]) -> Vec<u8> {
    let mut samples = Vec::new(alloc);
    for line in text.split_inclusive(|byte| *byte == b'\n') {
        if !line.starts_with(b"#") {
            samples.extend_from_slice(line).expect(rt, "memory");
        }
    }
    samples
}

#[test]
fn each_figure_is_a_sample(rt: HostRuntime) {
    let text = told(&rt, rt.alloc(), &figures(Some(u64::MAX), REQUESTS));
    let samples = samples_of(&rt, rt.alloc(), text.as_slice());
    assert!(rt; samples.as_slice() == SAMPLES.as_bytes());
}

/// Requests with this status are counted in the sample that has this label.
fn is_counted(rt: &impl Abort, alloc: Global, status: u16, label: &str) {
    let mut requests = [0; STATUS_COUNTS];
    requests[status_place(status)] = 7;
    let text = told(rt, alloc, &figures(None, requests));
    let mut sample = Vec::from_slice(alloc, b"\nnimchaes_requests_total{code=\"").expect(
        rt, "memory",
    );
    sample
        .extend_from_slice(label.as_bytes())
        .expect(rt, "memory");
    sample.extend_from_slice(b"\"} 7\n").expect(rt, "memory");
    let length = sample.len();
    assert!(rt;
        text.as_slice()
            .windows(length)
            .any(|part| part == sample.as_slice()),
        "{status}"
    );
}

#[test]
fn each_status_is_counted_under_its_label(rt: HostRuntime) {
    let alloc = rt.alloc();
    is_counted(&rt, alloc, 200, "200");
    is_counted(&rt, alloc, 400, "400");
    is_counted(&rt, alloc, 403, "403");
    is_counted(&rt, alloc, 404, "404");
    is_counted(&rt, alloc, 405, "405");
    is_counted(&rt, alloc, 413, "413");
    is_counted(&rt, alloc, 415, "415");
    is_counted(&rt, alloc, 429, "429");
    is_counted(&rt, alloc, 431, "431");
    is_counted(&rt, alloc, 503, "503");
    is_counted(&rt, alloc, 0, "other");
    is_counted(&rt, alloc, 201, "other");
    is_counted(&rt, alloc, 401, "other");
    is_counted(&rt, alloc, 500, "other");
    is_counted(&rt, alloc, u16::MAX, "other");
}

#[test]
fn each_class_has_its_place(rt: HostRuntime) {
    assert!(rt; class_place(200) == 0 && class_place(299) == 0);
    assert!(rt; class_place(400) == 1 && class_place(499) == 1);
    assert!(rt; class_place(500) == 2 && class_place(599) == 2);
    assert!(rt; class_place(0) == 3 && class_place(199) == 3);
    assert!(rt; class_place(301) == 3 && class_place(600) == 3);
    assert!(rt; class_place(u16::MAX) == 3);
}

#[test]
fn memory_may_be_unknown(rt: HostRuntime) {
    let text = told(&rt, rt.alloc(), &figures(None, REQUESTS));
    let begins = b"# HELP nimchaes_build_info The version that runs\n\
# TYPE nimchaes_build_info gauge\n\
nimchaes_build_info{version=\"1.2.3\"} 1\n\
# HELP otelcol_process_uptime_seconds_total Seconds since the start\n\
# TYPE otelcol_process_uptime_seconds_total counter\n\
otelcol_process_uptime_seconds_total 10\n"
        .as_slice();
    assert!(rt; text.starts_with(begins));
    let after = b"nimchaes_memory_refusals_total 12\n\
# HELP nimchaes_receivers Receivers that there are\n\
# TYPE nimchaes_receivers gauge\n\
nimchaes_receivers 13\n"
        .as_slice();
    let at = text
        .as_slice()
        .windows(after.len())
        .position(|part| part == after);
    assert!(rt; at.is_some());
}
