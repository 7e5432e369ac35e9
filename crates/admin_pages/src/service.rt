//! Figures of a whole service.
//!
//! Where memory is refused, a part of what was asked for may have been appended.

ghost use Rattle.std.specs.Prelude.{◌≡◌, ◌∷◌, ◌++◌, map, OnOk};
ghost use Rattle.admin_pages.specs.Metrics.{sample_of};
ghost use Rattle.admin_pages.specs.Service.{measure_view, gauge, counter, families_of, standing_of, sending_of, receiving_of, memory_text, answers_of, build_text, requests_text, answers_text, service_text};
ghost use Rattle.admin_pages.specs.Status.{counts_by_status};

use crate::metrics::{Sample, put_measure, put_measures};
use crate::status::STATUS_COUNTS;
use crate::tenant_metric::MetricKind;
use std::alloc::{AllocError, Global};

/// How many there were of each class of HTTP's statuses.
#[derive(Clone, Copy, Debug, PartialEq, Eq)]
pub struct StatusCounts {
    /// 200 to 299.
    pub success: u64,
    /// 400 to 499.
    pub client_error: u64,
    /// 500 to 599.
    pub server_error: u64,
    /// All others.
    pub other: u64,
}

/// What a service counted since its start. Some figures are of other moments than others.
#[derive(Clone, Copy, Debug)]
pub struct ServiceCounts {
    /// How often memory was refused to a post, to another step of a shard, to a line of the input but `add`, or to a
    /// sender before it posts, which counts once a millisecond while it waits.
    pub memory_refusals: u64,
    pub connections_open: u64,
    /// All that a receiver took, those that are open among them.
    pub connections: u64,
    /// From clients.
    pub received_bytes: u64,
    /// To clients.
    pub sent_bytes: u64,
    /// Requests of clients by the status that they were answered with, each at its [`crate::status_place`].
    pub requests: [u64; STATUS_COUNTS],
    /// Turns of shards, those that found nothing ready among them.
    pub turns: u64,
    pub idle_turns: u64,
    /// Batches that wait for a sender.
    pub lane_jobs: u64,
    pub senders_busy: u64,
    /// Answers after which a batch is sent again, unless it was tried for too long.
    pub retries: u64,
    pub answers: StatusCounts,
    /// Batches to which no whole answer came.
    pub failed_answers: u64,
}

/// Figures of a whole service.
#[derive(Clone, Copy, Debug)]
pub struct ServiceFigures {
    pub version: &'static str,
    /// Whole seconds since the start.
    pub uptime: u64,
    pub tenants: u64,
    pub is_draining: bool,
    /// The memory that the process has. None where that isn't known.
    pub resident_bytes: Option<u64>,
    pub receivers: u64,
    pub senders: u64,
    pub lane_capacity: u64,
    pub counts: ServiceCounts,
}

/// A family of one sample.
#[derive(Clone, Copy, Debug)]
struct Measure {
    name: &'static str,
    help: &'static str,
    kind: MetricKind,
    value: u64,
}

/// A figure that goes up and down.
fn gauge(name: &'static str, help: &'static str, value: u64) -> Measure
    ensures { measure_view result ≡ gauge name.now help.now value }
{
    Measure {
        name,
        help,
        kind: MetricKind::Gauge,
        value,
    }
}

/// A figure that only grows.
fn counter(name: &'static str, help: &'static str, value: u64) -> Measure
    ensures { measure_view result ≡ counter name.now help.now value }
{
    Measure {
        name,
        help,
        kind: MetricKind::Counter,
        value,
    }
}

/// Appends the families of all figures.
#[tactic(auto, using(crate::proofs::Joined::more), unfolding(crate::specs::Service::service_text))]
pub fn put_service(
    alloc: Global,
    out: &mut Vec<u8>,
    figures: &ServiceFigures,
) -> Result<(), AllocError>
    ensures { OnOk result (out.new.items ≡ out.old.items ++ service_text figures.now) }
{
    put_build(alloc, out, figures.version)?;
    put_each(alloc, out, &standing(figures))?;
    put_memory(alloc, out, figures.resident_bytes)?;
    put_each(alloc, out, &receiving(figures))?;
    put_requests(alloc, out, &figures.counts.requests)?;
    put_each(alloc, out, &sending(figures))?;
    put_answers(
        alloc,
        out,
        figures.counts.answers,
        figures.counts.failed_answers,
    )
}

/// How the service stands.
fn standing(figures: &ServiceFigures) -> [Measure; 4]
    ensures { map measure_view result ≡ standing_of figures.now }
{
    [
        counter(
            "otelcol_process_uptime_seconds_total",
            "Seconds since the start",
            figures.uptime,
        ),
        gauge(
            "nimchaes_tenants",
            "Tenants that are present",
            figures.tenants,
        ),
        gauge(
            "nimchaes_draining",
            "Whether a drain was asked for or has begun",
            if figures.is_draining { 1 } else { 0 },
        ),
        counter(
            "nimchaes_memory_refusals_total",
            "How often a post or a step or a sender of a batch was refused memory",
            figures.counts.memory_refusals,
        ),
    ]
}

/// How batches leave it.
fn sending(figures: &ServiceFigures) -> [Measure; 7]
    ensures { map measure_view result ≡ sending_of figures.now }
{
    [
        counter(
            "nimchaes_turns_total",
            "Turns of shards that looked whether a decision or a batch was ready",
            figures.counts.turns,
        ),
        counter(
            "nimchaes_idle_turns_total",
            "Turns of shards that found nothing ready",
            figures.counts.idle_turns,
        ),
        gauge(
            "nimchaes_lane_jobs",
            "Batches that wait for a sender",
            figures.counts.lane_jobs,
        ),
        gauge(
            "nimchaes_lane_capacity",
            "Batches for which there is room before senders",
            figures.lane_capacity,
        ),
        gauge(
            "nimchaes_senders",
            "Senders that there are",
            figures.senders,
        ),
        gauge(
            "nimchaes_senders_busy",
            "Senders that have a batch",
            figures.counts.senders_busy,
        ),
        counter(
            "nimchaes_retries_total",
            "Answers after which a batch is sent again unless it was tried for too long",
            figures.counts.retries,
        ),
    ]
}

/// How bodies come to it.
fn receiving(figures: &ServiceFigures) -> [Measure; 5]
    ensures { map measure_view result ≡ receiving_of figures.now }
{
    [
        gauge(
            "nimchaes_receivers",
            "Receivers that there are",
            figures.receivers,
        ),
        gauge(
            "nimchaes_connections_open",
            "Connections that have a receiver",
            figures.counts.connections_open,
        ),
        counter(
            "nimchaes_connections_total",
            "Connections that have or had a receiver",
            figures.counts.connections,
        ),
        counter(
            "nimchaes_received_bytes_total",
            "Bytes that were read from clients",
            figures.counts.received_bytes,
        ),
        counter(
            "nimchaes_sent_bytes_total",
            "Bytes that were written to clients",
            figures.counts.sent_bytes,
        ),
    ]
}

/// Appends these families.
fn put_each(alloc: Global, out: &mut Vec<u8>, mut measures: &[Measure]) -> Result<(), AllocError>
    ensures { OnOk result (out.new.items ≡ out.old.items ++ families_of
        (map measure_view measures.entry.now)) }
{
    while let [first, rest @ ..] = measures {
        put_measure(alloc, out, first.name, first.help, first.kind, first.value)?;
        measures = rest;
    }
    Ok(())
}

/// Appends the memory that the process has, where that is known.
fn put_memory(alloc: Global, out: &mut Vec<u8>, bytes: Option<u64>) -> Result<(), AllocError>
    ensures { OnOk result (out.new.items ≡ out.old.items ++ memory_text bytes) }
{
    match bytes {
        Some(bytes) => put_measure(
            alloc,
            out,
            "otelcol_process_memory_rss_bytes",
            "Bytes of memory that the process has",
            MetricKind::Gauge,
            bytes,
        ),
        None => Ok(()),
    }
}

/// Appends what is told of the version that runs.
fn put_build(alloc: Global, out: &mut Vec<u8>, version: &'static str) -> Result<(), AllocError>
    ensures { OnOk result (out.new.items ≡ out.old.items ++ build_text version.now) }
{
    put_measures(
        alloc,
        out,
        "nimchaes_build_info",
        "The version that runs",
        MetricKind::Gauge,
        "version",
        &[sample(version, 1)],
    )
}

/// Appends the requests that were answered.
fn put_requests(
    alloc: Global,
    out: &mut Vec<u8>,
    counts: &[u64; STATUS_COUNTS],
) -> Result<(), AllocError>
    ensures { OnOk result (out.new.items ≡ out.old.items ++ requests_text counts.now) }
{
    put_measures(
        alloc,
        out,
        "nimchaes_requests_total",
        "Requests that were answered by their status",
        MetricKind::Counter,
        "code",
        &by_status(counts),
    )
}

/// Appends the answers of back ends, beside the batches to which none came.
fn put_answers(
    alloc: Global,
    out: &mut Vec<u8>,
    counts: StatusCounts,
    failed: u64,
) -> Result<(), AllocError>
    ensures { OnOk result (out.new.items ≡ out.old.items ++ answers_text counts failed) }
{
    put_measures(
        alloc,
        out,
        "nimchaes_back_end_answers_total",
        "Answers of back ends by their status",
        MetricKind::Counter,
        "class",
        &answers(counts, failed),
    )
}

/// The figure of each class of answers, behind that of the batches to which none came.
fn answers(counts: StatusCounts, failed: u64) -> [Sample; 5]
    ensures { map sample_of result ≡ answers_of counts failed }
{
    [
        sample("none", failed),
        sample("2xx", counts.success),
        sample("4xx", counts.client_error),
        sample("5xx", counts.server_error),
        sample("other", counts.other),
    ]
}

/// Each status's figure.
fn by_status(counts: &[u64; STATUS_COUNTS]) -> [Sample; STATUS_COUNTS]
    ensures { map sample_of result ≡ counts_by_status counts.now }
{
    [
        sample("200", counts[0]),
        sample("400", counts[1]),
        sample("403", counts[2]),
        sample("404", counts[3]),
        sample("405", counts[4]),
        sample("413", counts[5]),
        sample("415", counts[6]),
        sample("429", counts[7]),
        sample("431", counts[8]),
        sample("503", counts[9]),
        sample("other", counts[10]),
    ]
}

/// A figure under this value of its label.
fn sample(labelled: &'static str, value: u64) -> Sample
    ensures { sample_of result ≡ (labelled.now, value) }
{
    Sample { labelled, value }
}
