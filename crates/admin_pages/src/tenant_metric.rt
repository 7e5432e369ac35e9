//! What is told of a tenant in numbers, as those outside name it.

ghost use Rattle.std.specs.Prelude.{◌≡◌};
ghost use Rattle.admin_pages.specs.Figures.{tenant_of};
ghost use Rattle.admin_pages.specs.TenantMetric.{all_counters, all_others, value_of, word_of, metric_of, help_of, kind_of, is_moment, kind_word};

use crate::figures::TenantFigures;

/// Whether a figure only grows (but for a new start of the process), or goes up and down.
#[derive(Clone, Copy, Debug, PartialEq, Eq)]
pub enum MetricKind {
    Counter,
    Gauge,
}

impl MetricKind {
    /// The word for it in a line of types.
    pub fn word(self) -> &'static str
        ensures { result.now ≡ kind_word self }
    {
        match self {
            MetricKind::Counter => "counter",
            MetricKind::Gauge => "gauge",
        }
    }
}

/// A number that is told of a tenant.
#[derive(Clone, Copy, Debug, PartialEq, Eq)]
pub enum TenantMetric {
    /// Spans that were taken: each of them is in one of the eleven places that follow.
    Accepted,
    /// Spans whose trace waits for its decision.
    Undecided,
    /// Spans that were kept, and wait for a batch.
    Pending,
    /// Spans whose batch waits to be sent.
    Queued,
    /// Spans whose batch is on its way, or waits for a retry.
    Active,
    /// Spans that the back end took.
    Exported,
    /// Spans whose trace no policy kept.
    NotSampled,
    /// Spans whose trace was pushed out before its decision.
    TooEarly,
    /// Spans whose batch met a full queue, or had more bytes than a batch may have.
    QueueFull,
    /// Spans whose batch was tried for too long.
    RetryExhausted,
    /// Spans whose batch the back end refused for good.
    BackEndRefused,
    /// Spans that the back end left out of a batch that it took.
    BackEndRejected,
    /// Spans without a valid id, left out of posts that were taken.
    Invalid,
    /// Spans for which there was no room, left out of posts that were taken.
    OverBudget,
    /// Traces that are present.
    Rows,
    /// Those of them that wait for their decision.
    UndecidedRows,
    /// How many traces may be present.
    RowsLimit,
    /// How many spans may wait for a decision or for a batch.
    SpansLimit,
    /// Batches that wait to be sent.
    QueuedBatches,
    /// How many of them may.
    QueuedBatchesLimit,
    /// How many bytes they have together.
    QueuedBytes,
    /// How many they may have.
    QueuedBytesLimit,
    /// When something of the tenant is due next.
    Ready,
    /// The status that its back end answered last, 0 where no whole answer came.
    BackEndStatus,
    /// When it did.
    BackEndStatusMoment,
}

impl TenantMetric {
    /// The fourteen counters of its spans, in the order of a report's line.
    pub fn counters() -> [TenantMetric; 14]
        ensures { result ≡ all_counters }
    {
        [
            TenantMetric::Accepted,
            TenantMetric::Undecided,
            TenantMetric::Pending,
            TenantMetric::Queued,
            TenantMetric::Active,
            TenantMetric::Exported,
            TenantMetric::NotSampled,
            TenantMetric::TooEarly,
            TenantMetric::QueueFull,
            TenantMetric::RetryExhausted,
            TenantMetric::BackEndRefused,
            TenantMetric::BackEndRejected,
            TenantMetric::Invalid,
            TenantMetric::OverBudget,
        ]
    }

    /// All others, in the order in which they are told: how full it is and may be, what is due, and what its back end
    /// answered.
    pub fn others() -> [TenantMetric; 11]
        ensures { result ≡ all_others }
    {
        [
            TenantMetric::Rows,
            TenantMetric::UndecidedRows,
            TenantMetric::RowsLimit,
            TenantMetric::SpansLimit,
            TenantMetric::QueuedBatches,
            TenantMetric::QueuedBatchesLimit,
            TenantMetric::QueuedBytes,
            TenantMetric::QueuedBytesLimit,
            TenantMetric::Ready,
            TenantMetric::BackEndStatus,
            TenantMetric::BackEndStatusMoment,
        ]
    }

    /// What it is for a tenant: a moment in milliseconds since the start of the service, a status, or how many there
    /// are. None where there is no such moment, or no answer yet.
    pub fn value(self, tenant: &TenantFigures) -> Option<u64>
        ensures { result ≡ value_of self (tenant_of tenant.now) }
    {
        let (counters, usage) = (&tenant.counters, &tenant.usage);
        match self {
            TenantMetric::Accepted => Some(counters[0]),
            TenantMetric::Undecided => Some(counters[1]),
            TenantMetric::Pending => Some(counters[2]),
            TenantMetric::Queued => Some(counters[3]),
            TenantMetric::Active => Some(counters[4]),
            TenantMetric::Exported => Some(counters[5]),
            TenantMetric::NotSampled => Some(counters[6]),
            TenantMetric::TooEarly => Some(counters[7]),
            TenantMetric::QueueFull => Some(counters[8]),
            TenantMetric::RetryExhausted => Some(counters[9]),
            TenantMetric::BackEndRefused => Some(counters[10]),
            TenantMetric::BackEndRejected => Some(counters[11]),
            TenantMetric::Invalid => Some(counters[12]),
            TenantMetric::OverBudget => Some(counters[13]),
            TenantMetric::Rows => Some(usage.rows),
            TenantMetric::UndecidedRows => Some(usage.undecided_rows),
            TenantMetric::RowsLimit => Some(usage.rows_limit),
            TenantMetric::SpansLimit => Some(usage.spans_limit),
            TenantMetric::QueuedBatches => Some(usage.queued_batches),
            TenantMetric::QueuedBatchesLimit => Some(usage.queued_batches_limit),
            TenantMetric::QueuedBytes => Some(usage.queued_bytes),
            TenantMetric::QueuedBytesLimit => Some(usage.queued_bytes_limit),
            TenantMetric::Ready => tenant.ready,
            TenantMetric::BackEndStatus => tenant.back_end.map(|answer| u64::from(answer.status)),
            TenantMetric::BackEndStatusMoment => tenant.back_end.map(|answer| answer.moment),
        }
    }

    /// Its word in a report and in JSON.
    pub fn word(self) -> &'static str
        ensures { result.now ≡ word_of self }
    {
        match self {
            TenantMetric::Accepted => "accepted",
            TenantMetric::Undecided => "undecided",
            TenantMetric::Pending => "pending",
            TenantMetric::Queued => "queued",
            TenantMetric::Active => "active",
            TenantMetric::Exported => "exported",
            TenantMetric::NotSampled => "not_sampled",
            TenantMetric::TooEarly => "too_early",
            TenantMetric::QueueFull => "queue_full",
            TenantMetric::RetryExhausted => "retry_exhausted",
            TenantMetric::BackEndRefused => "back_end_refused",
            TenantMetric::BackEndRejected => "back_end_rejected",
            TenantMetric::Invalid => "invalid",
            TenantMetric::OverBudget => "over_budget",
            TenantMetric::Rows => "rows",
            TenantMetric::UndecidedRows => "undecided_rows",
            TenantMetric::RowsLimit => "rows_limit",
            TenantMetric::SpansLimit => "spans_limit",
            TenantMetric::QueuedBatches => "queued_batches",
            TenantMetric::QueuedBatchesLimit => "queued_batches_limit",
            TenantMetric::QueuedBytes => "queued_bytes",
            TenantMetric::QueuedBytesLimit => "queued_bytes_limit",
            TenantMetric::Ready => "ready_at_ms",
            TenantMetric::BackEndStatus => "back_end_status",
            TenantMetric::BackEndStatusMoment => "back_end_status_at_ms",
        }
    }

    /// The name of its metric.
    pub fn metric(self) -> &'static str
        ensures { result.now ≡ metric_of self }
    {
        match self {
            TenantMetric::Accepted => "otelcol_receiver_accepted_spans_total",
            TenantMetric::Undecided => "nimchaes_undecided_spans",
            TenantMetric::Pending => "nimchaes_pending_spans",
            TenantMetric::Queued => "nimchaes_queued_spans",
            TenantMetric::Active => "nimchaes_active_spans",
            TenantMetric::Exported => "otelcol_exporter_sent_spans_total",
            TenantMetric::NotSampled => "nimchaes_not_sampled_spans_total",
            TenantMetric::TooEarly => "nimchaes_too_early_spans_total",
            TenantMetric::QueueFull => "otelcol_exporter_enqueue_failed_spans_total",
            TenantMetric::RetryExhausted => "nimchaes_retry_exhausted_spans_total",
            TenantMetric::BackEndRefused => "nimchaes_back_end_refused_spans_total",
            TenantMetric::BackEndRejected => "nimchaes_back_end_rejected_spans_total",
            TenantMetric::Invalid => "nimchaes_invalid_spans_total",
            TenantMetric::OverBudget => "nimchaes_over_budget_spans_total",
            TenantMetric::Rows => "otelcol_processor_tail_sampling_sampling_traces_on_memory",
            TenantMetric::UndecidedRows => "nimchaes_undecided_traces",
            TenantMetric::RowsLimit => "nimchaes_traces_limit",
            TenantMetric::SpansLimit => "nimchaes_spans_limit",
            TenantMetric::QueuedBatches => "otelcol_exporter_queue_size",
            TenantMetric::QueuedBatchesLimit => "otelcol_exporter_queue_capacity",
            TenantMetric::QueuedBytes => "nimchaes_queued_bytes",
            TenantMetric::QueuedBytesLimit => "nimchaes_queued_bytes_limit",
            TenantMetric::Ready => "nimchaes_ready_uptime_seconds",
            TenantMetric::BackEndStatus => "nimchaes_back_end_last_status",
            TenantMetric::BackEndStatusMoment => "nimchaes_back_end_last_status_uptime_seconds",
        }
    }

    /// What a scraper is told that it is, in a line without a backslash.
    pub fn help(self) -> &'static str
        ensures { result.now ≡ help_of self }
    {
        match self {
            TenantMetric::Accepted => "Spans that were taken",
            TenantMetric::Undecided => "Spans whose trace waits for its decision",
            TenantMetric::Pending => "Spans that were kept and wait for a batch",
            TenantMetric::Queued => "Spans in batches that wait to be sent",
            TenantMetric::Active => "Spans in batches on their way or waiting for a retry",
            TenantMetric::Exported => "Spans that the back end took",
            TenantMetric::NotSampled => "Spans of traces that no policy kept",
            TenantMetric::TooEarly => "Spans of traces that were pushed out before their decision",
            TenantMetric::QueueFull => "Spans in batches that met a full queue or were too large",
            TenantMetric::RetryExhausted => "Spans in batches that were tried for too long",
            TenantMetric::BackEndRefused => "Spans in batches that the back end refused for good",
            TenantMetric::BackEndRejected =>
                "Spans that the back end left out of a batch that it took",
            TenantMetric::Invalid => "Spans without a valid id, left out of posts that were taken",
            TenantMetric::OverBudget =>
                "Spans for which there was no room, left out of posts that were taken",
            TenantMetric::Rows => "Traces that are present, undecided ones and decided ones",
            TenantMetric::UndecidedRows => "Traces that wait for their decision",
            TenantMetric::RowsLimit => "Traces that may be present",
            TenantMetric::SpansLimit => "Spans that may wait for a decision or for a batch",
            TenantMetric::QueuedBatches => "Batches that wait to be sent",
            TenantMetric::QueuedBatchesLimit => "Batches that may wait to be sent",
            TenantMetric::QueuedBytes => "Bytes of batches that wait to be sent or 0 after a drain",
            TenantMetric::QueuedBytesLimit => "Bytes that batches may have that wait to be sent",
            TenantMetric::Ready =>
                "Seconds after the start at which something of the tenant is due next",
            TenantMetric::BackEndStatus =>
                "Status that the back end answered last or 0 if no whole answer came",
            TenantMetric::BackEndStatusMoment =>
                "Seconds after the start at which the back end answered last",
        }
    }

    /// Whether it only grows.
    pub fn kind(self) -> MetricKind
        ensures { result ≡ kind_of self }
    {
        match self {
            TenantMetric::Accepted
            | TenantMetric::Exported
            | TenantMetric::NotSampled
            | TenantMetric::TooEarly
            | TenantMetric::QueueFull
            | TenantMetric::RetryExhausted
            | TenantMetric::BackEndRefused
            | TenantMetric::BackEndRejected
            | TenantMetric::Invalid
            | TenantMetric::OverBudget => MetricKind::Counter,
            _ => MetricKind::Gauge,
        }
    }

    /// Whether it is a moment, which scrapers are told in seconds.
    pub fn is_moment(self) -> bool
        ensures { result ≡ is_moment self }
    {
        match self {
            TenantMetric::Ready | TenantMetric::BackEndStatusMoment => true,
            _ => false,
        }
    }
}
