//! Figures as a scraper reads them.
//!
//! Where memory is refused, a part of what was asked for may have been appended.

ghost use Rattle.std.specs.Prelude.{◌≡◌, ◌++◌, map, decimal, string_bytes, IfOk, OnOk};
ghost use Rattle.admin_pages.specs.Figures.{tenant_of};
ghost use Rattle.admin_pages.specs.Metrics.{label_byte, label_text, head_text, sample_text, labelled_text, measure_text, sample_of, labels_text, measures_text, seconds_text, amount_text, tenant_sample, samples_text, family_text, families_text, tenants_text};

use crate::figures::TenantFigures;
use crate::tenant_metric::{MetricKind, TenantMetric};
use std::alloc::{AllocError, Global};

/// Appends a family for each number that is told of a tenant, its counters first, with a sample for each tenant under
/// its name. A tenant for whom there is no such number has none.
#[tactic(auto, using(crate::proofs::Joined::more))]
pub fn put_tenant_metrics(
    alloc: Global,
    out: &mut Vec<u8>,
    tenants: &[TenantFigures],
) -> Result<(), AllocError>
    ensures { OnOk result (out.new.items ≡ out.old.items ++ tenants_text
        (map tenant_of tenants.now)) }
{
    put_families(alloc, out, tenants, &TenantMetric::counters())?;
    put_families(alloc, out, tenants, &TenantMetric::others())
}

/// Appends a family of one sample without a label. Its help has no backslash and no line feed.
#[tactic(auto, using(crate::proofs::Joined::more))]
pub fn put_measure(
    alloc: Global,
    out: &mut Vec<u8>,
    name: &str,
    help: &str,
    kind: MetricKind,
    value: u64,
) -> Result<(), AllocError>
    ensures { OnOk result (out.new.items ≡ out.old.items ++ measure_text name.now help.now kind
        value) }
{
    put_head(alloc, out, name, help, kind)?;
    let sample = format!(in alloc; "{name} {value}\n")?;
    out.extend_from_slice(sample.as_bytes())
}

/// A figure of a family, under one value of the family's label.
#[derive(Clone, Copy, Debug, PartialEq, Eq)]
pub struct Sample {
    pub labelled: &'static str,
    pub value: u64,
}

/// Appends a family whose samples are told apart by one label. Its help has no backslash and no line feed.
#[tactic(auto, using(crate::proofs::Joined::more))]
pub fn put_measures(
    alloc: Global,
    out: &mut Vec<u8>,
    name: &str,
    help: &str,
    kind: MetricKind,
    label: &str,
    samples: &[Sample],
) -> Result<(), AllocError>
    ensures { OnOk result (out.new.items
        ≡ out.old.items ++ measures_text name.now help.now kind label.now
        (map sample_of samples.now)) }
{
    put_head(alloc, out, name, help, kind)?;
    put_labels(alloc, out, name, label, samples)
}

/// Appends samples that are told apart by one label.
fn put_labels(
    alloc: Global,
    out: &mut Vec<u8>,
    name: &str,
    label: &str,
    mut samples: &[Sample],
) -> Result<(), AllocError>
    ensures { OnOk result (out.new.items
        ≡ out.old.items ++ labels_text name.now label.now (map sample_of samples.entry.now)) }
{
    while let [first, rest @ ..] = samples {
        put_figure(alloc, out, name, label, first.labelled, first.value)?;
        samples = rest;
    }
    Ok(())
}

/// Appends the families of these metrics.
fn put_families(
    alloc: Global,
    out: &mut Vec<u8>,
    tenants: &[TenantFigures],
    mut metrics: &[TenantMetric],
) -> Result<(), AllocError>
    ensures { OnOk result (out.new.items
        ≡ out.old.items ++ families_text (map tenant_of tenants.now) metrics.entry.now) }
{
    while let [first, rest @ ..] = metrics {
        put_family(alloc, out, tenants, *first)?;
        metrics = rest;
    }
    Ok(())
}

/// Appends the family of a metric.
#[tactic(auto, using(crate::proofs::Joined::more))]
fn put_family(
    alloc: Global,
    out: &mut Vec<u8>,
    tenants: &[TenantFigures],
    metric: TenantMetric,
) -> Result<(), AllocError>
    ensures { OnOk result (out.new.items ≡ out.old.items ++ family_text (map tenant_of tenants.now)
        metric) }
{
    let (name, kind) = (metric.metric(), metric.kind());
    put_head(alloc, out, name, metric.help(), kind)?;
    put_samples(alloc, out, tenants, metric)
}

/// Appends a metric's sample of each tenant.
fn put_samples(
    alloc: Global,
    out: &mut Vec<u8>,
    mut tenants: &[TenantFigures],
    metric: TenantMetric,
) -> Result<(), AllocError>
    ensures { OnOk result (out.new.items
        ≡ out.old.items ++ samples_text metric (map tenant_of tenants.entry.now)) }
{
    while let [first, rest @ ..] = tenants {
        put_sample(alloc, out, metric, first.name.as_str(), metric.value(first))?;
        tenants = rest;
    }
    Ok(())
}

/// Appends a metric's sample of the tenant of this name, if it has a value.
fn put_sample(
    alloc: Global,
    out: &mut Vec<u8>,
    metric: TenantMetric,
    tenant: &str,
    value: Option<u64>,
) -> Result<(), AllocError>
    ensures { OnOk result (out.new.items
        ≡ out.old.items ++ tenant_sample metric tenant.now value) }
{
    match value {
        Some(value) => {
            let amount = amount_of(alloc, metric, value)?;
            put_labelled(out, metric.metric(), "tenant", tenant, amount.as_bytes())
        }
        None => Ok(()),
    }
}

/// What a metric is, a moment in seconds.
fn amount_of(alloc: Global, metric: TenantMetric, value: u64) -> Result<String, AllocError>
    ensures { IfOk result (λ text. string_bytes text ≡ amount_text metric value) }
{
    if metric.is_moment() {
        seconds_of(alloc, value)
    } else {
        format!(in alloc; "{value}")
    }
}

/// Appends what a family is.
fn put_head(
    alloc: Global,
    out: &mut Vec<u8>,
    name: &str,
    help: &str,
    kind: MetricKind,
) -> Result<(), AllocError>
    ensures { OnOk result (out.new.items ≡ out.old.items ++ head_text name.now help.now kind) }
{
    let kind = kind.word();
    let head = format!(in alloc; "# HELP {name} {help}\n# TYPE {name} {kind}\n")?;
    out.extend_from_slice(head.as_bytes())
}

/// A moment of this many milliseconds, in seconds.
fn seconds_of(alloc: Global, milliseconds: u64) -> Result<String, AllocError>
    ensures { IfOk result (λ text. string_bytes text ≡ seconds_text milliseconds) }
{
    let seconds = milliseconds / 1000;
    let tenths = milliseconds / 100 % 10;
    let hundredths = milliseconds / 10 % 10;
    let thousandths = milliseconds % 10;
    format!(in alloc; "{seconds}.{tenths}{hundredths}{thousandths}")
}

/// Appends a figure under one label.
fn put_figure(
    alloc: Global,
    out: &mut Vec<u8>,
    name: &str,
    label: &str,
    labelled: &str,
    value: u64,
) -> Result<(), AllocError>
    ensures { OnOk result (out.new.items
        ≡ out.old.items ++ labelled_text name.now label.now labelled.now (decimal value)) }
{
    let value = format!(in alloc; "{value}")?;
    put_labelled(out, name, label, labelled, value.as_bytes())
}

/// Appends a sample under one label, whose value is this text.
#[tactic(auto, using(crate::proofs::Joined::more))]
fn put_labelled(
    out: &mut Vec<u8>,
    name: &str,
    label: &str,
    labelled: &str,
    value: &[u8],
) -> Result<(), AllocError>
    ensures { OnOk result (out.new.items
        ≡ out.old.items ++ labelled_text name.now label.now labelled.now value.now) }
{
    out.extend_from_slice(name.as_bytes())?;
    out.extend_from_slice(b"{")?;
    out.extend_from_slice(label.as_bytes())?;
    out.extend_from_slice(b"=\"")?;
    put_label(out, labelled.as_bytes())?;
    out.extend_from_slice(b"\"} ")?;
    out.extend_from_slice(value)?;
    out.extend_from_slice(b"\n")
}

/// Appends a label's value.
fn put_label(out: &mut Vec<u8>, mut value: &[u8]) -> Result<(), AllocError>
    ensures { OnOk result (out.new.items ≡ out.old.items ++ label_text value.entry.now) }
{
    while let [first, rest @ ..] = value {
        put_label_byte(out, *first)?;
        value = rest;
    }
    Ok(())
}

/// Appends a byte of a label's value.
fn put_label_byte(out: &mut Vec<u8>, byte: u8) -> Result<(), AllocError>
    ensures { OnOk result (out.new.items ≡ out.old.items ++ label_byte byte) }
{
    match byte {
        b'\\' => out.extend_from_slice(b"\\\\"),
        b'"' => out.extend_from_slice(b"\\\""),
        b'\n' => out.extend_from_slice(b"\\n"),
        _ => out.extend_from_slice(&[byte]),
    }
}
