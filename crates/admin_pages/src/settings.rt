//! A tenant's settings as JSON.
//!
//! Where memory is refused, a part of what was asked for may have been appended.

ghost use Rattle.std.specs.Prelude.{◌≡◌, ◌++◌, [], map, OnOk, string_bytes};
ghost use Rattle.tail_settings.specs.Batch.{batch_view};
ghost use Rattle.tail_settings.specs.Policy.{status_view, leaf_view, policy_view};
ghost use Rattle.tail_settings.specs.RetryOnFailure.{retry_view};
ghost use Rattle.tail_settings.specs.Section.{section_view};
ghost use Rattle.tail_settings.specs.SendingQueue.{sending_queue_view};
ghost use Rattle.tail_settings.specs.TailSampling.{tail_sampling_view};
ghost use Rattle.admin_pages.specs.Figures.{tenant_of};
ghost use Rattle.admin_pages.specs.Json.{string_text};
ghost use Rattle.admin_pages.specs.Settings.{status_text, statuses_behind, strings_behind, leaf_text, leaves_behind, policy_text, policies_behind, sampling_text, batch_text, queue_text, retry_text, plain_text, tables_text, section_text, settled_text};

use crate::figures::TenantFigures;
use crate::json::{put_figures, put_string};
use std::alloc::{AllocError, Global};
use tail_settings::{
    Batch, LeafPolicy, PolicySpec, RetryOnFailure, Section, SendingQueue, StatusCode, TailSampling,
};

/// Appends the object of a tenant, with its settings behind its figures.
#[tactic(auto, using(crate::proofs::Joined::more), unfolding(crate::specs::Settings::settled_text))]
pub fn put_settled_tenant(
    alloc: Global,
    out: &mut Vec<u8>,
    tenant: &TenantFigures,
    section: &Section,
) -> Result<(), AllocError>
    ensures { OnOk result (out.new.items
        ≡ out.old.items ++ settled_text (tenant_of tenant.now) (section_view section.now)) }
{
    put_figures(alloc, out, tenant)?;
    out.extend_from_slice(b",\"settings\":")?;
    put_section(alloc, out, section)?;
    out.extend_from_slice(b"}")
}

/// Appends the object of a tenant's settings.
#[tactic(auto, using(crate::proofs::Joined::more), unfolding(crate::specs::Settings::section_text))]
fn put_section(alloc: Global, out: &mut Vec<u8>, section: &Section) -> Result<(), AllocError>
    ensures { OnOk result (out.new.items ≡ out.old.items ++ section_text
        (section_view section.now)) }
{
    out.extend_from_slice(b"{")?;
    put_plain(alloc, out, section)?;
    put_tables(alloc, out, section)?;
    out.extend_from_slice(b"}")
}

/// Appends the keys of a tenant that stand in no table.
#[tactic(auto, using(crate::proofs::Joined::more), unfolding(crate::specs::Settings::plain_text))]
fn put_plain(alloc: Global, out: &mut Vec<u8>, section: &Section) -> Result<(), AllocError>
    ensures { OnOk result (out.new.items ≡ out.old.items ++ plain_text (section_view section.now)) }
{
    let (max_spans, seed) = (section.max_spans, section.seed);
    out.extend_from_slice(b"\"endpoint\":")?;
    put_string(out, section.endpoint.as_str())?;
    let numbers = format!(in alloc; ",\"max_spans\":{max_spans},\"seed\":{seed}")?;
    out.extend_from_slice(numbers.as_bytes())
}

/// Appends a tenant's tables.
#[tactic(auto, using(crate::proofs::Joined::more), unfolding(crate::specs::Settings::tables_text))]
fn put_tables(alloc: Global, out: &mut Vec<u8>, section: &Section) -> Result<(), AllocError>
    ensures { OnOk result (out.new.items ≡ out.old.items ++ tables_text
        (section_view section.now)) }
{
    out.extend_from_slice(b",\"tail_sampling\":")?;
    put_sampling(alloc, out, &section.tail_sampling)?;
    out.extend_from_slice(b",\"batch\":")?;
    put_batch(alloc, out, &section.batch)?;
    out.extend_from_slice(b",\"sending_queue\":")?;
    put_queue(alloc, out, &section.sending_queue)?;
    out.extend_from_slice(b",\"retry_on_failure\":")?;
    put_retry(alloc, out, &section.retry_on_failure)
}

/// Appends the table `tail_sampling`.
#[tactic(auto, using(crate::proofs::Joined::more), unfolding(crate::specs::Settings::sampling_text))]
fn put_sampling(alloc: Global, out: &mut Vec<u8>, sampling: &TailSampling) -> Result<(), AllocError>
    ensures { OnOk result (out.new.items ≡ out.old.items ++ sampling_text
        (tail_sampling_view sampling.now)) }
{
    let (wait, traces) = (sampling.decision_wait, sampling.num_traces);
    let (sampled, others) = (sampling.sampled_cache_size, sampling.non_sampled_cache_size);
    let numbers = format!(in alloc;
        "{{\"decision_wait_ms\":{wait},\"num_traces\":{traces},\"decision_cache\":{{\
\"sampled_cache_size\":{sampled},\"non_sampled_cache_size\":{others}}},\"policy\":["
    )?;
    out.extend_from_slice(numbers.as_bytes())?;
    put_policies(alloc, out, &sampling.policies)?;
    out.extend_from_slice(b"]}")
}

/// Appends the table `batch`.
#[tactic(auto, unfolding(crate::specs::Settings::batch_text))]
fn put_batch(alloc: Global, out: &mut Vec<u8>, batch: &Batch) -> Result<(), AllocError>
    ensures { OnOk result (out.new.items ≡ out.old.items ++ batch_text (batch_view batch.now)) }
{
    let (size, timeout, max_size) = (
        batch.send_batch_size,
        batch.timeout,
        batch.send_batch_max_size,
    );
    let table = format!(in alloc;
        "{{\"send_batch_size\":{size},\"timeout_ms\":{timeout},\"send_batch_max_size\":{max_size}}}"
    )?;
    out.extend_from_slice(table.as_bytes())
}

/// Appends the table `sending_queue`.
#[tactic(auto, unfolding(crate::specs::Settings::queue_text))]
fn put_queue(alloc: Global, out: &mut Vec<u8>, queue: &SendingQueue) -> Result<(), AllocError>
    ensures { OnOk result (out.new.items ≡ out.old.items ++ queue_text
        (sending_queue_view queue.now)) }
{
    let (size, consumers) = (queue.queue_size, queue.num_consumers);
    let table = format!(in alloc; "{{\"queue_size\":{size},\"num_consumers\":{consumers}}}")?;
    out.extend_from_slice(table.as_bytes())
}

/// Appends the table `retry_on_failure`.
#[tactic(auto, unfolding(crate::specs::Settings::retry_text))]
fn put_retry(alloc: Global, out: &mut Vec<u8>, retry: &RetryOnFailure) -> Result<(), AllocError>
    ensures { OnOk result (out.new.items ≡ out.old.items ++ retry_text (retry_view retry.now)) }
{
    let (initial, max, elapsed) = (
        retry.initial_interval,
        retry.max_interval,
        retry.max_elapsed_time,
    );
    let (multiplier, factor) = (retry.multiplier, retry.randomization_factor);
    let table = format!(in alloc;
        "{{\"initial_interval_ms\":{initial},\"max_interval_ms\":{max},\"max_elapsed_time_ms\":{elapsed},\
\"multiplier\":{multiplier},\"randomization_factor\":{factor}}}"
    )?;
    out.extend_from_slice(table.as_bytes())
}

/// Appends policies, as the elements of an array.
fn put_policies(
    alloc: Global,
    out: &mut Vec<u8>,
    mut policies: &[PolicySpec],
) -> Result<(), AllocError>
    ensures { OnOk result (out.new.items
        ≡ out.old.items ++ policies_behind [] (map policy_view policies.entry.now)) }
{
    let mut mark = b"".as_slice();
    while let [first, rest @ ..] = policies {
        out.extend_from_slice(mark)?;
        put_policy(alloc, out, first)?;
        mark = b",".as_slice();
        policies = rest;
    }
    Ok(())
}

/// Appends a policy.
#[tactic(auto, using(crate::proofs::Joined::more), unfolding(crate::specs::Settings::policy_text))]
fn put_policy(alloc: Global, out: &mut Vec<u8>, policy: &PolicySpec) -> Result<(), AllocError>
    ensures { OnOk result (out.new.items ≡ out.old.items ++ policy_text (policy_view policy.now)) }
{
    match policy {
        PolicySpec::Leaf(leaf) => put_leaf(alloc, out, leaf),
        PolicySpec::And(leaves) => {
            out.extend_from_slice(b"{\"type\":\"and\",\"and_sub_policy\":[")?;
            put_leaves(alloc, out, leaves)?;
            out.extend_from_slice(b"]}")
        }
    }
}

/// Appends policies that hold no other, as the elements of an array.
fn put_leaves(alloc: Global, out: &mut Vec<u8>, mut leaves: &[LeafPolicy]) -> Result<(), AllocError>
    ensures { OnOk result (out.new.items ≡ out.old.items ++ leaves_behind []
        (map leaf_view leaves.entry.now)) }
{
    let mut mark = b"".as_slice();
    while let [first, rest @ ..] = leaves {
        out.extend_from_slice(mark)?;
        put_leaf(alloc, out, first)?;
        mark = b",".as_slice();
        leaves = rest;
    }
    Ok(())
}

/// Appends a policy that holds no other.
#[tactic(auto, using(crate::proofs::Joined::more), unfolding(crate::specs::Settings::leaf_text))]
fn put_leaf(alloc: Global, out: &mut Vec<u8>, leaf: &LeafPolicy) -> Result<(), AllocError>
    ensures { OnOk result (out.new.items ≡ out.old.items ++ leaf_text (leaf_view leaf.now)) }
{
    match leaf {
        LeafPolicy::AlwaysSample => out.extend_from_slice(b"{\"type\":\"always_sample\"}"),
        LeafPolicy::Latency { threshold_ms } => {
            let text = format!(in alloc;
                "{{\"type\":\"latency\",\"threshold_ms\":{threshold_ms}}}"
            )?;
            out.extend_from_slice(text.as_bytes())
        }
        LeafPolicy::StatusCode { status_codes } => {
            out.extend_from_slice(b"{\"type\":\"status_code\",\"status_codes\":[")?;
            put_statuses(out, status_codes)?;
            out.extend_from_slice(b"]}")
        }
        LeafPolicy::StringAttribute { key, values } => {
            out.extend_from_slice(b"{\"type\":\"string_attribute\",\"key\":")?;
            put_string(out, key.as_str())?;
            out.extend_from_slice(b",\"values\":[")?;
            put_strings(out, values)?;
            out.extend_from_slice(b"]}")
        }
        LeafPolicy::NumericAttribute {
            key,
            min_value,
            max_value,
        } => {
            out.extend_from_slice(b"{\"type\":\"numeric_attribute\",\"key\":")?;
            put_string(out, key.as_str())?;
            let bounds = format!(in alloc;
                ",\"min_value\":{min_value},\"max_value\":{max_value}}}"
            )?;
            out.extend_from_slice(bounds.as_bytes())
        }
    }
}

/// Appends statuses, as the elements of an array.
fn put_statuses(out: &mut Vec<u8>, mut statuses: &[StatusCode]) -> Result<(), AllocError>
    ensures { OnOk result (out.new.items
        ≡ out.old.items ++ statuses_behind [] (map status_view statuses.entry.now)) }
{
    let mut mark = b"".as_slice();
    while let [first, rest @ ..] = statuses {
        out.extend_from_slice(mark)?;
        put_status(out, *first)?;
        mark = b",".as_slice();
        statuses = rest;
    }
    Ok(())
}

/// Appends a status.
fn put_status(out: &mut Vec<u8>, status: StatusCode) -> Result<(), AllocError>
    ensures { OnOk result (out.new.items ≡ out.old.items ++ status_text (status_view status)) }
{
    match status {
        StatusCode::Unset => out.extend_from_slice(b"\"UNSET\""),
        StatusCode::Ok => out.extend_from_slice(b"\"OK\""),
        StatusCode::Error => out.extend_from_slice(b"\"ERROR\""),
    }
}

/// Appends strings, as the elements of an array.
fn put_strings(out: &mut Vec<u8>, mut texts: &[String]) -> Result<(), AllocError>
    ensures { OnOk result (out.new.items
        ≡ out.old.items ++ strings_behind [] (map string_bytes texts.entry.now)) }
{
    let mut mark = b"".as_slice();
    while let [first, rest @ ..] = texts {
        out.extend_from_slice(mark)?;
        put_string(out, first.as_str())?;
        mark = b",".as_slice();
        texts = rest;
    }
    Ok(())
}
