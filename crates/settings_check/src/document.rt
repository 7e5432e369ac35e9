//! Settings as a document that says all of them.

ghost use Rattle.std.specs.Prelude.{◌≡◌, ◌<◌, ◌^◌, false, map, Ok, IfOk, OnOk, string_bytes};
ghost use Rattle.toml.specs.Data.{string};
ghost use Rattle.toml.specs.Text.{IsDocumentText};
ghost use Rattle.toml.specs.View.{view, table_view};
ghost use Rattle.tail_settings.specs.Batch.{batch_view};
ghost use Rattle.tail_settings.specs.Global.{global_view};
ghost use Rattle.tail_settings.specs.Policy.{status_view, leaf_view, policy_view};
ghost use Rattle.tail_settings.specs.RetryOnFailure.{retry_view};
ghost use Rattle.tail_settings.specs.Section.{section_view};
ghost use Rattle.tail_settings.specs.SendingQueue.{sending_queue_view};
ghost use Rattle.tail_settings.specs.Settings.{settings_view, settings_of};
ghost use Rattle.tail_settings.specs.Valid.{AreValidSettings};
ghost use Rattle.tail_settings.specs.TailSampling.{tail_sampling_view};
ghost use Rattle.settings_check.specs.Document.{number, tables, texts, global_table, status_name, leaf_table, policy_table, cache_table, sampling_table, batch_table, queue_table, retry_table, section_tables, section_table, tenant_table, document_of};
ghost use Rattle.settings_check.specs.Put.{put_member};

use std::alloc::{AllocError, Global};
use tail_settings::{
    Batch, GlobalSettings, LeafPolicy, PolicySpec, RetryOnFailure, Section, SendingQueue, Settings,
    StatusCode, TailSampling,
};
use toml::{Table, Value};

/// Puts a value at a key.
pub fn put(alloc: Global, table: &mut Table, key: &str, value: Value) -> Result<(), AllocError>
    ensures { OnOk result (table_view table.new ≡ put_member key.now (view value)
        (table_view table.old)) }
{
    let key = String::from_str(alloc, key)?;
    drop(table.insert(key, value)?);
    Ok(())
}

/// Puts a whole number at a key.
fn put_number(alloc: Global, table: &mut Table, key: &str, n: u64) -> Result<(), AllocError>
    requires { n < 2 ^ 63 }
    ensures { OnOk result (table_view table.new ≡ put_member key.now (number n)
        (table_view table.old)) }
{
    put(alloc, table, key, Value::Integer(n as i64))
}

/// Puts a text at a key.
pub fn put_text(alloc: Global, table: &mut Table, key: &str, text: &str) -> Result<(), AllocError>
    ensures { OnOk result (table_view table.new ≡ put_member key.now (string text.now)
        (table_view table.old)) }
{
    put(alloc, table, key, Value::string(alloc, text)?)
}

/// The table `global`.
fn global_table(alloc: Global, global: &GlobalSettings) -> Result<Table, AllocError>
    ensures { IfOk result (λ t. table_view t ≡ global_table (global_view global.now)) }
{
    let mut table = Table::new(alloc);
    put_number(alloc, &mut table, "shards", u64::from(global.shards))?;
    put_number(alloc, &mut table, "parts", u64::from(global.parts))?;
    put_number(alloc, &mut table, "receivers", u64::from(global.receivers))?;
    put_number(alloc, &mut table, "senders", u64::from(global.senders))?;
    put_number(alloc, &mut table, "lane_size", u64::from(global.lane_size))?;
    put_text(alloc, &mut table, "listen", global.listen.as_str())?;
    let header = global.tenant_header.as_str();
    put_text(alloc, &mut table, "tenant_header", header)?;
    Ok(table)
}

/// The name of a status.
fn status_name(status: StatusCode) -> &'static str
    ensures { result.now ≡ status_name (status_view status) }
{
    match status {
        StatusCode::Unset => "UNSET",
        StatusCode::Ok => "OK",
        StatusCode::Error => "ERROR",
    }
}

/// The array of some statuses' names.
fn status_names(alloc: Global, statuses: &[StatusCode]) -> Result<Value, AllocError>
    ensures { IfOk result (λ v. view v ≡ texts status_name (map status_view statuses.now)) }
{
    let mut names = Vec::new(alloc);
    for status in statuses {
        names.push(Value::string(alloc, status_name(*status))?)?;
    }
    Ok(Value::Array(names))
}

/// The array of some texts.
fn text_array(alloc: Global, values: &[String]) -> Result<Value, AllocError>
    ensures { IfOk result (λ v. view v ≡ texts (λ text. text) (map string_bytes values.now)) }
{
    let mut members = Vec::new(alloc);
    for value in values {
        members.push(Value::string(alloc, value.as_str())?)?;
    }
    Ok(Value::Array(members))
}

/// The table of a policy that holds no other.
fn leaf_table(alloc: Global, leaf: &LeafPolicy) -> Result<Table, AllocError>
    ensures { IfOk result (λ t. table_view t ≡ leaf_table (leaf_view leaf.now)) }
{
    let mut table = Table::new(alloc);
    match leaf {
        LeafPolicy::AlwaysSample => put_text(alloc, &mut table, "type", "always_sample")?,
        LeafPolicy::Latency { threshold_ms } => {
            put_text(alloc, &mut table, "type", "latency")?;
            put_number(
                alloc,
                &mut table,
                "threshold_ms",
                (*threshold_ms).min(1 << 40),
            )?;
        }
        LeafPolicy::StatusCode { status_codes } => {
            put_text(alloc, &mut table, "type", "status_code")?;
            let names = status_names(alloc, status_codes.as_slice())?;
            put(alloc, &mut table, "status_codes", names)?;
        }
        LeafPolicy::StringAttribute { key, values } => {
            put_text(alloc, &mut table, "type", "string_attribute")?;
            put_text(alloc, &mut table, "key", key.as_str())?;
            let values = text_array(alloc, values.as_slice())?;
            put(alloc, &mut table, "values", values)?;
        }
        LeafPolicy::NumericAttribute {
            key,
            min_value,
            max_value,
        } => {
            put_text(alloc, &mut table, "type", "numeric_attribute")?;
            put_text(alloc, &mut table, "key", key.as_str())?;
            put(alloc, &mut table, "min_value", Value::Integer(*min_value))?;
            put(alloc, &mut table, "max_value", Value::Integer(*max_value))?;
        }
    }
    Ok(table)
}

/// The array of some policies that hold no other.
fn leaf_array(alloc: Global, leaves: &[LeafPolicy]) -> Result<Value, AllocError>
    ensures { IfOk result (λ v. view v ≡ tables leaf_table (map leaf_view leaves.now)) }
{
    let mut tables = Vec::new(alloc);
    for leaf in leaves {
        tables.push(Value::Table(leaf_table(alloc, leaf)?))?;
    }
    Ok(Value::Array(tables))
}

/// The table of a policy.
fn policy_table(alloc: Global, policy: &PolicySpec) -> Result<Table, AllocError>
    ensures { IfOk result (λ t. table_view t ≡ policy_table (policy_view policy.now)) }
{
    match policy {
        PolicySpec::Leaf(leaf) => leaf_table(alloc, leaf),
        PolicySpec::And(leaves) => {
            let mut table = Table::new(alloc);
            put_text(alloc, &mut table, "type", "and")?;
            let leaves = leaf_array(alloc, leaves.as_slice())?;
            put(alloc, &mut table, "and_sub_policy", leaves)?;
            Ok(table)
        }
    }
}

/// The array of some policies.
fn policy_array(alloc: Global, policies: &[PolicySpec]) -> Result<Value, AllocError>
    ensures { IfOk result (λ v. view v ≡ tables policy_table (map policy_view policies.now)) }
{
    let mut tables = Vec::new(alloc);
    for policy in policies {
        tables.push(Value::Table(policy_table(alloc, policy)?))?;
    }
    Ok(Value::Array(tables))
}

/// The table `decision_cache` of a tenant's `tail_sampling`.
fn cache_table(alloc: Global, sampling: &TailSampling) -> Result<Table, AllocError>
    ensures { IfOk result (λ t. table_view t ≡ cache_table (tail_sampling_view sampling.now)) }
{
    let mut table = Table::new(alloc);
    let sampled = u64::from(sampling.sampled_cache_size);
    put_number(alloc, &mut table, "sampled_cache_size", sampled)?;
    let others = u64::from(sampling.non_sampled_cache_size);
    put_number(alloc, &mut table, "non_sampled_cache_size", others)?;
    Ok(table)
}

/// A tenant's table `tail_sampling`.
fn sampling_table(alloc: Global, sampling: &TailSampling) -> Result<Table, AllocError>
    ensures { IfOk result (λ t. table_view t ≡ sampling_table (tail_sampling_view sampling.now)) }
{
    let mut table = Table::new(alloc);
    put_number(
        alloc,
        &mut table,
        "decision_wait_ms",
        sampling.decision_wait,
    )?;
    put_number(
        alloc,
        &mut table,
        "num_traces",
        u64::from(sampling.num_traces),
    )?;
    let cache = cache_table(alloc, sampling)?;
    put(alloc, &mut table, "decision_cache", Value::Table(cache))?;
    let policies = policy_array(alloc, sampling.policies.as_slice())?;
    put(alloc, &mut table, "policy", policies)?;
    Ok(table)
}

/// A tenant's table `batch`.
fn batch_table(alloc: Global, batch: Batch) -> Result<Table, AllocError>
    ensures { IfOk result (λ t. table_view t ≡ batch_table (batch_view batch)) }
{
    let mut table = Table::new(alloc);
    put_number(
        alloc,
        &mut table,
        "send_batch_size",
        u64::from(batch.send_batch_size),
    )?;
    put_number(alloc, &mut table, "timeout_ms", batch.timeout)?;
    let max_size = u64::from(batch.send_batch_max_size);
    put_number(alloc, &mut table, "send_batch_max_size", max_size)?;
    Ok(table)
}

/// A tenant's table `sending_queue`.
fn queue_table(alloc: Global, queue: SendingQueue) -> Result<Table, AllocError>
    ensures { IfOk result (λ t. table_view t ≡ queue_table (sending_queue_view queue)) }
{
    let mut table = Table::new(alloc);
    put_number(alloc, &mut table, "queue_size", u64::from(queue.queue_size))?;
    put_number(
        alloc,
        &mut table,
        "num_consumers",
        u64::from(queue.num_consumers),
    )?;
    Ok(table)
}

/// A tenant's table `retry_on_failure`.
fn retry_table(alloc: Global, retry: RetryOnFailure) -> Result<Table, AllocError>
    ensures { IfOk result (λ t. table_view t ≡ retry_table (retry_view retry)) }
{
    let mut table = Table::new(alloc);
    put_number(
        alloc,
        &mut table,
        "initial_interval_ms",
        retry.initial_interval,
    )?;
    put_number(alloc, &mut table, "max_interval_ms", retry.max_interval)?;
    put_number(
        alloc,
        &mut table,
        "max_elapsed_time_ms",
        retry.max_elapsed_time,
    )?;
    put_number(alloc, &mut table, "multiplier", u64::from(retry.multiplier))?;
    let factor = u64::from(retry.randomization_factor);
    put_number(alloc, &mut table, "randomization_factor", factor)?;
    Ok(table)
}

/// The tables of a tenant's table.
fn section_tables(alloc: Global, section: &Section) -> Result<Table, AllocError>
    ensures { IfOk result (λ t. table_view t ≡ section_tables (section_view section.now)) }
{
    let mut table = Table::new(alloc);
    let sampling = sampling_table(alloc, &section.tail_sampling)?;
    put(alloc, &mut table, "tail_sampling", Value::Table(sampling))?;
    let batch = batch_table(alloc, section.batch)?;
    put(alloc, &mut table, "batch", Value::Table(batch))?;
    let queue = queue_table(alloc, section.sending_queue)?;
    put(alloc, &mut table, "sending_queue", Value::Table(queue))?;
    let retry = retry_table(alloc, section.retry_on_failure)?;
    put(alloc, &mut table, "retry_on_failure", Value::Table(retry))?;
    Ok(table)
}

/// The table of a tenant of this name.
fn section_table(alloc: Global, name: &str, section: &Section) -> Result<Table, AllocError>
    ensures { IfOk result (λ t. table_view t ≡ section_table name.now (section_view section.now)) }
{
    let mut table = section_tables(alloc, section)?;
    put_text(alloc, &mut table, "name", name)?;
    put_text(alloc, &mut table, "endpoint", section.endpoint.as_str())?;
    put_number(alloc, &mut table, "max_spans", u64::from(section.max_spans))?;
    put_number(alloc, &mut table, "seed", section.seed)?;
    Ok(table)
}

/// The array of the tenants' tables.
fn tenant_array(alloc: Global, settings: &Settings) -> Result<Value, AllocError>
    ensures { IfOk result (λ v. view v ≡ tables tenant_table (settings_view settings.now).tenants) }
{
    let mut tables = Vec::new(alloc);
    'tenants: for (name, tenant) in settings.tenants.iter() {
        tables.push(Value::Table(section_table(alloc, name.as_str(), &tenant.section)?))?;
    }
    Ok(Value::Array(tables))
}

/// The document of some settings as a table.
fn document(alloc: Global, settings: &Settings) -> Result<Table, AllocError>
    ensures { IfOk result (λ t. table_view t ≡ document_of (settings_view settings.now)) }
{
    let mut table = Table::new(alloc);
    let global = global_table(alloc, &settings.global)?;
    put(alloc, &mut table, "global", Value::Table(global))?;
    let tenants = tenant_array(alloc, settings)?;
    put(alloc, &mut table, "tenant", tenants)?;
    Ok(table)
}

/// The document that says all of some settings that a document can say: no numbers of tenants, and no bound of their
/// queues' bytes. Settings that were loaded, and not changed since, are what it means too. `bound_queues` and `strike`
/// change what it doesn't say: then it means settings without that bound, whose tenants are numbered from 0, or none
/// where no tenant is left.
pub fn settings_text(alloc: Global, settings: &Settings) -> Result<String, AllocError>
    ensures text { IfOk result (λ text.
        IsDocumentText false (document_of (settings_view settings.now)) (string_bytes text)) }
    ensures loads { IfOk result (λ text. AreValidSettings (settings_view settings.now)
        → settings_of (string_bytes text) ≡ Ok (settings_view settings.now)) }
{
    let document = document(alloc, settings)?;
    match toml::table_to_string(alloc, &document) {
        Ok(text) => Ok(text),
        Err(toml::ser::Error::OutOfMemory) => Err(AllocError),
        // Settings have no dates.
        Err(toml::ser::Error::DateInvalid) => unreachable!(),
    }
}
