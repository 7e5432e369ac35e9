//! The table of one policy, and the array of them.

ghost use Rattle.std.specs.Prelude.{◌≡◌, ◌≤◌, ◌<◌, ◌∷◌, ◌++◌, [], IfOk, IfErr, map, vec_len, string_bytes, nat_le, length, Ok};
ghost use Rattle.std.specs.Arc.{arc_slice_items};
ghost use Rattle.toml.specs.View.{items_view};
ghost use Rattle.tail_settings.specs.Fault.{Tells, IsOfDocument};
ghost use Rattle.tail_settings.specs.Keys.{keys_of, each, tables_in, texts_in};
ghost use Rattle.tail_settings.specs.Policy.{status_view, leaf_view, policy_view, latency_of, status_of, status_code_of, values_of, string_attribute_of, numeric_attribute_of, leaf_of_type, leaf_of, and_of, policy_of, leaf_count, leaves_of, policies_of};

use crate::fault::SettingsFault;
use crate::policy::{LeafPolicy, PolicySpec, StatusCode};
use crate::{keys, texts};
use std::alloc::Global;
use std::sync::ArcSlice;
use toml::{Table, Value};

/// A tenant has no more policies that hold no other.
const MAX_LEAVES: usize = 64;

/// A policy's list of texts is no longer.
const MAX_VALUES: usize = 64;

/// The policy `latency`.
#[tactic(auto, using(crate::proofs::Told::tells_more))]
fn latency(table: Option<&Table>) -> Result<LeafPolicy, SettingsFault>
    ensures meaning { Tells leaf_view result (latency_of (keys_of table.entry)) }
    ensures no_memory { IfErr result IsOfDocument }
{
    let threshold_ms = keys::required_number(table, "threshold_ms", 0, 1 << 40)?;
    Ok(LeafPolicy::Latency { threshold_ms })
}

/// The status code of this name.
fn status(name: &str) -> Result<StatusCode, SettingsFault>
    ensures meaning { Tells status_view result (status_of name.now) }
    ensures no_memory { IfErr result IsOfDocument }
{
    match name {
        "UNSET" => Ok(StatusCode::Unset),
        "OK" => Ok(StatusCode::Ok),
        "ERROR" => Ok(StatusCode::Error),
        _ => Err(SettingsFault::OutOfRange("status_codes")),
    }
}

/// The status codes of an array of texts.
fn each_status(alloc: Global, names: &[Value]) -> Result<Vec<StatusCode>, SettingsFault>
    ensures { Tells (λ v. map status_view v.items) result
        (each (λ _. status_of) [] (texts_in (items_view names.now))) }
{
    let mut codes = Vec::new(alloc);
    for value in names {
        codes.push(status(value.as_str().unwrap_or(""))?)?;
    }
    Ok(codes)
}

/// The policy `status_code`.
#[tactic(auto, using(crate::proofs::Told::tells_more), unfolding(crate::specs::Policy::status_code_of))]
fn status_code(alloc: Global, table: Option<&Table>) -> Result<LeafPolicy, SettingsFault>
    ensures { Tells leaf_view result (status_code_of (keys_of table.entry)) }
{
    let names = keys::some_texts(table, "status_codes")?;
    let status_codes = each_status(alloc, names)?;
    Ok(LeafPolicy::StatusCode { status_codes })
}

/// The texts of an array of texts.
fn each_text(alloc: Global, texts: &[Value]) -> Result<Vec<String>, SettingsFault>
    ensures { Tells (λ v. map string_bytes v.items) result (Ok (texts_in (items_view texts.now))) }
{
    let mut values = Vec::new(alloc);
    for value in texts {
        values.push(String::from_str(alloc, value.as_str().unwrap_or(""))?)?;
    }
    Ok(values)
}

/// The texts of which an attribute's value has to be one.
#[tactic(auto, using(crate::proofs::Told::tells_more), unfolding(crate::specs::Policy::values_of))]
fn values(alloc: Global, table: Option<&Table>) -> Result<Vec<String>, SettingsFault>
    ensures { Tells (λ v. map string_bytes v.items) result (values_of (keys_of table.entry)) }
{
    let texts = keys::some_texts(table, "values")?;
    if texts.len() > MAX_VALUES {
        return Err(SettingsFault::OutOfRange("values"));
    }
    each_text(alloc, texts)
}

/// The policy `string_attribute`.
#[tactic(auto, using(crate::proofs::Told::tells_more), unfolding(crate::specs::Policy::string_attribute_of))]
fn string_attribute(alloc: Global, table: Option<&Table>) -> Result<LeafPolicy, SettingsFault>
    ensures { Tells leaf_view result (string_attribute_of (keys_of table.entry)) }
{
    let key = texts::attribute_key(alloc, table, "key")?;
    let values = values(alloc, table)?;
    Ok(LeafPolicy::StringAttribute { key, values })
}

/// The policy `numeric_attribute`.
#[tactic(auto, using(crate::proofs::Told::tells_more), unfolding(crate::specs::Policy::numeric_attribute_of))]
fn numeric_attribute(alloc: Global, table: Option<&Table>) -> Result<LeafPolicy, SettingsFault>
    ensures { Tells leaf_view result (numeric_attribute_of (keys_of table.entry)) }
{
    let key = texts::attribute_key(alloc, table, "key")?;
    let min_value = keys::integer(table, "min_value")?;
    let max_value = keys::integer(table, "max_value")?;
    Ok(LeafPolicy::NumericAttribute {
        key,
        min_value,
        max_value,
    })
}

/// A policy of this type that holds no other.
#[tactic(auto, using(crate::proofs::Told::tells_more), unfolding(crate::specs::Policy::leaf_of_type))]
fn leaf_of_type(
    alloc: Global,
    policy_type: &str,
    table: Option<&Table>,
) -> Result<LeafPolicy, SettingsFault>
    ensures { Tells leaf_view result (leaf_of_type policy_type.now (keys_of table.entry)) }
{
    match policy_type {
        "always_sample" => Ok(LeafPolicy::AlwaysSample),
        "latency" => latency(table),
        "status_code" => status_code(alloc, table),
        "string_attribute" => string_attribute(alloc, table),
        "numeric_attribute" => numeric_attribute(alloc, table),
        _ => Err(SettingsFault::OutOfRange("type")),
    }
}

/// The table of a policy that holds no other.
#[tactic(auto, using(crate::proofs::Told::tells_more), unfolding(crate::specs::Policy::leaf_of))]
fn leaf(alloc: Global, table: Option<&Table>) -> Result<LeafPolicy, SettingsFault>
    ensures { Tells leaf_view result (leaf_of (keys_of table.entry)) }
{
    let policy_type = keys::text(table, "type")?;
    leaf_of_type(alloc, policy_type, table)
}

/// The policies of an array of tables, none of which may hold others.
fn each_leaf(alloc: Global, tables: &[Value]) -> Result<Vec<LeafPolicy>, SettingsFault>
    ensures { Tells (λ v. map leaf_view v.items) result
        (each (λ _. leaf_of) [] (tables_in (items_view tables.now))) }
{
    let mut leaves = Vec::new(alloc);
    for value in tables {
        leaves.push(leaf(alloc, value.as_table())?)?;
    }
    Ok(leaves)
}

/// The policy `and`.
#[tactic(auto, using(crate::proofs::Told::tells_more), unfolding(crate::specs::Policy::and_of))]
fn and(alloc: Global, table: Option<&Table>) -> Result<PolicySpec, SettingsFault>
    ensures { Tells policy_view result (and_of (keys_of table.entry)) }
{
    let tables = keys::some_tables(table, "and_sub_policy")?;
    let leaves = each_leaf(alloc, tables)?;
    Ok(PolicySpec::And(leaves))
}

/// A policy's table.
#[tactic(auto, using(crate::proofs::Told::tells_more), unfolding(crate::specs::Policy::policy_of))]
fn policy(alloc: Global, table: Option<&Table>) -> Result<PolicySpec, SettingsFault>
    ensures { Tells policy_view result (policy_of (keys_of table.entry)) }
{
    let policy_type = keys::text(table, "type")?;
    if policy_type == "and" {
        return and(alloc, table);
    }
    let leaf = leaf_of_type(alloc, policy_type, table)?;
    Ok(PolicySpec::Leaf(leaf))
}

/// How many policies this is that hold no other.
fn leaf_count(policy: &PolicySpec) -> usize
    ensures { result ≡ leaf_count (policy_view policy.now) }
{
    match policy {
        PolicySpec::Leaf(_) => 1,
        PolicySpec::And(leaves) => leaves.len(),
    }
}

/// Whether these are at most so many policies that hold no other.
fn are_few(policies: &[PolicySpec]) -> bool
    ensures { result ≡ nat_le (leaves_of (map policy_view policies.now)) 64 }
{
    let mut room = MAX_LEAVES;
    for policy in policies {
        let leaves = leaf_count(policy);
        if leaves > room {
            return false;
        }
        room -= leaves;
    }
    true
}

/// The policies of an array of tables.
fn each_policy(alloc: Global, tables: &[Value]) -> Result<Vec<PolicySpec>, SettingsFault>
    ensures meaning { Tells (λ v. map policy_view v.items) result
        (each (λ _. policy_of) [] (tables_in (items_view tables.now))) }
    ensures len { IfOk result (λ v. vec_len v ≡ length tables.now) }
{
    let mut policies = Vec::new(alloc);
    for value in tables {
        policies.push(policy(alloc, value.as_table())?)?;
    }
    Ok(policies)
}

/// The policies of a table `tail_sampling`.
#[tactic(auto, using(crate::proofs::Told::tells_more), unfolding(crate::specs::Policy::policies_of))]
pub fn policies(
    alloc: Global,
    sampling: Option<&Table>,
) -> Result<ArcSlice<PolicySpec>, SettingsFault>
    ensures meaning { Tells (λ v. map policy_view (arc_slice_items v)) result
        (policies_of (keys_of sampling.entry)) }
    ensures not_empty { IfOk result (λ v. 0 < length (arc_slice_items v)) }
    ensures leaves_bounded { IfOk result
        (λ v. leaves_of (map policy_view (arc_slice_items v)) ≤ 64) }
{
    let tables = keys::some_tables(sampling, "policy")?;
    let policies = each_policy(alloc, tables)?;
    if !are_few(&policies) {
        return Err(SettingsFault::TooMany);
    }
    let policies = ArcSlice::from_vec(policies)?;
    Ok(policies)
}
