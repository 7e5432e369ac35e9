//! Where a fault is: in which tenant, in which of its policies, and in which sub-policy of that.

ghost use Rattle.std.specs.Prelude.{◌≡◌, ◌↔◌, ◌++◌, codes, Some, Err, IfOk, IsSomeAnd, IsTrue, string_bytes};
ghost use Rattle.toml.specs.Parse.{parse_document};
ghost use Rattle.toml.specs.View.{view, items_view};
ghost use Rattle.tail_settings.specs.Fault.{FaultData, fault_view};
ghost use Rattle.tail_settings.specs.Keys.{keys_of};
ghost use Rattle.tail_settings.specs.Settings.{settings_of};
ghost use Rattle.settings_check.specs.Place.{only, with_sub_policy, with_policy, tenant_with, document_with, IsWritable, HasAlone, IsFirst, found_view, table_found, name_words, numbered_words, tenant_place, sub_policy_place, policy_place, place_view, IsPlace};
ghost use Rattle.settings_check.specs.Unknown.{text_in};

use crate::document::{put, put_text};
use crate::read;
use crate::shown::shown;
use crate::unknown::{joined, policy_kind, sub_policies, tenant_words};
use std::alloc::{AllocError, Global};
use tail_settings::{SettingsFault, load};
use toml::{Table, Value};

/// What is looked at by itself.
#[derive(Clone, Copy)]
pub enum Level {
    /// A tenant of a document.
    Tenant,
    /// A policy of a tenant.
    Policy,
    /// A sub-policy of a policy `and`.
    SubPolicy,
}

/// Where a fault is, in words.
#[derive(Drop)]
pub struct Place {
    /// How many tenants the document has.
    pub count: usize,
    /// The words of its tenant, with a comma and a blank behind them. Nothing where no tenant has it by itself: what
    /// holds for all tenants, a name that two have, and a sum over all of them. Where there are too many tenants, the
    /// words are those of one that has too many policies, if any has.
    pub tenant: String,
    /// The words of its policy, if it is in one.
    pub policy: String,
}

/// The array of one value.
fn only(alloc: Global, value: Value) -> Result<Value, AllocError>
    ensures { IfOk result (λ v. view v ≡ only (view value)) }
{
    let mut values = Vec::new(alloc);
    values.push(value)?;
    Ok(Value::Array(values))
}

/// A policy `and` that has this sub-policy and no other.
fn with_sub_policy(alloc: Global, sub_policy: Value) -> Result<Value, AllocError>
    ensures { IfOk result (λ v. view v ≡ with_sub_policy (view sub_policy)) }
{
    let mut policy = Table::new(alloc);
    put_text(alloc, &mut policy, "type", "and")?;
    put(
        alloc,
        &mut policy,
        "and_sub_policy",
        only(alloc, sub_policy)?,
    )?;
    Ok(Value::Table(policy))
}

/// A tenant that has this policy, a name, and nothing else.
fn with_policy(alloc: Global, policy: Value) -> Result<Value, AllocError>
    ensures { IfOk result (λ v. view v ≡ with_policy (view policy)) }
{
    let mut sampling = Table::new(alloc);
    put(alloc, &mut sampling, "policy", only(alloc, policy)?)?;
    let mut tenant = Table::new(alloc);
    put_text(alloc, &mut tenant, "name", "a")?;
    put(alloc, &mut tenant, "tail_sampling", Value::Table(sampling))?;
    Ok(Value::Table(tenant))
}

/// The tenant that a tenant is, or that has this policy, or this sub-policy of one, by itself.
fn tenant_with(alloc: Global, level: Level, value: &Value) -> Result<Value, AllocError>
    ensures { IfOk result (λ v. view v ≡ tenant_with level (view value.now)) }
{
    let value = value.clone()?;
    match level {
        Level::Tenant => Ok(value),
        Level::Policy => with_policy(alloc, value),
        Level::SubPolicy => {
            let policy = with_sub_policy(alloc, value)?;
            with_policy(alloc, policy)
        }
    }
}

/// Its document as a text, if it can be written.
fn text_with(alloc: Global, level: Level, value: &Value) -> Result<Option<String>, AllocError>
    ensures { IfOk result (λ text. IsWritable (document_with level (view value.now))
        → IsSomeAnd text (λ t. parse_document (string_bytes t)
        ≡ Some (document_with level (view value.now)))) }
{
    let tenant = tenant_with(alloc, level, value)?;
    let tenants = only(alloc, tenant)?;
    let mut document = Table::new(alloc);
    put(alloc, &mut document, "tenant", tenants)?;
    match toml::table_to_string(alloc, &document) {
        Ok(text) => Ok(Some(text)),
        Err(toml::ser::Error::OutOfMemory) => Err(AllocError),
        Err(toml::ser::Error::DateInvalid) => Ok(None),
    }
}

/// Whether a text has this fault as its first.
fn has_fault(alloc: Global, text: &str, fault: &SettingsFault) -> Result<bool, AllocError>
    ensures { IfOk result (λ has. (seen : FaultData) → fault_view fault.now ≡ Some seen
        → (IsTrue has ↔ (settings_of text.now ≡ Err seen))) }
{
    match load(alloc, text) {
        Ok(_) => Ok(false),
        Err(SettingsFault::OutOfMemory) => Err(AllocError),
        Err(found) => Ok(found == *fault),
    }
}

/// Whether a table by itself, in a document, has this fault.
fn has_alone(
    alloc: Global,
    level: Level,
    value: &Value,
    fault: &SettingsFault,
) -> Result<bool, AllocError>
    ensures { IfOk result (λ has. (seen : FaultData) → fault_view fault.now ≡ Some seen
        → IsWritable (document_with level (view value.now))
        → (IsTrue has ↔ HasAlone level seen (view value.now))) }
{
    if value.as_table().is_none() {
        return Ok(false);
    }
    match text_with(alloc, level, value)? {
        Some(text) => has_fault(alloc, text.as_str(), fault),
        None => Ok(false),
    }
}

/// The first of these that has a fault by itself, with its number, from 1.
fn first<'a>(
    alloc: Global,
    level: Level,
    values: &'a [Value],
    fault: &SettingsFault,
) -> Result<Option<(usize, &'a Value)>, AllocError>
    ensures { IfOk result (λ found. (seen : FaultData) → fault_view fault.now ≡ Some seen
        → IsFirst level seen 1 (items_view values.now) (found_view found)) }
{
    let mut number: usize = 0;
    for value in values {
        number += 1;
        if has_alone(alloc, level, value, fault)? {
            return Ok(Some((number, value)));
        }
    }
    Ok(None)
}

/// The table of what was found.
fn table<'a>(found: Option<(usize, &'a Value)>) -> Option<&'a Table>
    ensures { keys_of result ≡ table_found (found_view found.entry) }
{
    match found {
        Some((_number, value)) => value.as_table(),
        None => None,
    }
}

/// A table's name in brackets, if it has one.
fn name_words(alloc: Global, table: Option<&Table>) -> Result<String, AllocError>
    ensures { IfOk result (λ words. string_bytes words
        ≡ name_words (text_in (codes "name") (keys_of table.entry))) }
{
    match read::text(table, "name") {
        Some(name) => {
            let name = shown(alloc, name)?;
            let words = format!(in alloc; " ({name})")?;
            Ok(words)
        }
        None => Ok(String::new(alloc)),
    }
}

/// A word with the number of a table, and with its name, if it has one.
fn numbered(
    alloc: Global,
    word: &str,
    number: usize,
    table: Option<&Table>,
) -> Result<String, AllocError>
    ensures { IfOk result (λ words. string_bytes words
        ≡ numbered_words word.now number (keys_of table.entry)) }
{
    let name = name_words(alloc, table)?;
    let words = format!(in alloc; "{word}{number}{name}")?;
    Ok(words)
}

/// The words of a tenant, before what follows.
fn tenant_place(alloc: Global, tenant: Option<(usize, &Value)>) -> Result<String, AllocError>
    ensures { IfOk result (λ words. string_bytes words ≡ tenant_place (found_view tenant.entry)) }
{
    match tenant {
        Some((number, tenant)) => {
            let words = tenant_words(alloc, number, tenant.as_table())?;
            joined(alloc, words.as_str(), ", ")
        }
        None => Ok(String::new(alloc)),
    }
}

/// The words of a sub-policy, behind those of its policy.
fn sub_policy_place(
    alloc: Global,
    sub_policy: Option<(usize, &Value)>,
) -> Result<String, AllocError>
    ensures { IfOk result (λ words. string_bytes words
        ≡ sub_policy_place (found_view sub_policy.entry)) }
{
    match sub_policy {
        Some((number, sub_policy)) => numbered(alloc, ", part ", number, sub_policy.as_table()),
        None => Ok(String::new(alloc)),
    }
}

/// The words of a policy and of a sub-policy of it.
fn policy_place(
    alloc: Global,
    policy: Option<(usize, &Value)>,
    sub_policy: Option<(usize, &Value)>,
) -> Result<String, AllocError>
    ensures { IfOk result (λ words. string_bytes words
        ≡ policy_place (found_view policy.entry) (found_view sub_policy.entry)) }
{
    match policy {
        Some((number, policy)) => {
            let words = numbered(alloc, "policy ", number, policy.as_table())?;
            let behind = sub_policy_place(alloc, sub_policy)?;
            joined(alloc, words.as_str(), behind.as_str())
        }
        None => String::from_str(alloc, "a policy"),
    }
}

/// Where a document's fault is.
pub fn locate(
    alloc: Global,
    document: Option<&Table>,
    fault: &SettingsFault,
) -> Result<Place, AllocError>
    ensures { IfOk result (λ place. (seen : FaultData) → fault_view fault.now ≡ Some seen
        → IsPlace seen (keys_of document.entry) (place_view place)) }
{
    let tenants = read::items(document, "tenant");
    let tenant = first(alloc, Level::Tenant, tenants, fault)?;
    let policies = read::items(read::table(table(tenant), "tail_sampling"), "policy");
    let policy = first(alloc, Level::Policy, policies, fault)?;
    let sub_policies = sub_policies(policy_kind(table(policy)), table(policy));
    let sub_policy = first(alloc, Level::SubPolicy, sub_policies, fault)?;
    Ok(Place {
        count: tenants.len(),
        tenant: tenant_place(alloc, tenant)?,
        policy: policy_place(alloc, policy, sub_policy)?,
    })
}
