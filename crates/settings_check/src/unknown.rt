//! Warnings of keys that no setting has.

ghost use Rattle.std.specs.Prelude.{◌≡◌, ◌++◌, [], codes, unwrap_or, IfOk, OnOk, string_bytes};
ghost use Rattle.std.specs.Fmt.{decimal};
ghost use Rattle.toml.specs.View.{table_view, items_view};
ghost use Rattle.tail_settings.specs.Keys.{keys_of};
ghost use Rattle.settings_check.specs.Unknown.{text_in, name_shown, tenant_words, kind_of, sub_policies_of, unknown_in, unknown_in_leaves, unknown_in_policy, unknown_in_policies, unknown_in_cache, unknown_in_sampling, unknown_in_section, unknown_in_tenants, unknown_of};
ghost use Rattle.settings_check.specs.Warning.{name_here, meant_of, hint_text, warning_text, warnings};
ghost use Rattle.settings_check.specs.Table.{keys_of_kind};

use crate::hint::{meant, name_here};
use crate::read;
use crate::shown::{shown, shown_bytes};
use crate::table::{TableKind, find_among};
use std::alloc::{AllocError, Global};
use toml::{Table, Value};

/// A text with another behind it.
pub fn joined(alloc: Global, text: &str, more: &str) -> Result<String, AllocError>
    ensures { IfOk result (λ whole. string_bytes whole ≡ text.now ++ more.now) }
{
    let mut whole = String::from_str(alloc, text)?;
    whole.push_str(more)?;
    Ok(whole)
}

/// A number in decimal digits.
fn digits(alloc: Global, number: usize) -> Result<String, AllocError>
    ensures { IfOk result (λ text. string_bytes text ≡ decimal number) }
{
    format!(in alloc; "{number}")
}

/// A place inside another: its words with more behind them, and its number.
fn numbered(alloc: Global, place: &str, word: &str, number: usize) -> Result<String, AllocError>
    ensures { IfOk result (λ whole. string_bytes whole ≡ place.now ++ word.now ++ decimal number) }
{
    let digits = digits(alloc, number)?;
    let mut whole = joined(alloc, place, word)?;
    whole.push_str(digits.as_str())?;
    Ok(whole)
}

/// The key that may have been meant by one that no setting has.
fn hint(alloc: Global, kind: TableKind, key: &str) -> Result<String, AllocError>
    ensures { IfOk result (λ text. string_bytes text ≡ hint_text
        (meant_of (name_here key.now) (keys_of_kind kind))) }
{
    match meant(kind.keys(), name_here(key)) {
        Some(meant) => {
            let name = meant.name();
            format!(in alloc; "; perhaps {name} was meant")
        }
        None => Ok(String::new(alloc)),
    }
}

/// The line of a key that no setting has.
fn warning(alloc: Global, place: &str, kind: TableKind, key: &str) -> Result<String, AllocError>
    ensures { IfOk result (λ line. string_bytes line
        ≡ warning_text (record { place = place.now; kind = kind; key = key.now })) }
{
    let hint = hint(alloc, kind, key)?;
    let key = shown(alloc, key)?;
    let line = format!(in alloc;
        "# warning: {place}: no setting has the key {key}, so it is ignored{hint}\n"
    )?;
    Ok(line)
}

/// Appends the line of a key that no setting has.
fn warn(
    alloc: Global,
    out: &mut String,
    place: &str,
    kind: TableKind,
    key: &str,
) -> Result<(), AllocError>
    ensures { OnOk result (string_bytes out.new ≡ string_bytes out.old
        ++ warning_text (record { place = place.now; kind = kind; key = key.now })) }
{
    let line = warning(alloc, place, kind, key)?;
    out.push_str(line.as_str())
}

/// Appends a warning of each key of a table that its kind of table doesn't have.
fn warn_in(
    alloc: Global,
    out: &mut String,
    place: &str,
    kind: TableKind,
    table: Option<&Table>,
) -> Result<(), AllocError>
    ensures { OnOk result (string_bytes out.new ≡ string_bytes out.old
        ++ warnings (unknown_in place.now kind (keys_of table.entry))) }
{
    let Some(members) = table else {
        return Ok(());
    };
    'keys: for (key, _value) in members.iter() {
        if find_among(kind.keys(), key.as_str()).is_none() {
            warn(alloc, out, place, kind, key.as_str())?;
        }
    }
    Ok(())
}

/// The kind of a policy's table.
pub fn policy_kind(policy: Option<&Table>) -> TableKind
    ensures { result ≡ kind_of (keys_of policy.entry) }
{
    TableKind::of_policy(read::text(policy, "type"))
}

/// Appends warnings of policies that may hold no other.
fn warn_in_leaves(
    alloc: Global,
    out: &mut String,
    place: &str,
    leaves: &[Value],
) -> Result<(), AllocError>
    ensures { OnOk result (string_bytes out.new ≡ string_bytes out.old
        ++ warnings (unknown_in_leaves place.now 1 (items_view leaves.now))) }
{
    let mut number: usize = 0;
    for leaf in leaves {
        number += 1;
        let place = numbered(alloc, place, ", part ", number)?;
        let leaf = leaf.as_table();
        warn_in(alloc, out, place.as_str(), policy_kind(leaf), leaf)?;
    }
    Ok(())
}

/// The policies that a policy of this kind holds.
pub fn sub_policies<'a>(kind: TableKind, policy: Option<&'a Table>) -> &'a [Value]
    ensures { items_view result.now ≡ sub_policies_of kind (keys_of policy.entry) }
{
    match kind {
        TableKind::And => read::items(policy, "and_sub_policy"),
        _ => &[],
    }
}

/// Appends warnings of a policy, and of those that it holds.
#[tactic(auto, using(crate::proofs::Warnings::put_both))]
fn warn_in_policy(
    alloc: Global,
    out: &mut String,
    place: &str,
    policy: Option<&Table>,
) -> Result<(), AllocError>
    ensures { OnOk result (string_bytes out.new ≡ string_bytes out.old
        ++ warnings (unknown_in_policy place.now (keys_of policy.entry))) }
{
    let kind = policy_kind(policy);
    warn_in(alloc, out, place, kind, policy)?;
    warn_in_leaves(alloc, out, place, sub_policies(kind, policy))
}

/// Appends warnings of a tenant's policies.
fn warn_in_policies(
    alloc: Global,
    out: &mut String,
    place: &str,
    policies: &[Value],
) -> Result<(), AllocError>
    ensures { OnOk result (string_bytes out.new ≡ string_bytes out.old
        ++ warnings (unknown_in_policies place.now 1 (items_view policies.now))) }
{
    let mut number: usize = 0;
    for policy in policies {
        number += 1;
        let place = numbered(alloc, place, ", policy ", number)?;
        warn_in_policy(alloc, out, place.as_str(), policy.as_table())?;
    }
    Ok(())
}

/// Appends warnings of the table `decision_cache` of a tenant's `tail_sampling`.
fn warn_in_cache(
    alloc: Global,
    out: &mut String,
    place: &str,
    sampling: Option<&Table>,
) -> Result<(), AllocError>
    ensures { OnOk result (string_bytes out.new ≡ string_bytes out.old
        ++ warnings (unknown_in_cache place.now (keys_of sampling.entry))) }
{
    let title = joined(alloc, place, ", table decision_cache")?;
    let cache = read::table(sampling, "decision_cache");
    warn_in(alloc, out, title.as_str(), TableKind::DecisionCache, cache)
}

/// Appends warnings of a tenant's table `tail_sampling`.
#[tactic(auto, using(crate::proofs::Warnings::put_both))]
fn warn_in_sampling(
    alloc: Global,
    out: &mut String,
    place: &str,
    sampling: Option<&Table>,
) -> Result<(), AllocError>
    ensures { OnOk result (string_bytes out.new ≡ string_bytes out.old
        ++ warnings (unknown_in_sampling place.now (keys_of sampling.entry))) }
{
    let title = joined(alloc, place, ", table tail_sampling")?;
    warn_in(
        alloc,
        out,
        title.as_str(),
        TableKind::TailSampling,
        sampling,
    )?;
    warn_in_cache(alloc, out, place, sampling)?;
    warn_in_policies(alloc, out, place, read::items(sampling, "policy"))
}

/// Appends warnings of a tenant's table, whose words these are.
#[tactic(auto, using(crate::proofs::Warnings::put_both))]
fn warn_in_section(
    alloc: Global,
    out: &mut String,
    place: &str,
    tenant: Option<&Table>,
) -> Result<(), AllocError>
    ensures { OnOk result (string_bytes out.new ≡ string_bytes out.old
        ++ warnings (unknown_in_section place.now (keys_of tenant.entry))) }
{
    warn_in(alloc, out, place, TableKind::Tenant, tenant)?;
    warn_in_sampling(alloc, out, place, read::table(tenant, "tail_sampling"))?;
    let batch = joined(alloc, place, ", table batch")?;
    let table = read::table(tenant, "batch");
    warn_in(alloc, out, batch.as_str(), TableKind::Batch, table)?;
    let queue = joined(alloc, place, ", table sending_queue")?;
    let table = read::table(tenant, "sending_queue");
    warn_in(alloc, out, queue.as_str(), TableKind::SendingQueue, table)?;
    let retry = joined(alloc, place, ", table retry_on_failure")?;
    let table = read::table(tenant, "retry_on_failure");
    warn_in(alloc, out, retry.as_str(), TableKind::RetryOnFailure, table)
}

/// No name that may be has more bytes.
const LONGEST_NAME: usize = 64;

/// A tenant's name, as far as it has one.
fn name<'a>(tenant: Option<&'a Table>) -> &'a str
    ensures { result.now ≡ unwrap_or (text_in (codes "name") (keys_of tenant.entry)) [] }
{
    match read::text(tenant, "name") {
        Some(name) => name,
        None => "",
    }
}

/// A tenant's name as it is shown, no more of it than a name may have.
#[tactic(auto, using(std::proofs::lemmas::List::take_min))]
fn name_shown(alloc: Global, tenant: Option<&Table>) -> Result<String, AllocError>
    ensures { IfOk result (λ line. string_bytes line ≡ name_shown (keys_of tenant.entry)) }
{
    let name = name(tenant).as_bytes();
    shown_bytes(alloc, &name[..LONGEST_NAME.min(name.len())])
}

/// A tenant's number, from 1, and its name.
pub fn tenant_words(
    alloc: Global,
    number: usize,
    tenant: Option<&Table>,
) -> Result<String, AllocError>
    ensures { IfOk result (λ words. string_bytes words ≡ tenant_words number
        (keys_of tenant.entry)) }
{
    let name = name_shown(alloc, tenant)?;
    let words = format!(in alloc; "tenant {number} ({name})")?;
    Ok(words)
}

/// Appends warnings of a document's tenants.
fn warn_in_tenants(alloc: Global, out: &mut String, tenants: &[Value]) -> Result<(), AllocError>
    ensures { OnOk result (string_bytes out.new ≡ string_bytes out.old
        ++ warnings (unknown_in_tenants 1 (items_view tenants.now))) }
{
    let mut number: usize = 0;
    for tenant in tenants {
        number += 1;
        let tenant = tenant.as_table();
        let place = tenant_words(alloc, number, tenant)?;
        warn_in_section(alloc, out, place.as_str(), tenant)?;
    }
    Ok(())
}

/// Appends a warning of each key of a document's tables that no setting has.
#[tactic(auto, using(crate::proofs::Warnings::put_both))]
pub fn warn_of_unknown(alloc: Global, out: &mut String, document: &Table) -> Result<(), AllocError>
    ensures { OnOk result (string_bytes out.new ≡ string_bytes out.old
        ++ warnings (unknown_of (table_view document.now))) }
{
    let document = Some(document);
    warn_in(alloc, out, "the document", TableKind::Document, document)?;
    let global = read::table(document, "global");
    warn_in(alloc, out, "table global", TableKind::Global, global)?;
    warn_in_tenants(alloc, out, read::items(document, "tenant"))
}
