//! Reading a document, key by key.

ghost use Rattle.std.specs.Prelude.{◌≡◌, ◌+◌, ◌≤◌, ◌<◌, ◌∷◌, ◌++◌, [], IfOk, OnOk, IfErr, IfSome, ◌↔◌, None, string_bytes, map, sum_by, Ok, Err};
ghost use Rattle.indexmap.specs.IndexMap.{index_map_len, get_by_text};
ghost use Rattle.toml.specs.Parse.{parse_document};
ghost use Rattle.toml.specs.View.{table_view};
ghost use Rattle.tail_settings.specs.Fault.{Tells, fault_view, not_toml};
ghost use Rattle.tail_settings.specs.Keys.{keys_of};
ghost use Rattle.tail_settings.specs.Section.{section_view, section_of};
ghost use Rattle.tail_settings.specs.Settings.{name_of, numbered_tenant, with_tenant, tenants_of, tenant_view, spans_of, settings_view, settings_of};
ghost use Rattle.tail_settings.specs.Valid.{AreValidSettings};

use crate::fault::SettingsFault;
use crate::global::GlobalSettings;
use crate::parsed::Document;
use crate::section::Section;
use crate::sending_queue::MOST_QUEUE_BYTES;
use crate::settings::Settings;
use crate::tenant::Tenant;
use crate::{keys, texts};
use indexmap::IndexMap;
use std::alloc::Global;
use toml::Table;

/// A document has no more tenants.
pub(crate) const MAX_TENANTS: usize = 1000;

/// All tenants together may hold no more spans.
pub(crate) const MAX_SPANS: u64 = 1 << 31;

/// A tenant's name, which no tenant before it has.
#[tactic(auto, using(crate::proofs::Told::tells_more), unfolding(crate::specs::Settings::name_of))]
fn name(
    alloc: Global,
    before: &IndexMap<String, Tenant>,
    tenant: Option<&Table>,
) -> Result<String, SettingsFault>
    ensures meaning { Tells string_bytes result
        (name_of (map tenant_view before.now.entries) (keys_of tenant.entry)) }
    ensures new { IfOk result (λ name. get_by_text before.now (string_bytes name) ≡ None) }
{
    let name = keys::text(tenant, "name")?;
    if !texts::is_name(name) {
        return Err(SettingsFault::OutOfRange("name"));
    }
    let owned = String::from_str(alloc, name)?;
    if before.contains_key(name) {
        return Err(SettingsFault::DoubleTenant(owned));
    }
    Ok(owned)
}

/// Reads a tenant's table. The tenant gets this number.
#[tactic(auto, using(crate::proofs::Told::tells_more), unfolding(crate::specs::Settings::numbered_tenant))]
pub(crate) fn numbered_tenant(
    alloc: Global,
    before: &IndexMap<String, Tenant>,
    number: u32,
    table: Option<&Table>,
) -> Result<(String, Tenant), SettingsFault>
    ensures meaning { Tells tenant_view result
        (numbered_tenant number (map tenant_view before.now.entries) (keys_of table.entry)) }
    ensures number { IfOk result (λ read. read.1.number ≡ number) }
    ensures new { IfOk result (λ read. get_by_text before.now (string_bytes read.0) ≡ None) }
{
    let name = name(alloc, before, table)?;
    let section = Section::read(alloc, table)?;
    Ok((name, Tenant { number, section }))
}

/// Reads a tenant's table and puts the tenant behind the others.
#[tactic(auto, using(crate::proofs::Told::tells_more))]
fn add_tenant(
    alloc: Global,
    tenants: &mut IndexMap<String, Tenant>,
    table: Option<&Table>,
) -> Result<(), SettingsFault>
    requires { index_map_len tenants.old < 1000 }
    ensures meaning { Tells (λ _. map tenant_view tenants.new.entries) result
        (with_tenant (map tenant_view tenants.old.entries) (keys_of table.entry)) }
    ensures len { OnOk result (index_map_len tenants.new ≡ index_map_len tenants.old + 1) }
{
    let number = tenants.len() as u32;
    let (name, tenant) = numbered_tenant(alloc, tenants, number, table)?;
    tenants.insert(name, tenant)?;
    Ok(())
}

/// The tenants of a document.
#[tactic(auto, using(crate::proofs::Told::tells_more), unfolding(crate::specs::Settings::tenants_of))]
fn tenants(alloc: Global, document: &Table) -> Result<IndexMap<String, Tenant>, SettingsFault>
    ensures meaning { Tells (λ m. map tenant_view m.entries) result
        (tenants_of (table_view document.now)) }
    ensures not_empty { IfOk result (λ m. 0 < index_map_len m) }
    ensures at_most_1000 { IfOk result (λ m. index_map_len m ≤ 1000) }
{
    let tables = keys::tables(Some(document), "tenant")?;
    if tables.is_empty() {
        return Err(SettingsFault::MissingKey("tenant"));
    }
    if tables.len() > MAX_TENANTS {
        return Err(SettingsFault::TooMany);
    }
    let mut tenants = IndexMap::new(alloc);
    for value in tables {
        add_tenant(alloc, &mut tenants, value.as_table())?;
    }
    Ok(tenants)
}

/// How many spans all tenants together may hold.
pub(crate) fn spans(tenants: &IndexMap<String, Tenant>) -> u64
    requires { index_map_len tenants.now ≤ 1000 }
    ensures meaning { result ≡ spans_of (map tenant_view tenants.now.entries) }
    ensures entries { result ≡ sum_by (λ entry. entry.1.section.max_spans) tenants.now.entries }
{
    tenants
        .values()
        .map(|tenant| u64::from(tenant.section.max_spans))
        .sum()
}

/// The settings that a TOML document means, or the first fault in the order in which its keys are read.
#[tactic(auto, using(crate::proofs::Told::tells_more), unfolding(crate::proofs::Told::documents))]
pub fn load(alloc: Global, text: &str) -> Result<Settings, SettingsFault>
    // The document's settings exactly, or its first fault exactly; refused memory says nothing of it.
    ensures on_success { IfOk result (λ s. settings_of text.now ≡ Ok (settings_view s)) }
    ensures fault { IfErr result (λ e. IfSome (fault_view e) (λ f. settings_of text.now ≡ Err f)) }

    // The ranges and counts of the document's keys, names that differ, and numbers by place.
    ensures valid { IfOk result (λ s. AreValidSettings (settings_view s)) }

    // Fault 10 is that of the texts that are no TOML document, and of no others.
    ensures not_toml { (settings_of text.now ≡ Err not_toml) ↔ (parse_document text.now ≡ None) }
{
    let document = Document::parse(alloc, text)?;
    let global = GlobalSettings::read(alloc, &document.table)?;
    let tenants = tenants(alloc, &document.table)?;
    if spans(&tenants) > MAX_SPANS {
        return Err(SettingsFault::TooMany);
    }
    let next = tenants.len() as u64;
    Ok(Settings {
        global,
        tenants,
        next,
        queue_bytes: MOST_QUEUE_BYTES,
    })
}
