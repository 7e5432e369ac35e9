//! Tenants that come to settings in force, and tenants that leave them.

ghost use Rattle.std.specs.Prelude.{◌≡◌, ◌+◌, ◌<◌, ◌≤◌, ◌^◌, IfOk, IfErr, IfSome, None, Ok, option_map, sum_by, string_bytes};
ghost use Rattle.indexmap.specs.IndexMap.{index_map_len, get_by_text};
ghost use Rattle.toml.specs.View.{table_view};
ghost use Rattle.tail_settings.specs.Change.{only_tenant, free_number, joined, admitted, admitted_table, struck, NumbersAreUsedOnce};
ghost use Rattle.tail_settings.specs.Fault.{Tells, fault_view};
ghost use Rattle.tail_settings.specs.Keys.{keys_of};
ghost use Rattle.tail_settings.specs.Section.{section_view};
ghost use Rattle.tail_settings.specs.Settings.{tenant_view, document_view, settings_view, section_at};
ghost use Rattle.tail_settings.specs.Valid.{AreFoundByPlace};

use crate::document::{self, MAX_SPANS, MAX_TENANTS};
use crate::fault::SettingsFault;
use crate::keys;
use crate::parsed::Document;
use crate::section::Section;
use crate::settings::Settings;
use crate::tenant::Tenant;
use std::alloc::Global;
use toml::Table;

/// The table of a document's only tenant.
#[tactic(auto, using(crate::proofs::Told::tells_more), unfolding(crate::specs::Change::only_tenant))]
fn only_tenant(document: &Table) -> Result<Option<&Table>, SettingsFault>
    ensures { Tells keys_of result (only_tenant (table_view document.now)) }
{
    match keys::tables(Some(document), "tenant")? {
        [] => Err(SettingsFault::MissingKey("tenant")),
        [table] => Ok(table.as_table()),
        _ => Err(SettingsFault::OutOfRange("tenant")),
    }
}

impl Settings {
    /// The next number, where there is room for a tenant who has it.
    fn free_number(&self) -> Result<u32, SettingsFault>
        ensures meaning { Tells (λ n. n) result (free_number (settings_view self.now)) }
        ensures room { IfOk result (λ _. index_map_len self.now.tenants < 1000) }
        ensures next { IfOk result (λ n. n ≡ self.now.next) }
        ensures left { IfOk result (λ _. self.now.next < 2 ^ 32) }
    {
        match u32::try_from(self.next) {
            Ok(number) if self.tenants.len() < MAX_TENANTS => Ok(number),
            _ => Err(SettingsFault::TooMany),
        }
    }

    /// The tenant that a document says can come, with the name and the number that it gets.
    #[tactic(auto, using(crate::proofs::Told::tells_more), unfolding(crate::specs::Change::admitted_table))]
    fn newcomer(
        &self,
        alloc: Global,
        document: &Document,
    ) -> Result<(String, Tenant), SettingsFault>
        ensures meaning { Tells (λ new. joined (settings_view self.now) (tenant_view new)) result
            (admitted_table (settings_view self.now) (document_view document.now)) }
        ensures number { IfOk result (λ new. new.1.number ≡ self.now.next) }
        ensures left { IfOk result (λ _. self.now.next < 2 ^ 32) }
        ensures name { IfOk result (λ new. get_by_text self.now.tenants (string_bytes new.0)
            ≡ None) }
        ensures room { IfOk result (λ _. index_map_len self.now.tenants < 1000) }
        ensures spans { IfOk result (λ new. sum_by (λ entry. entry.1.section.max_spans)
            self.now.tenants.entries + new.1.section.max_spans ≤ 2 ^ 31) }
    {
        let table = only_tenant(&document.table)?;
        let number = self.free_number()?;
        let (name, mut tenant) = document::numbered_tenant(alloc, &self.tenants, number, table)?;
        let spans = document::spans(&self.tenants) + u64::from(tenant.section.max_spans);
        if spans > MAX_SPANS {
            return Err(SettingsFault::TooMany);
        }
        tenant.bound_queue(self.queue_bytes);
        Ok((name, tenant))
    }

    /// Takes in the one tenant of a document. The answer is its number, the next one. Of the document nothing but
    /// `tenant` is read, as [`load`](crate::load) reads it; [`bound_queues`](Settings::bound_queues) bounds its queue
    /// too. Where it is refused, nothing has changed.
    pub fn admit_document(
        &mut self,
        alloc: Global,
        document: &Document,
    ) -> Result<u32, SettingsFault>
        // The document's first fault exactly; refused memory says nothing of it.
        ensures on_success { IfOk result (λ _. admitted_table (settings_view self.old)
            (document_view document.now) ≡ Ok (settings_view self.new)) }
        ensures number { IfOk result (λ number. number ≡ self.old.next) }
        ensures fault { IfErr result (λ e. IfSome (fault_view e)
            (λ f. admitted_table (settings_view self.old) (document_view document.now) ≡ Err f)) }
        ensures on_refusal { IfErr result (λ _. settings_view self.new ≡ settings_view self.old) }
    {
        let (name, tenant) = self.newcomer(alloc, document)?;
        let number = tenant.number;
        self.tenants.insert(name, tenant)?;
        self.next += 1;
        Ok(number)
    }

    /// Takes in the one tenant of a TOML text, as [`admit_document`](Settings::admit_document) does of its document.
    #[tactic(auto, using(crate::proofs::Told::tells_more), unfolding(crate::specs::Change::admitted))]
    pub fn admit(&mut self, alloc: Global, text: &str) -> Result<u32, SettingsFault>
        // The document's first fault exactly; refused memory says nothing of it.
        ensures on_success { IfOk result (λ _. admitted (settings_view self.old) text.now
            ≡ Ok (settings_view self.new)) }
        ensures number { IfOk result (λ number. number ≡ self.old.next) }
        ensures fault { IfErr result (λ e. IfSome (fault_view e)
            (λ f. admitted (settings_view self.old) text.now ≡ Err f)) }
        ensures on_refusal { IfErr result (λ _. settings_view self.new ≡ settings_view self.old) }
    {
        let document = Document::parse(alloc, text)?;
        self.admit_document(alloc, &document)
    }

    /// Takes out the tenant with this number, which nobody else gets. The answer is its section, or `None` where there
    /// is no such tenant. It takes no memory, and up to as many steps as there are tenants.
    pub fn strike(&mut self, number: u32) -> Option<Section>
        ensures section { option_map section_view result ≡ section_at (settings_view self.old)
            number }
        ensures left { settings_view self.new ≡ struck (settings_view self.old) number }
    {
        let Some(place) = self.place(number) else {
            return None;
        };
        let Some((_name, tenant)) = self.tenants.shift_remove_index(place) else {
            unreachable!()
        };
        Some(tenant.section)
    }
}

/// A number that was given is never given again, whatever tenants come and leave. Where none did, a tenant's number is
/// its place in the document.
pub fn numbers_of_tenants()
    ensures used_once { NumbersAreUsedOnce }
    ensures by_place { AreFoundByPlace }
{}
