//! All settings, with the tenants by name and by number.

ghost use Rattle.std.specs.Prelude.{◌≤◌, ◌<◌, ◌^◌, sum_by, All, AllPairs};
ghost use Rattle.indexmap.specs.IndexMap.{index_map_len};

use crate::global::GlobalSettings;
use crate::section::Section;
use crate::tenant::Tenant;
use indexmap::IndexMap;

/// What a document says, and what came of it since.
#[derive(Drop)]
pub struct Settings {
    /// What holds for all tenants.
    pub global: GlobalSettings,
    /// The tenants by name, in the order of their numbers. A document numbers its tenants from 0.
    pub tenants: IndexMap<String, Tenant>,
    // The number that the next tenant gets, at most 2^32: then no number of 32 bits is left.
    pub(crate) next: u64,
    // How many bytes the batches of a tenant that comes have together while they wait.
    pub(crate) queue_bytes: u64,
    pub ghost few_tenants: { index_map_len tenants ≤ 1000 },
    pub ghost few_spans: { sum_by (λ entry. entry.1.section.max_spans) tenants.entries ≤ 2 ^ 31 },
    pub ghost few_numbers: { next ≤ 2 ^ 32 },
    pub ghost few_bytes: { queue_bytes ≤ 2 ^ 42 },
    pub ghost rising: { AllPairs (λ one later. one.1.number < later.1.number) tenants.entries },
    pub ghost below: { All (λ entry. entry.1.number < next) tenants.entries },
}

impl Settings {
    ghost use Rattle.std.specs.Prelude.{◌≡◌, ◌==◌, ◌≤◌, option_map, position, length};
    ghost use Rattle.tail_settings.specs.Section.{section_view};
    ghost use Rattle.tail_settings.specs.Settings.{tenant_view, settings_view, tenant_at, section_at, number_of};

    /// How many tenants there are, at most 1,000. A document has 1 or more.
    pub fn tenants_len(&self) -> u32
        ensures len { result ≡ length (settings_view self.now).tenants }
        ensures at_most_1000 { result ≤ 1000 }
    {
        self.tenants.len() as u32
    }

    /// Where the tenant with this number stands.
    pub(crate) fn place(&self, number: u32) -> Option<usize>
        ensures { result ≡ position (λ entry. entry.1.number == number) self.now.tenants.entries }
    {
        match self
            .tenants
            .binary_search_by_key(&number, |_, tenant| tenant.number)
        {
            Ok(place) => Some(place),
            Err(_) => None,
        }
    }

    /// The name of the tenant with this number, and the tenant.
    fn tenant(&self, number: u32) -> Option<(&String, &Tenant)>
        ensures { option_map (λ entry. tenant_view (entry.0.now, entry.1.now)) result
            ≡ tenant_at (settings_view self.now) number }
    {
        match self.place(number) {
            Some(place) => self.tenants.get_index(place),
            None => None,
        }
    }

    /// The section of the tenant with this number, or `None` where there is no such tenant.
    pub fn section(&self, number: u32) -> Option<&Section>
        ensures { option_map (λ s. section_view s.now) result ≡ section_at (settings_view self.now)
            number }
    {
        match self.tenant(number) {
            Some((_, tenant)) => Some(&tenant.section),
            None => None,
        }
    }

    /// The name of the tenant with this number, or `None` where there is no such tenant.
    pub fn name(&self, number: u32) -> Option<&str>
        ensures { option_map (λ s. s.now) result
            ≡ option_map (λ t. t.name) (tenant_at (settings_view self.now) number) }
    {
        match self.tenant(number) {
            Some((name, _)) => Some(name.as_str()),
            None => None,
        }
    }

    /// The number of the tenant of this name.
    pub fn number(&self, name: &str) -> Option<u32>
        ensures { result ≡ number_of (settings_view self.now) name.now }
    {
        match self.tenants.get(name) {
            Some(tenant) => Some(tenant.number),
            None => None,
        }
    }
}
