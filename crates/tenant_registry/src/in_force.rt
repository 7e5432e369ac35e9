//! The settings in force, which all threads share under a lock.

ghost use Rattle.std.specs.Prelude.{◌≡◌, ◌∷◌, ◌++◌, ℕ, [], Ok, IfOk, IfErr, IfNone, IfSome, IsSome, map, option_map, string_bytes};
ghost use Rattle.http_edge.specs.Seen.{seen};
ghost use Rattle.otlp_front.specs.Route.{names_in, post, route_of};
ghost use Rattle.tail_settings.specs.Change.{after, strike};
ghost use Rattle.tail_settings.specs.Fault.{fault_view};
ghost use Rattle.tail_settings.specs.Section.{section_view};
ghost use Rattle.tail_settings.specs.Settings.{document_in, document_view, number_of, settings_view, tenant_at, section_at};
ghost use Rattle.tenant_registry.specs.InForce.{CameOf, IsLetIn, IsTenant, IsTurnedAway, IsWhere, longest_wait};
ghost use Rattle.tenant_registry.specs.Roster.{entry_of};
ghost use Rattle.toml.specs.Parse.{parse_document};

use crate::naming::SettingsNaming;
use crate::noted::{ChangeList, Noted};
use crate::roster::{Present, tenants_of};
use arrayvec::ArrayString;
use export_edge::{Address, Addresses};
use http_edge::HttpMessage;
use otlp_front::{Route, RouteRefusal, route};
use service_runtime::Tally;
use std::alloc::{AllocError, Global};
use std::sync::{Mutex, Wait};
use tail_settings::{Document, Section, Settings, SettingsFault};

/// Where a message goes.
#[derive(Drop)]
pub enum Destination {
    /// Its body is posted to the tenant with this number, which has this section.
    To { tenant: u32, section: Section },
    /// It is refused, and nothing else is done.
    Nowhere(RouteRefusal),
}

/// A tenant that the settings let in.
#[derive(Drop)]
pub struct Newcomer {
    pub number: u32,
    pub name: String,
    pub section: Section,
}

/// The settings in force: those at the start, with the changes that were made since. Who makes these knows them too.
#[derive(Drop)]
pub struct InForce<J: SettingsNaming> {
    settings: Settings,
    noted: Noted<J>,
    ghost came: { CameOf J.first (settings_view settings) },
    ghost as_noted: { settings_view settings ≡ after J.first noted },
}

impl<J: SettingsNaming> InForce<J> {
    /// The settings at the start.
    pub fn new(settings: Settings, noted: Noted<J>) -> InForce<J>
        requires first { settings_view settings ≡ J.first }
        requires no_change { noted ≡ [] }
        ensures { result.settings ≡ settings }
    {
        InForce { settings, noted }
    }

    /// For how long, in milliseconds, spans of the tenant with this number may wait until a batch has them.
    pub fn longest_wait(&self, tenant: u32) -> u64
        ensures { result ≡ longest_wait (section_at (settings_view self.now.settings) tenant) }
    {
        match self.settings.section(tenant) {
            Some(section) => section
                .tail_sampling
                .decision_wait
                .saturating_add(section.batch.timeout),
            None => 0,
        }
    }

    /// The tenants, in the order of their numbers.
    pub fn tenants(&self, alloc: Global) -> Result<Vec<Present>, AllocError>
        ensures { IfOk result (λ tenants. map entry_of tenants.items
            ≡ (names_in (settings_view self.now.settings)).tenants) }
    {
        tenants_of(alloc, &self.settings)
    }

    /// The number of the tenant of this name.
    pub fn number(&self, name: &str) -> Option<u32>
        ensures { result ≡ number_of (settings_view self.now.settings) name.now }
    {
        self.settings.number(name)
    }

    /// The name of the tenant of this number. None where there is no such tenant, or memory is refused.
    pub(crate) fn name(&self, alloc: Global, tenant: u32) -> Option<String>
        ensures { IfSome result (λ name. option_map (λ t. t.name)
            (tenant_at (settings_view self.now.settings) tenant) ≡ Some (string_bytes name)) }
    {
        let name = self.settings.name(tenant)?;
        String::from_str(alloc, name).ok()
    }

    /// A copy of the section of the tenant of this number, which shares the policies.
    pub fn section(&self, tenant: u32) -> Result<Option<Section>, AllocError>
        ensures { IfOk result (λ section. option_map section_view section
            ≡ section_at (settings_view self.now.settings) tenant) }
    {
        match self.settings.section(tenant) {
            Some(section) => Ok(Some(section.copy()?)),
            None => Ok(None),
        }
    }

    /// Why the message with this head goes to no tenant, whatever its body is. None where it goes to one.
    pub fn refusal(&self, head: &HttpMessage) -> Option<RouteRefusal>
        ensures refused { IfSome result (λ refusal. IsWhere
            (route_of (names_in (settings_view self.now.settings)) (seen head.now))
            (settings_view self.now.settings) (Destination.Nowhere refusal)) }
        ensures none { IfNone result ((tenant : ℕ) × (route_of
            (names_in (settings_view self.now.settings)) (seen head.now) ≡ post tenant)) }
    {
        match route(&self.settings, head) {
            Route::Post { .. } => None,
            Route::Refuse(refusal) => Some(refusal),
        }
    }

    /// Where a message goes, with a copy of its tenant's section, which shares the policies.
    pub fn destination(&self, message: &HttpMessage) -> Result<Destination, AllocError>
        ensures { IfOk result (λ d. IsWhere
            (route_of (names_in (settings_view self.now.settings)) (seen message.now))
            (settings_view self.now.settings) d) }
    {
        match route(&self.settings, message) {
            Route::Post { tenant } => self.tenant(tenant),
            Route::Refuse(refusal) => Ok(Destination::Nowhere(refusal)),
        }
    }

    /// The tenant with this number, with a copy of its section.
    fn tenant(&self, tenant: u32) -> Result<Destination, AllocError>
        ensures { IfOk result (λ d. IsTenant (section_at (settings_view self.now.settings) tenant)
            tenant d) }
    {
        match self.settings.section(tenant) {
            Some(section) => Ok(Destination::To {
                tenant,
                section: section.copy()?,
            }),
            None => Ok(Destination::Nowhere(RouteRefusal::UnknownTenant)),
        }
    }

    /// Lets in the one tenant of a text's document, which gets the next number. Where memory is refused for what is
    /// told of it, it is taken out again.
    pub(crate) fn admit(
        &mut self,
        alloc: Global,
        list: &ChangeList<J>,
        known: &mut Noted<J>,
        text: &str,
        document: &Document,
    ) -> Result<Newcomer, SettingsFault>
        requires { document_in (parse_document text.now) ≡ Ok (document_view document.now) }
        ensures on_success { IfOk result (λ newcomer. IsLetIn J.first known.old text.now newcomer
            known.new) }
        ensures fault { IfErr result (λ e. IsTurnedAway J.first known.old text.now (fault_view e)
            known.new) }
    {
        list.agree(&mut self.noted, known);
        let number = self.settings.admit_document(alloc, document)?;
        list.admit(&mut self.noted, known, text);
        match self.newcomer(alloc, number) {
            Ok(newcomer) => Ok(newcomer),
            Err(error) => {
                self.strike(list, known, number);
                Err(SettingsFault::from(error))
            }
        }
    }

    /// What is told of the tenant with this number.
    fn newcomer(&self, alloc: Global, number: u32) -> Result<Newcomer, AllocError>
        requires { IsSome (tenant_at (settings_view self.now.settings) number) }
        ensures number { IfOk result (λ n. n.number ≡ number) }
        ensures name { IfOk result (λ n. option_map (λ t. t.name)
            (tenant_at (settings_view self.now.settings) number) ≡ Some (string_bytes n.name)) }
        ensures section { IfOk result (λ n. section_at (settings_view self.now.settings) number
            ≡ Some (section_view n.section)) }
    {
        let Some(name) = self.settings.name(number) else {
            unreachable!()
        };
        let Some(section) = self.settings.section(number) else {
            unreachable!()
        };
        Ok(Newcomer {
            number,
            name: String::from_str(alloc, name)?,
            section: section.copy()?,
        })
    }

    /// Takes out the tenant with this number, where there is one. Nobody else gets the number.
    pub(crate) fn strike(&mut self, list: &ChangeList<J>, known: &mut Noted<J>, number: u32)
        ensures { known.new ≡ known.old ++ strike number ∷ [] }
    {
        list.strike(&mut self.noted, known, number);
        self.settings.strike(number);
    }

    /// The back end of the tenant with this number, or `None` where there is no such tenant.
    fn address(&self, tenant: u32) -> Option<Address>
        ensures { option_map (λ a. a.bytes) result
            ≡ option_map (λ s. s.endpoint) (section_at (settings_view self.now.settings) tenant) }
    {
        match self.settings.section(tenant) {
            Some(section) => Some(address_of(section)),
            None => None,
        }
    }
}

/// A tenant's back end, which an address has room for.
fn address_of(section: &Section) -> Address
    ensures { result.bytes ≡ string_bytes section.now.endpoint }
{
    match ArrayString::from(section.endpoint.as_str()) {
        Ok(address) => address,
        Err(_) => unreachable!(),
    }
}

/// Tells senders where tenants' back ends are, by the settings in force.
#[derive(Drop)]
pub struct BackEnds<'h, J: SettingsNaming, R> {
    pub rt: &'h R,
    pub settings: &'h Mutex<InForce<J>>,
    /// Each job that is asked for is counted there as taken.
    pub tally: &'h Tally,
}

impl<'h, J: SettingsNaming, R: Wait> Addresses for BackEnds<'h, J, R> {
    ghost use Rattle.tenant_registry.specs.InForce.{HasBackEnd};

    ghost tells = { λ _ tenant address. HasBackEnd J.first tenant address };

    /// A sender asks once for each job, before it sends it.
    fn address(&self, tenant: u32) -> Option<Address> {
        self.tally.take_job();
        self.settings.lock(self.rt).address(tenant)
    }
}
