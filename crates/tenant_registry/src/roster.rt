//! Which tenants are present, as who reads the input knows it.

ghost use Rattle.std.specs.Prelude.{◌≡◌, ◌++◌, ◌∷◌, [], ◌==◌, not, filter, IfOk, IfSome, OnOk, map, option_map, string_bytes};
ghost use Rattle.otlp_front.specs.Route.{names_in, number_of};
ghost use Rattle.tail_settings.specs.Settings.{settings_view};
ghost use Rattle.tenant_registry.specs.Roster.{HasRoom, entry_of, present_in};

use std::alloc::{AllocError, Global};
use tail_settings::Settings;

/// A tenant that is present.
#[derive(Drop)]
pub struct Present {
    pub number: u32,
    pub name: String,
}

/// The tenants of settings, in the order of their numbers.
pub(crate) fn tenants_of(alloc: Global, settings: &Settings) -> Result<Vec<Present>, AllocError>
    ensures { IfOk result (λ tenants. map entry_of tenants.items
        ≡ (names_in (settings_view settings.now)).tenants) }
{
    let mut tenants = Vec::new(alloc);
    'tenants: for (name, tenant) in settings.tenants.iter() {
        tenants.push(Present {
            number: tenant.number,
            name: name.clone()?,
        })?;
    }
    Ok(tenants)
}

/// The tenants that are present, in the order of their numbers.
#[derive(Drop)]
pub struct Roster {
    tenants: Vec<Present>,
}

impl Roster {
    /// No tenant.
    pub fn new(alloc: Global) -> Roster
        ensures { present_in result ≡ [] }
    {
        Roster {
            tenants: Vec::new(alloc),
        }
    }

    /// The tenants of the settings.
    pub fn of(alloc: Global, settings: &Settings) -> Result<Roster, AllocError>
        ensures { IfOk result (λ roster. present_in roster
            ≡ (names_in (settings_view settings.now)).tenants) }
    {
        Ok(Roster {
            tenants: tenants_of(alloc, settings)?,
        })
    }

    /// The tenants, one after the other.
    pub fn tenants(&self) -> &[Present]
        ensures { result.now ≡ self.now.tenants.items }
    {
        self.tenants.as_slice()
    }

    /// Makes room for one more tenant.
    pub fn reserve(&mut self) -> Result<(), AllocError>
        ensures same { present_in self.new ≡ present_in self.old }
        ensures room { OnOk result (HasRoom self.new) }
    {
        self.tenants.reserve(1)
    }

    /// One more tenant, for which there is room.
    pub fn push(&mut self, number: u32, name: String)
        requires { HasRoom self.old }
        ensures { present_in self.new ≡ present_in self.old ++ (number, string_bytes name) ∷ [] }
    {
        let Ok(()) = self.tenants.push(Present { number, name }) else {
            unreachable!()
        };
    }

    /// Without the tenant of this number.
    pub fn remove(&mut self, number: u32)
        ensures { present_in self.new ≡ filter (λ other. not (other.0 == number))
            (present_in self.old) }
    {
        self.tenants.retain(|tenant| tenant.number != number);
    }

    /// The tenant of this name.
    pub fn find(&self, name: &[u8]) -> Option<&Present>
        ensures number { option_map (λ p. p.now.number) result ≡ number_of (present_in self.now)
            name.now }
        ensures name { IfSome result (λ p. string_bytes p.now.name ≡ name.now) }
    {
        for present in self.tenants.iter() {
            if name == present.name.as_bytes() {
                return Some(present);
            }
        }
        None
    }
}
