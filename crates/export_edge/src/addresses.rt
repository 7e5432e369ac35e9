//! Where tenants' back ends are.
ghost use Rattle.std.specs.Prelude.{◌≡◌, ℕ, List, Option, option_map};

use arrayvec::ArrayString;

/// An address, a host and a port, of at most 255 bytes. It takes no memory.
pub type Address = ArrayString<255>;

/// Where tenants' back ends are, which may change from one call to the next.
pub trait Addresses {
    // In this state a tenant of this number is said to have this address, or none.
    ghost tells: { Self → ℕ → Option (List ℕ) → Type 0 };

    /// The address of the tenant with this number, or `None` where it has none.
    fn address(&self, tenant: u32) -> Option<Address>
        ensures { tells self.now tenant (option_map (λ a. a.bytes) result) };
}

/// Addresses that stay, each at its tenant's number. One that is too long is none.
#[derive(Clone, Copy)]
pub struct AddressList<'a> {
    addresses: &'a [String],
}

impl<'a> AddressList<'a> {
    /// These addresses.
    pub fn new(addresses: &'a [String]) -> AddressList<'a>
        ensures { result.addresses.now ≡ addresses.now }
    {
        AddressList { addresses }
    }
}

impl Addresses for AddressList<'_> {
    ghost use Rattle.std.specs.Prelude.{◌≡◌, map, string_bytes};
    ghost use Rattle.export_edge.specs.Dialing.{address_in};

    ghost tells = { λ list tenant address. address ≡ address_in (map string_bytes list.addresses.now) tenant };

    fn address(&self, tenant: u32) -> Option<Address> {
        let Some(address) = self.addresses.get(tenant as usize) else {
            return None;
        };
        match ArrayString::from(address.as_str()) {
            Ok(copy) => Some(copy),
            Err(_) => None,
        }
    }
}
