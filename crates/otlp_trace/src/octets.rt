//! Bytes of a message.

ghost use Rattle.std.specs.Prelude.{◌≡◌, [], nat_eq, IfOk};
ghost use Rattle.std.specs.Cmp.Lexicographic.{pointwise, nat_list_eq_equiv};
ghost use Rattle.std.specs.Cmp.{partial_equiv_from_equiv};

use std::alloc::{AllocError, Global};
use std::fmt;
use std::marker::Model;

/// The value of a field of bytes, which contracts see as a list of numbers.
#[derive(Drop)]
pub struct Octets {
    bytes: Vec<u8>,
}

impl Model for Octets {
    ghost use Rattle.std.specs.Prelude.{ℕ, List};

    ghost Value = { List ℕ };

    ghost view = { λ o. o.bytes.items };
}

impl Octets {
    /// No bytes.
    pub fn new(alloc: Global) -> Octets
        ensures { result ≡ [] }
    {
        Octets {
            bytes: Vec::new(alloc),
        }
    }

    /// A copy of these bytes, unless memory is refused.
    pub fn from_slice(alloc: Global, bytes: &[u8]) -> Result<Octets, AllocError>
        ensures { IfOk result (λ copy. copy ≡ bytes.now) }
    {
        let mut copy = Vec::new(alloc);
        copy.extend_from_slice(bytes)?;
        Ok(Octets { bytes: copy })
    }

    /// These bytes, with no copy.
    pub fn from_vec(bytes: Vec<u8>) -> Octets
        ensures { result ≡ bytes.items }
    {
        Octets { bytes }
    }

    /// The bytes, with no copy.
    pub fn into_vec(self) -> Vec<u8>
        ensures { result.items ≡ self }
    {
        let Octets { bytes } = self;
        bytes
    }

    /// The bytes, borrowed.
    pub fn as_slice(&self) -> &[u8]
        ensures { result.now ≡ self.now }
    {
        self.bytes.as_slice()
    }
}

impl Clone for Octets {
    ghost is_clone = { λ octets copy. copy ≡ octets };

    fn clone(&self) -> Result<Octets, AllocError> {
        Octets::from_slice(*self.bytes.allocator(), self.as_slice())
    }
}

impl PartialEq for Octets {
    ghost eq = { pointwise nat_eq };

    ghost laws = { partial_equiv_from_equiv nat_list_eq_equiv };

    fn eq(&self, other: &Octets) -> bool {
        self.as_slice() == other.as_slice()
    }
}

impl Eq for Octets {
    ghost laws = { nat_list_eq_equiv };
}

impl fmt::Debug for Octets {
    fn fmt<W: fmt::Write>(&self, f: &mut fmt::Formatter<W>) -> fmt::Result {
        self.as_slice().fmt(f)
    }
}
