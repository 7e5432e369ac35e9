//! Hashes of trace ids under numbers of the caller's.

ghost use Rattle.std.specs.Prelude.{◌≡◌, ◌+◌, ◌%◌, ◌^◌};

use std::hash::{BuildHasher, DefaultHasher, Hasher};
use std::io;
use std::random::RandomSource;

/// Two numbers under which trace ids are hashed. Who doesn't know them can't choose ids that collide.
#[derive(Clone, Copy)]
pub struct HashKeys {
    pub first: u64,
    pub second: u64,
}

impl HashKeys {
    /// Draws both numbers from a source of randomness.
    pub fn draw(rt: &impl RandomSource) -> io::Result<HashKeys> {
        let first = draw_number(rt)?;
        let second = draw_number(rt)?;
        Ok(HashKeys { first, second })
    }

    /// The tenant's own keys, where several tenants are given the same two numbers.
    pub fn of_tenant(self, tenant: u32) -> HashKeys
        ensures first { result.first ≡ self.first }
        ensures second { result.second ≡ (self.second + tenant) % 2 ^ 64 }
    {
        HashKeys {
            first: self.first,
            second: self.second.wrapping_add(u64::from(tenant)),
        }
    }
}

fn draw_number(rt: &impl RandomSource) -> io::Result<u64> {
    let mut bytes = [0; 8];
    rt.fill_bytes(&mut bytes)?;
    Ok(u64::from_le_bytes(bytes))
}

/// SipHash-1-3 of two numbers and what is hashed.
#[derive(Clone, Copy)]
pub(crate) struct Keyed {
    // The hasher as it is once both numbers are in it.
    start: DefaultHasher,
}

impl Keyed {
    pub(crate) fn new(keys: HashKeys) -> Self {
        let mut start = DefaultHasher::new();
        start.write_u64(keys.first);
        start.write_u64(keys.second);
        Keyed { start }
    }
}

impl BuildHasher for Keyed {
    type Hasher = DefaultHasher;

    ghost build_hasher = { λ k. k.start };

    fn build_hasher(&self) -> DefaultHasher {
        self.start
    }
}
