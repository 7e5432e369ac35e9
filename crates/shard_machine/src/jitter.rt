//! The generators of several tenants.

ghost use Rattle.std.specs.Prelude.{◌≡◌, [], true, false, is_none, IfOk, OnOk, OnErr};
ghost use Rattle.shard_machine.specs.Jitter.{generator_of, without, IsDraw, IsSeeded, IsRemoved};

use rand_core::SeedableRng;
use rand_core::utils::NextWord;
use rand_pcg::Lcg64Xsh32;
use std::alloc::{AllocError, Global};
use std::collections::BTreeMap;
use std::marker::Model;

/// Generators of words, one a tenant, by the tenant's number.
#[derive(Drop)]
pub struct JitterGenerators {
    generators: BTreeMap<u32, Lcg64Xsh32>,
}

impl Model for JitterGenerators {
    ghost use Rattle.std.specs.Prelude.{List};
    ghost use Rattle.shard_machine.specs.Jitter.{TenantGenerator};

    ghost Value = { List TenantGenerator };

    ghost view = { λ w. w.generators.entries };
}

impl JitterGenerators {
    /// No tenant has a generator.
    pub fn new(alloc: Global) -> JitterGenerators
        ensures { result ≡ [] }
    {
        JitterGenerators {
            generators: BTreeMap::new(alloc),
        }
    }

    /// Gives a tenant a generator, which starts from its seed, unless it has one. Answers whether it had none. Where
    /// memory is refused, nothing changes.
    pub fn seed(&mut self, tenant: u32, seed: u64) -> Result<bool, AllocError>
        ensures seeded { OnOk result (IsSeeded tenant seed self.old self.new) }
        ensures newly { IfOk result (λ newly. newly ≡ is_none (generator_of tenant self.old)) }
        ensures undone { IfOk result (λ newly. newly ≡ true → without tenant self.new ≡ self.old) }
        ensures had_one { IfOk result (λ newly. newly ≡ false → self.new ≡ self.old) }
        ensures on_refusal { OnErr result (self.new ≡ self.old) }
    {
        if self.generators.contains_key(&tenant) {
            return Ok(false);
        }
        self.generators
            .insert(tenant, Lcg64Xsh32::seed_from_u64(seed))?;
        Ok(true)
    }

    /// Takes a tenant's generator away, if it has one.
    pub fn remove(&mut self, tenant: u32)
        ensures removed { IsRemoved tenant self.old self.new }
        ensures without { self.new ≡ without tenant self.old }
    {
        self.generators.remove(&tenant);
    }

    /// Draws a tenant's next word; none where it has no generator.
    pub fn draw(&mut self, tenant: u32) -> Option<u32>
        ensures { IsDraw tenant self.old result self.new }
    {
        let generator = self.generators.get_mut(&tenant)?;
        Some(generator.next_word())
    }
}
