//! Which tenants are in which shard.

ghost use Rattle.std.specs.Prelude.{◌≡◌, IfOk};
ghost use Rattle.tail_settings.specs.Settings.{settings_view};
ghost use Rattle.tenant_shard.specs.Table.{members_of};

use std::alloc::{AllocError, Global};
use tail_settings::Settings;

/// The numbers of the tenants that are in the shard of this number, from 0: those that leave it over when divided by
/// the number of shards.
pub fn members_of(alloc: Global, settings: &Settings, shard: u32) -> Result<Vec<u32>, AllocError>
    ensures { IfOk result (λ members. members.items ≡ members_of (settings_view settings.now)
        shard) }
{
    let mut members = Vec::new(alloc);
    'tenants: for tenant in settings.tenants.values() {
        if tenant.number % settings.global.shards == shard {
            members.push(tenant.number)?;
        }
    }
    Ok(members)
}
