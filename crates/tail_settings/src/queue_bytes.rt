//! A bound of the bytes that each tenant's queue holds.

ghost use Rattle.std.specs.Prelude.{◌≡◌, ◌≤◌, map, min};
ghost use Rattle.tail_settings.specs.QueueBytes.{bounded, bounded_tenant};
ghost use Rattle.tail_settings.specs.SendingQueue.{most_queue_bytes};
ghost use Rattle.tail_settings.specs.Settings.{tenant_view, settings_view};

use crate::sending_queue::MOST_QUEUE_BYTES;
use crate::settings::Settings;
use crate::tenant::Tenant;
use indexmap::IndexMap;

impl Settings {
    /// Bounds the bytes that the batches of each tenant have together while they wait to be sent: of those that are
    /// present, and of those that come. What a drain makes isn't bounded. More than [`MOST_QUEUE_BYTES`] are taken as
    /// so many. It takes no memory.
    pub fn bound_queues(&mut self, bytes: u64)
        ensures { settings_view self.new ≡ bounded (min bytes most_queue_bytes)
            (settings_view self.old) }
    {
        let bytes = bytes.min(MOST_QUEUE_BYTES);
        bound_tenants(&mut self.tenants, bytes);
        self.queue_bytes = bytes;
    }
}

/// Bounds the queues of these tenants.
fn bound_tenants(tenants: &mut IndexMap<String, Tenant>, bytes: u64)
    requires { bytes ≤ most_queue_bytes }
    ensures { map tenant_view tenants.new.entries
        ≡ map (bounded_tenant bytes) (map tenant_view tenants.old.entries) }
{
    for place in 0..tenants.len() {
        tenants[place].bound_queue(bytes);
    }
}
