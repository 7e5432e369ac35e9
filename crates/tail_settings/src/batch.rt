//! A tenant's table `batch`.

ghost use Rattle.std.specs.Prelude.{◌≡◌, ◌<◌, ◌≤◌};
ghost use Rattle.tail_settings.specs.Keys.{IsFrom};

use crate::fault::SettingsFault;
use crate::keys;
use toml::Table;

/// How many spans are sent together, and how long they wait for more.
#[derive(Clone, Copy, Debug, PartialEq)]
pub struct Batch {
    /// As soon as so many spans are pending they are sent, 1 to 1,000,000.
    pub send_batch_size: u32,
    /// How long pending spans wait at most, in milliseconds, 0 to 86,400,000. With 0 they don't wait.
    pub timeout: u64,
    /// How many spans a batch has at most, `send_batch_size` to 1,000,000, or 0 for as many as are pending.
    pub send_batch_max_size: u32,
    pub ghost send_batch_size_range: { IsFrom 1 1000000 send_batch_size },
    pub ghost timeout_range: { timeout ≤ 86400000 },
    pub ghost send_batch_max_size_range: { send_batch_max_size ≤ 1000000 },
    pub ghost none_or_more: { 0 < send_batch_max_size → send_batch_size ≤ send_batch_max_size },
}

impl Batch {
    ghost use Rattle.std.specs.Prelude.{IfErr};
    ghost use Rattle.tail_settings.specs.Fault.{Tells, IsOfDocument};
    ghost use Rattle.tail_settings.specs.Keys.{keys_of};
    ghost use Rattle.tail_settings.specs.Batch.{batch_view, is_max_size, batch_of};

    /// Whether a greatest size fits the size at which a batch is cut.
    fn is_max_size(send_batch_size: u64, send_batch_max_size: u64) -> bool
        ensures { result ≡ is_max_size send_batch_size send_batch_max_size }
    {
        send_batch_max_size == 0 || send_batch_size <= send_batch_max_size
    }

    /// The table of a tenant.
    #[tactic(auto, using(crate::proofs::Told::tells_more), unfolding(crate::specs::Batch::batch_of))]
    pub(crate) fn read(tenant: Option<&Table>) -> Result<Batch, SettingsFault>
        ensures meaning { Tells batch_view result (batch_of (keys_of tenant.entry)) }
        ensures no_memory { IfErr result IsOfDocument }
    {
        let batch = keys::table(tenant, "batch")?;
        let send_batch_size = keys::number(batch, "send_batch_size", 1, 1_000_000, 8192)?;
        let timeout = keys::number(batch, "timeout_ms", 0, 86_400_000, 200)?;
        let send_batch_max_size = keys::number(batch, "send_batch_max_size", 0, 1_000_000, 0)?;
        if !Batch::is_max_size(send_batch_size, send_batch_max_size) {
            return Err(SettingsFault::OutOfRange("send_batch_max_size"));
        }
        Ok(Batch {
            send_batch_size: send_batch_size as u32,
            timeout,
            send_batch_max_size: send_batch_max_size as u32,
        })
    }
}
