//! A tenant's table `sending_queue`.

ghost use Rattle.std.specs.Prelude.{◌≤◌, ◌^◌};
ghost use Rattle.tail_settings.specs.Keys.{IsFrom};

use crate::fault::SettingsFault;
use crate::keys;
use toml::Table;

/// Batches of any queue have fewer bytes together, so whoever may have so many isn't bounded.
pub const MOST_QUEUE_BYTES: u64 = 1 << 42;

/// How many batches wait to be sent, and how many are being sent.
#[derive(Clone, Copy, Debug, PartialEq)]
pub struct SendingQueue {
    /// How many batches wait at most, 1 to 100,000.
    pub queue_size: u32,
    /// How many bytes those that wait have together at most, 0 to [`MOST_QUEUE_BYTES`], but for those that a drain
    /// makes. No key says it: it is [`MOST_QUEUE_BYTES`] unless
    /// [`Settings::bound_queues`](crate::Settings::bound_queues) was called.
    pub queue_bytes: u64,
    /// How many batches are in flight or waiting for a retry at most, 1 to 1,000.
    pub num_consumers: u32,
    pub ghost queue_size_range: { IsFrom 1 100000 queue_size },
    pub ghost queue_bytes_range: { queue_bytes ≤ 2 ^ 42 },
    pub ghost num_consumers_range: { IsFrom 1 1000 num_consumers },
}

impl SendingQueue {
    ghost use Rattle.std.specs.Prelude.{IfErr};
    ghost use Rattle.tail_settings.specs.Fault.{Tells, IsOfDocument};
    ghost use Rattle.tail_settings.specs.Keys.{keys_of};
    ghost use Rattle.tail_settings.specs.SendingQueue.{sending_queue_view, sending_queue_of};

    /// The table of a tenant.
    #[tactic(auto, using(crate::proofs::Told::tells_more), unfolding(crate::specs::SendingQueue::sending_queue_of))]
    pub(crate) fn read(tenant: Option<&Table>) -> Result<SendingQueue, SettingsFault>
        ensures meaning { Tells sending_queue_view result
            (sending_queue_of (keys_of tenant.entry)) }
        ensures no_memory { IfErr result IsOfDocument }
    {
        let queue = keys::table(tenant, "sending_queue")?;
        let queue_size = keys::number(queue, "queue_size", 1, 100_000, 1000)?;
        let num_consumers = keys::number(queue, "num_consumers", 1, 1000, 10)?;
        Ok(SendingQueue {
            queue_size: queue_size as u32,
            queue_bytes: MOST_QUEUE_BYTES,
            num_consumers: num_consumers as u32,
        })
    }
}
