//! Who ends a hub.

use crate::log::StepLog;
use crate::logged::LoggedMachine;
use crate::machine::Machine;
use crate::slot::SlotKeeper;
use std::marker::Model;

/// Who opened a hub, and can end it. It has room for the shards, so that ending takes no memory.
#[derive(Drop)]
pub struct HubKeeper<M: Machine, L: StepLog<M>> {
    // One of each shard, none of which has taken in a seat.
    pub(crate) keepers: Vec<SlotKeeper<M, L>>,
    // How many the hub was opened with.
    pub(crate) callers: usize,
    // Empty, with room for all shards.
    pub(crate) room: Vec<LoggedMachine<M, L>>,
}

impl<M: Machine, L: StepLog<M>> Model for HubKeeper<M, L> {
    ghost use Rattle.machine_hub.specs.Hub.{HubKeeping};

    ghost Value = { HubKeeping M };

    ghost use Rattle.std.specs.Prelude.{◌≡◌, ◌≤◌, [], map, vec_len, vec_capacity};
    ghost use Rattle.machine_hub.specs.Keepers.{AreFresh};

    ghost view = { λ s. record {
      slots = map (λ k. k.slot) s.keepers.items;
      homes = map (λ k. k.home) s.keepers.items;
      callers = s.callers;
    } };

    ghost invariant = { λ s. AreFresh s.callers s.keepers.items × (s.room.items ≡ [])
        × (vec_len s.keepers ≤ vec_capacity s.room) };
}

impl<M: Machine, L: StepLog<M>> HubKeeper<M, L> {
    ghost use Rattle.std.specs.Prelude.{◌≡◌};

    /// How many callers the hub was opened with: so many [`crate::Hub::close`] asks for.
    pub fn callers(&self) -> usize
        ensures { result ≡ self.now.callers }
    {
        self.callers
    }
}
