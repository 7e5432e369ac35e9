//! Who calls a hub.

ghost use Rattle.std.specs.Prelude.{◌≡◌, ◌++◌, ◌∷◌, [], OnOk};

use crate::log::StepLog;
use crate::machine::Machine;
use crate::slot::SlotSeat;
use std::alloc::{AllocError, Global};
use std::marker::Model;

/// One thread's seats at all shards of a hub. Contracts see what its calls gave, shard by shard; none of that is
/// stored. A caller that is let go can't be had again, and its hub then can't be closed.
#[derive(Drop)]
pub struct Caller<M: Machine, L: StepLog<M>> {
    pub(crate) seats: Vec<SlotSeat<M, L>>,
}

impl<M: Machine, L: StepLog<M>> Model for Caller<M, L> {
    ghost use Rattle.std.specs.Prelude.{List};
    ghost use Rattle.machine_hub.specs.Seats.{SeatState};

    ghost Value = { List (SeatState M M.Step M.Outcome M.Call) };

    ghost view = { λ s. s.seats.items };
}

impl<M: Machine, L: StepLog<M>> Caller<M, L> {
    /// A caller with no seats yet.
    pub(crate) fn new(alloc: Global) -> Caller<M, L>
        ensures { result ≡ [] }
    {
        Caller {
            seats: Vec::new(alloc),
        }
    }

    /// One seat more, at the next shard.
    pub(crate) fn add(&mut self, seat: SlotSeat<M, L>) -> Result<(), AllocError>
        ensures { OnOk result (self.new ≡ self.old ++ seat ∷ []) }
    {
        self.seats.push(seat)?;
        Ok(())
    }
}
