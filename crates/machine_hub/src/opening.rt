//! How a hub comes to be, shard by shard.

ghost use Rattle.std.specs.Prelude.{◌≡◌, ◌<◌, ◌++◌, ◌∷◌, [], false, length, List, IfOk, OnOk, replicate, vec_len};
ghost use Rattle.machine_hub.specs.Slot.{home_of};
ghost use Rattle.machine_hub.specs.Hub.{AreNew};
ghost use Rattle.machine_hub.specs.Keepers.{zipped, snoc, IsOpen, IsAdded};

use crate::caller::Caller;
use crate::log::StepLog;
use crate::logged::LoggedMachine;
use crate::machine::Machine;
use crate::slot::{Slot, SlotKeeper, SlotSeat};
use std::alloc::{AllocError, Global};
use std::sync::Wait;

/// The shards so far, their keepers, and the callers, each with a seat at each of these shards.
#[derive(Drop)]
pub(crate) struct Opening<M: Machine, L: StepLog<M>> {
    pub shards: Vec<Slot<M, L>>,
    pub keepers: Vec<SlotKeeper<M, L>>,
    pub callers: Vec<Caller<M, L>>,
    // How many callers there are.
    pub count: usize,
}

impl<M: Machine, L: StepLog<M>> Opening<M, L> {
    /// No shard, and callers without seats.
    fn new(alloc: Global, count: usize) -> Result<Opening<M, L>, AllocError>
        ensures shards { IfOk result (λ o. (o.shards.items ≡ []) × (o.keepers.items ≡ [])
            × (o.count ≡ count)) }
        ensures callers { IfOk result (λ o. o.callers.items ≡ replicate count []) }
    {
        let mut callers = Vec::new(alloc);
        for _ in 0..count {
            callers.push(Caller::new(alloc))?;
        }
        Ok(Opening {
            shards: Vec::new(alloc),
            keepers: Vec::new(alloc),
            callers,
            count,
        })
    }

    /// One shard more, with a seat for each caller.
    fn add<R: Wait>(
        &mut self,
        rt: &R,
        alloc: Global,
        machine: LoggedMachine<M, L>,
    ) -> Result<(), AllocError>
        requires count { 0 < self.old.count }
        requires callers { vec_len self.old.callers ≡ self.old.count }
        requires machine { (machine.entries ≡ []) × (machine.stopped ≡ false) }
        ensures count { self.new.count ≡ self.old.count }
        ensures added { OnOk result (IsAdded self.old.count machine self.old.shards.items
            self.new.shards.items self.old.keepers.items self.new.keepers.items
            self.old.callers.items self.new.callers.items) }
    {
        let (slot, keeper, seats) = Slot::open(rt, alloc, machine, self.count)?;
        hand_out(&mut self.callers, seats)?;
        self.shards.push(slot)?;
        self.keepers.push(keeper)?;
        Ok(())
    }
}

/// Opens a shard for each machine.
pub(crate) fn open_all<M: Machine, L: StepLog<M>, R: Wait>(
    rt: &R,
    alloc: Global,
    mut machines: Vec<LoggedMachine<M, L>>,
    count: usize,
) -> Result<Opening<M, L>, AllocError>
    requires count { 0 < count }
    requires machines { AreNew machines.items }
    ensures { IfOk result (λ o. IsOpen count machines.items o.shards.items o.keepers.items
        o.callers.items) }
{
    let mut opening = Opening::new(alloc, count)?;
    machines.reverse();
    while let Some(machine) = machines.pop() {
        opening.add(rt, alloc, machine)?;
    }
    Ok(opening)
}

/// Hands a seat to each caller.
fn hand_out<M: Machine, L: StepLog<M>>(
    callers: &mut Vec<Caller<M, L>>,
    mut seats: Vec<SlotSeat<M, L>>,
) -> Result<(), AllocError>
    requires { vec_len seats ≡ vec_len callers.old }
    ensures { OnOk result (callers.new.items ≡ zipped snoc callers.old.items seats.items) }
{
    while let Some(seat) = seats.pop() {
        let k = seats.len();
        callers[k].add(seat)?;
    }
    Ok(())
}
