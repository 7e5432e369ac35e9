//! The hub.

ghost use Rattle.std.specs.Prelude.{◌≡◌, ◌≢◌, ◌<◌, ◌≤◌, [], length, IfOk, IfErr, OnErr, option_map, replicate, vec_len, vec_capacity};
ghost use Rattle.machine_hub.specs.Hub.{keeping, receipt_at, AreNew, homes_of, slots_of, AreCallersOf, new_caller, EachRises, IsRefusedOn, IsCallOn, IsRefusalOn, IsToldOn, AreShardRuns, AreShardHistories};
ghost use Rattle.machine_hub.specs.Keepers.{keeper_slots, AreRoomy, AreFull, taken_in, AreWholeRuns};

use crate::caller::Caller;
use crate::keeper::HubKeeper;
use crate::log::StepLog;
use crate::logged::{Given, LoggedMachine};
use crate::machine::Machine;
use crate::opening::{Opening, open_all};
use crate::receipt::Receipt;
use crate::slot::{Slot, SlotKeeper};
use crate::told::Told;
use std::alloc::{AllocError, Global};
use std::marker::Model;
use std::sync::Wait;

/// The shards, which threads share. Shards are numbered from 0.
#[derive(Drop)]
pub struct Hub<M: Machine, L: StepLog<M>> {
    shards: Vec<Slot<M, L>>,
}

impl<M: Machine, L: StepLog<M>> Model for Hub<M, L> {
    ghost use Rattle.std.specs.Prelude.{List};
    ghost use Rattle.atomic_table.specs.Seated.{TableId};

    ghost Value = { List TableId };

    ghost view = { λ s. s.shards.items };
}

/// Not all callers came: the refusal with the number 24. All is handed back.
#[derive(Drop)]
pub struct CallersMissing<M: Machine, L: StepLog<M>> {
    pub hub: Hub<M, L>,
    pub keeper: HubKeeper<M, L>,
    pub callers: Vec<Caller<M, L>>,
}

impl<M: Machine, L: StepLog<M>> Hub<M, L> {
    /// A hub with these machines, whose logs are empty, in their order, its keeper, and its callers, one for each
    /// thread. Where memory is refused nothing is kept.
    pub fn open<R: Wait>(
        rt: &R,
        alloc: Global,
        machines: Vec<LoggedMachine<M, L>>,
        callers: usize,
    ) -> Result<(Hub<M, L>, HubKeeper<M, L>, Vec<Caller<M, L>>), AllocError>
        requires callers { 0 < callers }
        requires machines { AreNew machines.items }
        ensures shards { IfOk result (λ r. length r.0 ≡ vec_len machines) }
        ensures keeper { IfOk result (λ r. r.1 ≡ keeping r.0 (homes_of machines.items) callers) }
        ensures callers { IfOk result (λ r.
            r.2.items ≡ replicate callers (new_caller r.0 (homes_of machines.items))) }
        ensures same_hub { IfOk result (λ r. AreCallersOf r.0 r.2.items) }
    {
        let room = Vec::with_capacity(alloc, machines.len())?;
        let opening = open_all(rt, alloc, machines, callers)?;
        let Opening {
            shards,
            keepers,
            callers: list,
            count: _,
        } = opening;
        let keeper = HubKeeper {
            keepers,
            callers,
            room,
        };
        Ok((Hub { shards }, keeper, list))
    }

    /// How many shards there are.
    pub fn shards(&self) -> usize
        ensures { result ≡ length self.now }
    {
        self.shards.len()
    }

    /// Makes one step of a shard's machine. Answers its outcome, and a receipt of its entry: none where the log keeps
    /// nothing, or where the shard was refused memory before.
    pub fn step<R: Wait>(
        &self,
        rt: &R,
        alloc: Global,
        me: &mut Caller<M, L>,
        shard: usize,
        call: M::Call,
    ) -> Result<(M::Outcome, Option<Receipt>), AllocError>
        requires shard { shard < length self.now }
        requires same_hub { slots_of me.old ≡ self.now }
        ensures same_hub { slots_of me.new ≡ self.now }
        ensures call { IfOk result (λ r. IsCallOn M.asks M.steps M.loses me.old me.new shard call
            r.0 r.1) }
        ensures on_refusal { OnErr result (IsRefusedOn me.old me.new shard) }
        ensures lost { OnErr result (IsRefusalOn M.asks M.steps M.loses me.old me.new shard call) }
    {
        let seat = &mut me.seats[shard];
        let (outcome, given) = self.shards[shard].step(rt, alloc, seat, call)?;
        let receipt = receipt_of::<M>(shard, given);
        Ok((outcome, receipt))
    }

    /// What the question is told of a shard's machine, and whether that was refused memory before. It makes no step.
    pub fn ask<R: Wait>(
        &self,
        rt: &R,
        me: &mut Caller<M, L>,
        shard: usize,
        question: &M::Question,
    ) -> Told<M::Reading>
        requires shard { shard < length self.now }
        requires same_hub { slots_of me.old ≡ self.now }
        ensures answer { IsToldOn M.asks M.steps M.loses M.reads me.old shard question.now result }
        ensures same { me.new ≡ me.old }
    {
        let seat = &mut me.seats[shard];
        self.shards[shard].ask(rt, seat, question)
    }

    /// Ends the hub, once all its callers are back, and gives the machines with their logs, in the order of the shards.
    /// It takes no memory. Where some callers are missing it hands all back, as it was.
    pub fn close<R: Wait>(
        self,
        rt: &R,
        keeper: HubKeeper<M, L>,
        mut callers: Vec<Caller<M, L>>,
    ) -> Result<Vec<LoggedMachine<M, L>>, CallersMissing<M, L>>
        requires keeper { keeper.slots ≡ self }
        requires callers { AreCallersOf self callers.items }
        ensures all { IfOk result (λ shards. vec_len callers ≡ keeper.callers) }
        ensures runs { IfOk result (λ shards. AreShardRuns M.steps keeper.homes callers.items
            shards.items) }
        ensures histories { IfOk result (λ shards.
            AreShardHistories M.asks M.steps M.loses keeper.homes callers.items shards.items) }
        ensures missing { IfErr result (λ back. (vec_len callers ≢ keeper.callers)
            × (back.hub ≡ self)
            × (back.keeper ≡ keeper) × (back.callers ≡ callers)) }
    {
        if callers.len() != keeper.callers {
            let hub = self;
            return Err(CallersMissing {
                hub,
                keeper,
                callers,
            });
        }
        let Hub { shards } = self;
        let HubKeeper {
            mut keepers,
            callers: _,
            room,
        } = keeper;
        while let Some(caller) = callers.pop() {
            take_caller(&shards, &mut keepers, caller);
        }
        Ok(finish_all(rt, shards, keepers, room))
    }
}

/// The receipt of a call's entry.
fn receipt_of<M: Machine>(shard: usize, given: Given<M>) -> Option<Receipt>
    ensures { result ≡ option_map (λ g. receipt_at shard g.0) given }
{
    let (position, _entry) = given?;
    Some(Receipt { shard, position })
}

/// Takes in a caller's seats.
fn take_caller<M: Machine, L: StepLog<M>>(
    shards: &Vec<Slot<M, L>>,
    keepers: &mut Vec<SlotKeeper<M, L>>,
    caller: Caller<M, L>,
)
    requires keepers { keeper_slots keepers.old.items ≡ shards.now.items }
    requires caller { slots_of caller ≡ shards.now.items }
    requires room { AreRoomy keepers.old.items }
    ensures taken { keepers.new.items ≡ taken_in keepers.old.items caller }
    ensures rising { EachRises caller }
{
    let Caller { mut seats } = caller;
    while let Some(seat) = seats.pop() {
        let k = seats.len();
        keepers[k].take_in(&shards[k], seat);
    }
}

/// Ends all slots, the last first.
fn finish_all<M: Machine, L: StepLog<M>, R: Wait>(
    rt: &R,
    mut shards: Vec<Slot<M, L>>,
    mut keepers: Vec<SlotKeeper<M, L>>,
    mut room: Vec<LoggedMachine<M, L>>,
) -> Vec<LoggedMachine<M, L>>
    requires keepers { keeper_slots keepers.items ≡ shards.items }
    requires all { AreFull keepers.items }
    requires room { (room.items ≡ []) × (vec_len keepers ≤ vec_capacity room) }
    ensures { AreWholeRuns M.asks M.steps M.loses keepers.items result.items }
{
    while let Some(slot) = shards.pop() {
        let Some(keeper) = keepers.pop() else {
            unreachable!()
        };
        room.push_reserved(keeper.finish(rt, slot));
    }
    room.reverse();
    room
}
