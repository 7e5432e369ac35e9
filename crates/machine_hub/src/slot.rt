//! A machine that threads step one after another.

ghost use Rattle.std.specs.Prelude.{◌≡◌, ◌+◌, ◌<◌, [], length, true, false, Some, None, IfOk, IfSome, OnErr, replicate, option_map};
ghost use Rattle.std.specs.Arc.{arc_value};
ghost use Rattle.crossbeam_queue.specs.Passes.{view as known, IsPassOf, IsSamePass, ruled_capacity};
ghost use Rattle.log_positions.specs.Numbered.{AreRising};
ghost use Rattle.machine_hub.specs.Slot.{seat_view, home_of, Taken, Stepped, Stopped, Returned, IsSteppedBy, IsStoppedBy, IsReturnedBy};
ghost use Rattle.machine_hub.specs.Seats.{new_seat, new_keeper, keeper_with, IsStepOf, IsRefusalOf, WasTold, IsWholeRun, with_seat};

use crate::log::StepLog;
use crate::logged::{Given, LoggedMachine};
use crate::machine::Machine;
use crate::rule::{OneAtATime, Opens, Returns, Seats, Steps, Stops, Takes, ViewOf};
use crate::told::Told;
use crossbeam_queue::{Pass, RuledArrayQueue};
use std::alloc::{AllocError, Global};
use std::marker::Model;
use std::sync::{Mutex, Wait};
use std::thread;

type Cell<M, L> = RuledArrayQueue<LoggedMachine<M, L>, ViewOf<M>, OneAtATime>;

type Token<M, L> = Pass<LoggedMachine<M, L>, ViewOf<M>>;

/// A place at a slot, for one thread at a time. Contracts see it as its slot, its machine's home, the entries of its
/// calls, how many came after memory was refused, and which were refused memory; none of that is stored.
#[derive(Drop)]
pub struct SlotSeat<M: Machine, L: StepLog<M>> {
    pass: Token<M, L>,
}

impl<M: Machine, L: StepLog<M>> Model for SlotSeat<M, L> {
    ghost use Rattle.machine_hub.specs.Seats.{SeatState};

    ghost Value = { SeatState M M.Step M.Outcome M.Call };

    ghost use Rattle.std.specs.Prelude.{◌≡◌, [], None};
    ghost use Rattle.crossbeam_queue.specs.Passes.{view as known};
    ghost use Rattle.log_positions.specs.Numbered.{AreRising};

    ghost view = { λ s. record {
      slot = s.pass.table_id;
      home = (known s.pass).home;
      calls = (known s.pass).calls;
      late = (known s.pass).late;
      bare = (known s.pass).bare;
      refused = (known s.pass).refused;
      lost = (known s.pass).lost;
    } };

    ghost invariant = { λ s. (s.pass.me.1 ≡ []) × ((known s.pass).parts ≡ 1) × ((known s.pass).held ≡ None)
        × AreRising (known s.pass).calls };
}

/// A machine that threads step one after another. A lock keeps them apart, and the rule of the cell knows what each
/// did.
#[derive(Drop)]
pub struct Slot<M: Machine, L: StepLog<M>> {
    gate: Mutex<()>,
    cell: Cell<M, L>,
}

impl<M: Machine, L: StepLog<M>> Model for Slot<M, L> {
    ghost use Rattle.atomic_table.specs.Seated.{TableId};

    ghost Value = { TableId };

    ghost use Rattle.std.specs.Prelude.{◌≡◌};
    ghost use Rattle.crossbeam_queue.specs.Passes.{ruled_capacity};

    ghost view = { λ s. s.cell.table.shared.table_id };

    ghost invariant = { λ s. ruled_capacity s.cell ≡ 1 };
}

/// Who opened a slot, and can end it.
#[derive(Drop)]
pub struct SlotKeeper<M: Machine, L: StepLog<M>> {
    root: Token<M, L>,
    seats: usize,
    // How many of them it has taken in.
    taken: usize,
}

impl<M: Machine, L: StepLog<M>> Model for SlotKeeper<M, L> {
    ghost use Rattle.machine_hub.specs.Seats.{KeeperState};

    ghost Value = { KeeperState M M.Step M.Outcome M.Call };

    ghost use Rattle.std.specs.Prelude.{◌≡◌, ◌≤◌, ◌+◌, ◌-◌, [], None};
    ghost use Rattle.crossbeam_queue.specs.Passes.{view as known};
    ghost use Rattle.machine_hub.specs.Slot.{all_parts};

    ghost view = { λ s. record {
      slot = s.root.table_id;
      home = (known s.root).home;
      seats = s.seats;
      taken = s.taken;
      calls = (known s.root).calls;
      late = (known s.root).late;
      bare = (known s.root).bare;
      refused = (known s.root).refused;
      lost = (known s.root).lost;
    } };

    ghost invariant = { λ s. (s.root.me.1 ≡ []) × (s.taken ≤ s.seats)
        × ((known s.root).parts ≡ all_parts - s.seats + s.taken) × ((known s.root).held ≡ None) };
}

impl<M: Machine, L: StepLog<M>> SlotSeat<M, L> {
    fn new(pass: Token<M, L>) -> SlotSeat<M, L>
        requires pass { pass.me.1 ≡ [] }
        requires fresh { known pass ≡ seat_view 1 (known pass).home None [] [] 0 0 [] }
        ensures { result ≡ new_seat pass.table_id (known pass).home }
    {
        SlotSeat { pass }
    }
}

impl<M: Machine, L: StepLog<M>> Slot<M, L> {
    /// A slot with this machine, whose log is empty, its keeper, and its seats, one for each thread.
    pub fn open<R: Wait>(
        rt: &R,
        alloc: Global,
        machine: LoggedMachine<M, L>,
        seats: usize,
    ) -> Result<(Slot<M, L>, SlotKeeper<M, L>, Vec<SlotSeat<M, L>>), AllocError>
        requires seats { 0 < seats }
        requires machine { (machine.entries ≡ []) × (machine.stopped ≡ false) }
        ensures keeper { IfOk result (λ r. r.1 ≡ new_keeper r.0 (home_of machine) seats) }
        ensures seats { IfOk result (λ r. r.2.items ≡ replicate seats
            (new_seat r.0 (home_of machine))) }
    {
        let mut list = Vec::new(alloc);
        let (cell, mut root) = Cell::<M, L>::ruled(alloc, 1)?;
        if cell.push_as::<Opens, R>(rt, &mut root, machine).is_err() {
            unreachable!()
        }
        for _ in 0..seats {
            let pass = cell.another::<Seats>(&mut root);
            list.push(SlotSeat::new(pass))?;
        }
        let slot = Slot {
            gate: Mutex::new(()),
            cell,
        };
        let keeper = SlotKeeper {
            root,
            seats,
            taken: 0,
        };
        Ok((slot, keeper, list))
    }

    /// Makes one step of the machine. Answers its outcome, and the entry with its position in the log; none where the
    /// log keeps nothing, or where memory was refused before.
    pub fn step<R: Wait>(
        &self,
        rt: &R,
        alloc: Global,
        me: &mut SlotSeat<M, L>,
        call: M::Call,
    ) -> Result<(M::Outcome, Given<M>), AllocError>
        requires { me.old.slot ≡ self.now }
        ensures made { IfOk result (λ r. IsStepOf M.asks M.steps M.loses me.old me.new call r.0
            (option_map (λ given. (given.0, arc_value given.1)) r.1)) }
        ensures on_refusal { OnErr result (IsRefusalOf M.asks M.steps M.loses me.old me.new
            call) }
    {
        let _guard = self.gate.lock(rt);
        let mut machine = take(rt, &self.cell, &mut me.pass);
        match machine.apply(alloc, call) {
            Ok(made) => {
                put_stepped(rt, &self.cell, &mut me.pass, machine);
                Ok(made)
            }
            Err(error) => {
                put_stopped(rt, &self.cell, &mut me.pass, machine);
                Err(error)
            }
        }
    }

    /// What the question is told. It makes no step, and the machine's log has nothing of it.
    pub fn ask<R: Wait>(
        &self,
        rt: &R,
        me: &mut SlotSeat<M, L>,
        question: &M::Question,
    ) -> Told<M::Reading>
        requires { me.old.slot ≡ self.now }
        ensures answer { WasTold M.asks M.steps M.loses M.reads me.old question.now result }
        ensures same { me.new ≡ me.old }
    {
        let _guard = self.gate.lock(rt);
        let machine = take(rt, &self.cell, &mut me.pass);
        let answer = machine.tell(question);
        let late = machine.stopped();
        put_back(rt, &self.cell, &mut me.pass, machine);
        Told {
            answer,
            stopped: late,
        }
    }
}

impl<M: Machine, L: StepLog<M>> SlotKeeper<M, L> {
    /// Takes in a seat, whose thread has ended.
    pub fn take_in(&mut self, slot: &Slot<M, L>, seat: SlotSeat<M, L>)
        requires slot { self.old.slot ≡ slot.now }
        requires seat { seat.slot ≡ slot.now }
        requires room { self.old.taken < self.old.seats }
        ensures keeper { self.new ≡ keeper_with self.old seat }
        ensures rising { AreRising seat.calls }
    {
        take_in(&slot.cell, &mut self.root, seat);
        self.taken += 1;
    }

    /// Ends the slot, once all its seats are back, and gives the machine.
    pub fn finish<R: Wait>(self, rt: &R, slot: Slot<M, L>) -> LoggedMachine<M, L>
        requires slot { self.slot ≡ slot }
        requires all { self.taken ≡ self.seats }
        ensures { IsWholeRun M.asks M.steps M.loses self result }
    {
        let Slot { gate: _, cell } = slot;
        let SlotKeeper {
            mut root,
            seats: _,
            taken: _,
        } = self;
        let Some(machine) = cell.pop_as::<Takes, R>(rt, &mut root) else {
            unreachable!()
        };
        machine
    }
}

/// Takes the machine out. Under the lock it is there.
fn take<M: Machine, L: StepLog<M>, R: Wait>(
    rt: &R,
    cell: &Cell<M, L>,
    pass: &mut Token<M, L>,
) -> LoggedMachine<M, L>
    requires pass { IsPassOf cell.now pass.old }
    requires free { (0 < (known pass.old).parts) × ((known pass.old).held ≡ None) }
    ensures { IsSamePass pass.old pass.new
        × Taken M.asks M.steps M.loses (known pass.old) result (known pass.new) }
{
    for _ in rt.forever() {
        if let Some(machine) = cell.pop_as::<Takes, R>(rt, pass) {
            return machine;
        }
        thread::yield_now();
    }
    unreachable!()
}

fn put_stepped<M: Machine, L: StepLog<M>, R: Wait>(
    rt: &R,
    cell: &Cell<M, L>,
    pass: &mut Token<M, L>,
    machine: LoggedMachine<M, L>,
)
    requires pass { IsPassOf cell.now pass.old × (ruled_capacity cell.now ≡ 1) }
    requires machine { IsSteppedBy M.steps (known pass.old) machine }
    ensures { IsSamePass pass.old pass.new × Stepped (known pass.old) machine (known pass.new) }
{
    let Ok(()) = cell.push_as::<Steps, R>(rt, pass, machine) else {
        unreachable!()
    };
}

fn put_stopped<M: Machine, L: StepLog<M>, R: Wait>(
    rt: &R,
    cell: &Cell<M, L>,
    pass: &mut Token<M, L>,
    machine: LoggedMachine<M, L>,
)
    requires pass { IsPassOf cell.now pass.old × (ruled_capacity cell.now ≡ 1) }
    requires machine { IsStoppedBy M.asks M.steps M.loses (known pass.old) machine }
    ensures { IsSamePass pass.old pass.new × Stopped (known pass.old) machine (known pass.new) }
{
    let Ok(()) = cell.push_as::<Stops, R>(rt, pass, machine) else {
        unreachable!()
    };
}

fn put_back<M: Machine, L: StepLog<M>, R: Wait>(
    rt: &R,
    cell: &Cell<M, L>,
    pass: &mut Token<M, L>,
    machine: LoggedMachine<M, L>,
)
    requires pass { IsPassOf cell.now pass.old × (ruled_capacity cell.now ≡ 1) }
    requires machine { IsReturnedBy (known pass.old) machine }
    ensures { IsSamePass pass.old pass.new × Returned (known pass.old) machine (known pass.new) }
{
    let Ok(()) = cell.push_as::<Returns, R>(rt, pass, machine) else {
        unreachable!()
    };
}

/// Takes in the pass of a seat.
fn take_in<M: Machine, L: StepLog<M>>(
    cell: &Cell<M, L>,
    root: &mut Token<M, L>,
    last: SlotSeat<M, L>,
)
    requires root { IsPassOf cell.now root.old × (0 < (known root.old).parts) }
    requires last { last.slot ≡ cell.now.table.shared.table_id }
    ensures root { IsPassOf cell.now root.new × (known root.new ≡ with_seat (known root.old) last) }
    ensures rising { AreRising last.calls }
{
    let SlotSeat { pass } = last;
    cell.absorb::<Seats>(root, pass);
}
