//! A machine with its log.

ghost use Rattle.std.specs.Prelude.{◌≡◌, ◌+◌, ◌^◌, ◌<◌, ◌++◌, ◌∷◌, [], length, true, false, Some, IfOk, OnOk, OnErr, option_map};
ghost use Rattle.std.specs.Arc.{arc_value};
ghost use Rattle.machine_hub.specs.Runs.{entry, IsLossOf, IsLogged, IsMade};

use crate::entry::{Entry, EntryOf};
use crate::log::StepLog;
use crate::machine::Machine;
use crate::remembered::Remembered;
use std::alloc::{AllocError, Global};
use std::marker::Model;
use std::sync::Arc;

/// An entry and its position in the log, from 0.
pub type Given<M> = Option<(u64, Arc<EntryOf<M>, Global>)>;

/// A machine with its log. Unless the log is stopped it has each step that was made, where it keeps steps at all. It is
/// stopped by the first want of memory, and from then on it takes no more entries.
#[derive(Drop)]
pub struct LoggedMachine<M: Machine, L: StepLog<M>> {
    number: u32,
    machine: M,
    log: L,
    // How many entries the log has.
    made: u64,
    stopped: bool,
    // What contracts know of the last step that was made, and of the last call that came.
    last: Remembered<Option<(M::Step, M::Outcome)>>,
    asked: Remembered<Option<M::Call>>,
}

impl<M: Machine, L: StepLog<M>> Model for LoggedMachine<M, L> {
    ghost use Rattle.machine_hub.specs.declared.view.Standing.{Standing};

    ghost Value = { Standing M M.Step M.Outcome M.Call };

    ghost use Rattle.std.specs.Prelude.{◌≡◌, [], length, option_map};
    ghost use Rattle.machine_hub.specs.Runs.{entry};

    ghost view = { λ s. record {
      number = s.number;
      machine = s.machine;
      entries = L.entries s.log;
      keeps = L.keeping s.log;
      stopped = s.stopped;
      last = option_map (λ l. entry l.0 l.1) s.last.value;
      later = [];
      asked = s.asked.value;
    } };

    ghost invariant = { λ s. s.made ≡ length (L.entries s.log) };
}

impl<M: Machine, L: StepLog<M>> LoggedMachine<M, L> {
    /// A machine with an empty log. `number` tells it from others.
    pub fn new(machine: M, log: L, number: u32) -> LoggedMachine<M, L>
        requires { L.entries log ≡ [] }
        ensures { (result.number ≡ number) × (result.machine ≡ machine) × (result.entries ≡ [])
            × (result.keeps ≡ L.keeping log) × (result.stopped ≡ false) }
    {
        LoggedMachine {
            number,
            machine,
            log,
            made: 0,
            stopped: false,
            last: Remembered::of(&None),
            asked: Remembered::of(&None),
        }
    }

    /// Makes one step and logs it. Answers the outcome, and the entry with its position; none where the log keeps
    /// nothing or is stopped. Where memory is refused the log is stopped from then on: the step isn't done, unless it
    /// was the entry that found no room.
    pub fn apply(
        &mut self,
        alloc: Global,
        call: M::Call,
    ) -> Result<(M::Outcome, Given<M>), AllocError>
        ensures made { IfOk result (λ r. IsMade M.asks M.steps call self.old self.new r.0
            (option_map (λ given. (given.0, arc_value given.1)) r.1)) }
        ensures on_refusal { OnErr result
            ((self.new.entries ≡ self.old.entries) × (self.new.stopped ≡ true)) }
        ensures lost { OnErr result (IsLossOf M.asks M.steps M.loses call self.old.machine
            self.new.machine) }
        ensures asked { self.new.asked ≡ Some call }
        ensures same { (self.new.number ≡ self.old.number) × (self.new.keeps ≡ self.old.keeps) }
    {
        let call = self.remember(call);
        self.make_room(alloc)?;
        match self.machine.make(alloc, call) {
            Ok(made) => self.log_made(alloc, made),
            Err(error) => {
                self.stopped = true;
                Err(error)
            }
        }
    }

    /// Remembers a call that comes.
    fn remember(&mut self, call: M::Call) -> M::Call
        ensures call { result ≡ call }
        ensures asked { self.new.asked ≡ Some call }
        ensures same { (self.new.machine ≡ self.old.machine)
            × (self.new.entries ≡ self.old.entries) × (self.new.stopped ≡ self.old.stopped)
            × (self.new.number ≡ self.old.number) × (self.new.keeps ≡ self.old.keeps) }
    {
        let asked = Some(call);
        self.asked = Remembered::of(&asked);
        let Some(call) = asked else { unreachable!() };
        call
    }

    /// Makes room for one entry more, unless the log is stopped. Where memory is refused it is stopped.
    fn make_room(&mut self, alloc: Global) -> Result<(), AllocError>
        ensures room { OnOk result ((self.new.stopped ≡ false)
            → length self.new.entries + 1 < 2 ^ 64) }
        ensures stays { OnOk result (self.new.stopped ≡ self.old.stopped) }
        ensures on_refusal { OnErr result (self.new.stopped ≡ true) }
        ensures same { (self.new.machine ≡ self.old.machine)
            × (self.new.entries ≡ self.old.entries) × (self.new.asked ≡ self.old.asked)
            × (self.new.number ≡ self.old.number) × (self.new.keeps ≡ self.old.keeps) }
    {
        if self.stopped {
            return Ok(());
        }
        let room = self.log.room(alloc, self.number);
        self.stopped = room.is_err();
        room
    }

    /// Remembers a step that was made, and logs it unless the log is stopped. Where memory is refused it is stopped.
    fn log_made(
        &mut self,
        alloc: Global,
        made: (M::Step, M::Outcome),
    ) -> Result<(M::Outcome, Given<M>), AllocError>
        requires room { (self.old.stopped ≡ false) → length self.old.entries + 1 < 2 ^ 64 }
        ensures outcome { IfOk result (λ r. r.0 ≡ made.1) }
        ensures last { IfOk result (λ r. self.new.last ≡ Some (entry made.0 made.1)) }
        ensures logged { IfOk result (λ r. IsLogged self.old self.new (entry made.0 made.1)
            (option_map (λ given. (given.0, arc_value given.1)) r.1)) }
        ensures on_refusal { OnErr result
            ((self.new.entries ≡ self.old.entries) × (self.new.stopped ≡ true)) }
        ensures same { (self.new.machine ≡ self.old.machine) × (self.new.asked ≡ self.old.asked)
            × (self.new.number ≡ self.old.number) × (self.new.keeps ≡ self.old.keeps) }
    {
        let made = Some(made);
        self.last = Remembered::of(&made);
        let Some((step, outcome)) = made else {
            unreachable!()
        };
        if self.stopped || !self.log.keeps() {
            return Ok((outcome, None));
        }
        match self.keep(alloc, step, &outcome) {
            Ok(given) => Ok((outcome, Some(given))),
            Err(error) => {
                self.stopped = true;
                Err(error)
            }
        }
    }

    /// Keeps the entry of a step that was made. Gives it with its position.
    fn keep(
        &mut self,
        alloc: Global,
        step: M::Step,
        outcome: &M::Outcome,
    ) -> Result<(u64, Arc<EntryOf<M>, Global>), AllocError>
        requires room { length self.old.entries + 1 < 2 ^ 64 }
        requires keeps { self.old.keeps ≡ true }
        ensures given { IfOk result (λ r. (r.0 ≡ length self.old.entries)
            × (arc_value r.1 ≡ entry step outcome.now)) }
        ensures kept { IfOk result (λ r.
            self.new.entries ≡ self.old.entries ++ entry step outcome.now ∷ []) }
        ensures on_refusal { OnErr result (self.new.entries ≡ self.old.entries) }
        ensures stays { (self.new.stopped ≡ self.old.stopped) × (self.new.last ≡ self.old.last) }
        ensures same { (self.new.machine ≡ self.old.machine) × (self.new.asked ≡ self.old.asked)
            × (self.new.number ≡ self.old.number) × (self.new.keeps ≡ self.old.keeps) }
    {
        let outcome = M::copied(outcome)?;
        let kept = self.log.keep(alloc, Entry { step, outcome })?;
        let position = self.made;
        self.made = position + 1;
        Ok((position, kept))
    }

    /// What the question is told. It makes no step.
    pub fn tell(&self, question: &M::Question) -> M::Reading
        ensures { M.reads self.now.machine question.now result }
    {
        self.machine.tell(question)
    }

    /// Which machine it is.
    pub fn number(&self) -> u32
        ensures { result ≡ self.now.number }
    {
        self.number
    }

    /// How many entries its log has.
    pub fn made(&self) -> u64
        ensures { result ≡ length self.now.entries }
    {
        self.made
    }

    /// Whether its log takes no more entries.
    pub fn stopped(&self) -> bool
        ensures { result ≡ self.now.stopped }
    {
        self.stopped
    }

    /// The machine and its log.
    pub fn into_parts(self) -> (M, L)
        ensures { (result.0 ≡ self.machine) × (L.entries result.1 ≡ self.entries) }
    {
        let LoggedMachine {
            number: _,
            machine,
            log,
            made: _,
            stopped: _,
            last: _,
            asked: _,
        } = self;
        (machine, log)
    }
}
