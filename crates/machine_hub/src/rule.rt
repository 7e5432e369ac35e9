//! The rule of a slot, and what its steps tell.

use crate::log::StepLog;
use crate::logged::LoggedMachine;
use crate::machine::Machine;
use crate::view::SlotView;
use crossbeam_queue::protocol::{Join, Lesson, Outcome, Protocol, Split};

/// What a slot's pass knows.
pub type ViewOf<M> = SlotView<
    M,
    <M as Machine>::Step,
    <M as Machine>::Outcome,
    <M as Machine>::Call,
>;

/// One at a time has the machine.
pub struct OneAtATime;

impl<M: Machine, L: StepLog<M>> Protocol<LoggedMachine<M, L>, ViewOf<M>> for OneAtATime {
    ghost use Rattle.machine_hub.specs.Slot.{IsSlot, maker};

    ghost holds = { IsSlot M.asks M.steps M.loses };

    ghost first = { maker M.nowhere };
}

/// A part is cut off for a new seat, and comes back.
pub struct Seats;

impl<M: Machine> Split<ViewOf<M>> for Seats {
    ghost use Rattle.machine_hub.specs.Slot.{without_part, newcomer};

    ghost left = { without_part };

    ghost right = { newcomer };
}

impl<M: Machine> Join<ViewOf<M>> for Seats {
    ghost use Rattle.machine_hub.specs.Slot.{both_views, spent_view};

    ghost both = { both_views };

    ghost spent = { spent_view M.nowhere };
}

/// The machine comes in for the first time.
pub struct Opens;

impl<M: Machine, L: StepLog<M>> Outcome<LoggedMachine<M, L>, ViewOf<M>> for Opens {
    ghost use Rattle.machine_hub.specs.Slot.{Opened};

    ghost then = { Opened };
}

impl<M: Machine, L: StepLog<M>> Lesson<LoggedMachine<M, L>, ViewOf<M>> for Opens {
    ghost use Rattle.machine_hub.specs.Slot.{IsOut};

    ghost fact = { IsOut };
}

/// The machine goes out.
pub struct Takes;

impl<M: Machine, L: StepLog<M>> Outcome<LoggedMachine<M, L>, ViewOf<M>> for Takes {
    ghost use Rattle.machine_hub.specs.Slot.{Taken};

    ghost then = { Taken M.asks M.steps M.loses };
}

impl<M: Machine, L: StepLog<M>> Lesson<LoggedMachine<M, L>, ViewOf<M>> for Takes {
    ghost use Rattle.machine_hub.specs.Slot.{IsIn};

    ghost fact = { IsIn };
}

/// The machine comes back after a step.
pub struct Steps;

impl<M: Machine, L: StepLog<M>> Outcome<LoggedMachine<M, L>, ViewOf<M>> for Steps {
    ghost use Rattle.machine_hub.specs.Slot.{Stepped};

    ghost then = { Stepped };
}

impl<M: Machine, L: StepLog<M>> Lesson<LoggedMachine<M, L>, ViewOf<M>> for Steps {
    ghost use Rattle.machine_hub.specs.Slot.{IsOut};

    ghost fact = { IsOut };
}

/// The machine comes back after it was refused memory.
pub struct Stops;

impl<M: Machine, L: StepLog<M>> Outcome<LoggedMachine<M, L>, ViewOf<M>> for Stops {
    ghost use Rattle.machine_hub.specs.Slot.{Stopped};

    ghost then = { Stopped };
}

impl<M: Machine, L: StepLog<M>> Lesson<LoggedMachine<M, L>, ViewOf<M>> for Stops {
    ghost use Rattle.machine_hub.specs.Slot.{IsOut};

    ghost fact = { IsOut };
}

/// The machine comes back as it was.
pub struct Returns;

impl<M: Machine, L: StepLog<M>> Outcome<LoggedMachine<M, L>, ViewOf<M>> for Returns {
    ghost use Rattle.machine_hub.specs.Slot.{Returned};

    ghost then = { Returned };
}

impl<M: Machine, L: StepLog<M>> Lesson<LoggedMachine<M, L>, ViewOf<M>> for Returns {
    ghost use Rattle.machine_hub.specs.Slot.{IsOut};

    ghost fact = { IsOut };
}
