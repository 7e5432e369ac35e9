//! The batches that were handed out and aren't settled, by their tickets.

ghost use Rattle.std.specs.Prelude.{◌≡◌, [], ◌∷◌, ◌++◌, length, OnOk, OnErr, None, Some, option_map};
ghost use Rattle.send_retry.specs.Delay.{state_view};
ghost use Rattle.send_queue.specs.Sender.{ActiveData, under, without, replaced};
ghost use Rattle.send_queue.specs.View.{active_view};
ghost use Rattle.send_queue.specs.Inside.{AllBefore};

use crate::active::Active;
use send_retry::RetryState;
use std::alloc::{AllocError, Global};
use std::collections::BTreeMap;
use std::marker::Model;

/// Batches that were handed out and aren't settled, by the ticket that each had last.
#[derive(Drop)]
pub(crate) struct Actives {
    entries: BTreeMap<u64, Active>,
}

impl Model for Actives {
    ghost use Rattle.std.specs.Prelude.{List};
    ghost use Rattle.send_queue.specs.Sender.{ActiveData};
    ghost use Rattle.send_queue.specs.View.{actives_view};

    ghost Value = { List ActiveData };

    ghost view = { λ a. actives_view a.entries.entries };
}

impl Actives {
    /// No batches, which take no memory.
    pub(crate) fn new(alloc: Global) -> Actives
        ensures { result ≡ [] }
    {
        Actives {
            entries: BTreeMap::new(alloc),
        }
    }

    /// How many there are.
    pub(crate) fn len(&self) -> usize
        ensures { result ≡ length self.now }
    {
        self.entries.len()
    }

    /// The batch under a ticket, where there is one.
    pub(crate) fn get(&self, ticket: u64) -> Option<&Active>
        ensures { option_map (λ a. active_view (ticket, a.now)) result ≡ under ticket self.now }
    {
        self.entries.get(&ticket)
    }

    /// One more batch, under a ticket that is later than all others.
    pub(crate) fn put(&mut self, ticket: u64, active: Active) -> Result<(), AllocError>
        requires later { AllBefore ticket self.old }
        ensures on_success { OnOk result
            (self.new ≡ self.old ++ active_view (ticket, active) ∷ []) }
        ensures on_refusal { OnErr result (self.new ≡ self.old) }
    {
        self.entries.insert(ticket, active)?;
        Ok(())
    }

    /// The batch under a ticket leaves, where there is one.
    pub(crate) fn remove(&mut self, ticket: u64) -> Option<Active>
        ensures batch { option_map (λ a. active_view (ticket, a)) result ≡ under ticket self.old }
        ensures rest { self.new ≡ without ticket self.old }
    {
        self.entries.remove(&ticket)
    }

    /// The batch under a ticket, where there is one, waits to be sent again from the moment `due` on, in milliseconds.
    /// It takes no memory.
    pub(crate) fn set_waiting(&mut self, ticket: u64, due: u64, retry: RetryState)
        ensures waiting { (a : ActiveData) → under ticket self.old ≡ Some a →
            self.new ≡ replaced ticket (record a { retry = state_view retry; due = Some due })
            self.old }
        ensures none { under ticket self.old ≡ None → self.new ≡ self.old }
    {
        let Some(active) = self.entries.get_mut(&ticket) else {
            return;
        };
        active.retry = retry;
        active.due = Some(due);
    }
}
