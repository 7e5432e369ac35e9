//! When each member of a shard is ready next, so that a turn's tenant is found at once.
//!
//! An agenda holds each member once, with the moment at which it is ready next. Room for a member is made when it is
//! admitted: after that, setting its moment and asking who is first take no memory, so a step that changed a tenant
//! can always say so here. Moments are milliseconds. Admitting and dismissing a member and setting its moment take as
//! many steps as the logarithm of how many members there are, and asking who is first takes one.
//!
//! It stands on no other crate. Whom a turn goes to is this project's own rule.
#![tactic(auto)]

ghost use Rattle.std.specs.Prelude.{◌≡◌, ◌||◌, ◌&&◌, ◌==◌, ℕ, not, OnOk, OnErr, true, None, []};
ghost use Rattle.shard_agenda.specs.Agenda.{ready_of, is_member, with_ready};
ghost use Rattle.shard_agenda.specs.Pick.{IsPick, IsNext};

mod firsts;

use crate::firsts::{mend, pop};
use std::alloc::{AllocError, Global};
use std::collections::BTreeMap;
use std::marker::Model;

/// A member, and when it is ready next.
#[derive(Clone, Copy, Debug)]
pub struct AgendaEntry {
    /// In milliseconds; none where nothing of the member's is waiting.
    pub ready: Option<u64>,
    /// The member's number.
    pub tenant: u32,
}

/// All members: the last takes the place of one that goes.
#[derive(Drop)]
pub struct Agenda {
    entries: Vec<AgendaEntry>,
    // At each place the first of its own entry and those below it. Straight below place k are 2k + 1 and 2k + 2, so the
    // first of all is at 0.
    firsts: Vec<AgendaEntry>,
    // The place of each tenant's entry.
    places: BTreeMap<u32, usize>,
}

impl Model for Agenda {
    ghost use Rattle.std.specs.Prelude.{List};
    ghost use Rattle.shard_agenda.specs.declared.AgendaEntry.{AgendaEntry};
    ghost use Rattle.shard_agenda.specs.Firsts.{AgendaInvariant};

    ghost Value = { List AgendaEntry };

    ghost view = { λ a. a.entries.items };

    ghost invariant = { λ a. AgendaInvariant a.entries.items a.firsts.items a.places };
}

impl Agenda {
    /// An agenda without members.
    pub fn new(alloc: Global) -> Self
        ensures { result ≡ [] }
    {
        Agenda {
            entries: Vec::new(alloc),
            firsts: Vec::new(alloc),
            places: BTreeMap::new(alloc),
        }
    }

    /// One more member, which is not ready, with room for its entry; nothing changes where it is a member already.
    pub fn admit(&mut self, tenant: u32) -> Result<(), AllocError>
        ensures members { OnOk result ((other : ℕ) →
            is_member self.new other ≡ (tenant == other || is_member self.old other)) }
        ensures ready { ready_of self.new ≡ ready_of self.old }
        ensures on_refusal { OnErr result (self.new ≡ self.old) }
    {
        if self.places.contains_key(&tenant) {
            return Ok(());
        }
        let at = self.entries.len();
        self.entries.reserve(1)?;
        self.firsts.reserve(1)?;
        self.places.insert(tenant, at)?;
        let entry = AgendaEntry {
            ready: None,
            tenant,
        };
        let Ok(()) = self.entries.push(entry) else {
            unreachable!()
        };
        let Ok(()) = self.firsts.push(entry) else {
            unreachable!()
        };
        mend(&self.entries, &mut self.firsts, at);
        Ok(())
    }

    /// From now on the member is ready at this moment, or not at all. It takes no memory.
    pub fn set(&mut self, tenant: u32, ready: Option<u64>)
        requires { is_member self.old tenant ≡ true }
        ensures ready { ready_of self.new ≡ with_ready tenant ready (ready_of self.old) }
        ensures members { is_member self.new ≡ is_member self.old }
    {
        let Some(at) = self.places.get(&tenant).copied() else {
            unreachable!()
        };
        self.entries[at] = AgendaEntry { ready, tenant };
        mend(&self.entries, &mut self.firsts, at);
    }

    /// The member goes; nothing changes where it is none. It takes no memory, and gives back that of its place.
    pub fn dismiss(&mut self, tenant: u32)
        ensures members { (other : ℕ) →
            is_member self.new other ≡ (not (tenant == other) && is_member self.old other) }
        ensures ready { ready_of self.new ≡ with_ready tenant None (ready_of self.old) }
    {
        let Some(at) = self.places.remove(&tenant) else {
            return;
        };
        let Some(last) = pop(&mut self.entries, &mut self.firsts) else {
            unreachable!()
        };
        let count = self.entries.len();
        if at == count {
            return;
        }
        let Ok(_) = self.places.insert(last.tenant, at) else {
            unreachable!()
        };
        self.entries[at] = last;
        mend(&self.entries, &mut self.firsts, at);
    }

    /// When the member is ready next; none where nothing of it waits, or where it is none.
    pub fn ready(&self, tenant: u32) -> Option<u64>
        ensures { result ≡ ready_of self.now tenant }
    {
        let at = *self.places.get(&tenant)?;
        self.entries[at].ready
    }

    /// When the first of all members is ready next; none where nothing of any member's waits.
    pub fn next(&self) -> Option<u64>
        ensures { IsNext (ready_of self.now) result }
    {
        let first = self.firsts.first()?;
        first.ready
    }

    /// The member that is ready first, the lower number first at one moment; none where no member is ready by now.
    pub fn first_due(&self, now: u64) -> Option<u32>
        ensures { IsPick (ready_of self.now) now result }
    {
        let Some(first) = self.firsts.first() else {
            return None;
        };
        let Some(moment) = first.ready else {
            return None;
        };
        if moment <= now {
            Some(first.tenant)
        } else {
            None
        }
    }
}
