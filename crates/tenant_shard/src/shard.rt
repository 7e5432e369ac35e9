//! The shard.

ghost use Rattle.std.specs.Prelude.{◌≡◌, ◌<◌, length, vec_capacity, IfOk, OnErr, IsOk, IfErr};
ghost use Rattle.tail_settings.specs.Settings.{settings_view};
ghost use Rattle.tenant_pipeline.specs.OwnStep.{own_step_of};
ghost use Rattle.tenant_shard.specs.View.{View, kept_of};
ghost use Rattle.tenant_shard.specs.Lives.{ShardStands};
ghost use Rattle.tenant_shard.specs.Members.{IsPlaceOf, all_views};
ghost use Rattle.tenant_shard.specs.Outcomes.{asked_by};
ghost use Rattle.tenant_shard.specs.Run.{ShardSteps};
ghost use Rattle.tenant_shard.specs.Refusal.{Reaches, ShardRefuses, IsNobodys, MemberTakesNone, TakesNoneOf};
ghost use Rattle.tenant_shard.specs.Follows.{ShardFollows};
ghost use Rattle.tenant_shard.specs.Steps.{IsStepOf, IsLossOf};
ghost use Rattle.tenant_shard.specs.Table.{opened};
ghost use Rattle.tenant_shard.specs.Whole.{IsShard};

use crate::addressee::{Addressee, addressee_of};
use crate::comings::{add, let_go, open_member};
use crate::member::{ends, named, own_step, place_of};
use crate::step::{Outcome, Step};
use crate::waiting::Waiting;
use decision_cache::HashKeys;
use shard_agenda::Agenda;
use std::alloc::{AllocError, Global};
use std::marker::Model;
use tail_policy::TraceNote;
use tail_settings::Settings;
use tenant_pipeline::{OwnStep, Pipeline, Usage};
use tenant_stores::Stores;
use thiserror::Error;

/// What trace ids are hashed with where they are the caller's own choice.
const FIXED_KEYS: HashKeys = HashKeys {
    first: 0,
    second: 0,
};

/// The pipelines of several tenants, by number, over one pool of spans, one of texts, and one table of rows. Of each
/// member it keeps what its rules see, and of a tenant that has gone its number.
#[derive(Drop)]
pub struct Shard {
    alloc: Global,
    // What trace ids are hashed with.
    keys: HashKeys,
    stores: Stores<TraceNote>,
    // When each member is ready next.
    agenda: Agenda,
    members: Vec<Pipeline>,
    // The numbers of the tenants that have gone, in rising order. There is room for each member's.
    gone: Vec<u32>,
}

/// Memory was refused: for the outcomes' room before the first step, or at a step, after the
/// outcomes of those before it. The shard goes on with any steps, from what was left.
#[derive(Debug, Drop, Error)]
#[error("out of memory")]
pub struct Stopped {
    /// Those of the steps that were done, in their order.
    pub outcomes: Vec<Outcome>,
}

impl Model for Shard {
    ghost use Rattle.std.specs.Prelude.{List, vec_capacity};
    ghost use Rattle.tenant_shard.specs.View.{View};
    ghost use Rattle.tenant_shard.specs.Members.{all_views};
    ghost use Rattle.tenant_shard.specs.Whole.{IsShard};

    ghost Value = { List View };

    ghost view = { λ s. all_views s.stores s.members.items s.gone.items };

    ghost invariant = { λ s. IsShard s.stores s.agenda s.members.items s.gone.items (vec_capacity s.gone) };
}

impl Shard {
    ghost use Rattle.tenant_shard.specs.Alone.{EachAlone};
    ghost use Rattle.tenant_shard.specs.Chain.{ShardRuns, RunsByOwnSteps, StandsAfter};
    ghost use Rattle.tenant_shard.specs.Empty.{is_empty};
    ghost use Rattle.tenant_shard.specs.Stop.{IsStopped};
    ghost use Rattle.tenant_shard.specs.Waiting.{IsWaiting, usage_in};
    ghost use Rattle.tenant_shard.specs.Whole.{AllCounted, AllWithin};

    /// Opens a shard of the tenants of the settings whose numbers stand in `members`, with no steps so far, which are
    /// the numbers that are used. Other numbers count for nothing, and one that stands there twice counts once. Trace
    /// ids are hashed with keys that anyone knows: strangers' ids are for `open_with_keys`.
    pub fn open(alloc: Global, settings: &Settings, members: &[u32]) -> Result<Self, AllocError>
        ensures stands { IfOk result (ShardStands
            (opened (settings_view settings.now) members.now)) }
        ensures counted { IfOk result AllCounted }
        ensures within { IfOk result AllWithin }
    {
        Shard::open_with_keys(alloc, settings, members, FIXED_KEYS)
    }

    /// The same, with the keys under which trace ids are hashed. Whoever doesn't know them can't
    /// choose ids that collide. No answer depends on them.
    pub fn open_with_keys(
        alloc: Global,
        settings: &Settings,
        members: &[u32],
        keys: HashKeys,
    ) -> Result<Self, AllocError>
        ensures stands { IfOk result (ShardStands
            (opened (settings_view settings.now) members.now)) }
        ensures counted { IfOk result AllCounted }
        ensures within { IfOk result AllWithin }
    {
        let stores = Stores::new(alloc);
        let mut agenda = Agenda::new(alloc);
        let mut opened = Vec::new(alloc);
        let mut gone = Vec::new(alloc);
        for tenant in members {
            open_member(
                alloc,
                settings,
                keys,
                &stores,
                &mut agenda,
                &mut opened,
                &mut gone,
                *tenant,
            )?;
        }
        Ok(Shard {
            alloc,
            keys,
            stores,
            agenda,
            members: opened,
            gone,
        })
    }

    /// Does one step. Where memory is refused, of the step's own tenant some first due timers may have run, and all
    /// else is as before; who comes is then no member. A step that reaches no member's pipeline and lets nobody in
    /// takes no memory and changes nothing: no timer runs, and no clock goes on.
    pub fn step(&mut self, step: &Step) -> Result<Outcome, AllocError>
        // The outcome is what the members' own steps say. Where no own steps leave what is kept of the step's tenant,
        // as after refused memory, it follows from that.
        ensures on_success { IfOk result
            (λ outcome. ShardSteps step.now self.old outcome self.new) }
        ensures from_state { IfOk result
            (λ outcome. ShardFollows step.now self.old outcome self.new) }

        // What is left where memory is refused. A step of nobody takes none, and changes nothing.
        ensures on_refusal { OnErr result (ShardRefuses step.now self.old self.new) }
        ensures on_no_member { IsNobodys step.now self.old → (IsOk result) × (self.new ≡ self.old) }

        // A member's answer that finds no timer due takes none, nor do some of its other steps.
        ensures takes_none { MemberTakesNone step.now self.old → IsOk result }

        // In every state each span that was taken is counted once, and each member is within its limits.
        ensures counted { AllCounted self.new }
        ensures within { AllWithin self.new }
    {
        if let Step::Add { tenant, section } = step {
            return add(
                self.alloc,
                self.keys,
                &self.stores,
                &mut self.agenda,
                &mut self.members,
                &mut self.gone,
                *tenant,
                section,
            );
        }
        let own = own_step(step);
        match addressee_of(&self.agenda, &self.members, step, &own) {
            Addressee::Member { place, tenant } => step_at(
                &mut self.stores,
                &mut self.agenda,
                &mut self.members,
                &mut self.gone,
                place,
                tenant,
                &own,
            ),
            Addressee::Nobody(told) => Ok(told),
        }
    }

    /// Does the steps one after the other: each member is told exactly what a pipeline of its own
    /// answers to the steps that were its own. An error carries the outcomes so far.
    pub fn run(&mut self, steps: &[Step]) -> Result<Vec<Outcome>, Stopped>
        // Each step goes on from what the one before it left, in one chain.
        ensures on_success { IfOk result
            (λ outcomes. ShardRuns steps.now self.old outcomes.items self.new) }

        // What follows from the chain for the own steps that the shard stands for.
        ensures each_alone { IfOk result (λ outcomes. EachAlone steps.now self.old outcomes.items) }
        ensures by_own_steps { IfOk result
            (λ outcomes. RunsByOwnSteps steps.now self.old outcomes.items) }
        ensures stands { IfOk result (λ outcomes. StandsAfter steps.now self.old outcomes.items
            self.new) }

        // What was done where memory is refused.
        ensures stopped { IfErr result (λ stopped.
            IsStopped steps.now self.old stopped.outcomes.items self.new) }

        // In every state each span that was taken is counted once, and each member is within its limits.
        ensures counted { AllCounted self.new }
        ensures within { AllWithin self.new }
    {
        let alloc = self.alloc;
        let Ok(mut outcomes) = Vec::with_capacity(alloc, steps.len()) else {
            return Err(Stopped {
                outcomes: Vec::new(alloc),
            });
        };
        for step in steps {
            let Ok(outcome) = self.step(step) else {
                return Err(Stopped { outcomes });
            };
            let Ok(()) = outcomes.push(outcome) else {
                unreachable!()
            };
        }
        Ok(outcomes)
    }

    /// Whether the tenant is a member that holds no spans: none waits for its trace's decision, for a batch or in the
    /// queue, and no batch is on its way.
    pub fn is_empty(&self, tenant: u32) -> bool
        ensures { result ≡ is_empty (kept_of tenant self.now) }
    {
        match place_of(&self.members, tenant) {
            Ok(i) => self.members[i].is_empty(),
            Err(_) => false,
        }
    }

    /// How full the tenant is, and how full it may be.
    fn usage(&self, tenant: u32) -> Usage
        ensures { result ≡ usage_in (kept_of tenant self.now) }
    {
        match place_of(&self.members, tenant) {
            Ok(i) => self.members[i].usage(),
            Err(_) => Usage::none(),
        }
    }

    /// What the tenant and the shard wait for, and how full the tenant is. It takes no memory, and doesn't go through
    /// the members.
    pub fn waiting(&self, tenant: u32) -> Waiting
        ensures { IsWaiting self.now tenant result }
    {
        Waiting {
            is_empty: self.is_empty(tenant),
            usage: self.usage(tenant),
            tenant_ready: self.agenda.ready(tenant),
            shard_ready: self.agenda.next(),
        }
    }
}

/// The member's pipeline does a step that reaches it, and the agenda follows. The member goes where its retirement is
/// told its counters.
fn step_at(
    stores: &mut Stores<TraceNote>,
    agenda: &mut Agenda,
    members: &mut Vec<Pipeline>,
    gone: &mut Vec<u32>,
    place: usize,
    tenant: u32,
    step: &OwnStep<'_>,
) -> Result<Outcome, AllocError>
    requires whole { IsShard stores.old agenda.old members.old.items gone.old.items
        (vec_capacity gone.old) }
    requires within { place < length members.old.items }
    requires place { IsPlaceOf tenant members.old.items place }
    requires taken { Reaches (asked_by step.now)
        (kept_of tenant (all_views stores.old members.old.items gone.old.items)) }
    ensures on_success { IfOk result (λ outcome. IsStepOf tenant (own_step_of step.now)
        (all_views stores.old members.old.items gone.old.items) outcome
        (all_views stores.new members.new.items gone.new.items)) }
    ensures on_refusal { OnErr result (IsLossOf tenant (own_step_of step.now)
        (all_views stores.old members.old.items gone.old.items)
        (all_views stores.new members.new.items gone.new.items)) }
    ensures takes_none { TakesNoneOf (asked_by step.now)
        (kept_of tenant (all_views stores.old members.old.items gone.old.items)) → IsOk result }
    ensures whole { IsShard stores.new agenda.new members.new.items gone.new.items
        (vec_capacity gone.new) }
{
    let own = &mut members[place];
    let result = own.step(stores, step);
    let ready = own.ready(stores);
    agenda.set(tenant, ready);
    let told = result?;
    if !ends(step, &told) {
        return Ok(named(tenant, told));
    }
    let_go(stores, agenda, members, gone, place, tenant);
    Ok(named(tenant, told))
}
