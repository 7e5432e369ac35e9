//! The hub.

ghost use Rattle.std.specs.Prelude.{◌≡◌, ◌≢◌, ◌<◌, ◌⊎◌, length, replicate, IfOk, IfErr, OnErr, vec_len};
ghost use Rattle.tail_settings.specs.Settings.{SettingsData, settings_view};
ghost use Rattle.tenant_shard.specs.Table.{shard_of};
ghost use Rattle.machine_hub.specs.Hub.{slots_of, new_caller, AreCallersOf, AreShardRuns, IsRefusedOn};
ghost use Rattle.shard_machine.specs.MachineState.{MachineDoes};
ghost use Rattle.shared_hub.specs.Shards.{AreOpened, kept};
ghost use Rattle.shared_hub.specs.Logs.{IsStepOn, IsAnswerOn, IsStepLostOn, IsAnswerLostOn, IsLookOn, IsEmptyOn, AreLogged, AreOneRun, AreOneHistory};
ghost use Rattle.shared_hub.specs.declared.fault.HubFault.TheVariants as faults;

use crate::copy::copy_of;
use crate::fault::{CallersMissing, HubFault};
use crate::log::OptionalLog;
use crate::shards::shards_of;
use crate::{Caller, HubKeeper, ShardLog};
use decision_cache::HashKeys;
use machine_hub::{Hub, Receipt, Told};
use send_retry::Answer;
use shard_machine::{Call, ShardMachine, runs_are_shard_runs, words_are_in_order};
use std::alloc::{AllocError, Global};
use std::marker::Model;
use std::sync::Wait;
use tail_settings::Settings;
use tenant_shard::{Outcome, Step, Waiting};

/// All shards of the settings, which threads share. Shards are numbered from 0, and tenant i is in shard i mod their
/// number.
#[derive(Drop)]
pub struct SharedHub {
    hub: Hub<ShardMachine, OptionalLog>,
}

impl Model for SharedHub {
    ghost use Rattle.std.specs.Prelude.{List};
    ghost use Rattle.atomic_table.specs.Seated.{TableId};

    ghost Value = { List TableId };

    ghost use Rattle.std.specs.Prelude.{◌<◌, length};

    ghost view = { λ s. s.hub };

    ghost invariant = { λ s. 0 < length s.hub };
}

impl SharedHub {
    /// A hub of all shards of the settings, none of which made a step, its keeper, and its callers, one for each
    /// thread. The logs keep each entry or nothing. No sender knows the keys, under which trace ids are hashed. Where
    /// memory is refused nothing is kept.
    pub fn open<R: Wait>(
        rt: &R,
        alloc: Global,
        settings: &Settings,
        callers: usize,
        keeps: bool,
        keys: HashKeys,
    ) -> Result<(SharedHub, HubKeeper, Vec<Caller>), AllocError>
        requires { 0 < callers }
        ensures shards { IfOk result (λ r. length r.0 ≡ settings.now.global.shards) }
        ensures keeper { IfOk result (λ r. (r.1.slots ≡ r.0) × (r.1.callers ≡ callers)) }
        ensures opened { IfOk result (λ r. AreOpened (settings_view settings.now) r.1.homes) }
        ensures keeps { IfOk result (λ r. kept r.1.homes ≡ replicate settings.now.global.shards
            keeps) }
        ensures callers { IfOk result (λ r. (vec_len r.2 ≡ callers) × AreCallersOf r.0 r.2.items) }
        ensures new { IfOk result (λ r. r.2.items ≡ replicate callers (new_caller r.0 r.1.homes)) }
    {
        let shards = shards_of(alloc, settings, keeps, keys)?;
        let (hub, keeper, list) = Hub::open(rt, alloc, shards, callers)?;
        Ok((SharedHub { hub }, keeper, list))
    }

    /// How many shards there are.
    pub fn shards(&self) -> usize
        ensures count { result ≡ length self.now }
        ensures not_empty { 0 < result }
    {
        self.hub.shards()
    }

    /// Makes one step of a shard. Answers its outcome, and a receipt of its entry: none where the log keeps nothing, or
    /// where the shard was refused memory before.
    pub fn step<R: Wait>(
        &self,
        rt: &R,
        alloc: Global,
        me: &mut Caller,
        shard: usize,
        step: Step,
    ) -> Result<(Outcome, Option<Receipt>), HubFault>
        requires shard { shard < length self.now }
        requires same_hub { slots_of me.old ≡ self.now }
        ensures same_hub { slots_of me.new ≡ self.now }
        ensures call { IfOk result (λ r. IsStepOn me.old me.new shard step r.0 r.1) }
        ensures on_refusal { OnErr result (IsRefusedOn me.old me.new shard) }
        ensures lost { OnErr result (IsStepLostOn me.old me.new shard step) }
        ensures fault { IfErr result (λ fault. fault ≡ faults.OutOfMemory) }
    {
        let made = self.hub.step(rt, alloc, me, shard, Call::Step(step))?;
        Ok(made)
    }

    /// Makes the step of a back end's answer to the tenant's job with this ticket, at the moment `now`, in
    /// milliseconds, with the next word of the tenant's generator. The answer is copied, and stays the caller's. A
    /// tenant that is no member is refused (22), and draws no word.
    pub fn answer<R: Wait>(
        &self,
        rt: &R,
        alloc: Global,
        me: &mut Caller,
        tenant: u32,
        now: u64,
        ticket: u64,
        answer: &Answer,
    ) -> Result<(Outcome, Option<Receipt>), HubFault>
        requires same_hub { slots_of me.old ≡ self.now }
        ensures same_hub { slots_of me.new ≡ self.now }
        ensures call { IfOk result (λ r.
            IsAnswerOn me.old me.new (shard_of (length self.now) tenant) tenant now ticket
            answer.now r.0 r.1) }
        ensures on_refusal { OnErr result ((me.new ≡ me.old)
            ⊎ IsRefusedOn me.old me.new (shard_of (length self.now) tenant)) }
        ensures lost { OnErr result ((me.new ≡ me.old)
            ⊎ IsAnswerLostOn me.old me.new (shard_of (length self.now) tenant) tenant now ticket
            answer.now) }
        ensures fault { IfErr result (λ fault. fault ≡ faults.OutOfMemory) }
    {
        let answer = copy_of(answer)?;
        let shard = self.shard_of(tenant);
        let call = Call::Answer {
            tenant,
            now,
            ticket,
            answer,
        };
        let made = self.hub.step(rt, alloc, me, shard, call)?;
        Ok(made)
    }

    /// Whether the tenant is a member that holds no spans: none waits for its trace's decision, for a batch or in the
    /// queue, and no batch is on its way. It makes no step.
    pub fn empty<R: Wait>(&self, rt: &R, me: &mut Caller, tenant: u32) -> bool
        requires same_hub { slots_of me.old ≡ self.now }
        ensures empty { IsEmptyOn me.old (shard_of (length self.now) tenant) tenant result }
        ensures same { me.new ≡ me.old }
    {
        let told = self.look(rt, me, tenant);
        told.answer.is_empty
    }

    /// The same, with how full the tenant is and may be, when it and its shard are ready next, and whether the shard
    /// was refused memory before: if not, it is so where a run of the shard ends. It takes no memory.
    pub fn look<R: Wait>(&self, rt: &R, me: &mut Caller, tenant: u32) -> Told<Waiting>
        requires same_hub { slots_of me.old ≡ self.now }
        ensures look { IsLookOn me.old (shard_of (length self.now) tenant) tenant result }
        ensures same { me.new ≡ me.old }
    {
        let shard = self.shard_of(tenant);
        self.hub.ask(rt, me, shard, &tenant)
    }

    /// Ends the hub, once all its callers are back, and gives the shards with their logs, in the order of the shards.
    /// It takes no memory. Where some callers are missing it hands all back, as it was.
    pub fn close<R: Wait>(
        self,
        rt: &R,
        keeper: HubKeeper,
        callers: Vec<Caller>,
    ) -> Result<Vec<ShardLog>, CallersMissing>
        requires keeper { keeper.slots ≡ self }
        requires callers { AreCallersOf self callers.items }
        ensures all { IfOk result (λ shards. vec_len callers ≡ keeper.callers) }
        ensures calls { IfOk result (λ shards.
            AreShardRuns MachineDoes keeper.homes callers.items shards.items) }
        ensures logs { IfOk result (λ shards. (table : SettingsData) →
            AreOpened table keeper.homes → AreLogged table shards.items) }
        ensures one_run { IfOk result (λ shards. (table : SettingsData) →
            AreOpened table keeper.homes → AreOneRun table callers.items) }
        ensures one_history { IfOk result (λ shards. (table : SettingsData) →
            AreOpened table keeper.homes → AreOneHistory table callers.items shards.items) }
        ensures missing { IfErr result (λ back. (vec_len callers ≢ keeper.callers)
            × (back.hub ≡ self)
            × (back.keeper ≡ keeper) × (back.callers ≡ callers)) }
    {
        runs_are_shard_runs();
        words_are_in_order();
        match self.hub.close(rt, keeper, callers) {
            Ok(shards) => Ok(shards),
            Err(missing) => Err(CallersMissing {
                hub: SharedHub { hub: missing.hub },
                keeper: missing.keeper,
                callers: missing.callers,
            }),
        }
    }

    /// In which shard the tenant is.
    pub fn shard_of(&self, tenant: u32) -> usize
        ensures shard { result ≡ shard_of (length self.now) tenant }
        ensures within { result < length self.now }
    {
        tenant as usize % self.hub.shards()
    }
}
