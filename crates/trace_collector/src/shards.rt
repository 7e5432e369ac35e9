//! The shards of all tenants, as a script's commands are done by them.

ghost use Rattle.std.specs.Prelude.{◌≡◌, ℕ, ◌%◌, List, Option, Some, None, Ok, Err, length, ◌++◌, IfOk, IfErr, IfSome, IsSome, OnOk, OnErr};
ghost use Rattle.tail_settings.specs.Fault.{fault_view};
ghost use Rattle.tail_settings.specs.Settings.{settings_view, section_at};
ghost use Rattle.trace_collector.specs.Answered.{arrived};

use crate::lines::{name_of, put_bad_request, put_outcome, put_refused_document};
use crate::steps::{step_and_put, step_at};
use bytes::Bytes;
use otlp_prepare::{Refusal, prepare};
use replay_script::{AnswerFault, put_added};
use std::alloc::{AllocError, Global};
use std::str;
use std::thread::Threads;
use tail_settings::{Settings, SettingsFault};
use tenant_shard::{Outcome, Shard, Step, members_of};

/// One shard for each number below the count that the settings have. Tenant i is in shard i mod that count. Tenants
/// join the settings and leave them.
#[derive(Drop)]
pub struct Shards {
    settings: Settings,
    shards: Vec<Shard>,
    ghost all_shards: { length shards.items ≡ settings.global.shards },
}

impl Shards {
    ghost use Rattle.replay_script.specs.Command as data_of;
    ghost use Rattle.tail_settings.specs.Settings.{number_of};
    ghost use Rattle.trace_collector.specs.Session.{begun};
    ghost use Rattle.trace_collector.specs.Standing.{AllPresent, StandFor, Answers, IsDone, Joins};

    /// With no steps so far, under settings that no tenant has left.
    pub fn open(alloc: Global, settings: Settings) -> Result<Shards, AllocError>
        requires { AllPresent (settings_view settings) }
        ensures stand { IfOk result (λ s. StandFor s (begun (settings_view settings))) }
    {
        let mut shards = Vec::new(alloc);
        for shard in 0..settings.global.shards {
            let members = members_of(alloc, &settings, shard)?;
            shards.push(Shard::open(alloc, &settings, members.as_slice())?)?;
        }
        Ok(Shards { settings, shards })
    }

    /// The number of the tenant of this name.
    pub fn number(&self, name: &str) -> Option<u32>
        ensures { result ≡ number_of (settings_view self.now.settings) name.now }
    {
        self.settings.number(name)
    }

    /// A body comes.
    pub fn post<T: Threads + Sync>(
        &mut self,
        rt: &T,
        alloc: Global,
        name: &str,
        moment: u64,
        body: Vec<u8>,
        out: &mut Vec<u8>,
    ) -> Result<(), AnswerFault>
        ensures on_success { OnOk result ((line : List ℕ) × (out.new.items ≡ out.old.items ++ line)
            × Answers self.old (data_of.Post name.now moment body.items) (Some line) self.new) }
        ensures unknown { result ≡ Err AnswerFault.Unknown
            → Answers self.old (data_of.Post name.now moment body.items) None self.new }
        ensures on_error { OnErr result (out.new.items ≡ out.old.items) }
    {
        let Some(tenant) = self.settings.number(name) else {
            return Err(AnswerFault::Unknown);
        };
        let Some(section) = self.settings.section(tenant) else {
            unreachable!()
        };
        let body = shared(body)?;
        match prepare(rt, alloc, tenant, section, body, self.settings.global.parts) {
            Ok(prepared) => {
                let step = Step::Post {
                    now: moment,
                    prepared,
                };
                self.step_of(alloc, tenant, &step, out)?;
                Ok(())
            }
            Err(Refusal::Bad(_)) => {
                put_bad_request(alloc, out, name)?;
                Ok(())
            }
            Err(Refusal::OutOfMemory) => Err(AnswerFault::OutOfMemory),
        }
    }

    /// A worker asks that shard for a job.
    pub fn turn(
        &mut self,
        alloc: Global,
        shard: u64,
        moment: u64,
        out: &mut Vec<u8>,
    ) -> Result<(), AnswerFault>
        ensures on_success { OnOk result ((line : List ℕ) × (out.new.items ≡ out.old.items ++ line)
            × Answers self.old (data_of.Turn shard moment) (Some line) self.new) }
        ensures unknown { result ≡ Err AnswerFault.Unknown
            → Answers self.old (data_of.Turn shard moment) None self.new }
        ensures on_error { OnErr result (out.new.items ≡ out.old.items) }
    {
        if shard >= u64::from(self.settings.global.shards) {
            return Err(AnswerFault::Unknown);
        }
        let step = Step::Turn { now: moment };
        step_and_put(
            alloc,
            &self.settings,
            &mut self.shards,
            shard as u32,
            &step,
            out,
        )?;
        Ok(())
    }

    /// A tenant's counters are asked for.
    pub fn report(
        &mut self,
        alloc: Global,
        name: &str,
        moment: u64,
        out: &mut Vec<u8>,
    ) -> Result<(), AnswerFault>
        ensures on_success { OnOk result ((line : List ℕ) × (out.new.items ≡ out.old.items ++ line)
            × Answers self.old (data_of.Report name.now moment) (Some line) self.new) }
        ensures unknown { result ≡ Err AnswerFault.Unknown
            → Answers self.old (data_of.Report name.now moment) None self.new }
        ensures on_error { OnErr result (out.new.items ≡ out.old.items) }
    {
        let Some(tenant) = self.settings.number(name) else {
            return Err(AnswerFault::Unknown);
        };
        let step = Step::Report {
            tenant,
            now: moment,
        };
        self.step_of(alloc, tenant, &step, out)?;
        Ok(())
    }

    /// A tenant takes no more spans, and sends all it holds.
    pub fn drain(
        &mut self,
        alloc: Global,
        name: &str,
        moment: u64,
        out: &mut Vec<u8>,
    ) -> Result<(), AnswerFault>
        ensures on_success { OnOk result ((line : List ℕ) × (out.new.items ≡ out.old.items ++ line)
            × Answers self.old (data_of.Drain name.now moment) (Some line) self.new) }
        ensures unknown { result ≡ Err AnswerFault.Unknown
            → Answers self.old (data_of.Drain name.now moment) None self.new }
        ensures on_error { OnErr result (out.new.items ≡ out.old.items) }
    {
        let Some(tenant) = self.settings.number(name) else {
            return Err(AnswerFault::Unknown);
        };
        let step = Step::Drain {
            tenant,
            now: moment,
        };
        self.step_of(alloc, tenant, &step, out)?;
        Ok(())
    }

    /// A tenant comes, which the bytes of a document describe.
    pub fn add(
        &mut self,
        alloc: Global,
        document: &[u8],
        out: &mut Vec<u8>,
    ) -> Result<(), AllocError>
        ensures on_success { OnOk result ((line : List ℕ) × (out.new.items ≡ out.old.items ++ line)
            × Answers self.old (data_of.Add document.now) (Some line) self.new) }
        ensures on_refusal { OnErr result (out.new.items ≡ out.old.items) }
    {
        match admit(alloc, &mut self.settings, document) {
            Ok(tenant) => self.welcome(alloc, tenant, out),
            Err(SettingsFault::OutOfMemory) => Err(AllocError),
            Err(fault) => put_refused_document(alloc, out, &fault),
        }
    }

    /// The tenant of this number, which the settings took in, joins its shard.
    fn welcome(&mut self, alloc: Global, tenant: u32, out: &mut Vec<u8>) -> Result<(), AllocError>
        requires { IsSome (section_at (settings_view self.old.settings) tenant) }
        ensures settings { self.new.settings ≡ self.old.settings }
        ensures on_success { OnOk result (Joins (settings_view self.old.settings) tenant
            self.old.shards.items self.new.shards.items out.old.items out.new.items) }
        ensures on_refusal { OnErr result (out.new.items ≡ out.old.items) }
    {
        let Some(section) = self.settings.section(tenant) else {
            unreachable!()
        };
        let section = section.copy()?;
        let shard = tenant % self.settings.global.shards;
        step_at(
            &mut self.shards,
            shard as usize,
            &Step::Add { tenant, section },
        )?;
        put_added(alloc, out, name_of(&self.settings, tenant), tenant)
    }

    /// A tenant that was drained and holds nothing leaves.
    pub fn retire(
        &mut self,
        alloc: Global,
        name: &str,
        moment: u64,
        out: &mut Vec<u8>,
    ) -> Result<(), AnswerFault>
        ensures on_success { OnOk result ((line : List ℕ) × (out.new.items ≡ out.old.items ++ line)
            × Answers self.old (data_of.Retire name.now moment) (Some line) self.new) }
        ensures unknown { result ≡ Err AnswerFault.Unknown
            → Answers self.old (data_of.Retire name.now moment) None self.new }
        ensures on_error { OnErr result (out.new.items ≡ out.old.items) }
    {
        let Some(tenant) = self.settings.number(name) else {
            return Err(AnswerFault::Unknown);
        };
        let step = Step::Retire {
            tenant,
            now: moment,
        };
        let shard = tenant % self.settings.global.shards;
        let outcome = step_at(&mut self.shards, shard as usize, &step)?;
        put_outcome(alloc, out, &self.settings, u64::from(shard), &outcome)?;
        if let Outcome::Report(..) = outcome {
            self.settings.strike(tenant);
        }
        Ok(())
    }

    /// A step of the tenant of this number, and its line.
    pub fn step_of(
        &mut self,
        alloc: Global,
        tenant: u32,
        step: &Step,
        out: &mut Vec<u8>,
    ) -> Result<(), AllocError>
        ensures on_success { OnOk result (IsDone (settings_view self.old.settings)
            (tenant % (settings_view self.old.settings).global.shards) step.now
            self.old.shards.items self.new.shards.items out.old.items out.new.items) }
        ensures settings { self.new.settings ≡ self.old.settings }
        ensures on_refusal { OnErr result (out.new.items ≡ out.old.items) }
    {
        let shard = tenant % self.settings.global.shards;
        step_and_put(alloc, &self.settings, &mut self.shards, shard, step, out)
    }
}

/// Takes in the tenant of a document, which has to be text first.
fn admit(alloc: Global, settings: &mut Settings, document: &[u8]) -> Result<u32, SettingsFault>
    ensures on_success { IfOk result (λ _. arrived (settings_view settings.old) document.now
        ≡ Ok (settings_view settings.new)) }
    ensures number { IfOk result (λ number. number ≡ settings.old.next) }
    ensures fault { IfErr result (λ e. IfSome (fault_view e)
        (λ f. arrived (settings_view settings.old) document.now ≡ Err f)) }
    ensures on_refusal { IfErr result (λ _. settings_view settings.new ≡ settings_view
        settings.old) }
{
    match str::from_utf8(document) {
        Ok(text) => settings.admit(alloc, text),
        Err(_) => Err(SettingsFault::NotToml),
    }
}

/// The bytes of a body, which aren't copied.
fn shared(body: Vec<u8>) -> Result<Bytes, AllocError>
    ensures { IfOk result (λ bytes. bytes ≡ body.items) }
{
    Ok(Bytes::from_vec(body)?)
}
