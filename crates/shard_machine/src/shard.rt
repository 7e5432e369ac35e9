//! The shard with its tenants' generators.

ghost use Rattle.std.specs.Prelude.{◌≡◌, ℕ, true, not, List, [], ◌∷◌, ◌++◌, IfOk, OnOk, OnErr, ◌&&◌, if◌then◌else◌};
ghost use Rattle.tail_settings.specs.Settings.{settings_view};
ghost use Rattle.tenant_shard.specs.Lives.{ShardStands};
ghost use Rattle.tenant_shard.specs.Table.{opened};
ghost use Rattle.shard_machine.specs.Jitter.{without, IsRemoved};
ghost use Rattle.shard_machine.specs.MachineState.{AreMembers, AreSeeded, AsksFor};
ghost use Rattle.shard_machine.specs.Drawing.{is_let_in, has_gone, IsReady, IsTried, IsSettled, IsNewcomers};

use crate::copy::copy_of;
use crate::jitter::JitterGenerators;
use crate::step::{Call, LoggedStep, WordSource};
use decision_cache::HashKeys;
use machine_hub::Machine;
use std::alloc::{AllocError, Global};
use std::marker::Model;
use tail_settings::Settings;
use tenant_shard::{Outcome, Shard, Step, Waiting};

/// A shard, and a generator of words for each of its tenants.
#[derive(Drop)]
pub struct ShardMachine {
    // On the heap, since the machine is moved at each call.
    shard: Box<Shard>,
    words: JitterGenerators,
}

impl Model for ShardMachine {
    ghost use Rattle.shard_machine.specs.MachineState.{MachineState, AreMembers};

    ghost Value = { MachineState };

    ghost view = { λ s. record { views = s.shard.value; words = s.words } };

    ghost invariant = { λ s. AreMembers s.words s.shard.value };
}

impl ShardMachine {
    /// A shard of the tenants of the settings whose numbers stand in `members`, with no steps so far, each with a
    /// generator at the start of its seed. No sender knows the keys, under which trace ids are hashed.
    pub fn open(
        alloc: Global,
        settings: &Settings,
        members: &[u32],
        keys: HashKeys,
    ) -> Result<ShardMachine, AllocError>
        ensures stands { IfOk result (λ s. ShardStands
            (opened (settings_view settings.now) members.now) s.views) }
        ensures words { IfOk result (λ s. AreSeeded (settings_view settings.now) members.now
            s.words) }
    {
        let shard = Shard::open_with_keys(alloc, settings, members, keys)?;
        let words = seeded(alloc, settings, members)?;
        let shard = Box::new(alloc, shard)?;
        Ok(ShardMachine { shard, words })
    }
}

impl Machine for ShardMachine {
    ghost use Rattle.std.specs.Prelude.{[]};
    ghost use Rattle.tenant_shard.specs.Waiting.{IsWaiting};
    ghost use Rattle.shard_machine.specs.MachineState.{AsksFor, MachineDoes};
    ghost use Rattle.shard_machine.specs.Drawing.{IsLost};

    type Call = Call;

    type Step = LoggedStep;

    type Outcome = Outcome;

    type Question = u32;

    type Reading = Waiting;

    ghost nowhere = { record { views = []; words = [] } };

    ghost asks = { AsksFor };

    ghost steps = { MachineDoes };

    ghost loses = { IsLost };

    ghost reads = { λ s tenant waiting. IsWaiting s.views tenant waiting };

    fn make(&mut self, _alloc: Global, call: Call) -> Result<(LoggedStep, Outcome), AllocError>
        ensures asked { IfOk result (λ made. AsksFor call made.0) }
        ensures made { IfOk result (λ made. MachineDoes self.old made.0 made.1 self.new) }
        ensures lost { OnErr result (IsLost call self.old self.new) }
    {
        let made = ready(&mut self.words, call);
        let newly = seed_newcomer(&mut self.words, &made.step)?;
        let told = self.shard.step(&made.step);
        remove_leaver(&mut self.words, &made.step, newly, &told);
        let outcome = told?;
        Ok((made, outcome))
    }

    fn tell(&self, tenant: &u32) -> Waiting {
        self.shard.waiting(*tenant)
    }

    fn copied(outcome: &Outcome) -> Result<Outcome, AllocError>
        ensures { IfOk result (λ copy. copy ≡ outcome.now) }
    {
        copy_of(outcome)
    }
}

/// The step that a call asks for, with the word that its tenant draws.
fn ready(words: &mut JitterGenerators, call: Call) -> LoggedStep
    ensures asked { AsksFor call result }
    ensures words { IsReady result.word result.step words.old words.new }
{
    match call {
        Call::Step(step) => LoggedStep {
            step,
            word: WordSource::Caller,
        },
        Call::Answer {
            tenant,
            now,
            ticket,
            answer,
        } => match words.draw(tenant) {
            Some(word) => LoggedStep {
                step: Step::Answer {
                    tenant,
                    now,
                    ticket,
                    word,
                    answer,
                },
                word: WordSource::Generator,
            },
            None => LoggedStep {
                step: Step::Answer {
                    tenant,
                    now,
                    ticket,
                    word: 0,
                    answer,
                },
                word: WordSource::Nobody,
            },
        },
    }
}

/// A tenant that comes gets a generator before, unless it has one, so that nobody is let in without one. Answers
/// whether one was made. Where memory is refused, no generator has changed.
fn seed_newcomer(words: &mut JitterGenerators, step: &Step) -> Result<bool, AllocError>
    ensures tried { IfOk result (λ newly. IsTried step.now words.old newly words.new) }
    ensures on_refusal { OnErr result (IsNewcomers step.now × (words.new ≡ words.old)) }
{
    match step {
        Step::Add { tenant, section } => words.seed(*tenant, section.seed),
        _ => Ok(false),
    }
}

/// The generator that was made goes again where its tenant isn't let in, and that of a tenant that has gone.
fn remove_leaver(
    words: &mut JitterGenerators,
    step: &Step,
    newly: bool,
    told: &Result<Outcome, AllocError>,
)
    ensures { IsSettled step.now newly told.now words.old words.new }
{
    match step {
        Step::Add { tenant, .. } => remove_if(words, *tenant, is_kept_out(newly, told)),
        Step::Retire { tenant, .. } => remove_if(words, *tenant, has_gone(told)),
        _ => {}
    }
}

/// Whether a tenant that got a generator isn't let in.
fn is_kept_out(newly: bool, told: &Result<Outcome, AllocError>) -> bool
    ensures { result ≡ (newly && not (is_let_in told.now)) }
{
    newly && !matches!(told, Ok(Outcome::Done(_)))
}

/// Whether a tenant that is to go has gone.
fn has_gone(told: &Result<Outcome, AllocError>) -> bool
    ensures { result ≡ has_gone told.now }
{
    matches!(told, Ok(Outcome::Report(_, _)))
}

/// Takes a tenant's generator away, or leaves all as they are.
fn remove_if(words: &mut JitterGenerators, tenant: u32, removes: bool)
    ensures removed { removes ≡ true → IsRemoved tenant words.old words.new }
    ensures without { words.new ≡ (if removes then without tenant words.old else words.old) }
{
    if removes {
        words.remove(tenant);
    }
}

/// A generator for each tenant of the settings whose number stands in `members`.
fn seeded(
    alloc: Global,
    settings: &Settings,
    members: &[u32],
) -> Result<JitterGenerators, AllocError>
    ensures { IfOk result (AreSeeded (settings_view settings.now) members.now) }
{
    let mut words = JitterGenerators::new(alloc);
    for tenant in members {
        seed_member(settings, &mut words, *tenant)?;
    }
    Ok(words)
}

/// A generator for a tenant of the settings.
fn seed_member(
    settings: &Settings,
    words: &mut JitterGenerators,
    tenant: u32,
) -> Result<(), AllocError>
    ensures { OnOk result ((earlier : List ℕ)
        → AreSeeded (settings_view settings.now) earlier words.old
        → AreSeeded (settings_view settings.now) (earlier ++ tenant ∷ []) words.new) }
{
    if let Some(section) = settings.section(tenant) {
        words.seed(tenant, section.seed)?;
    }
    Ok(())
}
