//! The service, from its start to its end.

ghost use Rattle.std.specs.Prelude.{◌≡◌, ◌<◌, ◌+◌, ℕ, [], Ok, length, All, IfOk, is_some, replicate, vec_len};
ghost use Rattle.std.specs.Thread.{IsSync};
ghost use Rattle.agreed_list.specs.Agreed.{half_of};
ghost use Rattle.job_lane.specs.Lane.{new_seat};
ghost use Rattle.machine_hub.specs.Hub.{AreCallersOf, AreShardRuns, new_caller};
ghost use Rattle.shared_hub.specs.Logs.{AreLogged, AreOneRun, AreOneHistory};
ghost use Rattle.shared_hub.specs.Shards.{AreOpened, kept};
ghost use Rattle.tail_settings.specs.Settings.{SettingsData, settings_view};
ghost use Rattle.shard_machine.specs.MachineState.{MachineDoes};
ghost use Rattle.tenant_registry.specs.Roster.{present_in};
ghost use Rattle.trace_service.specs.Audit.{IsFollowed, audit_text};
ghost use Rattle.service_control.specs.Control.{Directs};
ghost use Rattle.service_workers.specs.Jobs.{AreThreads, IsThread};
ghost use Rattle.trace_service.specs.Whole.{IsCourseIfOk, IsServed};

use crate::audit::write_audit;
use crate::beside::work_beside;
use crate::shared::{Workplace, listener_of, share};
use crate::start::{Console, ServiceStart};
use crate::workers::work_all;
use agreed_list::{AgreedList, Half};
use job_lane::{Lane, LaneKeeper, LaneSeat};
use service_context::{Naming, Shared, WorkerContext};
use service_control::{Control, ServiceFault};
use service_front::{ServiceLimits, ServiceOptions};
use service_runtime::{Documents, Observer, Stage};
use service_workers::{Worker, assign_threads, collect_callers};
use shared_hub::{Caller, HubKeeper, ShardLog, SharedHub};
use std::alloc::{AllocError, Global};
use std::io::{BufRead, Write};
use std::marker::Brand;
use std::net::{Net, TcpListener, TcpStream};
use std::sync::Wait;
use std::thread::Threads;
use std::time::Clock;
use tail_settings::Settings;
use tenant_registry::{Change, ChangeList, InForce, Noted, Registrar, Roster};

/// Serves under these settings until the input ends and all tenants have sent what they held: as many receivers and
/// senders as the options say, or else the settings, a turner for each shard, and one lane. With an admin port
/// eight more threads answer there. A line `report NAME` of the input prints that tenant's counters, `add PATH`
/// lets a tenant come whose document is in a file, and `retire NAME` lets one go once it has sent what it held. All
/// reports are printed at the end; with an audit also how many entries each shard's log has. What can't be written to
/// the output is lost, and the service goes on: it says at its end how many answers were. After a fault of the input it
/// ends as it does at the input's end, and then says so. The observer is told of its course, and of lines that ask for
/// nothing.
pub fn run_service<R, D, I, O, L>(
    start: &ServiceStart<'_, R, D>,
    settings: Settings,
    console: &mut Console<I, O, L>,
) -> Result<u64, ServiceFault>
where
    R: Net<Listener = TcpListener, Stream = TcpStream> + Threads + Wait + Clock + Eprint + Sync,
    D: Documents,
    I: BufRead,
    O: Write,
    L: Observer,
    ensures { IfOk result (IsServed (is_some start.now.admin) D.reads (settings_view settings)
        start.now.options.audit (I.remaining console.old.input) (O.contents console.old.output)
        (O.contents console.new.output)) }
{
    let global = &settings.global;
    let limits = ServiceLimits::of(global, &start.options, start.admin.is_some());
    let workers = global.shards as usize
        + limits.senders as usize
        + limits.receivers as usize
        + limits.admins as usize;
    let ServiceOptions { audit, keys, .. } = start.options;
    let lane_size = global.lane_size as usize;
    // The hub comes last: no later step can fail and has to drop it.
    let changes = AgreedList::open(start.alloc)?;
    let (lane, lane_keeper, seats) = Lane::open(start.alloc, lane_size, workers)?;
    // The control thread has a caller too, and no seat.
    let (hub, keeper, callers) = SharedHub::open(
        start.rt,
        start.alloc,
        &settings,
        workers + 1,
        audit,
        keys,
    )?;
    let opened = Opened {
        hub,
        keeper,
        callers,
        lane,
        lane_keeper,
        seats,
        changes,
    };
    run_named::<Brand, R, D, I, O, L>(start, settings, limits, opened, console)
}

/// A hub and a lane, with what they are closed with, a caller for each thread, and a seat for each that works; and a
/// list of changes, with a half for who makes them and one for the settings in force.
#[derive(Drop)]
struct Opened {
    hub: SharedHub,
    keeper: HubKeeper,
    callers: Vec<Caller>,
    lane: Lane,
    lane_keeper: LaneKeeper,
    seats: Vec<LaneSeat>,
    changes: (AgreedList<Change>, Half<Change>, Half<Change>),
}

/// Runs the service that is opened, with a name for its hub, its lane and its settings, and closes what was opened.
fn run_named<J, R, D, I, O, L>(
    start: &ServiceStart<'_, R, D>,
    settings: Settings,
    limits: ServiceLimits,
    opened: Opened,
    console: &mut Console<I, O, L>,
) -> Result<u64, ServiceFault>
where
    J: Naming + Send + Sync,
    R: Net<Listener = TcpListener, Stream = TcpStream> + Threads + Wait + Clock + Eprint + Sync,
    D: Documents,
    I: BufRead,
    O: Write,
    L: Observer,
    requires first { settings_view settings ≡ J.first }
    requires hub { opened.hub ≡ J.slots }
    requires keeper { opened.keeper.slots ≡ opened.hub }
    requires callers { AreCallersOf J.slots opened.callers.items }
    requires lane { opened.lane.name ≡ J.lane }
    requires room { opened.lane.capacity ≡ settings.global.lane_size }
    requires lane_keeper { opened.lane_keeper ≡ opened.lane.name }
    requires changes { opened.changes.0 ≡ J.list }
    requires own { opened.changes.1 ≡ half_of J.list [] }
    requires other { opened.changes.2 ≡ half_of J.list [] }
    requires seats { All (λ s. s ≡ new_seat J.lane) opened.seats.items }
    requires all_seats { vec_len opened.seats ≡ opened.lane_keeper.seats }
    requires opened { AreOpened (settings_view settings) opened.keeper.homes }
    requires keeps { kept opened.keeper.homes
        ≡ replicate settings.global.shards start.now.options.audit }
    requires not_empty { 0 < vec_len opened.callers }
    requires all { vec_len opened.callers ≡ opened.keeper.callers }
    requires fresh { J.fresh ≡ new_caller J.slots opened.keeper.homes }
    requires new { All (λ c. c ≡ J.fresh) opened.callers.items }
    requires shards { length J.slots ≡ settings.global.shards }
    requires enough { vec_len opened.callers ≡ 1 + vec_len opened.seats }
    ensures { IfOk result (IsServed (is_some start.now.admin) D.reads (settings_view settings)
        start.now.options.audit (I.remaining console.old.input) (O.contents console.old.output)
        (O.contents console.new.output)) }
{
    let roster = Roster::of(start.alloc, &settings)?;
    let Opened {
        hub,
        keeper,
        callers,
        lane,
        lane_keeper,
        seats,
        changes,
    } = opened;
    let (list, own, other) = changes;
    let settings = InForce::<J>::new(settings, Noted::<J>::new(other));
    let list = ChangeList::<J>::new(list);
    let workplace = Workplace::<J>::new(start.alloc, settings, list, hub, lane, &limits)?;
    let noted = Noted::<J>::new(own);
    // All that is lent together is lent for as long as the workplace stands.
    let (callers, seats, ended) = at_work::<J, R, D, I, O, L>(
        &*start, &workplace, limits, roster, noted, callers, seats, console,
    )?;
    console.observer.observe(Stage::Ended);
    let Workplace { hub, lane, .. } = workplace;
    let _totals = lane.close(start.rt, lane_keeper, seats);
    let shards = end_hub(start.rt, hub, keeper, callers);
    close_output(
        start.alloc,
        &mut console.output,
        shards.as_slice(),
        start.options.audit,
        ended,
    )
}

/// Writes what stands last, where an audit is asked for: how many answers were lost with it, or how the input failed.
fn close_output<O: Write>(
    alloc: Global,
    output: &mut O,
    shards: &[ShardLog],
    audit: bool,
    ended: Result<u64, ServiceFault>,
) -> Result<u64, ServiceFault>
    ensures { IfOk result (λ lost. (before : ℕ) × (ended ≡ Ok before)
        × IsFollowed audit (audit_text shards.now) (O.contents output.old, before)
        (O.contents output.new, lost)) }
{
    let mut lost = ended.unwrap_or(0);
    write_audit(alloc, output, shards, audit, &mut lost)?;
    ended?;
    Ok(lost)
}

/// Ends the hub, whose callers are all back.
fn end_hub<R: Wait>(
    rt: &R,
    hub: SharedHub,
    keeper: HubKeeper,
    callers: Vec<Caller>,
) -> Vec<ShardLog>
    requires keeper { keeper.slots ≡ hub }
    requires callers { AreCallersOf hub callers.items }
    requires all { vec_len callers ≡ keeper.callers }
    ensures calls { AreShardRuns MachineDoes keeper.homes callers.items result.items }
    ensures logged { (table : SettingsData) → AreOpened table keeper.homes
        → AreLogged table result.items }
    ensures one_run { (table : SettingsData) → AreOpened table keeper.homes
        → AreOneRun table callers.items }
    ensures one_history { (table : SettingsData) → AreOpened table keeper.homes
        → AreOneHistory table callers.items result.items }
{
    let Ok(shards) = hub.close(rt, keeper, callers) else {
        unreachable!()
    };
    shards
}

/// All threads' work, to its end: the callers, the seats, and how many answers were lost, or how the input failed. All
/// that threads share is lent for one time.
fn at_work<'h, J, R, D, I, O, L>(
    start: &'h ServiceStart<'h, R, D>,
    workplace: &'h Workplace<J>,
    limits: ServiceLimits,
    roster: Roster,
    noted: Noted<J>,
    mut callers: Vec<Caller>,
    seats: Vec<LaneSeat>,
    console: &mut Console<I, O, L>,
) -> Result<(Vec<Caller>, Vec<LaneSeat>, Result<u64, ServiceFault>), ServiceFault>
where
    J: Naming + Send + Sync,
    R: Net<Listener = TcpListener, Stream = TcpStream> + Threads + Wait + Clock + Eprint + Sync,
    D: Documents,
    I: BufRead,
    O: Write,
    L: Observer,
    requires hub { workplace.now.hub ≡ J.slots }
    requires callers { AreCallersOf J.slots callers.items }
    requires lane { workplace.now.lane.name ≡ J.lane }
    requires seats { All (λ s. s ≡ new_seat J.lane) seats.items }
    requires not_empty { 0 < vec_len callers }
    requires enough { vec_len callers ≡ 1 + vec_len seats }
    requires new { All (λ c. c ≡ J.fresh) callers.items }
    requires no_change { noted ≡ [] }
    ensures same_hub { IfOk result (λ r. AreCallersOf J.slots r.0.items) }
    ensures all { IfOk result (λ r. vec_len r.0 ≡ vec_len callers) }
    ensures same_lane { IfOk result (λ r. All (λ s. s.lane ≡ J.lane) r.1.items) }
    ensures all_seats { IfOk result (λ r. vec_len r.1 ≡ vec_len seats) }
    ensures threads { IfOk result (λ r. AreThreads J.first (length J.slots) J.fresh r.0.items
        r.1.items) }
    ensures course { IfOk result (λ r. IsCourseIfOk (is_some start.now.admin) D.reads J.first
        (present_in roster) (length J.slots) (I.remaining console.old.input) J.fresh
        (O.contents console.old.output) r.0.items (O.contents console.new.output) r.2) }
{
    let threads = callers.len();
    let (all_callers, all_seats) = room_for(start.alloc, threads)?;
    let shared = share(start, workplace, limits, threads)?;
    let shards = shared.hub.shards();
    prove!(0 < shards);
    let Some(own) = callers.pop() else {
        unreachable!()
    };
    let mut workers = assign_threads::<J, R>(&shared, callers, seats)?;
    let mut control = Control {
        rt: shared.rt,
        alloc: shared.alloc,
        registrar: Registrar::new(shared.rt, shared.settings, &workplace.list, noted),
        roster,
        documents: start.documents,
        listener: shared.entrance.listener(),
        admin: listener_of(&shared.admin),
        context: WorkerContext::of_thread(&shared, own, 0),
        beat: shared.beat.of_chores(),
    };
    let ended = all_work(&shared, workers.as_mut_slice(), &mut control, console);
    let own = control.into_caller();
    let (callers, seats) = collect_callers(all_callers, all_seats, workers, own)?;
    Ok((callers, seats, ended))
}

/// Lists with room for so many callers and seats. Who has served to the end says so, whatever memory there is by then.
fn room_for(alloc: Global, threads: usize) -> Result<(Vec<Caller>, Vec<LaneSeat>), AllocError>
    ensures callers { IfOk result (λ r. r.0.items ≡ []) }
    ensures seats { IfOk result (λ r. r.1.items ≡ []) }
{
    let callers = Vec::with_capacity(alloc, threads)?;
    let seats = Vec::with_capacity(alloc, threads)?;
    Ok((callers, seats))
}

/// The workers' work, with that of who reads the input beside it: how many answers were lost, or how the input failed.
fn all_work<'h, J, R, D, I, O, L>(
    shared: &Shared<'h, J, R>,
    workers: &mut [Worker<'h, J, R>],
    control: &mut Control<'h, J, R, D>,
    console: &mut Console<I, O, L>,
) -> Result<u64, ServiceFault>
where
    J: Naming + Send + Sync,
    R: Net<Listener = TcpListener, Stream = TcpStream> + Threads + Wait + Clock + Eprint + Sync,
    D: Documents,
    I: BufRead,
    O: Write,
    L: Observer,
    requires lane { shared.now.lane.now.name ≡ J.lane }
    requires idle { All (λ w. (w.context.caller ≡ J.fresh) × (w.seat ≡ new_seat J.lane))
        workers.old }
    ensures did { All (λ w. IsThread J.first (length J.slots) J.fresh w.context.caller w.seat)
        workers.new }
    ensures directed { IfOk result (λ lost. Directs D.reads J.first
        (I.remaining console.old.input) control.old (O.contents console.old.output, 0) control.new
        (O.contents console.new.output, lost)) }
{
    work_beside(
        shared.rt,
        &mut ||
            requires { IsSync R.row × (shared.now.lane.now.name ≡ J.lane)
                × All (λ w. (w.context.caller ≡ J.fresh) × (w.seat ≡ new_seat J.lane)) workers.now }
            ensures { All (λ w. IsThread J.first (length J.slots) J.fresh w.context.caller w.seat)
                workers.exit.now }
        { work_all(shared, workers) },
        control,
        console,
        shared.threads,
    )
}
