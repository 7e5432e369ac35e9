//! What `serve` needs before it serves: settings, descriptors, and an address to listen at.

ghost use Rattle.std.specs.Prelude.{codes, ◌≡◌, ◌⊎◌, ℕ, List, true, IfSome, IfOk, IfErr, OnOk, OnErr, Ok, string_bytes};
ghost use Rattle.std.specs.IoError.{error_kind};
ghost use Rattle.settings_check.specs.Address.{address_fault};
ghost use Rattle.tail_settings.specs.Settings.{settings_of, settings_view};
ghost use Rattle.collector_command.specs.Fault.{IsOfBytes, IsOfFile, IsOfSettings, IsOutside};
ghost use Rattle.collector_command.specs.Reason.{IsAdded, TellsOf, reason_line};
ghost use Rattle.collector_command.specs.Served.{bounded_by, settings_served};
ghost use Rattle.collector_command.specs.Task.{options_view};
ghost use Rattle.collector_command.specs.declared.fault.ProgramFault.TheVariants as faults;
ghost use Rattle.trace_collector.specs.declared.engine.ReplayFault.TheVariants as replay_faults;

use crate::descriptors::{ThreadCounts, too_low};
use crate::fault::ProgramFault;
use crate::files::{read_file, settings_text};
use crate::reason::Reason;
use crate::task::ServeOptions;
use service_runtime::Documents;
use settings_check::address_fault;
use std::alloc::Global;
use std::net::{Net, TcpListener, TcpStream};
use std::rt::Files;
use std::{fs, io};
use tail_settings::{Settings, load};
use thiserror::Error;
use trace_collector::ReplayFault;

/// Where Linux tells how many files the process may have open.
const LIMITS: &str = "/proc/self/limits";

/// Fewer files may be open than a service needs.
#[derive(Debug, Drop, Error)]
#[error("at most {limit}, and {receivers} receivers and {senders} senders need {needed}: raise the limit \
     (`ulimit -n`), or lower receivers or senders")]
struct Shortage {
    limit: u64,
    receivers: u32,
    senders: u32,
    needed: u64,
}

/// The settings in a file, in which each tenant's queue holds at most so many bytes, where the options ask for that.
pub fn settings_of_file<R: Documents + AllocGlobal>(
    rt: &R,
    path: &str,
    options: &ServeOptions<'_>,
    reason: &mut Reason,
) -> Result<Settings, ProgramFault>
    ensures on_success { IfOk result (λ settings. (bytes : List ℕ)
        × R.reads path.now (Ok bytes)
        × (settings_served (options_view options.now).queue_bytes bytes ≡ Ok
        (settings_view settings))) }
    ensures fault { IfErr result (λ fault. IsOutside fault
        ⊎ ((bytes : List ℕ) × R.reads path.now (Ok bytes) × IsOfBytes bytes fault)) }
    ensures told { reason.new.is_told ≡ reason.old.is_told }
    ensures line { OnErr result (TellsOf path.now reason.old reason.new) }
    ensures same { OnOk result (reason.new ≡ reason.old) }
{
    let bytes = read_file(rt, path, reason)?;
    match settings_of_bytes(rt.alloc(), bytes, options.queue_bytes) {
        Ok(settings) => Ok(settings),
        Err(fault) => {
            if matches!(fault, ProgramFault::Replay(ReplayFault::Settings(_))) {
                reason.put(path, &"`trace_collector check` says it in words");
            }
            Err(fault)
        }
    }
}

/// The settings that a file's bytes mean, in which each tenant's queue holds at most so many bytes, where that is asked
/// for.
fn settings_of_bytes(
    alloc: Global,
    bytes: Vec<u8>,
    queue_bytes: Option<u64>,
) -> Result<Settings, ProgramFault>
    ensures on_success { IfOk result (λ settings. settings_served queue_bytes bytes.items
        ≡ Ok (settings_view settings)) }
    ensures fault { IfErr result (IsOfBytes bytes.items) }
{
    let text = settings_text(bytes)?;
    let settings = settings_in(alloc, text.as_str())?;
    Ok(bounded(settings, queue_bytes))
}

/// These settings, in which each tenant's queue holds at most so many bytes, where that is asked for.
fn bounded(settings: Settings, queue_bytes: Option<u64>) -> Settings
    ensures { settings_view result ≡ bounded_by queue_bytes (settings_view settings) }
{
    match queue_bytes {
        Some(bytes) => {
            let mut settings = settings;
            settings.bound_queues(bytes);
            settings
        }
        None => settings,
    }
}

/// Listens at an address.
pub fn listen_at<N: Net<Listener = TcpListener, Stream = TcpStream>>(
    rt: &N,
    address: &str,
    reason: &mut Reason,
) -> Result<TcpListener, ProgramFault>
    ensures fault { IfErr result IsOutside }
    ensures told { reason.new.is_told ≡ reason.old.is_told }
    ensures line { OnErr result (TellsOf address.now reason.old reason.new) }
    ensures same { OnOk result (reason.new ≡ reason.old) }
{
    match TcpListener::bind(rt, address) {
        Ok(listener) => Ok(listener),
        Err(error) => Err(unheard(address, error, reason)),
    }
}

/// The fault of an address at which nobody can listen, with what its text lacks, or else with what the system says.
fn unheard(address: &str, error: io::Error, reason: &mut Reason) -> ProgramFault
    ensures fault { IsOfFile (error_kind error) result }
    ensures told { reason.new.is_told ≡ reason.old.is_told }
    ensures line { TellsOf address.now reason.old reason.new }
    ensures lacking { IfSome (address_fault address.now) (λ why. IsAdded
        (string_bytes reason.old.lines) (reason_line address.now why)
        (string_bytes reason.new.lines)) }
{
    match address_fault(address.as_bytes()) {
        Some(why) => {
            reason.put(address, &why);
            ProgramFault::from(error)
        }
        None => reason.of(address, error),
    }
}

/// Fails where the process may not have as many files open as a service with these threads needs. Where the system
/// doesn't say how many it may have, it doesn't fail.
pub fn has_descriptors(
    rt: &(impl Files + AllocGlobal),
    threads: ThreadCounts,
    reason: &mut Reason,
) -> Result<(), ProgramFault>
    ensures fault { IfErr result (λ fault. fault ≡ faults.Replay replay_faults.Line) }
    ensures told { OnErr result (reason.new.is_told ≡ true) }
    ensures line { OnErr result (TellsOf (codes "open files") reason.old reason.new) }
    ensures same { OnOk result (reason.new ≡ reason.old) }
{
    let Ok(limits) = fs::read(rt, LIMITS) else {
        return Ok(());
    };
    match too_low(limits.as_slice(), threads) {
        Some(limit) => Err(short_of(limit, threads, reason)),
        None => Ok(()),
    }
}

/// The fault of a limit of open files that is too low. It is told also to who isn't told of other faults.
fn short_of(limit: u64, threads: ThreadCounts, reason: &mut Reason) -> ProgramFault
    ensures fault { result ≡ faults.Replay replay_faults.Line }
    ensures told { reason.new.is_told ≡ true }
    ensures line { TellsOf (codes "open files") reason.old reason.new }
{
    let shortage = Shortage {
        limit,
        receivers: threads.receivers,
        senders: threads.senders,
        needed: threads.needed(),
    };
    reason.put("open files", &shortage);
    reason.tell();
    ProgramFault::Replay(ReplayFault::Line)
}

/// The settings that a text means.
fn settings_in(alloc: Global, text: &str) -> Result<Settings, ProgramFault>
    ensures on_success { IfOk result (λ settings. settings_of text.now ≡ Ok
        (settings_view settings)) }
    ensures fault { IfErr result (IsOfSettings text.now) }
{
    match load(alloc, text) {
        Ok(settings) => Ok(settings),
        Err(fault) => Err(ProgramFault::Replay(ReplayFault::from(fault))),
    }
}
