//! The word `serve`.

ghost use Rattle.std.specs.Prelude.{◌≡◌, option_map};
ghost use Rattle.std.specs.Duration.{as_nanos};
ghost use Rattle.collector_command.specs.Task.{options_view};
ghost use Rattle.trace_collector_program.specs.Serve.{IsAsked, nanos_of, of_service};

use collector_command::{
    AdminDoor, Course, ProgramFault, READ_SIZE, Reason, ServeOptions, Watched, admin_door,
    has_descriptors, listen_at, port_at, put_input, put_output, settings_of_file, thread_counts,
    whole,
};
use decision_cache::HashKeys;
use service_runtime::{AdminDesk, DeskDocuments, DeskInput, DeskOutput, Documents, Observer};
use std::alloc::Global;
use std::fs::File;
use std::io;
use std::io::{BufRead, BufReader, Write};
use std::net::{Net, TcpListener, TcpStream};
use std::random::RandomSource;
use std::rt::Files;
use std::sync::Wait;
use std::thread::Threads;
use std::time::{Clock, Duration};
use tail_settings::Settings;
use trace_collector::ReplayFault;
use trace_service::{Console, ServiceFault, ServiceOptions, ServiceStart, run_service};

/// The fault with which the program ends after a service's fault.
fn fault_of(fault: ServiceFault) -> ProgramFault
    ensures { result ≡ of_service fault }
{
    match fault {
        ServiceFault::OutOfMemory => ProgramFault::Replay(ReplayFault::OutOfMemory),
        // A thread starts with memory of its own.
        ServiceFault::NoThread => ProgramFault::Replay(ReplayFault::OutOfMemory),
        ServiceFault::Line => ProgramFault::Replay(ReplayFault::Line),
    }
}

/// Serves under the settings in a file, until standard input ends, or with an admin port until it is told there to
/// drain, and all is sent. Reports, and with an audit the lengths of the logs, are written to standard output, and
/// where it is verbose its course to standard error. Trace ids are hashed with keys that are drawn for this run.
pub fn serve_file<R>(
    rt: &R,
    path: &str,
    options: &ServeOptions<'_>,
    reason: &mut Reason,
) -> Result<(), ProgramFault>
where
    R: Files<File = File> + Input + Print + Eprint + AllocGlobal + Clock + Threads + Wait + Sync,
    R: RandomSource + Net<Listener = TcpListener, Stream = TcpStream> + Documents,
{
    if options.verbose || options.admin.is_some() {
        reason.tell();
    }
    let settings = settings_of_file(rt, path, options, reason)?;
    let global = &settings.global;
    has_descriptors(rt, thread_counts(global, options), reason)?;
    let listener = listen_at(rt, global.listen.as_str(), reason)?;
    let door = admin_door(rt, options, reason)?;
    let keys = HashKeys::draw(rt)?;
    let output = Watched::new(io::writer(rt));
    let course = Course {
        rt,
        listener: &listener,
        door: &door,
        is_verbose: options.verbose,
    };
    let launch = Launch {
        rt,
        settings,
        listener: &listener,
        options: service_options(options, keys),
    };
    give_back_at_once(rt.alloc());
    let served = match &door {
        Some(door) => serve_at_desk(launch, door, output, course, reason),
        None => serve_input(launch, output, course, reason),
    };
    match served {
        Ok(lost) => whole(lost),
        Err(fault) => Err(fault_of(fault)),
    }
}

/// So many bytes, 1 MiB, are taken and given back at once.
const GIVEN_BACK: usize = 1_048_576;

/// By a piece of memory that was given back the GNU C library tells which ones come and go: from then on it keeps those
/// up to this size in its heaps, and the end of a heap until twice as much is free there (mallopt(3),
/// `M_MMAP_THRESHOLD`). So batches aren't given new pages each time. Where it is told otherwise by its environment, or
/// there is no memory for it, nothing changes.
fn give_back_at_once(alloc: Global) {
    let _ = Vec::<u8>::with_capacity(alloc, GIVEN_BACK);
}

/// What the service is started with, whoever ends it.
#[derive(Drop)]
struct Launch<'x, R> {
    rt: &'x R,
    settings: Settings,
    /// Where clients come in.
    listener: &'x TcpListener,
    options: ServiceOptions,
}

/// Serves until standard input ends.
fn serve_input<R, W, L>(
    launch: Launch<'_, R>,
    output: Watched<W>,
    observer: L,
    reason: &mut Reason,
) -> Result<u64, ServiceFault>
where
    R: Input + Eprint + AllocGlobal + Clock + Threads + Wait + Sync + Documents,
    R: Net<Listener = TcpListener, Stream = TcpStream>,
    W: Write + Drop,
    L: Observer + Drop,
{
    let rt = launch.rt;
    let alloc = rt.alloc();
    let input = BufReader::with_capacity(alloc, READ_SIZE, Watched::new(rt.reader()))?;
    let mut console = Console {
        input,
        output,
        observer,
    };
    let start = ServiceStart {
        rt,
        alloc,
        listener: launch.listener,
        documents: rt,
        admin: None,
        options: launch.options,
    };
    let served = run_service(&start, launch.settings, &mut console);
    put_input(reason, console.input.get_ref());
    put_output(reason, &console.output);
    served
}

/// Serves until it is told at the admin port to end.
fn serve_at_desk<R, W, L>(
    launch: Launch<'_, R>,
    door: &AdminDoor,
    output: Watched<W>,
    observer: L,
    reason: &mut Reason,
) -> Result<u64, ServiceFault>
where
    R: Eprint + AllocGlobal + Clock + Threads + Wait + Sync,
    R: Net<Listener = TcpListener, Stream = TcpStream>,
    W: Write + Drop,
    L: Observer + Drop,
{
    let rt = launch.rt;
    let alloc = rt.alloc();
    let desk = AdminDesk::new(alloc);
    let documents = DeskDocuments { rt, desk: &desk };
    let lines = DeskInput { rt, desk: &desk };
    let input = BufReader::with_capacity(alloc, READ_SIZE, lines)?;
    let mut console = Console {
        input,
        output: DeskOutput {
            rt,
            desk: &desk,
            output,
        },
        observer,
    };
    let served = serve_lines(launch, door, &desk, &documents, &mut console);
    put_output(reason, &console.output.output);
    served
}

/// The same, with the lines that are asked for at this desk. What it holds together has one lifetime.
fn serve_lines<'x, R, D, I, O, L>(
    launch: Launch<'x, R>,
    door: &'x AdminDoor,
    desk: &'x AdminDesk,
    documents: &'x D,
    console: &mut Console<I, O, L>,
) -> Result<u64, ServiceFault>
where
    R: Eprint + AllocGlobal + Clock + Threads + Wait + Sync,
    R: Net<Listener = TcpListener, Stream = TcpStream>,
    D: Documents,
    I: BufRead,
    O: Write,
    L: Observer,
{
    let start = ServiceStart {
        rt: launch.rt,
        alloc: launch.rt.alloc(),
        listener: launch.listener,
        documents,
        admin: Some(port_at(door, desk)),
        options: launch.options,
    };
    run_service(&start, launch.settings, console)
}

/// How the service is run that these options ask for.
fn service_options(options: &ServeOptions<'_>, keys: HashKeys) -> ServiceOptions
    ensures { IsAsked (options_view options.now) keys result }
{
    ServiceOptions {
        audit: options.audit,
        verbose: options.verbose,
        keys,
        connections: options.connections,
        senders: options.senders,
        client_timeout: duration(options.client_timeout),
        request_timeout: duration(options.request_timeout),
        back_end_timeout: duration(options.back_end_timeout),
        body_memory: options.body_memory,
    }
}

/// So many milliseconds.
fn duration(millis: Option<u32>) -> Option<Duration>
    ensures { option_map as_nanos result ≡ nanos_of millis }
{
    match millis {
        Some(millis) => Some(Duration::from_millis(u64::from(millis))),
        None => None,
    }
}
