//! The command `trace_collector`: `replay SETTINGS`, `serve SETTINGS`, `check SETTINGS`, `--help` and `--version`.
//!
//! `replay` replays the script on standard input under the settings in a file. `check` says what is wrong with
//! settings. `serve` runs the service until standard input ends, or, with `--admin`, until `POST /drain` comes in at
//! the admin port. Arguments, files, messages and statuses are those of `collector_command`; the service is
//! `trace_service`.
#![tactic(auto)]

mod serve;
mod standard;

use collector_command::{
    End, HELP, ProgramFault, Reason, Task, VERSION, asked_task, check_file, ended, of_arguments,
    replay_file,
};
use serve::serve_file;
use service_runtime::Documents;
use standard::stand_in;
use std::env;
use std::fs::File;
use std::net::{Net, TcpListener, TcpStream};
use std::process::ExitCode;
use std::random::RandomSource;
use std::rt::{Env, Files};
use std::sync::Wait;
use std::thread::Threads;
use std::time::Clock;

fn main(rt: HostRuntime) -> ExitCode {
    // Else a file or a connection that is opened later would be taken for a standard stream.
    let _first = stand_in(&rt);
    let _second = stand_in(&rt);
    let _third = stand_in(&rt);
    let mut reason = Reason::new(rt.alloc());
    let end = run(&rt, &mut reason);
    ended(&rt, end, &reason)
}

fn run<R>(rt: &R, reason: &mut Reason) -> Result<End, ProgramFault>
where
    R: Env
        + Files<File = File>
        + Input
        + Print
        + Eprint
        + AllocGlobal
        + Clock
        + Threads
        + Wait
        + Sync,
    R: RandomSource + Net<Listener = TcpListener, Stream = TcpStream> + Documents,
{
    let args = match env::args(rt) {
        Ok(args) => args,
        Err(error) => return Err(of_arguments(error)),
    };
    let mut words = Vec::new(rt.alloc());
    for word in args.skip(1) {
        words.push(word)?;
    }
    match asked_task(words.as_slice()) {
        Some(Task::Replay { settings }) => replay_file(rt, settings, reason)?,
        Some(Task::Serve { settings, options }) => serve_file(rt, settings, &options, reason)?,
        Some(Task::Check { settings }) => return check_file(rt, settings, reason),
        Some(Task::Help) => rt.println(HELP)?,
        Some(Task::Version) => println!(rt; "trace_collector {VERSION}")?,
        None => return Err(ProgramFault::Usage),
    }
    Ok(End::Good)
}
