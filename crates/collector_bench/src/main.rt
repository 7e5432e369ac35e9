//! `collector_bench codec FILE ROUNDS`: reads the request body in that file and writes it so many times, and prints how
//! much is read, written, and read and written in a second. `collector_bench prepare FILE ROUNDS POLICIES`: makes the
//! body ready so many times for a tenant with so many policies, 1 to 64, as the collector does it, and prints how long
//! that took. `collector_bench edge FILE ROUNDS`: reads the message in that file so many times from one connection in
//! memory, says for each to which tenant it goes and writes its reply, and prints how many messages and bytes a second
//! that is; then the same of the parser of heads alone. With no arguments it reads `request.pb` once, and checks that
//! what it writes is that body; and it serves `post.http` once, and prints what was read and written. Statuses: 0 done;
//! 1 a faulty body, a message that is no post of the tenant `bench`, or a fault of the file or the output; 2 wrong
//! usage; 3 no memory. A fault is told in one line on standard error.
//!
//! One round of reading and writing is proved to pass exactly on a body that is the canonical text of its value;
//! nothing that is measured is proved. It stands on `otlp_read`, `otlp_trace`, `otlp_prepare`, `http_line`,
//! `http_edge`, `otlp_front` and `tail_settings`. Its rules are this project's own.
#![tactic(auto)]

mod codec;
mod edge;
mod examples;
mod fault;
mod preparing;
mod rate;
mod round;
mod serving;
mod task;

use codec::measure_codec;
use edge::{check_post, measure_edge};
use fault::{BenchFault, ended};
use preparing::measure_prepare;
use round::checked_round;
use std::process::ExitCode;
use std::rt::{Clock, Env, Files};
use std::thread::Threads;
use std::{env, fs};
use task::{Task, asked_task};

/// The stored body.
const STORED_BODY: &str = "request.pb";

/// The stored message.
const STORED_POST: &str = "post.http";

fn main(rt: HostRuntime) -> ExitCode {
    ended(&rt, run(&rt))
}

fn run<R: Threads + Sync + Env + Files + Clock + Print + AllocGlobal>(
    rt: &R,
) -> Result<(), BenchFault> {
    let mut args = Vec::new(rt.alloc());
    for arg in env::args(rt)?.skip(1) {
        args.push(arg)?;
    }
    let Some(task) = asked_task(args.as_slice()) else {
        return Err(BenchFault::Usage);
    };
    match task {
        Task::CheckStored => check_stored(rt),
        Task::Codec { path, rounds } => {
            let body = fs::read(rt, path)?;
            measure_codec(rt, body.as_slice(), rounds)
        }
        Task::Prepare {
            path,
            rounds,
            policies,
        } => {
            let body = fs::read(rt, path)?;
            measure_prepare(rt, body.as_slice(), rounds, policies)
        }
        Task::Edge { path, rounds } => {
            let message = fs::read(rt, path)?;
            measure_edge(rt, message.as_slice(), rounds)
        }
    }
}

/// Checks one round on the stored body, and serves the stored message once.
fn check_stored<R: Threads + Sync + Files + Print + AllocGlobal>(rt: &R) -> Result<(), BenchFault> {
    let body = fs::read(rt, STORED_BODY)?;
    let spans = checked_round(rt.alloc(), body.as_slice())?;
    let bytes = body.len();
    println!(rt; "checked one round: {bytes} bytes, {spans} spans")?;
    let message = fs::read(rt, STORED_POST)?;
    check_post(rt, message.as_slice())
}
