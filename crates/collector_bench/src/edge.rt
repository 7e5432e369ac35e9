//! Rounds of serving, by the clock.

ghost use Rattle.std.specs.Prelude.{◌≡◌, IfOk};
ghost use Rattle.collector_bench.specs.Repeated.{repeated};

use crate::fault::BenchFault;
use crate::rate::per_second;
use crate::serving::Connection;
use httparse::Status;
use httparse::spans::{EMPTY_HEADER_SPAN, parse_request};
use std::alloc::{AllocError, Global};
use std::rt::Clock;
use std::thread::Threads;
use std::time::Instant;

/// A head has room for so many fields.
const MAX_FIELDS: usize = 64;

/// Serves the message once, which has to be a post.
pub(crate) fn check_post<R: Threads + Sync + Print + AllocGlobal>(
    rt: &R,
    message: &[u8],
) -> Result<(), BenchFault> {
    let input = repeated(rt.alloc(), message, 1)?;
    let mut connection = Connection::open(rt.alloc(), input)?;
    let served = connection.serve(rt)?;
    if served.posts != 1 {
        return Err(BenchFault::NotPosted);
    }
    let bytes = message.len();
    let written = served.written;
    println!(rt; "served one post: {bytes} bytes read, {written} bytes written")?;
    Ok(())
}

/// Serves so many copies of the message from one connection, and parses its head so many times, and prints for each how
/// many messages and bytes a second it took.
pub(crate) fn measure_edge<R: Threads + Sync + Clock + Print + AllocGlobal>(
    rt: &R,
    message: &[u8],
    rounds: u32,
) -> Result<(), BenchFault> {
    let input = repeated(rt.alloc(), message, rounds)?;
    let mut connection = Connection::open(rt.alloc(), input)?;
    let start = Instant::now(rt)?;
    let served = connection.serve(rt)?;
    report(rt, "served", message.len(), rounds, start)?;
    if served.posts != u64::from(rounds) {
        return Err(BenchFault::NotPosted);
    }
    let start = Instant::now(rt)?;
    let head = parsed(message, rounds)?;
    report(rt, "heads parsed", head, rounds, start)
}

/// So many copies of the message, one after another.
fn repeated(alloc: Global, message: &[u8], rounds: u32) -> Result<Vec<u8>, AllocError>
    ensures { IfOk result (λ text. text.items ≡ repeated message.now rounds) }
{
    let mut text = Vec::with_capacity(alloc, message.len().saturating_mul(rounds as usize))?;
    'each: for _round in 0..rounds {
        text.extend_from_slice(message)?;
    }
    Ok(text)
}

/// Parses the message's head so many times, and says how long it is.
fn parsed(message: &[u8], rounds: u32) -> Result<usize, BenchFault> {
    let mut len = 0;
    'each: for _round in 0..rounds {
        let mut spans = [EMPTY_HEADER_SPAN; MAX_FIELDS];
        match parse_request(message, &mut spans) {
            Ok(Status::Complete(found)) => len = found.len,
            Ok(Status::Partial) | Err(_) => return Err(BenchFault::NotPosted),
        }
    }
    Ok(len)
}

/// Prints how many messages and bytes a second this is, since that moment.
fn report(
    rt: &(impl Clock + Print),
    what: &str,
    bytes: usize,
    rounds: u32,
    start: Instant,
) -> Result<(), BenchFault> {
    let nanos = start.elapsed(rt)?.as_nanos();
    let messages = per_second(1, rounds, nanos);
    let bytes = per_second(bytes, rounds, nanos);
    println!(rt; "{what}: {messages} messages/s, {bytes} bytes/s")?;
    Ok(())
}
