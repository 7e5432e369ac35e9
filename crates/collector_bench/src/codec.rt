//! Rounds of reading and writing, by the clock.

ghost use Rattle.std.specs.Prelude.{◌≡◌, ◌<◌, OnOk, IfErr};
ghost use Rattle.otlp_trace.specs.Data.{RequestData};
ghost use Rattle.otlp_trace.specs.Text.{request_text};
ghost use Rattle.otlp_trace.specs.View.{request_view};
ghost use Rattle.otlp_read.specs.Value.{IsValue};
ghost use Rattle.collector_bench.specs.Faults.{IsOfRound};

use crate::fault::{BenchFault, of_body};
use crate::rate::per_second;
use crate::round::spans_len;
use otlp_read::read_request;
use otlp_trace::{ExportTraceServiceRequest, write_request};
use std::alloc::Global;
use std::rt::Clock;
use std::time::Instant;

/// Reads the body so many times, writes what was read so many times, does both so many times, and prints for each how
/// many bytes and spans a second it took.
pub(crate) fn measure_codec(
    rt: &(impl Clock + Print + AllocGlobal),
    body: &[u8],
    rounds: u32,
) -> Result<(), BenchFault>
    // Nothing is measured on a body without a value.
    ensures value { OnOk result ((v : RequestData) × IsValue body.now v) }
{
    let alloc = rt.alloc();
    let request = read_request(alloc, body).map_err(of_body)?;
    let mut text = Vec::new(alloc);
    write_request(alloc, &mut text, &request)?;
    let spans = spans_len(&request);
    measure_reads(rt, body, spans, rounds)?;
    measure_writes(rt, &request, &mut text, spans, rounds)?;
    measure_both(rt, body, &mut text, spans, rounds)
}

fn measure_reads(
    rt: &(impl Clock + Print + AllocGlobal),
    body: &[u8],
    spans: usize,
    rounds: u32,
) -> Result<(), BenchFault> {
    let start = Instant::now(rt)?;
    read_rounds(rt.alloc(), body, rounds)?;
    report(rt, "read", body.len(), spans, rounds, start)
}

fn measure_writes(
    rt: &(impl Clock + Print + AllocGlobal),
    request: &ExportTraceServiceRequest,
    text: &mut Vec<u8>,
    spans: usize,
    rounds: u32,
) -> Result<(), BenchFault> {
    let start = Instant::now(rt)?;
    write_rounds(rt.alloc(), request, text, rounds)?;
    report(rt, "written", text.len(), spans, rounds, start)
}

fn measure_both(
    rt: &(impl Clock + Print + AllocGlobal),
    body: &[u8],
    text: &mut Vec<u8>,
    spans: usize,
    rounds: u32,
) -> Result<(), BenchFault> {
    let start = Instant::now(rt)?;
    both_rounds(rt.alloc(), body, text, rounds)?;
    report(rt, "both", body.len(), spans, rounds, start)
}

fn read_rounds(alloc: Global, body: &[u8], rounds: u32) -> Result<(), BenchFault>
    ensures read { OnOk result (0 < rounds → (v : RequestData) × IsValue body.now v) }
    ensures of_round { IfErr result IsOfRound }
{
    'each: for _round in 0..rounds {
        let _request = read_request(alloc, body).map_err(of_body)?;
    }
    Ok(())
}

fn write_rounds(
    alloc: Global,
    request: &ExportTraceServiceRequest,
    text: &mut Vec<u8>,
    rounds: u32,
) -> Result<(), BenchFault>
    ensures written { OnOk result (0 < rounds
        → text.new.items ≡ request_text (request_view request.now)) }
    ensures of_round { IfErr result IsOfRound }
{
    'each: for _round in 0..rounds {
        text.clear();
        write_request(alloc, text, request)?;
    }
    Ok(())
}

fn both_rounds(
    alloc: Global,
    body: &[u8],
    text: &mut Vec<u8>,
    rounds: u32,
) -> Result<(), BenchFault>
    ensures both { OnOk result (0 < rounds → (v : RequestData) × IsValue body.now v
        × (text.new.items ≡ request_text v)) }
    ensures of_round { IfErr result IsOfRound }
{
    'each: for _round in 0..rounds {
        let request = read_request(alloc, body).map_err(of_body)?;
        text.clear();
        write_request(alloc, text, &request)?;
    }
    Ok(())
}

/// Prints how many bytes and spans a second this is, since that moment.
fn report(
    rt: &(impl Clock + Print),
    what: &str,
    bytes: usize,
    spans: usize,
    rounds: u32,
    start: Instant,
) -> Result<(), BenchFault> {
    let nanos = start.elapsed(rt)?.as_nanos();
    let bytes = per_second(bytes, rounds, nanos);
    let spans = per_second(spans, rounds, nanos);
    println!(rt; "{what}: {bytes} bytes/s, {spans} spans/s")?;
    Ok(())
}
