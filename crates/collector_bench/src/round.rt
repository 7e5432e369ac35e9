//! One round: a body is read, and what was read is written again.

ghost use Rattle.std.specs.Prelude.{◌≡◌, ◌≢◌, ℕ, IfOk, IfErr, MatchResult};
ghost use Rattle.otlp_trace.specs.Data.{RequestData};
ghost use Rattle.otlp_trace.specs.Text.{request_text};
ghost use Rattle.otlp_trace.specs.View.{resource_spans_view, request_view};
ghost use Rattle.otlp_read.specs.Value.{IsValue, IsFault};
ghost use Rattle.collector_bench.specs.Faults.{IsOfRound};
ghost use Rattle.collector_bench.specs.Round.{IsWrittenAgain, spans_of, spans_of_resource, in_64_bits};
ghost use Rattle.collector_bench.specs.declared.fault.BenchFault.TheVariants as fault;

use crate::fault::{BenchFault, of_body};
use otlp_read::{ReadFault, read_request};
use otlp_trace::{ExportTraceServiceRequest, ResourceSpans, write_request};
use std::alloc::Global;

/// How many spans a request has, or the greatest number of 64 bits where it has more.
pub(crate) fn spans_len(request: &ExportTraceServiceRequest) -> usize
    ensures { result ≡ in_64_bits (spans_of (request_view request.now)) }
{
    let mut len = 0usize;
    for resource in request.resource_spans.as_slice() {
        len = len.saturating_add(resource_spans_len(resource));
    }
    len
}

fn resource_spans_len(resource: &ResourceSpans) -> usize
    ensures { result ≡ in_64_bits (spans_of_resource (resource_spans_view resource.now)) }
{
    let mut len = 0usize;
    for scope in resource.scope_spans.as_slice() {
        len = len.saturating_add(scope.spans.as_slice().len());
    }
    len
}

/// Reads a body and writes it, which has to give that body again, and counts its spans.
pub(crate) fn checked_round(alloc: Global, body: &[u8]) -> Result<usize, BenchFault>
    // The body has a value with so many spans, whose canonical text it is.
    ensures value { IfOk result (λ len. (v : RequestData) × IsWrittenAgain body.now v
        × (len ≡ in_64_bits (spans_of v))) }

    // Such a body passes, unless memory runs out.
    ensures only { (v : RequestData) → IsWrittenAgain body.now v
        → MatchResult result (λ len. len ≡ in_64_bits (spans_of v)) (λ e. e ≡ fault.OutOfMemory) }

    // A fault stands in the body, or the canonical text of its value is another.
    ensures faulty { (f : ReadFault) → IfErr result (λ e.
        e ≡ fault.Body f → IsFault body.now f) }
    ensures differs { IfErr result (λ e. e ≡ fault.NotCanonical
        → (v : RequestData) × IsValue body.now v × (request_text v ≢ body.now)) }

    // It is one of these, or memory ran out.
    ensures of_round { IfErr result IsOfRound }
{
    let request = read_request(alloc, body).map_err(of_body)?;
    let mut text = Vec::new(alloc);
    write_request(alloc, &mut text, &request)?;
    if text.as_slice() != body {
        return Err(BenchFault::NotCanonical);
    }
    Ok(spans_len(&request))
}
