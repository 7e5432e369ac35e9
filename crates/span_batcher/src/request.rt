//! What a batch is as a request.

ghost use Rattle.std.specs.Prelude.{◌≡◌, List, map};
ghost use Rattle.std.specs.List.{AllByRecursion};
ghost use Rattle.otlp_trace.specs.Text.{request_text};
ghost use Rattle.otlp_read.specs.RoundTrip.{IsShort};
ghost use Rattle.otlp_read.specs.Value.{IsValue};
ghost use Rattle.span_batcher.specs.ExportText.{export_text};
ghost use Rattle.span_batcher.specs.Request.{PlacedSpan, written, spans_of, request_of, IsReadable};

use otlp_read::written_reads_back;

/// What a batch is sent as is the canonical text of a request, and the spans of that request are the batch's, in their
/// order, with their resources, scopes and schemas. Where a reader takes the spans, it reads the batch as that request.
pub fn batches_are_requests()
    ensures text { (spans : List PlacedSpan)
        → export_text (map written spans) ≡ request_text (request_of spans) }
    ensures values { (spans : List PlacedSpan)
        → map (λ p. p.span) (spans_of (request_of spans)) ≡ map (λ p. p.span) spans }
    ensures texts { (spans : List PlacedSpan)
        → map written (spans_of (request_of spans)) ≡ map written spans }

    // Values that are read again are told apart by their texts, so the resources and scopes are the very same.
    ensures whole { (spans : List PlacedSpan) → AllByRecursion IsReadable spans
        → spans_of (request_of spans) ≡ spans }
    ensures read { (spans : List PlacedSpan) → AllByRecursion IsReadable spans
        → IsShort (export_text (map written spans))
        → IsValue (export_text (map written spans)) (request_of spans) }
{
    written_reads_back();
}
