//! What kept spans tell.

ghost use Rattle.std.specs.Prelude.{◌≡◌, Option, option_map, IfSome};
ghost use Rattle.otlp_trace.specs.Data.{ResourceData, SpanData};
ghost use Rattle.otlp_trace.specs.Text.{resource_text, span_text};
ghost use Rattle.span_view.specs.Facts.{AreText, facts};
ghost use Rattle.span_view.specs.Reading.{facts_of};
ghost use Rattle.span_pool.specs.Read.{IsReadSpan, IsReadResource};
ghost use Rattle.span_pool.specs.Stored.{bytes_of};

use span_view::canonical_text_is_viewed;

/// A span that was read can be kept as its canonical text with its resource's, which may be missing: a view over them
/// tells what the span and the resource are, and its condition is met.
pub fn read_spans_are_viewed()
    ensures facts { (s : SpanData) (r : Option ResourceData)
        → IsReadSpan s → IfSome r IsReadResource
        → facts_of (span_text s) (bytes_of (option_map resource_text r)) ≡ facts s r }
    ensures text { (s : SpanData) (r : Option ResourceData)
        → IsReadSpan s → IfSome r IsReadResource
        → AreText (facts_of (span_text s) (bytes_of (option_map resource_text r))).attributes }
{
    canonical_text_is_viewed();
}
