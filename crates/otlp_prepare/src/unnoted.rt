//! Spans of a body without their notes.

ghost use Rattle.std.specs.Prelude.{◌≡◌, [], length};
ghost use Rattle.otlp_read.specs.RoundTrip.{IsShort};
ghost use Rattle.span_view.specs.Facts.{AreText};
ghost use Rattle.span_view.specs.Reading.{facts_of};
ghost use Rattle.otlp_prepare.specs.BodySpans.{IsValidRead, part_with, with_note};

use prepared_body::NotedSpan;
use span_pool::read_spans_are_viewed;
use span_view::SpanRef;
use std::marker::Model;
use tail_policy::{ResourceBits, TraceNote, views_of_parts};
use text_slice::TextSlice;

/// A valid span by its canonical text, with what its resource tells the policies.
#[derive(Drop)]
pub struct UnnotedSpan {
    text: TextSlice,
    // Which of the body's origins is its.
    origin: usize,
    bits: ResourceBits,
}

impl Model for UnnotedSpan {
    ghost use Rattle.std.specs.Prelude.{◌≡◌, [], length};
    ghost use Rattle.span_view.specs.Facts.{AreText};
    ghost use Rattle.span_view.specs.Reading.{facts_of};
    ghost use Rattle.otlp_prepare.specs.BodySpans.{UnnotedSpanData};

    ghost Value = { UnnotedSpanData };

    ghost view = { λ p. record {
      trace = (facts_of p.text []).trace_id;
      text = p.text;
      origin = p.origin;
      bits = p.bits;
    } };

    ghost invariant = { λ p. AreText (facts_of p.text []).attributes × (length (facts_of p.text []).trace_id ≡ 16) };
}

/// The trace id in a span's text.
fn trace_in(text: &[u8]) -> [u8; 16]
    requires text { AreText (facts_of text.now []).attributes }
    requires size { length (facts_of text.now []).trace_id ≡ 16 }
    ensures { result ≡ (facts_of text.now []).trace_id }
{
    match SpanRef::of(text, &[]).trace_id().as_array::<16>() {
        Some(trace) => *trace,
        None => unreachable!(),
    }
}

impl UnnotedSpan {
    /// The span of this text and of the origin at this index, whose resource tells this.
    pub fn of(text: TextSlice, origin: usize, bits: ResourceBits) -> UnnotedSpan
        requires { IsValidRead text }
        ensures part { result ≡ part_with bits origin text }
        ensures short { IsShort text }
    {
        read_spans_are_viewed();
        let _size = text.len();
        UnnotedSpan { text, origin, bits }
    }

    /// What the span tells by itself.
    pub fn own_view(&self) -> SpanRef<'_>
        ensures { result ≡ facts_of self.now.text [] }
    {
        SpanRef::of(self.text.as_slice(), &[])
    }

    /// The span with its note, by the note that it has without its resource.
    pub fn with_note(self, own: TraceNote) -> NotedSpan
        ensures { result ≡ with_note self own }
    {
        let trace = trace_in(self.text.as_slice());
        NotedSpan {
            trace,
            text: self.text,
            origin: self.origin,
            note: own.with_resource(self.bits),
        }
    }
}
