//! Spans, borrowed from their canonical text.

ghost use Rattle.std.specs.Prelude.{◌≡◌};
ghost use Rattle.span_view.specs.Facts.{AreText};
ghost use Rattle.span_view.specs.Fields.{first_start, first_end, first_status, attributes_told};
ghost use Rattle.span_view.specs.Reading.{facts_of};

use crate::attributes::Attributes;
use crate::fields::{bytes, eight, past_bytes, times};
use crate::status::{code_behind, code_of};
use crate::walk::SpanFields;
use std::marker::Model;

/// A span with its resource, which contracts see as its facts.
#[derive(Drop)]
pub struct SpanRef<'a> {
    span: &'a [u8],
    resource: &'a [u8],
}

impl<'a> Model for SpanRef<'a> {
    ghost use Rattle.span_view.specs.Facts.{SpanFacts, AreText};
    ghost use Rattle.span_view.specs.Reading.{facts_of};

    ghost Value = { SpanFacts };

    ghost view = { λ s. facts_of s.span.now s.resource.now };

    ghost invariant = { λ s. AreText (facts_of s.span.now s.resource.now).attributes };
}

impl<'a> SpanRef<'a> {
    /// A view of a span by its text, and by its resource's, which is empty where there is none. Both are canonical, or
    /// at least have keys and strings that are UTF-8 (`is_text`).
    #[inline(always)]
    pub fn of(span: &'a [u8], resource: &'a [u8]) -> SpanRef<'a>
        requires text { AreText (facts_of span.now resource.now).attributes }
        ensures { result ≡ facts_of span.now resource.now }
    {
        SpanRef { span, resource }
    }

    /// The bytes of the trace id, whatever their number.
    #[inline(always)]
    pub fn trace_id(&self) -> &'a [u8]
        ensures { result.now ≡ self.now.trace_id }
    {
        bytes(self.span, 1)
    }

    /// The bytes of the span id, whatever their number.
    #[inline(always)]
    pub fn span_id(&self) -> &'a [u8]
        ensures { result.now ≡ self.now.span_id }
    {
        bytes(past_bytes(self.span, 1), 2)
    }

    /// Nanoseconds since 1970.
    pub fn start(&self) -> u64
        ensures { result ≡ self.now.start_time_unix_nano }
    {
        eight(self.span, 7)
    }

    /// Nanoseconds since 1970.
    pub fn end(&self) -> u64
        ensures { result ≡ self.now.end_time_unix_nano }
    {
        eight(self.span, 8)
    }

    /// Start and end, in nanoseconds since 1970, in one walk where they stand as in canonical text.
    pub fn times(&self) -> (u64, u64)
        ensures start { result.0 ≡ self.now.start_time_unix_nano }
        ensures end { result.1 ≡ self.now.end_time_unix_nano }
    {
        let (start, end, _) = times(self.span);
        (start, end)
    }

    /// Start, end and the code of the status, in one walk where the times and the status stand as in canonical
    /// text.
    pub fn times_and_status(&self) -> (u64, u64, i32)
        ensures start { result.0 ≡ self.now.start_time_unix_nano }
        ensures end { result.1 ≡ self.now.end_time_unix_nano }
        ensures status { result.2 ≡ self.now.status }
    {
        let (start, end, rest) = times(self.span);
        (start, end, code_behind(rest))
    }

    /// The code of the span's status: 0 unset, also where there is no status, 1 ok, 2 error. Other numbers are carried.
    pub fn status(&self) -> i32
        ensures { result ≡ self.now.status }
    {
        code_of(bytes(self.span, 15))
    }

    /// The attributes of the span, and then those of its resource.
    pub fn attributes(&self) -> Attributes<'a>
        ensures { result ≡ self.now.attributes }
    {
        Attributes::of(self.span, self.resource)
    }

    /// What policies look at, field by field: the fields of the span and then those of its resource, each of which is
    /// come by once. Of several of one kind the first counts, but for attributes, and where there is none it is 0.
    #[inline(always)]
    pub fn fields(&self) -> SpanFields<'a>
        ensures start { first_start result ≡ self.now.start_time_unix_nano }
        ensures end { first_end result ≡ self.now.end_time_unix_nano }
        ensures status { first_status result ≡ self.now.status }
        ensures attributes { attributes_told result ≡ self.now.attributes }
    {
        SpanFields::of(self.span, self.resource)
    }
}
