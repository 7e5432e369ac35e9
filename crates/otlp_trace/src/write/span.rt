//! Spans.

ghost use Rattle.std.specs.Prelude.{◌≡◌, ◌++◌, OnOk};
ghost use Rattle.otlp_trace.specs.Data.{StatusData, EventData, LinkData, SpanData};
ghost use Rattle.otlp_trace.specs.Text.{status_text, event_text, link_text, span_names_text, span_times_text, span_lists_text, span_end_text, span_text};
ghost use Rattle.otlp_trace.specs.View.{status_view, event_view, link_view, span_view};

use crate::span::{Event, Link, Span, Status};
use crate::write::embedded::{Message, put_each, put_embedded};
use crate::write::fields::{
    put_some_bytes, put_some_eight, put_some_four, put_some_number, put_some_signed,
};
use std::alloc::AllocError;

impl Message for Status {
    ghost Data = { StatusData };

    ghost view = { status_view };

    ghost text = { status_text };

    fn put(&self, out: &mut Vec<u8>) -> Result<(), AllocError> {
        put_some_bytes(out, 2, self.message.as_bytes())?;
        put_some_signed(out, 3, i64::from(self.code))?;
        out.extend_from_slice(self.unknown.as_slice())
    }
}

impl Message for Event {
    ghost Data = { EventData };

    ghost view = { event_view };

    ghost text = { event_text };

    fn put(&self, out: &mut Vec<u8>) -> Result<(), AllocError> {
        put_some_eight(out, 1, self.time_unix_nano)?;
        put_some_bytes(out, 2, self.name.as_bytes())?;
        put_each(out, 3, self.attributes.as_slice())?;
        put_some_number(out, 4, u64::from(self.dropped_attributes_count))?;
        out.extend_from_slice(self.unknown.as_slice())
    }
}

impl Message for Link {
    ghost Data = { LinkData };

    ghost view = { link_view };

    ghost text = { link_text };

    fn put(&self, out: &mut Vec<u8>) -> Result<(), AllocError> {
        put_some_bytes(out, 1, self.trace_id.as_slice())?;
        put_some_bytes(out, 2, self.span_id.as_slice())?;
        put_some_bytes(out, 3, self.trace_state.as_bytes())?;
        put_each(out, 4, self.attributes.as_slice())?;
        put_some_number(out, 5, u64::from(self.dropped_attributes_count))?;
        put_some_four(out, 6, self.flags)?;
        out.extend_from_slice(self.unknown.as_slice())
    }
}

/// A span's ids and names.
fn put_names(out: &mut Vec<u8>, span: &Span) -> Result<(), AllocError>
    ensures on_success { OnOk result (out.new.items ≡ out.old.items ++ span_names_text
        (span_view span.now)) }
{
    put_some_bytes(out, 1, span.trace_id.as_slice())?;
    put_some_bytes(out, 2, span.span_id.as_slice())?;
    put_some_bytes(out, 3, span.trace_state.as_bytes())?;
    put_some_bytes(out, 4, span.parent_span_id.as_slice())?;
    put_some_bytes(out, 5, span.name.as_bytes())
}

/// Its kind and times.
fn put_times(out: &mut Vec<u8>, span: &Span) -> Result<(), AllocError>
    ensures on_success { OnOk result (out.new.items ≡ out.old.items ++ span_times_text
        (span_view span.now)) }
{
    put_some_signed(out, 6, i64::from(span.kind))?;
    put_some_eight(out, 7, span.start_time_unix_nano)?;
    put_some_eight(out, 8, span.end_time_unix_nano)
}

/// Its attributes, events and links, with how many were left out.
fn put_lists(out: &mut Vec<u8>, span: &Span) -> Result<(), AllocError>
    ensures on_success { OnOk result (out.new.items ≡ out.old.items ++ span_lists_text
        (span_view span.now)) }
{
    put_each(out, 9, span.attributes.as_slice())?;
    put_some_number(out, 10, u64::from(span.dropped_attributes_count))?;
    put_each(out, 11, span.events.as_slice())?;
    put_some_number(out, 12, u64::from(span.dropped_events_count))?;
    put_each(out, 13, span.links.as_slice())?;
    put_some_number(out, 14, u64::from(span.dropped_links_count))
}

/// Its status, its flags and what isn't known.
fn put_end(out: &mut Vec<u8>, span: &Span) -> Result<(), AllocError>
    ensures on_success { OnOk result (out.new.items ≡ out.old.items ++ span_end_text
        (span_view span.now)) }
{
    put_embedded(out, 15, &span.status)?;
    put_some_four(out, 16, span.flags)?;
    out.extend_from_slice(span.unknown.as_slice())
}

impl Message for Span {
    ghost Data = { SpanData };

    ghost view = { span_view };

    ghost text = { span_text };

    fn put(&self, out: &mut Vec<u8>) -> Result<(), AllocError> {
        put_names(out, self)?;
        put_times(out, self)?;
        put_lists(out, self)?;
        put_end(out, self)
    }
}
