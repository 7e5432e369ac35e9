//! Spans.

ghost use Rattle.std.specs.Prelude.{◌≡◌, IfSome};
ghost use Rattle.otlp_trace.specs.Data.{StatusData, EventData, LinkData, SpanData};
ghost use Rattle.otlp_trace.specs.Text.{status_text, event_text, link_text, span_names_text, span_times_text, span_lists_text, span_end_text, span_text};
ghost use Rattle.otlp_canonical.specs.Parts.{Whole, Front};
ghost use Rattle.otlp_canonical.specs.Sound.{SoundStatus, SoundEvent, SoundLink, SoundNames, SoundTimes, SoundLists, SoundEnd, SoundSpan};

use crate::field::{
    some_bytes, some_eight, some_flags, some_four, some_number, some_signed, some_string,
};
use crate::message::{Canonical, each, some_message};
use crate::unknown::unknown;
use otlp_trace::{Event, KeyValue, Link, Span, Status};

impl Canonical for Status {
    ghost Data = { StatusData };

    ghost write = { status_text };

    ghost sound = { SoundStatus };

    fn check(text: &[u8], room: u32) -> Option<()> {
        if room == 0 {
            return None;
        }
        let message = some_string(text, 2)?;
        let code = some_signed(message, 3)?;
        unknown::<Status>(code, room - 1)?;
        Some(())
    }
}

impl Canonical for Event {
    ghost Data = { EventData };

    ghost write = { event_text };

    ghost sound = { SoundEvent };

    fn check(text: &[u8], room: u32) -> Option<()> {
        if room == 0 {
            return None;
        }
        let time = some_eight(text, 1)?;
        let name = some_string(time, 2)?;
        let attributes = each::<KeyValue>(name, 3, room - 1)?;
        let count = some_number(attributes, 4)?;
        unknown::<Event>(count, room - 1)?;
        Some(())
    }
}

impl Canonical for Link {
    ghost Data = { LinkData };

    ghost write = { link_text };

    ghost sound = { SoundLink };

    fn check(text: &[u8], room: u32) -> Option<()> {
        if room == 0 {
            return None;
        }
        let trace_id = some_bytes(text, 1)?;
        let span_id = some_bytes(trace_id, 2)?;
        let state = some_string(span_id, 3)?;
        let attributes = each::<KeyValue>(state, 4, room - 1)?;
        let count = some_number(attributes, 5)?;
        let flags = some_four(count, 6)?;
        unknown::<Link>(flags, room - 1)?;
        Some(())
    }
}

/// What stands behind a span's ids and names.
fn names(text: &[u8]) -> Option<&[u8]>
    ensures { IfSome result (λ rest. Front span_names_text SoundNames text.now rest.now) }
{
    let trace_id = some_bytes(text, 1)?;
    let span_id = some_bytes(trace_id, 2)?;
    let state = some_string(span_id, 3)?;
    let parent = some_bytes(state, 4)?;
    let name = some_string(parent, 5)?;
    Some(name)
}

/// What stands behind a span's kind and times.
fn times(text: &[u8]) -> Option<&[u8]>
    ensures { IfSome result (λ rest. Front span_times_text SoundTimes text.now rest.now) }
{
    let kind = some_signed(text, 6)?;
    let start = some_eight(kind, 7)?;
    let end = some_eight(start, 8)?;
    Some(end)
}

/// What stands behind a span's attributes, events and links, each with how many were left out.
fn lists(text: &[u8], room: u32) -> Option<&[u8]>
    ensures { IfSome result (λ rest. Front span_lists_text (SoundLists room) text.now rest.now) }
{
    let attributes = each::<KeyValue>(text, 9, room)?;
    let attributes_left = some_number(attributes, 10)?;
    let events = each::<Event>(attributes_left, 11, room)?;
    let events_left = some_number(events, 12)?;
    let links = each::<Link>(events_left, 13, room)?;
    let links_left = some_number(links, 14)?;
    Some(links_left)
}

/// Goes over the end of a span: its status, its flags and what isn't known.
fn end(text: &[u8], room: u32) -> Option<()>
    ensures { IfSome result (λ u. Whole span_end_text (SoundEnd room) text.now) }
{
    let status = some_message::<Status>(text, 15, room)?;
    let flags = some_flags(status)?;
    unknown::<Span>(flags, room)?;
    Some(())
}

impl Canonical for Span {
    ghost Data = { SpanData };

    ghost write = { span_text };

    ghost sound = { SoundSpan };

    fn check(text: &[u8], room: u32) -> Option<()> {
        if room == 0 {
            return None;
        }
        let names = names(text)?;
        let times = times(names)?;
        let lists = lists(times, room - 1)?;
        end(lists, room - 1)?;
        Some(())
    }
}
