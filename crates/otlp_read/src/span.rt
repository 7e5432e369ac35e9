//! Spans, and the messages in them.
//!
//! A message is taken and given back by value. What takes one field is inlined, so that a span isn't copied for each.

ghost use Rattle.std.specs.Prelude.{◌≡◌, ◌≤◌, ◌<◌, ◌⊎◌, ℕ, List};
ghost use Rattle.pb_wire.specs.Grammar.{Varint, Eight, Bytes};
ghost use Rattle.otlp_trace.specs.Data.{StatusData, EventData, LinkData, SpanData};
ghost use Rattle.otlp_trace.specs.View.{status_view, event_view, link_view, span_view};
ghost use Rattle.otlp_read.specs.Fault.{Gives};
ghost use Rattle.otlp_read.specs.Walk.{numbered};
ghost use Rattle.otlp_trace.specs.Defaults.{no_status, no_event, no_link, no_span};
ghost use Rattle.otlp_read.specs.Value.{status_step, event_step, link_step, span_step};

use crate::fault::ReadFault;
use crate::leaf::{keep, low32, string};
use crate::message::{Message, merged_into, read_on};
use otlp_trace::{Event, Link, Octets, Repeated, Span, Status};
use pb_wire::{Field, Value};
use std::alloc::Global;

impl Message for Status {
    ghost Data = { StatusData };

    ghost view = { status_view };

    ghost empty = { no_status };

    ghost step = { status_step };

    fn empty(alloc: Global) -> Status {
        Status {
            message: String::new(alloc),
            code: 0,
            unknown: Octets::new(alloc),
        }
    }

    fn field(
        self,
        alloc: Global,
        field: Field<'_>,
        spelled: &[u8],
        _room: u32,
    ) -> Result<Status, ReadFault> {
        let mut status = self;
        match (field.number, field.value) {
            (2, Value::Bytes(bytes)) => status.message = string(alloc, bytes)?,
            (3, Value::Varint(n)) => status.code = low32(n).cast_signed(),
            _ => status.unknown = keep(status.unknown, spelled)?,
        }
        Ok(status)
    }
}

impl Message for Event {
    ghost Data = { EventData };

    ghost view = { event_view };

    ghost empty = { no_event };

    ghost step = { event_step };

    fn empty(alloc: Global) -> Event {
        Event {
            time_unix_nano: 0,
            name: String::new(alloc),
            attributes: Repeated::new(alloc),
            dropped_attributes_count: 0,
            unknown: Octets::new(alloc),
        }
    }

    fn field(
        self,
        alloc: Global,
        field: Field<'_>,
        spelled: &[u8],
        room: u32,
    ) -> Result<Event, ReadFault> {
        let mut event = self;
        match (field.number, field.value) {
            (1, Value::Eight(bytes)) => event.time_unix_nano = u64::from_le_bytes(bytes),
            (2, Value::Bytes(bytes)) => event.name = string(alloc, bytes)?,
            (3, Value::Bytes(bytes)) => {
                event.attributes = read_on(alloc, event.attributes, bytes, room)?;
            }
            (4, Value::Varint(n)) => event.dropped_attributes_count = low32(n),
            _ => event.unknown = keep(event.unknown, spelled)?,
        }
        Ok(event)
    }
}

impl Message for Link {
    ghost Data = { LinkData };

    ghost view = { link_view };

    ghost empty = { no_link };

    ghost step = { link_step };

    fn empty(alloc: Global) -> Link {
        Link {
            trace_id: Octets::new(alloc),
            span_id: Octets::new(alloc),
            trace_state: String::new(alloc),
            attributes: Repeated::new(alloc),
            dropped_attributes_count: 0,
            flags: 0,
            unknown: Octets::new(alloc),
        }
    }

    fn field(
        self,
        alloc: Global,
        field: Field<'_>,
        spelled: &[u8],
        room: u32,
    ) -> Result<Link, ReadFault> {
        let mut link = self;
        match (field.number, field.value) {
            (1, Value::Bytes(bytes)) => link.trace_id = Octets::from_slice(alloc, bytes)?,
            (2, Value::Bytes(bytes)) => link.span_id = Octets::from_slice(alloc, bytes)?,
            (3, Value::Bytes(bytes)) => link.trace_state = string(alloc, bytes)?,
            (4, Value::Bytes(bytes)) => {
                link.attributes = read_on(alloc, link.attributes, bytes, room)?;
            }
            (5, Value::Varint(n)) => link.dropped_attributes_count = low32(n),
            (6, Value::Four(bytes)) => link.flags = u32::from_le_bytes(bytes),
            _ => link.unknown = keep(link.unknown, spelled)?,
        }
        Ok(link)
    }
}

impl Message for Span {
    ghost Data = { SpanData };

    ghost view = { span_view };

    ghost empty = { no_span };

    ghost step = { span_step };

    fn empty(alloc: Global) -> Span {
        Span {
            trace_id: Octets::new(alloc),
            span_id: Octets::new(alloc),
            trace_state: String::new(alloc),
            parent_span_id: Octets::new(alloc),
            name: String::new(alloc),
            kind: 0,
            start_time_unix_nano: 0,
            end_time_unix_nano: 0,
            attributes: Repeated::new(alloc),
            dropped_attributes_count: 0,
            events: Repeated::new(alloc),
            dropped_events_count: 0,
            links: Repeated::new(alloc),
            dropped_links_count: 0,
            status: None,
            flags: 0,
            unknown: Octets::new(alloc),
        }
    }

    fn field(
        self,
        alloc: Global,
        field: Field<'_>,
        spelled: &[u8],
        room: u32,
    ) -> Result<Span, ReadFault> {
        let mut span = self;
        match field.value {
            Value::Varint(n) => span_number(span, field.number, n, spelled),
            Value::Eight(bytes) => span_time(span, field.number, bytes, spelled),
            Value::Bytes(bytes) => span_bytes(alloc, span, field.number, bytes, spelled, room),
            Value::Four(bytes) if field.number == 16 => {
                span.flags = u32::from_le_bytes(bytes);
                Ok(span)
            }
            Value::Four(_) | Value::Group(_) => {
                span.unknown = keep(span.unknown, spelled)?;
                Ok(span)
            }
        }
    }
}

/// The span after one more field that holds a varint.
#[inline(always)]
fn span_number(before: Span, number: u32, n: u64, spelled: &[u8]) -> Result<Span, ReadFault>
    ensures exact { (room : ℕ) →
        Gives span_view result (span_step room (span_view before) (numbered number (Varint n))
        spelled.now) }
{
    let mut span = before;
    match number {
        6 => span.kind = low32(n).cast_signed(),
        10 => span.dropped_attributes_count = low32(n),
        12 => span.dropped_events_count = low32(n),
        14 => span.dropped_links_count = low32(n),
        _ => span.unknown = keep(span.unknown, spelled)?,
    }
    Ok(span)
}

/// The span after one more field of eight bytes.
#[inline(always)]
fn span_time(before: Span, number: u32, bytes: [u8; 8], spelled: &[u8]) -> Result<Span, ReadFault>
    ensures exact { (room : ℕ) →
        Gives span_view result (span_step room (span_view before) (numbered number (Eight bytes))
        spelled.now) }
{
    let mut span = before;
    match number {
        7 => span.start_time_unix_nano = u64::from_le_bytes(bytes),
        8 => span.end_time_unix_nano = u64::from_le_bytes(bytes),
        _ => span.unknown = keep(span.unknown, spelled)?,
    }
    Ok(span)
}

/// The span after one more field that holds these bytes.
#[inline(always)]
fn span_bytes(
    alloc: Global,
    before: Span,
    number: u32,
    bytes: &[u8],
    spelled: &[u8],
    room: u32,
) -> Result<Span, ReadFault>
    requires room { room ≤ 100 }
    ensures { Gives span_view result
        (span_step room (span_view before) (numbered number (Bytes bytes.now)) spelled.now) }
{
    match number {
        1 | 2 | 4 => span_id(alloc, before, number, bytes),
        3 | 5 => span_string(alloc, before, number, bytes),
        _ => span_message(alloc, before, number, bytes, spelled, room),
    }
}

/// The span after one more id.
#[inline(always)]
fn span_id(alloc: Global, before: Span, number: u32, bytes: &[u8]) -> Result<Span, ReadFault>
    requires number { (number ≡ 1) ⊎ ((number ≡ 2) ⊎ (number ≡ 4)) }
    ensures exact { (room : ℕ) (spelled : List ℕ) →
        Gives span_view result (span_step room (span_view before)
        (numbered number (Bytes bytes.now)) spelled) }
{
    let mut span = before;
    let id = Octets::from_slice(alloc, bytes)?;
    match number {
        1 => span.trace_id = id,
        2 => span.span_id = id,
        _ => span.parent_span_id = id,
    }
    Ok(span)
}

/// The span after one more string.
#[inline(always)]
fn span_string(alloc: Global, before: Span, number: u32, bytes: &[u8]) -> Result<Span, ReadFault>
    requires number { (number ≡ 3) ⊎ (number ≡ 5) }
    ensures exact { (room : ℕ) (spelled : List ℕ) →
        Gives span_view result (span_step room (span_view before)
        (numbered number (Bytes bytes.now)) spelled) }
{
    let mut span = before;
    let found = string(alloc, bytes)?;
    match number {
        3 => span.trace_state = found,
        _ => span.name = found,
    }
    Ok(span)
}

/// The span after one more message, or one more field of bytes that isn't known.
#[inline(always)]
fn span_message(
    alloc: Global,
    before: Span,
    number: u32,
    bytes: &[u8],
    spelled: &[u8],
    room: u32,
) -> Result<Span, ReadFault>
    requires number { (number ≡ 0) ⊎ (5 < number) }
    requires room { room ≤ 100 }
    ensures { Gives span_view result
        (span_step room (span_view before) (numbered number (Bytes bytes.now)) spelled.now) }
{
    let mut span = before;
    match number {
        9 => span.attributes = read_on(alloc, span.attributes, bytes, room)?,
        11 => span.events = read_on(alloc, span.events, bytes, room)?,
        13 => span.links = read_on(alloc, span.links, bytes, room)?,
        15 => span.status = Some(merged_into(alloc, span.status, bytes, room)?),
        _ => span.unknown = keep(span.unknown, spelled)?,
    }
    Ok(span)
}
