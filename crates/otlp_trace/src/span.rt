//! Spans.

use crate::octets::Octets;
use crate::repeated::Repeated;
use crate::value::KeyValue;

/// How a span ended.
#[derive(Debug, Drop)]
pub struct Status {
    /// What went wrong, in words for people.
    pub message: String,
    /// 0 unset, 1 ok, 2 error. Other numbers are carried.
    pub code: i32,
    /// Fields that this version doesn't know, as they were spelled.
    pub unknown: Octets,
}

/// Something that happened during a span.
#[derive(Debug, Drop)]
pub struct Event {
    /// Nanoseconds since 1970.
    pub time_unix_nano: u64,
    /// What happened.
    pub name: String,
    /// What is known of it, in the client's order.
    pub attributes: Repeated<KeyValue>,
    /// How many attributes were left out by the client.
    pub dropped_attributes_count: u32,
    /// Fields that this version doesn't know, as they were spelled.
    pub unknown: Octets,
}

/// A span that this one is linked to, in this trace or another.
#[derive(Debug, Drop)]
pub struct Link {
    /// The other span's trace: sixteen bytes.
    pub trace_id: Octets,
    /// The other span: eight bytes.
    pub span_id: Octets,
    /// The other span's `tracestate` (W3C Trace Context).
    pub trace_state: String,
    /// What is known of the link, in the client's order.
    pub attributes: Repeated<KeyValue>,
    /// How many attributes were left out by the client.
    pub dropped_attributes_count: u32,
    /// The W3C trace flags in the lowest eight bits.
    pub flags: u32,
    /// Fields that this version doesn't know, as they were spelled.
    pub unknown: Octets,
}

/// One operation of a trace.
#[derive(Debug, Drop)]
pub struct Span {
    /// Sixteen bytes, not all zero, where the span is valid.
    pub trace_id: Octets,
    /// Eight bytes, not all zero, where the span is valid.
    pub span_id: Octets,
    /// The `tracestate` that came with the call (W3C Trace Context), as it came.
    pub trace_state: String,
    /// The span that this one is a part of; none for the first of a trace.
    pub parent_span_id: Octets,
    /// What the operation is.
    pub name: String,
    /// 0 unspecified, 1 internal, 2 server, 3 client, 4 producer, 5 consumer. Other numbers are carried.
    pub kind: i32,
    /// Nanoseconds since 1970.
    pub start_time_unix_nano: u64,
    /// Nanoseconds since 1970.
    pub end_time_unix_nano: u64,
    /// What is known of the operation, in the client's order.
    pub attributes: Repeated<KeyValue>,
    /// How many attributes were left out by the client.
    pub dropped_attributes_count: u32,
    /// What happened meanwhile, in the client's order.
    pub events: Repeated<Event>,
    /// How many events were left out by the client.
    pub dropped_events_count: u32,
    /// The spans that it is linked to, in the client's order.
    pub links: Repeated<Link>,
    /// How many links were left out by the client.
    pub dropped_links_count: u32,
    /// None where the client set none, which counts as unset.
    pub status: Option<Status>,
    /// The W3C trace flags in the lowest eight bits.
    pub flags: u32,
    /// Fields that this version doesn't know, as they were spelled.
    pub unknown: Octets,
}
