//! What a client posts: spans by resource and scope.

use crate::octets::Octets;
use crate::repeated::Repeated;
use crate::span::Span;
use crate::value::KeyValue;

/// What produced the spans: a process, a host, a service.
#[derive(Debug, Drop)]
pub struct Resource {
    /// What is known of it, in the client's order.
    pub attributes: Repeated<KeyValue>,
    /// How many attributes were left out by the client.
    pub dropped_attributes_count: u32,
    /// Fields that this version doesn't know, as they were spelled.
    pub unknown: Octets,
}

/// The library that made the spans.
#[derive(Debug, Drop)]
pub struct InstrumentationScope {
    /// The library's name, empty where it isn't known.
    pub name: String,
    /// Its version, empty where it isn't known.
    pub version: String,
    /// What else is known of it, in the client's order.
    pub attributes: Repeated<KeyValue>,
    /// How many attributes were left out by the client.
    pub dropped_attributes_count: u32,
    /// Fields that this version doesn't know, as they were spelled.
    pub unknown: Octets,
}

/// Spans of one instrumentation scope.
#[derive(Debug, Drop)]
pub struct ScopeSpans {
    /// None where the scope isn't known.
    pub scope: Option<InstrumentationScope>,
    /// The spans, in the client's order.
    pub spans: Repeated<Span>,
    /// The URL of the schema of the spans and the scope, empty where it isn't known.
    pub schema_url: String,
}

/// Spans of one resource, by scope.
#[derive(Debug, Drop)]
pub struct ResourceSpans {
    /// None where the resource isn't known.
    pub resource: Option<Resource>,
    /// The resource's spans, by scope.
    pub scope_spans: Repeated<ScopeSpans>,
    /// The URL of the schema of the resource, empty where it isn't known.
    pub schema_url: String,
}

/// What a client posts.
#[derive(Debug, Drop)]
pub struct ExportTraceServiceRequest {
    /// All spans, by resource.
    pub resource_spans: Repeated<ResourceSpans>,
}
