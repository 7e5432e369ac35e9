//! What the types of the code give of a message: strings are UTF-8, and numbers fit their widths.
//!
//! A message behind a reference is known to be typed once its parts have been gone over, and a number in it to fit once
//! it has been read. So the functions below do nothing else.

ghost use Rattle.std.specs.Prelude.{◌≡◌, length, map, option_map, IfSome};
ghost use Rattle.std.specs.List.{AllByRecursion};
ghost use Rattle.otlp_trace.specs.Data.{KeyValueData, ResourceData, ScopeData, StatusData, EventData, LinkData, SpanData, ScopeSpansData, ResourceSpansData, PartialSuccessData};
ghost use Rattle.otlp_trace.specs.View.{any_view, kind_view, array_view, list_view, key_value_view, resource_view, scope_view, status_view, event_view, link_view, span_view, scope_spans_view, resource_spans_view, request_view, partial_success_view, response_view};
ghost use Rattle.otlp_read.specs.Typed.{TypedAny, TypedKind, TypedArray, TypedList, TypedKeyValue, TypedResource, TypedScope, TypedStatus, TypedEvent, TypedLink, TypedSpan, TypedScopeSpans, TypedResourceSpans, TypedRequest, TypedPartialSuccess, TypedResponse};

use otlp_trace::{
    AnyValue, AnyValueKind, ArrayValue, DoubleBits, Event, ExportTracePartialSuccess,
    ExportTraceServiceRequest, ExportTraceServiceResponse, InstrumentationScope, KeyValue,
    KeyValueList, Link, Resource, ResourceSpans, ScopeSpans, Span, Status,
};

/// A message inside others.
trait Typed {
    ghost Data: { Type 0 };

    ghost view: { Self → Data };

    ghost typed: { Data → Type 0 };

    /// Goes over the message's parts.
    fn known(&self)
        ensures { typed (view self.now) };
}

/// Goes over each of the messages.
fn each_known<T: Typed>(values: &[T])
    ensures { AllByRecursion T.typed (map T.view values.now) }
{
    for value in values {
        value.known();
    }
}

/// Goes over the message, where there is one.
fn some_known<T: Typed>(value: &Option<T>)
    ensures { IfSome (option_map T.view value.now) T.typed }
{
    if let Some(value) = value {
        value.known();
    }
}

/// A double has its eight bytes.
fn double_known(double: DoubleBits)
    ensures { length double.0 ≡ 8 }
{}

#[cycle(any)]
fn any_value_known(value: &AnyValue)
    ensures { TypedAny (any_view value.now) }
{
    any_value_kind_known(&value.kind);
}

#[cycle(any)]
fn any_value_kind_known(kind: &AnyValueKind)
    ensures { TypedKind (kind_view kind.now) }
{
    match kind {
        AnyValueKind::Int(number) => {
            let _number = *number;
        }
        AnyValueKind::Double(double) => {
            double_known(*double);
        }
        AnyValueKind::Array(array) => array_value_known(array),
        AnyValueKind::KeyValueList(list) => key_value_list_known(list),
        AnyValueKind::String(_) => {}
        AnyValueKind::Unset | AnyValueKind::Bool(_) | AnyValueKind::Bytes(_) => {}
    }
}

#[cycle(any)]
fn array_value_known(array: &ArrayValue)
    ensures { TypedArray (array_view array.now) }
{
    for value in &array.values {
        any_value_known(value);
    }
}

#[cycle(any)]
fn key_value_list_known(list: &KeyValueList)
    ensures { TypedList (list_view list.now) }
{
    for key_value in &list.values {
        key_value_known(key_value);
    }
}

#[cycle(any)]
fn key_value_known(key_value: &KeyValue)
    ensures { TypedKeyValue (key_value_view key_value.now) }
{
    match &key_value.value {
        Some(value) => any_value_known(value),
        None => {}
    }
}

impl Typed for KeyValue {
    ghost Data = { KeyValueData };

    ghost view = { key_value_view };

    ghost typed = { TypedKeyValue };

    fn known(&self) {
        key_value_known(self);
    }
}

impl Typed for Resource {
    ghost Data = { ResourceData };

    ghost view = { resource_view };

    ghost typed = { TypedResource };

    fn known(&self) {
        each_known(self.attributes.as_slice());
        let _dropped_attributes_count = self.dropped_attributes_count;
    }
}

impl Typed for InstrumentationScope {
    ghost Data = { ScopeData };

    ghost view = { scope_view };

    ghost typed = { TypedScope };

    fn known(&self) {
        each_known(self.attributes.as_slice());
        let _dropped_attributes_count = self.dropped_attributes_count;
    }
}

impl Typed for Status {
    ghost Data = { StatusData };

    ghost view = { status_view };

    ghost typed = { TypedStatus };

    fn known(&self) {
        let _code = self.code;
    }
}

impl Typed for Event {
    ghost Data = { EventData };

    ghost view = { event_view };

    ghost typed = { TypedEvent };

    fn known(&self) {
        let _time_unix_nano = self.time_unix_nano;
        each_known(self.attributes.as_slice());
        let _dropped_attributes_count = self.dropped_attributes_count;
    }
}

impl Typed for Link {
    ghost Data = { LinkData };

    ghost view = { link_view };

    ghost typed = { TypedLink };

    fn known(&self) {
        each_known(self.attributes.as_slice());
        let _dropped_attributes_count = self.dropped_attributes_count;
        let _flags = self.flags;
    }
}

impl Typed for Span {
    ghost Data = { SpanData };

    ghost view = { span_view };

    ghost typed = { TypedSpan };

    fn known(&self) {
        let _kind = self.kind;
        let _start_time_unix_nano = self.start_time_unix_nano;
        let _end_time_unix_nano = self.end_time_unix_nano;
        each_known(self.attributes.as_slice());
        let _dropped_attributes_count = self.dropped_attributes_count;
        each_known(self.events.as_slice());
        let _dropped_events_count = self.dropped_events_count;
        each_known(self.links.as_slice());
        let _dropped_links_count = self.dropped_links_count;
        some_known(&self.status);
        let _flags = self.flags;
    }
}

impl Typed for ScopeSpans {
    ghost Data = { ScopeSpansData };

    ghost view = { scope_spans_view };

    ghost typed = { TypedScopeSpans };

    fn known(&self) {
        some_known(&self.scope);
        each_known(self.spans.as_slice());
    }
}

impl Typed for ResourceSpans {
    ghost Data = { ResourceSpansData };

    ghost view = { resource_spans_view };

    ghost typed = { TypedResourceSpans };

    fn known(&self) {
        some_known(&self.resource);
        each_known(self.scope_spans.as_slice());
    }
}

impl Typed for ExportTracePartialSuccess {
    ghost Data = { PartialSuccessData };

    ghost view = { partial_success_view };

    ghost typed = { TypedPartialSuccess };

    fn known(&self) {
        let _rejected_spans = self.rejected_spans;
    }
}

/// A request's strings are UTF-8, and its numbers fit.
pub fn request_is_typed(request: &ExportTraceServiceRequest)
    ensures { TypedRequest (request_view request.now) }
{
    each_known(request.resource_spans.as_slice());
}

/// A response's string is UTF-8, and its number fits.
pub fn response_is_typed(response: &ExportTraceServiceResponse)
    ensures { TypedResponse (response_view response.now) }
{
    some_known(&response.partial_success);
}

/// A span's strings are UTF-8, and its numbers fit.
pub fn span_is_typed(span: &Span)
    ensures { TypedSpan (span_view span.now) }
{
    span.known();
}

/// A resource's strings are UTF-8, and its numbers fit.
pub fn resource_is_typed(resource: &Resource)
    ensures { TypedResource (resource_view resource.now) }
{
    resource.known();
}

/// A scope's strings are UTF-8, and its numbers fit.
pub fn scope_is_typed(scope: &InstrumentationScope)
    ensures { TypedScope (scope_view scope.now) }
{
    scope.known();
}
