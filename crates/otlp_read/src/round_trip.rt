//! What reading makes of what was written.

ghost use Rattle.std.specs.Prelude.{◌^◌, ◌<◌, ℕ, All, List};
ghost use Rattle.otlp_trace.specs.Data.{ResourceData, ScopeData, SpanData, RequestData, ResponseData};
ghost use Rattle.otlp_trace.specs.View.{resource_view, scope_view, span_view, request_view, response_view};
ghost use Rattle.otlp_read.specs.Nested.{NestedRequest};
ghost use Rattle.otlp_read.specs.Response.{IsResponse};
ghost use Rattle.otlp_read.specs.RoundTrip.{RequestReadsBack, ResponseReadsBack, SpanReadsBack, ResourceReadsBack, ScopeReadsBack, IsShort};
ghost use Rattle.otlp_trace.specs.Text.{request_text};
ghost use Rattle.otlp_read.specs.Typed.{TypedResource, TypedScope, TypedSpan, TypedRequest, TypedResponse};
ghost use Rattle.otlp_read.specs.Value.{IsValue};

use crate::typed::{
    request_is_typed, resource_is_typed, response_is_typed, scope_is_typed, span_is_typed,
};
use otlp_trace::{
    ExportTraceServiceRequest, ExportTraceServiceResponse, InstrumentationScope, Resource, Span,
};

/// The canonical text of a message reads back to the message, at each depth where there is room for it.
pub fn written_reads_back()
    ensures request { (v : RequestData) → TypedRequest v → RequestReadsBack v }
    ensures response { (v : ResponseData) → TypedResponse v → ResponseReadsBack v }
    ensures span { (v : SpanData) (room : ℕ) → TypedSpan v → SpanReadsBack room v }
    ensures resource { (v : ResourceData) (room : ℕ) → TypedResource v → ResourceReadsBack room v }
    ensures scope { (v : ScopeData) (room : ℕ) → TypedScope v → ScopeReadsBack room v }
{}

/// The canonical text of a request reads back to the request, where that is nested no deeper than a reader takes.
pub fn written_request_reads_back(request: &ExportTraceServiceRequest)
    ensures { RequestReadsBack (request_view request.now) }
{
    request_is_typed(request);
    written_reads_back();
}

/// The canonical text of a response reads back to the response.
pub fn written_response_reads_back(response: &ExportTraceServiceResponse)
    ensures { ResponseReadsBack (response_view response.now) }
{
    response_is_typed(response);
    written_reads_back();
}

/// The canonical text of a span reads back to the span, where there is room for it.
pub fn written_span_reads_back(span: &Span)
    ensures { (room : ℕ) → SpanReadsBack room (span_view span.now) }
{
    span_is_typed(span);
    written_reads_back();
}

/// The canonical text of a resource reads back to the resource, where there is room for it.
pub fn written_resource_reads_back(resource: &Resource)
    ensures { (room : ℕ) → ResourceReadsBack room (resource_view resource.now) }
{
    resource_is_typed(resource);
    written_reads_back();
}

/// The canonical text of a scope reads back to the scope, where there is room for it.
pub fn written_scope_reads_back(scope: &InstrumentationScope)
    ensures { (room : ℕ) → ScopeReadsBack room (scope_view scope.now) }
{
    scope_is_typed(scope);
    written_reads_back();
}

/// What is read of a body is nested no deeper than a reader takes, keeps nothing but fields that aren't known, and has
/// what the types of the code give. So it reads back once it is written.
pub fn values_are_sound()
    ensures nested { (bytes : List ℕ) (v : RequestData) → IsValue bytes v → NestedRequest v }
    ensures typed { (bytes : List ℕ) (v : RequestData) →
        All (λ b. b < 2 ^ 8) bytes → IsValue bytes v → TypedRequest v }
    ensures again { (bytes : List ℕ) (v : RequestData) →
        All (λ b. b < 2 ^ 8) bytes → IsValue bytes v → IsShort (request_text v)
        → IsValue (request_text v) v }
    ensures response { (bytes : List ℕ) (v : ResponseData) → IsResponse bytes v → TypedResponse v }
{}
