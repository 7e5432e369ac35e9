//! Messages that stand in a body, read by themselves.

ghost use Rattle.std.specs.Prelude.{◌≤◌};
ghost use Rattle.otlp_trace.specs.View.{resource_view, scope_view, span_view, scope_spans_view, resource_spans_view};
ghost use Rattle.otlp_read.specs.Fault.{Gives};
ghost use Rattle.otlp_trace.specs.Defaults.{no_resource, no_scope, no_span, no_scope_spans, no_resource_spans};
ghost use Rattle.otlp_read.specs.Value.{resource_step, scope_step, span_step, scope_spans_step, resource_spans_step};
ghost use Rattle.otlp_read.specs.Walk.{read_with};

use crate::fault::ReadFault;
use crate::message::{Message, merged};
use otlp_trace::{InstrumentationScope, Resource, ResourceSpans, ScopeSpans, Span};
use std::alloc::Global;

/// The span that these bytes are to the reader of a body, where there is room for so many levels, the span's own among
/// them. In a body there is room for 98.
pub fn read_span(alloc: Global, bytes: &[u8], room: u32) -> Result<Span, ReadFault>
    requires room { room ≤ 101 }
    ensures exact { Gives span_view result (read_with span_step room no_span bytes.now) }
{
    merged(alloc, Span::empty(alloc), bytes, room)
}

/// The instrumentation scope, likewise. In a body there is room for 98.
pub fn read_scope(alloc: Global, bytes: &[u8], room: u32) -> Result<InstrumentationScope, ReadFault>
    requires room { room ≤ 101 }
    ensures exact { Gives scope_view result (read_with scope_step room no_scope bytes.now) }
{
    merged(alloc, InstrumentationScope::empty(alloc), bytes, room)
}

/// The resource, likewise. In a body there is room for 99.
pub fn read_resource(alloc: Global, bytes: &[u8], room: u32) -> Result<Resource, ReadFault>
    requires room { room ≤ 101 }
    ensures exact { Gives resource_view result
        (read_with resource_step room no_resource bytes.now) }
{
    merged(alloc, Resource::empty(alloc), bytes, room)
}

/// The scope spans, likewise. In a body there is room for 99.
pub fn read_scope_spans(alloc: Global, bytes: &[u8], room: u32) -> Result<ScopeSpans, ReadFault>
    requires room { room ≤ 101 }
    ensures exact { Gives scope_spans_view result
        (read_with scope_spans_step room no_scope_spans bytes.now) }
{
    merged(alloc, ScopeSpans::empty(alloc), bytes, room)
}

/// The resource spans, likewise. In a body there is room for 100.
pub fn read_resource_spans(
    alloc: Global,
    bytes: &[u8],
    room: u32,
) -> Result<ResourceSpans, ReadFault>
    requires room { room ≤ 101 }
    ensures exact { Gives resource_spans_view result
        (read_with resource_spans_step room no_resource_spans bytes.now) }
{
    merged(alloc, ResourceSpans::empty(alloc), bytes, room)
}
