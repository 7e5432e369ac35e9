//! Requests, and the groups of spans in them.

ghost use Rattle.std.specs.Prelude.{◌≡◌, ◌≢◌, ◌↔◌, ℕ, List, Ok, Err, IfOk, IfErr};
ghost use Rattle.otlp_trace.specs.Data.{ResourceData, ScopeData, ScopeSpansData, ResourceSpansData, RequestData};
ghost use Rattle.otlp_trace.specs.View.{resource_view, scope_view, scope_spans_view, resource_spans_view, request_view};
ghost use Rattle.otlp_read.specs.declared.fault.ReadFault.{ReadFault};
ghost use Rattle.otlp_read.specs.Fault.{Gives};
ghost use Rattle.otlp_read.specs.Walk.{MergesLists};
ghost use Rattle.otlp_trace.specs.Defaults.{no_resource, no_scope, no_scope_spans, no_resource_spans, no_request};
ghost use Rattle.otlp_read.specs.Value.{resource_step, scope_step, scope_spans_step, resource_spans_step, request_step, value_of, IsValue, IsFault};

use crate::fault::ReadFault;
use crate::leaf::{keep, low32, string};
use crate::message::{LEVELS, Message, merged, merged_into, read_on};
use otlp_trace::{
    ExportTraceServiceRequest, InstrumentationScope, Octets, Repeated, Resource, ResourceSpans,
    ScopeSpans,
};
use pb_wire::{Field, Value};
use std::alloc::Global;

impl Message for Resource {
    ghost Data = { ResourceData };

    ghost view = { resource_view };

    ghost empty = { no_resource };

    ghost step = { resource_step };

    fn empty(alloc: Global) -> Resource {
        Resource {
            attributes: Repeated::new(alloc),
            dropped_attributes_count: 0,
            unknown: Octets::new(alloc),
        }
    }

    fn field(
        self,
        alloc: Global,
        field: Field<'_>,
        spelled: &[u8],
        room: u32,
    ) -> Result<Resource, ReadFault> {
        let mut resource = self;
        match (field.number, field.value) {
            (1, Value::Bytes(bytes)) => {
                resource.attributes = read_on(alloc, resource.attributes, bytes, room)?;
            }
            (2, Value::Varint(n)) => resource.dropped_attributes_count = low32(n),
            _ => resource.unknown = keep(resource.unknown, spelled)?,
        }
        Ok(resource)
    }
}

impl Message for InstrumentationScope {
    ghost Data = { ScopeData };

    ghost view = { scope_view };

    ghost empty = { no_scope };

    ghost step = { scope_step };

    fn empty(alloc: Global) -> InstrumentationScope {
        InstrumentationScope {
            name: String::new(alloc),
            version: String::new(alloc),
            attributes: Repeated::new(alloc),
            dropped_attributes_count: 0,
            unknown: Octets::new(alloc),
        }
    }

    fn field(
        self,
        alloc: Global,
        field: Field<'_>,
        spelled: &[u8],
        room: u32,
    ) -> Result<InstrumentationScope, ReadFault> {
        let mut scope = self;
        match (field.number, field.value) {
            (1, Value::Bytes(bytes)) => scope.name = string(alloc, bytes)?,
            (2, Value::Bytes(bytes)) => scope.version = string(alloc, bytes)?,
            (3, Value::Bytes(bytes)) => {
                scope.attributes = read_on(alloc, scope.attributes, bytes, room)?;
            }
            (4, Value::Varint(n)) => scope.dropped_attributes_count = low32(n),
            _ => scope.unknown = keep(scope.unknown, spelled)?,
        }
        Ok(scope)
    }
}

impl Message for ScopeSpans {
    ghost Data = { ScopeSpansData };

    ghost view = { scope_spans_view };

    ghost empty = { no_scope_spans };

    ghost step = { scope_spans_step };

    fn empty(alloc: Global) -> ScopeSpans {
        ScopeSpans {
            scope: None,
            spans: Repeated::new(alloc),
            schema_url: String::new(alloc),
        }
    }

    fn field(
        self,
        alloc: Global,
        field: Field<'_>,
        _spelled: &[u8],
        room: u32,
    ) -> Result<ScopeSpans, ReadFault> {
        let mut scope_spans = self;
        match (field.number, field.value) {
            (1, Value::Bytes(bytes)) => {
                scope_spans.scope = Some(merged_into(alloc, scope_spans.scope, bytes, room)?);
            }
            (2, Value::Bytes(bytes)) => {
                scope_spans.spans = read_on(alloc, scope_spans.spans, bytes, room)?;
            }
            (3, Value::Bytes(bytes)) => scope_spans.schema_url = string(alloc, bytes)?,
            _ => {}
        }
        Ok(scope_spans)
    }
}

impl Message for ResourceSpans {
    ghost Data = { ResourceSpansData };

    ghost view = { resource_spans_view };

    ghost empty = { no_resource_spans };

    ghost step = { resource_spans_step };

    fn empty(alloc: Global) -> ResourceSpans {
        ResourceSpans {
            resource: None,
            scope_spans: Repeated::new(alloc),
            schema_url: String::new(alloc),
        }
    }

    fn field(
        self,
        alloc: Global,
        field: Field<'_>,
        _spelled: &[u8],
        room: u32,
    ) -> Result<ResourceSpans, ReadFault> {
        let mut group = self;
        match (field.number, field.value) {
            (1, Value::Bytes(bytes)) => {
                group.resource = Some(merged_into(alloc, group.resource, bytes, room)?);
            }
            (2, Value::Bytes(bytes)) => {
                group.scope_spans = read_on(alloc, group.scope_spans, bytes, room)?;
            }
            (3, Value::Bytes(bytes)) => group.schema_url = string(alloc, bytes)?,
            _ => {}
        }
        Ok(group)
    }
}

impl Message for ExportTraceServiceRequest {
    ghost Data = { RequestData };

    ghost view = { request_view };

    ghost empty = { no_request };

    ghost step = { request_step };

    fn empty(alloc: Global) -> ExportTraceServiceRequest {
        ExportTraceServiceRequest {
            resource_spans: Repeated::new(alloc),
        }
    }

    fn field(
        self,
        alloc: Global,
        field: Field<'_>,
        _spelled: &[u8],
        room: u32,
    ) -> Result<ExportTraceServiceRequest, ReadFault> {
        let mut request = self;
        if let (1, Value::Bytes(bytes)) = (field.number, field.value) {
            request.resource_spans = read_on(alloc, request.resource_spans, bytes, room)?;
        }
        Ok(request)
    }
}

/// The value of a body, or the first fault that is met.
fn body(alloc: Global, bytes: &[u8]) -> Result<ExportTraceServiceRequest, ReadFault>
    ensures exact { Gives request_view result (value_of bytes.now) }
{
    merged(
        alloc,
        ExportTraceServiceRequest::empty(alloc),
        bytes,
        LEVELS,
    )
}

/// The request that a body is. It borrows nothing of the bytes. After a fault nothing is left of what was read.
pub fn read_request(alloc: Global, bytes: &[u8]) -> Result<ExportTraceServiceRequest, ReadFault>
    // What is read is the value of the body.
    ensures value { IfOk result (λ request. IsValue bytes.now (request_view request)) }

    // A body with a value is read, unless memory runs out.
    ensures only { (v : RequestData) → IsValue bytes.now v → Gives request_view result (Ok v) }

    // A fault stands in the body.
    ensures fault { IfErr result (λ fault. fault ≢ ReadFault.OutOfMemory
        → IsFault bytes.now fault) }
{
    body(alloc, bytes)
}

/// Each body has a value or a fault that stands in it, and none has both. What the fields of a body make is what the
/// fields of its first part make, and then those of the other.
pub fn values_or_faults()
    ensures apart { (bytes : List ℕ) (v : RequestData) (fault : ReadFault) →
        IsFault bytes fault → IsValue bytes v → ⊥ }
    ensures exact { (bytes : List ℕ) (v : RequestData) → (value_of bytes ≡ Ok v) ↔ IsValue bytes v }
    ensures fault { (bytes : List ℕ) (fault : ReadFault) → value_of bytes ≡ Err fault
        → IsFault bytes fault }
    ensures merge { MergesLists (request_step 100) }
{}
