//! Spans by resource and scope.

ghost use Rattle.otlp_trace.specs.Data.{ResourceData, ScopeData, ScopeSpansData, ResourceSpansData, RequestData};
ghost use Rattle.otlp_trace.specs.Text.{resource_text, scope_text, scope_spans_text, resource_spans_text, request_text};
ghost use Rattle.otlp_trace.specs.View.{resource_view, scope_view, scope_spans_view, resource_spans_view, request_view};

use crate::message::{
    ExportTraceServiceRequest, InstrumentationScope, Resource, ResourceSpans, ScopeSpans,
};
use crate::write::embedded::{Message, put_each, put_embedded};
use crate::write::fields::{put_some_bytes, put_some_number};
use std::alloc::AllocError;

impl Message for Resource {
    ghost Data = { ResourceData };

    ghost view = { resource_view };

    ghost text = { resource_text };

    fn put(&self, out: &mut Vec<u8>) -> Result<(), AllocError> {
        put_each(out, 1, self.attributes.as_slice())?;
        put_some_number(out, 2, u64::from(self.dropped_attributes_count))?;
        out.extend_from_slice(self.unknown.as_slice())
    }
}

impl Message for InstrumentationScope {
    ghost Data = { ScopeData };

    ghost view = { scope_view };

    ghost text = { scope_text };

    fn put(&self, out: &mut Vec<u8>) -> Result<(), AllocError> {
        put_some_bytes(out, 1, self.name.as_bytes())?;
        put_some_bytes(out, 2, self.version.as_bytes())?;
        put_each(out, 3, self.attributes.as_slice())?;
        put_some_number(out, 4, u64::from(self.dropped_attributes_count))?;
        out.extend_from_slice(self.unknown.as_slice())
    }
}

impl Message for ScopeSpans {
    ghost Data = { ScopeSpansData };

    ghost view = { scope_spans_view };

    ghost text = { scope_spans_text };

    fn put(&self, out: &mut Vec<u8>) -> Result<(), AllocError> {
        put_embedded(out, 1, &self.scope)?;
        put_each(out, 2, self.spans.as_slice())?;
        put_some_bytes(out, 3, self.schema_url.as_bytes())
    }
}

impl Message for ResourceSpans {
    ghost Data = { ResourceSpansData };

    ghost view = { resource_spans_view };

    ghost text = { resource_spans_text };

    fn put(&self, out: &mut Vec<u8>) -> Result<(), AllocError> {
        put_embedded(out, 1, &self.resource)?;
        put_each(out, 2, self.scope_spans.as_slice())?;
        put_some_bytes(out, 3, self.schema_url.as_bytes())
    }
}

impl Message for ExportTraceServiceRequest {
    ghost Data = { RequestData };

    ghost view = { request_view };

    ghost text = { request_text };

    fn put(&self, out: &mut Vec<u8>) -> Result<(), AllocError> {
        put_each(out, 1, self.resource_spans.as_slice())
    }
}
