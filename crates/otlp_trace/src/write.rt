//! Writing canonical text.
//!
//! A message appends its fields in place. What is embedded is written first and then made the content of a field, by
//! moving its tag and length to its front: no length is counted beforehand. That moves a text once for each level that
//! it lies in, of which a body that was read has at most 100.

mod embedded;
mod fields;
mod message;
mod response;
mod span;
mod value;

ghost use Rattle.std.specs.Prelude.{◌≡◌, ◌++◌, [], OnOk, OnErr};
ghost use Rattle.otlp_trace.specs.Text.{resource_text, scope_text, span_text, request_text, response_text, refusal_text};
ghost use Rattle.otlp_trace.specs.View.{resource_view, scope_view, span_view, request_view, response_view};

use crate::message::{ExportTraceServiceRequest, InstrumentationScope, Resource};
use crate::response::ExportTraceServiceResponse;
use crate::span::Span;
use embedded::Message;
pub use fields::{put_bytes_field, put_some_bytes, wrap_in_field};
use std::alloc::{AllocError, Global};
use std::mem;

/// Puts a message's text into an empty vector, whose room it takes. Where memory is refused the vector stays empty.
fn fill<M: Message>(alloc: Global, out: &mut Vec<u8>, message: &M) -> Result<(), AllocError>
    requires empty { out.old.items ≡ [] }
    ensures on_success { OnOk result (out.new.items ≡ M.text (M.view message.now)) }
    ensures on_refusal { OnErr result (out.new.items ≡ []) }
{
    let mut text = mem::replace(out, Vec::new(alloc));
    message.put(&mut text)?;
    *out = text;
    Ok(())
}

/// Appends all of a message's text, or nothing.
fn append<M: Message>(alloc: Global, out: &mut Vec<u8>, message: &M) -> Result<(), AllocError>
    ensures on_success { OnOk result (out.new.items ≡ out.old.items ++ M.text
        (M.view message.now)) }
    ensures on_refusal { OnErr result (out.new.items ≡ out.old.items) }
{
    // Room that was asked for is taken as it is; else the text is held in no more than it needs.
    if out.is_empty() && out.capacity() > 0 {
        return fill(alloc, out, message);
    }
    let mut text = Vec::new(alloc);
    message.put(&mut text)?;
    out.extend_from_slice(text.as_slice())
}

/// Appends a request's canonical text, or nothing where memory is refused.
pub fn write_request(
    alloc: Global,
    out: &mut Vec<u8>,
    request: &ExportTraceServiceRequest,
) -> Result<(), AllocError>
    ensures on_success { OnOk result (out.new.items ≡ out.old.items ++ request_text
        (request_view request.now)) }
    ensures on_refusal { OnErr result (out.new.items ≡ out.old.items) }
{
    append(alloc, out, request)
}

/// Appends a span's canonical text, or nothing where memory is refused.
pub fn write_span(alloc: Global, out: &mut Vec<u8>, span: &Span) -> Result<(), AllocError>
    ensures on_success { OnOk result (out.new.items ≡ out.old.items ++ span_text
        (span_view span.now)) }
    ensures on_refusal { OnErr result (out.new.items ≡ out.old.items) }
{
    append(alloc, out, span)
}

/// Appends a resource's canonical text, or nothing where memory is refused.
pub fn write_resource(
    alloc: Global,
    out: &mut Vec<u8>,
    resource: &Resource,
) -> Result<(), AllocError>
    ensures on_success { OnOk result (out.new.items ≡ out.old.items ++ resource_text
        (resource_view resource.now)) }
    ensures on_refusal { OnErr result (out.new.items ≡ out.old.items) }
{
    append(alloc, out, resource)
}

/// Appends a scope's canonical text, or nothing where memory is refused.
pub fn write_scope(
    alloc: Global,
    out: &mut Vec<u8>,
    scope: &InstrumentationScope,
) -> Result<(), AllocError>
    ensures on_success { OnOk result (out.new.items ≡ out.old.items ++ scope_text
        (scope_view scope.now)) }
    ensures on_refusal { OnErr result (out.new.items ≡ out.old.items) }
{
    append(alloc, out, scope)
}

/// Appends a reply's canonical text, or nothing where memory is refused. A reply with no partial success has no bytes.
pub fn write_response(
    alloc: Global,
    out: &mut Vec<u8>,
    response: &ExportTraceServiceResponse,
) -> Result<(), AllocError>
    ensures on_success { OnOk result (out.new.items ≡ out.old.items ++ response_text
        (response_view response.now)) }
    ensures on_refusal { OnErr result (out.new.items ≡ out.old.items) }
{
    append(alloc, out, response)
}

/// Appends the status of a refused request (`google.rpc.Status`) with its message alone, or nothing where memory is
/// refused.
pub fn write_status(alloc: Global, out: &mut Vec<u8>, message: &str) -> Result<(), AllocError>
    ensures on_success { OnOk result (out.new.items ≡ out.old.items ++ refusal_text message.now) }
    ensures on_refusal { OnErr result (out.new.items ≡ out.old.items) }
{
    let mut text = Vec::new(alloc);
    put_some_bytes(&mut text, 2, message.as_bytes())?;
    out.extend_from_slice(text.as_slice())
}
