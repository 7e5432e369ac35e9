//! Whether a text is canonical, and of which value.

ghost use Rattle.std.specs.Prelude.{◌≡◌, IsTrue};
ghost use Rattle.otlp_canonical.specs.Canonical.{CanonicalSpan, CanonicalResource, CanonicalScope, CanonicalRequest};

use crate::message::Canonical;
use crate::request::request;
use otlp_read::written_reads_back;
use otlp_trace::{InstrumentationScope, Resource, Span};

/// Whether the text is a span's canonical text, with room for so many levels, its own among them: 98 in a body.
pub fn is_span_text(text: &[u8], room: u32) -> bool
    ensures { IsTrue result → CanonicalSpan room text.now }
{
    written_reads_back();
    Span::check(text, room).is_some()
}

/// Whether the text is a resource's canonical text, with room for so many levels, its own among them: 99 in a body.
pub fn is_resource_text(text: &[u8], room: u32) -> bool
    ensures { IsTrue result → CanonicalResource room text.now }
{
    written_reads_back();
    Resource::check(text, room).is_some()
}

/// Whether the text is a scope's canonical text, with room for so many levels, its own among them: 98 in a body.
pub fn is_scope_text(text: &[u8], room: u32) -> bool
    ensures { IsTrue result → CanonicalScope room text.now }
{
    written_reads_back();
    InstrumentationScope::check(text, room).is_some()
}

/// Whether the text is a whole body's canonical text.
pub fn is_request_text(text: &[u8]) -> bool
    ensures { IsTrue result → CanonicalRequest text.now }
{
    written_reads_back();
    request(text).is_some()
}
