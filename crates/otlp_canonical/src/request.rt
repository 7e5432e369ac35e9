//! Spans by scope and resource. These messages drop what they don't know, so that nothing may stand behind their
//! fields.

ghost use Rattle.std.specs.Prelude.{◌≡◌, IfSome};
ghost use Rattle.otlp_trace.specs.Data.{ScopeSpansData, ResourceSpansData};
ghost use Rattle.otlp_trace.specs.Text.{scope_spans_text, resource_spans_text, request_text};
ghost use Rattle.otlp_canonical.specs.Parts.{Whole};
ghost use Rattle.otlp_canonical.specs.Sound.{SoundScopeSpans, SoundResourceSpans, SoundRequest};

use crate::field::some_string;
use crate::message::{Canonical, each, some_message};
use otlp_trace::{InstrumentationScope, Resource, ResourceSpans, ScopeSpans, Span};

impl Canonical for ScopeSpans {
    ghost Data = { ScopeSpansData };

    ghost write = { scope_spans_text };

    ghost sound = { SoundScopeSpans };

    fn check(text: &[u8], room: u32) -> Option<()> {
        if room == 0 {
            return None;
        }
        let scope = some_message::<InstrumentationScope>(text, 1, room - 1)?;
        let spans = each::<Span>(scope, 2, room - 1)?;
        let schema_url = some_string(spans, 3)?;
        if schema_url.is_empty() {
            Some(())
        } else {
            None
        }
    }
}

impl Canonical for ResourceSpans {
    ghost Data = { ResourceSpansData };

    ghost write = { resource_spans_text };

    ghost sound = { SoundResourceSpans };

    fn check(text: &[u8], room: u32) -> Option<()> {
        if room == 0 {
            return None;
        }
        let resource = some_message::<Resource>(text, 1, room - 1)?;
        let scope_spans = each::<ScopeSpans>(resource, 2, room - 1)?;
        let schema_url = some_string(scope_spans, 3)?;
        if schema_url.is_empty() {
            Some(())
        } else {
            None
        }
    }
}

/// Goes over a request.
pub fn request(text: &[u8]) -> Option<()>
    ensures { IfSome result (λ u. Whole request_text SoundRequest text.now) }
{
    let rest = each::<ResourceSpans>(text, 1, 100)?;
    if rest.is_empty() { Some(()) } else { None }
}
