//! Scope spans, and the instrumentation scopes in them.

ghost use Rattle.std.specs.Prelude.{◌≡◌, ◌≤◌, ◌+◌, Ok, length, slice_range, IfOk};
ghost use Rattle.otlp_trace.specs.Data.{ScopeData};
ghost use Rattle.otlp_trace.specs.View.{scope_view};
ghost use Rattle.otlp_read.specs.Fault.{Gives};
ghost use Rattle.otlp_parts.specs.Embedded.{scope_embedding};
ghost use Rattle.otlp_parts.specs.Kept.{KeptScope, no_kept_scope, kept_scope_step, kept_scope_texts, span_onto};
ghost use Rattle.otlp_parts.specs.Parts.{scope_reading_view, scope_parts_view};
ghost use Rattle.otlp_parts.specs.Sizes.{texts_size, scope_size};

use crate::embedded::{Embedded, found_again, found_text};
use crate::found::Found;
use crate::held::ScopeReading;
use crate::message::string;
use crate::part_text::PartText;
use crate::parts::{ScopeParts, SpanTexts};
use crate::span::span_part;
use crate::walk::Walked;
use otlp_canonical::{is_scope_text, scope_copy};
use otlp_read::{ReadFault, read_scope};
use otlp_trace::{InstrumentationScope, write_scope};
use pb_wire::{Field, Value};
use std::alloc::{AllocError, Global};
use std::mem;
use text_slice::TextSlice;

/// The levels that a scope in a body has room for, its own among them.
const SCOPE_ROOM: u32 = 98;

/// No valid span has fewer bytes, since both its ids stand in it.
const LEAST_SPAN: usize = 28;

impl Embedded for InstrumentationScope {
    ghost Data = { ScopeData };

    ghost embedding = { scope_embedding };

    ghost view = { scope_view };

    fn is_text(bytes: &[u8]) -> bool {
        is_scope_text(bytes, SCOPE_ROOM)
    }

    fn copied(alloc: Global, bytes: &[u8]) -> Result<Option<Vec<u8>>, AllocError> {
        let Some(copy) = scope_copy(alloc, bytes, SCOPE_ROOM)? else {
            return Ok(None);
        };
        Ok(Some(copy))
    }

    fn read(alloc: Global, bytes: &[u8]) -> Result<InstrumentationScope, ReadFault> {
        read_scope(alloc, bytes, SCOPE_ROOM)
    }

    fn written(&self, alloc: Global) -> Result<TextSlice, ReadFault> {
        let mut text = Vec::new(alloc);
        write_scope(alloc, &mut text, self)?;
        Ok(TextSlice::from_vec(alloc, text)?)
    }

    fn merges() {}
}

/// A scope spans of no fields.
pub fn no_scope(alloc: Global) -> ScopeReading
    ensures { scope_reading_view result ≡ no_kept_scope }
{
    ScopeReading {
        scope: Found::Missing,
        schema_url: None,
        spans: Vec::new(alloc),
        invalid: 0,
    }
}

/// What was read to its end.
pub fn scope_parts(
    alloc: Global,
    reading: ScopeReading,
    sliced: &mut usize,
) -> Result<ScopeParts, ReadFault>
    ensures exact { Gives scope_parts_view result
        (Ok (kept_scope_texts (scope_reading_view reading))) }
    ensures sliced_within { IfOk result (λ parts.
        sliced.new + texts_size reading.spans.items ≤ sliced.old + scope_size
        (scope_parts_view parts)) }
{
    let schema_url = PartText::of_url(reading.schema_url);
    *sliced = sliced.saturating_add(schema_url.size());
    let scope = found_text::<InstrumentationScope>(alloc, reading.scope, sliced)?;
    Ok(ScopeParts {
        scope: PartText::of(scope),
        schema_url,
        spans: SpanTexts::of(reading.spans),
    })
}

/// For how many spans to make room where the second one comes, which has so many bytes and so many behind it in its
/// scope. The others are mostly as long; the room takes fewer bytes than theirs at any rate.
fn room_for_all(size: usize, left: usize) -> usize {
    let short = size - size / 8;
    left / short.max(LEAST_SPAN) + 1
}

/// Takes one more span.
fn add_span(
    alloc: Global,
    reading: &mut ScopeReading,
    text: &TextSlice,
    start: usize,
    end: usize,
    sliced: &mut usize,
) -> Result<(), ReadFault>
    requires order { start ≤ end }
    requires within { end ≤ length text.now }
    ensures exact { Gives (λ taken. scope_reading_view reading.new) result
        (span_onto (scope_reading_view reading.old) (slice_range text.now start end)) }
    ensures sliced_within { IfOk result (λ taken. sliced.new + texts_size reading.old.spans.items
        ≤ sliced.old + texts_size reading.new.spans.items) }
{
    match span_part(alloc, text, start, end, sliced)? {
        Some(span) => {
            // A list of one takes the room of one: what shares nothing may have a scope of its own.
            match reading.spans.len() {
                0 => reading.spans.reserve_exact(1)?,
                1 => reading
                    .spans
                    .reserve_exact(room_for_all(end - start, text.len() - end))?,
                _ => {}
            }
            reading.spans.push(span)?;
        }
        None => reading.invalid = reading.invalid.saturating_add(1),
    }
    Ok(())
}

impl Walked for ScopeReading {
    ghost Data = { KeptScope };

    ghost view = { scope_reading_view };

    ghost step = { kept_scope_step };

    ghost size = { λ k. texts_size k.spans };

    fn field(
        &mut self,
        alloc: Global,
        text: &TextSlice,
        end: usize,
        field: Field<'_>,
        sliced: &mut usize,
    ) -> Result<(), ReadFault> {
        if let Value::Bytes(bytes) = field.value {
            let start = end - bytes.len();
            if field.number == 1 {
                let before = mem::replace(&mut self.scope, Found::Missing);
                self.scope = found_again::<InstrumentationScope>(alloc, before, text, start, end)?;
                return Ok(());
            }
            if field.number == 2 {
                return add_span(alloc, self, text, start, end, sliced);
            }
            if field.number == 3 {
                self.schema_url = Some(string(text, start, end)?);
                return Ok(());
            }
        }
        Ok(())
    }
}
