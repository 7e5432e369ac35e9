//! Resource spans, and the resources in them.

ghost use Rattle.std.specs.Prelude.{◌≡◌, ◌≤◌, ◌+◌, Ok, length, map, slice_range, IfOk};
ghost use Rattle.otlp_trace.specs.Data.{ResourceData};
ghost use Rattle.otlp_trace.specs.View.{resource_view};
ghost use Rattle.otlp_read.specs.Fault.{Gives};
ghost use Rattle.otlp_parts.specs.Embedded.{resource_embedding};
ghost use Rattle.otlp_parts.specs.Kept.{KeptResource, no_kept_resource, kept_resource_step, kept_resource_texts, kept_scope_texts, scope_spans_onto};
ghost use Rattle.otlp_parts.specs.Parts.{resource_reading_view, resource_parts_view, scope_reading_view, scope_parts_view};
ghost use Rattle.otlp_parts.specs.Sizes.{texts_size, scope_size, scopes_size, resource_size};

use crate::embedded::{Embedded, found_again, found_text};
use crate::found::Found;
use crate::held::{ResourceReading, ScopeReading};
use crate::message::string;
use crate::part_text::PartText;
use crate::parts::{ResourceParts, ScopeList, ScopeParts};
use crate::scope::{no_scope, scope_parts};
use crate::walk::{Walked, walk_fields};
use otlp_canonical::{is_resource_text, resource_copy};
use otlp_read::{ReadFault, read_resource};
use otlp_trace::{Resource, write_resource};
use pb_wire::{Field, Value};
use std::alloc::{AllocError, Global};
use std::mem;
use text_slice::TextSlice;

/// The levels that a resource in a body has room for, its own among them, and so a scope spans.
const RESOURCE_ROOM: u32 = 99;

impl Embedded for Resource {
    ghost Data = { ResourceData };

    ghost embedding = { resource_embedding };

    ghost view = { resource_view };

    fn is_text(bytes: &[u8]) -> bool {
        is_resource_text(bytes, RESOURCE_ROOM)
    }

    fn copied(alloc: Global, bytes: &[u8]) -> Result<Option<Vec<u8>>, AllocError> {
        let Some(copy) = resource_copy(alloc, bytes, RESOURCE_ROOM)? else {
            return Ok(None);
        };
        Ok(Some(copy))
    }

    fn read(alloc: Global, bytes: &[u8]) -> Result<Resource, ReadFault> {
        read_resource(alloc, bytes, RESOURCE_ROOM)
    }

    fn written(&self, alloc: Global) -> Result<TextSlice, ReadFault> {
        let mut text = Vec::new(alloc);
        write_resource(alloc, &mut text, self)?;
        Ok(TextSlice::from_vec(alloc, text)?)
    }

    fn merges() {}
}

/// A resource spans of no fields.
pub fn no_resource(alloc: Global) -> ResourceReading
    ensures { resource_reading_view result ≡ no_kept_resource }
{
    ResourceReading {
        resource: Found::Missing,
        schema_url: None,
        scopes: Vec::new(alloc),
        invalid: 0,
    }
}

/// What was read to its end.
pub fn resource_parts(
    alloc: Global,
    reading: ResourceReading,
    sliced: &mut usize,
) -> Result<ResourceParts, ReadFault>
    ensures exact { Gives resource_parts_view result
        (Ok (kept_resource_texts (resource_reading_view reading))) }
    ensures sliced_within { IfOk result (λ parts.
        sliced.new + scopes_size (map scope_parts_view reading.scopes.items)
        ≤ sliced.old + resource_size (resource_parts_view parts)) }
{
    let schema_url = PartText::of_url(reading.schema_url);
    *sliced = sliced.saturating_add(schema_url.size());
    let resource = found_text::<Resource>(alloc, reading.resource, sliced)?;
    Ok(ResourceParts {
        resource: PartText::of(resource),
        schema_url,
        scopes: ScopeList::of(reading.scopes),
    })
}

/// What is kept of one more scope spans, whose texts are shared with the one before it where they are the same.
fn next_scope(
    alloc: Global,
    before: &ResourceReading,
    scope: ScopeReading,
    sliced: &mut usize,
) -> Result<ScopeParts, ReadFault>
    ensures exact { Gives scope_parts_view result
        (Ok (kept_scope_texts (scope_reading_view scope))) }
    ensures sliced_within { IfOk result (λ parts.
        sliced.new + texts_size scope.spans.items ≤ sliced.old + scope_size
        (scope_parts_view parts)) }
{
    let parts = scope_parts(alloc, scope, sliced)?;
    let parts = parts.like(before.scopes.last())?;
    Ok(parts)
}

/// Takes one more scope spans.
#[tactic(auto, using(crate::proofs::WithSpans::scope_taken, crate::proofs::WithSpans::scope_left_out))]
fn add_scope_spans(
    alloc: Global,
    reading: &mut ResourceReading,
    text: &TextSlice,
    start: usize,
    end: usize,
    sliced: &mut usize,
) -> Result<(), ReadFault>
    requires order { start ≤ end }
    requires within { end ≤ length text.now }
    ensures exact { Gives (λ taken. resource_reading_view reading.new) result
        (scope_spans_onto (resource_reading_view reading.old) (slice_range text.now start end)) }
    ensures sliced_within { IfOk result (λ taken. sliced.new + scopes_size
        (map scope_parts_view reading.old.scopes.items) ≤ sliced.old + scopes_size
        (map scope_parts_view reading.new.scopes.items)) }
{
    let inside = text.slice(start, end)?;
    let scope = walk_fields(alloc, no_scope(alloc), &inside, RESOURCE_ROOM, sliced)?;
    reading.invalid = reading.invalid.saturating_add(scope.invalid);
    // A scope is kept for its spans alone.
    if scope.spans.is_empty() {
        return Ok(());
    }
    let parts = next_scope(alloc, reading, scope, sliced)?;
    // A list of one takes the room of one: most resources have one scope.
    if reading.scopes.is_empty() {
        reading.scopes.reserve_exact(1)?;
    }
    reading.scopes.push(parts)?;
    Ok(())
}

impl Walked for ResourceReading {
    ghost Data = { KeptResource };

    ghost view = { resource_reading_view };

    ghost step = { kept_resource_step };

    ghost size = { λ k. scopes_size k.scopes };

    fn field(
        &mut self,
        alloc: Global,
        text: &TextSlice,
        end: usize,
        field: Field<'_>,
        sliced: &mut usize,
    ) -> Result<(), ReadFault> {
        if let Value::Bytes(bytes) = field.value {
            let start = end - bytes.len();
            if field.number == 1 {
                let before = mem::replace(&mut self.resource, Found::Missing);
                self.resource = found_again::<Resource>(alloc, before, text, start, end)?;
                return Ok(());
            }
            if field.number == 2 {
                return add_scope_spans(alloc, self, text, start, end, sliced);
            }
            if field.number == 3 {
                self.schema_url = Some(string(text, start, end)?);
                return Ok(());
            }
        }
        Ok(())
    }
}
