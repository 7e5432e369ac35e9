//! Bodies.

ghost use Rattle.std.specs.Prelude.{◌≡◌, ◌≢◌, ◌<◌, ◌≤◌, ◌+◌, ◌*◌, ◌^◌, ◌⊎◌, ◌++◌, ◌∷◌, [], Ok, IfOk, IfErr, length, map, slice_range};
ghost use Rattle.otlp_trace.specs.Data.{RequestData};
ghost use Rattle.otlp_read.specs.declared.fault.ReadFault.{ReadFault};
ghost use Rattle.otlp_read.specs.Fault.{Gives};
ghost use Rattle.otlp_read.specs.Value.{IsValue, IsFault};
ghost use Rattle.otlp_parts.specs.Texts.{BodyTexts, texts_of, ArePartsOf};
ghost use Rattle.otlp_parts.specs.Kept.{kept_of, kept_body_step, resource_spans_onto, no_texts};
ghost use Rattle.otlp_parts.specs.Parts.{body_parts_view, resource_parts_view};
ghost use Rattle.otlp_parts.specs.Sizes.{body_size};

use crate::copies::copied_body;
use crate::parts::{BodyParts, ResourceParts};
use crate::resource::{no_resource, resource_parts};
use crate::walk::{Walked, walk_fields};
use otlp_read::ReadFault;
use pb_wire::{Field, Value};
use std::alloc::{AllocError, Global};
use text_slice::TextSlice;

/// The levels that a body has room for, its own among them.
const BODY_ROOM: u32 = 101;

/// A body of no fields.
fn no_parts(alloc: Global) -> BodyParts
    ensures { body_parts_view result ≡ no_texts }
{
    BodyParts {
        resources: Vec::new(alloc),
        invalid: 0,
        sliced: 0,
    }
}

/// Takes the parts of one more resource spans.
fn add_parts(body: &mut BodyParts, parts: ResourceParts) -> Result<(), AllocError>
    ensures { IfOk result (λ taken. body_parts_view body.new ≡ record (body_parts_view body.old) {
      resources = map resource_parts_view body.old.resources.items
          ++ resource_parts_view parts ∷ [];
    }) }
{
    let parts = parts.like(body.resources.last())?;
    // A list of one takes the room of one: many bodies have one resource.
    if body.resources.is_empty() {
        body.resources.reserve_exact(1)?;
    }
    body.resources.push(parts)?;
    Ok(())
}

/// Takes one more resource spans.
#[tactic(auto, using(crate::proofs::WithSpans::resource_left_out))]
fn add_resource_spans(
    alloc: Global,
    body: &mut BodyParts,
    text: &TextSlice,
    start: usize,
    end: usize,
    sliced: &mut usize,
) -> Result<(), ReadFault>
    requires order { start ≤ end }
    requires within { end ≤ length text.now }
    ensures exact { Gives (λ taken. body_parts_view body.new) result
        (resource_spans_onto (body_parts_view body.old) (slice_range text.now start end)) }
    ensures sliced_within { IfOk result (λ taken. sliced.new + body_size (body_parts_view body.old)
        ≤ sliced.old + body_size (body_parts_view body.new)) }
{
    let inside = text.slice(start, end)?;
    let resource = walk_fields(alloc, no_resource(alloc), &inside, BODY_ROOM - 1, sliced)?;
    body.invalid = body.invalid.saturating_add(resource.invalid);
    // A resource is kept for its spans alone.
    if resource.scopes.is_empty() {
        return Ok(());
    }
    let parts = resource_parts(alloc, resource, sliced)?;
    Ok(add_parts(body, parts)?)
}

impl Walked for BodyParts {
    ghost Data = { BodyTexts };

    ghost view = { body_parts_view };

    ghost step = { kept_body_step };

    ghost size = { body_size };

    fn field(
        &mut self,
        alloc: Global,
        text: &TextSlice,
        end: usize,
        field: Field<'_>,
        sliced: &mut usize,
    ) -> Result<(), ReadFault> {
        if let Value::Bytes(bytes) = field.value {
            if field.number == 1 {
                let start = end - bytes.len();
                return add_resource_spans(alloc, self, text, start, end, sliced);
            }
        }
        Ok(())
    }
}

/// The parts, where they stand if these make up half of the body, and else copies.
fn body_parts(alloc: Global, body: &TextSlice) -> Result<BodyParts, ReadFault>
    ensures exact { Gives body_parts_view result (kept_of body.now) }
    ensures short { length body.now < 2 ^ 64 }
    ensures sliced { IfOk result (λ parts. parts.sliced ≤ body_size (body_parts_view parts)) }
    ensures pinned { IfOk result (λ parts. (parts.sliced ≡ 0)
        ⊎ (length body.now ≤ 2 * parts.sliced)) }
{
    let size = body.len();
    let mut sliced = 0;
    let mut parts = walk_fields(alloc, no_parts(alloc), body, BODY_ROOM, &mut sliced)?;
    // Without slices nothing holds the body.
    if sliced == 0 || sliced >= size.saturating_sub(sliced) {
        parts.sliced = sliced;
        return Ok(parts);
    }
    let copies = copied_body(alloc, parts)?;
    Ok(copies)
}

/// The parts of a body. Where slices of it make up less than half of it, all parts are copies. After a fault, or where
/// memory is refused, nothing is left of what was read.
pub fn read_parts(alloc: Global, body: &TextSlice) -> Result<BodyParts, ReadFault>
    // The parts are those of the body's value.
    ensures value { IfOk result (λ parts. ArePartsOf body.now (body_parts_view parts)) }

    // A body with a value has its parts read, unless memory runs out.
    ensures only { (v : RequestData) → IsValue body.now v
        → Gives body_parts_view result (Ok (texts_of v)) }

    // A fault stands in the body.
    ensures fault { IfErr result (λ fault. fault ≢ ReadFault.OutOfMemory → IsFault body.now fault) }

    // Slices hold the whole body, so there are none, or they are at least half of it.
    ensures sliced { IfOk result (λ parts. parts.sliced ≤ body_size (body_parts_view parts)) }
    ensures pinned { IfOk result (λ parts. (parts.sliced ≡ 0)
        ⊎ (length body.now ≤ 2 * parts.sliced)) }
{
    body_parts(alloc, body)
}
