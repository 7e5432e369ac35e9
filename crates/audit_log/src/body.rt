//! Bodies whose spans' texts are packed.

ghost use Rattle.std.specs.Prelude.{◌≡◌, ◌≤◌, length, map, IfOk};
ghost use Rattle.std.specs.List.{flat_map};
ghost use Rattle.prepared_body.specs.declared.noted.NotedSpan.{NotedSpan};
ghost use Rattle.audit_log.specs.Bodies.{without_text, spans_from, texts_size};

use crate::origins::{copies_of, shared};
use packed_text::PackedText;
use prepared_body::{NotedSpan, Prepared, SpanOrigin};
use std::alloc::{AllocError, Global};
use std::marker::Model;
use std::sync::ArcSlice;
use tail_policy::TraceNote;
use tail_settings::PolicySpec;
use text_slice::TextSlice;

/// A valid span with its note, but for its text.
#[derive(Clone, Copy)]
pub struct PackedSpan {
    trace: [u8; 16],
    note: TraceNote,
    // Which of the body's origins is its.
    origin: u32,
    // How long its text is, in bytes.
    length: u32,
}

/// A prepared body, with the texts of its spans packed. It holds nothing of the body.
#[derive(Drop)]
pub struct PackedBody {
    tenant: u32,
    policies: ArcSlice<PolicySpec>,
    origins: Vec<SpanOrigin>,
    spans: Vec<PackedSpan>,
    // The spans' texts, one after the other.
    texts: PackedText,
    invalid: u64,
}

impl Model for PackedBody {
    ghost use Rattle.std.specs.Prelude.{◌≤◌, length, map};
    ghost use Rattle.std.specs.Arc.{arc_slice_items};
    ghost use Rattle.tail_settings.specs.Policy.{policy_view};
    ghost use Rattle.prepared_body.specs.Arrivals.{arrivals_in, AreGrouped};
    ghost use Rattle.prepared_body.specs.Prepared.{PreparedData, AreReady};
    ghost use Rattle.audit_log.specs.Bodies.{spans_from, texts_size};

    ghost Value = { PreparedData };

    ghost view = { λ b. record {
      tenant = b.tenant;
      policies = map policy_view (arc_slice_items b.policies);
      arrivals = arrivals_in b.origins.items (spans_from b.texts b.spans.items);
      invalid = b.invalid;
    } };

    ghost invariant = { λ b.
        AreReady (map policy_view (arc_slice_items b.policies)) b.origins.items
        (spans_from b.texts b.spans.items)
        × (length b.origins.items ≤ length (spans_from b.texts b.spans.items))
        × AreGrouped b.origins.items
        × (texts_size b.spans.items ≤ length b.texts) };
}

/// The span but for its text. Where its origin or the text's length is 2^32 or more, it is refused as memory is.
fn packed(span: &NotedSpan) -> Result<PackedSpan, AllocError>
    ensures { IfOk result (λ packed. packed ≡ without_text span.now) }
{
    let Ok(origin) = u32::try_from(span.origin) else {
        return Err(AllocError);
    };
    let Ok(length) = u32::try_from(span.text.len()) else {
        return Err(AllocError);
    };
    Ok(PackedSpan {
        trace: span.trace,
        note: span.note,
        origin,
        length,
    })
}

/// The spans but for their texts.
fn all_packed(alloc: Global, spans: &[NotedSpan]) -> Result<Vec<PackedSpan>, AllocError>
    ensures { IfOk result (λ packed. packed.items ≡ map without_text spans.now) }
{
    let mut all = Vec::with_capacity(alloc, spans.len())?;
    for span in spans {
        all.push(packed(span)?)?;
    }
    Ok(all)
}

/// The spans' texts, one after the other.
fn texts_of(alloc: Global, spans: &[NotedSpan]) -> Result<Vec<u8>, AllocError>
    ensures { IfOk result (λ texts. texts.items ≡ flat_map (λ (s : NotedSpan). s.text) spans.now) }
{
    let mut texts = Vec::new(alloc);
    for span in spans {
        texts.extend_from_slice(span.text.as_slice())?;
    }
    Ok(texts)
}

/// The spans' texts, packed as one.
fn packed_texts(alloc: Global, spans: &[NotedSpan]) -> Result<PackedText, AllocError>
    ensures { IfOk result (λ packed. packed ≡ flat_map (λ (s : NotedSpan). s.text) spans.now) }
{
    let texts = texts_of(alloc, spans)?;
    PackedText::of(alloc, texts.as_slice())
}

/// The spans with their texts, which are cut from these.
fn with_texts(
    alloc: Global,
    texts: Vec<u8>,
    spans: &[PackedSpan],
) -> Result<Vec<NotedSpan>, AllocError>
    requires { texts_size spans.now ≤ length texts.items }
    ensures { IfOk result (λ all. all.items ≡ spans_from texts.items spans.now) }
{
    let block = TextSlice::from_vec(alloc, texts)?;
    let mut all = Vec::with_capacity(alloc, spans.len())?;
    let mut start = 0;
    for span in spans {
        let end = start + span.length as usize;
        let text = block.slice(start, end)?;
        all.push(NotedSpan {
            trace: span.trace,
            text,
            origin: span.origin as usize,
            note: span.note,
        })?;
        start = end;
    }
    Ok(all)
}

/// The spans with their texts, in memory of their own.
fn unpacked(
    alloc: Global,
    texts: &PackedText,
    spans: &[PackedSpan],
) -> Result<Vec<NotedSpan>, AllocError>
    requires { texts_size spans.now ≤ length texts.now }
    ensures { IfOk result (λ all. all.items ≡ spans_from texts.now spans.now) }
{
    let texts = texts.unpacked(alloc)?;
    with_texts(alloc, texts, spans)
}

impl PackedBody {
    /// Packs a body that was prepared. The policies are shared with it; what stands round spans is copied.
    pub fn of(alloc: Global, prepared: &Prepared) -> Result<PackedBody, AllocError>
        ensures { IfOk result (λ packed. packed ≡ prepared.now) }
    {
        let (origins, noted) = prepared.parts();
        let origins = copies_of(alloc, origins)?;
        let spans = all_packed(alloc, noted)?;
        let texts = packed_texts(alloc, noted)?;
        let policies = prepared.policies().clone()?;
        Ok(PackedBody {
            tenant: prepared.tenant(),
            policies,
            origins,
            spans,
            texts,
            invalid: prepared.invalid(),
        })
    }

    /// The body as it was prepared, in memory of its own.
    pub fn prepared(&self, alloc: Global) -> Result<Prepared, AllocError>
        ensures { IfOk result (λ prepared. prepared ≡ self.now) }
    {
        let spans = unpacked(alloc, &self.texts, self.spans.as_slice())?;
        let origins = shared(alloc, self.origins.as_slice())?;
        let policies = self.policies.clone()?;
        Ok(Prepared::of(self.tenant, policies, origins, spans, self.invalid))
    }
}
