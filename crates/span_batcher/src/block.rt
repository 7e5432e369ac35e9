//! Spans of a batch that follow each other with the same keys.

ghost use Rattle.std.specs.Prelude.{◌≡◌, ◌+◌, ◌≤◌, ◌++◌, length, map, take, flat_map, IfOk, OnOk};
ghost use Rattle.std.specs.List.{AllByRecursion};
ghost use Rattle.otlp_trace.specs.Text.{bytes_field, repeated};
ghost use Rattle.span_batcher.specs.Blocks.{own_texts, spread, with_text, capped};

use crate::size::field_size;
use otlp_trace::put_bytes_field;
use span_pool::StoredSpan;
use std::alloc::{AllocError, Global};
use std::marker::Model;

/// The number of `spans` in a `ScopeSpans`, and the tag of such a field.
const SPANS: u32 = 2;

const SPANS_TAG: u8 = 0x12;

/// The first of the spans, the others, and how many bytes all of them take in a `ScopeSpans`.
#[derive(Drop)]
pub struct Block<'a> {
    first: &'a StoredSpan,
    others: &'a [&'a StoredSpan],
    bytes: usize,
}

impl<'a> Model for Block<'a> {
    ghost use Rattle.std.specs.Prelude.{length, ◌∷◌, ◌≡◌, map};
    ghost use Rattle.otlp_trace.specs.Text.{repeated};
    ghost use Rattle.span_batcher.specs.Blocks.{BlockData, capped};

    ghost Value = { BlockData };

    ghost view = { λ b. record {
      first = b.first.now;
      others = map (λ span. span.now.text) b.others.now;
    } };

    ghost invariant = { λ b. b.bytes ≡ capped
        (length (repeated 2 (λ text. text) (b.first.now.text ∷ map (λ span. span.now.text) b.others.now))) };
}

/// How many bytes the spans take in a `ScopeSpans`, and so many more.
fn spans_size(more: usize, spans: &[&StoredSpan]) -> usize
    ensures { result ≡ capped (more + length (repeated 2 (λ span. span.now.text) spans.now)) }
{
    let mut size = more;
    for span in spans {
        size = size.saturating_add(field_size(span.text().as_slice().len()));
    }
    size
}

/// Appends a span's text as a field of a `ScopeSpans`. Most have a length of two bytes, which is put at once with the
/// tag.
#[inline(always)]
fn put_span(out: &mut Vec<u8>, text: &[u8]) -> Result<(), AllocError>
    ensures { OnOk result (out.new.items ≡ out.old.items ++ bytes_field 2 text.now) }
{
    let size = text.len();
    if size < 0x80 || size >= 0x4000 {
        return put_bytes_field(out, SPANS, text);
    }
    let low = (size % 0x80 + 0x80) as u8;
    let high = (size / 0x80) as u8;
    out.extend_from_slice(&[SPANS_TAG, low, high])?;
    out.extend_from_slice(text)?;
    Ok(())
}

/// Appends the spans, each as a field of a `ScopeSpans`.
fn put_spans(out: &mut Vec<u8>, spans: &[&StoredSpan]) -> Result<(), AllocError>
    ensures { OnOk result (out.new.items ≡ out.old.items ++ repeated 2 (λ span. span.now.text)
        spans.now) }
{
    for span in spans {
        put_span(out, span.text().as_slice())?;
    }
    Ok(())
}

impl<'a> Block<'a> {
    /// The block of a span and of those behind it, which have its keys.
    fn of(first: &'a StoredSpan, others: &'a [&'a StoredSpan]) -> Block<'a>
        ensures first { result.first ≡ first.now }
        ensures others { result.others ≡ map (λ span. span.now.text) others.now }
    {
        let bytes = spans_size(field_size(first.text().as_slice().len()), others);
        Block {
            first,
            others,
            bytes,
        }
    }

    /// The first of its spans.
    pub fn first_span(&self) -> &StoredSpan
        ensures { result.now ≡ self.now.first }
    {
        self.first
    }

    /// How many bytes its spans take in a `ScopeSpans`.
    pub fn bytes(&self) -> usize
        ensures { result ≡ capped (length (repeated 2 (λ text. text) (own_texts self.now))) }
    {
        self.bytes
    }

    /// Appends its spans, each as a field of a `ScopeSpans`.
    pub fn put(&self, out: &mut Vec<u8>) -> Result<(), AllocError>
        ensures { OnOk result (out.new.items ≡ out.old.items ++ repeated 2 (λ text. text)
            (own_texts self.now)) }
    {
        put_span(out, self.first.text().as_slice())?;
        put_spans(out, self.others)
    }
}

/// How many of the spans in front have the keys of the one before them.
fn like(first: &StoredSpan, spans: &[&StoredSpan]) -> usize
    ensures within { result ≤ length spans.now }
    ensures alike { AllByRecursion (λ span. span.now ≡ with_text first.now span.now.text)
        (take result spans.now) }
{
    let mut count = 0;
    while count < spans.len() && spans[count].is_like(first) {
        count += 1;
    }
    count
}

/// The spans by blocks.
pub fn blocks_of<'a>(
    alloc: Global,
    spans: &'a [&'a StoredSpan],
) -> Result<Vec<Block<'a>>, AllocError>
    ensures { IfOk result (λ blocks. flat_map spread blocks.items ≡ map (λ span. span.now)
        spans.now) }
{
    let mut blocks = Vec::new(alloc);
    let mut start = 0;
    while start < spans.len() {
        let first = spans[start];
        let (_, behind) = spans.split_at(start + 1);
        let count = like(first, behind);
        let (others, _) = behind.split_at(count);
        blocks.push(Block::of(first, others))?;
        start += 1 + count;
    }
    Ok(blocks)
}
