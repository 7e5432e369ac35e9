//! Spans of a body.

ghost use Rattle.std.specs.Prelude.{◌≡◌, ◌≤◌, ◌+◌, ◌==◌, length, slice_range, IsTrue, IfOk, IfSome};
ghost use Rattle.std.specs.List.{list_all};
ghost use Rattle.otlp_trace.specs.View.{span_view};
ghost use Rattle.otlp_read.specs.Fault.{Gives};
ghost use Rattle.otlp_canonical.specs.Canonical.{CanonicalSpan, CanonicalCopy};
ghost use Rattle.span_pool.specs.Ids.{is_id};
ghost use Rattle.otlp_parts.specs.Texts.{is_valid_span};
ghost use Rattle.otlp_parts.specs.Kept.{kept_span};
ghost use Rattle.otlp_parts.specs.ReadAs.{span_of};
ghost use Rattle.otlp_parts.specs.Sizes.{text_size};

use otlp_canonical::{canonical_copy, is_span_text};
use otlp_read::{ReadFault, read_span};
use otlp_trace::{Span, write_span};
use span_pool::read_spans_are_viewed;
use span_view::SpanRef;
use std::alloc::Global;
use text_slice::TextSlice;

/// The levels that a span in a body has room for, its own among them.
const SPAN_ROOM: u32 = 98;

/// The most bytes of a text for which room is made before it is written: what it doesn't fill is held with it.
const TEXT_ROOM: usize = 512;

/// How much room to make for the canonical text of a span of so many bytes.
fn room_for(size: usize) -> usize {
    if size <= TEXT_ROOM { size } else { 0 }
}

/// Whether all bytes are zero.
#[tactic(auto, using(crate::proofs::Ids::ends_otherwise))]
fn is_zero(bytes: &[u8]) -> bool
    ensures { result ≡ list_all (λ byte. byte == 0) bytes.now }
{
    // An id that was a smaller number begins with zeros, and ends otherwise.
    if let Some((last, _)) = bytes.split_last() {
        if *last != 0 {
            return false;
        }
    }
    for byte in bytes {
        if *byte != 0 {
            return false;
        }
    }
    true
}

/// Whether the bytes are an id of this size.
fn is_id(bytes: &[u8], size: usize) -> bool
    ensures { result ≡ is_id size bytes.now }
{
    bytes.len() == size && !is_zero(bytes)
}

/// Whether a span's ids are as they have to be.
fn is_valid(span: &Span) -> bool
    ensures { result ≡ is_valid_span (span_view span.now) }
{
    is_id(span.trace_id.as_slice(), 16) && is_id(span.span_id.as_slice(), 8)
}

/// Whether the ids of the span of a canonical text are as they have to be.
fn is_valid_text(text: &[u8]) -> bool
    requires canonical { CanonicalSpan 98 text.now }
    ensures { result ≡ is_valid_span (span_of text.now) }
{
    read_spans_are_viewed();
    let view = SpanRef::of(text, &[]);
    is_id(view.trace_id(), 16) && is_id(view.span_id(), 8)
}

/// A canonical text, none where its span isn't valid.
fn copied_part(alloc: Global, copy: Vec<u8>) -> Result<Option<TextSlice>, ReadFault>
    requires canonical { CanonicalSpan 98 copy.items }
    ensures exact { Gives (λ part. part) result (kept_span copy.items) }
{
    if !is_valid_text(copy.as_slice()) {
        return Ok(None);
    }
    let part = TextSlice::from_vec(alloc, copy)?;
    Ok(Some(part))
}

/// The canonical text of a span that isn't canonical, none where it isn't valid: a copy in order and without the
/// defaults that are written in it, or written of what is read.
fn written_part(alloc: Global, text: &[u8]) -> Result<Option<TextSlice>, ReadFault>
    ensures { Gives (λ part. part) result (kept_span text.now) }
{
    if let Some(copy) = canonical_copy(alloc, text, SPAN_ROOM)? {
        let part = copied_part(alloc, copy)?;
        return Ok(part);
    }
    let span = read_span(alloc, text, SPAN_ROOM)?;
    if !is_valid(&span) {
        return Ok(None);
    }
    let mut written = Vec::with_capacity(alloc, room_for(text.len()))?;
    write_span(alloc, &mut written, &span)?;
    let part = TextSlice::from_vec(alloc, written)?;
    Ok(Some(part))
}

/// A span's canonical text, none where the span isn't valid: where it stands, or one that is made.
pub fn span_part(
    alloc: Global,
    text: &TextSlice,
    start: usize,
    end: usize,
    sliced: &mut usize,
) -> Result<Option<TextSlice>, ReadFault>
    requires order { start ≤ end }
    requires within { end ≤ length text.now }
    ensures exact { Gives (λ part. part) result (kept_span (slice_range text.now start end)) }
    ensures sliced_within { IfOk result (λ part. sliced.new ≤ sliced.old + text_size part) }
{
    let bytes = &text.as_slice()[start..end];
    if !is_span_text(bytes, SPAN_ROOM) {
        return written_part(alloc, bytes);
    }
    if !is_valid_text(bytes) {
        return Ok(None);
    }
    *sliced = sliced.saturating_add(bytes.len());
    let part = text.slice(start, end)?;
    Ok(Some(part))
}
