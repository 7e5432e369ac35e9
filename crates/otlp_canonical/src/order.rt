//! Spans whose fields stand in another order. The Protocol Buffers encoding allows any, and some clients write fields
//! as they are declared, a span's flags before its name.

ghost use Rattle.std.specs.Prelude.{◌≡◌, ◌<◌, true, false, suc, Ok, IfOk, IfSome, IsTrue};
ghost use Rattle.pb_wire.specs.Grammar.{entry};
ghost use Rattle.otlp_trace.specs.Data.{SpanData};
ghost use Rattle.otlp_canonical.specs.Canonical.{CanonicalCopy};
ghost use Rattle.otlp_canonical.specs.Order.{place_of, last_wins, IsSoundText, WithPlaces, PlaceRead, with_one, with_field, Stands, AllStand};
ghost use Rattle.otlp_trace.specs.Defaults.{no_span};
ghost use Rattle.otlp_read.specs.Value.{span_step};
ghost use Rattle.otlp_read.specs.Walk.{read_with};

use crate::defaults::bare_copy;
use crate::field::is_utf8;
use crate::flags::{flags_are_early, with_flags_last};
use crate::rewritten::rewritten;
use crate::status::put_status;
use crate::text::is_span_text;
use pb_wire::{Field, Value, next_field};
use std::alloc::{AllocError, Global};

/// The place of a span's status.
pub const STATUS: u32 = 15;

/// The place of the fields that a span doesn't know, behind all others.
const NOT_KNOWN: u32 = 17;

/// No field has a place as high.
const NO_PLACE: u32 = 18;

/// The place of the field `dropped_attributes_count`.
const DROPPED_ATTRIBUTES_COUNT: usize = 10;

/// The place of the field `dropped_events_count`.
const DROPPED_EVENTS_COUNT: usize = 12;

/// The place of the field `dropped_links_count`.
const DROPPED_LINKS_COUNT: usize = 14;

/// Where a span's field stands in canonical order: at its number, if the span knows it.
pub fn place(field: Field<'_>) -> u32
    ensures is { result ≡ place_of (entry field.entry) }
    ensures within { result < 18 }
{
    let known = match field.value {
        Value::Varint(_) => matches!(field.number, 6 | 10 | 12 | 14),
        Value::Eight(_) => matches!(field.number, 7 | 8),
        Value::Bytes(_) => matches!(field.number, 1..=5 | 9 | 11 | 13 | 15),
        Value::Four(_) => field.number == 16,
        Value::Group(_) => false,
    };
    if known { field.number } else { NOT_KNOWN }
}

/// Where the fields of one place stand in a text.
#[derive(Clone, Copy)]
struct Run {
    /// Where the first of them begins; as `end` where there is none.
    start: usize,

    /// Where the last of those ends that stand side by side.
    end: usize,

    /// Others stand between them, or they are statuses, which are merged.
    apart: bool,
}

impl Run {
    /// With one more field, behind all that were met.
    #[inline(always)]
    fn and(self, start: usize, end: usize) -> Run
        ensures { result ≡ with_one self start end }
    {
        if self.start == self.end {
            Run { start, end, ..self }
        } else if self.end == start {
            Run { end, ..self }
        } else {
            Run {
                apart: true,
                ..self
            }
        }
    }

    /// With one more field of this place, behind all that were met, or in their place where the last one wins.
    #[inline(always)]
    fn with(self, place: u32, start: usize, end: usize) -> Run
        ensures { result ≡ with_field place self start end }
    {
        if self.start == self.end {
            return self.and(start, end);
        }
        if last_wins(place) {
            Run {
                start,
                end,
                apart: false,
            }
        } else if place == STATUS {
            Run {
                apart: true,
                ..self
            }
        } else {
            self.and(start, end)
        }
    }
}

/// Whether of the fields at this place the last one wins.
#[inline(always)]
fn last_wins(place: u32) -> bool
    ensures { result ≡ last_wins place }
{
    !matches!(place, 9 | 11 | 13 | 15 | 17)
}

/// Whether in canonical order a field at this place may stand behind those of places up to the highest.
fn follows(place: u32, highest: u32) -> bool {
    highest < place || highest == place && matches!(place, 9 | 11 | 13 | NOT_KNOWN)
}

/// Whether the text is a span's fields in canonical order.
pub fn are_ordered(text: &[u8], room: u32) -> bool {
    let depth = 101u32.saturating_sub(room);
    let mut left = text;
    let mut highest = 0u32;
    'fields: while let Ok(Some((field, rest))) = next_field(left, depth) {
        let place = place(field);
        if !follows(place, highest) {
            return false;
        }
        highest = highest.max(place);
        left = rest;
    }
    left.is_empty()
}

/// Whether a span's field is UTF-8, if it has to be.
#[inline(always)]
fn is_sound(field: Field<'_>) -> bool
    ensures { IsTrue result → IsSoundText (entry field.entry) }
{
    match field.value {
        Value::Bytes(bytes) => {
            if !matches!(field.number, 3 | 5) {
                return true;
            }
            is_utf8(bytes)
        }
        Value::Varint(_) | Value::Eight(_) | Value::Four(_) | Value::Group(_) => true,
    }
}

/// Where the fields of a span stand.
#[derive(Drop)]
struct SpanRuns {
    /// Those of each place.
    places: [Run; 18],

    /// They are in order already.
    in_order: bool,
}

/// Where the fields of each place stand. None where the text isn't fields, or where a string isn't UTF-8.
fn runs(text: &[u8], depth: u32) -> Option<SpanRuns>
    ensures { IfSome result (λ runs. AllStand depth text.now runs.places) }
{
    let mut runs = [Run {
        start: 0,
        end: 0,
        apart: false,
    }; 18];
    let mut left = text;
    let mut highest = 0u32;
    let mut in_order = true;
    'fields: while !left.is_empty() {
        let Ok(Some((field, rest))) = next_field(left, depth) else {
            return None;
        };
        let place = place(field);
        if !is_sound(field) {
            return None;
        }
        let start = text.len() - left.len();
        let end = text.len() - rest.len();
        let run = runs[place as usize].with(place, start, end);
        runs[place as usize] = run;
        in_order = in_order && follows(place, highest);
        highest = highest.max(place);
        left = rest;
    }
    Some(SpanRuns {
        places: runs,
        in_order,
    })
}

/// Appends the fields of the text that stand at this place, as they stand. Tells whether the whole text is fields.
fn put_apart(copy: &mut Vec<u8>, text: &[u8], depth: u32, wanted: u32) -> Result<bool, AllocError>
    ensures { IfOk result (λ whole. whole ≡ true
        → WithPlaces depth wanted (suc wanted) text.now copy.old.items copy.new.items) }
{
    let mut left = text;
    'fields: while !left.is_empty() {
        let Ok(Some((field, rest))) = next_field(left, depth) else {
            return Ok(false);
        };
        if place(field) == wanted {
            copy.extend_from_slice(&left[..left.len() - rest.len()])?;
        }
        left = rest;
    }
    Ok(true)
}

/// Appends the fields of the text that stand at this place, of which their run tells how they stand: at once where no
/// others stand between them. Else it tells whether the whole text is fields. Of statuses it puts one that holds the
/// fields of all of them.
fn put_run(
    copy: &mut Vec<u8>,
    text: &[u8],
    depth: u32,
    place: u32,
    run: Run,
) -> Result<bool, AllocError>
    requires stands { Stands depth place text.now run }
    requires within { depth < 102 }
    ensures { IfOk result (λ whole. whole ≡ true
        → PlaceRead depth place text.now copy.old.items copy.new.items) }
{
    if run.apart {
        if place == STATUS {
            let merged = put_status(copy, text, depth)?;
            return Ok(merged);
        }
        let whole = put_apart(copy, text, depth, place)?;
        return Ok(whole);
    }
    copy.extend_from_slice(&text[run.start..run.end])?;
    Ok(true)
}

/// Whether a number stands at the run that is written as 0.
fn is_zero(text: &[u8], run: Run) -> bool {
    run.start < run.end && matches!(text.get(run.end - 1), Some(0))
}

/// Whether one of a span's counts is written as 0.
fn has_zero_count(text: &[u8], runs: &[Run; 18]) -> bool {
    is_zero(text, runs[DROPPED_ATTRIBUTES_COUNT])
        || is_zero(text, runs[DROPPED_EVENTS_COUNT])
        || is_zero(text, runs[DROPPED_LINKS_COUNT])
}

/// A span's text with its fields in canonical order.
#[derive(Drop)]
struct OrderedText {
    /// Nothing, where the fields are in order already.
    copy: Vec<u8>,

    /// They are.
    in_order: bool,

    /// One of the span's counts is written as 0, so that the text isn't canonical.
    zero_count: bool,
}

/// The text with its fields in canonical order, and of those of which the last one wins no others; unless it is so
/// already; of several statuses, one that holds the fields of all. None where it isn't fields, or where a string isn't
/// UTF-8.
fn sorted(alloc: Global, text: &[u8], room: u32) -> Result<Option<OrderedText>, AllocError>
    ensures { IfOk result (λ found. IfSome found (λ sorted. sorted.in_order ≡ false
        → (span : SpanData) → read_with span_step room no_span sorted.copy.items ≡ Ok span
        → read_with span_step room no_span text.now ≡ Ok span)) }
{
    if room == 0 || room > 101 {
        return Ok(None);
    }
    let depth = 101u32.saturating_sub(room);
    let Some(runs) = runs(text, depth) else {
        return Ok(None);
    };
    if runs.in_order {
        return Ok(Some(OrderedText {
            copy: Vec::new(alloc),
            in_order: true,
            zero_count: false,
        }));
    }
    let mut copy = Vec::with_capacity(alloc, text.len())?;
    let mut place = 0u32;
    'places: while place < NO_PLACE {
        if !put_run(&mut copy, text, depth, place, runs.places[place as usize])? {
            return Ok(None);
        }
        place += 1;
    }
    let zero_count = has_zero_count(text, &runs.places);
    Ok(Some(OrderedText {
        copy,
        in_order: false,
        zero_count,
    }))
}

/// What `in_order` gives, by the places of all fields.
#[inline(never)]
fn sorted_copy(alloc: Global, text: &[u8], room: u32) -> Result<Option<Vec<u8>>, AllocError>
    ensures { IfOk result (λ found. IfSome found (λ copy. CanonicalCopy room text.now
        copy.items)) }
{
    let Some(sorted) = sorted(alloc, text, room)? else {
        return Ok(None);
    };
    let OrderedText {
        copy,
        in_order,
        zero_count,
    } = sorted;
    if in_order {
        let anew = rewritten(alloc, text, room)?;
        return Ok(anew);
    }
    if !zero_count && is_span_text(copy.as_slice(), room) {
        return Ok(Some(copy));
    }
    let mut vain = false;
    let found = bare_copy(alloc, copy.as_slice(), room, false, &mut vain)?;
    if found.is_some() || vain {
        return Ok(found);
    }
    let anew = rewritten(alloc, copy.as_slice(), room)?;
    Ok(anew)
}

/// A span's canonical text, where the given text is that but for the order of its fields, for fields of one value that
/// stand twice, for statuses that do, for defaults that are written out, and for the spelling of messages inside the
/// span; with room for so many levels, as in `is_span_text`. Else none, and nothing is said of the text. A text that is
/// canonical already may have none, or a copy.
///
/// The text may have some bytes of room more than it takes: at most 38 for each default, 18 for each length or number,
/// and those of a field that stands twice, in the span or in a message inside it, but for one.
pub fn in_order(alloc: Global, text: &[u8], room: u32) -> Result<Option<Vec<u8>>, AllocError>
    ensures { IfOk result (λ found. IfSome found (λ copy. CanonicalCopy room text.now
        copy.items)) }
{
    if flags_are_early(text) {
        let mut vain = false;
        let found = with_flags_last(alloc, text, room, &mut vain)?;
        if found.is_some() || vain {
            return Ok(found);
        }
    }
    sorted_copy(alloc, text, room)
}

/// What `without_defaults` gives, or else what `in_order` does. Of a text that can't be made canonical no more is made
/// than shows it.
pub fn canonical_copy(alloc: Global, text: &[u8], room: u32) -> Result<Option<Vec<u8>>, AllocError>
    ensures { IfOk result (λ found. IfSome found (λ copy. CanonicalCopy room text.now
        copy.items)) }
{
    let mut vain = false;
    let found = bare_copy(alloc, text, room, false, &mut vain)?;
    if found.is_some() || vain {
        return Ok(found);
    }
    in_order(alloc, text, room)
}
