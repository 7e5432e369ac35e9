//! Spans that are canonical but for defaults that are written out, or lengths longer than they have to be. The Protocol
//! Buffers encoding allows that, and some clients do it: for fields that they always have in hand, such as the parent
//! of a span that has none, and for messages that they write before they know how long these are.

ghost use Rattle.std.specs.Prelude.{◌≡◌, ◌==◌, ◌&&◌, ◌<◌, ◌-◌, ℕ, true, [], ◌++◌, length, Ok, Some, IfOk, IfSome};
ghost use Rattle.pb_wire.specs.Grammar.{entry};
ghost use Rattle.pb_wire.specs.Reading.{next_at};
ghost use Rattle.otlp_canonical.specs.Canonical.{CanonicalCopy};
ghost use Rattle.otlp_canonical.specs.Defaults.{DefaultsAbove, holds_default};
ghost use Rattle.otlp_canonical.specs.Inner.{PutFor};
ghost use Rattle.otlp_canonical.specs.Order.{place_of};
ghost use Rattle.otlp_trace.specs.Defaults.{no_span};
ghost use Rattle.otlp_read.specs.Value.{span_step};
ghost use Rattle.otlp_read.specs.Walk.{read_with};

use crate::attribute::{field_size, is_respelled, put_span_attribute, stays_as_it_is};
use crate::field::short_field;
use crate::inner::{put_message, spare_size};
use crate::rewritten::rewritten_or_vain;
use crate::text::is_span_text;
use crate::unknown::Keeping;
use otlp_trace::{Event, Link, Span, Status};
use pb_wire::{Field, Value, next_field};
use std::alloc::{AllocError, Global};

/// The number of a span's flags, the greatest of a field that it knows.
const FLAGS: u32 = 16;

/// Whether a span's field of one value holds its default.
pub fn is_default(field: Field<'_>) -> bool
    ensures { result ≡ holds_default (entry field.entry) }
{
    match field.value {
        Value::Varint(number) => matches!(field.number, 6 | 10 | 12 | 14) && number == 0,
        Value::Eight(bytes) => matches!(field.number, 7 | 8) && u64::from_le_bytes(bytes) == 0,
        Value::Bytes(bytes) => matches!(field.number, 1..=5) && bytes.is_empty(),
        Value::Four(bytes) => field.number == 16 && u32::from_le_bytes(bytes) == 0,
        Value::Group(_) => false,
    }
}

/// What need not be there of a span's field that holds a message.
#[derive(Clone, Copy)]
enum Spare {
    /// The field is an attribute that is put anew.
    Respelled,

    /// So many bytes of the message: defaults that are written out, and lengths longer than they have to be; and what
    /// the field's own length need not have.
    Bytes(usize),
}

impl Spare {
    /// Whether the field is an attribute that is put anew.
    #[inline(always)]
    fn is_respelled(self) -> bool {
        matches!(self, Spare::Respelled)
    }

    /// How many bytes need not be there of a message that isn't put anew.
    #[inline(always)]
    fn bytes(self) -> usize {
        match self {
            Spare::Respelled => 0,
            Spare::Bytes(bytes) => bytes,
        }
    }
}

/// What need not be there of a span's field, which takes so many bytes, in a span of so many; none where the field
/// stays as it is.
#[inline(always)]
fn spare_inside(field: Field<'_>, size: usize, room: u32, span: usize) -> Option<Spare> {
    let Value::Bytes(text) = field.value else {
        return None;
    };
    let is_long = size > field_size(text.len());
    let spare = match field.number {
        9 if is_respelled(text, is_long, span, room) => return Some(Spare::Respelled),
        9 => 0,
        11 => spare_size::<Event>(text, room),
        13 => spare_size::<Link>(text, room),
        15 => spare_size::<Status>(text, room),
        _ => return None,
    };
    if spare > 0 || is_long {
        Some(Spare::Bytes(spare))
    } else {
        None
    }
}

/// Appends a span's field without what need not be there of its message, behind fields of numbers up to `most`. Tells
/// whether it did: a status that stands again is merged with the one that stands.
#[inline(always)]
fn put_inside(
    alloc: Global,
    copy: &mut Vec<u8>,
    field: Field<'_>,
    spare: Spare,
    most: u32,
    room: u32,
) -> Result<bool, AllocError>
    ensures { (d : ℕ) → IfOk result (λ whole. whole ≡ true
        → PutFor span_step DefaultsAbove room d most (entry field.entry)
        copy.old.items copy.new.items) }
{
    let Value::Bytes(text) = field.value else {
        return Ok(false);
    };
    let whole = match field.number {
        9 => put_span_attribute(alloc, copy, text, spare.is_respelled(), room)?,
        11 => put_message::<Event>(copy, 11, text, spare.bytes(), room)?,
        13 => put_message::<Link>(copy, 13, text, spare.bytes(), room)?,
        15 if most < 15 => put_message::<Status>(copy, 15, text, spare.bytes(), room)?,
        _ => false,
    };
    Ok(whole)
}

/// Appends what a span's field is without its default, or without what need not be there of the message that it holds,
/// behind fields of numbers up to `most`. Tells whether it did: a default may take back what came before it, and behind
/// a greater number no message is canonical.
#[inline(always)]
fn put_bare(
    alloc: Global,
    copy: &mut Vec<u8>,
    field: Field<'_>,
    spare: Spare,
    most: u32,
    room: u32,
) -> Result<bool, AllocError>
    ensures { (d : ℕ) → IfOk result (λ whole. whole ≡ true
        → PutFor span_step DefaultsAbove room d most (entry field.entry)
        copy.old.items copy.new.items) }
{
    if is_default(field) {
        return Ok(most < field.number);
    }
    if field.number < most {
        return Ok(false);
    }
    put_inside(alloc, copy, field, spare, most, room)
}

/// Whether the field stands behind the flags, where numbers up to `most` were met, and has its place before them.
fn is_late(field: Field<'_>, most: u32) -> bool {
    most == FLAGS && field.number < FLAGS && Span::knows(field)
}

/// Whether the field is a span's flags, and these are moved.
#[inline(always)]
fn is_moved(field: Field<'_>, moves_flags: bool) -> bool
    ensures { result ≡ (place_of (entry field.entry) == 16 && moves_flags) }
{
    match field.value {
        Value::Four(_) => field.number == FLAGS && moves_flags,
        _ => false,
    }
}

/// Appends a run of fields that stay, mostly none between two that don't.
#[inline(always)]
fn put_between(copy: &mut Vec<u8>, run: &[u8]) -> Result<(), AllocError>
    ensures { IfOk result (λ u. copy.new.items ≡ copy.old.items ++ run.now) }
{
    if run.is_empty() {
        return Ok(());
    }
    copy.extend_from_slice(run)
}

/// What isn't copied of a text whose fields have gone by.
#[derive(Clone, Copy)]
struct Uncopied<'a> {
    /// What stands behind all that is copied.
    from: &'a [u8],

    /// The flags that are moved behind all else; none where they stay.
    flags: &'a [u8],
}

/// A span's first field, and what becomes of it.
#[derive(Clone, Copy)]
struct Met<'a> {
    /// The field.
    field: Field<'a>,

    /// What need not be there of it, where something is put in its place.
    spare: Option<Spare>,

    /// Whether it is the flags, and these are moved.
    is_moved: bool,

    /// What stands behind it.
    rest: &'a [u8],
}

/// The first field of what is left of a span of so many bytes, and what becomes of it, behind fields of numbers up to
/// `most`. None where no field stands there, or one that stays and is late.
#[inline(always)]
fn first_met(left: &[u8], span: usize, most: u32, room: u32, moves_flags: bool) -> Option<Met<'_>>
    ensures field { IfSome result (λ met.
        next_at (100 - room) left.now ≡ Ok (Some (entry met.field, met.rest.now))) }
    ensures moved { IfSome result (λ met.
        met.is_moved ≡ (place_of (entry met.field) == 16 && moves_flags)) }
    ensures shorter { IfSome result (λ met. length met.rest.now < length left.now) }
{
    let depth = 100u32.saturating_sub(room);
    let Ok(Some((field, rest))) = next_field(left, depth) else {
        return None;
    };
    let spare = match spare_inside(field, left.len() - rest.len(), room, span) {
        None if is_default(field) => Some(Spare::Bytes(0)),
        spare => spare,
    };
    let is_moved = is_moved(field, moves_flags);
    if spare.is_none() && !is_moved && is_late(field, most) {
        return None;
    }
    Some(Met {
        field,
        spare,
        is_moved,
        rest,
    })
}

/// Appends the text without the defaults that stand in it, with short lengths and with attributes respelled that can't
/// be canonical, up to the last of these, and tells what is left to copy. None where a default stands behind a field of
/// its own number or a greater one: it may take back what came before. None as well where the copy can't be canonical,
/// because the text isn't fields, or because its flags stand before others and aren't moved, or are and stand twice.
#[inline(always)]
fn put_fields<'a>(
    alloc: Global,
    copy: &mut Vec<u8>,
    text: &'a [u8],
    room: u32,
    moves_flags: bool,
) -> Result<Option<Uncopied<'a>>, AllocError>
    requires some { 0 < room }
    requires none { copy.now.items ≡ [] }
    ensures { IfOk result (λ found. IfSome found (λ uncopied.
        read_with span_step room no_span text.now
        ≡ read_with span_step room no_span
        (copy.new.items ++ (uncopied.from.now ++ uncopied.flags.now)))) }
{
    // What isn't copied yet begins here.
    let mut from = text;
    let mut flags = &text[..0];
    let mut left = text;
    let mut most = 0u32;
    'fields: while !left.is_empty() {
        let run = &from[..from.len() - left.len()];
        // Most attributes have lengths of one byte, and stay.
        if let Some((attribute, rest)) = short_field(left, 9) {
            if !stays_as_it_is(attribute, text.len(), room - 1) {
                put_between(copy, run)?;
                let field = Field {
                    number: 9,
                    value: Value::Bytes(attribute),
                };
                if !put_bare(alloc, copy, field, Spare::Respelled, most, room - 1)? {
                    return Ok(None);
                }
                from = rest;
            }
            most = most.max(9);
            left = rest;
            continue;
        }
        let Some(met) = first_met(left, text.len(), most, room - 1, moves_flags) else {
            return Ok(None);
        };
        if met.is_moved {
            if !flags.is_empty() {
                return Ok(None);
            }
            put_between(copy, run)?;
            flags = &left[..left.len() - met.rest.len()];
            from = met.rest;
        } else if let Some(spare) = met.spare {
            put_between(copy, run)?;
            if !put_bare(alloc, copy, met.field, spare, most, room - 1)? {
                return Ok(None);
            }
            most = most.max(met.field.number);
            from = met.rest;
        } else {
            most = most.max(met.field.number);
        }
        left = met.rest;
    }
    Ok(Some(Uncopied { from, flags }))
}

/// The text as `put_fields` has it, or none where it is so already.
#[inline(always)]
fn dropped(
    alloc: Global,
    text: &[u8],
    room: u32,
    moves_flags: bool,
) -> Result<Option<Vec<u8>>, AllocError>
    requires some { 0 < room }
    ensures { IfOk result (λ found. IfSome found (λ copy.
        read_with span_step room no_span text.now
        ≡ read_with span_step room no_span copy.items)) }
{
    let mut copy = Vec::with_capacity(alloc, text.len())?;
    let Some(uncopied) = put_fields(alloc, &mut copy, text, room, moves_flags)? else {
        return Ok(None);
    };
    if uncopied.from.len() == text.len() {
        return Ok(None);
    }
    copy.extend_from_slice(uncopied.from)?;
    if uncopied.flags.is_empty() {
        return Ok(Some(copy));
    }
    copy.extend_from_slice(uncopied.flags)?;
    Ok(Some(copy))
}

/// A span's canonical text, where the given text is that but for what `put_fields` leaves out or moves. Where there is
/// none, `vain` tells whether all was done for that in vain that can be: fields in another order make none either.
#[inline(always)]
pub fn bare_copy(
    alloc: Global,
    text: &[u8],
    room: u32,
    moves_flags: bool,
    vain: &mut bool,
) -> Result<Option<Vec<u8>>, AllocError>
    ensures { IfOk result (λ found. IfSome found (λ copy. CanonicalCopy room text.now
        copy.items)) }
{
    if room == 0 {
        return Ok(None);
    }
    let Some(copy) = dropped(alloc, text, room, moves_flags)? else {
        return Ok(None);
    };
    if is_span_text(copy.as_slice(), room) {
        return Ok(Some(copy));
    }
    let anew = rewritten_or_vain(alloc, copy.as_slice(), room, vain)?;
    Ok(anew)
}

/// A span's canonical text, where the given text is that but for defaults that are written out; with room for so many
/// levels, as in `is_span_text`. Else none, and nothing is said of the text.
///
/// A default is looked for in the span and in its status, events and links, and in no attribute. What holds of defaults
/// holds of lengths that are longer than they have to be, of the messages and attributes in the span, and in a span of
/// up to 16 KiB of attributes that show by what they begin with, or in an array or a list that their value is, that
/// they aren't canonical. An event in which there is one of these may begin with its name, and its time behind that.
/// Where one was found, what else isn't canonical in a message inside the span is put anew. The text may have some
/// bytes of room more than it takes: at most 38 for each default, 18 for each length, and those of a key, a value or a
/// value's member that stands in an attribute before another.
pub fn without_defaults(
    alloc: Global,
    text: &[u8],
    room: u32,
) -> Result<Option<Vec<u8>>, AllocError>
    ensures { IfOk result (λ found. IfSome found (λ copy. CanonicalCopy room text.now
        copy.items)) }
{
    let mut vain = false;
    bare_copy(alloc, text, room, false, &mut vain)
}
