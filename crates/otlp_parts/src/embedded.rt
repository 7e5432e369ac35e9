//! Messages that are the first field of another, their holder, and are merged where they stand again.

ghost use Rattle.std.specs.Prelude.{◌≡◌, ◌≤◌, ◌+◌, true, Ok, Some, length, slice_range, option_map, is_ok, IsTrue, IfOk, IfSome};
ghost use Rattle.otlp_read.specs.Fault.{Gives};
ghost use Rattle.otlp_parts.specs.Embedded.{Embedding, text_of, message_in, message_of, another, HasText, MergeLaws};
ghost use Rattle.otlp_parts.specs.Found.{found_view, IsFound};
ghost use Rattle.otlp_parts.specs.Sizes.{text_size};

use crate::found::{Found, FoundText};
use otlp_read::ReadFault;
use std::alloc::{AllocError, Global};
use text_slice::TextSlice;

/// A message that its holder may have again: a resource, or an instrumentation scope.
pub trait Embedded: Drop {
    ghost Data: { Type 0 };

    ghost embedding: { Embedding Data };

    ghost view: { Self → Data };

    /// Whether these bytes are found to be a message's canonical text.
    fn is_text(bytes: &[u8]) -> bool
        ensures { IsTrue result → HasText embedding bytes.now bytes.now };

    /// The message's canonical text, made of the bytes without the message, if they are one of which that can be made.
    fn copied(alloc: Global, bytes: &[u8]) -> Result<Option<Vec<u8>>, AllocError>
        ensures { IfOk result (λ found. IfSome found (λ copy. HasText embedding bytes.now
            copy.items)) };

    /// The message that the bytes are.
    fn read(alloc: Global, bytes: &[u8]) -> Result<Self, ReadFault>
        ensures exact { Gives view result (message_in embedding bytes.now) };

    /// Its canonical text.
    fn written(&self, alloc: Global) -> Result<TextSlice, ReadFault>
        ensures exact { Gives (λ text. text) result (Ok (text_of embedding (view self.now))) };

    /// Whether one that stands again can be read doesn't depend on the one before.
    fn merges()
        ensures { MergeLaws embedding };
}

/// The canonical text of a message that isn't canonical, made of its bytes, or else written of what is read.
fn text_anew<M: Embedded>(alloc: Global, bytes: &[u8]) -> Result<TextSlice, ReadFault>
    ensures exact { Gives (λ text. message_of M.embedding bytes.now) result
        (message_in M.embedding bytes.now) }
    ensures has { IfOk result (λ text. HasText M.embedding bytes.now text) }
{
    if let Some(copy) = M::copied(alloc, bytes)? {
        let text = TextSlice::from_vec(alloc, copy)?;
        return Ok(text);
    }
    let message = M::read(alloc, bytes)?;
    let text = message.written(alloc)?;
    Ok(text)
}

/// A message as it stands.
fn first<M: Embedded>(
    alloc: Global,
    text: &TextSlice,
    start: usize,
    end: usize,
) -> Result<FoundText, ReadFault>
    requires order { start ≤ end }
    requires within { end ≤ length text.now }
    ensures exact { Gives (λ first. message_of M.embedding first.bytes) result
        (message_in M.embedding (slice_range text.now start end)) }
    ensures has { IfOk result (λ first. HasText M.embedding first.bytes first.text) }
{
    let bytes = text.slice(start, end)?;
    if M::is_text(bytes.as_slice()) {
        let sliced = bytes.len();
        let text = bytes.shared()?;
        return Ok(FoundText {
            bytes,
            text,
            sliced,
        });
    }
    let text = text_anew::<M>(alloc, bytes.as_slice())?;
    Ok(FoundText {
        bytes,
        text,
        sliced: 0,
    })
}

/// Whether the bytes are a message, or else their fault.
fn look_at<M: Embedded>(alloc: Global, bytes: &[u8]) -> Result<(), ReadFault>
    ensures exact { Gives (λ looked. message_of M.embedding bytes.now) result
        (message_in M.embedding bytes.now) }
{
    if M::is_text(bytes) {
        return Ok(());
    }
    if let Some(_copy) = M::copied(alloc, bytes)? {
        return Ok(());
    }
    let _message = M::read(alloc, bytes)?;
    Ok(())
}

/// The texts of the messages that came, one behind the other, and one more.
fn with_another<M: Embedded>(
    alloc: Global,
    texts: Vec<u8>,
    bytes: &[u8],
) -> Result<Vec<u8>, ReadFault>
    requires sound { is_ok (message_in M.embedding texts.items) ≡ true }
    ensures exact { Gives (λ more. Some (message_of M.embedding more.items)) result
        (another M.embedding (Some (message_of M.embedding texts.items)) bytes.now) }
    ensures sound { IfOk result (λ more. is_ok (message_in M.embedding more.items) ≡ true) }
{
    M::merges();
    // Its fault comes before those of fields behind it, so it is looked for at once.
    look_at::<M>(alloc, bytes)?;
    let mut more = texts;
    more.extend_from_slice(bytes)?;
    Ok(more)
}

/// The text of the one message that came.
fn one_text<M: Embedded>(alloc: Global, bytes: &[u8]) -> Result<Vec<u8>, ReadFault>
    requires sound { is_ok (message_in M.embedding bytes.now) ≡ true }
    ensures exact { Gives (λ text. message_of M.embedding text.items) result
        (Ok (message_of M.embedding bytes.now)) }
    ensures sound { IfOk result (λ text. is_ok (message_in M.embedding text.items) ≡ true) }
{
    let mut text = Vec::with_capacity(alloc, bytes.len())?;
    text.extend_from_slice(bytes)?;
    Ok(text)
}

/// What was found, and one more message that is merged into it.
pub fn found_again<M: Embedded>(
    alloc: Global,
    before: Found,
    text: &TextSlice,
    start: usize,
    end: usize,
) -> Result<Found, ReadFault>
    requires order { start ≤ end }
    requires within { end ≤ length text.now }
    requires found { IsFound M.embedding before }
    ensures exact { Gives (found_view M.embedding) result
        (another M.embedding (found_view M.embedding before) (slice_range text.now start end)) }
    ensures found { IfOk result (IsFound M.embedding) }
{
    match before {
        Found::Missing => {
            let first = first::<M>(alloc, text, start, end)?;
            Ok(Found::Once(first))
        }
        Found::Once(first) => {
            let one = one_text::<M>(alloc, first.bytes.as_slice())?;
            let several = with_another::<M>(alloc, one, &text.as_slice()[start..end])?;
            Ok(Found::Again(several))
        }
        Found::Again(others) => {
            let several = with_another::<M>(alloc, others, &text.as_slice()[start..end])?;
            Ok(Found::Again(several))
        }
    }
}

/// The canonical text of several messages, which are merged by having their texts one behind the other.
fn merged_text<M: Embedded>(alloc: Global, texts: Vec<u8>) -> Result<TextSlice, ReadFault>
    requires sound { is_ok (message_in M.embedding texts.items) ≡ true }
    ensures exact { Gives (λ text. text) result
        (Ok (text_of M.embedding (message_of M.embedding texts.items))) }
{
    if M::is_text(texts.as_slice()) {
        let text = TextSlice::from_vec(alloc, texts)?;
        return Ok(text);
    }
    text_anew::<M>(alloc, texts.as_slice())
}

/// The canonical text of what was found.
pub fn found_text<M: Embedded>(
    alloc: Global,
    found: Found,
    sliced: &mut usize,
) -> Result<Option<TextSlice>, ReadFault>
    requires found { IsFound M.embedding found }
    ensures exact { Gives (λ text. text) result
        (Ok (option_map (text_of M.embedding) (found_view M.embedding found))) }
    ensures sliced_within { IfOk result (λ text. sliced.new ≤ sliced.old + text_size text) }
{
    match found {
        Found::Missing => Ok(None),
        Found::Once(first) => {
            *sliced = sliced.saturating_add(first.sliced);
            Ok(Some(first.text))
        }
        Found::Again(texts) => {
            let text = merged_text::<M>(alloc, texts)?;
            Ok(Some(text))
        }
    }
}
