//! Texts that are parts of a block.

use bytes::Bytes;
use std::alloc::Global;
use std::mem::size_of;
use std::process::Abort;
use text_slice::TextSlice;

/// The part of a text from one place to another, both at most its end.
fn part(rt: &impl Abort, text: &TextSlice, start: usize, end: usize) -> TextSlice {
    let end = end.min(text.len());
    text.slice(start.min(end), end).expect(rt, "memory")
}

/// Whether a part has these bytes.
fn has_part(rt: &impl Abort, text: &TextSlice, start: usize, end: usize, bytes: &[u8]) -> bool {
    let part = part(rt, text, start, end);
    part.as_slice() == bytes && part.is_empty() == bytes.is_empty()
}

/// Whether a word has its bytes, and a piece and nothing are cut out of it.
fn is_word(rt: &impl Abort, word: &TextSlice) -> bool {
    word.as_slice() == b"of a".as_slice()
        && word.len() == 4
        && has_part(rt, word, 1, 3, b"f ")
        && has_part(rt, word, 4, 4, b"")
}

/// A word cut out of the middle, and a piece cut out of it.
#[test]
fn a_part_is_cut_of_a_part(rt: HostRuntime) {
    let whole = TextSlice::copy_from_slice(rt.alloc(), b"traces of a tenant").expect(&rt, "memory");
    let word = part(&rt, &whole, 7, 11);
    assert!(rt; is_word(&rt, &word));
}

/// Whether a text is equal to a part of another.
fn is_part(rt: &impl Abort, text: &TextSlice, whole: &TextSlice, start: usize) -> bool {
    *text == part(rt, whole, start, start.saturating_add(4))
}

/// Whether a text is equal to the list of its bytes.
fn is_listed(rt: &impl Abort, alloc: Global, text: &TextSlice) -> bool {
    let list = vec![in alloc; b's', b'p', b'a', b'n'].expect(rt, "memory");
    *text == TextSlice::from_vec(alloc, list).expect(rt, "memory")
}

/// Whether the first word is equal to the last one and to the list of its bytes, and not to the one between.
fn are_equal(rt: &impl Abort, alloc: Global, whole: &TextSlice) -> bool {
    let first = part(rt, whole, 0, 4);
    is_part(rt, &first, whole, 12) && is_listed(rt, alloc, &first) && !is_part(rt, &first, whole, 6)
}

/// Texts are equal by their bytes, wherever these lie.
#[test]
fn equal_texts_may_lie_apart(rt: HostRuntime) {
    let whole = TextSlice::copy_from_slice(rt.alloc(), b"span, spam, span").expect(&rt, "memory");
    assert!(rt; are_equal(&rt, rt.alloc(), &whole));
}

/// What of a text is left behind its middle, after the text itself was let go.
fn back_part(rt: &impl Abort, alloc: Global, bytes: &Bytes) -> TextSlice {
    let bytes = bytes.clone().expect(rt, "memory");
    let whole = TextSlice::of(alloc, bytes).expect(rt, "memory");
    let middle = whole.len() / 2;
    let part = whole.slice(middle, whole.len()).expect(rt, "memory");
    part.shared().expect(rt, "memory")
}

/// Whether what is left of a text has its bytes, and holds their block.
fn is_held(rt: &impl Abort, alloc: Global, bytes: &Bytes) -> bool {
    let part = back_part(rt, alloc, bytes);
    part.as_slice() == b"bc".as_slice() && !bytes.is_unique()
}

/// A block is held by any of its parts, and let go with the last.
#[test]
fn a_block_is_held_by_its_parts(rt: HostRuntime) {
    let bytes = Bytes::copy_from_slice(rt.alloc(), b"abc").expect(&rt, "memory");
    assert!(rt; is_held(&rt, rt.alloc(), &bytes) && bytes.is_unique());
}

/// A text's room is what each waiting span, resource and scope takes beside its bytes.
#[test]
fn a_text_takes_sixteen_bytes(rt: HostRuntime) {
    assert!(rt; size_of::<TextSlice>() == 16);
}
