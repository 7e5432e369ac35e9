//! What is found of a message that its holder may have again.

ghost use Rattle.std.specs.Prelude.{◌≤◌, length};

use text_slice::TextSlice;

/// A message as it stands, with its canonical text.
#[derive(Drop)]
pub struct FoundText {
    pub bytes: TextSlice,
    pub text: TextSlice,
    // Bytes of the text that lie in the body: all of them or none.
    pub sliced: usize,
    ghost counted: { sliced ≤ length text },
}

/// The resource of a resource spans, or the scope of a scope spans.
#[derive(Drop)]
pub enum Found {
    /// It hasn't come.
    Missing,
    /// It stands once.
    Once(FoundText),
    /// It stands again: the texts of all, one behind the other, which merges them.
    Again(Vec<u8>),
}
