//! Texts that are parts of a block of bytes, in little room.
//!
//! Many small texts are cut from one body, and each waits by itself. A [`TextSlice`] is such a text: 16 bytes, the
//! block that all of them share among them, while a `Bytes` has 40. It cuts and shares with no copy, as `Bytes` does,
//! and the block is held as long as one of its texts is. A block of 2^32 bytes or more is refused.
//!
//! It stands on the kit's `bytes`. The rule is this project's own.
#![tactic(auto)]

mod block;
mod text_slice;

pub use text_slice::TextSlice;
