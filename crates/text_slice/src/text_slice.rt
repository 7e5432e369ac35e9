//! A part of a block of bytes.

ghost use Rattle.std.specs.Prelude.{◌≡◌, ◌≤◌, ◌==◌, ◌<◌, ◌^◌, IfOk, length, slice_range, nat_eq};
ghost use Rattle.std.specs.Cmp.Lexicographic.{pointwise, nat_list_eq_equiv};
ghost use Rattle.std.specs.Cmp.{partial_equiv_from_equiv};
ghost use Rattle.text_slice.specs.Block.{bytes_in};

use crate::block::Block;
use bytes::Bytes;
use std::alloc::{AllocError, Global};
use std::marker::Model;
use std::sync::Arc;

/// Bytes that lie in a block which several texts may share. It takes 16 bytes, and holds the whole block.
#[derive(Debug, Drop)]
pub struct TextSlice {
    block: Arc<Block>,
    // Where the text begins and ends in the block, in bytes.
    start: u32,
    end: u32,
}

impl Model for TextSlice {
    ghost use Rattle.std.specs.Prelude.{◌≤◌, ◌<◌, ◌^◌, List, ℕ, length, slice_range};
    ghost use Rattle.text_slice.specs.Block.{bytes_in};

    ghost Value = { List ℕ };

    ghost view = { λ t. slice_range (bytes_in t.block.value) t.start t.end };

    ghost invariant = { λ t. (t.start ≤ t.end) × (t.end ≤ length (bytes_in t.block.value))
        × (t.end < 2 ^ 32) };
}

impl TextSlice {
    /// All of these bytes. It is refused where memory is, or where they are 2^32 or more.
    fn whole(alloc: Global, block: Block) -> Result<TextSlice, AllocError>
        ensures { IfOk result (λ text. text ≡ bytes_in block) }
    {
        let Ok(end) = u32::try_from(block.as_slice().len()) else {
            return Err(AllocError);
        };
        let block = Arc::new(alloc, block)?;
        Ok(TextSlice {
            block,
            start: 0,
            end,
        })
    }

    /// These bytes, as a block of their own. It copies none, and is refused where memory is or where they are 2^32 or
    /// more.
    pub fn of(alloc: Global, bytes: Bytes) -> Result<TextSlice, AllocError>
        ensures { IfOk result (λ text. text ≡ bytes) }
    {
        TextSlice::whole(alloc, Block::Body(bytes))
    }

    /// The same of a list, whose room is kept.
    pub fn from_vec(alloc: Global, bytes: Vec<u8>) -> Result<TextSlice, AllocError>
        ensures { IfOk result (λ text. text ≡ bytes.items) }
    {
        TextSlice::whole(alloc, Block::Written(bytes))
    }

    /// A copy of these bytes.
    pub fn copy_from_slice(alloc: Global, bytes: &[u8]) -> Result<TextSlice, AllocError>
        ensures { IfOk result (λ text. text ≡ bytes.now) }
    {
        let copy = Vec::from_slice(alloc, bytes)?;
        TextSlice::from_vec(alloc, copy)
    }

    /// The part of this text from `start` to before `end`, which shares the block. It takes no memory, and is refused
    /// only where the owners of the block can't be counted any more.
    pub fn slice(&self, start: usize, end: usize) -> Result<TextSlice, AllocError>
        requires order { start ≤ end }
        requires within { end ≤ length self.now }
        ensures { IfOk result (λ part. part ≡ slice_range self.now start end) }
    {
        let block = self.block.clone()?;
        Ok(TextSlice {
            block,
            start: self.start + start as u32,
            end: self.start + end as u32,
        })
    }

    /// The same text, which shares the block. It takes no memory, and is refused as `slice` is.
    pub fn shared(&self) -> Result<TextSlice, AllocError>
        ensures { IfOk result (λ text. text ≡ self.now) }
    {
        let block = self.block.clone()?;
        Ok(TextSlice {
            block,
            start: self.start,
            end: self.end,
        })
    }

    /// The bytes.
    #[inline]
    pub fn as_slice(&self) -> &[u8]
        ensures { result.now ≡ self.now }
    {
        let start = self.start as usize;
        let end = self.end as usize;
        &self.block.as_slice()[start..end]
    }

    /// How many bytes it has.
    #[inline]
    pub fn len(&self) -> usize
        ensures value { result ≡ length self.now }
        ensures bound { result < 2 ^ 32 }
    {
        (self.end - self.start) as usize
    }

    /// Whether it has none.
    pub fn is_empty(&self) -> bool
        ensures { result ≡ (length self.now == 0) }
    {
        self.start == self.end
    }
}

impl PartialEq for TextSlice {
    ghost eq = { pointwise nat_eq };

    ghost laws = { partial_equiv_from_equiv nat_list_eq_equiv };

    fn eq(&self, other: &TextSlice) -> bool {
        self.as_slice() == other.as_slice()
    }
}

impl Eq for TextSlice {
    ghost laws = { nat_list_eq_equiv };
}
