//! The bytes that texts are cut from.

ghost use Rattle.std.specs.Prelude.{◌≡◌};
ghost use Rattle.text_slice.specs.Block.{bytes_in};

use bytes::Bytes;

/// Bytes that texts share.
#[derive(Debug, Drop)]
pub enum Block {
    /// A body, which others may hold too.
    Body(Bytes),
    /// A text that was written by itself: as `Bytes` it would take one piece of memory more.
    Written(Vec<u8>),
}

impl Block {
    /// The bytes.
    #[inline]
    pub fn as_slice(&self) -> &[u8]
        ensures { result.now ≡ bytes_in self.now }
    {
        match self {
            Block::Body(bytes) => bytes.as_slice(),
            Block::Written(bytes) => bytes.as_slice(),
        }
    }
}
