//! A text and its digest.

ghost use Rattle.std.specs.Prelude.{◌≡◌, IfOk, bytes_eq};
ghost use Rattle.text_pool.specs.Digest.{text_digest};

use sha2::{Digest, Sha256};
use std::alloc::{AllocError, Global};
use std::marker::Model;
use std::sync::Arc;
use text_slice::TextSlice;

/// A text with the first 8 bytes of its SHA-256 (FIPS 180-4).
#[derive(Debug, Drop)]
struct DigestedText {
    bytes: TextSlice,
    digest: u64,
}

/// Bytes, and a digest by which different ones are told apart at once: a pointer, and 48 bytes that all who share it
/// have together. The digest is the first 8 bytes of the SHA-256 (FIPS 180-4). Who makes two texts of one digest gains
/// nothing: bytes are compared where digests are equal, and a pool finds each of the two under its own key.
#[derive(Debug, Drop)]
pub struct SharedBytes {
    text: Arc<DigestedText>,
}

impl Model for SharedBytes {
    ghost use Rattle.std.specs.Prelude.{◌≡◌, List, ℕ};
    ghost use Rattle.text_pool.specs.Digest.{text_digest};

    ghost Value = { List ℕ };

    ghost view = { λ t. t.text.value.bytes };

    ghost invariant = { λ t. t.text.value.digest ≡ text_digest t.text.value.bytes };
}

/// The first 8 bytes of the SHA-256, as a big-endian number.
fn digest_of(bytes: &[u8]) -> u64
    ensures { result ≡ text_digest bytes.now }
{
    let whole = Sha256::digest(bytes);
    let mut front = [0; 8];
    front.copy_from_slice(&whole[..8]);
    u64::from_be_bytes(front)
}

impl SharedBytes {
    /// These bytes. It takes time by their length, and is refused where memory is.
    pub fn of(alloc: Global, text: TextSlice) -> Result<SharedBytes, AllocError>
        ensures { IfOk result (λ shared. shared ≡ text) }
    {
        let digest = digest_of(text.as_slice());
        SharedBytes::with_digest(alloc, text, digest)
    }

    /// These bytes, whose digest is known.
    fn with_digest(alloc: Global, bytes: TextSlice, digest: u64) -> Result<SharedBytes, AllocError>
        requires { digest ≡ text_digest bytes }
        ensures { IfOk result (λ shared. shared ≡ bytes) }
    {
        let text = Arc::new(alloc, DigestedText { bytes, digest })?;
        Ok(SharedBytes { text })
    }

    /// The same text: the bytes are shared, and none is looked at. It takes no memory, and is refused only where the
    /// owners can't be counted any more.
    pub fn shared(&self) -> Result<SharedBytes, AllocError>
        ensures { IfOk result (λ text. text ≡ self.now) }
    {
        let text = self.text.clone()?;
        Ok(SharedBytes { text })
    }

    /// The same text in memory of its own, so that no block stays for it. No digest is made.
    pub fn copied(&self, alloc: Global) -> Result<SharedBytes, AllocError>
        ensures { IfOk result (λ text. text ≡ self.now) }
    {
        let bytes = TextSlice::copy_from_slice(alloc, self.text.bytes.as_slice())?;
        SharedBytes::with_digest(alloc, bytes, self.text.digest)
    }

    /// The bytes.
    pub fn bytes(&self) -> &TextSlice
        ensures { result.now ≡ self.now }
    {
        &self.text.bytes
    }

    /// Whether both are the same bytes. Where their digests differ, none is looked at.
    pub fn is_same(&self, other: &SharedBytes) -> bool
        ensures { result ≡ bytes_eq self.now other.now }
    {
        self.text.digest == other.text.digest && self.text.bytes == other.text.bytes
    }

    /// The first 8 bytes of the SHA-256 of the bytes.
    pub(crate) fn digest(&self) -> u64
        ensures { result ≡ text_digest self.now }
    {
        self.text.digest
    }
}
