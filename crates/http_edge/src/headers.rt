//! The fields of a head, in one block.
ghost use Rattle.std.specs.Prelude.{◌≡◌, ◌≤◌, ◌++◌, ◌∷◌, [], length, map, All, IfOk, OnOk, OnErr};
ghost use Rattle.httparse.specs.Spans.{IsHeaderWithin, header_bytes};

use httparse::spans::{HeaderSpan, Span};
use std::alloc::{AllocError, Global};
use std::marker::Model;

/// The fields of a message, in their order: of each its name, as it was written, and its value, without the blanks
/// around it. Names are to be compared in any case. Whatever their number, they lie in one block.
#[derive(Debug, Drop)]
pub struct Headers {
    // What the fields lie in: a whole head, or names and values alone.
    text: Vec<u8>,
    spans: Vec<HeaderSpan>,
}

impl Model for Headers {
    ghost use Rattle.std.specs.Prelude.{ℕ, List, length, map, All};
    ghost use Rattle.httparse.specs.Spans.{IsHeaderWithin, header_bytes};

    ghost Value = { List (List ℕ × List ℕ) };

    ghost view = { λ h. map (header_bytes h.text.items) h.spans.items };

    ghost invariant = { λ h. All (IsHeaderWithin (length h.text.items)) h.spans.items };
}

impl Headers {
    /// No field.
    pub fn new(alloc: Global) -> Headers
        ensures { result ≡ [] }
    {
        Headers {
            text: Vec::new(alloc),
            spans: Vec::new(alloc),
        }
    }

    /// A copy of the fields that lie at these places, in the first so many bytes.
    #[tactic(auto, using(crate::proofs::Cut::fields_cut))]
    pub(crate) fn copied(
        alloc: Global,
        bytes: &[u8],
        len: usize,
        spans: &[HeaderSpan],
    ) -> Result<Headers, AllocError>
        requires len { len ≤ length bytes.now }
        requires within { All (IsHeaderWithin len) spans.now }
        ensures { IfOk result (λ headers. headers ≡ map (header_bytes bytes.now) spans.now) }
    {
        let text = Vec::from_slice(alloc, &bytes[..len])?;
        let spans = Vec::from_slice(alloc, spans)?;
        Ok(Headers { text, spans })
    }

    /// One field more, behind the others. Where memory is refused the fields are as they were.
    pub fn push(&mut self, name: &[u8], value: &[u8]) -> Result<(), AllocError>
        ensures pushed { OnOk result (self.new ≡ self.old ++ (name.now, value.now) ∷ []) }
        ensures kept { OnErr result (self.new ≡ self.old) }
    {
        let start = self.text.len();
        self.text.extend_from_slice(name)?;
        let middle = self.text.len();
        self.text.extend_from_slice(value)?;
        let end = self.text.len();
        self.spans.push(HeaderSpan {
            name: Span { start, end: middle },
            value: Span { start: middle, end },
        })?;
        Ok(())
    }

    /// What the fields lie in, and where each of them does.
    #[inline]
    pub fn parts(&self) -> (&[u8], &[HeaderSpan])
        ensures within { All (IsHeaderWithin (length result.0.now)) result.1.now }
        ensures fields { map (header_bytes result.0.now) result.1.now ≡ self.now }
    {
        (&self.text, &self.spans)
    }
}
