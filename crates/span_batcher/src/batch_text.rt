//! A batch as it is sent, whose size is known before it is written.

ghost use Rattle.std.specs.Prelude.{◌≡◌, length, IfOk};
ghost use Rattle.span_batcher.specs.ExportText.{export_text};
ghost use Rattle.span_batcher.specs.Texts.{spans_in};
ghost use Rattle.span_batcher.specs.Blocks.{capped};

use crate::block::{Block, blocks_of};
use crate::encode::{ResourceLevel, put_runs, runs_size};
use bytes::Bytes;
use span_pool::StoredSpan;
use std::alloc::{AllocError, Global};
use std::marker::Model;
use text_pool::TextPool;

/// What a batch of spans is sent as, and isn't written yet: the canonical text of an OTLP request
/// (`ExportTraceServiceRequest`) in which neighbours of one resource and schema share a `ResourceSpans`, and in it
/// those of one scope and schema a `ScopeSpans`. Each span's resource and scope are those that its tenant has at its
/// keys; where the tenant has no text at a key, it is as if the span had no key.
#[derive(Drop)]
pub struct BatchText<'a> {
    texts: &'a TextPool,
    blocks: Vec<Block<'a>>,
    size: usize,
}

impl<'a> Model for BatchText<'a> {
    ghost use Rattle.std.specs.Prelude.{ℕ, List, length, ◌≡◌};
    ghost use Rattle.span_batcher.specs.ExportText.{same_resource, resource_spans_field};
    ghost use Rattle.span_batcher.specs.Blocks.{fields_in, capped};

    ghost Value = { List ℕ };

    ghost view = { λ b. fields_in b.texts.now same_resource resource_spans_field b.blocks.items };

    ghost invariant = { λ b. b.size ≡ capped
        (length (fields_in b.texts.now same_resource resource_spans_field b.blocks.items)) };
}

impl<'a> BatchText<'a> {
    /// The text of a batch of these spans. It takes memory for their runs, and none for the text.
    pub fn of(
        alloc: Global,
        texts: &'a TextPool,
        spans: &'a [&'a StoredSpan],
    ) -> Result<BatchText<'a>, AllocError>
        ensures { IfOk result (λ batch. batch ≡ export_text (spans_in texts.now spans.now)) }
    {
        let blocks = blocks_of(alloc, spans)?;
        let size = runs_size::<ResourceLevel>(texts, &blocks);
        Ok(BatchText {
            texts,
            blocks,
            size,
        })
    }

    /// How many bytes it has. A number of which there is no `usize` is the greatest one.
    pub fn size(&self) -> usize
        ensures { result ≡ capped (length self.now) }
    {
        self.size
    }

    /// The text, written into memory of its size.
    pub fn write(&self, alloc: Global) -> Result<Bytes, AllocError>
        ensures { IfOk result (λ payload. payload ≡ self.now) }
    {
        let mut text = Vec::with_capacity(alloc, self.size)?;
        put_runs::<ResourceLevel>(&mut text, self.texts, &self.blocks)?;
        Ok(Bytes::from_vec(text)?)
    }
}
