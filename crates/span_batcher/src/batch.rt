//! Spans that leave together.

ghost use Rattle.std.specs.Prelude.{◌≡◌};

use std::marker::Model;

/// Spans that leave together, by key, with the moment in milliseconds at which they do.
#[derive(Drop)]
pub struct Batch {
    moment: u64,
    spans: Vec<u32>,
}

impl Model for Batch {
    ghost use Rattle.std.specs.Prelude.{ℕ};
    ghost use Rattle.span_batcher.specs.Batches.{Batch as BatchValue};

    ghost Value = { BatchValue ℕ };

    ghost view = { λ b. record { moment = b.moment; spans = b.spans.items } };
}

impl Batch {
    /// A batch of these spans.
    pub(crate) fn new(moment: u64, spans: Vec<u32>) -> Self
        ensures { result ≡ record { moment = moment; spans = spans.items } }
    {
        Batch { moment, spans }
    }

    /// When it formed, in milliseconds.
    pub fn moment(&self) -> u64
        ensures { result ≡ self.now.moment }
    {
        self.moment
    }

    /// Its spans' keys, in the order in which the spans came.
    pub fn spans(&self) -> &[u32]
        ensures { result.now ≡ self.now.spans }
    {
        self.spans.as_slice()
    }
}
