//! What a group will make of the pending spans.

ghost use Rattle.std.specs.Prelude.{◌≡◌};

use crate::batch::Batch;
use std::marker::Model;

/// What a group makes of the pending spans, worked out before it comes about.
#[derive(Drop)]
pub struct Planned {
    pub(crate) batches: Vec<Batch>,
    pub(crate) start: Option<u64>,
    pub(crate) spans: Vec<u32>,
}

impl Model for Planned {
    ghost use Rattle.std.specs.Prelude.{ℕ};
    ghost use Rattle.span_batcher.specs.Machine.{PlannedData, IsUpToLatest};

    ghost Value = { PlannedData ℕ };

    ghost view = { λ p. record { batches = p.batches.items; start = p.start; spans = p.spans.items } };

    ghost invariant = { λ p. IsUpToLatest p.start };
}

impl Planned {
    /// The batches that the group fills, in order.
    pub fn batches(&self) -> &[Batch]
        ensures { result.now ≡ self.now.batches }
    {
        self.batches.as_slice()
    }
}
