//! What was pending before spans came, so that they can be taken back.

use std::marker::Model;

/// How many spans were pending, and when their timer started.
#[derive(Drop)]
pub struct PendingMark {
    pub(crate) count: usize,
    pub(crate) start: Option<u64>,
}

impl Model for PendingMark {
    ghost use Rattle.span_batcher.specs.Machine.{IsUpToLatest};
    ghost use Rattle.span_batcher.specs.Marks.{MarkData};

    ghost Value = { MarkData };

    ghost view = { λ m. record { count = m.count; start = m.start } };

    ghost invariant = { λ m. IsUpToLatest m.start };
}
