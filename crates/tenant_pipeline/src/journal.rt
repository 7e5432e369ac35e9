//! What a post has changed, so that it can be taken back.

ghost use Rattle.std.specs.Prelude.{◌≡◌, ◌≤◌, [], length, IfOk, vec_capacity};
ghost use Rattle.tenant_pipeline.specs.Undo.{TakesBack};

use crate::pipeline::Pipeline;
use crate::undo::Undo;
use std::alloc::AllocError;
use tail_policy::TraceNote;
use tenant_stores::UndoEntry;

/// What a post has changed so far.
#[derive(Drop)]
pub struct Journal {
    /// Of the stores, one entry a span that came.
    pub placed: Vec<UndoEntry<TraceNote>>,
    /// Of the tenant's own, but for its caches.
    pub undo: Undo,
    /// How many hits waited for a commit before it.
    pub hits: usize,
}

impl Journal {
    /// Nothing has changed so far. There is room for so many spans.
    pub(crate) fn of(own: &Pipeline, spans: usize) -> Result<Journal, AllocError>
        ensures none { IfOk result (λ journal. journal.placed.items ≡ []) }
        ensures room { IfOk result (λ journal. spans ≤ vec_capacity journal.placed) }
        ensures gone { IfOk result (λ journal. journal.undo.gone.items ≡ []) }
        ensures back { IfOk result (λ journal. TakesBack journal.undo own.now own.now) }
        ensures hits { IfOk result (λ journal. journal.hits ≡ length own.now.caches.hits) }
    {
        let placed = Vec::with_capacity(own.alloc, spans)?;
        Ok(Journal {
            placed,
            undo: Undo::of(own),
            hits: own.caches.hits(),
        })
    }
}
