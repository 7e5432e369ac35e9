//! Taking back what a step has changed of its tenant's own.

ghost use Rattle.std.specs.Prelude.{◌≡◌, ◌+◌, ◌<◌, ◌^◌, [], Some, unwrap_or};
ghost use Rattle.drop_ledger.specs.Ledger.{LedgerInvariant, ledger_of};
ghost use Rattle.tenant_pipeline.specs.declared.pipeline.Pipeline.{Pipeline as Own};
ghost use Rattle.tenant_pipeline.specs.Outbox.{undone};
ghost use Rattle.tenant_pipeline.specs.Undo.{before, TakesBack};

use crate::pipeline::{Pipeline, RowCounts};
use drop_ledger::Ledger;
use send_queue::SendQueue;
use span_batcher::{PendingMark, Planned, SpanBatcher};

/// What a step has changed of its tenant's own so far, so that it can be taken back without memory.
#[derive(Drop)]
pub struct Undo {
    /// How many rows there were.
    pub rows: RowCounts,
    /// The counters as they were.
    pub counters: [u64; 14],
    /// How many spans were pending, and when their timer started.
    pub mark: PendingMark,
    /// What was pending before the first group that filled a batch, where one did.
    pub former: Option<Planned>,
    /// How many batches the queue took.
    pub offers: usize,
    /// The keys of the spans that left in batches. They are still stored.
    pub gone: Vec<u32>,
}

impl Undo {
    /// Nothing has changed so far, which takes no memory.
    pub fn of(own: &Pipeline) -> Undo
        ensures back { TakesBack result own.now own.now }
        ensures none { result.gone.items ≡ [] }
        ensures ledger_invariant { LedgerInvariant (ledger_of result.counters) }
    {
        Undo {
            rows: own.rows,
            counters: own.ledger.counters(),
            mark: own.batcher.mark(),
            former: None,
            offers: 0,
            gone: Vec::new(own.alloc),
        }
    }

    /// A group filled batches, before which this was pending, and the queue took so many of them.
    pub(crate) fn note(&mut self, former: Planned, offers: usize)
        requires offers_bounded { self.old.offers + offers < 2 ^ 64 }
        ensures { self.new ≡ record self.old {
          former = Some (unwrap_or self.old.former former);
          offers = self.old.offers + offers;
        } }
    {
        self.offers += offers;
        if self.former.is_none() {
            self.former = Some(former);
        }
    }
}

impl Pipeline {
    /// All that has changed of the tenant's own is taken back. It takes no memory.
    pub(crate) fn take_back(&mut self, undo: Undo)
        requires ledger_invariant { LedgerInvariant (ledger_of undo.counters) }
        ensures { (start : Own) → TakesBack undo start self.old → self.new ≡ start }
    {
        let Undo {
            rows,
            counters,
            mark,
            former,
            offers,
            ..
        } = undo;
        self.rows = rows;
        self.ledger = Ledger::of(counters);
        put_back(&mut self.batcher, former);
        self.batcher.cut_back(mark);
        take_back_offers(&mut self.sender, offers);
    }
}

/// What was pending before the first group that filled a batch is pending again, where one did.
fn put_back(batcher: &mut SpanBatcher, former: Option<Planned>)
    ensures { batcher.new ≡ before former batcher.old }
{
    let Some(mut former) = former else {
        return;
    };
    batcher.exchange(&mut former);
}

/// So many batches that the queue took last are taken back.
pub(crate) fn take_back_offers(sender: &mut SendQueue, offers: usize)
    ensures { sender.new ≡ undone offers sender.old }
{
    let mut left = offers;
    while left > 0 {
        sender.undo_offer();
        left -= 1;
    }
}
