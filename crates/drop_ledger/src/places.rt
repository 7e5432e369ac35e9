//! Where the spans are that were taken.

ghost use Rattle.std.specs.Prelude.{◌≡◌, ◌↔◌, true};
ghost use Rattle.drop_ledger.specs.Ledger.{held, with_held, no_places};

/// Where a span is that was taken: what it waits for, or how it ended.
#[derive(Clone, Copy, Debug, PartialEq, Eq)]
pub enum Place {
    /// Its trace waits for the decision.
    Undecided,
    /// It was kept, and waits for a batch to be cut.
    Pending,
    /// Its batch waits for a consumer.
    Queued,
    /// A consumer sends its batch, or waits to try again.
    Active,
    /// The back end took it.
    Exported,
    /// Its tenant's policies didn't keep its trace.
    NotSampled,
    /// Its trace left before the decision, to make room for others.
    TooEarly,
    /// Its batch met a full queue, or had more bytes than a batch may have.
    QueueFull,
    /// Its batch was tried for too long.
    RetryExhausted,
    /// The back end refused its batch for good.
    BackEndRefused,
    /// The back end took its batch but for some spans, of which it is one.
    BackEndRejected,
}

/// How many spans are in each place.
#[derive(Clone, Copy, Debug, PartialEq, Eq)]
pub struct Places {
    /// Spans whose trace waits for the decision.
    pub undecided: u64,
    /// Spans that wait for a batch to be cut.
    pub pending: u64,
    /// Spans whose batch waits for a consumer.
    pub queued: u64,
    /// Spans whose batch is being sent, or waits to be tried again.
    pub active: u64,
    /// Spans that the back end took.
    pub exported: u64,
    /// Spans whose trace was not kept.
    pub not_sampled: u64,
    /// Spans whose trace left before the decision, to make room for others.
    pub too_early: u64,
    /// Spans whose batch met a full queue, or had more bytes than a batch may have.
    pub queue_full: u64,
    /// Spans whose batch was tried for too long.
    pub retry_exhausted: u64,
    /// Spans whose batch the back end refused for good.
    pub back_end_refused: u64,
    /// Spans that the back end left out of a batch that it took.
    pub back_end_rejected: u64,
}

impl Places {
    /// No spans.
    pub(crate) fn new() -> Places
        ensures { result ≡ no_places }
    {
        Places {
            undecided: 0,
            pending: 0,
            queued: 0,
            active: 0,
            exported: 0,
            not_sampled: 0,
            too_early: 0,
            queue_full: 0,
            retry_exhausted: 0,
            back_end_refused: 0,
            back_end_rejected: 0,
        }
    }

    /// How many spans are in a place.
    pub fn held(&self, place: Place) -> u64
        ensures { result ≡ held place self.now }
    {
        match place {
            Place::Undecided => self.undecided,
            Place::Pending => self.pending,
            Place::Queued => self.queued,
            Place::Active => self.active,
            Place::Exported => self.exported,
            Place::NotSampled => self.not_sampled,
            Place::TooEarly => self.too_early,
            Place::QueueFull => self.queue_full,
            Place::RetryExhausted => self.retry_exhausted,
            Place::BackEndRefused => self.back_end_refused,
            Place::BackEndRejected => self.back_end_rejected,
        }
    }

    /// The same with another number in a place.
    pub(crate) fn set(&mut self, place: Place, spans: u64)
        ensures { self.new ≡ with_held place spans self.old }
    {
        match place {
            Place::Undecided => self.undecided = spans,
            Place::Pending => self.pending = spans,
            Place::Queued => self.queued = spans,
            Place::Active => self.active = spans,
            Place::Exported => self.exported = spans,
            Place::NotSampled => self.not_sampled = spans,
            Place::TooEarly => self.too_early = spans,
            Place::QueueFull => self.queue_full = spans,
            Place::RetryExhausted => self.retry_exhausted = spans,
            Place::BackEndRefused => self.back_end_refused = spans,
            Place::BackEndRejected => self.back_end_rejected = spans,
        }
    }
}

/// Places are equal where they are the same place, and counts where they are the same in each place.
pub fn equal_places()
    ensures place { (a b : Place) → (⟦<Place as PartialEq>⟧.eq a b ≡ true) ↔ (a ≡ b) }
    ensures places { (a b : Places) → (⟦<Places as PartialEq>⟧.eq a b ≡ true) ↔ (a ≡ b) }
{}
