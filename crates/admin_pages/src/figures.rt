//! What is told of a tenant.

ghost use Rattle.std.specs.Prelude.{◌≡◌};
ghost use Rattle.admin_pages.specs.Figures.{no_usage};

/// How full a tenant is, and how full it may be.
#[derive(Clone, Copy, Debug, PartialEq, Eq)]
pub struct TenantUsage {
    /// Traces that are present: undecided ones, and decided ones that late spans still follow.
    pub rows: u64,
    /// Those of them that wait for their decision.
    pub undecided_rows: u64,
    /// How many may be present. Where all of these wait for their decision, the next trace pushes one out.
    pub rows_limit: u64,
    /// How many spans may wait for a decision or for a batch. Further ones are left out.
    pub spans_limit: u64,
    /// Batches that wait to be sent, without those that were handed to a sender.
    pub queued_batches: u64,
    /// How many may wait so. A further one is dropped.
    pub queued_batches_limit: u64,
    /// How many bytes those batches have together. 0 once the tenant is drained.
    pub queued_bytes: u64,
    /// How many they may have so. A batch with which they would have more is dropped.
    pub queued_bytes_limit: u64,
}

impl TenantUsage {
    /// That of a tenant that has gone: nothing, and no room for anything.
    pub fn none() -> TenantUsage
        ensures { result ≡ no_usage }
    {
        TenantUsage {
            rows: 0,
            undecided_rows: 0,
            rows_limit: 0,
            spans_limit: 0,
            queued_batches: 0,
            queued_batches_limit: 0,
            queued_bytes: 0,
            queued_bytes_limit: 0,
        }
    }
}

/// What a back end answered last.
#[derive(Clone, Copy, Debug, PartialEq, Eq)]
pub struct LastAnswer {
    /// Its HTTP status. 0 where no whole answer came: there was no connection, or it ended early.
    pub status: u16,
    /// When the answer came, or it was clear that none does, in milliseconds since the start of the service.
    pub moment: u64,
}

/// A tenant's name, its counters in the order of a report's line, how full it is, when something of it is due, and what
/// its back end answered.
#[derive(Debug, Drop)]
pub struct TenantFigures {
    pub name: String,
    pub counters: [u64; 14],
    pub usage: TenantUsage,
    /// In milliseconds since the start of the service: then something of the tenant's is due next, or was and hasn't
    /// been done yet. None where nothing of it waits.
    pub ready: Option<u64>,
    /// None where it has answered nothing yet, and no attempt has failed.
    pub back_end: Option<LastAnswer>,
}
