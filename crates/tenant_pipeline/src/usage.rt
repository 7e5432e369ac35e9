//! How full a tenant is.

ghost use Rattle.std.specs.Prelude.{◌≡◌};
ghost use Rattle.tenant_pipeline.specs.Present.{no_usage};

/// How full a tenant is, and how full it may be.
#[derive(Clone, Copy, Debug, PartialEq, Eq)]
pub struct Usage {
    /// Rows that are present: those that wait, and decided ones that late spans still follow.
    pub rows: u64,
    /// Rows that wait for their decision.
    pub undecided_rows: u64,
    /// How many rows may be present. Where all of these wait for their decision, the next row pushes one out.
    pub rows_limit: u64,
    /// How many spans may wait for a decision or for a batch. Further ones are left out.
    pub spans_limit: u64,
    /// Batches that wait to be sent for the first time.
    pub queued_batches: u64,
    /// How many batches may wait so. A further one is dropped.
    pub queued_batches_limit: u64,
    /// How many bytes those batches have together. 0 once the tenant is drained: bytes bound them no more then, and
    /// not all of them are written.
    pub queued_bytes: u64,
    /// How many they may have so, 2^42 where nothing bounds them. A batch with which they would have more is dropped.
    pub queued_bytes_limit: u64,
}

impl Usage {
    /// That of nobody: nothing, and no room for anything.
    pub fn none() -> Usage
        ensures { result ≡ no_usage }
    {
        Usage {
            rows: 0,
            undecided_rows: 0,
            rows_limit: 0,
            spans_limit: 0,
            queued_batches: 0,
            queued_batches_limit: 0,
            queued_bytes: 0,
            queued_bytes_limit: 0,
        }
    }
}
