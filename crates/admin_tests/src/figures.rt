//! Tenants' figures for tests.

use admin_pages::{LastAnswer, TenantFigures, TenantUsage};
use std::alloc::Global;
use std::process::Abort;

/// A tenant of 77 spans in places of 2 to 12, beside which 13 and 14 were left out.
pub const EACH: [u64; 14] = [77, 2, 3, 4, 5, 6, 7, 8, 9, 10, 11, 12, 13, 14];

/// A tenant of this name with these counters that has gone, so that nothing of it is there or waits.
pub fn tenant(rt: &impl Abort, alloc: Global, name: &str, counters: [u64; 14]) -> TenantFigures {
    TenantFigures {
        name: String::from_str(alloc, name).expect(rt, "memory"),
        counters,
        usage: TenantUsage::none(),
        ready: None,
        back_end: None,
    }
}

/// 5 rows of at most 50,000, 4 of them undecided, room for 1,000 spans, and 2 batches in a queue for 3, of 68 bytes in
/// one for 70.
pub const HALF_FULL: TenantUsage = TenantUsage {
    rows: 5,
    undecided_rows: 4,
    rows_limit: 50_000,
    spans_limit: 1_000,
    queued_batches: 2,
    queued_batches_limit: 3,
    queued_bytes: 68,
    queued_bytes_limit: 70,
};

/// A tenant of this name without spans that is so full.
pub fn with_usage(rt: &impl Abort, alloc: Global, name: &str, usage: TenantUsage) -> TenantFigures {
    TenantFigures {
        usage,
        ..tenant(rt, alloc, name, [0; 14])
    }
}

/// A tenant of this name without spans, whose back end answered this last, at this moment.
pub fn answered(
    rt: &impl Abort,
    alloc: Global,
    name: &str,
    status: u16,
    moment: u64,
) -> TenantFigures {
    TenantFigures {
        back_end: Some(LastAnswer { status, moment }),
        ..tenant(rt, alloc, name, [0; 14])
    }
}

/// A tenant of this name without spans, of which something is due at this moment.
pub fn due(rt: &impl Abort, alloc: Global, name: &str, moment: u64) -> TenantFigures {
    TenantFigures {
        ready: Some(moment),
        ..tenant(rt, alloc, name, [0; 14])
    }
}
