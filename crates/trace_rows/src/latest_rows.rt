//! The latest row of each trace.

ghost use Rattle.std.specs.Prelude.{◌≡◌, ◌≢◌, ℕ, [], IfOk, OnOk, OnErr, Some, None, true};
ghost use Rattle.trace_rows.specs.Maps.{is_id, halves, latest_rows_of};
ghost use Rattle.trace_rows.specs.Part.{with_latest_row};

use std::alloc::{AllocError, Global};
use std::collections::BTreeMap;
use std::marker::Model;

/// By tenant and trace id, the number of the row that opened last. Contracts see the entries of the map.
#[derive(Drop)]
pub(crate) struct LatestRows {
    // Ids are compared as two numbers, which takes about as long however many bytes two of them share.
    numbers: BTreeMap<(u32, (u64, u64)), u64>,
    // What the map has at the key that was written last: spans of a new trace mostly come one after the other.
    tenant: u32,
    id: (u64, u64),
    latest: Option<u64>,
}

impl Model for LatestRows {
    ghost use Rattle.std.specs.Prelude.{◌≡◌, ℕ, List};
    ghost use Rattle.std.specs.Ordering.{nat_cmp};
    ghost use Rattle.trace_rows.specs.Maps.{at, pair_cmp};

    ghost Value = { List ((ℕ × (ℕ × ℕ)) × ℕ) };

    ghost view = { λ s. s.numbers.entries };

    ghost invariant = { λ s. at (pair_cmp nat_cmp) s.tenant s.numbers.entries s.id ≡ s.latest };
}

/// The two numbers that an id's halves are, each with the most significant byte first. Other ids have others.
#[inline]
pub fn halves_of(trace: [u8; 16]) -> (u64, u64)
    ensures halves { result ≡ halves trace }
    ensures id { is_id trace ≡ true }
{
    let [a, b, c, d, e, f, g, h, i, j, k, l, m, n, o, p] = trace;
    let high = u64::from_be_bytes([a, b, c, d, e, f, g, h]);
    let low = u64::from_be_bytes([i, j, k, l, m, n, o, p]);
    (high, low)
}

impl LatestRows {
    /// No trace of any tenant, which takes no memory.
    pub(crate) fn new(alloc: Global) -> Self
        ensures { result ≡ [] }
    {
        LatestRows {
            numbers: BTreeMap::new(alloc),
            tenant: 0,
            id: (0, 0),
            latest: None,
        }
    }

    /// The number of the latest row of the tenant's trace, where it has one.
    pub(crate) fn get(&self, tenant: u32, trace: [u8; 16]) -> Option<u64>
        ensures { result ≡ latest_rows_of tenant self.now trace }
    {
        let id = halves_of(trace);
        if self.tenant == tenant && self.id == id {
            return self.latest;
        }
        self.numbers.get(&(tenant, id)).copied()
    }

    /// The row of this number is the latest of the trace. The answer is the one that was until now.
    pub(crate) fn put(
        &mut self,
        tenant: u32,
        trace: [u8; 16],
        number: u64,
    ) -> Result<Option<u64>, AllocError>
        ensures earlier { IfOk result (λ earlier. earlier ≡ latest_rows_of tenant self.old trace) }
        ensures own_part { OnOk result (latest_rows_of tenant self.new ≡
            with_latest_row trace (Some number) (latest_rows_of tenant self.old)) }
        ensures others_unchanged { (other : ℕ) → other ≢ tenant
            → latest_rows_of other self.new ≡ latest_rows_of other self.old }
        ensures on_refusal { OnErr result (self.new ≡ self.old) }
    {
        let id = halves_of(trace);
        let earlier = self.numbers.insert((tenant, id), number)?;
        self.tenant = tenant;
        self.id = id;
        self.latest = Some(number);
        Ok(earlier)
    }

    /// The trace has no row any more. It takes no memory.
    pub(crate) fn remove(&mut self, tenant: u32, trace: [u8; 16])
        ensures own_part { latest_rows_of tenant self.new ≡ with_latest_row trace None
            (latest_rows_of tenant self.old) }
        ensures others_unchanged { (other : ℕ) → other ≢ tenant
            → latest_rows_of other self.new ≡ latest_rows_of other self.old }
    {
        let id = halves_of(trace);
        self.numbers.remove(&(tenant, id));
        self.tenant = tenant;
        self.id = id;
        self.latest = None;
    }

    /// The trace has this row as its latest again, or none; where it has none now, nothing changes. It takes no memory.
    pub(crate) fn restore(&mut self, tenant: u32, trace: [u8; 16], earlier: Option<u64>)
        ensures own_part { latest_rows_of tenant self.old trace ≢ None →
            latest_rows_of tenant self.new ≡ with_latest_row trace earlier
            (latest_rows_of tenant self.old) }
        ensures none { latest_rows_of tenant self.old trace ≡ None →
            latest_rows_of tenant self.new ≡ latest_rows_of tenant self.old }
        ensures others_unchanged { (other : ℕ) → other ≢ tenant
            → latest_rows_of other self.new ≡ latest_rows_of other self.old }
    {
        let Some(number) = earlier else {
            self.remove(tenant, trace);
            return;
        };
        let id = halves_of(trace);
        let Some(latest) = self.numbers.get_mut(&(tenant, id)) else {
            return;
        };
        *latest = number;
        self.tenant = tenant;
        self.id = id;
        self.latest = Some(number);
    }
}
