//! Many spans pass through a pool and a table of rows, which hold so many of them at a time. tests/held.py takes the
//! time and the memory of each test here.

use span_pool::{SharedKeys, SpanPool, StoredSpan, TextKeys};
use std::alloc::Global;
use std::process::Abort;
use text_slice::TextSlice;
use trace_rows::{Keys, Row, TraceRows};

/// How many spans pass in a test.
const SPANS: u64 = 1_000_000;

/// How many spans a trace has, which come one after the other.
const SPANS_OF_A_TRACE: u64 = 10;

/// A span's text: a name.
const TEXT: &[u8] = b"\x2a\x12the name of a span";

/// No texts that spans share.
const NO_KEYS: TextKeys = TextKeys {
    resource: None,
    resource_schema_url: None,
    scope: None,
    scope_schema_url: None,
};

/// The stores, and whose spans come: a trace of each tenant in turn.
#[derive(Drop)]
struct Load {
    pool: SpanPool<StoredSpan>,
    table: TraceRows<u64>,
    tenants: u32,
}

/// A trace's tenant, and its number among the tenant's.
fn place(load: &Load, trace: u64) -> (u32, u64) {
    let tenants = u64::from(load.tenants.max(1));
    ((trace % tenants) as u32, trace / tenants)
}

/// A trace's id, of which neighbours are far from each other.
pub fn trace_id(trace: u64) -> [u8; 16] {
    let [a, b, c, d, e, f, g, h] = trace.wrapping_mul(0x9e37_79b9_7f4a_7c15).to_be_bytes();
    let [i, j, k, l, m, n, o, p] = trace.to_be_bytes();
    [a, b, c, d, e, f, g, h, i, j, k, l, m, n, o, p]
}

/// What comes together: the texts of a trace's spans, one behind the other, and the keys of what they share.
#[derive(Drop)]
struct Post {
    body: TextSlice,
    source: SharedKeys,
}

/// A post of the tenant's.
fn post_of(rt: &impl Abort, alloc: Global, tenant: u32) -> Post {
    let mut bytes = Vec::new(alloc);
    for _ in 0..SPANS_OF_A_TRACE {
        bytes.extend_from_slice(TEXT).expect(rt, "memory");
    }
    let body = TextSlice::from_vec(alloc, bytes).expect(rt, "memory");
    let source = SharedKeys::of(alloc, tenant, NO_KEYS).expect(rt, "memory");
    Post { body, source }
}

/// The span of this number in its trace's post, which shares body and keys with the others.
fn stored(rt: &impl Abort, post: &Post, number: u64) -> StoredSpan {
    let start = (number as usize).saturating_mul(TEXT.len());
    let end = start.saturating_add(TEXT.len());
    assert!(rt; start <= end && end <= post.body.len());
    let text = post.body.slice(start, end).expect(rt, "memory");
    let source = post.source.shared().expect(rt, "memory");
    StoredSpan::of(source, text)
}

/// A span of a post comes into the pool, and joins its trace's row or opens it.
fn come(rt: &impl Abort, alloc: Global, load: &mut Load, post: &Post, span: u64) {
    let trace = span / SPANS_OF_A_TRACE;
    let (tenant, number) = place(load, trace);
    let stored = stored(rt, post, span % SPANS_OF_A_TRACE);
    let key = load.pool.put(stored).expect(rt, "memory");
    if let Some(seat) = load.table.latest_row(tenant, trace_id(trace)) {
        let note = match load.table.row(tenant, seat) {
            Some(row) => row.note.max(span),
            None => span,
        };
        load.table
            .join(tenant, seat, key, note)
            .expect(rt, "memory");
        return;
    }
    assert!(rt; load.table.row(tenant, number).is_none());
    let row = Row {
        trace: trace_id(trace),
        due: span,
        keys: Keys::one(alloc, key).expect(rt, "memory"),
        note: span,
        sampled: false,
    };
    load.table.open(tenant, number, row).expect(rt, "memory");
}

/// These spans leave the pool.
fn take_all(pool: &mut SpanPool<StoredSpan>, tenant: u32, keys: &[u32]) {
    for key in keys {
        pool.undo_put(tenant, *key);
    }
}

/// A trace is decided: its spans leave the pool, and its row the table. The answer is how many spans it had.
fn leave(alloc: Global, load: &mut Load, trace: u64) -> u64 {
    let (tenant, number) = place(load, trace);
    let keys = load.table.settle(alloc, tenant, number, true);
    take_all(&mut load.pool, tenant, keys.as_slice());
    let _ = load.table.sweep(alloc, tenant, number);
    keys.as_slice().len() as u64
}

/// The spans of a trace come, in one post.
fn trace_comes(rt: &impl Abort, alloc: Global, load: &mut Load, trace: u64) {
    let first = trace.saturating_mul(SPANS_OF_A_TRACE);
    let (tenant, _) = place(load, trace);
    let post = post_of(rt, alloc, tenant);
    for span in 0..SPANS_OF_A_TRACE {
        come(rt, alloc, load, &post, first.saturating_add(span));
    }
}

/// All these traces come, and the oldest leaves where more than so many would be held. The answer is how many spans
/// left.
fn all_come(rt: &impl Abort, alloc: Global, load: &mut Load, traces: u64, kept: u64) -> u64 {
    let mut left: u64 = 0;
    for trace in 0..traces {
        if trace >= kept {
            left = left.saturating_add(leave(alloc, load, trace - kept));
        }
        trace_comes(rt, alloc, load, trace);
    }
    left
}

/// All these traces leave. The answer is how many spans left.
fn all_leave(alloc: Global, load: &mut Load, traces: u64) -> u64 {
    let mut left: u64 = 0;
    for trace in 0..traces {
        left = left.saturating_add(leave(alloc, load, trace));
    }
    left
}

/// So many spans pass through the stores, which hold so many of them. The answer is how many left.
fn passed(rt: &impl Abort, alloc: Global, spans: u64, held: u64, tenants: u32) -> u64 {
    let mut load = Load {
        pool: SpanPool::new(alloc),
        table: TraceRows::new(alloc),
        tenants,
    };
    let traces = spans / SPANS_OF_A_TRACE;
    let left = all_come(rt, alloc, &mut load, traces, held / SPANS_OF_A_TRACE);
    left.saturating_add(all_leave(alloc, &mut load, traces))
}

/// So many spans pass through the stores, and all of them leave.
fn all_pass(rt: &impl Abort, alloc: Global, spans: u64, held: u64, tenants: u32) {
    assert!(rt; passed(rt, alloc, spans, held, tenants) == spans);
}

#[test]
fn a_thousand_held_of_one_tenant(rt: HostRuntime) {
    all_pass(&rt, rt.alloc(), SPANS, 1_000, 1);
}

#[test]
fn a_million_held_of_one_tenant(rt: HostRuntime) {
    all_pass(&rt, rt.alloc(), SPANS, 1_000_000, 1);
}

#[test]
fn a_thousand_held_of_a_thousand_tenants(rt: HostRuntime) {
    all_pass(&rt, rt.alloc(), SPANS, 1_000, 1_000);
}

#[test]
fn a_million_held_of_a_thousand_tenants(rt: HostRuntime) {
    all_pass(&rt, rt.alloc(), SPANS, 1_000_000, 1_000);
}

// The second million takes the room that the first one left.
#[test]
fn two_million_pass_a_million_held_of_one_tenant(rt: HostRuntime) {
    all_pass(&rt, rt.alloc(), 2 * SPANS, 1_000_000, 1);
}

#[test]
fn two_million_pass_a_million_held_of_a_thousand_tenants(rt: HostRuntime) {
    all_pass(&rt, rt.alloc(), 2 * SPANS, 1_000_000, 1_000);
}
