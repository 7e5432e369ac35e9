//! Spans of two tenants, 7 and 8, and what each of them has in stores. The note of a row is the number of its spans.

ghost use Rattle.std.specs.Prelude.{◌≡◌, IfOk};

use crate::story::Numbers;
use span_pool::{SharedKeys, StoredSpan, TextKeys};
use std::alloc::{AllocError, Global};
use tenant_stores::{Joining, Opening, Stores};
use text_pool::SharedBytes;
use text_slice::TextSlice;

pub const TRACE: [u8; 16] = [0x11; 16];

pub const OTHER: [u8; 16] = [0x12; 16];

/// A resource, which spans of both tenants have.
const RESOURCE: &[u8] = b"\x10\x01";

/// A scope named s: field 1.
const SCOPE: &[u8] = b"\x0a\x01s";

/// Spans by their names: field 5.
pub const A: &[u8] = b"\x2a\x01a";

pub const B: &[u8] = b"\x2a\x01b";

pub const C: &[u8] = b"\x2a\x01c";

fn text(alloc: Global, bytes: &[u8]) -> Result<SharedBytes, AllocError> {
    SharedBytes::of(alloc, TextSlice::copy_from_slice(alloc, bytes)?)
}

/// The keys of a resource and a scope, with a use of each, or none.
pub fn held(alloc: Global, stores: &mut Stores<u64>, tenant: u32) -> Result<TextKeys, AllocError> {
    let (resource, scope) = (text(alloc, RESOURCE)?, text(alloc, SCOPE)?);
    stores.hold_all(tenant, Some(&resource), None, Some(&scope), None)
}

/// The keys of a scope and of a resource behind it.
pub fn keys_from(scope: u32) -> TextKeys {
    TextKeys {
        resource: Some(scope.saturating_add(1)),
        resource_schema_url: None,
        scope: Some(scope),
        scope_schema_url: None,
    }
}

/// A span of the tenant, with these texts.
fn span(alloc: Global, tenant: u32, keys: TextKeys, name: &[u8]) -> Result<StoredSpan, AllocError>
    ensures { IfOk result (λ span. span.owner ≡ tenant) }
{
    let source = SharedKeys::of(alloc, tenant, keys)?;
    let text = TextSlice::copy_from_slice(alloc, name)?;
    Ok(StoredSpan::of(source, text))
}

/// A span with keys that were held for it. Where memory is refused, their texts are let go.
fn span_or_release(
    alloc: Global,
    stores: &mut Stores<u64>,
    tenant: u32,
    keys: TextKeys,
    name: &[u8],
) -> Result<StoredSpan, AllocError>
    ensures { IfOk result (λ span. span.owner ≡ tenant) }
{
    match span(alloc, tenant, keys, name) {
        Ok(span) => Ok(span),
        Err(refused) => {
            stores.release_all(tenant, keys);
            Err(refused)
        }
    }
}

/// A span opens a row, where its number has none.
pub fn open(
    alloc: Global,
    stores: &mut Stores<u64>,
    tenant: u32,
    number: u64,
    trace: [u8; 16],
    name: &[u8],
) -> Result<Option<Opening>, AllocError> {
    let keys = held(alloc, stores, tenant)?;
    let span = span_or_release(alloc, stores, tenant, keys, name)?;
    let None = stores.row(tenant, number) else {
        stores.release_all(tenant, keys);
        return Ok(None);
    };
    match stores.open(number, 1000, trace, span, 1) {
        Ok(opening) => Ok(Some(opening)),
        Err(refused) => {
            stores.release_all(tenant, keys);
            Err(refused)
        }
    }
}

/// A span joins a row.
pub fn join(
    alloc: Global,
    stores: &mut Stores<u64>,
    tenant: u32,
    number: u64,
    name: &[u8],
    note: u64,
) -> Result<Joining<u64>, AllocError> {
    let keys = held(alloc, stores, tenant)?;
    let span = span_or_release(alloc, stores, tenant, keys, name)?;
    match stores.join(number, span, note) {
        Ok(joining) => Ok(joining),
        Err(refused) => {
            stores.release_all(tenant, keys);
            Err(refused)
        }
    }
}

/// A late span waits for a batch. It has the texts of another one, which are known.
pub fn late(
    alloc: Global,
    stores: &mut Stores<u64>,
    tenant: u32,
    keys: TextKeys,
    name: &[u8],
) -> Result<u32, AllocError> {
    let keys = stores.hold_again(tenant, keys)?;
    let span = span_or_release(alloc, stores, tenant, keys, name)?;
    match stores.keep_late(span) {
        Ok(key) => Ok(key),
        Err(refused) => {
            stores.release_all(tenant, keys);
            Err(refused)
        }
    }
}

/// Which text this is: 1 to 3 for a span, 4 for the resource, 5 for the scope.
fn number_of(bytes: &[u8]) -> u32 {
    if bytes == A {
        1
    } else if bytes == B {
        2
    } else if bytes == C {
        3
    } else if bytes == RESOURCE {
        4
    } else if bytes == SCOPE {
        5
    } else {
        6
    }
}

/// Which span the tenant has at a key, 0 for none.
fn span_at(stores: &Stores<u64>, tenant: u32, key: u32) -> u32 {
    match stores.span(tenant, key) {
        Some(span) => number_of(span.text().as_slice()),
        None => 0,
    }
}

/// Which text the tenant has at a key, 0 for none.
fn text_at(stores: &Stores<u64>, tenant: u32, key: u32) -> u32 {
    match stores.texts().text(tenant, key) {
        Some(text) => number_of(text.as_slice()),
        None => 0,
    }
}

/// A row: how many spans it has, its note, and whether it is sampled.
type Told = Option<(usize, u64, bool)>;

/// The tenant's row.
pub fn row_at(stores: &Stores<u64>, tenant: u32, number: u64) -> Told {
    match stores.row(tenant, number) {
        Some(row) => Some((row.keys.as_slice().len(), row.note, row.sampled)),
        None => None,
    }
}

/// Which spans the tenant has at the first six keys.
pub fn spans(stores: &Stores<u64>, tenant: u32) -> Numbers {
    [
        span_at(stores, tenant, 0),
        span_at(stores, tenant, 1),
        span_at(stores, tenant, 2),
        span_at(stores, tenant, 3),
        span_at(stores, tenant, 4),
        span_at(stores, tenant, 5),
    ]
}

/// Which texts the tenant has at the first six keys.
pub fn texts(stores: &Stores<u64>, tenant: u32) -> Numbers {
    [
        text_at(stores, tenant, 0),
        text_at(stores, tenant, 1),
        text_at(stores, tenant, 2),
        text_at(stores, tenant, 3),
        text_at(stores, tenant, 4),
        text_at(stores, tenant, 5),
    ]
}

/// The rows of the two traces.
pub fn seats(stores: &Stores<u64>, tenant: u32) -> [Option<u64>; 2] {
    [
        stores.latest_row(tenant, TRACE),
        stores.latest_row(tenant, OTHER),
    ]
}

/// What the tenant has: spans, texts, three rows, and the latest rows of two traces.
pub fn told(
    stores: &Stores<u64>,
    tenant: u32,
) -> ((Numbers, Numbers), [Told; 3], [Option<u64>; 2]) {
    let rows = [
        row_at(stores, tenant, 1),
        row_at(stores, tenant, 2),
        row_at(stores, tenant, 3),
    ];
    let seats = seats(stores, tenant);
    ((spans(stores, tenant), texts(stores, tenant)), rows, seats)
}
