//! Spans of two tenants, 7 and 8, in one pool.

ghost use Rattle.store_tests.specs.Stored.{SameResources, SameScopes, EqualOrigins, ReadSpans, ReadResources};

use crate::story::{Step, one, step_of};
use span_pool::{
    NotYours, Owned, SharedKeys, SpanPool, StoredSpan, TextKeys, each_span_has_one_owner,
    read_spans_are_viewed,
};
use std::alloc::{AllocError, Global};
use std::mem::size_of;
use std::process::Abort;
use text_slice::TextSlice;

/// A resource of a schema, and a scope of none.
const KEYS: TextKeys = TextKeys {
    resource: Some(3),
    resource_schema_url: Some(0),
    scope: Some(5),
    scope_schema_url: None,
};

/// Spans by their names, of one letter: field 5.
const FIRST: &[u8] = b"\x2a\x01\x31";

const SECOND: &[u8] = b"\x2a\x01\x32";

/// The span of this number, with these keys.
fn span_of(alloc: Global, source: SharedKeys, number: u32) -> Result<StoredSpan, AllocError> {
    let name = if number == 1 { FIRST } else { SECOND };
    Ok(StoredSpan::of(source, TextSlice::copy_from_slice(alloc, name)?))
}

/// The span of this number, with keys of its own.
fn span(alloc: Global, owner: u32, number: u32) -> Result<StoredSpan, AllocError> {
    span_of(alloc, SharedKeys::of(alloc, owner, KEYS)?, number)
}

/// Whether a span is the first tenant's, with the keys and this name.
fn has_all(span: &StoredSpan, name: &[u8]) -> bool {
    span.owner() == 7 && span.keys() == KEYS && span.text().as_slice() == name
}

#[test]
fn what_was_given_is_there_in_24_bytes(rt: HostRuntime) {
    let span = span(rt.alloc(), 7, 1).expect(&rt, "memory");
    assert!(rt; has_all(&span, FIRST));
    assert!(rt; size_of::<StoredSpan>() == 24);
}

/// The first span, which shares a source's keys.
fn first_of(alloc: Global, source: &SharedKeys) -> Result<StoredSpan, AllocError> {
    span_of(alloc, source.shared()?, 1)
}

/// Whether the keys stay with a source and the first span that shares them, and with the second once it is the last.
fn keys_stay(rt: &impl Abort, alloc: Global, source: SharedKeys) -> bool {
    let first = first_of(alloc, &source).expect(rt, "memory");
    let at_source = source.owner() == 7 && source.keys() == KEYS;
    let second = span_of(alloc, source, 2).expect(rt, "memory");
    let at_first = has_all(&first, FIRST);
    drop(first);
    at_source && at_first && has_all(&second, SECOND)
}

// The keys stay as long as one of those that share them does.
#[test]
fn spans_share_their_keys(rt: HostRuntime) {
    let source = SharedKeys::of(rt.alloc(), 7, KEYS).expect(&rt, "memory");
    assert!(rt; keys_stay(&rt, rt.alloc(), source));
}

fn number_of(span: Option<&StoredSpan>) -> u32 {
    let Some(span) = span else {
        return 0;
    };
    if span.text().as_slice() == FIRST {
        1
    } else {
        2
    }
}

/// What a tenant owns at four keys.
fn owned(pool: &SpanPool<StoredSpan>, tenant: u32) -> [u32; 4] {
    [
        number_of(pool.owned(tenant, 0)),
        number_of(pool.owned(tenant, 1)),
        number_of(pool.owned(tenant, 2)),
        number_of(pool.owned(tenant, 3)),
    ]
}

/// Puts a span. Where memory is refused, what both own is the same, and the span is there to be put again.
fn put(rt: &impl Abort, pool: &mut SpanPool<StoredSpan>, span: StoredSpan) -> u32 {
    let before = (owned(pool, 7), owned(pool, 8));
    match pool.put(span) {
        Ok(key) => key,
        Err(failed) => {
            assert!(rt; (owned(pool, 7), owned(pool, 8)) == before);
            pool.put(failed.value).expect(rt, "memory")
        }
    }
}

/// Puts a span of this owner and number.
fn come(
    rt: &impl Abort,
    alloc: Global,
    pool: &mut SpanPool<StoredSpan>,
    owner: u32,
    number: u32,
) -> u32 {
    let span = span(alloc, owner, number).expect(rt, "memory");
    put(rt, pool, span)
}

fn taken(pool: &mut SpanPool<StoredSpan>, tenant: u32, key: u32) -> u32 {
    match pool.take(tenant, key) {
        Ok(span) => number_of(Some(&span)),
        Err(refused) => refused.number(),
    }
}

fn given(rt: &impl Abort, alloc: Global, pool: &mut SpanPool<StoredSpan>, step: &Step<'_>) -> u32 {
    match step.call {
        "put" => come(rt, alloc, pool, step.tenant, step.number),
        "take" => taken(pool, step.tenant, step.number),
        "undo" => {
            pool.undo_put(step.tenant, step.number);
            0
        }
        "owned" => number_of(pool.owned(step.tenant, step.number)),
        _ => number_of(pool.get(step.number)),
    }
}

/// `put` a span, by its number, gives its key; `take` the span at a key gives its number, or that of the refusal, and
/// `undo` takes it back. `owned` is the number of the tenant's span at a key, `get` that of anyone's.
const STORY: &str = "\
put 7 1 = 0
put 8 2 = 1
put 7 2 = 2
owned 7 0 = 1
owned 7 1 = 0
owned 7 2 = 2
owned 8 0 = 0
owned 8 1 = 2
get 7 1 = 2
get 7 1000 = 0
take 8 0 = 20
take 7 1000 = 20
take 7 0 = 1
take 7 0 = 20
owned 7 0 = 0
owned 7 2 = 2
owned 8 1 = 2
undo 7 1 = 0
owned 8 1 = 2
undo 7 2 = 0
owned 7 2 = 0
owned 8 1 = 2";

// A span is taken by its owner alone, and once. Each run with one allocation refused has to end well, too.
#[test]
fn each_tenant_owns_and_takes_what_it_put(rt: HostRuntime) {
    let mut pool = SpanPool::new(rt.alloc());
    for line in STORY.lines() {
        let step = step_of(line);
        assert!(rt;
            one(given(&rt, rt.alloc(), &mut pool, &step)) == step.wanted,
            "at {line}"
        );
    }
}

// The pool grows; each run with one allocation refused has to end well, too.
#[test]
fn many_spans_come(rt: HostRuntime) {
    let mut pool = SpanPool::new(rt.alloc());
    for _pair in 0..20 {
        come(&rt, rt.alloc(), &mut pool, 7, 1);
        come(&rt, rt.alloc(), &mut pool, 8, 2);
    }
    assert!(rt; owned(&pool, 7) == [1, 0, 1, 0] && owned(&pool, 8) == [0, 2, 0, 2]);
}

#[test]
fn the_refusal_has_a_text(rt: HostRuntime) {
    let text = format!(in rt.alloc(); "{NotYours}").expect(&rt, "memory");
    assert!(rt; text.as_str() == "the tenant owns no span at this key");
    each_span_has_one_owner::<StoredSpan>();
    read_spans_are_viewed();
}

/// The definitions, on small inputs, give what was worked out by hand.
fn definitions_of_kept_spans()
    ensures same_resources { SameResources }
    ensures same_scopes { SameScopes }
    ensures equal_origins { EqualOrigins }
    ensures read_spans { ReadSpans }
    ensures read_resources { ReadResources }
{}
