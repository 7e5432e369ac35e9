//! Texts of two tenants, 7 and 8, in one pool.

use crate::story::{Step, one, step_of};
use bytes::Bytes;
use std::alloc::{AllocError, Global};
use std::process::Abort;
use text_pool::{CountedText, SharedBytes, TextPool};
use text_slice::TextSlice;

const FIRST: &[u8] = b"a resource";

const SECOND: &[u8] = b"another one";

/// As long as the first.
const THIRD: &[u8] = b"a resourcf";

fn text(alloc: Global, bytes: &[u8]) -> Result<SharedBytes, AllocError> {
    SharedBytes::of(alloc, TextSlice::copy_from_slice(alloc, bytes)?)
}

#[test]
fn texts_are_the_same_by_their_bytes(rt: HostRuntime) {
    let first = text(rt.alloc(), FIRST).expect(&rt, "memory");
    let again = text(rt.alloc(), FIRST).expect(&rt, "memory");
    let other = text(rt.alloc(), THIRD).expect(&rt, "memory");
    assert!(rt; first.is_same(&again) && !first.is_same(&other));
}

#[test]
fn a_text_is_shared_with_its_bytes(rt: HostRuntime) {
    let first = text(rt.alloc(), FIRST).expect(&rt, "memory");
    let shared = first.shared().expect(&rt, "memory");
    assert!(rt; shared.bytes().as_slice() == FIRST);
    assert!(rt; shared.is_same(&first));
}

#[test]
fn a_text_is_a_pointer_and_what_is_kept_of_it_has_24_bytes(rt: HostRuntime) {
    assert!(rt; size_of::<SharedBytes>() == 8);
    assert!(rt; size_of::<CountedText>() == 24);
}

fn text_of(alloc: Global, number: u32) -> Result<SharedBytes, AllocError> {
    match number {
        1 => text(alloc, FIRST),
        2 => text(alloc, SECOND),
        _ => text(alloc, THIRD),
    }
}

/// Which text this is, from 1 on.
fn number_of(bytes: &[u8]) -> u32 {
    if bytes == FIRST {
        1
    } else if bytes == SECOND {
        2
    } else {
        3
    }
}

/// Which text the tenant has at a key, 0 for none.
fn at(pool: &TextPool, tenant: u32, key: u32) -> u32 {
    match pool.text(tenant, key) {
        Some(text) => number_of(text.as_slice()),
        None => 0,
    }
}

/// Which texts a tenant has at the first four keys.
fn told(pool: &TextPool, tenant: u32) -> [u32; 4] {
    [
        at(pool, tenant, 0),
        at(pool, tenant, 1),
        at(pool, tenant, 2),
        at(pool, tenant, 3),
    ]
}

fn given(alloc: Global, pool: &mut TextPool, step: &Step<'_>) -> Result<u32, AllocError> {
    match step.call {
        "hold" => pool.hold(step.tenant, &text_of(alloc, step.number)?),
        "again" => pool.hold_again(step.tenant, step.number),
        "release" => {
            pool.release(step.tenant, step.number);
            Ok(0)
        }
        "same" => Ok(u32::from(pool.is_same(step.tenant, step.number, step.other))),
        _ => Ok(at(pool, step.tenant, step.number)),
    }
}

/// What a call gives. Where memory is refused, both tenants have what they had, and it is done again.
fn given_at_last(rt: &impl Abort, alloc: Global, pool: &mut TextPool, step: &Step<'_>) -> u32 {
    let before = (told(pool, 7), told(pool, 8));
    if let Ok(number) = given(alloc, pool, step) {
        return number;
    }
    assert!(rt; (told(pool, 7), told(pool, 8)) == before);
    given(alloc, pool, step).expect(rt, "memory")
}

/// `hold` a text, by its number, and `again` that at a key give its key; `release` lets go of the text at a key, and
/// `text` is which one is there. `same` is whether two keys are of one text; a key that isn't the tenant's has none.
const STORY: &str = "\
hold 7 1 = 0
hold 7 2 = 1
hold 7 1 = 0
again 7 0 = 0
hold 8 1 = 2
text 7 2 = 0
text 8 0 = 0
release 8 0 = 0
release 7 2 = 0
again 7 2 = 2
text 8 2 = 1
release 7 0 = 0
text 7 0 = 1
release 7 0 = 0
text 7 0 = 1
release 7 0 = 0
text 7 0 = 0
release 7 0 = 0
text 7 1 = 2
hold 8 3 = 0
text 7 0 = 0
text 8 0 = 3
hold 7 1 = 3
text 7 3 = 1
release 8 0 = 0
text 8 0 = 0
hold 7 1 = 3
release 8 2 = 0
text 8 2 = 0
text 7 1 = 2
hold 8 1 = 2
same 7 3 3 = 1
same 7 3 1 = 0
same 7 3 2 = 0
same 8 3 2 = 0
same 8 3 1 = 1
same 7 100 200 = 1";

/// A text that is all of a body, and shares it.
fn text_of_body(rt: &impl Abort, alloc: Global, body: &Bytes) -> SharedBytes {
    let shared = body.clone().expect(rt, "memory");
    let slice = TextSlice::of(alloc, shared).expect(rt, "memory");
    SharedBytes::of(alloc, slice).expect(rt, "memory")
}

// The text is all of a body. A pool that kept it would hold the body.
#[test]
fn no_body_is_held_by_the_pool(rt: HostRuntime) {
    let body = Bytes::copy_from_slice(rt.alloc(), FIRST).expect(&rt, "memory");
    let text = text_of_body(&rt, rt.alloc(), &body);
    let mut pool = TextPool::new(rt.alloc());
    let key = pool.hold(7, &text).expect(&rt, "memory");
    assert!(rt; !body.is_unique());
    drop(text);
    assert!(rt; body.is_unique() && at(&pool, 7, key) == 1);
}

// Equal texts of two tenants are apart. A key goes to another text after its last use. Each run with one allocation
// refused has to end well, too.
#[test]
fn texts_are_kept_once_a_tenant_until_their_last_use(rt: HostRuntime) {
    let mut pool = TextPool::new(rt.alloc());
    for line in STORY.lines() {
        let step = step_of(line);
        assert!(rt;
            one(given_at_last(&rt, rt.alloc(), &mut pool, &step)) == step.wanted,
            "at {line}"
        );
    }
}
