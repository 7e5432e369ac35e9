//! Stories of two tenants, 7 and 8, in stores that they share.

use crate::placed::{
    A, B, C, OTHER, TRACE, held, join, keys_from, late, open, row_at, seats, spans, texts, told,
};
use crate::story::{Numbers, Step, one, row_number, small, step_of, two};
use std::alloc::{AllocError, Global};
use std::mem::size_of;
use std::process::Abort;
use tenant_stores::{Stores, UndoEntry};

/// The span of this number.
fn name_of(number: u32) -> &'static [u8] {
    match number {
        1 => A,
        2 => B,
        _ => C,
    }
}

/// The keys of a resource and a scope that are held.
fn held_at(alloc: Global, stores: &mut Stores<u64>, tenant: u32) -> Result<Numbers, AllocError> {
    let keys = held(alloc, stores, tenant)?;
    match (keys.resource, keys.scope) {
        (Some(resource), Some(scope)) => Ok(two(resource, scope)),
        _ => Ok(one(1000)),
    }
}

/// The key of a span that opened a row, and the trace's row before.
fn opened(alloc: Global, stores: &mut Stores<u64>, step: &Step<'_>) -> Result<Numbers, AllocError> {
    let number = step.number as u64;
    let name = name_of(step.other);
    match open(alloc, stores, step.tenant, number, TRACE, name)? {
        Some(opening) => Ok(two(opening.key, row_number(opening.earlier))),
        None => Ok(one(1000)),
    }
}

/// The key of a span that joined a row, and the row's note before.
fn joined(alloc: Global, stores: &mut Stores<u64>, step: &Step<'_>) -> Result<Numbers, AllocError> {
    let number = step.number as u64;
    let joining = join(alloc, stores, step.tenant, number, name_of(step.other), 2)?;
    Ok(two(joining.key, small(joining.former)))
}

/// The keys of the spans of a row that is sampled.
fn kept(stores: &mut Stores<u64>, tenant: u32, number: u64) -> Numbers {
    let keys = stores.keep_row(tenant, number);
    match keys.as_slice() {
        [first, second] => two(*first, *second),
        _ => one(1000),
    }
}

/// How many spans a row has, its note, and whether it is there, and sampled.
fn row_of(stores: &Stores<u64>, tenant: u32, number: u64) -> Numbers {
    match row_at(stores, tenant, number) {
        Some((spans, note, sampled)) => [
            small(spans as u64),
            small(note),
            1,
            u32::from(sampled),
            0,
            0,
        ],
        None => one(0),
    }
}

/// What a call gives that takes no memory.
fn given_at_once(stores: &mut Stores<u64>, step: &Step<'_>) -> Numbers {
    let tenant = step.tenant;
    let number = step.number as u64;
    match step.call {
        "release" => {
            stores.release_all(tenant, keys_from(step.number));
            one(0)
        }
        "flush" => {
            stores.flush(tenant, [step.number].as_slice());
            one(0)
        }
        "keep" => kept(stores, tenant, number),
        "drop" => one(small(stores.drop_row(tenant, number) as u64)),
        "sweep" => one(small(stores.sweep(tenant, number) as u64)),
        "vanish" => {
            stores.vanish(tenant, number, step.other as u64);
            one(0)
        }
        _ => seen(stores, step),
    }
}

/// What is there.
fn seen(stores: &Stores<u64>, step: &Step<'_>) -> Numbers {
    match step.call {
        "row" => row_of(stores, step.tenant, step.number as u64),
        "spans" => spans(stores, step.tenant),
        "texts" => texts(stores, step.tenant),
        _ => {
            let [first, second] = seats(stores, step.tenant);
            two(row_number(first), row_number(second))
        }
    }
}

/// The key of a late span.
fn kept_late(
    alloc: Global,
    stores: &mut Stores<u64>,
    step: &Step<'_>,
) -> Result<Numbers, AllocError> {
    let keys = keys_from(step.number);
    let key = late(alloc, stores, step.tenant, keys, name_of(step.other))?;
    Ok(one(key))
}

/// What a call gives.
fn given(alloc: Global, stores: &mut Stores<u64>, step: &Step<'_>) -> Result<Numbers, AllocError> {
    match step.call {
        "hold" => held_at(alloc, stores, step.tenant),
        "late" => kept_late(alloc, stores, step),
        "open" => opened(alloc, stores, step),
        "join" => joined(alloc, stores, step),
        _ => Ok(given_at_once(stores, step)),
    }
}

/// What a call gives. Where memory is refused, both tenants have what they had, and it is done again.
fn given_at_last(
    rt: &impl Abort,
    alloc: Global,
    stores: &mut Stores<u64>,
    step: &Step<'_>,
) -> Numbers {
    let before = (told(stores, 7), told(stores, 8));
    if let Ok(numbers) = given(alloc, stores, step) {
        return numbers;
    }
    assert!(rt; (told(stores, 7), told(stores, 8)) == before);
    given(alloc, stores, step).expect(rt, "memory")
}

/// Tells a story to new stores.
fn tell(rt: &impl Abort, alloc: Global, story: &str) {
    let mut stores = Stores::new(alloc);
    for line in story.lines() {
        let step = step_of(line);
        assert!(rt;
            given_at_last(rt, alloc, &mut stores, &step) == step.wanted,
            "at {line}"
        );
    }
}

/// A call a line, with what it gives:
///
/// - `hold`: the keys of a resource and a scope; `release` lets go of those texts whose scope is at a key;
/// - `open`, `join` with the number of a row and a span: the span's key, and the trace's row or the row's note before;
/// - `late` with the key of a scope and a span: the span's key; `flush` a span's key;
/// - `keep` a row: its keys; `drop`, `sweep` a row: how many spans leave with it; `vanish` rows by two numbers;
/// - `row`: how many spans it has, its note, 1, and whether it was sampled; `seats`: the rows of two traces;
/// - `spans` at the first six keys, 0 for none; `texts` at the first six, the resource as 4, the scope as 5.
const STORIES: &str = "\
open 7 1 1 = 0 0
open 8 1 1 = 1 0
join 7 1 2 = 2 1
open 8 2 2 = 3 1
row 7 1 = 2 2 1 0
row 8 1 = 1 1 1 0
seats 7 = 1 0
seats 8 = 2 0
spans 7 = 1 0 2 0 0 0
spans 8 = 0 1 0 2 0 0
keep 7 1 = 0 2
row 7 1 = 0 2 1 1
spans 7 = 1 0 2 0 0 0
drop 8 1 = 1
row 8 1 = 0 1 1 0
spans 8 = 0 0 0 2 0 0
flush 7 0 = 0
spans 7 = 0 0 2 0 0 0
sweep 7 1 = 0
row 7 1 = 0
seats 7 = 0
sweep 8 1 = 0
sweep 8 2 = 1
row 8 2 = 0
seats 8 = 0
spans 7 = 0 0 2 0 0 0
spans 8 = 0 0 0 0 0 0

hold 7 = 1 0
hold 8 = 3 2
texts 7 = 5 4 0 0
texts 8 = 0 0 5 4
late 7 0 1 = 0
late 7 0 2 = 1
release 7 0 = 0
release 8 0 = 0
texts 7 = 5 4 0 0
texts 8 = 0 0 5 4
flush 7 0 = 0
texts 7 = 5 4 0 0
flush 8 1 = 0
spans 7 = 0 2 0 0 0 0
flush 7 1 = 0
texts 7 = 0 0 0 0
texts 8 = 0 0 5 4
release 8 2 = 0
texts 8 = 0 0 0 0

hold 7 = 1 0
open 7 1 1 = 0 0
join 7 1 2 = 1 1
open 7 2 1 = 2 1
late 7 0 3 = 3
hold 8 = 3 2
open 8 1 1 = 4 0
join 8 1 2 = 5 1
open 8 2 1 = 6 1
late 8 2 3 = 7
spans 7 = 1 2 1 3 0 0
spans 8 = 0 0 0 0 1 2
texts 7 = 5 4 0 0
texts 8 = 0 0 5 4
row 7 1 = 2 2 1 0
row 8 2 = 1 1 1 0

open 7 1 1 = 0 0
join 7 1 2 = 1 1
open 7 2 1 = 2 1
open 7 3 2 = 3 2
open 8 1 3 = 4 0
sweep 7 1 = 2
vanish 7 1 3 = 0
row 7 2 = 0
row 7 3 = 0
seats 7 = 0
spans 7 = 0 0 0 0 0 0
spans 8 = 0 0 0 0 3 0
row 8 1 = 1 1 1 0
seats 8 = 1";

// Each run with one allocation refused has to end well, too.
#[test]
fn stories_of_two_tenants(rt: HostRuntime) {
    for story in STORIES.split("\n\n") {
        tell(&rt, rt.alloc(), story);
    }
}

// A note of a row's spans has 24 bytes, as policies make it.
#[test]
fn what_undoes_a_span_is_told_in_40_bytes(rt: HostRuntime) {
    assert!(rt; size_of::<UndoEntry<[u64; 3]>>() == 40);
}

/// A span joins the first row, and the journal tells so.
fn joins(
    alloc: Global,
    stores: &mut Stores<u64>,
    journal: &mut Vec<UndoEntry<u64>>,
) -> Result<(), AllocError> {
    let joining = join(alloc, stores, 7, 1, B, 2)?;
    journal.push(UndoEntry::Joined(1, joining.former))?;
    Ok(())
}

/// A span opens a row, and the journal tells so.
fn opens(
    alloc: Global,
    stores: &mut Stores<u64>,
    journal: &mut Vec<UndoEntry<u64>>,
    number: u64,
    trace: [u8; 16],
) -> Result<(), AllocError> {
    if let Some(opening) = open(alloc, stores, 7, number, trace, B)? {
        journal.push(UndoEntry::Opened(number, opening.key, opening.earlier))?;
    }
    Ok(())
}

/// A late span comes, and the journal tells so.
fn comes_late(
    alloc: Global,
    stores: &mut Stores<u64>,
    journal: &mut Vec<UndoEntry<u64>>,
) -> Result<(), AllocError> {
    journal.push(UndoEntry::Late(late(alloc, stores, 7, keys_from(0), C)?))?;
    Ok(())
}

/// Spans of each kind come.
fn post(
    alloc: Global,
    stores: &mut Stores<u64>,
    journal: &mut Vec<UndoEntry<u64>>,
) -> Result<(), AllocError> {
    joins(alloc, stores, journal)?;
    opens(alloc, stores, journal, 2, OTHER)?;
    journal.push(UndoEntry::Left)?;
    opens(alloc, stores, journal, 3, TRACE)?;
    comes_late(alloc, stores, journal)
}

/// Stores in which tenant 7 holds the first two texts, and both tenants have a row.
fn begin(alloc: Global, stores: &mut Stores<u64>) -> Result<bool, AllocError> {
    let _keys = held(alloc, stores, 7)?;
    let seven = open(alloc, stores, 7, 1, TRACE, A)?.is_some();
    let eight = open(alloc, stores, 8, 1, TRACE, A)?.is_some();
    Ok(seven && eight)
}

/// Whether the spans of a post are there, with their trace's latest row.
fn is_posted(stores: &Stores<u64>) -> bool {
    spans(stores, 7) == [1, 0, 2, 2, 2, 3] && stores.latest_row(7, TRACE) == Some(3)
}

/// Whether a post's spans come where both tenants have a row, and leave as it is taken back. The other tenant has what
/// it had all along.
fn is_taken_back(rt: &impl Abort, alloc: Global, stores: &mut Stores<u64>) -> bool {
    let begun = begin(alloc, stores).expect(rt, "memory");
    let (seven, eight) = (told(stores, 7), told(stores, 8));
    let mut journal = Vec::new(alloc);
    post(alloc, stores, &mut journal).expect(rt, "memory");
    let came = is_posted(stores) && told(stores, 7) != seven && told(stores, 8) == eight;
    stores.take_all_back(7, &mut journal);
    let left = journal.is_empty() && told(stores, 7) == seven && told(stores, 8) == eight;
    begun && came && left
}

#[test]
fn what_a_post_did_is_taken_back(rt: HostRuntime) {
    let mut stores = Stores::new(rt.alloc());
    assert!(rt; is_taken_back(&rt, rt.alloc(), &mut stores));
}
