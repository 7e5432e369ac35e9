//! Rows of two tenants, 7 and 8. The note of a row is the key that came last.

use crate::story::{Numbers, Step, one, row_number, step_of, two};
use std::alloc::{AllocError, Global};
use std::process::Abort;
use trace_rows::{Keys, Row, TraceRows, halves_of};

const TRACE: [u8; 16] = [0x11; 16];

const OTHER: [u8; 16] = [0x12; 16];

/// A row of one span.
fn row(alloc: Global, trace: [u8; 16], key: u32) -> Result<Row<u32>, AllocError> {
    Ok(Row {
        trace,
        due: 1000,
        keys: Keys::one(alloc, key)?,
        note: key,
        sampled: false,
    })
}

/// Opens a row, and tells the trace's row before it. Where the number has a row, nothing opens.
fn open(
    alloc: Global,
    table: &mut TraceRows<u32>,
    tenant: u32,
    number: u64,
    trace: [u8; 16],
    key: u32,
) -> Result<u32, AllocError> {
    let None = table.row(tenant, number) else {
        return Ok(1000);
    };
    let row = row(alloc, trace, key)?;
    Ok(row_number(table.open(tenant, number, row)?))
}

/// The keys of a row.
fn of_keys(keys: &[u32]) -> Numbers {
    match keys {
        [] => one(0),
        [key] => one(*key),
        [first, second] => two(*first, *second),
        _ => one(1000),
    }
}

fn waiting(table: &TraceRows<u32>, tenant: u32, number: u64) -> Numbers {
    match table.row(tenant, number) {
        Some(row) => {
            if row.sampled || row.due != 1000 {
                one(1000)
            } else {
                of_keys(row.keys.as_slice())
            }
        }
        None => one(0),
    }
}

fn noted(table: &TraceRows<u32>, tenant: u32, number: u64) -> Numbers {
    match table.row(tenant, number) {
        Some(row) => two(row.note, u32::from(row.sampled)),
        None => one(0),
    }
}

fn seats(table: &TraceRows<u32>, tenant: u32) -> Numbers {
    let first = row_number(table.latest_row(tenant, TRACE));
    two(first, row_number(table.latest_row(tenant, OTHER)))
}

/// Takes back the opening of a row.
fn undo_open(table: &mut TraceRows<u32>, tenant: u32, number: u64, earlier: u32) {
    let earlier = if earlier == 0 {
        None
    } else {
        Some(earlier as u64)
    };
    table.undo_open(tenant, number, earlier);
}

/// What a call gives that takes memory.
fn put(alloc: Global, table: &mut TraceRows<u32>, step: &Step<'_>) -> Result<u32, AllocError> {
    let number = step.number as u64;
    match step.call {
        "open" => open(alloc, table, step.tenant, number, TRACE, step.other),
        "open-other" => open(alloc, table, step.tenant, number, OTHER, step.other),
        _ => table.join(step.tenant, number, step.other, step.other),
    }
}

/// What a call takes back. The answer is the key that left a row, 0 for none.
fn undo(table: &mut TraceRows<u32>, step: &Step<'_>) -> u32 {
    let number = step.number as u64;
    match step.call {
        "undo-join" => table
            .undo_join(step.tenant, number, step.other)
            .unwrap_or(0),
        _ => {
            undo_open(table, step.tenant, number, step.other);
            0
        }
    }
}

fn settled(alloc: Global, table: &mut TraceRows<u32>, tenant: u32, number: u64) -> Numbers {
    let keys = table.settle(alloc, tenant, number, true);
    of_keys(keys.as_slice())
}

fn swept(alloc: Global, table: &mut TraceRows<u32>, tenant: u32, number: u64) -> Numbers {
    let keys = table.sweep(alloc, tenant, number);
    of_keys(keys.as_slice())
}

/// What a call gives.
fn given(
    alloc: Global,
    table: &mut TraceRows<u32>,
    step: &Step<'_>,
) -> Result<Numbers, AllocError> {
    let number = step.number as u64;
    match step.call {
        "open" | "open-other" | "join" => Ok(one(put(alloc, table, step)?)),
        "waits" => Ok(waiting(table, step.tenant, number)),
        "note" => Ok(noted(table, step.tenant, number)),
        "seats" => Ok(seats(table, step.tenant)),
        "settle" => Ok(settled(alloc, table, step.tenant, number)),
        "sweep" => Ok(swept(alloc, table, step.tenant, number)),
        _ => Ok(one(undo(table, step))),
    }
}

/// What there is of a tenant: how many keys its first rows have and what is noted of them, the same of rows where one
/// block ends and the next begins, and two latest rows.
fn told(table: &TraceRows<u32>, tenant: u32) -> ([Option<(usize, u32)>; 6], Numbers) {
    let row = |number: u64| match table.row(tenant, number) {
        Some(row) => Some((row.keys.as_slice().len(), row.note)),
        None => None,
    };
    let first = [row(1), row(2), row(3), row(63), row(64), row(65)];
    (first, seats(table, tenant))
}

/// What a call gives. Where memory is refused, both tenants have what they had, and it is done again.
fn given_at_last(
    rt: &impl Abort,
    alloc: Global,
    table: &mut TraceRows<u32>,
    step: &Step<'_>,
) -> Numbers {
    let before = (told(table, 7), told(table, 8));
    if let Ok(numbers) = given(alloc, table, step) {
        return numbers;
    }
    assert!(rt; (told(table, 7), told(table, 8)) == before);
    given(alloc, table, step).expect(rt, "memory")
}

/// With the number of a row and a key: `open` gives the trace's row before, and `join` the note before. `undo-join`
/// takes back a join after that note and gives its key, and `undo-open` an opening before which the trace had that row,
/// of either trace. `settle` and
/// `sweep` give the keys of a row that is sampled and one that leaves, `waits` those of one that waits, `note` its note
/// and whether it was sampled, and `seats` the rows of the two traces.
///
/// In the end many come, so that a row grows, and the table.
const STORY: &str = "\
open 7 1 10 = 0
open 8 1 20 = 0
join 7 1 11 = 10
join 7 2 12 = 12
waits 7 1 = 10 11
note 7 1 = 11
note 7 2 = 0
settle 7 1 = 10 11
note 7 1 = 11 1
open 7 2 12 = 1
sweep 7 1 = 0
note 7 1 = 0
seats 7 = 2
sweep 7 2 = 12
seats 7 = 0
seats 8 = 1
waits 8 1 = 20
open 7 3 10 = 0
join 7 3 11 = 10
undo-join 7 3 10 = 11
undo-join 7 9 10 = 0
waits 7 3 = 10
note 7 3 = 10
open 7 4 12 = 3
undo-open 7 4 3 = 0
undo-open 7 4 1 = 0
seats 7 = 3
note 7 4 = 0
open-other 7 5 12 = 0
seats 7 = 3 5
undo-open 7 5 0 = 0
seats 7 = 3
waits 7 3 = 10
open 7 1 10 = 3
open-other 8 2 10 = 0
open 7 2 10 = 1
open-other 8 3 10 = 2
join 7 2 21 = 10
join 7 2 22 = 21
join 7 2 23 = 22
join 7 2 24 = 23
join 7 2 25 = 24
join 7 2 26 = 25
join 7 2 27 = 26
join 7 2 28 = 27
join 7 2 29 = 28
note 7 2 = 29
note 7 3 = 10
note 8 1 = 20
note 8 3 = 10
seats 7 = 2
seats 8 = 1 3";

/// The same with rows on both sides of a block's end, of two tenants side by side: one in the middle leaves, the latest
/// is undone, a block that has no row any more gets one again, and rows open that don't follow each other.
const BLOCKS: &str = "\
open 7 63 10 = 0
open 7 64 11 = 63
open 7 65 12 = 64
open 8 64 20 = 0
open-other 8 65 21 = 0
sweep 7 64 = 11
waits 7 64 = 0
waits 7 63 = 10
waits 7 65 = 12
waits 8 64 = 20
join 7 64 13 = 13
waits 7 64 = 0
seats 7 = 65
undo-open 7 65 63 = 0
waits 7 65 = 0
waits 7 63 = 10
seats 7 = 63
open 7 64 14 = 63
waits 7 64 = 14
open 7 130 15 = 64
open 7 128 16 = 130
waits 7 129 = 0
sweep 7 130 = 15
waits 7 128 = 16
seats 7 = 128
settle 7 128 = 16
note 7 128 = 16 1
sweep 7 63 = 10
sweep 7 64 = 14
sweep 7 64 = 0
note 7 128 = 16 1
sweep 7 128 = 0
note 7 128 = 0
seats 7 = 0
waits 8 64 = 20
waits 8 65 = 21
seats 8 = 64 65";

/// A story is told to a new table.
fn is_told(rt: &impl Abort, alloc: Global, story: &str) {
    let mut table = TraceRows::new(alloc);
    for line in story.lines() {
        let step = step_of(line);
        assert!(rt;
            given_at_last(rt, alloc, &mut table, &step) == step.wanted,
            "at {line}"
        );
    }
}

// Each run with one allocation refused has to end well, too.
#[test]
fn rows_open_join_are_decided_and_leave(rt: HostRuntime) {
    is_told(&rt, rt.alloc(), STORY);
}

// The same of this one.
#[test]
fn rows_in_the_middle_leave_and_come_again(rt: HostRuntime) {
    is_told(&rt, rt.alloc(), BLOCKS);
}

#[test]
fn an_id_is_two_numbers(rt: HostRuntime) {
    let id = [0, 1, 2, 3, 4, 5, 6, 7, 8, 9, 10, 11, 12, 13, 14, 15];
    assert!(rt; halves_of(id) == (0x0001_0203_0405_0607, 0x0809_0a0b_0c0d_0e0f));
}
