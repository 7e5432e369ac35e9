//! Whose turn it is, as an agenda tells it.

use shard_agenda::Agenda;
use std::alloc::AllocError;
use std::process::Abort;

/// What becomes of a member.
#[derive(Clone, Copy)]
enum Change {
    /// It is ready at this moment, and comes where it is no member.
    Ready(u64),
    /// It isn't ready, and comes where it is no member.
    Waits,
    Goes,
}

/// A member, what becomes of it, and who goes first at a moment then.
type Turn = (u32, Change, u64, Option<u32>);

/// The least moment goes first, and at one moment the least number.
const TWO: [Turn; 7] = [
    (5, Change::Waits, 9, None),
    (3, Change::Waits, 9, None),
    (5, Change::Ready(7), 6, None),
    (5, Change::Ready(7), 7, Some(5)),
    (3, Change::Ready(7), 7, Some(3)),
    (3, Change::Ready(8), 9, Some(5)),
    (5, Change::Waits, 9, Some(3)),
];

/// Of five the higher number is ready first. Who has gone has no turn, also once it comes again.
const FIVE: [Turn; 13] = [
    (1, Change::Ready(5), 9, Some(1)),
    (2, Change::Ready(4), 9, Some(2)),
    (3, Change::Ready(3), 9, Some(3)),
    (4, Change::Ready(2), 9, Some(4)),
    (5, Change::Ready(1), 9, Some(5)),
    (5, Change::Goes, 9, Some(4)),
    (1, Change::Goes, 9, Some(4)),
    (4, Change::Goes, 9, Some(3)),
    (4, Change::Goes, 9, Some(3)),
    (2, Change::Ready(1), 1, Some(2)),
    (2, Change::Goes, 9, Some(3)),
    (3, Change::Goes, 9, None),
    (5, Change::Waits, 9, None),
];

/// Does to a member what becomes of it. The answer is when it is ready.
fn apply(agenda: &mut Agenda, member: u32, change: Change) -> Result<Option<u64>, AllocError> {
    let ready = match change {
        Change::Ready(moment) => Some(moment),
        Change::Waits => None,
        Change::Goes => {
            agenda.dismiss(member);
            return Ok(None);
        }
    };
    agenda.admit(member)?;
    agenda.set(member, ready);
    Ok(ready)
}

/// Takes these turns, and looks who goes first after each.
fn take_turns(rt: &impl Abort, agenda: &mut Agenda, turns: &[Turn]) {
    for (member, change, moment, first) in turns {
        apply(agenda, *member, *change).expect(rt, "memory");
        assert!(rt; agenda.first_due(*moment) == *first, "{member}");
    }
}

#[test]
fn the_least_moment_and_number_goes_first(rt: HostRuntime) {
    let mut agenda = Agenda::new(rt.alloc());
    take_turns(&rt, &mut agenda, &TWO);
}

#[test]
fn who_was_dismissed_has_no_turn(rt: HostRuntime) {
    let mut agenda = Agenda::new(rt.alloc());
    take_turns(&rt, &mut agenda, &FIVE);
}

/// A member, what becomes of it, and when the first of all is ready then.
const NEXT: [(u32, Change, Option<u64>); 11] = [
    (3, Change::Waits, None),
    (5, Change::Ready(7), Some(7)),
    (3, Change::Ready(9), Some(7)),
    (4, Change::Ready(u64::MAX), Some(7)),
    (3, Change::Ready(0), Some(0)),
    (3, Change::Ready(8), Some(7)),
    (5, Change::Waits, Some(8)),
    (3, Change::Waits, Some(u64::MAX)),
    (4, Change::Waits, None),
    (4, Change::Ready(6), Some(6)),
    (4, Change::Goes, None),
];

/// Whether a member is ready at this moment, the first of all at that one, and who is no member at none.
fn is_next(agenda: &Agenda, member: u32, ready: Option<u64>, next: Option<u64>) -> bool {
    agenda.ready(member) == ready && agenda.next() == next && agenda.ready(2) == None
}

/// Goes through these changes, and looks what is next after each.
fn follow(rt: &impl Abort, agenda: &mut Agenda) {
    for (member, change, next) in NEXT {
        let ready = apply(agenda, member, change).expect(rt, "memory");
        assert!(rt; is_next(agenda, member, ready, next), "{member}");
    }
}

#[test]
fn the_least_moment_is_next(rt: HostRuntime) {
    let mut agenda = Agenda::new(rt.alloc());
    assert!(rt; is_next(&agenda, 3, None, None));
    follow(&rt, &mut agenda);
}
