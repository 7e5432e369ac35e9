//! Caches of decisions: two tenants' by a story, and caches of one to three ids beside the events of their ids.

use crate::story::{Step, one, small, step_of};
use decision_cache::{DecisionCaches, HashKeys};
use std::alloc::{AllocError, Global};
use std::io;
use std::process::Abort;
use std::random::RandomSource;

const KEYS: HashKeys = HashKeys {
    first: 0x0123_4567_89ab_cdef,
    second: 7,
};

/// Ids that differ in one byte.
fn id(number: u32) -> [u8; 16] {
    let last = match number {
        1 => 1,
        2 => 2,
        3 => 3,
        4 => 4,
        5 => 5,
        _ => 0,
    };
    [0, 1, 2, 3, 4, 5, 6, 7, 8, 9, 10, 11, 12, 13, 14, last]
}

/// 2 for a trace that was sampled, 1 for one that wasn't, and 0 where no cache has its id.
fn verdict(found: Option<bool>) -> u32 {
    match found {
        Some(true) => 2,
        Some(false) => 1,
        None => 0,
    }
}

/// What is found, which is hit.
fn hit(caches: &mut DecisionCaches, number: u32) -> Result<u32, AllocError> {
    let trace = id(number);
    let found = caches.find(trace);
    if let Some(sampled) = found {
        caches.push_hit(trace, sampled)?;
    }
    Ok(verdict(found))
}

/// What a call gives.
fn given(caches: &mut DecisionCaches, step: &Step<'_>) -> Result<u32, AllocError> {
    match step.call {
        "find" => Ok(verdict(caches.find(id(step.number)))),
        "hit" => hit(caches, step.number),
        "put" => {
            caches.commit();
            caches.put(id(step.number), step.other == 2)?;
            Ok(0)
        }
        "undo" => {
            caches.undo_hits(step.number as usize);
            Ok(0)
        }
        _ => {
            caches.commit();
            Ok(0)
        }
    }
}

/// What is found of each id.
fn told(caches: &DecisionCaches) -> [u32; 6] {
    let one = |number: u32| verdict(caches.find(id(number)));
    [one(0), one(1), one(2), one(3), one(4), one(5)]
}

/// What a call gives. Where memory is refused, the same ids are found, and it is done again.
fn given_at_last(rt: &impl Abort, caches: &mut DecisionCaches, step: &Step<'_>) -> u32 {
    let before = told(caches);
    if let Ok(number) = given(caches, step) {
        return number;
    }
    assert!(rt; told(caches) == before);
    given(caches, step).expect(rt, "memory")
}

/// Tenant 7 has a cache of two sampled ids and one of one other, tenant 8 none of sampled ids and one of three others.
/// With the number of an id: `put` commits and puts it under a verdict, `hit` and `find` give the verdict found, and
/// `undo` takes back the hits behind the first so many.
const STORY: &str = "\
find 7 1 = 0
put 7 1 2 = 0
put 7 2 2 = 0
find 7 1 = 2
find 7 2 = 2
hit 7 1 = 2
put 7 3 2 = 0
find 7 1 = 2
find 7 2 = 0
hit 7 1 = 2
undo 7 0 = 0
put 7 4 2 = 0
find 7 1 = 0
find 7 3 = 2
hit 7 3 = 2
hit 7 4 = 2
put 7 5 2 = 0
find 7 3 = 0
find 7 4 = 2
hit 7 5 = 2
hit 7 4 = 2
undo 7 1 = 0
put 7 1 2 = 0
find 7 4 = 0
find 7 5 = 2
put 7 1 1 = 0
find 7 1 = 2
put 7 0 2 = 0
put 7 3 2 = 0
find 7 1 = 1
put 7 2 1 = 0
find 7 1 = 0
hit 7 2 = 1
commit 7 = 0
find 7 2 = 1
put 8 1 2 = 0
find 8 1 = 0
put 8 1 1 = 0
put 8 2 1 = 0
put 8 3 1 = 0
hit 8 1 = 1
hit 8 2 = 1
put 8 4 1 = 0
find 8 3 = 0
find 8 1 = 1
put 8 2 1 = 0
put 8 5 1 = 0
find 8 1 = 0
find 8 4 = 1
find 7 3 = 2";

/// Tells the story to the caches of both tenants.
fn tell(rt: &impl Abort, seven: &mut DecisionCaches, eight: &mut DecisionCaches) {
    for line in STORY.lines() {
        let step = step_of(line);
        let answer = if step.tenant == 7 {
            given_at_last(rt, seven, &step)
        } else {
            given_at_last(rt, eight, &step)
        };
        assert!(rt; answer == step.wanted[0], "at {line}");
    }
}

/// The same where the second tenant's caches are new.
fn tell_beside(rt: &impl Abort, alloc: Global, seven: &mut DecisionCaches) {
    let mut eight = DecisionCaches::new(alloc, 0, 3, KEYS).expect(rt, "memory");
    tell(rt, seven, &mut eight);
}

// Each run with one allocation refused has to end well, too.
#[test]
fn decisions_are_found_until_others_were_used_later(rt: HostRuntime) {
    let mut seven = DecisionCaches::new(rt.alloc(), 2, 1, KEYS).expect(&rt, "memory");
    tell_beside(&rt, rt.alloc(), &mut seven);
}

/// When each id had its last event in a cache, 0 for never.
type Events = [u32; 6];

/// The events of the ids of both caches.
#[derive(Clone, Copy)]
struct BothEvents {
    sampled: Events,
    other: Events,
}

/// Two caches of this size by the events of their ids, without what was hit since the last commit, and with it.
#[derive(Drop)]
struct Plain {
    size: usize,
    kept: BothEvents,
    shown: BothEvents,
}

/// Whether a cache of this size has the id whose last event was then: fewer ids than that had events after it.
fn is_cached(size: usize, events: &Events, last: u32) -> bool {
    last > 0 && events.iter().filter(|event| **event > last).count() < size
}

impl Plain {
    fn find(&self, number: u32) -> u32 {
        let at = number as usize % 6;
        if is_cached(self.size, &self.shown.sampled, self.shown.sampled[at]) {
            2
        } else if is_cached(self.size, &self.shown.other, self.shown.other[at]) {
            1
        } else {
            0
        }
    }

    fn note(&mut self, number: u32, verdict: u32, moment: u32) {
        let at = number as usize % 6;
        if verdict == 2 {
            self.shown.sampled[at] = moment;
        } else {
            self.shown.other[at] = moment;
        }
    }

    /// What a call does, at a moment.
    fn follow(&mut self, step: &Step<'_>, moment: u32) {
        match step.call {
            "hit" => {
                let verdict = self.find(step.number);
                if verdict > 0 {
                    self.note(step.number, verdict, moment);
                }
            }
            "undo" => self.shown = self.kept,
            "put" => {
                self.note(step.number, step.other, moment);
                self.kept = self.shown;
            }
            _ => self.kept = self.shown,
        }
    }

    fn told(&self) -> [u32; 6] {
        [
            self.find(0),
            self.find(1),
            self.find(2),
            self.find(3),
            self.find(4),
            self.find(5),
        ]
    }
}

/// A call by a number that chance picked.
fn step_by(pick: u32) -> Step<'static> {
    let call = match pick % 8 {
        0 | 1 | 2 => "put",
        3 | 4 | 5 => "hit",
        6 => "commit",
        _ => "undo",
    };
    Step {
        call,
        tenant: 7,
        number: if call == "undo" { 0 } else { pick / 8 % 6 },
        other: 1 + pick / 48 % 2,
        wanted: one(0),
    }
}

/// Goes through calls that chance picks, and tells how many there were before caches and events said something else.
fn alike(rt: &impl Abort, caches: &mut DecisionCaches, plain: &mut Plain, calls: u32) -> u32 {
    let mut picked: u64 = 1;
    for moment in 1..calls {
        picked = picked
            .wrapping_mul(6_364_136_223_846_793_005)
            .wrapping_add(1_442_695_040_888_963_407);
        let step = step_by(small(picked >> 33));
        given_at_last(rt, caches, &step);
        plain.follow(&step, moment);
        if told(caches) != plain.told() {
            return moment;
        }
    }
    calls
}

/// The same of new caches of this size.
fn alike_of(rt: &impl Abort, alloc: Global, size: u32, calls: u32) -> u32 {
    let mut caches = DecisionCaches::new(alloc, size, size, KEYS).expect(rt, "memory");
    let never = BothEvents {
        sampled: [0; 6],
        other: [0; 6],
    };
    let mut plain = Plain {
        size: size as usize,
        kept: never,
        shown: never,
    };
    alike(rt, &mut caches, &mut plain, calls)
}

/// A source that gives the bytes 1, 2, 3 and so on.
struct Counting;

impl RandomSource for Counting {
    fn fill_bytes(&self, buf: &mut [u8]) -> io::Result<()> {
        let mut next: u8 = 0;
        for byte in buf.iter_mut() {
            next = next.wrapping_add(1);
            *byte = next;
        }
        Ok(())
    }
}

/// A source that fails.
struct Broken;

impl RandomSource for Broken {
    fn fill_bytes(&self, _buf: &mut [u8]) -> io::Result<()> {
        Err(io::Error::from_raw_os_error(5))
    }
}

#[test]
fn keys_are_what_the_source_gives(rt: HostRuntime) {
    let given = HashKeys::draw(&Counting).expect(&rt, "keys");
    assert!(rt; given.first == 0x0807_0605_0403_0201 && given.second == given.first);
    assert!(rt; HashKeys::draw(&Broken).is_err());
}

#[test]
fn keys_of_the_system_differ(rt: HostRuntime) {
    let one = HashKeys::draw(&rt).expect(&rt, "keys");
    let other = HashKeys::draw(&rt).expect(&rt, "keys");
    assert!(rt; one.first != other.first && one.second != other.second && one.first != one.second);
    assert!(rt; one.of_tenant(1).first == one.first && one.of_tenant(1).second != one.second);
}

#[test]
fn caches_have_the_ids_that_their_events_say(rt: HostRuntime) {
    for size in [1_u32, 2, 3] {
        assert!(rt; alike_of(&rt, rt.alloc(), size, 500) == 500, "with {size}");
    }
}
