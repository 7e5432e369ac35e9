//! Parts run side by side.

use span_view::{SpanRef, is_text};
use std::alloc::AllocError;
use std::process::Abort;
use std::sync::atomic::{AtomicBool, Ordering};
use std::thread;
use tail_notes::note_all;
use tail_policy::Policy;

/// Holds the note of a span that starts at 0 until the note of one that starts later was begun.
#[derive(Drop)]
struct Gate {
    // How many turns a note is held at most.
    turns: u32,
    begun: AtomicBool,
    passed: AtomicBool,
}

impl Gate {
    fn closed(turns: u32) -> Gate {
        Gate {
            turns,
            begun: AtomicBool::new(false),
            passed: AtomicBool::new(false),
        }
    }

    /// Waits for the later span.
    fn hold(&self) {
        for _ in 0..self.turns {
            if self.begun.load(Ordering::SeqCst) {
                self.passed.store(true, Ordering::SeqCst);
                return;
            }
            thread::yield_now();
        }
    }
}

impl Policy for Gate {
    ghost use Rattle.std.specs.Prelude.{true, refl};

    type Note = bool;

    ghost note_of = { λ gate span. true };

    ghost joined = { λ gate first second. first };

    ghost verdict_of = { λ gate note. true };

    ghost samples = { λ gate spans. true };

    ghost associative = { λ gate a b c. refl };

    ghost means = { λ gate span spans. refl };

    fn note(&self, span: &SpanRef<'_>) -> Result<bool, AllocError> {
        if span.start() == 0 {
            self.hold();
        } else {
            self.begun.store(true, Ordering::SeqCst);
        }
        Ok(true)
    }

    fn join(&self, first: bool, _second: bool) -> bool {
        first
    }

    fn verdict(&self, _note: &bool) -> bool {
        true
    }
}

/// At 1.
const LATER: &[u8] = b"\x39\x01\x00\x00\x00\x00\x00\x00\x00";

fn checked<'a>(rt: &impl Abort, span: &'a [u8]) -> SpanRef<'a> {
    assert!(rt; is_text(span, b""));
    SpanRef::of(span, b"")
}

#[test]
fn the_first_part_waits_for_the_second(rt: HostRuntime) {
    let gate = Gate::closed(1_000_000);
    let spans = [checked(&rt, b""), checked(&rt, LATER)];
    let notes = note_all(&rt, rt.alloc(), &gate, &spans, 2).expect(&rt, "memory");
    assert_eq!(rt; notes.len(), 2);
    assert!(rt; gate.passed.load(Ordering::SeqCst));
}

#[test]
fn one_part_waits_in_vain(rt: HostRuntime) {
    let gate = Gate::closed(2_000);
    let spans = [checked(&rt, b""), checked(&rt, LATER)];
    let notes = note_all(&rt, rt.alloc(), &gate, &spans, 1).expect(&rt, "memory");
    assert_eq!(rt; notes.len(), 2);
    assert!(rt; !gate.passed.load(Ordering::SeqCst));
}
