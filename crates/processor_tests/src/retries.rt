//! Answers and attempts that were worked out by hand.

use crate::answers::answer;
use crate::lines::{cut, number, small, words};
use crate::retry_settings::{ENDLESS, LONG_ENOUGH};
use send_retry::{NextDelay, RetryState, Verdict, classify, next_delay};
use std::alloc::Global;
use std::process::Abort;
use tail_settings::RetryOnFailure;

/// A millisecond less than is long enough.
const TOO_SHORT: RetryOnFailure = RetryOnFailure {
    initial_interval: 5000,
    max_interval: 30_000,
    max_elapsed_time: 51_249,
    multiplier: 1500,
    randomization_factor: 500,
};

/// One and a half times its first interval is more than the longest.
const LONG_INTERVAL: RetryOnFailure = RetryOnFailure {
    initial_interval: 20_001,
    max_interval: 30_000,
    max_elapsed_time: 0,
    multiplier: 1500,
    randomization_factor: 500,
};

/// Whether two answers are equal.
fn are_equal(rt: &impl Abort, alloc: Global, one: &str, other: &str) -> bool {
    let [status, retry_after, body, _, _, _, _] = words(one);
    let first = answer(rt, alloc, status, retry_after, body);
    let [status, retry_after, body, _, _, _, _] = words(other);
    first == answer(rt, alloc, status, retry_after, body)
}

/// Answers that aren't `503 3 five`, each in one thing.
const OTHERS: &str = "\
429 3 five
503 4 five
503 - five
503 3 two
failed";

#[test]
fn answers_are_equal_in_all_that_they_say(rt: HostRuntime) {
    for other in OTHERS.lines() {
        assert!(rt;
            !are_equal(&rt, rt.alloc(), "503 3 five", other),
            "at {other}"
        );
        assert!(rt; are_equal(&rt, rt.alloc(), other, other), "at {other}");
    }
}

/// The class of an answer, as a line spells it.
fn class(text: &str) -> Verdict {
    let (word, spelled) = cut(text, " ");
    match word {
        "taken" => Verdict::Taken {
            rejected: number(spelled),
        },
        "again" => Verdict::Again {
            wait_s: small(spelled),
        },
        _ => Verdict::Never,
    }
}

/// An answer, and what it means: the batch was taken, but for so many spans; it is to be sent again after so many
/// seconds, a day at most; or never.
const CLASSES: &str = "\
200 7 - = taken 0
200 - five = taken 5
202 - five = taken 5
299 - text = taken 0
200 - numberless = taken 0
200 - negative = taken 0
200 - cut = taken 0
429 3 five = again 3
503 86400 - = again 86400
503 86401 - = again 86400
503 604800 - = again 86400
503 - - = again 0
502 3 - = again 0
504 3 - = again 0
failed - - = again 0
101 - five = never
199 - five = never
300 - - = never
301 - - = never
400 7 - = never
500 - - = never";

#[test]
fn each_answer_has_its_class(rt: HostRuntime) {
    for line in CLASSES.lines() {
        let (spelled, wanted) = cut(line, " = ");
        let [status, retry_after, body, _, _, _, _] = words(spelled);
        let answer = answer(&rt, rt.alloc(), status, retry_after, body);
        assert!(rt; classify(&answer) == class(wanted), "at {line}");
    }
}

/// The moment of the next attempt, 0 where there is none.
fn due_of(next: NextDelay) -> u64 {
    match next {
        NextDelay::Delay { due, state } => {
            let _after = state;
            due
        }
        NextDelay::GiveUp => 0,
    }
}

/// The moment of an answer, the word that picks a delay, a wait in seconds, and the moment of the next attempt. The
/// first interval is 5000, and its spread half of it; a year later there is still no end.
const DELAYS: &str = "\
1000 0 0 = 3500
1000 2147483648 0 = 6000
1000 4294967295 0 = 8500
1000 0 40 = 41000
1000 0 2 = 3500
31536000000 0 0 = 31536002500";

#[test]
fn a_word_picks_a_delay_and_a_wait_is_asked_for(rt: HostRuntime) {
    let first = RetryState::new(&ENDLESS, 1000);
    for line in DELAYS.lines() {
        let (asked, due) = cut(line, " = ");
        let [now, word, wait_s, _, _, _, _] = words(asked);
        let now = number(now).min(1 << 62);
        let next = next_delay(&first, now, small(word), small(wait_s));
        assert!(rt; due_of(next) == number(due), "at {line}");
    }
}

/// The moment of the attempt after the next, 0 where there is none: after an answer at 1000 that asks for a wait of 40
/// seconds, and one at 41,000 with this word.
fn third_attempt(settings: &RetryOnFailure, word: u32) -> u64 {
    let first = RetryState::new(settings, 1000);
    match next_delay(&first, 1000, 0, 40) {
        NextDelay::Delay { due, state } => {
            let last = next_delay(&state, 41_000, word, 0);
            if due == 41_000 { due_of(last) } else { 1 }
        }
        NextDelay::GiveUp => 2,
    }
}

// The second interval is 7500, so the greatest word picks 11,250.
#[test]
fn attempts_end_after_the_longest_time(rt: HostRuntime) {
    assert!(rt; third_attempt(&TOO_SHORT, u32::MAX) == 0);
    assert!(rt; third_attempt(&LONG_ENOUGH, u32::MAX) == 52_250);
    assert!(rt; third_attempt(&ENDLESS, u32::MAX) == 52_250);
}

// Half of 30,000.
#[test]
fn no_interval_is_longer_than_the_longest(rt: HostRuntime) {
    assert!(rt; third_attempt(&LONG_INTERVAL, 0) == 56_000);
}
