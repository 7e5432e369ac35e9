//! The ledger.

ghost use Rattle.std.specs.Prelude.{◌≡◌, ◌+◌, ◌≤◌, nat_le, IfOk};
ghost use Rattle.std.specs.String.{string_bytes};
ghost use Rattle.drop_ledger.specs.Ledger.{LedgerData, LedgerInvariant, held, counted, most_counted, no_spans, ledger_of, taken, moved, left_out};
ghost use Rattle.drop_ledger.specs.Report.{report_text};

use crate::places::{Place, Places};
use crate::report::{counter, ended_text, refused_text, waiting_text};
use std::alloc::{AllocError, Global};
use std::marker::Model;

/// No more spans than these are counted, those left out among them.
const MOST_COUNTED: u64 = 1 << 62;

/// The counters of a tenant's spans. All numbers are spans.
#[derive(Debug, Drop)]
pub struct Ledger {
    accepted: u64,
    places: Places,
    // Spans left out of posts that were taken: those that aren't valid, and those for which there was no room.
    invalid: u64,
    over_budget: u64,
}

impl Model for Ledger {
    ghost use Rattle.drop_ledger.specs.Ledger.{LedgerData, ledger_data, LedgerInvariant};

    ghost Value = { LedgerData };

    ghost view = { λ l. ledger_data l.accepted l.places l.invalid l.over_budget };

    ghost invariant = { λ l. LedgerInvariant (ledger_data l.accepted l.places l.invalid l.over_budget) };
}

impl Ledger {
    /// No spans so far.
    pub fn new() -> Ledger
        ensures { result ≡ no_spans }
    {
        Ledger {
            accepted: 0,
            places: Places::new(),
            invalid: 0,
            over_budget: 0,
        }
    }

    /// A ledger of these counters, in the order of the line that reports it.
    pub fn of(counters: [u64; 14]) -> Ledger
        requires invariant { LedgerInvariant (ledger_of counters) }
        ensures { result ≡ ledger_of counters }
    {
        Ledger {
            accepted: counters[0],
            places: Places {
                undecided: counters[1],
                pending: counters[2],
                queued: counters[3],
                active: counters[4],
                exported: counters[5],
                not_sampled: counters[6],
                too_early: counters[7],
                queue_full: counters[8],
                retry_exhausted: counters[9],
                back_end_refused: counters[10],
                back_end_rejected: counters[11],
            },
            invalid: counters[12],
            over_budget: counters[13],
        }
    }

    /// How many spans were taken.
    pub fn accepted(&self) -> u64
        ensures { result ≡ self.now.accepted }
    {
        self.accepted
    }

    /// Where the spans are that were taken. Together they are as many as were taken.
    pub fn places(&self) -> Places
        ensures same { result ≡ self.now.places }
        ensures invariant { LedgerInvariant self.now }
    {
        self.places
    }

    /// All counters, in the order of the line that reports them. [`Ledger::of`] makes the same ledger of them.
    pub fn counters(&self) -> [u64; 14]
        // Each counter of the ledger is here.
        ensures same { ledger_of result ≡ self.now }

        // The eleven places add up to what was taken, and no more than 2^62 spans are counted.
        ensures invariant { LedgerInvariant (ledger_of result) }
    {
        [
            self.accepted,
            self.places.undecided,
            self.places.pending,
            self.places.queued,
            self.places.active,
            self.places.exported,
            self.places.not_sampled,
            self.places.too_early,
            self.places.queue_full,
            self.places.retry_exhausted,
            self.places.back_end_refused,
            self.places.back_end_rejected,
            self.invalid,
            self.over_budget,
        ]
    }

    /// Whether so many spans more can be counted.
    pub fn fits(&self, spans: u64) -> bool
        ensures { result ≡ nat_le (counted self.now + spans) most_counted }
    {
        spans <= MOST_COUNTED - (self.accepted + self.invalid + self.over_budget)
    }

    /// Spans come in, and are undecided.
    pub fn take(&mut self, spans: u64)
        requires fits { counted self.old + spans ≤ most_counted }
        ensures { self.new ≡ taken spans self.old }
    {
        self.places.undecided += spans;
        self.accepted += spans;
    }

    /// Spans are left out of a post that is taken: those that aren't valid, and those for which there is no room.
    pub fn leave_out(&mut self, invalid: u64, over_budget: u64)
        requires fits { counted self.old + (invalid + over_budget) ≤ most_counted }
        ensures { self.new ≡ left_out invalid over_budget self.old }
    {
        self.invalid += invalid;
        self.over_budget += over_budget;
    }

    /// Spans go from one place to another.
    pub fn move_spans(&mut self, from: Place, to: Place, spans: u64)
        requires enough_there { spans ≤ held from self.old.places }
        ensures { self.new ≡ moved from to spans self.old }
    {
        let mut places = self.places;
        places.set(from, places.held(from) - spans);
        places.set(to, places.held(to) + spans);
        self.places = places;
    }

    /// The line that reports the ledger, without its end.
    pub fn report_text(&self, alloc: Global) -> Result<String, AllocError>
        ensures { IfOk result (λ text. string_bytes text ≡ report_text self.now) }
    {
        let accepted = counter(alloc, "accepted", self.accepted)?;
        let waiting = waiting_text(alloc, &self.places)?;
        let ended = ended_text(alloc, &self.places)?;
        let refused = refused_text(alloc, &self.places)?;
        let invalid = counter(alloc, "invalid", self.invalid)?;
        let over_budget = counter(alloc, "over_budget", self.over_budget)?;
        let text = format!(in alloc;
            "{accepted} {waiting} {ended} {refused} {invalid} {over_budget}"
        )?;
        Ok(text)
    }
}
