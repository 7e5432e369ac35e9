//! The counters that a report's line tells.

ghost use Rattle.std.specs.Prelude.{◌≡◌, ◌++◌, ◌<◌, ◌^◌, ℕ, List, [], true, false, Some, IfSome, IsTrue, option_map, decimal};
ghost use Rattle.std.specs.List.{prefix_len};
ghost use Rattle.std.specs.Char.{is_ascii_digit};
ghost use Rattle.drop_ledger.specs.Ledger.{LedgerData, LedgerInvariant, ledger_of};
ghost use Rattle.drop_ledger.specs.Report.{report_text};
ghost use Rattle.admin_pages.specs.Report.{begins_with_digit, found_of, Reads, rest_of};

use itoa::Buffer;
use std::str;

/// All counters of a report's line, which is given without its end, in their order. None where it isn't one.
pub fn read_report(text: &[u8]) -> Option<[u64; 14]>
    // What is read is what the line reports.
    ensures only { IfSome result (λ counters. text.now ≡ report_text (ledger_of counters)) }
    // Each ledger's line is read.
    ensures each { (ledger : LedgerData) → LedgerInvariant ledger → text.now ≡ report_text ledger
        → option_map ledger_of result ≡ Some ledger }
{
    let mut reader = Reader { rest: Some(text) };
    let counters = [
        reader.counter(b"accepted="),
        reader.counter(b" undecided="),
        reader.counter(b" pending="),
        reader.counter(b" queued="),
        reader.counter(b" active="),
        reader.counter(b" exported="),
        reader.counter(b" not_sampled="),
        reader.counter(b" too_early="),
        reader.counter(b" queue_full="),
        reader.counter(b" retry_exhausted="),
        reader.counter(b" back_end_refused="),
        reader.counter(b" back_end_rejected="),
        reader.counter(b" invalid="),
        reader.counter(b" over_budget="),
    ];
    if reader.is_at_end() {
        Some(counters)
    } else {
        None
    }
}

/// Reads counters one after another.
#[derive(Drop)]
struct Reader<'t> {
    // What is left of the line, or None once something else stood there.
    rest: Option<&'t [u8]>,
}

impl Reader<'_> {
    /// The counter behind this label, or 0 where none stands there.
    fn counter(&mut self, label: &[u8]) -> u64
        ensures { Reads label.now (rest_of self.old.rest) result (rest_of self.new.rest) }
    {
        let found = match self.rest {
            Some(text) => counter_at(text, label),
            None => None,
        };
        match found {
            Some((spans, rest)) => {
                self.rest = Some(rest);
                spans
            }
            None => {
                self.rest = None;
                0
            }
        }
    }

    /// Whether all was read, and nothing is left.
    fn is_at_end(&self) -> bool
        ensures end { IsTrue result → rest_of self.now.rest ≡ Some [] }
        ensures all { rest_of self.now.rest ≡ Some [] → result ≡ true }
    {
        match self.rest {
            Some(rest) => rest.is_empty(),
            None => false,
        }
    }
}

/// The counter behind this label, and what stands behind it.
fn counter_at<'t>(text: &'t [u8], label: &[u8]) -> Option<(u64, &'t [u8])>
    ensures only { IfSome result (λ r. text.entry.now ≡ label.now ++ decimal r.0 ++ r.1.now) }
    ensures each { (n : ℕ) (rest : List ℕ) → n < 2 ^ 63 → begins_with_digit rest ≡ false
        → text.entry.now ≡ label.now ++ decimal n ++ rest
        → option_map found_of result ≡ Some (n, rest) }
{
    let text = text.strip_prefix(label)?;
    let len = digits_at(text);
    let spans = number(&text[..len])?;
    Some((spans, &text[len..]))
}

/// How many digits a text begins with.
fn digits_at(text: &[u8]) -> usize
    ensures { result ≡ prefix_len is_ascii_digit text.now }
{
    for (i, byte) in text.iter().enumerate() {
        if !byte.is_ascii_digit() {
            return i;
        }
    }
    text.len()
}

/// The number that is written so.
fn number(digits: &[u8]) -> Option<u64>
    ensures only { IfSome result (λ n. digits.now ≡ decimal n) }
    ensures each { (n : ℕ) → n < 2 ^ 63 → digits.now ≡ decimal n → result ≡ Some n }
{
    let text = str::from_utf8(digits).ok()?;
    let number: u64 = text.parse().ok()?;
    if Buffer::new().format(number).as_bytes() == digits {
        Some(number)
    } else {
        None
    }
}
