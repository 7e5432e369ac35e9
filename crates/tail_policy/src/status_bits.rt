//! The bits of notes by the status of their spans.

ghost use Rattle.std.specs.Prelude.{◌≡◌, ◌≤◌, map};
ghost use Rattle.tail_settings.specs.Policy.{policy_view, leaves_of};
ghost use Rattle.tail_policy.specs.Asks.{status_bits_of, bits_at};

use crate::bits::{Fact, fact_bits};
use span_view::SpanRef;
use tail_settings::PolicySpec;

/// One bit a policy that holds no other, the first one's lowest, whether the status meets it; for each status that has
/// a name. No other number meets a policy.
#[derive(Clone, Copy)]
pub struct StatusBits {
    unset: u64,
    ok: u64,
    error: u64,
}

impl StatusBits {
    /// Those of these policies.
    pub fn of(policies: &[PolicySpec]) -> StatusBits
        requires leaves_bounded { leaves_of (map policy_view policies.now) ≤ 64 }
        ensures { result ≡ status_bits_of (map policy_view policies.now) }
    {
        StatusBits {
            unset: fact_bits(policies, Fact::Status(0)),
            ok: fact_bits(policies, Fact::Status(1)),
            error: fact_bits(policies, Fact::Status(2)),
        }
    }

    /// Those of the status of this number.
    #[inline(always)]
    pub fn at(&self, status: i32) -> u64
        ensures { result ≡ bits_at self.now status }
    {
        if status == 0 {
            return self.unset;
        }
        if status == 1 {
            return self.ok;
        }
        if status == 2 {
            return self.error;
        }
        0
    }

    /// A span's start and end, and those of its status, which is looked for only where a status has bits.
    #[inline(always)]
    pub fn of_span(&self, span: &SpanRef<'_>) -> (u64, u64, u64)
        ensures start { result.0 ≡ span.now.start_time_unix_nano }
        ensures end { result.1 ≡ span.now.end_time_unix_nano }
        ensures bits { result.2 ≡ bits_at self.now span.now.status }
    {
        if self.unset == 0 && self.ok == 0 && self.error == 0 {
            let (start, end) = span.times();
            return (start, end, 0);
        }
        let (start, end, status) = span.times_and_status();
        (start, end, self.at(status))
    }
}
