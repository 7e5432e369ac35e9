//! How long a trace lasts.

ghost use Rattle.std.specs.Prelude.{◌≡◌, ◌-◌, ◌/◌};
ghost use Rattle.tail_policy.specs.Meaning.{duration, nanoseconds};

use span_view::SpanRef;

/// How many nanoseconds a millisecond has.
const NANOSECONDS: u64 = 1_000_000;

/// From the earliest start to the latest end in whole milliseconds, rounded down; 0 where that end is before that
/// start.
pub fn duration(spans: &[SpanRef<'_>]) -> u64
    ensures { result ≡ duration spans.now }
{
    let Some((first, others)) = spans.split_first() else {
        return 0;
    };
    let mut start = first.start();
    let mut end = first.end();
    for span in others {
        start = start.min(span.start());
        end = end.max(span.end());
    }
    whole_milliseconds(start, end)
}

/// From a start to an end, both in nanoseconds, in whole milliseconds, rounded down; 0 where the end is before the
/// start.
pub fn whole_milliseconds(start: u64, end: u64) -> u64
    ensures { result ≡ (end - start) / nanoseconds }
{
    end.saturating_sub(start) / NANOSECONDS
}
