//! Strings of a body.

ghost use Rattle.std.specs.Prelude.{◌≤◌, length, slice_range};
ghost use Rattle.otlp_read.specs.Fault.{Gives};
ghost use Rattle.otlp_read.specs.Numbers.{utf8};

use otlp_read::ReadFault;
use text_slice::TextSlice;

/// A string where it stands, which has to be UTF-8.
#[tactic(auto, using(otlp_read::proofs::Leaves::utf8_yes, otlp_read::proofs::Leaves::utf8_no))]
pub fn string(text: &TextSlice, start: usize, end: usize) -> Result<TextSlice, ReadFault>
    requires order { start ≤ end }
    requires within { end ≤ length text.now }
    ensures exact { Gives (λ found. found) result (utf8 (slice_range text.now start end)) }
{
    let bytes = &text.as_slice()[start..end];
    if str::from_utf8(bytes).is_err() {
        return Err(ReadFault::NotUtf8);
    }
    Ok(text.slice(start, end)?)
}
