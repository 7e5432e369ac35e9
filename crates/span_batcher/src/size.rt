//! How many bytes the parts of a batch take, so that each is written behind its length and nothing is moved. A size of
//! which there is no `usize` is the greatest one.

ghost use Rattle.std.specs.Prelude.{◌≡◌, ◌≤◌, length, option_copied};
ghost use Rattle.pb_wire.specs.Text.{varint_text};
ghost use Rattle.otlp_trace.specs.Text.{embedded, some_bytes};
ghost use Rattle.span_batcher.specs.Blocks.{capped, field_size};

use text_slice::TextSlice;

/// How many bytes a number takes.
#[inline(always)]
fn number_size(number: usize) -> usize
    ensures size { result ≡ length (varint_text number) }
    ensures short { result ≤ 10 }
{
    let mut left = number;
    let mut more = 0;
    while left >= 0x80 {
        left >>= 7;
        more += 1;
    }
    more + 1
}

/// How many bytes a field takes that holds so many. Its number is below 16, so its tag has one byte.
#[inline(always)]
pub fn field_size(held: usize) -> usize
    ensures { result ≡ capped (field_size held) }
{
    held.saturating_add(1 + number_size(held))
}

/// How many bytes the resource or the scope takes, where there is one.
pub fn embedded_size(text: Option<&TextSlice>) -> usize
    ensures { result ≡ capped (length (embedded 1 (option_copied text.entry))) }
{
    match text {
        Some(text) => field_size(text.as_slice().len()),
        None => 0,
    }
}

/// How many bytes the URL of a schema takes, none where it is empty.
pub fn url_size(url: &[u8]) -> usize
    ensures { result ≡ capped (length (some_bytes 3 url.now)) }
{
    if url.len() == 0 {
        return 0;
    }
    field_size(url.len())
}
