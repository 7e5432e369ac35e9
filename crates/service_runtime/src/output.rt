//! What is written to an output, or lost.

ghost use Rattle.std.specs.Prelude.{◌≡◌, ◌++◌, List, ℕ, OnOk, OnErr};
ghost use Rattle.std.specs.Io.KnownBytes.{Appends, Keeps};
ghost use Rattle.service_runtime.specs.Output.{IsPut};

use std::io::{ErrorKind, Write};

/// So often a write is tried, of which each takes some bytes or is interrupted.
const MOST_WRITES: u64 = 1 << 62;

/// The output failed, and what it was to take is lost, but for a front of it.
#[derive(Clone, Copy, Debug)]
struct TextLost;

/// Writes a text at once. Where the output fails it is lost, which is counted, up to `u64::MAX`.
pub fn write_text<W: Write>(output: &mut W, text: &[u8], lost: &mut u64)
    ensures { IsPut (W.contents output.old, lost.old) (W.contents output.new, lost.new) text.now }
{
    if let Err(TextLost) = try_write(output, text) {
        *lost = lost.saturating_add(1);
    }
}

/// Writes a text at once, or a front of it. A call that is only interrupted is tried again.
fn try_write<W: Write>(output: &mut W, text: &[u8]) -> Result<(), TextLost>
    ensures whole { OnOk result (Appends (W.contents output.old) (W.contents output.new) text.now) }
    ensures cut { OnErr result ((front rest : List ℕ) × (text.now ≡ front ++ rest)
        × Appends (W.contents output.old) (W.contents output.new) front) }
{
    let mut rest = text;
    'tries: for _ in 0..MOST_WRITES {
        if rest.is_empty() {
            return flushed(output);
        }
        match output.write(rest) {
            Ok(0) => return Err(TextLost),
            Ok(count) => rest = &rest[count..],
            Err(error) => if error.kind() != ErrorKind::Interrupted {
                return Err(TextLost);
            },
        }
    }
    Err(TextLost)
}

/// Has the output pass on what was written.
fn flushed<W: Write>(output: &mut W) -> Result<(), TextLost>
    ensures { Keeps (W.contents output.old) (W.contents output.new) }
{
    match output.flush() {
        Ok(()) => Ok(()),
        Err(_) => Err(TextLost),
    }
}
