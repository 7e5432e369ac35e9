//! What a line promises.
ghost use Rattle.std.specs.Prelude.{◌≡◌, ℕ, ◌+◌, ◌<◌, ◌≤◌, List, [], length, take, IfOk, OnOk, OnErr};
ghost use Rattle.http_line.specs.Line.{raised, met_end};

/// A read or a write did not go through. The line is to be given up: what its peer has got of a write isn't known.
#[derive(Clone, Copy, Debug, Drop)]
pub struct LineFailed;

/// A line of bytes in both directions.
pub trait Line {
    // One call led from the first state to the second, and these are the bytes that it read, or that it wrote.
    ghost gives: { Self → Self → List ℕ → Type 0 };

    ghost takes: { Self → Self → List ℕ → Type 0 };

    // How many reads into room gave no byte.
    ghost ends: { Self → ℕ };

    // No byte is left to read, where that can be known.
    ghost at_end: { Self → Type 0 };

    // How many calls have failed, up to 2 ^ 64 - 1.
    ghost failed: { Self → ℕ };

    // More reads than these don't succeed, so that a loop that reads ends.
    ghost reads_left: { Self → ℕ };

    /// Reads once, to the front of the room, and says how many bytes came. 0 into room is the end of the input.
    fn read_some(&mut self, room: &mut [u8]) -> Result<usize, LineFailed>
        ensures bound { IfOk result (λ n. n ≤ length room.old) }
        ensures bytes { IfOk result (λ n. gives self.old self.new (take n room.new)) }
        ensures on_error { OnErr result (gives self.old self.new []) }
        ensures end { ends self.new ≡ ends self.old + met_end (length room.old) result }
        ensures at_end { IfOk result (λ n. n ≡ 0 → 0 < length room.old → at_end self.new) }
        ensures failed { failed self.new ≡ raised (failed self.old) result }
        ensures budget { OnOk result (reads_left self.new < reads_left self.old) };

    /// Writes a front of the bytes, at least one where there are any, and says how many were written.
    fn write_some(&mut self, bytes: &[u8]) -> Result<usize, LineFailed>
        ensures bound { IfOk result (λ n. n ≤ length bytes.now) }
        ensures makes_progress { IfOk result (λ n. 0 < length bytes.now → 0 < n) }
        ensures bytes { IfOk result (λ n. takes self.old self.new (take n bytes.now)) }
        ensures on_error { OnErr result (takes self.old self.new []) }
        ensures end { ends self.new ≡ ends self.old }
        ensures failed { failed self.new ≡ raised (failed self.old) result }
        ensures budget { reads_left self.new ≡ reads_left self.old };

    /// How many calls have failed, up to `u64::MAX`.
    fn failures(&self) -> u64
        ensures { result ≡ failed self.now };
}
