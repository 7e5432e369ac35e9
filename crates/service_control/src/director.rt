//! The thread that directs a service, as the start of a service sees it.

ghost use Rattle.std.specs.Prelude.{List, ℕ, Option, IfOk};
ghost use Rattle.service_runtime.specs.Output.{Output};

use crate::fault::ServiceFault;
use service_runtime::Observer;
use std::io::{BufRead, Write};

/// A thread that reads the input and ends the work.
pub trait Director {
    // From the first state the input was heard to its end, behind what was written so far something was written or
    // lost, and the second state is left.
    ghost directs: { Self → Option (List ℕ) → Option (List ℕ) → Self → Output → Type 0 };

    /// Reads the input to its end, and ends the work: how many answers were lost.
    fn direct<I: BufRead, O: Write, L: Observer>(
        &mut self,
        input: &mut I,
        output: &mut O,
        observer: &mut L,
        threads: usize,
    ) -> Result<u64, ServiceFault>
        ensures { IfOk result (λ lost. directs self.old (I.remaining input.old)
            (O.contents output.old) self.new (O.contents output.new, lost)) };
}
