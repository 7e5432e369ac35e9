//! What is told of a fault beside the fault: which file, address, input or output it is of, and why.

ghost use Rattle.std.specs.Prelude.{◌≡◌, ◌++◌, ℕ, List, [], IfSome, false, string_bytes, true};
ghost use Rattle.std.specs.IoError.{error_kind};
ghost use Rattle.collector_command.specs.Fault.{IsOfFile};
ghost use Rattle.collector_command.specs.Reason.{IsAdded, TellsOf, reason_line};

use crate::fault::ProgramFault;
use std::alloc::Global;
use std::fmt::Display;
use std::io;

/// Why something failed: a line for each reason. Whoever asked for the fault alone isn't told.
#[derive(Drop)]
pub struct Reason {
    alloc: Global,
    /// Whether the reasons are printed.
    pub is_told: bool,
    /// A line for each reason.
    pub lines: String,
}

impl Reason {
    /// None yet, and nobody who is to be told.
    pub fn new(alloc: Global) -> Reason
        ensures silent { result.is_told ≡ false }
        ensures none { string_bytes result.lines ≡ [] }
    {
        Reason {
            alloc,
            is_told: false,
            lines: String::new(alloc),
        }
    }

    /// From now on there is someone who is to be told, also of what has failed already.
    pub fn tell(&mut self)
        ensures told { self.new.is_told ≡ true }
        ensures lines { self.new.lines ≡ self.old.lines }
    {
        self.is_told = true;
    }

    /// One more reason: what failed, and why. Where there is no memory for it, it is left out.
    pub fn put<D: Display>(&mut self, what: &str, why: &D)
        ensures told { self.new.is_told ≡ self.old.is_told }
        ensures kept { (more : List ℕ)
            × (string_bytes self.new.lines ≡ string_bytes self.old.lines ++ more) }
        ensures line { TellsOf what.now self.old self.new }
        ensures added { IfSome (D.output why.now) (λ text. IsAdded (string_bytes self.old.lines)
            (reason_line what.now text) (string_bytes self.new.lines)) }
    {
        if let Ok(why) = format!(in self.alloc; "{why}") {
            self.add(what, why.as_str());
        }
    }

    /// One more line, of what failed and why. Where there is no memory for it, it is left out.
    fn add(&mut self, what: &str, why: &str)
        ensures told { self.new.is_told ≡ self.old.is_told }
        ensures added { IsAdded (string_bytes self.old.lines) (reason_line what.now why.now)
            (string_bytes self.new.lines) }
    {
        let Ok(line) = format!(in self.alloc; "{what}: {why}\n") else {
            return;
        };
        let _ = self.lines.push_str(line.as_str());
    }

    /// The fault of a file, an address, an input or an output, whose reason is kept.
    pub fn of(&mut self, what: &str, error: io::Error) -> ProgramFault
        ensures fault { IsOfFile (error_kind error) result }
        ensures told { self.new.is_told ≡ self.old.is_told }
        ensures kept { (more : List ℕ)
            × (string_bytes self.new.lines ≡ string_bytes self.old.lines ++ more) }
        ensures line { TellsOf what.now self.old self.new }
    {
        self.put(what, &error);
        ProgramFault::from(error)
    }

    /// Tells the reasons on standard error, where there is someone to be told. What can't be written is left out.
    pub fn print(&self, rt: &impl Eprint) {
        if self.is_told {
            let _ = rt.eprint(self.lines.as_str());
        }
    }
}
