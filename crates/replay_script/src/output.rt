//! Text on its way to a writer.

ghost use Rattle.std.specs.Prelude.{◌≡◌, ◌<◌, ◌≤◌, [], length, take, drop, OnOk, IfErr};
ghost use Rattle.std.specs.Io.KnownBytes.{Appends, Keeps};
ghost use Rattle.replay_script.specs.Output.{Sends};

use crate::fault::ScriptFault;
use std::alloc::Global;
use std::io::{ErrorKind, Write};

/// So much text is gathered before it is written.
const ENOUGH: usize = 65_536;

/// Text that is yet to be written, and how many more calls of the writer there may be.
#[derive(Debug, Drop)]
pub struct Output {
    /// What is yet to be written.
    pub text: Vec<u8>,
    /// How many more calls of the writer there may be.
    pub writes: u64,
}

impl Output {
    /// With no text yet.
    pub fn new(alloc: Global, writes: u64) -> Output
        ensures text { result.text.items ≡ [] }
        ensures writes { result.writes ≡ writes }
    {
        Output {
            text: Vec::new(alloc),
            writes,
        }
    }

    /// Writes the text if there is much of it.
    pub fn send_much<W: Write>(&mut self, writer: &mut W) -> Result<(), ScriptFault>
        ensures sends { Sends (W.contents writer.old) (W.contents writer.new)
            self.old.text.items [] self.new.text.items }
        ensures little { OnOk result (length self.new.text.items < ENOUGH) }
        ensures on_error { IfErr result (λ fault. fault ≡ ScriptFault.Line) }
    {
        if self.text.len() < ENOUGH {
            return Ok(());
        }
        self.send(writer)
    }

    /// Writes the text where a reader that has so many bytes ahead may have to wait for more.
    pub fn send_before_wait<W: Write>(
        &mut self,
        writer: &mut W,
        ahead: usize,
    ) -> Result<(), ScriptFault>
        ensures sends { Sends (W.contents writer.old) (W.contents writer.new)
            self.old.text.items [] self.new.text.items }
        ensures all { OnOk result (ahead ≡ 0 → self.new.text.items ≡ []) }
        ensures on_error { IfErr result (λ fault. fault ≡ ScriptFault.Line) }
    {
        if ahead > 0 {
            return Ok(());
        }
        self.send(writer)
    }

    /// Writes the text, and flushes the writer, so that whoever reads behind it sees the text at once. What is left of
    /// it after an error is yet to be written.
    pub fn send<W: Write>(&mut self, writer: &mut W) -> Result<(), ScriptFault>
        ensures sends { Sends (W.contents writer.old) (W.contents writer.new)
            self.old.text.items [] self.new.text.items }
        ensures all { OnOk result (self.new.text.items ≡ []) }
        ensures on_error { IfErr result (λ fault. fault ≡ ScriptFault.Line) }
    {
        if self.text.is_empty() {
            return Ok(());
        }
        let (sent, result) = write_out(writer, self.text.as_slice(), &mut self.writes);
        remove_front(&mut self.text, sent);
        result?;
        flush(writer)
    }
}

fn flush<W: Write>(writer: &mut W) -> Result<(), ScriptFault>
    ensures keeps { Keeps (W.contents writer.old) (W.contents writer.new) }
    ensures on_error { IfErr result (λ fault. fault ≡ ScriptFault.Line) }
{
    match writer.flush() {
        Ok(()) => Ok(()),
        Err(_) => Err(ScriptFault::Line),
    }
}

/// Writes until all is written or the writer fails. Answers how much was written.
fn write_out<W: Write>(
    writer: &mut W,
    text: &[u8],
    writes: &mut u64,
) -> (usize, Result<(), ScriptFault>)
    ensures bound { result.0 ≤ length text.now }
    ensures all { OnOk result.1 (result.0 ≡ length text.now) }
    ensures on_error { IfErr result.1 (λ fault. fault ≡ ScriptFault.Line) }
    ensures bytes { Appends (W.contents writer.old) (W.contents writer.new)
        (take result.0 text.now) }
{
    let mut written = 0;
    while written < text.len() {
        if *writes == 0 {
            return (written, Err(ScriptFault::Line));
        }
        *writes -= 1;
        match writer.write(&text[written..]) {
            Ok(0) => return (written, Err(ScriptFault::Line)),
            Ok(n) => written += n,
            Err(error) => {
                if error.kind() != ErrorKind::Interrupted {
                    return (written, Err(ScriptFault::Line));
                }
            }
        }
    }
    (written, Ok(()))
}

fn remove_front(text: &mut Vec<u8>, n: usize)
    requires { n ≤ length text.old.items }
    ensures { text.new.items ≡ drop n text.old.items }
{
    let len = text.len();
    text.as_mut_slice().copy_within(n..len, 0);
    text.truncate(len - n);
}
