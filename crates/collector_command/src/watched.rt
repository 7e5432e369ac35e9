//! An input or an output of which it is remembered how it failed.

ghost use Rattle.std.specs.Prelude.{codes, ◌≡◌, IfErr, IfSome, None, OnOk};
ghost use Rattle.std.specs.Io.{ReadsAtMost, WritesAtMost};
ghost use Rattle.std.specs.Io.KnownBytes.{Keeps, ReadConsumes, WriteAppends};
ghost use Rattle.std.specs.IoError.{error_kind};
ghost use Rattle.collector_command.specs.Reason.{TellsOf};
ghost use Rattle.collector_command.specs.Watched.{Remembers, RemembersNoMore};

use crate::reason::Reason;
use std::io;
use std::io::{ErrorKind, Read, Write};
use thiserror::Error;

/// A reader or a writer, and how it failed. Calls that were only interrupted didn't.
#[derive(Drop)]
pub struct Watched<S> {
    stream: S,
    // How the last call failed that did.
    fault: Option<ErrorKind>,
    // How many calls failed. At 2^64 - 1 it stays.
    failed: u64,
}

impl<S> Watched<S> {
    /// One that hasn't failed yet.
    pub fn new(stream: S) -> Watched<S>
        ensures stream { result.stream ≡ stream }
        ensures fault { result.fault ≡ None }
        ensures failed { result.failed ≡ 0 }
    {
        Watched {
            stream,
            fault: None,
            failed: 0,
        }
    }

    /// How the last call failed that did, if one did.
    pub fn fault(&self) -> Option<ErrorKind>
        ensures { result ≡ self.now.fault }
    {
        self.fault
    }

    /// How many calls failed. At 2^64 - 1 it stays.
    pub fn failed(&self) -> u64
        ensures { result ≡ self.now.failed }
    {
        self.failed
    }

    /// Remembers how a call failed.
    fn note(&mut self, error: &io::Error)
        ensures stream { self.new.stream ≡ self.old.stream }
        ensures noted { Remembers (error_kind error.now) self.old self.new }
    {
        let kind = error.kind();
        if kind != ErrorKind::Interrupted {
            self.fault = Some(kind);
            self.failed = self.failed.saturating_add(1);
        }
    }
}

impl<S: Read> Read for Watched<S> {
    ghost remaining = { λ s. S.remaining s.stream };

    fn read(&mut self, buf: &mut [u8]) -> io::Result<usize>
        // It reads as any reader does.
        ensures bound { ReadsAtMost result buf.new }
        ensures bytes { ReadConsumes (S.remaining self.old.stream) (S.remaining self.new.stream)
            result buf.new }

        // How it fails is remembered.
        ensures noted { IfErr result (λ error. Remembers (error_kind error) self.old self.new) }
        ensures same { OnOk result (RemembersNoMore self.old self.new) }
    {
        match self.stream.read(buf) {
            Ok(count) => Ok(count),
            Err(error) => {
                self.note(&error);
                Err(error)
            }
        }
    }
}

impl<S: Write> Write for Watched<S> {
    ghost contents = { λ s. S.contents s.stream };

    fn write(&mut self, buf: &[u8]) -> io::Result<usize>
        // It writes as any writer does.
        ensures bound { WritesAtMost result buf.now }
        ensures bytes { WriteAppends (S.contents self.old.stream) (S.contents self.new.stream)
            result buf.now }

        // How it fails is remembered.
        ensures noted { IfErr result (λ error. Remembers (error_kind error) self.old self.new) }
        ensures same { OnOk result (RemembersNoMore self.old self.new) }
    {
        match self.stream.write(buf) {
            Ok(count) => Ok(count),
            Err(error) => {
                self.note(&error);
                Err(error)
            }
        }
    }

    fn flush(&mut self) -> io::Result<()>
        ensures bytes { Keeps (S.contents self.old.stream) (S.contents self.new.stream) }
        ensures noted { IfErr result (λ error. Remembers (error_kind error) self.old self.new) }
        ensures same { OnOk result (RemembersNoMore self.old self.new) }
    {
        match self.stream.flush() {
            Ok(()) => Ok(()),
            Err(error) => {
                self.note(&error);
                Err(error)
            }
        }
    }
}

/// Answers couldn't be written.
#[derive(Debug, Drop, Error)]
#[error("{kind}, answers lost: {lost}")]
struct Loss {
    kind: ErrorKind,
    lost: u64,
}

/// The reason for which the input failed, where it did.
pub fn put_input<I>(reason: &mut Reason, input: &Watched<I>)
    ensures told { reason.new.is_told ≡ reason.old.is_told }
    ensures line { IfSome input.now.fault (λ kind. TellsOf (codes "standard input") reason.old
        reason.new) }
    ensures same { input.now.fault ≡ None → reason.new ≡ reason.old }
{
    if let Some(kind) = input.fault() {
        reason.put("standard input", &kind);
    }
}

/// The reason for which the output failed, where it did.
pub fn put_output<O>(reason: &mut Reason, output: &Watched<O>)
    ensures told { reason.new.is_told ≡ reason.old.is_told }
    ensures line { IfSome output.now.fault (λ kind. TellsOf (codes "standard output") reason.old
        reason.new) }
    ensures same { output.now.fault ≡ None → reason.new ≡ reason.old }
{
    if let Some(kind) = output.fault() {
        let lost = output.failed();
        reason.put("standard output", &Loss { kind, lost });
    }
}
