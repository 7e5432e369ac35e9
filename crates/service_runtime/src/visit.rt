//! A client's connection, how long it may take, and how many bytes.

ghost use Rattle.std.specs.Prelude.{◌≡◌, ◌<◌, true, false, None, IfOk, if◌then◌else◌};
ghost use Rattle.std.specs.Io.{ReadsAtMost, WritesAtMost};
ghost use Rattle.std.specs.Io.KnownBytes.{Keeps, ReadConsumes, WriteAppends};
ghost use Rattle.service_runtime.specs.Visit.{come_with, is_interim, is_within};

use crate::beat::Signals;
use std::io;
use std::io::{ErrorKind, Read, Write};
use std::net::TcpStream;
use std::sync::atomic::{AtomicBool, Ordering};
use std::time::{Clock, Duration, Instant};

/// How long is waited for a client, and for how many bytes. None is for ever, and for any number; no limit is 0.
#[derive(Clone, Copy, Debug)]
pub struct Patience {
    /// For more of what it sends, or until it takes more of a reply.
    pub rest: Option<Duration>,
    /// For a whole request, from its first byte on, and behind `100 Continue` for its body, from there on.
    pub request: Option<Duration>,
    /// Of a request, its head among them, and of what comes before its reply is begun.
    pub bytes: Option<u64>,
}

/// Who came in.
#[derive(Drop)]
pub struct Client<'h> {
    pub stream: TcpStream,
    pub patience: Patience,
    pub signals: &'h Signals,
    // Whether a request of its had more bytes than it may.
    has_overrun: AtomicBool,
}

impl<'h> Client<'h> {
    /// Of whom nothing was read.
    pub(crate) fn new(stream: TcpStream, patience: Patience, signals: &'h Signals) -> Client<'h>
        ensures { result.patience ≡ patience }
    {
        Client {
            stream,
            patience,
            signals,
            has_overrun: AtomicBool::new(false),
        }
    }

    /// Whether a request of its had more bytes than it may.
    pub(crate) fn has_overrun(&self) -> bool {
        self.has_overrun.load(Ordering::SeqCst)
    }
}

/// What an answer that is no reply begins with, as the leave to send a body (RFC 9110, 15.2).
const INTERIM: &[u8] = b"HTTP/1.1 1";

/// A client's connection as it is served. What is read from a reply on, or from the start, is a request until the next
/// reply is begun: a read of it that would end later than it may fails, and one by which it has more bytes than it may.
/// Behind an interim answer the same request goes on, and has its time anew. Once the work is over the connection ends
/// where a request would begin: so who asks again and again doesn't keep the service from ending.
#[derive(Drop)]
pub struct Visit<'v, R> {
    rt: &'v R,
    stream: &'v TcpStream,
    patience: Patience,
    signals: &'v Signals,
    has_overrun: &'v AtomicBool,
    // Whether some of a request was read that has no reply yet.
    is_asked: bool,
    // Since when that request takes time, where requests are bounded: since some of it was read first, or since its
    // last interim answer.
    began: Option<Instant>,
    // Whether the last read had what was left to a request as its limit.
    is_cut: bool,
    // How many bytes of that request were read, those before an interim answer among them. At 2^64 - 1 it stays.
    come: u64,
}

impl<'v, R: Clock> Visit<'v, R> {
    /// That of a client of whom nothing was read.
    pub fn new(rt: &'v R, client: &'v Client<'v>) -> Visit<'v, R>
        ensures patience { result.patience ≡ client.now.patience }
        ensures asked { result.is_asked ≡ false }
        ensures come { result.come ≡ 0 }
    {
        Visit {
            rt,
            stream: &client.stream,
            patience: client.patience,
            signals: client.signals,
            has_overrun: &client.has_overrun,
            is_asked: false,
            began: None,
            is_cut: false,
            come: 0,
        }
    }

    /// Bounds the next read, where requests are bounded.
    fn limit_read(&mut self) -> io::Result<()>
        ensures come { self.new.come ≡ self.old.come }
        ensures patience { self.new.patience ≡ self.old.patience }
    {
        let Some(whole) = self.patience.request else {
            return Ok(());
        };
        let Some(began) = self.began else {
            if self.is_cut {
                self.is_cut = false;
                self.stream.set_read_timeout(self.patience.rest)?;
            }
            return Ok(());
        };
        let left = whole.saturating_sub(began.elapsed(self.rt)?);
        if left.is_zero() {
            return Err(io::Error::from(ErrorKind::TimedOut));
        }
        self.is_cut = true;
        let rest = self.patience.rest.unwrap_or(left);
        self.stream.set_read_timeout(Some(rest.min(left)))
    }

    /// From now on a request takes time, where requests are bounded.
    fn begin(&mut self)
        ensures come { self.new.come ≡ self.old.come }
        ensures asked { self.new.is_asked ≡ self.old.is_asked }
        ensures patience { self.new.patience ≡ self.old.patience }
    {
        self.began = match self.patience.request {
            Some(_) => Instant::now(self.rt).ok(),
            None => None,
        };
    }

    /// A reply is begun, so what is read behind it is another request; or an interim answer, behind which the request
    /// goes on.
    fn note_answer(&mut self, is_interim: bool)
        ensures come { self.new.come ≡ (if is_interim then self.old.come else 0) }
        ensures asked { self.new.is_asked ≡ is_interim }
        ensures patience { self.new.patience ≡ self.old.patience }
    {
        self.is_asked = is_interim;
        if is_interim {
            self.begin();
        } else {
            self.began = None;
            self.come = 0;
        }
    }

    /// Counts what a read brought. False where the request has more bytes than it may.
    fn note_read(&mut self, count: u64) -> bool
        ensures come { self.new.come ≡ come_with self.old.come count }
        ensures within { result ≡ is_within self.new.come self.old.patience.bytes }
        ensures asked { self.new.is_asked ≡ self.old.is_asked }
        ensures patience { self.new.patience ≡ self.old.patience }
    {
        self.come = self.come.saturating_add(count);
        match self.patience.bytes {
            Some(most) => self.come <= most,
            None => true,
        }
    }
}

impl<R: Clock> Read for Visit<'_, R> {
    fn read(&mut self, buf: &mut [u8]) -> io::Result<usize>
        // It reads as any reader does.
        ensures bound { ReadsAtMost result buf.new }
        ensures bytes { ReadConsumes None None result buf.new }

        // What comes is of a request, and counts as such: of one that has more than it may nothing more is given.
        ensures asked { IfOk result (λ n. 0 < n → self.new.is_asked ≡ true) }
        ensures come { IfOk result (λ n. self.new.come ≡ come_with self.old.come n) }
        ensures within { IfOk result (λ n. 0 < n
            → is_within self.new.come self.old.patience.bytes ≡ true) }

        // What it may stays the same.
        ensures patience { self.new.patience ≡ self.old.patience }
    {
        if !self.is_asked && self.signals.is_over() {
            return Ok(0);
        }
        self.limit_read()?;
        let count = self.stream.read(buf)?;
        self.is_asked = true;
        if self.began.is_none() {
            self.begin();
        }
        if !self.note_read(count as u64) {
            self.has_overrun.store(true, Ordering::SeqCst);
            return Err(io::Error::from(ErrorKind::FileTooLarge));
        }
        Ok(count)
    }
}

impl<R: Clock> Write for Visit<'_, R> {
    fn write(&mut self, buf: &[u8]) -> io::Result<usize>
        // It writes as any writer does.
        ensures bound { WritesAtMost result buf.now }
        ensures bytes { WriteAppends None None result buf.now }

        // Behind an interim answer the same request goes on, and behind any other bytes another begins, also where they
        // couldn't be written.
        ensures asked { self.new.is_asked ≡ is_interim buf.now }
        ensures come { self.new.come ≡ (if is_interim buf.now then self.old.come else 0) }

        // What it may stays the same.
        ensures patience { self.new.patience ≡ self.old.patience }
    {
        self.note_answer(is_interim(buf));
        self.stream.write(buf)
    }

    fn flush(&mut self) -> io::Result<()>
        ensures bytes { Keeps None None }
        ensures asked { self.new.is_asked ≡ self.old.is_asked }
        ensures come { self.new.come ≡ self.old.come }
        ensures patience { self.new.patience ≡ self.old.patience }
    {
        self.stream.flush()
    }
}

/// Whether bytes begin an answer that is no reply.
fn is_interim(bytes: &[u8]) -> bool
    ensures { result ≡ is_interim bytes.now }
{
    bytes.starts_with(INTERIM)
}
