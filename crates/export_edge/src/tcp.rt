//! Back ends that are reached over TCP.
ghost use Rattle.std.specs.Prelude.{◌≡◌};

use crate::addresses::Addresses;
use crate::dial::{Dial, DialingBackEnd};
use http_line::StreamLine;
use std::alloc::Global;
use std::io;
use std::io::{ErrorKind, Read, Write};
use std::net::{Net, OpenStream, TcpStream, ToSocketAddrs};
use std::time::{Clock, Duration, Instant};

/// Makes connections over TCP.
#[derive(Drop)]
pub struct TcpDialer<'a, R> {
    rt: &'a R,
    /// So long a whole attempt may take, from the dial to the end of the answer. None is for as long as it takes.
    limit: Option<Duration>,
}

impl<'a, R: Net + Clock> Dial for TcpDialer<'a, R> {
    type Connection = StreamLine<Attempt<'a, R, R::Stream>>;

    // What a connection reaches is not known.
    ghost dials = { λ _ _ _ _. Unit {0} };

    ghost hangs_up = { λ _ _ _. Unit {0} };

    fn dial(&mut self, address: &str) -> Option<StreamLine<Attempt<'a, R, R::Stream>>> {
        let deadline = match self.limit {
            Some(limit) => Some(Deadline::from_now(self.rt, limit).ok()?),
            None => None,
        };
        let stream = match &deadline {
            Some(deadline) => connect_before(deadline, address)?,
            None => TcpStream::connect(self.rt, address).ok()?,
        };
        // A post is two writes, and the second isn't to wait until the first has been acknowledged.
        let _delays_at_worst = stream.set_nodelay(true);
        Some(StreamLine::new(Attempt { stream, deadline }))
    }

    fn hang_up(&mut self, line: StreamLine<Attempt<'a, R, R::Stream>>) {
        drop(line);
    }
}

/// A connection to the first of the host's addresses that takes one. Each may take an equal share of the time that is
/// left to it and those behind it, so that one that never answers leaves time for the others.
fn connect_before<R: Net + Clock>(deadline: &Deadline<'_, R>, address: &str) -> Option<R::Stream> {
    let places = address.to_socket_addrs(deadline.rt).ok()?;
    let mut untried = u32::try_from(places.len()).ok()?;
    for place in places {
        let left = deadline.left().ok()?;
        let share = left.checked_div(untried).unwrap_or(left);
        if let Ok(stream) = TcpStream::connect_timeout(deadline.rt, &place, share) {
            return Some(stream);
        }
        untried = untried.saturating_sub(1);
    }
    None
}

/// When an attempt has to be over.
#[derive(Drop)]
struct Deadline<'a, R> {
    rt: &'a R,
    began: Instant,
    limit: Duration,
}

impl<'a, R: Clock> Deadline<'a, R> {
    /// So long from now on. An error where there is no clock.
    fn from_now(rt: &'a R, limit: Duration) -> io::Result<Deadline<'a, R>> {
        Ok(Deadline {
            rt,
            began: Instant::now(rt)?,
            limit,
        })
    }

    /// How long it is until then. An error where it isn't any more.
    fn left(&self) -> io::Result<Duration> {
        let left = self.limit.saturating_sub(self.began.elapsed(self.rt)?);
        if left.is_zero() {
            return Err(io::Error::from(ErrorKind::TimedOut));
        }
        Ok(left)
    }
}

/// An attempt's connection. A read or a write of it that would end later than the attempt may fails.
#[derive(Drop)]
pub struct Attempt<'a, R, S> {
    stream: S,
    deadline: Option<Deadline<'a, R>>,
}

impl<R: Clock, S: OpenStream> Attempt<'_, R, S> {
    /// Bounds the next read.
    fn limit_read(&self) -> io::Result<()> {
        match &self.deadline {
            Some(deadline) => self.stream.set_read_timeout(Some(deadline.left()?)),
            None => Ok(()),
        }
    }

    /// Bounds the next write.
    fn limit_write(&self) -> io::Result<()> {
        match &self.deadline {
            Some(deadline) => self.stream.set_write_timeout(Some(deadline.left()?)),
            None => Ok(()),
        }
    }
}

impl<R: Clock, S: Read + OpenStream> Read for Attempt<'_, R, S> {
    // What is read is what the stream loses.
    ghost remaining = { λ attempt. S.remaining attempt.stream };

    fn read(&mut self, buf: &mut [u8]) -> io::Result<usize> {
        self.limit_read()?;
        self.stream.read(buf)
    }
}

impl<R: Clock, S: Write + OpenStream> Write for Attempt<'_, R, S> {
    // What is written is what the stream takes.
    ghost contents = { λ attempt. S.contents attempt.stream };

    fn write(&mut self, buf: &[u8]) -> io::Result<usize> {
        self.limit_write()?;
        self.stream.write(buf)
    }

    fn flush(&mut self) -> io::Result<()> {
        self.stream.flush()
    }
}

/// Posts each job over a TCP connection of its own to its tenant's address.
pub type TcpBackEnd<'a, A, R> = DialingBackEnd<A, TcpDialer<'a, R>>;

impl<'a, A: Addresses, R: Net + Clock> DialingBackEnd<A, TcpDialer<'a, R>> {
    /// Posts to these addresses: hosts with ports, as they also stand in `Host`. The limit is a whole attempt's: a job
    /// to which no whole answer has come so long after its dial has failed, however much of one came meanwhile. Looking
    /// up a host's name isn't broken off, but counts. Without a limit it is waited for.
    pub fn new(
        rt: &'a R,
        alloc: Global,
        addresses: A,
        limit: Option<Duration>,
    ) -> TcpBackEnd<'a, A, R>
        ensures addresses { result.addresses ≡ addresses }
        ensures limit { result.dialer.limit ≡ limit }
    {
        DialingBackEnd::over(TcpDialer { rt, limit }, alloc, addresses)
    }
}
