//! Posts over a network of one's own, whose clock goes on by what is waited for.

use bytes::Bytes;
use export_edge::{AddressList, BackEnd, TcpBackEnd};
use job_lane::Job;
use send_retry::Answer;
use std::alloc::Global;
use std::cell::Cell;
use std::io;
use std::io::{ErrorKind, Read, Write};
use std::net::{Net, OpenListener, OpenStream, SocketAddr};
use std::os::fd::{AsRawFd, RawFd};
use std::process::Abort;
use std::time::{Clock, Duration};

/// So many bytes come at most.
const MOST: usize = 10_000;

/// How a network is, and how it goes on. Times are in milliseconds.
#[derive(Drop)]
struct Course {
    /// A byte of a post takes so long to go, and one of an answer to come.
    goes: u64,
    comes: u64,
    /// A host has so many addresses, of which the last one alone takes a connection.
    addresses: usize,
    now: Cell<u64>,
    /// What the next read or write may take. 0 is as long as it likes.
    limit: Cell<u64>,
    /// So often a limit was set.
    limits: Cell<u32>,
    tried: Cell<usize>,
}

impl Course {
    fn new(goes: u64, comes: u64, addresses: usize) -> Course {
        Course {
            goes,
            comes,
            addresses,
            now: Cell::new(0),
            limit: Cell::new(0),
            limits: Cell::new(0),
            tried: Cell::new(0),
        }
    }

    fn pass(&self, time: u64) {
        self.now.set(self.now.get().saturating_add(time));
    }

    /// Waits so long, or until the limit.
    fn wait(&self, time: u64) -> io::Result<()> {
        let limit = self.limit.get();
        if limit > 0 && limit < time {
            self.pass(limit);
            return Err(ErrorKind::WouldBlock.into());
        }
        self.pass(time);
        Ok(())
    }

    fn bound(&self, limit: Option<Duration>) -> io::Result<()> {
        self.limits.set(self.limits.get().saturating_add(1));
        self.limit.set(millis(limit.unwrap_or(Duration::ZERO)));
        Ok(())
    }
}

fn millis(time: Duration) -> u64 {
    u64::try_from(time.as_millis()).unwrap_or(u64::MAX)
}

/// A network that takes its course.
#[derive(Drop)]
struct Ether<'c> {
    course: &'c Course,
}

impl Clock for Ether<'_> {
    fn monotonic(&self) -> io::Result<Duration> {
        Ok(Duration::from_millis(self.course.now.get()))
    }

    fn since_1970(&self) -> io::Result<Duration> {
        self.monotonic()
    }
}

impl<'c> Net for Ether<'c> {
    type Stream = Trickle<'c>;

    type Listener = Nobody<'c>;

    fn bind(&self, _addr: SocketAddr) -> io::Result<Nobody<'c>> {
        Err(ErrorKind::Unsupported.into())
    }

    fn connect(&self, _addr: SocketAddr) -> io::Result<Trickle<'c>> {
        Ok(Trickle {
            course: self.course,
            given: 0,
        })
    }

    fn connect_timeout(&self, addr: SocketAddr, timeout: Duration) -> io::Result<Trickle<'c>> {
        let tried = self.course.tried.get().saturating_add(1);
        self.course.tried.set(tried);
        if tried < self.course.addresses {
            self.course.pass(millis(timeout));
            return Err(ErrorKind::TimedOut.into());
        }
        self.connect(addr)
    }

    fn lookup_host(&self, _host: &str, _port: u16, found: &mut [SocketAddr]) -> io::Result<usize> {
        Ok(self.course.addresses.min(found.len()))
    }
}

/// Takes each post byte by byte, and answers with a body that doesn't end before `MOST`.
#[derive(Drop)]
struct Trickle<'c> {
    course: &'c Course,
    given: usize,
}

impl Read for Trickle<'_> {
    fn read(&mut self, buf: &mut [u8]) -> io::Result<usize> {
        let Some(first) = buf.first_mut() else {
            return Ok(0);
        };
        if self.given >= MOST {
            return Ok(0);
        }
        self.course.wait(self.course.comes)?;
        *first = b"HTTP/1.1 200 OK\r\n\r\n"
            .get(self.given)
            .copied()
            .unwrap_or(b'a');
        self.given += 1;
        Ok(1)
    }
}

impl Write for Trickle<'_> {
    fn write(&mut self, buf: &[u8]) -> io::Result<usize> {
        self.course.wait(self.course.goes)?;
        Ok(buf.len().min(1))
    }

    fn flush(&mut self) -> io::Result<()> {
        Ok(())
    }
}

impl OpenStream for Trickle<'_> {
    fn set_read_timeout(&self, dur: Option<Duration>) -> io::Result<()> {
        self.course.bound(dur)
    }

    fn set_write_timeout(&self, dur: Option<Duration>) -> io::Result<()> {
        self.course.bound(dur)
    }
}

impl AsRawFd for Trickle<'_> {
    fn as_raw_fd(&self) -> RawFd {
        -1
    }
}

/// Nobody listens.
#[derive(Drop)]
struct Nobody<'c> {
    course: &'c Course,
}

impl<'c> OpenListener for Nobody<'c> {
    type Stream = Trickle<'c>;

    fn accept(&self) -> io::Result<(Trickle<'c>, SocketAddr)> {
        self.course.pass(1);
        Err(ErrorKind::Unsupported.into())
    }
}

impl AsRawFd for Nobody<'_> {
    fn as_raw_fd(&self) -> RawFd {
        -1
    }
}

/// Whether a job without a payload is answered, with this limit.
fn is_answered(rt: &impl Abort, alloc: Global, course: &Course, limit: Option<Duration>) -> bool {
    let host = [String::from_str(alloc, "h:1").expect(rt, "memory")];
    let ether = Ether { course };
    let mut back_end = TcpBackEnd::new(&ether, alloc, AddressList::new(&host), limit);
    let job = Job {
        tenant: 0,
        ticket: 1,
        payload: Bytes::new(),
    };
    match back_end.post(&job) {
        Answer::Http { .. } => true,
        Answer::Failed => false,
    }
}

/// Where a byte takes so long to go, and so long to come, an attempt isn't answered, and ends at its limit of a second.
fn assert_ends(rt: &impl Abort, alloc: Global, goes: u64, comes: u64) {
    let course = Course::new(goes, comes, 1);
    let limit = Some(Duration::from_secs(1));
    assert!(rt; !is_answered(rt, alloc, &course, limit));
    assert_eq!(rt; course.now.get(), 1_000);
}

/// A byte of each comes well within the limit, and all of them don't; and then a byte alone doesn't.
#[test]
fn a_limit_is_a_whole_attempts(rt: HostRuntime) {
    let alloc = rt.alloc();
    assert_ends(&rt, alloc, 300, 0);
    assert_ends(&rt, alloc, 0, 300);
    assert_ends(&rt, alloc, 1, 7);
    assert_ends(&rt, alloc, 3, 300);
    assert_ends(&rt, alloc, 1_500, 0);
    assert_ends(&rt, alloc, 0, 1_500);
}

#[test]
fn without_a_limit_none_is_set(rt: HostRuntime) {
    let course = Course::new(300, 300, 1);
    assert!(rt; is_answered(&rt, rt.alloc(), &course, None));
    assert_eq!(rt; course.limits.get(), 0);
}

/// Two take a third of a limit of nine hundred milliseconds each, and then the last one has time for an answer.
#[test]
fn addresses_share_what_is_left(rt: HostRuntime) {
    let course = Course::new(0, 0, 3);
    let limit = Some(Duration::from_millis(900));
    assert!(rt; is_answered(&rt, rt.alloc(), &course, limit));
    assert_eq!(rt; course.tried.get(), 3);
    assert_eq!(rt; course.now.get(), 600);
}
