//! A client's connection of which bytes and replies are counted.

ghost use Rattle.std.specs.Prelude.{◌≡◌};
ghost use Rattle.service_runtime.specs.Reply.{status_at, status_in};

use crate::front::strip_front;
use crate::tally::Tally;
use crate::visit::Visit;
use std::io;
use std::io::{Read, Write};
use std::time::Clock;

/// What a reply begins with.
const VERSION: &[u8] = b"HTTP/1.1 ";

/// A client's connection of which bytes and replies are counted, but for what is read off at its end.
#[derive(Drop)]
pub struct Counted<'v, R> {
    visit: Visit<'v, R>,
    tally: &'v Tally,
}

impl<'v, R> Counted<'v, R> {
    /// Nothing is counted yet.
    pub fn new(visit: Visit<'v, R>, tally: &'v Tally) -> Counted<'v, R> {
        Counted { visit, tally }
    }
}

impl<R: Clock> Read for Counted<'_, R> {
    fn read(&mut self, buf: &mut [u8]) -> io::Result<usize> {
        let count = self.visit.read(buf)?;
        self.tally.receive(count);
        Ok(count)
    }
}

impl<R: Clock> Write for Counted<'_, R> {
    fn write(&mut self, buf: &[u8]) -> io::Result<usize> {
        let count = self.visit.write(buf)?;
        self.tally.send(count);
        if let Some(status) = status_in(buf) {
            self.tally.reply(status);
        }
        Ok(count)
    }

    fn flush(&mut self) -> io::Result<()> {
        self.visit.flush()
    }
}

/// The status of the reply that begins here, if one does: no reply's content begins as its head. One of the class 1xx
/// comes before a reply, and is none.
fn status_in(bytes: &[u8]) -> Option<u16>
    ensures { result ≡ status_in bytes.now }
{
    match strip_front(bytes, VERSION) {
        Some(rest) => status_at(rest),
        None => None,
    }
}

/// The status of a reply whose digits a text begins with, if it begins with three.
fn status_at(text: &[u8]) -> Option<u16>
    ensures { result ≡ status_at text.now }
{
    let [hundreds, tens, ones, ..] = text else {
        return None;
    };
    if !hundreds.is_ascii_digit() || !tens.is_ascii_digit() || !ones.is_ascii_digit() {
        return None;
    }
    let status = 100 * u16::from(*hundreds - b'0')
        + 10 * u16::from(*tens - b'0')
        + u16::from(*ones - b'0');
    if status < 200 { None } else { Some(status) }
}
