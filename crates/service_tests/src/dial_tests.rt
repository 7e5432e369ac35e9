//! Jobs posted over lines in memory, which a dialer that takes notes hands out.

use crate::notes::job;
use export_edge::{AddressList, BackEnd, Dial, DialingBackEnd};
use http_line::MemoryLine;
use send_retry::Answer;
use std::alloc::{AllocError, Global};
use std::cell::Cell;
use std::process::Abort;

/// Notes the last digits of the addresses that it was asked for, and those of the hosts in what was written over the
/// lines that it was handed back. At each but the third tenant's a back end answers with its address as the body.
#[derive(Drop)]
struct Directory<'a> {
    alloc: Global,
    asked: &'a Cell<u32>,
    hung_up: &'a Cell<u32>,
}

impl Dial for Directory<'_> {
    type Connection = MemoryLine;

    ghost dials = { λ _ _ _ _. Unit {0} };

    ghost hangs_up = { λ _ _ _. Unit {0} };

    fn dial(&mut self, address: &str) -> Option<MemoryLine> {
        let digit: u32 = address.strip_prefix("h:")?.parse().ok()?;
        note(self.asked, digit);
        if digit == 3 {
            return None;
        }
        answering(self.alloc, address).ok()
    }

    fn hang_up(&mut self, line: MemoryLine) {
        for words in line.output().windows(9) {
            if let Some(digit) = host_at(words) {
                note(self.hung_up, digit);
            }
        }
    }
}

/// The last digit of the address that these bytes name as a post's host, if they do.
fn host_at(words: &[u8]) -> Option<u32> {
    let digit = words.strip_prefix(b"Host: h:".as_slice())?.first()?;
    Some(u32::from(digit.wrapping_sub(b'0')))
}

/// Puts a digit behind those that were noted.
fn note(digits: &Cell<u32>, digit: u32) {
    digits.set(digits.get().wrapping_mul(10).wrapping_add(digit));
}

/// A line over which an answer with this body of three bytes comes.
fn answering(alloc: Global, body: &str) -> Result<MemoryLine, AllocError> {
    let mut reply = Vec::from_slice(alloc, b"HTTP/1.1 200 OK\r\nContent-Length: 3\r\n\r\n")?;
    reply.extend_from_slice(body.as_bytes())?;
    Ok(MemoryLine::new(reply, Vec::new(alloc), Vec::new(alloc), 0))
}

fn address(rt: &impl Abort, alloc: Global, text: &str) -> String {
    String::from_str(alloc, text).expect(rt, "memory")
}

/// What is told of an answer: its body, `-` where no answer came, and `?` where it isn't 200.
fn told_of(answer: &Answer) -> &[u8] {
    match answer {
        Answer::Http {
            status: 200,
            body,
            ..
        } => body,
        Answer::Http { .. } => b"?",
        Answer::Failed => b"-",
    }
}

/// What jobs of these tenants come to.
fn posted(rt: &impl Abort, directory: Directory<'_>, tenants: &[u32]) -> Vec<u8> {
    let alloc = directory.alloc;
    let addresses = [
        address(rt, alloc, "h:1"),
        address(rt, alloc, "h:2"),
        address(rt, alloc, "h:3"),
    ];
    let list = AddressList::new(&addresses);
    let mut back_end = DialingBackEnd::over(directory, alloc, list);
    let mut told = Vec::new(alloc);
    for tenant in tenants {
        let answer = back_end.post(&job(*tenant, 1));
        told.extend_from_slice(told_of(&answer))
            .expect(rt, "memory");
    }
    told
}

/// The fourth and the fifth tenant have no address, and nobody is asked for one. Each line comes back with one post.
#[test]
fn each_job_goes_to_its_own_address(rt: HostRuntime) {
    let asked = Cell::new(0u32);
    let hung_up = Cell::new(0u32);
    let directory = Directory {
        alloc: rt.alloc(),
        asked: &asked,
        hung_up: &hung_up,
    };
    let told = posted(&rt, directory, &[4, 1, 0, 2, 3, 1]);
    assert!(rt; told.as_slice() == b"-h:2h:1--h:2".as_slice());
    assert_eq!(rt; asked.get(), 2132);
    assert_eq!(rt; hung_up.get(), 212);
}
