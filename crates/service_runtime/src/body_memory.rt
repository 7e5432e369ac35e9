//! How many bytes of bodies are on their way at a time.

ghost use Rattle.std.specs.Prelude.{◌≡◌};
ghost use Rattle.http1.specs.Fields.{known_fields};
ghost use Rattle.http_edge.specs.Seen.{seen};
ghost use Rattle.service_runtime.specs.BodyMemory.{claimed_with, counted_for};

use http_edge::{Headers, HttpMessage, MAX_BODY};
use http1::fields::{ContentLength, KnownFields};
use std::sync::atomic::{AtomicU64, Ordering};

/// Memory for bodies, of each from when its head has come until it was posted.
#[derive(Drop)]
pub struct BodyMemory {
    // So many bytes may be claimed at a time. None is any number, of which none is counted.
    most: Option<u64>,
    claimed: AtomicU64,
}

impl BodyMemory {
    /// Nothing is claimed.
    pub(crate) fn new(most: Option<u64>) -> BodyMemory
        ensures { result.most ≡ most }
    {
        BodyMemory {
            most,
            claimed: AtomicU64::new(0),
        }
    }

    /// Claims so many bytes more. False where these are more than are left: then none is claimed.
    fn claim(&self, bytes: u64) -> bool {
        let Some(most) = self.most else {
            return true;
        };
        let update = |claimed: u64| claimed_with(most, claimed, bytes);
        self.claimed
            .fetch_update(Ordering::SeqCst, Ordering::SeqCst, update)
            .is_ok()
    }

    /// So many bytes that were claimed are left again.
    fn give_back(&self, bytes: u64) {
        if self.most.is_some() {
            let _before = self.claimed.fetch_sub(bytes, Ordering::SeqCst);
        }
    }
}

/// What is claimed with so many bytes more. None where that is more than may be.
fn claimed_with(most: u64, claimed: u64, bytes: u64) -> Option<u64>
    ensures { result ≡ claimed_with most claimed bytes }
{
    let more = claimed.checked_add(bytes)?;
    if more <= most { Some(more) } else { None }
}

/// What one thread has claimed, for the body that it reads or posts.
///
/// Nothing stays claimed for good. A thread serves one connection at a time, and of that one message after the other,
/// and it claims in one place, where the head of a message has come. What follows is one of these:
/// - The body is read whole. Then the message is handled, and what was claimed is given back behind that, whatever the
///   reply.
/// - It isn't read whole: it breaks off, is malformed, has too many bytes, comes too late, or finds no memory. Then the
///   connection is over, and what was claimed is given back as that ends.
/// - There was too little left, or the head goes to no tenant. Then nothing was claimed.
///
/// Of a message of which nobody was asked, as its body had come with its head, nothing was claimed, and what is given
/// back then is nothing. So it is where something is given back twice.
#[derive(Drop)]
pub struct BodyClaim<'m> {
    memory: &'m BodyMemory,
    // No other thread looks at it.
    bytes: AtomicU64,
}

impl<'m> BodyClaim<'m> {
    /// Nothing is claimed.
    pub fn new(memory: &'m BodyMemory) -> BodyClaim<'m> {
        BodyClaim {
            memory,
            bytes: AtomicU64::new(0),
        }
    }

    /// Claims memory for the body behind this head, in place of what it had claimed. False where too little is left.
    pub fn claim(&self, head: &HttpMessage) -> bool {
        self.give_back();
        let bytes = counted_for(head);
        let is_claimed = self.memory.claim(bytes);
        if is_claimed {
            self.bytes.store(bytes, Ordering::SeqCst);
        }
        is_claimed
    }

    /// Gives back what it had claimed.
    pub fn give_back(&self) {
        self.memory.give_back(self.bytes.swap(0, Ordering::SeqCst));
    }
}

/// So many bytes count for the body behind a head: its length, where that is stated, and else those of the longest.
fn counted_for(head: &HttpMessage) -> u64
    ensures { result ≡ counted_for (seen head.now).headers }
{
    match known_fields(&head.headers).content_length {
        ContentLength::Value(length) => length,
        ContentLength::Absent | ContentLength::Invalid => MAX_BODY,
    }
}

fn known_fields(headers: &Headers) -> KnownFields
    ensures { result ≡ known_fields headers.now }
{
    let (text, spans) = headers.parts();
    KnownFields::from_spans(text, spans)
}
