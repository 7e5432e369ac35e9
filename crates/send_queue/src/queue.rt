//! The batches of one tenant that wait to be sent or are being sent.

ghost use Rattle.std.specs.Prelude.{◌≡◌, ◌+◌, ◌<◌, ◌≤◌, ◌^◌, ◌↔◌, true, Ok, Err, IfOk, IfErr, OnOk, OnErr, Some, None, option_map, ok_or, IsTrue, [], length};
ghost use Rattle.tail_settings.specs.SendingQueue.{sending_queue_view};
ghost use Rattle.tail_settings.specs.RetryOnFailure.{retry_view};
ghost use Rattle.send_retry.specs.Class.{answer_view};
ghost use Rattle.send_queue.specs.Sender.{no_batches, payload_bytes, is_full, bounded, unbounded, offered, newest, taken_back, first_retry, has_consumer, under, job, job_of, asked, handed_of, due_by, choice, leaving, choice_by, first_choice, retried, settled, answered, ready, next_retry, next_front, lesser};
ghost use Rattle.send_queue.specs.View.{batch_view, batch_in};
ghost use Rattle.send_queue.specs.declared.fault.OfferFault.TheVariants.{Full};
ghost use Rattle.send_queue.specs.declared.fault.SettleFault.TheVariants.{UnknownTicket};

use crate::active::{Active, Fate, Retry};
use crate::actives::Actives;
use crate::batch::Batch;
use crate::fault::{OfferFault, SettleFault};
use crate::settled::Settled;
use bytes::Bytes;
use send_retry::{Answer, RetryState};
use std::alloc::{AllocError, Global};
use std::cmp::Reverse;
use std::collections::{BinaryHeap, VecDeque};
use std::marker::Model;
use tail_settings::{MOST_QUEUE_BYTES, RetryOnFailure, SendingQueue};

/// So many tickets are handed out at most.
const MOST_TICKETS: u64 = 1 << 62;

/// The batches of one tenant that wait to be sent or are being sent.
#[derive(Drop)]
pub struct SendQueue {
    sending: SendingQueue,
    retry: RetryOnFailure,
    // The oldest first.
    queue: VecDeque<Batch>,
    // How many bytes those of the queue may have more than they have.
    bytes_left: u64,
    // By the ticket that each had last, those that wait for a retry among them.
    active: Actives,
    // Those of them that wait, the one that is sent first on top. There is room for as many as may be active.
    retries: BinaryHeap<Reverse<Retry>>,
    // The number of tickets handed out, which is the last one.
    handed_out: u64,
}

impl Model for SendQueue {
    ghost use Rattle.send_queue.specs.Sender.{SenderData};

    ghost Value = { SenderData };

    ghost use Rattle.send_queue.specs.Inside.{inside_view, QueueInvariant};

    ghost view = { inside_view };

    ghost invariant = { QueueInvariant };
}

impl SendQueue {
    /// No batches, and room for the retries of as many as may be active.
    pub fn new(
        alloc: Global,
        sending: &SendingQueue,
        retry: &RetryOnFailure,
    ) -> Result<SendQueue, AllocError>
        ensures { IfOk result (λ q. q ≡ no_batches (sending_queue_view sending.now)
            (retry_view retry.now)) }
    {
        let retries = BinaryHeap::with_capacity(alloc, sending.num_consumers as usize)?;
        Ok(SendQueue {
            sending: *sending,
            retry: *retry,
            queue: VecDeque::new(alloc),
            bytes_left: sending.queue_bytes,
            active: Actives::new(alloc),
            retries,
            handed_out: 0,
        })
    }

    /// Whether no batch waits to be sent and none is active.
    pub fn is_empty(&self) -> bool
        ensures { IsTrue result ↔ ((self.now.queue ≡ []) × (self.now.active ≡ [])) }
    {
        self.queue.is_empty() && self.active.len() == 0
    }

    /// How many batches wait to be sent for the first time: those that `capacity` bounds.
    pub fn queued(&self) -> usize
        ensures { result ≡ length self.now.queue }
    {
        self.queue.len()
    }

    /// How many batches may wait so. Where as many do, the next one comes back.
    pub fn capacity(&self) -> u32
        ensures { result ≡ self.now.sending.queue_size }
    {
        self.sending.queue_size
    }

    /// How many more bytes the payloads of the batches that wait so may have, up to 2^42. A batch of more comes back.
    pub fn bytes_left(&self) -> u64
        ensures rest { result + payload_bytes self.now.queue ≡ self.now.sending.queue_bytes }
        ensures range { self.now.sending.queue_bytes ≤ 2 ^ 42 }
    {
        self.bytes_left
    }

    /// Bytes don't bound the batches that wait so any more. The answer is how many they might have, for `bound_bytes`.
    pub fn lift_bound(&mut self) -> u64
        ensures former { result ≡ self.old.sending.queue_bytes }
        ensures unbound { self.new ≡ unbounded self.old }
    {
        let bound = self.sending.queue_bytes;
        self.bytes_left += MOST_QUEUE_BYTES - bound;
        self.sending.queue_bytes = MOST_QUEUE_BYTES;
        bound
    }

    /// The batches that wait so may have so many bytes together, up to 2^42.
    pub fn bound_bytes(&mut self, bytes: u64)
        requires fits { payload_bytes self.old.queue ≤ bytes }
        requires range { bytes ≤ 2 ^ 42 }
        ensures { self.new ≡ bounded bytes self.old }
    {
        let waiting = self.sending.queue_bytes - self.bytes_left;
        self.bytes_left = bytes - waiting;
        self.sending.queue_bytes = bytes;
    }

    /// A batch that formed waits to be sent, behind the others. It comes back where the queue is full, in batches or in
    /// bytes, and where memory is refused; nothing has changed then.
    pub fn offer(&mut self, batch: Batch) -> Result<(), OfferFault>
        ensures full { (result ≡ Err (Full batch)) ↔ (is_full (batch_view batch) self.old ≡ true) }
        ensures on_success { OnOk result (self.new ≡ offered (batch_view batch) self.old) }
        ensures back { IfErr result (λ fault. batch_in fault ≡ batch) }
        ensures on_error { OnErr result (self.new ≡ self.old) }
    {
        let bytes = batch.payload.len() as u64;
        if self.queue.len() >= self.sending.queue_size as usize {
            return Err(OfferFault::Full(batch));
        }
        if bytes > self.bytes_left {
            return Err(OfferFault::Full(batch));
        }
        match self.queue.reserve(1) {
            Ok(()) => {}
            Err(AllocError) => return Err(OfferFault::OutOfMemory(batch)),
        }
        let Ok(()) = self.queue.push_back(batch) else {
            unreachable!()
        };
        self.bytes_left -= bytes;
        Ok(())
    }

    /// The batch that was offered last is taken back, where it still waits. It takes no memory.
    pub fn undo_offer(&mut self) -> Option<Batch>
        ensures batch { option_map batch_view result ≡ newest self.old.queue }
        ensures rest { self.new ≡ taken_back self.old }
    {
        let Some(batch) = self.queue.pop_back() else {
            return None;
        };
        self.bytes_left += batch.payload.len() as u64;
        Some(batch)
    }

    /// The next job at a moment, in milliseconds: its ticket and its payload. A batch that waits to be sent again and
    /// is due by then goes first; else the oldest of the queue does, where a consumer is free; else there is none. The
    /// batch is in flight until its ticket is answered. Where memory is refused nothing has changed.
    pub fn take_job(&mut self, moment: u64) -> Result<Option<(u64, Bytes)>, AllocError>
        ensures job { IfOk result (λ taken. taken ≡ job moment self.old) }
        ensures asked { OnOk result (self.new ≡ asked moment self.old) }
        ensures on_refusal { OnErr result (self.new ≡ self.old) }
        ensures none { job moment self.old ≡ None → result ≡ Ok None }
    {
        if self.handed_out == MOST_TICKETS {
            return Ok(None);
        }
        match self.due_retry(moment) {
            Some(retry) => Ok(Some(self.send_again(retry)?)),
            None => self.send_first(moment),
        }
    }

    /// How many spans leave the queue with the job at a moment, in milliseconds: those of its batch where that is sent
    /// for the first time. None do where a batch is sent again, and where there is no job.
    pub fn leaving(&self, moment: u64) -> u64
        ensures { result ≡ leaving (choice moment self.now) }
    {
        if self.handed_out == MOST_TICKETS {
            return 0;
        }
        if self.due_retry(moment).is_some() {
            return 0;
        }
        match self.oldest() {
            Some(batch) => batch.spans,
            None => 0,
        }
    }

    /// The retry that comes first, where it is due by a moment, in milliseconds.
    fn due_retry(&self, moment: u64) -> Option<Retry>
        ensures { result ≡ due_by moment (first_retry self.now.active) }
    {
        match self.first_retry() {
            Some(retry) if retry.due <= moment => Some(retry),
            _ => None,
        }
    }

    /// The oldest batch of the queue, where there is one and a consumer is free.
    fn oldest(&self) -> Option<&Batch>
        ensures choice { first_choice (option_map (λ batch. batch_view batch.now) result)
            ≡ choice_by None self.now }
        ensures moment { option_map (λ batch. batch.now.moment) result ≡ next_front self.now }
    {
        if !self.has_consumer() {
            return None;
        }
        self.queue.front()
    }

    /// The retry that comes first.
    fn first_retry(&self) -> Option<Retry>
        ensures { result ≡ first_retry self.now.active }
    {
        match self.retries.peek() {
            Some(first) => Some(first.0),
            None => None,
        }
    }

    /// Whether a consumer is free.
    fn has_consumer(&self) -> bool
        ensures { result ≡ has_consumer self.now }
    {
        self.active.len() < self.sending.num_consumers as usize
    }

    /// The batch that comes first of those that wait is in flight again, under the next ticket.
    fn send_again(&mut self, retry: Retry) -> Result<(u64, Bytes), AllocError>
        requires tickets { self.old.handed_out < 2 ^ 62 }
        requires first { first_retry self.old.active ≡ Some retry }
        ensures job { IfOk result (λ job. Some job ≡ job_of
            (retried (under retry.ticket self.old.active)) self.old) }
        ensures asked { OnOk result
            (self.new ≡ handed_of 0 (retried (under retry.ticket self.old.active)) self.old) }
        ensures on_refusal { OnErr result (self.new ≡ self.old) }
    {
        let Some(active) = self.active.get(retry.ticket) else {
            unreachable!()
        };
        let again = active.sent_again()?;
        let ticket = self.handed_out + 1;
        self.active.put(ticket, again)?;
        let Some(sent) = self.active.remove(retry.ticket) else {
            unreachable!()
        };
        let Some(_) = self.retries.pop() else {
            unreachable!()
        };
        self.handed_out = ticket;
        Ok((ticket, sent.batch.payload))
    }

    /// The oldest batch of the queue is in flight under the next ticket, where there is one and a consumer is free.
    fn send_first(&mut self, moment: u64) -> Result<Option<(u64, Bytes)>, AllocError>
        requires tickets { self.old.handed_out < 2 ^ 62 }
        ensures job { IfOk result (λ job. job ≡ job_of (choice_by None self.old) self.old) }
        ensures asked { OnOk result (self.new ≡ handed_of moment (choice_by None self.old)
            self.old) }
        ensures on_refusal { OnErr result (self.new ≡ self.old) }
        ensures none { job_of (choice_by None self.old) self.old ≡ None → result ≡ Ok None }
    {
        if !self.has_consumer() {
            return Ok(None);
        }
        let Some(batch) = self.queue.front() else {
            return Ok(None);
        };
        let active = Active::new(batch.clone()?, RetryState::new(&self.retry, moment));
        let ticket = self.handed_out + 1;
        self.active.put(ticket, active)?;
        let Some(batch) = self.queue.pop_front() else {
            unreachable!()
        };
        self.bytes_left += batch.payload.len() as u64;
        self.handed_out = ticket;
        Ok(Some((ticket, batch.payload)))
    }

    /// The batch in flight under a ticket was answered at the moment `now`, in milliseconds: it is settled, or waits to
    /// be sent again after a delay that the word picks. Nothing changes where no batch is in flight under the ticket.
    /// It takes no memory.
    pub fn settle(
        &mut self,
        ticket: u64,
        now: u64,
        word: u32,
        answer: &Answer,
    ) -> Result<Settled, SettleFault>
        requires moment { now ≤ 2 ^ 62 }
        ensures settled { result ≡ ok_or (settled ticket now word (answer_view answer.now) self.old)
            UnknownTicket }
        ensures answered { self.new ≡ answered ticket now word (answer_view answer.now) self.old }
        ensures on_error { OnErr result (self.new ≡ self.old) }
    {
        let (spans, fate) = match self.active.get(ticket) {
            Some(active) if active.due.is_none() => {
                (active.batch.spans, active.fate(now, word, answer))
            }
            _ => return Err(SettleFault::UnknownTicket),
        };
        match fate {
            Fate::Leaves(settled) => {
                let _ = self.active.remove(ticket);
                Ok(settled)
            }
            Fate::Waits { due, state } => {
                self.active.set_waiting(ticket, due, state);
                let Ok(()) = self.retries.push(Reverse(Retry { due, ticket })) else {
                    unreachable!()
                };
                Ok(Settled::Waits { spans, due })
            }
        }
    }

    /// From when on a job is due, in milliseconds; none where nothing waits for that, no consumer is free for what
    /// waits, or no tickets are left.
    pub fn ready(&self) -> Option<u64>
        ensures { result ≡ ready self.now }
    {
        if self.handed_out == MOST_TICKETS {
            return None;
        }
        lesser(self.next_retry(), self.next_front())
    }

    /// From when on a batch is to be sent again, where one waits for that.
    fn next_retry(&self) -> Option<u64>
        ensures { result ≡ next_retry self.now.active }
    {
        match self.first_retry() {
            Some(retry) => Some(retry.due),
            None => None,
        }
    }

    /// When the oldest batch of the queue formed, where there is one and a consumer is free.
    fn next_front(&self) -> Option<u64>
        ensures { result ≡ next_front self.now }
    {
        match self.oldest() {
            Some(batch) => Some(batch.moment),
            None => None,
        }
    }
}

/// The lesser of two moments, of which one or both may be none.
fn lesser(one: Option<u64>, other: Option<u64>) -> Option<u64>
    ensures { result ≡ lesser one other }
{
    match (one, other) {
        (None, other) => other,
        (Some(one), None) => Some(one),
        (Some(one), Some(other)) => Some(one.min(other)),
    }
}
