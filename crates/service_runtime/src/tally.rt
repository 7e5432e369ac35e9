//! What threads count of what they do, for the admin port.

use admin_pages::{
    CLASS_COUNTS, STATUS_COUNTS, ServiceCounts, StatusCounts, class_place, status_place,
};
use export_edge::TurnResult;
use send_retry::{Answer, Verdict, classify};
use std::array;
use std::sync::atomic::{AtomicU64, Ordering};

/// A number that only grows.
#[derive(Drop)]
struct Count {
    number: AtomicU64,
}

impl Count {
    fn new() -> Count {
        Count {
            number: AtomicU64::new(0),
        }
    }

    fn add(&self, more: u64) {
        let _before = self.number.fetch_add(more, Ordering::SeqCst);
    }

    fn get(&self) -> u64 {
        self.number.load(Ordering::SeqCst)
    }
}

/// How many requests were answered with each status that a client can be told, and how many with any other.
#[derive(Drop)]
struct RequestTally {
    // Each at its status's place.
    counts: [Count; STATUS_COUNTS],
}

impl RequestTally {
    fn new() -> RequestTally {
        RequestTally {
            counts: array::from_fn(|_| Count::new()),
        }
    }

    fn note(&self, status: u16) {
        self.counts[status_place(status)].add(1);
    }

    fn counts(&self) -> [u64; STATUS_COUNTS] {
        let mut counts = [0; STATUS_COUNTS];
        for (number, count) in counts.iter_mut().zip(self.counts.iter()) {
            *number = count.get();
        }
        counts
    }
}

/// How many answers of back ends there were of each class of HTTP's statuses.
#[derive(Drop)]
struct StatusTally {
    // Each at its class's place.
    counts: [Count; CLASS_COUNTS],
}

impl StatusTally {
    fn new() -> StatusTally {
        StatusTally {
            counts: array::from_fn(|_| Count::new()),
        }
    }

    fn note(&self, status: u16) {
        self.counts[class_place(status)].add(1);
    }

    fn counts(&self) -> StatusCounts {
        let [success, client_error, server_error, other] = &self.counts;
        StatusCounts {
            success: success.get(),
            client_error: client_error.get(),
            server_error: server_error.get(),
            other: other.get(),
        }
    }
}

/// What threads count of what they do. It is told at the admin port, and nothing is done by it.
#[derive(Drop)]
pub struct Tally {
    memory_refusals: Count,
    // Connections that a receiver took, and those of them that have ended.
    connections: Count,
    connections_ended: Count,
    received_bytes: Count,
    sent_bytes: Count,
    requests: RequestTally,
    // Turns that weren't refused memory, and those of them that found nothing ready.
    turns: Count,
    idle_turns: Count,
    // Jobs that turns gave, those of them that a sender took, and those of these whose answer was handed in.
    jobs: Count,
    jobs_taken: Count,
    jobs_answered: Count,
    retries: Count,
    answers: StatusTally,
    failed_answers: Count,
}

impl Tally {
    /// Nothing was done yet.
    pub(crate) fn new() -> Tally {
        Tally {
            memory_refusals: Count::new(),
            connections: Count::new(),
            connections_ended: Count::new(),
            received_bytes: Count::new(),
            sent_bytes: Count::new(),
            requests: RequestTally::new(),
            turns: Count::new(),
            idle_turns: Count::new(),
            jobs: Count::new(),
            jobs_taken: Count::new(),
            jobs_answered: Count::new(),
            retries: Count::new(),
            answers: StatusTally::new(),
            failed_answers: Count::new(),
        }
    }

    /// An attempt was refused memory.
    pub(crate) fn refuse(&self) {
        self.memory_refusals.add(1);
    }

    /// A receiver took a connection.
    pub fn begin_connection(&self) {
        self.connections.add(1);
    }

    /// A receiver's connection has ended.
    pub fn end_connection(&self) {
        self.connections_ended.add(1);
    }

    /// So many bytes came from a client.
    pub(crate) fn receive(&self, bytes: usize) {
        self.received_bytes.add(bytes as u64);
    }

    /// So many bytes went to a client.
    pub(crate) fn send(&self, bytes: usize) {
        self.sent_bytes.add(bytes as u64);
    }

    /// A request was answered with this status.
    pub(crate) fn reply(&self, status: u16) {
        self.requests.note(status);
    }

    /// A turn came to this.
    pub(crate) fn end_turn(&self, turned: &TurnResult) {
        self.turns.add(1);
        match turned {
            TurnResult::Job(_) => self.jobs.add(1),
            TurnResult::Worked => {}
            TurnResult::Idle => self.idle_turns.add(1),
        }
    }

    /// A sender took a job.
    pub fn take_job(&self) {
        self.jobs_taken.add(1);
    }

    /// This answer to a job was handed in.
    pub fn end_job(&self, answer: &Answer) {
        self.jobs_answered.add(1);
        match answer {
            Answer::Http { status, .. } => self.answers.note(*status),
            Answer::Failed => self.failed_answers.add(1),
        }
        if let Verdict::Again { .. } = classify(answer) {
            self.retries.add(1);
        }
    }

    /// What was counted. What has ended is read before what has begun, so that no difference is below zero.
    pub fn counts(&self) -> ServiceCounts {
        let answered = self.jobs_answered.get();
        let taken = self.jobs_taken.get();
        let ended = self.connections_ended.get();
        let connections = self.connections.get();
        let idle_turns = self.idle_turns.get();
        ServiceCounts {
            memory_refusals: self.memory_refusals.get(),
            connections_open: connections.saturating_sub(ended),
            connections,
            received_bytes: self.received_bytes.get(),
            sent_bytes: self.sent_bytes.get(),
            requests: self.requests.counts(),
            turns: self.turns.get(),
            idle_turns,
            lane_jobs: self.jobs.get().saturating_sub(taken),
            senders_busy: taken.saturating_sub(answered),
            retries: self.retries.get(),
            answers: self.answers.counts(),
            failed_answers: self.failed_answers.get(),
        }
    }
}
