//! A beat, a source of jobs, a back end and a sink of answers that take notes of what they are asked.

use bytes::Bytes;
use export_edge::{AnswerRefused, AnswerSink, BackEnd, Beat, JobSource, TurnResult};
use job_lane::Job;
use send_retry::Answer;
use std::alloc::Global;

pub(crate) fn job(tenant: u32, ticket: u64) -> Job {
    Job {
        tenant,
        ticket,
        payload: Bytes::new(),
    }
}

/// Is over after so many rounds. Its moments count up from 1.
#[derive(Drop)]
pub(crate) struct FewRounds {
    pub rounds: u32,
    pub moment: u64,
    pub pauses: u32,
}

impl Beat for FewRounds {
    ghost calls = { λ _ _ _. Unit {0} };

    fn is_over(&mut self) -> bool {
        if self.rounds == 0 {
            return true;
        }
        self.rounds -= 1;
        false
    }

    fn now(&mut self) -> u64 {
        self.moment = self.moment.saturating_add(1);
        self.moment
    }

    fn pause(&mut self) {
        self.pauses = self.pauses.saturating_add(1);
    }
}

/// Five turns at the moments from 1 on: a job, work, a job, nothing and a job.
#[derive(Drop)]
pub(crate) struct Turns {
    /// How many were made, each at the moment of its number.
    pub made: u64,
}

impl JobSource for Turns {
    ghost turns = { λ _ _ _. Unit {0} };

    fn turn(&mut self, now: u64) -> TurnResult {
        self.made = self.made.saturating_add(1);
        if now != self.made {
            self.made = u64::MAX;
        }
        match now {
            1 => TurnResult::Job(job(1, 1)),
            2 => TurnResult::Worked,
            3 => TurnResult::Job(job(1, 2)),
            5 => TurnResult::Job(job(1, 3)),
            _ => TurnResult::Idle,
        }
    }
}

/// Answers each job with its ticket for a status.
#[derive(Drop)]
pub(crate) struct Tickets {
    pub alloc: Global,
    /// The tickets of the jobs that were posted, each of three digits.
    pub posted: u64,
}

impl BackEnd for Tickets {
    ghost posts = { λ _ _ _. Unit {0} };

    fn post(&mut self, job: &Job) -> Answer {
        self.posted = self.posted.wrapping_mul(1_000).wrapping_add(job.ticket);
        Answer::Http {
            status: (job.ticket % 1000) as u16,
            retry_after: None,
            body: Vec::new(self.alloc),
        }
    }
}

/// Takes answers, but for the first ones.
#[derive(Drop)]
pub(crate) struct Answers {
    pub refusals: u32,
    /// How many it took.
    pub count: u32,
    /// Of each answer that it took the tenant and the moment, and of three digits the ticket and the status, 0 where no
    /// whole answer came.
    pub taken: u64,
}

impl AnswerSink for Answers {
    ghost takes = { λ _ _ _. Unit {0} };

    ghost refuses = { λ _ _ _. Unit {0} };

    fn answer(
        &mut self,
        tenant: u32,
        now: u64,
        ticket: u64,
        answer: &Answer,
    ) -> Result<(), AnswerRefused> {
        if self.refusals > 0 {
            self.refusals -= 1;
            return Err(AnswerRefused);
        }
        self.count = self.count.saturating_add(1);
        self.note(u64::from(tenant), 10);
        self.note(now, 10);
        self.note(ticket, 1_000);
        self.note(u64::from(status_of(answer)), 1_000);
        Ok(())
    }
}

impl Answers {
    fn note(&mut self, number: u64, below: u64) {
        self.taken = self.taken.wrapping_mul(below).wrapping_add(number);
    }
}

/// The status of an answer, 0 where no whole one came.
fn status_of(answer: &Answer) -> u16 {
    match answer {
        Answer::Http { status, .. } => *status,
        Answer::Failed => 0,
    }
}
