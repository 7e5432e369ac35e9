//! Outcomes and entries beside the lines of a story.

use crate::story::{Line, cut};
use shared_hub::{Entry, WordSource};
use std::alloc::{AllocError, Global};
use tenant_shard::{Outcome, Step, Waiting};

/// An outcome's kind, tenant, number and text.
fn parts_of(outcome: &Outcome) -> (&'static str, u32, u64, &[u8]) {
    match outcome {
        Outcome::Reply(tenant, reply) => {
            (
                "reply",
                *tenant,
                u64::from(reply.status),
                reply.body.as_slice(),
            )
        }
        Outcome::Job(tenant, ticket, payload) => ("job", *tenant, *ticket, payload.as_slice()),
        Outcome::Report(tenant, counters) => ("report", *tenant, 0, counters.as_slice()),
        Outcome::Worked(tenant) => ("worked", *tenant, 0, b""),
        Outcome::Idle => ("idle", 0, 0, b""),
        Outcome::Done(tenant) => ("done", *tenant, 0, b""),
        Outcome::Refused(tenant, number) => ("refused", *tenant, u64::from(*number), b""),
    }
}

/// Whether an outcome is what a line says.
pub fn is_outcome(alloc: Global, outcome: &Outcome, line: &str) -> bool {
    let (kind, tenant, number, bytes) = parts_of(outcome);
    let (said, rest) = cut(line);
    let (of, rest) = cut(rest);
    let (figure, text) = cut(rest);
    said == kind
        && of.parse().ok() == Some(tenant)
        && figure.parse().ok() == Some(number)
        && is_text(alloc, kind, bytes, text)
}

fn is_text(alloc: Global, kind: &str, bytes: &[u8], text: &str) -> bool {
    if kind == "report" {
        return text.as_bytes() == bytes;
    }
    match hex::encode(alloc, bytes) {
        Ok(digits) => digits.as_str() == text,
        Err(_) => false,
    }
}

/// Whether a tenant is as full, and it and its shard wait for what a line says.
pub fn is_waiting(alloc: Global, waiting: &Waiting, line: &str) -> bool {
    let (empty, rest) = cut(line);
    let (usage, rest) = cut(rest);
    let (bytes, rest) = cut(rest);
    let (tenant, shard) = cut(rest);
    (empty == "yes") == waiting.is_empty
        && is_usage(alloc, waiting, usage)
        && are_bytes(alloc, waiting, bytes)
        && is_moment(waiting.tenant_ready, tenant)
        && is_moment(waiting.shard_ready, shard)
}

fn is_usage(alloc: Global, waiting: &Waiting, text: &str) -> bool {
    let usage = &waiting.usage;
    match usage_text(
        alloc,
        usage.rows,
        usage.undecided_rows,
        usage.rows_limit,
        usage.spans_limit,
        usage.queued_batches,
        usage.queued_batches_limit,
    ) {
        Ok(said) => said.as_str() == text,
        Err(_) => false,
    }
}

/// Rows, those that are undecided, the limits of rows and of spans, batches in the queue, and their limit.
fn usage_text(
    alloc: Global,
    rows: u64,
    undecided: u64,
    most_rows: u64,
    most_spans: u64,
    batches: u64,
    most_batches: u64,
) -> Result<String, AllocError> {
    format!(in alloc; "{rows}/{undecided}/{most_rows}/{most_spans}/{batches}/{most_batches}")
}

fn are_bytes(alloc: Global, waiting: &Waiting, text: &str) -> bool {
    let usage = &waiting.usage;
    match bytes_text(alloc, usage.queued_bytes, usage.queued_bytes_limit) {
        Ok(said) => said.as_str() == text,
        Err(_) => false,
    }
}

/// The bytes of the batches in the queue, and their limit.
fn bytes_text(alloc: Global, bytes: u64, most_bytes: u64) -> Result<String, AllocError> {
    format!(in alloc; "{bytes}/{most_bytes}")
}

fn is_moment(moment: Option<u64>, text: &str) -> bool {
    match moment {
        Some(moment) => text.parse().ok() == Some(moment),
        None => text == "-",
    }
}

/// A step's kind, tenant, moment, ticket and word.
fn columns_of(step: &Step) -> (&'static str, u32, u64, u64, u32) {
    match step {
        Step::Post { now, prepared } => ("post", prepared.tenant(), *now, 0, 0),
        Step::Turn { now } => ("turn", 0, *now, 0, 0),
        Step::Answer {
            tenant,
            now,
            ticket,
            word,
            answer: _,
        } => ("answer", *tenant, *now, *ticket, *word),
        Step::Report { tenant, now } => ("report", *tenant, *now, 0, 0),
        Step::Drain { tenant, now } => ("drain", *tenant, *now, 0, 0),
        Step::Add { tenant, section: _ } => ("add", *tenant, 0, 0, 0),
        Step::Retire { tenant, now } => ("retire", *tenant, *now, 0, 0),
    }
}

/// Where a word is from.
fn source_of(word: WordSource) -> &'static str {
    match word {
        WordSource::Caller => "caller",
        WordSource::Generator => "drawn",
        WordSource::Nobody => "nobody",
    }
}

/// Whether an entry is that of a line's call.
pub fn is_entry(alloc: Global, entry: &Entry, line: &Line<'_>) -> bool {
    let (kind, tenant, now, ticket, word) = columns_of(&entry.step.step);
    kind == line.kind
        && tenant == line.tenant
        && now == line.now
        && ticket == line.ticket
        && word == line.word
        && source_of(entry.step.word) == line.word_of
        && is_outcome(alloc, &entry.outcome, line.outcome)
}
