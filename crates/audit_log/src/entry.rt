//! Entries whose texts are packed.

ghost use Rattle.std.specs.Prelude.{◌≡◌, IfOk, IfSome};
ghost use Rattle.std.specs.Arc.{arc_value};
ghost use Rattle.audit_log.specs.Entries.{posted, handed_out, entry_in};

use crate::body::PackedBody;
use bytes::Bytes;
use machine_hub::{Entry, Machine};
use packed_text::PackedText;
use prepared_body::Prepared;
use shard_machine::{LoggedStep, ShardMachine, WordSource};
use std::alloc::{AllocError, Global};
use std::marker::Model;
use std::sync::Arc;
use tenant_shard::{Outcome, Step};

/// A post and what it gave.
#[derive(Drop)]
struct PackedPost {
    moment: u64,
    body: PackedBody,
    word: WordSource,
    outcome: Outcome,
}

/// A turn that gave a job.
#[derive(Drop)]
struct PackedJob {
    moment: u64,
    word: WordSource,
    tenant: u32,
    ticket: u64,
    payload: PackedText,
}

/// An entry by how it is kept.
#[derive(Drop)]
enum Kept {
    /// As it is: it has no text to be packed, or there was no memory to pack it.
    Whole(Arc<Entry<LoggedStep, Outcome>, Global>),
    Post(Box<PackedPost>),
    Job(Box<PackedJob>),
}

/// An entry of a shard's log, with the texts of a post's spans and of a job's batch packed.
#[derive(Drop)]
pub struct PackedEntry {
    kept: Kept,
}

impl Model for PackedEntry {
    ghost use Rattle.shard_machine.specs.Run.{Logged};
    ghost use Rattle.audit_log.specs.Entries.{entry_in};

    ghost Value = { Logged };

    ghost view = { λ e. entry_in e.kept };
}

/// A post, packed.
fn packed_post(
    alloc: Global,
    moment: u64,
    prepared: &Prepared,
    word: WordSource,
    outcome: &Outcome,
) -> Result<Kept, AllocError>
    ensures { IfOk result (λ kept. entry_in kept
        ≡ posted moment prepared.now word outcome.now) }
{
    let body = PackedBody::of(alloc, prepared)?;
    let outcome = ShardMachine::copied(outcome)?;
    let post = Box::new(
        alloc,
        PackedPost {
            moment,
            body,
            word,
            outcome,
        },
    )?;
    Ok(Kept::Post(post))
}

/// A turn that gave a job, packed.
fn packed_job(
    alloc: Global,
    moment: u64,
    word: WordSource,
    tenant: u32,
    ticket: u64,
    payload: &Bytes,
) -> Result<Kept, AllocError>
    ensures { IfOk result (λ kept. entry_in kept
        ≡ handed_out moment word tenant ticket payload.now) }
{
    let payload = PackedText::of(alloc, payload.as_slice())?;
    let job = Box::new(
        alloc,
        PackedJob {
            moment,
            word,
            tenant,
            ticket,
            payload,
        },
    )?;
    Ok(Kept::Job(job))
}

/// The entry, packed; none where it has no text to be packed.
fn packed(alloc: Global, entry: &Entry<LoggedStep, Outcome>) -> Result<Option<Kept>, AllocError>
    ensures { IfOk result (λ packed. IfSome packed (λ kept. entry_in kept ≡ entry.now)) }
{
    let word = entry.step.word;
    match (&entry.step.step, &entry.outcome) {
        (Step::Post { now, prepared }, outcome) => {
            Ok(Some(packed_post(alloc, *now, prepared, word, outcome)?))
        }
        (Step::Turn { now }, Outcome::Job(tenant, ticket, payload)) => Ok(Some(packed_job(
            alloc, *now, word, *tenant, *ticket, payload,
        )?)),
        _ => Ok(None),
    }
}

impl PackedPost {
    /// The entry, with a body in memory of its own.
    fn entry(&self, alloc: Global) -> Result<Arc<Entry<LoggedStep, Outcome>, Global>, AllocError>
        ensures { IfOk result (λ entry. arc_value entry
            ≡ posted self.now.moment self.now.body self.now.word self.now.outcome) }
    {
        let prepared = self.body.prepared(alloc)?;
        let outcome = ShardMachine::copied(&self.outcome)?;
        let step = LoggedStep {
            step: Step::Post {
                now: self.moment,
                prepared,
            },
            word: self.word,
        };
        Ok(Arc::new(alloc, Entry { step, outcome })?)
    }
}

impl PackedJob {
    /// The entry, with a payload in memory of its own.
    fn entry(&self, alloc: Global) -> Result<Arc<Entry<LoggedStep, Outcome>, Global>, AllocError>
        ensures { IfOk result (λ entry. arc_value entry ≡ handed_out self.now.moment
            self.now.word self.now.tenant self.now.ticket self.now.payload) }
    {
        let payload = Bytes::from_vec(self.payload.unpacked(alloc)?)?;
        let step = LoggedStep {
            step: Step::Turn { now: self.moment },
            word: self.word,
        };
        let outcome = Outcome::Job(self.tenant, self.ticket, payload);
        Ok(Arc::new(alloc, Entry { step, outcome })?)
    }
}

impl PackedEntry {
    /// Keeps an entry, packed where it has texts and there is memory to pack them, and else as it is: it is refused
    /// only where the entry's owners can't be counted any more.
    pub fn of(
        alloc: Global,
        entry: &Arc<Entry<LoggedStep, Outcome>, Global>,
    ) -> Result<PackedEntry, AllocError>
        ensures { IfOk result (λ packed. packed ≡ arc_value entry.now) }
    {
        if let Ok(Some(kept)) = packed(alloc, entry) {
            return Ok(PackedEntry { kept });
        }
        let whole = Arc::try_clone(entry)?;
        Ok(PackedEntry {
            kept: Kept::Whole(whole),
        })
    }

    /// The entry, unpacked.
    pub fn entry(
        &self,
        alloc: Global,
    ) -> Result<Arc<Entry<LoggedStep, Outcome>, Global>, AllocError>
        ensures { IfOk result (λ entry. arc_value entry ≡ self.now) }
    {
        match &self.kept {
            Kept::Whole(whole) => Arc::try_clone(whole),
            Kept::Post(post) => post.entry(alloc),
            Kept::Job(job) => job.entry(alloc),
        }
    }
}
