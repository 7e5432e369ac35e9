//! Steps, and what they give.

ghost use Rattle.std.specs.Prelude.{◌≡◌, ◌↔◌, true};
ghost use Rattle.tenant_shard.specs.Equal.{AreSame};

use bytes::Bytes;
use otlp_trace::Octets;
use prepared_body::{Prepared, equal_bodies_are_the_same};
use send_retry::Answer;
use tail_settings::Section;
use tenant_rules::Reply;

/// One step of a shard. A moment is in milliseconds, and one above 2^62 is taken as 2^62.
#[derive(Debug, PartialEq, Drop)]
pub enum Step {
    /// A tenant's body comes.
    Post {
        now: u64,
        prepared: Prepared,
    },
    /// A worker asks for a job.
    Turn {
        now: u64,
    },
    /// A tenant's back end answers the job of a ticket. The word picks the delay before another attempt.
    Answer {
        tenant: u32,
        now: u64,
        ticket: u64,
        word: u32,
        answer: Answer,
    },
    /// A tenant's counters are asked for.
    Report {
        tenant: u32,
        now: u64,
    },
    /// A tenant takes no more spans, and sends all it holds.
    Drain {
        tenant: u32,
        now: u64,
    },
    /// A tenant comes, with its own settings. Its number must be new to the shard.
    Add {
        tenant: u32,
        section: Section,
    },
    /// A tenant is to go, after a drain and once it holds no span.
    Retire {
        tenant: u32,
        now: u64,
    },
}

/// What a step gives, with the number of the tenant whose step it was.
#[derive(Debug, PartialEq, Drop)]
pub enum Outcome {
    /// The reply to the tenant's post.
    Reply(u32, Reply),
    /// The turn went to the tenant: a ticket, and the body of an export request.
    Job(u32, u64, Bytes),
    /// The turn went to the tenant, whose due timers ran, and there was no job.
    Worked(u32),
    /// No member was ready.
    Idle,
    /// The tenant's answer was heard, it was drained, or it came and is a member.
    Done(u32),
    /// The tenant's counters, as one line without its end. Told of a retirement, the tenant has gone.
    Report(u32, Octets),
    /// The answer's ticket names no job in flight (21), or a tenant that is to go wasn't drained or holds spans (26),
    /// and nothing but due timers has happened; or nothing was done: the tenant is no member (22), the body was
    /// prepared for other policies than the tenant's (23), or the tenant that comes is or was a member (25).
    Refused(u32, u8),
}

/// Steps are equal exactly where contracts see the same: a law.
pub fn equal_steps_are_the_same(one: &Step, other: &Step)
    ensures { (⟦<Step as PartialEq>⟧.eq one.now other.now ≡ true) ↔ AreSame one.now other.now }
{
    if let Step::Post { prepared, .. } = one {
        if let Step::Post { prepared: with, .. } = other {
            equal_bodies_are_the_same(prepared, with);
        }
    }
}
