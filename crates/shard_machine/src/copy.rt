//! A copy of what a step gave.

ghost use Rattle.std.specs.Prelude.{◌≡◌, IfOk};

use std::alloc::AllocError;
use tenant_rules::Reply;
use tenant_shard::Outcome;

/// The same reply.
fn copy_of_reply(reply: &Reply) -> Result<Reply, AllocError>
    ensures { IfOk result (λ copy. copy ≡ reply.now) }
{
    let body = reply.body.clone()?;
    Ok(Reply {
        status: reply.status,
        body,
    })
}

/// The same outcome.
pub(crate) fn copy_of(outcome: &Outcome) -> Result<Outcome, AllocError>
    ensures { IfOk result (λ copy. copy ≡ outcome.now) }
{
    match outcome {
        Outcome::Reply(tenant, reply) => Ok(Outcome::Reply(*tenant, copy_of_reply(reply)?)),
        Outcome::Job(tenant, ticket, payload) => Ok(Outcome::Job(
            *tenant,
            *ticket,
            payload.clone()?,
        )),
        Outcome::Worked(tenant) => Ok(Outcome::Worked(*tenant)),
        Outcome::Idle => Ok(Outcome::Idle),
        Outcome::Done(tenant) => Ok(Outcome::Done(*tenant)),
        Outcome::Report(tenant, text) => Ok(Outcome::Report(*tenant, text.clone()?)),
        Outcome::Refused(tenant, number) => Ok(Outcome::Refused(*tenant, *number)),
    }
}
