//! The lines that tell what shards gave.

ghost use Rattle.std.specs.Prelude.{◌≡◌, ◌++◌, codes, Some, OnOk, OnErr};
ghost use Rattle.tail_settings.specs.Fault.{FaultData, fault_view, fault_number, IsOfDocument};
ghost use Rattle.tail_settings.specs.Settings.{settings_view};
ghost use Rattle.replay_script.specs.Answer.{reply_text, refused_text};
ghost use Rattle.trace_collector.specs.Outcomes.{outcome_text, name_at, bad_protobuf};

use otlp_trace::write_status;
use replay_script::{put_done, put_idle, put_job, put_refused, put_reply, put_report, put_worked};
use std::alloc::{AllocError, Global};
use tail_settings::{Settings, SettingsFault};
use tenant_shard::Outcome;

/// A body that is no request is answered with this status, and a message that says so.
const BAD_REQUEST: u16 = 400;

/// Appends the line of a tenant's document that was refused, by its fault's number.
pub fn put_refused_document(
    alloc: Global,
    out: &mut Vec<u8>,
    fault: &SettingsFault,
) -> Result<(), AllocError>
    requires { IsOfDocument fault.now }
    ensures on_success { OnOk result ((f : FaultData) × (fault_view fault.now ≡ Some f)
        × (out.new.items ≡ out.old.items ++ refused_text (codes "add") (fault_number f))) }
    ensures on_refusal { OnErr result (out.new.items ≡ out.old.items) }
{
    let Some(number) = fault.number() else {
        unreachable!()
    };
    put_refused(alloc, out, "add", number as u8)
}

/// Appends the line of the reply to a body that has no value.
pub fn put_bad_request(alloc: Global, out: &mut Vec<u8>, name: &str) -> Result<(), AllocError>
    ensures on_success { OnOk result (out.new.items ≡ out.old.items ++ reply_text name.now 400
        bad_protobuf) }
    ensures on_refusal { OnErr result (out.new.items ≡ out.old.items) }
{
    let mut body = Vec::new(alloc);
    write_status(alloc, &mut body, "bad protobuf")?;
    put_reply(alloc, out, name, BAD_REQUEST, body.as_slice())
}

/// Appends the line of a shard's outcome.
pub fn put_outcome(
    alloc: Global,
    out: &mut Vec<u8>,
    settings: &Settings,
    shard: u64,
    outcome: &Outcome,
) -> Result<(), AllocError>
    ensures on_success { OnOk result
        (out.new.items ≡ out.old.items ++ outcome_text (settings_view settings.now) shard
        outcome.now) }
    ensures on_refusal { OnErr result (out.new.items ≡ out.old.items) }
{
    match outcome {
        Outcome::Reply(tenant, reply) => put_reply(
            alloc,
            out,
            name_of(settings, *tenant),
            reply.status,
            reply.body.as_slice(),
        ),
        Outcome::Job(tenant, ticket, payload) => put_job(
            alloc,
            out,
            name_of(settings, *tenant),
            *ticket,
            payload.as_slice(),
        ),
        Outcome::Worked(tenant) => put_worked(alloc, out, name_of(settings, *tenant)),
        Outcome::Idle => put_idle(alloc, out, shard),
        Outcome::Done(tenant) => put_done(alloc, out, name_of(settings, *tenant)),
        Outcome::Report(tenant, report) => {
            put_report(alloc, out, name_of(settings, *tenant), report.as_slice())
        }
        Outcome::Refused(tenant, number) => {
            put_refused(alloc, out, name_of(settings, *tenant), *number)
        }
    }
}

/// The name of a tenant number, or no text where there is no such tenant.
pub fn name_of(settings: &Settings, tenant: u32) -> &str
    ensures { result.now ≡ name_at (settings_view settings.now) tenant }
{
    match settings.name(tenant) {
        Some(name) => name,
        None => "",
    }
}
