//! The lines that answer commands.

ghost use Rattle.std.specs.Prelude.{◌≡◌, ◌++◌, IfOk, OnOk, OnErr};
ghost use Rattle.std.specs.String.{string_bytes};
ghost use Rattle.replay_script.specs.Answer.{hex_text, reply_text, job_text, worked_text, idle_text, refused_text, added_text, done_text, report_text};

use std::alloc::{AllocError, Global};

/// Appends the line of a reply to a post.
pub fn put_reply(
    alloc: Global,
    out: &mut Vec<u8>,
    name: &str,
    status: u16,
    body: &[u8],
) -> Result<(), AllocError>
    ensures on_success { OnOk result (out.new.items ≡ out.old.items ++ reply_text name.now status
        body.now) }
    ensures on_refusal { OnErr result (out.new.items ≡ out.old.items) }
{
    let body = hex(alloc, body)?;
    let line = format!(in alloc; "reply {name} {status} {body}\n")?;
    out.extend_from_slice(line.as_bytes())
}

/// Appends the line of a turn that handed out a job.
pub fn put_job(
    alloc: Global,
    out: &mut Vec<u8>,
    name: &str,
    ticket: u64,
    payload: &[u8],
) -> Result<(), AllocError>
    ensures on_success { OnOk result (out.new.items ≡ out.old.items ++ job_text name.now ticket
        payload.now) }
    ensures on_refusal { OnErr result (out.new.items ≡ out.old.items) }
{
    let payload = hex(alloc, payload)?;
    let line = format!(in alloc; "job {name} {ticket} {payload}\n")?;
    out.extend_from_slice(line.as_bytes())
}

/// Appends the line of a tenant's turn that had no job.
pub fn put_worked(alloc: Global, out: &mut Vec<u8>, name: &str) -> Result<(), AllocError>
    ensures on_success { OnOk result (out.new.items ≡ out.old.items ++ worked_text name.now) }
    ensures on_refusal { OnErr result (out.new.items ≡ out.old.items) }
{
    let line = format!(in alloc; "worked {name}\n")?;
    out.extend_from_slice(line.as_bytes())
}

/// Appends the line of a turn in which no tenant of the shard was ready.
pub fn put_idle(alloc: Global, out: &mut Vec<u8>, shard: u64) -> Result<(), AllocError>
    ensures on_success { OnOk result (out.new.items ≡ out.old.items ++ idle_text shard) }
    ensures on_refusal { OnErr result (out.new.items ≡ out.old.items) }
{
    let line = format!(in alloc; "idle {shard}\n")?;
    out.extend_from_slice(line.as_bytes())
}

/// Appends the line of a step that was refused, with the refusal's number.
pub fn put_refused(
    alloc: Global,
    out: &mut Vec<u8>,
    name: &str,
    number: u8,
) -> Result<(), AllocError>
    ensures on_success { OnOk result (out.new.items ≡ out.old.items ++ refused_text name.now
        number) }
    ensures on_refusal { OnErr result (out.new.items ≡ out.old.items) }
{
    let line = format!(in alloc; "refused {name} {number}\n")?;
    out.extend_from_slice(line.as_bytes())
}

/// Appends the line of a tenant that came, with the number that it got.
pub fn put_added(
    alloc: Global,
    out: &mut Vec<u8>,
    name: &str,
    number: u32,
) -> Result<(), AllocError>
    ensures on_success { OnOk result (out.new.items ≡ out.old.items ++ added_text name.now number) }
    ensures on_refusal { OnErr result (out.new.items ≡ out.old.items) }
{
    let line = format!(in alloc; "added {name} {number}\n")?;
    out.extend_from_slice(line.as_bytes())
}

/// Appends the line of an answer to a job, or of a drain, that was done.
pub fn put_done(alloc: Global, out: &mut Vec<u8>, name: &str) -> Result<(), AllocError>
    ensures on_success { OnOk result (out.new.items ≡ out.old.items ++ done_text name.now) }
    ensures on_refusal { OnErr result (out.new.items ≡ out.old.items) }
{
    let line = format!(in alloc; "done {name}\n")?;
    out.extend_from_slice(line.as_bytes())
}

/// Appends the line of a tenant's report, which is given as its bytes, without its line end.
pub fn put_report(
    alloc: Global,
    out: &mut Vec<u8>,
    name: &str,
    report: &[u8],
) -> Result<(), AllocError>
    ensures on_success { OnOk result (out.new.items ≡ out.old.items ++ report_text name.now
        report.now) }
    ensures on_refusal { OnErr result (out.new.items ≡ out.old.items) }
{
    let mut line = format!(in alloc; "report {name} ")?.into_bytes();
    line.extend_from_slice(report)?;
    line.push(b'\n')?;
    out.extend_from_slice(line.as_slice())
}

fn hex(alloc: Global, bytes: &[u8]) -> Result<String, AllocError>
    ensures { IfOk result (λ text. string_bytes text ≡ hex_text bytes.now) }
{
    if bytes.is_empty() {
        return String::from_str(alloc, "-");
    }
    hex::encode(alloc, bytes)
}
