//! The lines of the shards' logs, which the service writes last.

ghost use Rattle.std.specs.Prelude.{◌≡◌, ◌++◌, OnOk};
ghost use Rattle.trace_service.specs.Audit.{audit_line, audit_text, IsFollowed};

use service_runtime::write_text;
use shared_hub::ShardLog;
use std::alloc::{AllocError, Global};
use std::io::Write;

/// Writes how many entries each shard's log has, where an audit is asked for.
pub(crate) fn write_audit<W: Write>(
    alloc: Global,
    output: &mut W,
    shards: &[ShardLog],
    audit: bool,
    lost: &mut u64,
) -> Result<(), AllocError>
    ensures { OnOk result (IsFollowed audit (audit_text shards.now)
        (W.contents output.old, lost.old) (W.contents output.new, lost.new)) }
{
    if audit {
        let mut text = Vec::new(alloc);
        put_audit(alloc, &mut text, shards)?;
        write_text(output, text.as_slice(), lost);
    }
    Ok(())
}

/// Appends a line for each shard's log.
fn put_audit(alloc: Global, out: &mut Vec<u8>, mut shards: &[ShardLog]) -> Result<(), AllocError>
    ensures { OnOk result (out.new.items ≡ out.old.items ++ audit_text shards.entry.now) }
{
    while let [first, rest @ ..] = shards {
        put_log(alloc, out, first.number(), first.made())?;
        shards = rest;
    }
    Ok(())
}

/// Appends the line of a shard's log.
fn put_log(alloc: Global, out: &mut Vec<u8>, shard: u32, entries: u64) -> Result<(), AllocError>
    ensures { OnOk result (out.new.items ≡ out.old.items ++ audit_line shard entries) }
{
    let line = format!(in alloc; "audit {shard} {entries}\n")?;
    out.extend_from_slice(line.as_bytes())
}
