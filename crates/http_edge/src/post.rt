//! Posts to a back end.
ghost use Rattle.std.specs.Prelude.{◌≡◌, ◌≢◌, ℕ, List, [], ◌++◌, length, IfOk, OnOk, OnErr, Err};
ghost use Rattle.http_line.specs.Line.{Moves};
ghost use Rattle.http_edge.specs.Steps.{HasFailed};
ghost use Rattle.http_edge.specs.Post.{post_head, post_text};

use crate::reply::decimal;
use crate::wire::{EdgeFault, send};
use http_line::Line;
use std::alloc::{AllocError, Global};

/// Writes a post of a payload.
///
/// The host isn't looked at: that it has no line end, and is what RFC 9112, 3.2, wants, is for the caller.
pub fn write_post<L: Line>(
    alloc: Global,
    line: &mut L,
    host: &str,
    payload: &[u8],
) -> Result<(), EdgeFault>
    ensures on_success { OnOk result (Moves L.gives L.takes line.old line.new []
        (post_text host.now payload.now)) }
    ensures on_error { OnErr result ((front : List ℕ) × (missing : List ℕ)
        × (post_text host.now payload.now ≡ front ++ missing)
        × Moves L.gives L.takes line.old line.new [] front) }
    ensures quiet { result ≡ Err EdgeFault.OutOfMemory
        → Moves L.gives L.takes line.old line.new [] [] }
    // No read gave no byte. Without a fault, and where memory alone was refused, no call of the line has failed.
    ensures end { L.ends line.new ≡ L.ends line.old }
    ensures kept { OnOk result (L.failed line.new ≡ L.failed line.old) }
    ensures unfailed { result ≡ Err EdgeFault.OutOfMemory → L.failed line.new ≡ L.failed line.old }
    ensures failed { result ≡ Err EdgeFault.WriteFailed
        → HasFailed (L.failed line.old) (L.failed line.new) }
    ensures no_read { result ≢ Err EdgeFault.ReadFailed }
{
    let head = post_head(alloc, host, payload.len())?;
    send(line, head.as_slice())?;
    send(line, payload)?;
    Ok(())
}

fn post_head(alloc: Global, host: &str, len: usize) -> Result<Vec<u8>, AllocError>
    ensures { IfOk result (λ v. v.items ≡ post_head host.now len) }
{
    let mut text = Vec::from_slice(alloc, b"POST /v1/traces HTTP/1.1\r\nHost: ")?;
    text.extend_from_slice(host.as_bytes())?;
    text.extend_from_slice(b"\r\nContent-Type: application/x-protobuf\r\nContent-Length: ")?;
    text.extend_from_slice(&decimal(alloc, len)?)?;
    text.extend_from_slice(b"\r\nConnection: close\r\n\r\n")?;
    Ok(text)
}
