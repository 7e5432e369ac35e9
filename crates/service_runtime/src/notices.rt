//! What the admin port tells in few words.

ghost use Rattle.std.specs.Prelude.{◌≡◌, ◌++◌, IfOk, OnOk};
ghost use Rattle.http_edge.specs.Seen.{response_of};
ghost use Rattle.service_runtime.specs.Notice.{allow_of, came_reply, member_text, not_allowed, notice_of, pair_text, reply_of, unknown_reply, warned_reply};

use admin_pages::put_string;
use http_edge::{Allow, MediaType, Reply};
use std::alloc::{AllocError, Global};

/// A reply with this content.
pub fn shown(status: u16, media: MediaType, body: Vec<u8>) -> Reply
    ensures { response_of result ≡ reply_of status media body.items }
{
    Reply {
        status,
        media,
        allow: Allow::Post,
        body,
    }
}

/// A reply that says this as JSON.
pub fn notice(alloc: Global, status: u16, member: &str, text: &str) -> Result<Reply, AllocError>
    ensures { IfOk result (λ reply. response_of reply ≡ notice_of status member.now text.now) }
{
    let body = member_text(alloc, member, text)?;
    Ok(shown(status, MediaType::Json, body))
}

/// Nobody has this name.
pub fn unknown(alloc: Global) -> Result<Reply, AllocError>
    ensures { IfOk result (λ reply. response_of reply ≡ unknown_reply) }
{
    notice(alloc, 404, "error", "unknown tenant")
}

/// A tenant of this name came, whose document has these warnings.
pub fn came(alloc: Global, name: &str, warnings: &str) -> Result<Reply, AllocError>
    ensures { IfOk result (λ reply. response_of reply ≡ came_reply name.now warnings.now) }
{
    if warnings.is_empty() {
        notice(alloc, 201, "tenant", name)
    } else {
        warned(alloc, name, warnings)
    }
}

/// A tenant of this name came, and these warnings of its document are told with it.
fn warned(alloc: Global, name: &str, warnings: &str) -> Result<Reply, AllocError>
    ensures { IfOk result (λ reply. response_of reply ≡ warned_reply name.now warnings.now) }
{
    let mut body = Vec::from_slice(alloc, b"{")?;
    put_pair(&mut body, "tenant", name)?;
    body.extend_from_slice(b",")?;
    put_pair(&mut body, "warnings", warnings)?;
    body.extend_from_slice(b"}")?;
    Ok(shown(201, MediaType::Json, body))
}

/// Appends a member, whose value is this text.
fn put_pair(out: &mut Vec<u8>, member: &str, text: &str) -> Result<(), AllocError>
    ensures { OnOk result (out.new.items ≡ out.old.items ++ pair_text member.now text.now) }
{
    put_string(out, member)?;
    out.extend_from_slice(b":")?;
    put_string(out, text)
}

/// An object of one member, whose value is this text.
fn member_text(alloc: Global, member: &str, text: &str) -> Result<Vec<u8>, AllocError>
    ensures { IfOk result (λ body. body.items ≡ member_text member.now text.now) }
{
    let mut body = Vec::from_slice(alloc, b"{")?;
    put_string(&mut body, member)?;
    body.extend_from_slice(b":")?;
    put_string(&mut body, text)?;
    body.extend_from_slice(b"}")?;
    Ok(body)
}

/// The reply to a method that the path doesn't take, which takes these.
pub fn other_method(alloc: Global, methods: &[u8]) -> Result<Reply, AllocError>
    ensures { IfOk result (λ reply. response_of reply ≡ not_allowed methods.now) }
{
    Ok(Reply {
        status: 405,
        media: MediaType::Json,
        allow: allow_of(methods),
        body: member_text(alloc, "error", "method not allowed")?,
    })
}

/// Methods that are written as in the field `Allow`. None but these four are.
fn allow_of(methods: &[u8]) -> Allow
    ensures { result ≡ allow_of methods.now }
{
    if methods == b"GET, HEAD".as_slice() {
        Allow::Get
    } else if methods == b"GET, HEAD, POST".as_slice() {
        Allow::GetPost
    } else if methods == b"GET, HEAD, DELETE".as_slice() {
        Allow::GetDelete
    } else {
        Allow::Post
    }
}
