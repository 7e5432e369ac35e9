//! Replies as bytes.
ghost use Rattle.std.specs.Prelude.{◌≡◌, IfOk, IfSome, false, decimal, if◌then◌else◌};
ghost use Rattle.http_edge.specs.Seen.{response_of};
ghost use Rattle.http_edge.specs.Reply.{phrase_of, advice_of, allow_line, close_line, type_line, head_text_of, plain_text, reply_text, out_of_memory, is_for_no_memory, refusal_body, refusal_media, refusal_message};

use crate::message::{Allow, MediaType, RefusalForm, Reply};
use std::alloc::{AllocError, Global};

/// The bytes of a reply, after which the connection closes or not. A 503 without a body gets the body that says, in the
/// form of the port's refusals, that there was no memory.
#[tactic(auto, unfolding(crate::specs::Reply::reply_text))]
pub fn reply_bytes(
    alloc: Global,
    form: RefusalForm,
    reply: &Reply,
    close: bool,
) -> Result<Vec<u8>, AllocError>
    ensures { IfOk result (λ v. v.items ≡ reply_text form false close (response_of reply.now)) }
{
    if is_for_no_memory(reply) {
        Vec::from_slice(alloc, no_memory_bytes(form, close, false))
    } else {
        plain_bytes(alloc, reply, close, false)
    }
}

/// Whether the reply stands for the one that is written where there is no memory for another.
pub(crate) fn is_for_no_memory(reply: &Reply) -> bool
    ensures { result ≡ is_for_no_memory (response_of reply.now) }
{
    reply.status == 503 && reply.body.len() == 0
}

/// The bytes of the reply that says that there was no memory. They take none.
pub(crate) fn no_memory_bytes(form: RefusalForm, close: bool, bodiless: bool) -> &'static [u8]
    ensures { result.now ≡ plain_text bodiless close (out_of_memory form) }
{
    match form {
        RefusalForm::Status => no_memory_status(close, bodiless),
        RefusalForm::Json => no_memory_json(close, bodiless),
    }
}

/// The bytes of that reply with a `google.rpc.Status`.
#[tactic(auto, unfolding(crate::specs::Reply::head_text_of))]
fn no_memory_status(close: bool, bodiless: bool) -> &'static [u8]
    ensures { result.now ≡ plain_text bodiless close (out_of_memory RefusalForm.Status) }
{
    match (close, bodiless) {
        (false, false) =>
            b"HTTP/1.1 503 Service Unavailable\r\nContent-Type: application/x-protobuf\r\n\
Content-Length: 15\r\n\r\n\x12\x0dout of memory",
        (false, true) =>
            b"HTTP/1.1 503 Service Unavailable\r\nContent-Type: application/x-protobuf\r\n\
Content-Length: 15\r\n\r\n",
        (true, false) =>
            b"HTTP/1.1 503 Service Unavailable\r\nContent-Type: application/x-protobuf\r\n\
Connection: close\r\nContent-Length: 15\r\n\r\n\x12\x0dout of memory",
        (true, true) =>
            b"HTTP/1.1 503 Service Unavailable\r\nContent-Type: application/x-protobuf\r\n\
Connection: close\r\nContent-Length: 15\r\n\r\n",
    }
}

/// The bytes of that reply as JSON.
#[tactic(auto, unfolding(crate::specs::Reply::head_text_of))]
fn no_memory_json(close: bool, bodiless: bool) -> &'static [u8]
    ensures { result.now ≡ plain_text bodiless close (out_of_memory RefusalForm.Json) }
{
    match (close, bodiless) {
        (false, false) => b"HTTP/1.1 503 Service Unavailable\r\nContent-Type: application/json\r\n\
Content-Length: 25\r\n\r\n{\"error\":\"out of memory\"}",
        (false, true) => b"HTTP/1.1 503 Service Unavailable\r\nContent-Type: application/json\r\n\
Content-Length: 25\r\n\r\n",
        (true, false) => b"HTTP/1.1 503 Service Unavailable\r\nContent-Type: application/json\r\n\
Connection: close\r\nContent-Length: 25\r\n\r\n{\"error\":\"out of memory\"}",
        (true, true) => b"HTTP/1.1 503 Service Unavailable\r\nContent-Type: application/json\r\n\
Connection: close\r\nContent-Length: 25\r\n\r\n",
    }
}

/// The bytes of the reply to a post of which all was taken, where the connection goes on: they take no memory. None for
/// any other reply.
pub(crate) fn taken_bytes(reply: &Reply, close: bool, bodiless: bool) -> Option<&'static [u8]>
    ensures { IfSome result (λ text. text.now
        ≡ plain_text bodiless close (response_of reply.now)) }
{
    match (reply.status, reply.media, reply.body.len(), close, bodiless) {
        (200, MediaType::Protobuf, 0, false, false) => Some(
            b"HTTP/1.1 200 OK\r\nContent-Type: application/x-protobuf\r\nContent-Length: 0\r\n\r\n",
        ),
        _ => None,
    }
}

/// The bytes of a reply as it stands, without its body where the request was HEAD.
pub(crate) fn plain_bytes(
    alloc: Global,
    reply: &Reply,
    close: bool,
    bodiless: bool,
) -> Result<Vec<u8>, AllocError>
    ensures { IfOk result (λ v. v.items ≡ plain_text bodiless close (response_of reply.now)) }
{
    let mut text = head_bytes(alloc, reply, close)?;
    if !bodiless {
        text.extend_from_slice(&reply.body)?;
    }
    Ok(text)
}

/// The bytes before a reply's body.
fn head_bytes(alloc: Global, reply: &Reply, close: bool) -> Result<Vec<u8>, AllocError>
    ensures { IfOk result (λ v. v.items ≡ head_text_of close (response_of reply.now)) }
{
    let mut text = Vec::from_slice(alloc, b"HTTP/1.1 ")?;
    text.extend_from_slice(&status_digits(alloc, reply.status)?)?;
    text.extend_from_slice(b" ")?;
    text.extend_from_slice(phrase(reply.status))?;
    text.extend_from_slice(type_line(reply.media))?;
    text.extend_from_slice(advice(reply.status, reply.allow))?;
    text.extend_from_slice(closing_line(close))?;
    text.extend_from_slice(b"Content-Length: ")?;
    text.extend_from_slice(&decimal(alloc, reply.body.len())?)?;
    text.extend_from_slice(b"\r\n\r\n")?;
    Ok(text)
}

/// The decimal digits of a status.
fn status_digits(alloc: Global, status: u16) -> Result<Vec<u8>, AllocError>
    ensures { IfOk result (λ v. v.items ≡ decimal status) }
{
    let text = format!(in alloc; "{status}")?;
    Ok(text.into_bytes())
}

/// The decimal digits of a number.
pub(crate) fn decimal(alloc: Global, n: usize) -> Result<Vec<u8>, AllocError>
    ensures { IfOk result (λ v. v.items ≡ decimal n) }
{
    let text = format!(in alloc; "{n}")?;
    Ok(text.into_bytes())
}

/// The reason phrase of a status.
fn phrase(status: u16) -> &'static [u8]
    ensures { result.now ≡ phrase_of status }
{
    match status {
        200 => b"OK",
        201 => b"Created",
        202 => b"Accepted",
        400 => b"Bad Request",
        401 => b"Unauthorized",
        403 => b"Forbidden",
        404 => b"Not Found",
        405 => b"Method Not Allowed",
        409 => b"Conflict",
        413 => b"Content Too Large",
        415 => b"Unsupported Media Type",
        422 => b"Unprocessable Content",
        429 => b"Too Many Requests",
        431 => b"Request Header Fields Too Large",
        503 => b"Service Unavailable",
        _ => b"",
    }
}

/// The field that says what the content is, with the ends of its line and of the line before.
fn type_line(media: MediaType) -> &'static [u8]
    ensures { result.now ≡ type_line media }
{
    match media {
        MediaType::Protobuf => b"\r\nContent-Type: application/x-protobuf\r\n",
        MediaType::Metrics => b"\r\nContent-Type: text/plain; version=0.0.4\r\n",
        MediaType::Json => b"\r\nContent-Type: application/json\r\n",
        MediaType::Html => b"\r\nContent-Type: text/html; charset=utf-8\r\n",
    }
}

/// The line that some statuses have beside.
fn advice(status: u16, allow: Allow) -> &'static [u8]
    ensures { result.now ≡ advice_of status allow }
{
    match status {
        401 => b"WWW-Authenticate: Bearer realm=\"nimchaes\"\r\n",
        405 => allow_line(allow),
        429 => b"Retry-After: 1\r\n",
        _ => b"",
    }
}

/// The line that says which methods a target takes.
fn allow_line(allow: Allow) -> &'static [u8]
    ensures { result.now ≡ allow_line allow }
{
    match allow {
        Allow::Post => b"Allow: POST\r\n",
        Allow::Get => b"Allow: GET, HEAD\r\n",
        Allow::GetPost => b"Allow: GET, HEAD, POST\r\n",
        Allow::GetDelete => b"Allow: GET, HEAD, DELETE\r\n",
    }
}

fn closing_line(close: bool) -> &'static [u8]
    ensures { result.now ≡ close_line close }
{
    if close { b"Connection: close\r\n" } else { b"" }
}

/// What the content of a refusal in this form is.
pub(crate) fn refusal_media(form: RefusalForm) -> MediaType
    ensures { result ≡ refusal_media form }
{
    match form {
        RefusalForm::Status => MediaType::Protobuf,
        RefusalForm::Json => MediaType::Json,
    }
}

/// The body of the reply to a bad message.
pub(crate) fn refusal_body(form: RefusalForm, status: u16) -> &'static [u8]
    ensures { result.now ≡ refusal_body form (refusal_message status) }
{
    match (form, status) {
        (RefusalForm::Status, 413) => b"\x12\x0ebody too large",
        (RefusalForm::Status, 431) => b"\x12\x16too many header fields",
        (RefusalForm::Status, _) => b"\x12\x0bbad request",
        (RefusalForm::Json, 413) => b"{\"error\":\"body too large\"}",
        (RefusalForm::Json, 431) => b"{\"error\":\"too many header fields\"}",
        (RefusalForm::Json, _) => b"{\"error\":\"bad request\"}",
    }
}
