//! What a message is answered without a step of a shard.

ghost use Rattle.std.specs.Prelude.{◌≡◌, ◌↔◌, [], IsTrue, IfOk};
ghost use Rattle.http_edge.specs.Seen.{response_of};
ghost use Rattle.otlp_front.specs.Seen.{response_for};
ghost use Rattle.tenant_registry.specs.Replies.{MayTell, bad_request, no_memory};

use http_edge::{Allow, MediaType, Reply};
use otlp_front::RouteRefusal;
use otlp_trace::write_status;
use std::alloc::{AllocError, Global};

/// The reply to who is refused so. Where memory is refused it is the one that takes none.
pub fn refused(alloc: Global, refusal: RouteRefusal) -> Reply
    ensures { MayTell (response_for refusal) (response_of result) }
{
    match refusal.reply(alloc) {
        Ok(reply) => reply,
        Err(AllocError) => without_memory(alloc),
    }
}

/// The reply to a body that has no value. Where memory is refused it is the one that takes none.
pub fn bad_protobuf(alloc: Global) -> Reply
    ensures { MayTell bad_request (response_of result) }
{
    match bad_protobuf_reply(alloc) {
        Ok(reply) => reply,
        Err(AllocError) => without_memory(alloc),
    }
}

fn bad_protobuf_reply(alloc: Global) -> Result<Reply, AllocError>
    ensures { IfOk result (λ reply. response_of reply ≡ bad_request) }
{
    let mut body = Vec::new(alloc);
    write_status(alloc, &mut body, "bad protobuf")?;
    Ok(Reply {
        status: 400,
        media: MediaType::Protobuf,
        allow: Allow::Post,
        body,
    })
}

/// The reply that takes no memory.
pub fn without_memory(alloc: Global) -> Reply
    ensures { response_of result ≡ no_memory }
{
    Reply {
        status: 503,
        media: MediaType::Protobuf,
        allow: Allow::Post,
        body: Vec::new(alloc),
    }
}

/// Whether it is that reply.
pub fn is_without_memory(reply: &Reply) -> bool
    ensures { IsTrue result ↔ ((reply.now.status ≡ 503) × (reply.now.body.items ≡ [])) }
{
    reply.status == 503 && reply.body.is_empty()
}
