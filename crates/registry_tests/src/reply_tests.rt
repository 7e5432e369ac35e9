//! What senders are told without a step of a shard.

use crate::told::is_told;
use http_edge::{MediaType, Reply};
use otlp_front::RouteRefusal;
use std::process::Abort;
use tenant_registry::replies::{bad_protobuf, is_without_memory, refused, without_memory};

/// Refusals, each with its status and content: a `google.rpc.Status` whose second field is the message.
const REFUSALS: [(RouteRefusal, u16, &str); 5] = [
    (RouteRefusal::NoSuchPath, 404, "\x12\x0cno such path"),
    (
        RouteRefusal::MethodNotAllowed,
        405,
        "\x12\x12method not allowed",
    ),
    (RouteRefusal::UnknownTenant, 403, "\x12\x0eunknown tenant"),
    (
        RouteRefusal::UnsupportedType,
        415,
        "\x12\x18unsupported content type",
    ),
    (
        RouteRefusal::UnsupportedEncoding,
        415,
        "\x12\x1cunsupported content encoding",
    ),
];

/// A reply has this status and content, and is told apart as the one that takes no memory, or isn't.
fn assert_told(rt: &impl Abort, reply: &Reply, status: u16, content: &str, lacks_memory: bool) {
    assert!(rt; is_told(reply, status, MediaType::Protobuf, content));
    assert!(rt; is_without_memory(reply) == lacks_memory);
}

#[test]
fn who_is_refused_is_told_why(rt: HostRuntime) {
    for (refusal, status, content) in REFUSALS {
        let reply = refused(rt.alloc(), refusal);
        assert_told(&rt, &reply, status, content, false);
    }
}

#[test]
fn a_body_without_a_value_is_told_apart_from_want_of_memory(rt: HostRuntime) {
    let bad = bad_protobuf(rt.alloc());
    assert_told(&rt, &bad, 400, "\x12\x0cbad protobuf", false);
    let unheard = without_memory(rt.alloc());
    assert_told(&rt, &unheard, 503, "", true);
}
