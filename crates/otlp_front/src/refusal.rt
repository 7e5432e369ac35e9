//! Why a message goes to no tenant, and what its sender is told.

ghost use Rattle.std.specs.Prelude.{◌≡◌, IfOk};
ghost use Rattle.http_edge.specs.Seen.{response_of};
ghost use Rattle.otlp_front.specs.Seen.{response_for};

use http_edge::{Allow, MediaType, Reply};
use std::alloc::{AllocError, Global};
use thiserror::Error;

/// Why a message goes to no tenant.
#[derive(Clone, Copy, Debug, PartialEq, Eq, Error)]
pub enum RouteRefusal {
    /// The target's path isn't `/v1/traces`.
    #[error("no such path")]
    NoSuchPath,
    /// The method isn't POST.
    #[error("method not allowed")]
    MethodNotAllowed,
    /// The field that names the tenant is missing or stands more than once, or there is no tenant of that name.
    #[error("unknown tenant")]
    UnknownTenant,
    /// `Content-Type` doesn't stand exactly once, or isn't `application/x-protobuf`.
    #[error("unsupported content type")]
    UnsupportedType,
    /// A `Content-Encoding` isn't `identity`.
    #[error("unsupported content encoding")]
    UnsupportedEncoding,
}

impl RouteRefusal {
    /// The status code of the reply (RFC 9110, section 15).
    pub fn status(self) -> u16
        ensures { result ≡ (response_for self).status }
    {
        match self {
            RouteRefusal::NoSuchPath => 404,
            RouteRefusal::MethodNotAllowed => 405,
            RouteRefusal::UnknownTenant => 403,
            RouteRefusal::UnsupportedType | RouteRefusal::UnsupportedEncoding => 415,
        }
    }

    /// The content of the reply: a `google.rpc.Status` with the message alone.
    pub fn body(self) -> &'static [u8]
        ensures { result.now ≡ (response_for self).body }
    {
        match self {
            RouteRefusal::NoSuchPath => b"\x12\x0cno such path",
            RouteRefusal::MethodNotAllowed => b"\x12\x12method not allowed",
            RouteRefusal::UnknownTenant => b"\x12\x0eunknown tenant",
            RouteRefusal::UnsupportedType => b"\x12\x18unsupported content type",
            RouteRefusal::UnsupportedEncoding => b"\x12\x1cunsupported content encoding",
        }
    }

    /// The reply. Where memory is refused, a 503 without a body takes none.
    pub fn reply(self, alloc: Global) -> Result<Reply, AllocError>
        ensures { IfOk result (λ reply. response_of reply ≡ response_for self) }
    {
        Ok(Reply {
            status: self.status(),
            media: MediaType::Protobuf,
            allow: Allow::Post,
            body: Vec::from_slice(alloc, self.body())?,
        })
    }
}
