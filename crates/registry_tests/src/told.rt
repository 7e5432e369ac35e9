//! Whether a reply is the one that is wanted.

use http_edge::{Allow, MediaType, Reply};

/// Whether a reply has this status, media type and content.
pub fn is_told(reply: &Reply, status: u16, media: MediaType, content: &str) -> bool {
    reply.status == status
        && reply.media == media
        && reply.allow == Allow::Post
        && reply.body.as_slice() == content.as_bytes()
}
