//! HTTP/1.1 over a line of bytes, at both edges of the collector.
//!
//! [`serve`] reads messages and writes a [`Handler`]'s replies; [`write_post`] writes a post to a back end, and
//! [`read_answer`] reads what it answers. What is written and answered is settled by the bytes read, however they were
//! cut ([`one_talk`], [`one_answer`]), and so is which messages a handler answers, whatever it answers
//! ([`one_reading`]). [`Headers`] are the fields of a message, [`only_value`] says what stands in one of them,
//! [`Single`] gathers it in a walk of them all, and [`MAX_BODY`] says how long a body may be.
//!
//! Rules are those of RFC 9110 and RFC 9112, with this project's own choices where they leave one (docs/HTTP.md).
//! `httparse` reads heads, chunk lines and trailers, of requests and of answers. `http1` says how a message is framed,
//! and decodes an answer's body that is not in chunks. Methods are those of `http`. The crate uses `http_line` for the
//! line, and `send_retry` for what an answer means.
#![tactic(auto)]

mod answer;
mod answer_body;
mod answer_head;
mod body;
mod chunks;
mod fields;
mod head;
mod headers;
mod limits;
mod message;
mod post;
mod reply;
mod server;
mod single;
mod wire;

pub use crate::answer::{one_answer, read_answer};
pub use crate::headers::Headers;
pub use crate::limits::MAX_BODY;
pub use crate::message::{
    Allow, Handler, HttpMessage, MediaType, RefusalForm, Reply, one_reading, one_talk,
};
pub use crate::post::write_post;
pub use crate::reply::reply_bytes;
pub use crate::server::{connection_buffer, serve};
pub use crate::single::{Single, only_value};
pub use crate::wire::EdgeFault;
