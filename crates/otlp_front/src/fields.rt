//! What the fields of a message say of a post.

ghost use Rattle.std.specs.Prelude.{◌≡◌, Some, reverse, option_copied, codes};
ghost use Rattle.httparse.specs.Grammar.{skip_ows, trim_ows};
ghost use Rattle.http_edge.specs.Fields.{field, only};
ghost use Rattle.http_edge.specs.Stages.{single_of};
ghost use Rattle.otlp_front.specs.Fields.{is_protobuf, is_plain, are_plain};

use crate::target::before;
use http_edge::{Headers, Single};
use http1::text::eq_ignore_case;
use httparse::is_space_or_tab;

/// What the fields of a message say of a post.
#[derive(Clone, Copy, Drop)]
pub(crate) struct PostFields<'a> {
    /// The field that names the tenant.
    pub tenant: Single<'a>,
    pub content_type: Single<'a>,
    /// No field says that the content is coded.
    pub plain: bool,
}

/// What one walk of the fields finds, where the tenant's field has this name.
#[tactic(auto, unfolding(http_edge::specs::Fields::field))]
pub(crate) fn post_fields<'a>(headers: &'a Headers, tenant_header: &[u8]) -> PostFields<'a>
    ensures tenant { single_of result.tenant ≡ field tenant_header.now headers.now }
    ensures content_type { single_of result.content_type
        ≡ field (codes "content-type") headers.now }
    ensures plain { result.plain ≡ are_plain headers.now }
{
    let (text, spans) = headers.parts();
    let mut tenant = Single::Absent;
    let mut content_type = Single::Absent;
    let mut plain = true;
    for span in spans {
        let name = span.name.of(text);
        let value = span.value.of(text);
        tenant = tenant.and(tenant_header, name, value);
        content_type = content_type.and(b"content-type", name, value);
        plain &= is_plain(name, value);
    }
    PostFields {
        tenant,
        content_type,
        plain,
    }
}

/// Whether the content is in Protocol Buffers' encoding.
pub(crate) fn has_protobuf(content_type: Single<'_>) -> bool
    ensures { result ≡ is_protobuf (only (single_of content_type.entry)) }
{
    is_protobuf(content_type.only())
}

fn is_protobuf(content_type: Option<&[u8]>) -> bool
    ensures { result ≡ is_protobuf (option_copied content_type.entry) }
{
    match content_type {
        Some(value) => value == b"application/x-protobuf".as_slice() || is_protobuf_type(value),
        None => false,
    }
}

/// Whether this is the type of Protocol Buffers' encoding, in any case and with any parameters.
fn is_protobuf_type(value: &[u8]) -> bool
    ensures { result ≡ is_protobuf (Some value.now) }
{
    eq_ignore_case(trim(before(value, b';')), b"application/x-protobuf")
}

fn is_plain(name: &[u8], value: &[u8]) -> bool
    ensures { result ≡ is_plain (name.now, value.now) }
{
    !eq_ignore_case(name, b"content-encoding") || eq_ignore_case(value, b"identity")
}

/// The text without the spaces and tabs at its ends.
#[tactic(auto, unfolding(httparse::specs::Grammar::trim_ows))]
fn trim(text: &[u8]) -> &[u8]
    ensures { result.now ≡ trim_ows text.now }
{
    trim_end(trim_start(text))
}

fn trim_start(mut text: &[u8]) -> &[u8]
    ensures { result.now ≡ skip_ows text.now }
{
    while let [first, rest @ ..] = text
        && is_space_or_tab(*first)
    {
        text = rest;
    }
    text
}

fn trim_end(mut text: &[u8]) -> &[u8]
    ensures { result.now ≡ reverse (skip_ows (reverse text.now)) }
{
    while let [rest @ .., last] = text
        && is_space_or_tab(*last)
    {
        text = rest;
    }
    text
}
