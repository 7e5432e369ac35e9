//! Who is let in at the admin port.

ghost use Rattle.std.specs.Prelude.{◌≡◌, option_copied};
ghost use Rattle.admin_pages.specs.Route.{route_view};
ghost use Rattle.service_runtime.specs.Token.{bearer, is_change, is_for_all, is_from_page, is_let_in, is_wanted, token_of, without_spaces};

use admin_pages::{AdminRoute, same_token};
use http_edge::{Headers, only_value};
use http1::text::eq_ignore_case;

/// Whether a message with these fields is let in there: it has the token that is wanted, and where none is it isn't a
/// page that asks for a change.
pub fn is_let_in(wanted: Option<&[u8]>, headers: &Headers, asked: &AdminRoute<'_>) -> bool
    ensures { result ≡ is_let_in (option_copied wanted.entry) headers.now
        (route_view asked.now) }
{
    match wanted {
        Some(wanted) => is_for_all(asked) || is_wanted(wanted, token_in(headers)),
        None => !(is_change(asked) && is_from_page(headers)),
    }
}

/// Whether it is shown to whoever reaches the address: it tells nothing of any tenant.
fn is_for_all(asked: &AdminRoute<'_>) -> bool
    ensures { result ≡ is_for_all (route_view asked.now) }
{
    matches!(
        asked,
        AdminRoute::Page | AdminRoute::Health | AdminRoute::Readiness
    )
}

/// Whether a change is asked for: that the service ends, or that a tenant comes or goes.
fn is_change(asked: &AdminRoute<'_>) -> bool
    ensures { result ≡ is_change (route_view asked.now) }
{
    matches!(
        asked,
        AdminRoute::Drain | AdminRoute::Add | AdminRoute::Retire(_)
    )
}

/// Whether a page that a browser shows asks. It may be any site's: a form posts wherever it likes.
fn is_from_page(headers: &Headers) -> bool
    ensures { result ≡ is_from_page headers.now }
{
    let (text, spans) = headers.parts();
    let mut is = false;
    for span in spans {
        is |= eq_ignore_case(span.name.of(text), b"origin");
    }
    is
}

/// Whether this token is the one that is wanted.
fn is_wanted(wanted: &[u8], given: Option<&[u8]>) -> bool
    ensures { result ≡ is_wanted wanted.now (option_copied given.entry) }
{
    match given {
        Some(given) => same_token(wanted, given),
        None => false,
    }
}

/// The token of a message, if it has one.
fn token_in(headers: &Headers) -> Option<&[u8]>
    ensures { option_copied result ≡ token_of headers.now }
{
    bearer(only_value(headers, b"authorization")?)
}

/// The token of credentials, if their scheme is the one for tokens.
fn bearer(credentials: &[u8]) -> Option<&[u8]>
    ensures { option_copied result ≡ bearer credentials.now }
{
    if credentials.len() >= 7 && eq_ignore_case(&credentials[..7], b"bearer ") {
        Some(without_spaces(&credentials[7..]))
    } else {
        None
    }
}

/// What stands behind the spaces at its front.
fn without_spaces(mut text: &[u8]) -> &[u8]
    ensures { result.now ≡ without_spaces text.entry.now }
{
    while let [first, rest @ ..] = text {
        if *first != b' ' {
            return text;
        }
        text = rest;
    }
    text
}
