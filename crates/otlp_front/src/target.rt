//! The path of a request's target.

ghost use Rattle.std.specs.Prelude.{◌≡◌, ◌==◌, ◌≤◌, IsTrue, length};
ghost use Rattle.std.specs.List.{before_first};
ghost use Rattle.otlp_front.specs.Target.{begins_with, from_slash, path_in, path_of, is_for_traces};

use http1::text::eq_ignore_case;

/// Whether traces are posted there.
pub(crate) fn is_for_traces(target: &[u8]) -> bool
    ensures { result ≡ is_for_traces target.now }
{
    target == b"/v1/traces".as_slice() || path(target) == b"/v1/traces".as_slice()
}

/// The path of a target: up to its query, and after the host of a whole URI.
#[tactic(auto, unfolding(crate::specs::Target::path_of))]
pub fn path(target: &[u8]) -> &[u8]
    ensures { result.now ≡ path_of target.now }
{
    path_in(before(target, b'?'))
}

fn path_in(text: &[u8]) -> &[u8]
    ensures { result.now ≡ path_in text.now }
{
    if begins_with(text, b"http://") {
        from_slash(&text[7..])
    } else if begins_with(text, b"https://") {
        from_slash(&text[8..])
    } else {
        text
    }
}

/// Whether the text begins with this, in any case of ASCII.
fn begins_with(text: &[u8], front: &[u8]) -> bool
    ensures begins { result ≡ begins_with front.now text.now }
    ensures room { IsTrue result → length front.now ≤ length text.now }
{
    front.len() <= text.len() && eq_ignore_case(&text[..front.len()], front)
}

/// What stands before the first such byte, or all where there is none.
pub(crate) fn before(text: &[u8], stop: u8) -> &[u8]
    ensures { result.now ≡ before_first (λ b. b == stop) text.now }
{
    for (i, b) in text.iter().enumerate() {
        if *b == stop {
            return &text[..i];
        }
    }
    text
}

/// From the first `/` on, and nothing where there is none.
fn from_slash(mut text: &[u8]) -> &[u8]
    ensures { result.now ≡ from_slash text.now }
{
    while let [first, rest @ ..] = text
        && *first != b'/'
    {
        text = rest;
    }
    text
}
