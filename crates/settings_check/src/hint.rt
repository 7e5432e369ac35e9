//! Which key may have been meant by one that no setting has.

ghost use Rattle.std.specs.Prelude.{◌≡◌};
ghost use Rattle.settings_check.specs.Warning.{is_unit, without_unit, is_with_unit, name_here, meant_of};

use crate::table::Key;

/// Whether the end of a key says a unit, or is no end.
fn is_unit(text: &[u8]) -> bool
    ensures { result ≡ is_unit text.now }
{
    matches!(text, b"" | b"_ms" | b"_s" | b"_us" | b"_ns")
}

/// A known key without the unit that it ends with.
fn without_unit(known: &[u8]) -> &[u8]
    ensures { result.now ≡ without_unit known.now }
{
    if known.len() < 3 {
        return known;
    }
    let (base, unit) = known.split_at(known.len() - 3);
    if unit == b"_ms".as_slice() {
        base
    } else {
        known
    }
}

/// Whether a key begins with a text and goes on with a unit, or with nothing.
fn is_with_unit(base: &[u8], key: &[u8]) -> bool
    ensures { result ≡ is_with_unit base.now key.now }
{
    if key.len() < base.len() {
        return false;
    }
    let (front, unit) = key.split_at(base.len());
    front == base && is_unit(unit)
}

/// What a word of the Collector's, or a plural, is called here. Any other text is left as it is.
pub fn name_here(text: &str) -> &str
    ensures { result.now ≡ name_here text.now }
{
    match text {
        "policies" => "policy",
        "tenants" | "pipelines" => "tenant",
        "traces_endpoint" => "endpoint",
        "endpoint" => "listen",
        "num_consumers" => "senders",
        "memory_limiter" => "max_spans",
        _ => text,
    }
}

/// The first key of these that is the same as another but for its unit.
pub fn meant(keys: &[Key], text: &str) -> Option<Key>
    ensures { result ≡ meant_of text.now keys.now }
{
    for key in keys {
        if is_with_unit(without_unit(key.name().as_bytes()), text.as_bytes()) {
            return Some(*key);
        }
    }
    None
}
