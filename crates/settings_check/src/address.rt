//! What a text has that no address has, as far as the text shows it.

ghost use Rattle.std.specs.Prelude.{◌≡◌, option_copied};
ghost use Rattle.settings_check.specs.Address.{begins_with_mark, has_scheme, behind_colon, is_port, address_fault};

/// What is said of an address with a scheme.
const SCHEME: &str = "has a scheme, where a host, a colon and a port are wanted";

/// What is said of an address without a port.
const NO_PORT: &str = "doesn't end with a colon and a port from 0 to 65535";

/// What is said of an address without a host.
const NO_HOST: &str = "has no host before its port";

/// Whether a text begins with what stands between a scheme and a host.
fn begins_with_mark(text: &[u8]) -> bool
    ensures { result ≡ begins_with_mark text.now }
{
    matches!(text, [b':', b'/', b'/', ..])
}

/// Whether a text has a scheme.
fn has_scheme(mut text: &[u8]) -> bool
    ensures { result ≡ has_scheme text.now }
{
    while let [_, rest @ ..] = text {
        if begins_with_mark(text) {
            return true;
        }
        text = rest;
    }
    false
}

/// What stands behind a text's last colon, if it has one.
pub(crate) fn behind_colon(mut text: &[u8]) -> Option<&[u8]>
    ensures { option_copied result ≡ behind_colon None text.now }
{
    let mut found = None;
    while let [first, rest @ ..] = text {
        if *first == b':' {
            found = Some(rest);
        }
        text = rest;
    }
    found
}

/// Whether a text is a port in decimal digits.
fn is_port(text: &[u8]) -> bool
    ensures { result ≡ is_port text.now }
{
    let mut port: u32 = 0;
    for digit in text {
        if !digit.is_ascii_digit() {
            return false;
        }
        port = 10 * port + u32::from(*digit - b'0');
        if 65_535 < port {
            return false;
        }
    }
    !text.is_empty()
}

/// What a text has that no address has, in words; nothing where it may be one. Whether there is such a host isn't
/// looked at.
pub fn address_fault(text: &[u8]) -> Option<&'static str>
    ensures { option_copied result ≡ address_fault text.now }
{
    if has_scheme(text) {
        return Some(SCHEME);
    }
    match behind_colon(text) {
        Some(port) if !is_port(port) => Some(NO_PORT),
        Some(port) if port.len() + 1 == text.len() => Some(NO_HOST),
        Some(_) => None,
        None => Some(NO_PORT),
    }
}
