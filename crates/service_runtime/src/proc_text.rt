//! Numbers in texts that Linux tells of a process, as `/proc/self/status` and `/proc/self/limits`.

ghost use Rattle.std.specs.Prelude.{◌≡◌, ◌≤◌, IfSome, option_copied};
ghost use Rattle.service_runtime.specs.ProcText.{behind_first, skip_blanks, number_from, number_of, number_behind, with_unit};

use crate::front::strip_front;

/// A higher number is taken as this one.
const MOST: u64 = 1_000_000_000_000_000;

/// The decimal number that stands behind the first place of a title and blanks, where its unit stands right behind it.
/// A unit of no bytes asks for nothing there.
pub fn number_behind(text: &[u8], title: &[u8], unit: &[u8]) -> Option<u64>
    ensures value { result ≡ number_behind title.now unit.now text.now }
    ensures most { IfSome result (λ number. number ≤ 1000000000000000) }
{
    match behind_first(text, title) {
        Some(behind) => number(skip_blanks(behind), unit),
        None => None,
    }
}

/// What stands behind the first place of a title in a text, if it has one.
fn behind_first<'t>(mut text: &'t [u8], title: &[u8]) -> Option<&'t [u8]>
    ensures { option_copied result ≡ behind_first title.now text.now }
{
    while let [_, rest @ ..] = text {
        if let Some(behind) = strip_front(text, title) {
            return Some(behind);
        }
        text = rest;
    }
    None
}

/// A text without the spaces and tabs that it begins with.
fn skip_blanks(mut text: &[u8]) -> &[u8]
    ensures { result.now ≡ skip_blanks text.now }
{
    while let [first, rest @ ..] = text
        && (*first == b' ' || *first == b'\t')
    {
        text = rest;
    }
    text
}

/// The number that a text begins with, if it begins with one, where its unit stands behind it.
fn number(text: &[u8], unit: &[u8]) -> Option<u64>
    ensures value { result ≡ number_of unit.now text.now }
    ensures most { IfSome result (λ number. number ≤ 1000000000000000) }
{
    match text.first() {
        Some(first) if first.is_ascii_digit() => number_from(text, unit),
        _ => None,
    }
}

/// The number whose decimal digits a text begins with, at most MOST, where its unit stands behind it.
fn number_from(mut text: &[u8], unit: &[u8]) -> Option<u64>
    ensures value { result ≡ number_from unit.now 0 text.now }
    ensures most { IfSome result (λ number. number ≤ 1000000000000000) }
{
    let mut number: u64 = 0;
    while let [first, rest @ ..] = text
        && first.is_ascii_digit()
    {
        number = (10 * number + u64::from(*first - b'0')).min(MOST);
        text = rest;
    }
    with_unit(number, text, unit)
}

/// A number, where its unit stands behind it.
fn with_unit(number: u64, behind: &[u8], unit: &[u8]) -> Option<u64>
    ensures value { result ≡ with_unit unit.now number behind.now }
    ensures same { IfSome result (λ n. n ≡ number) }
{
    if behind.starts_with(unit) {
        Some(number)
    } else {
        None
    }
}
