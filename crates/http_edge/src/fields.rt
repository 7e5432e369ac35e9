//! What the fields of a head say.
ghost use Rattle.std.specs.Prelude.{◌≡◌, length, map, All, Some, None, if◌then◌else◌, codes};
ghost use Rattle.std.specs.List.{list_any};
ghost use Rattle.std.specs.Str.Parse.{digits_value};
ghost use Rattle.httparse.specs.Spans.{IsHeaderWithin, header_bytes};
ghost use Rattle.http1.specs.Fields.{is_number};
ghost use Rattle.http_edge.specs.Fields.{field, number_of, framing_by_length, framing_by_fields, framing_in, is_host_fit, is_expectation, expects_in, closes_in};
ghost use Rattle.http_edge.specs.Stages.{single_of};

use crate::single::Single;
use http1::fields::KnownFields;
use http1::framing::Framing;
use http1::text::eq_ignore_case;
use httparse::spans::HeaderSpan;

const MOST_DIGITS: usize = 19;

/// The field with this name.
#[tactic(auto, unfolding(crate::specs::Fields::field))]
pub(crate) fn field<'a>(bytes: &'a [u8], spans: &[HeaderSpan], name: &[u8]) -> Single<'a>
    requires { All (IsHeaderWithin (length bytes.now)) spans.now }
    ensures { single_of result ≡ field name.now (map (header_bytes bytes.now) spans.now) }
{
    let mut found = Single::Absent;
    for span in spans {
        found = found.and(name, span.name.of(bytes), span.value.of(bytes));
    }
    found
}

/// The number that these digits write, where it is below 2^64.
fn parse_number(digits: &[u8]) -> Option<u64>
    ensures { result ≡ (if is_number digits.now then Some (digits_value 10 digits.now) else None) }
{
    if digits.is_empty() {
        return None;
    }
    let mut n: u64 = 0;
    for b in digits {
        if !b.is_ascii_digit() {
            return None;
        }
        n = n.checked_mul(10)?.checked_add(u64::from(*b - b'0'))?;
    }
    Some(n)
}

/// The number that at most so many digits write, where it is below 2^64.
pub(crate) fn number(text: &[u8], most: usize) -> Option<u64>
    ensures { result ≡ number_of most text.now }
{
    if text.len() <= most {
        parse_number(text)
    } else {
        None
    }
}

/// How the end of the body is found, where the fields are sound: as `unstated` where none says it.
#[tactic(auto, unfolding(crate::specs::Fields::framing_in))]
pub(crate) fn framing_in(bytes: &[u8], spans: &[HeaderSpan], unstated: Framing) -> Option<Framing>
    requires { All (IsHeaderWithin (length bytes.now)) spans.now }
    ensures { result ≡ framing_in unstated (map (header_bytes bytes.now) spans.now) }
{
    let coding = field(bytes, spans, b"transfer-encoding");
    let length = field(bytes, spans, b"content-length");
    framing_by(unstated, coding, length)
}

fn framing_by(unstated: Framing, coding: Single<'_>, length: Single<'_>) -> Option<Framing>
    ensures { result ≡ framing_by_fields unstated (single_of coding.entry)
        (single_of length.entry) }
{
    match coding {
        Single::Absent => match length {
            Single::Absent => Some(unstated),
            Single::One(text) => framing_by_length(number(text, MOST_DIGITS)),
            Single::Repeated => None,
        },
        Single::One(coding) => match length {
            Single::Absent => if eq_ignore_case(coding, b"chunked") {
                Some(Framing::Chunked)
            } else {
                None
            },
            Single::One(_) => None,
            Single::Repeated => None,
        },
        Single::Repeated => None,
    }
}

fn framing_by_length(length: Option<u64>) -> Option<Framing>
    ensures { result ≡ framing_by_length length }
{
    match length {
        Some(length) => Some(Framing::Length(length)),
        None => None,
    }
}

/// Whether the Host is as it has to be.
pub(crate) fn is_host_fit(bytes: &[u8], spans: &[HeaderSpan], minor: u8) -> bool
    requires { All (IsHeaderWithin (length bytes.now)) spans.now }
    ensures { result ≡ is_host_fit minor
        (field (codes "host") (map (header_bytes bytes.now) spans.now)) }
{
    match field(bytes, spans, b"host") {
        Single::Absent => minor == 0,
        Single::One(_) => true,
        Single::Repeated => false,
    }
}

/// Whether the sender waits for 100 Continue.
#[tactic(auto, unfolding(crate::specs::Fields::expects_in))]
pub(crate) fn expects_in(bytes: &[u8], spans: &[HeaderSpan], minor: u8) -> bool
    requires { All (IsHeaderWithin (length bytes.now)) spans.now }
    ensures { result ≡ expects_in minor (map (header_bytes bytes.now) spans.now) }
{
    minor == 1 && has_expectation(bytes, spans)
}

fn has_expectation(bytes: &[u8], spans: &[HeaderSpan]) -> bool
    requires { All (IsHeaderWithin (length bytes.now)) spans.now }
    ensures { result ≡ list_any is_expectation (map (header_bytes bytes.now) spans.now) }
{
    let mut found = false;
    for span in spans {
        found |= is_expectation(span.name.of(bytes), span.value.of(bytes));
    }
    found
}

fn is_expectation(name: &[u8], value: &[u8]) -> bool
    ensures { result ≡ is_expectation (name.now, value.now) }
{
    eq_ignore_case(name, b"expect") && eq_ignore_case(value, b"100-continue")
}

/// Whether the connection ends after the reply.
#[tactic(auto, unfolding(crate::specs::Fields::closes_in))]
pub(crate) fn closes_in(bytes: &[u8], spans: &[HeaderSpan], minor: u8) -> bool
    requires { All (IsHeaderWithin (length bytes.now)) spans.now }
    ensures { result ≡ closes_in minor (map (header_bytes bytes.now) spans.now) }
{
    minor == 0 || KnownFields::from_spans(bytes, spans).close
}
