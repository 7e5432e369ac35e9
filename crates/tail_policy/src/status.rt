//! The status of a span.

ghost use Rattle.std.specs.Prelude.{◌≡◌, map};
ghost use Rattle.std.specs.List.{list_any};
ghost use Rattle.std.specs.Ordering.{int_eq};
ghost use Rattle.tail_settings.specs.Policy.{status_view};
ghost use Rattle.tail_policy.specs.Meaning.{number_of, has_status};

use span_view::SpanRef;
use tail_settings::StatusCode;

/// The number of a code in OTLP.
fn number_of(code: StatusCode) -> i32
    ensures { result ≡ number_of (status_view code) }
{
    match code {
        StatusCode::Unset => 0,
        StatusCode::Ok => 1,
        StatusCode::Error => 2,
    }
}

/// Whether a status is one of these. Numbers that no code has match none.
pub fn is_listed(codes: &[StatusCode], status: i32) -> bool
    ensures { result ≡ list_any (λ code. int_eq status (number_of code))
        (map status_view codes.now) }
{
    codes.iter().any(|code| status == number_of(*code))
}

/// Whether the span's status is one of these. A missing one counts as UNSET.
fn has_status(codes: &[StatusCode], span: &SpanRef<'_>) -> bool
    ensures { result ≡ has_status (map status_view codes.now) span.now }
{
    is_listed(codes, span.status())
}

/// Whether one of the spans has one of these statuses.
pub fn any_has_status(codes: &[StatusCode], spans: &[SpanRef<'_>]) -> bool
    ensures { result ≡ list_any (has_status (map status_view codes.now)) spans.now }
{
    spans.iter().any(|span| has_status(codes, span))
}
