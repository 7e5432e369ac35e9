//! How much a second it is.

ghost use Rattle.std.specs.Prelude.{◌≡◌, ◌*◌, ◌/◌, max};

/// Nanoseconds in a second.
const SECOND: u128 = 1_000_000_000;

/// How much a second it is, rounded down, where each round took that much. A time of 0 is taken for a nanosecond.
pub(crate) fn per_second(amount: usize, rounds: u32, nanos: u128) -> u128
    ensures { result ≡ amount * rounds * 1_000_000_000 / max 1 nanos }
{
    amount as u128 * u128::from(rounds) * SECOND / nanos.max(1)
}
