//! Statuses under which requests are counted, and classes of them under which answers of back ends are.

ghost use Rattle.std.specs.Prelude.{◌≡◌, ◌<◌};
ghost use Rattle.admin_pages.specs.Status.{class_place, status_place};

/// So many counts of requests there are: one for each status that a client is told where spans come in, and behind
/// them one for all others.
pub const STATUS_COUNTS: usize = 11;

/// In which of these counts a request is that was answered with this status.
pub fn status_place(status: u16) -> usize
    ensures place { result ≡ status_place status }
    ensures within { result < 11 }
{
    match status {
        200 => 0,
        400 => 1,
        403 => 2,
        404 => 3,
        405 => 4,
        413 => 5,
        415 => 6,
        429 => 7,
        431 => 8,
        503 => 9,
        _ => 10,
    }
}

/// So many counts of back ends' answers there are: one for each class of statuses that has its own, and behind them one
/// for all others.
pub const CLASS_COUNTS: usize = 4;

/// In which of these counts an answer is that has this status: of success, of a client's error, of a server's error, or
/// of any other.
pub fn class_place(status: u16) -> usize
    ensures place { result ≡ class_place status }
    ensures within { result < 4 }
{
    match status / 100 {
        2 => 0,
        4 => 1,
        5 => 2,
        _ => 3,
    }
}
