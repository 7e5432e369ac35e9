//! Who serves those who come, one after another.

ghost use Rattle.std.specs.Prelude.{Bool, Option};
ghost use Rattle.std.specs.Thread.{IsSync};
ghost use Rattle.service_runtime.specs.Receiving.{IsRound, Receiving, Served};

use std::sync::Wait;
use std::thread::Threads;

/// Where those who are to be served come from, and what serves them.
pub trait Reception {
    /// Who comes.
    type Guest: Drop;

    /// Where they come to.
    type Door;

    // From the first state it was seen whether the end has come, and the second state is left.
    ghost looks: { Self → Bool → Self → Type 0 };

    // From the first state this guest came, or none, and the second state is left.
    ghost takes: { Self → Option Self.Guest → Self → Type 0 };

    // From the first state the guest was served, and the second state is left.
    ghost serves: { Self → Self.Guest → Self → Type 0 };

    // From the first state a while passed, and the second state is left.
    ghost rests: { Self → Self → Type 0 };

    /// Whether nobody is to be served any more.
    fn is_closing(&mut self) -> bool
        ensures { looks self.old result self.new };

    /// Waits for the next guest. None where none can come in now.
    fn next(&mut self, door: &Self::Door) -> Option<Self::Guest>
        ensures { takes self.old result self.new };

    /// Serves the guest to its end, by way of this buffer.
    fn serve<T: Threads + Sync>(&mut self, rt: &T, guest: Self::Guest, buffer: &mut Vec<u8>)
        // As for `http_edge::Handler`: the bound doesn't say it of a trait's method.
        requires { IsSync T.row }
        ensures { serves self.old guest self.new };

    /// Waits a while before the next attempt.
    fn pause(&mut self)
        ensures { rests self.old self.new };
}

/// Serves guests, one after another, by way of one buffer, until nobody is to be served any more.
pub fn receive_all<D, R>(rt: &R, door: &D::Door, reception: &mut D, buffer: &mut Vec<u8>)
where
    D: Reception,
    R: Threads + Wait + Sync,
    ensures { Receiving D.looks D.takes D.serves D.rests reception.old reception.new }
{
    'rounds: for _ in rt.forever() {
        if reception.is_closing() {
            return;
        }
        receive_next(rt, door, reception, buffer);
    }
    unreachable!()
}

/// Serves the next guest, unless the end has come meanwhile. Pauses where none comes.
fn receive_next<D: Reception, T: Threads + Sync>(
    rt: &T,
    door: &D::Door,
    reception: &mut D,
    buffer: &mut Vec<u8>,
)
    ensures { IsRound D.looks D.takes D.serves D.rests reception.old reception.new }
{
    match reception.next(door) {
        Some(guest) => serve_in_time(rt, reception, guest, buffer),
        None => reception.pause(),
    }
}

/// Serves the guest, unless the end has come.
fn serve_in_time<D: Reception, T: Threads + Sync>(
    rt: &T,
    reception: &mut D,
    guest: D::Guest,
    buffer: &mut Vec<u8>,
)
    ensures { Served D.looks D.serves reception.old guest reception.new }
{
    if reception.is_closing() {
        return;
    }
    reception.serve(rt, guest, buffer);
}
