//! A thread that receives: it serves one connection after another.

use crate::context::WorkerContext;
use crate::naming::Naming;
use export_edge::Beat;
use http_edge::{EdgeFault, Handler, serve};
use http_line::StreamLine;
use service_runtime::{Client, Counted, Entrance, Reception, Visit, linger};
use std::net::TcpStream;
use std::sync::Wait;
use std::thread::Threads;
use std::time::Clock;

impl<'h, J: Naming, R: Wait + Clock> Reception for WorkerContext<'h, J, R> {
    type Guest = Client<'h>;

    type Door = Entrance<'h>;

    ghost use Rattle.std.specs.Prelude.{◌≡◌};
    ghost use Rattle.http_edge.specs.declared.message.RefusalForm.TheVariants as forms;
    ghost use Rattle.service_runtime.specs.Receiving.{IsTalk};

    // What threads told one another and who comes is not known; no shard is called meanwhile.
    ghost looks = { λ old _ new. new ≡ old };

    ghost takes = { λ old _ new. new ≡ old };

    // Over whatever connection, what is written are this context's replies to what is read.
    ghost serves = { λ old _ new. IsTalk forms.Status
        ⟦<WorkerContext<'h, J, R> as Handler>⟧.answers old new };

    ghost rests = { λ old new. new ≡ old };

    fn is_closing(&mut self) -> bool {
        self.beat.signals().is_over()
    }

    fn next(&mut self, door: &Entrance<'h>) -> Option<Client<'h>> {
        door.admit(self.rt, self.beat.signals())
    }

    /// Its faults are nobody's but its own: a connection that failed is given up, and what was posted over it stands.
    fn serve<T: Threads + Sync>(&mut self, rt: &T, guest: Client<'h>, buffer: &mut Vec<u8>) {
        let mut beat = self.beat.with_short_pauses();
        let tally = self.beat.signals().tally();
        tally.begin_connection();
        let mut line = StreamLine::new(Counted::new(Visit::new(self.rt, &guest), tally));
        let served = serve(rt, self.alloc, &mut line, self, buffer);
        self.claim.give_back();
        linger_unless_failed(served, &guest.stream, &mut beat);
        tally.end_connection();
    }

    fn pause(&mut self) {
        self.beat.with_short_pauses().pause();
    }
}

/// Lingers over a connection, unless it failed.
fn linger_unless_failed<B: Beat>(served: Result<(), EdgeFault>, stream: &TcpStream, beat: &mut B) {
    match served {
        Ok(()) | Err(EdgeFault::OutOfMemory) => linger(stream, beat),
        Err(_) => {}
    }
}
