//! The threads' work at the lane and at the listener.

ghost use Rattle.std.specs.Prelude.{◌≡◌, length};
ghost use Rattle.job_lane.specs.Lane.{new_seat};
ghost use Rattle.service_workers.specs.Jobs.{IsThread};

use export_edge::{TcpBackEnd, run_sender, run_turner};
use job_lane::LaneSeat;
use service_context::{Naming, Shared, WorkerContext};
use service_runtime::{PatientBackEnd, receive_all};
use shared_hub::Caller;
use std::net::{Net, TcpListener, TcpStream};
use std::sync::Wait;
use std::thread::Threads;
use std::time::Clock;
use tenant_registry::{BackEnds, ToldBackEnd};

/// The role of a thread.
#[derive(Clone, Copy)]
pub enum Role {
    /// Makes turns of its context's shard.
    Turner,
    /// Sends jobs.
    Sender,
    /// Serves connections of the admin port, one after another.
    Admin,
    /// Serves connections, one after another.
    Receiver,
}

/// What one thread works with.
#[derive(Drop)]
pub struct Worker<'h, J: Naming, R> {
    pub role: Role,
    pub context: WorkerContext<'h, J, R>,
    pub seat: LaneSeat,
    /// What connections are read into.
    pub buffer: Vec<u8>,
    pub ghost seated: { seat.lane ≡ J.lane },
}

impl<'h, J: Naming, R: Wait + Clock> Worker<'h, J, R> {
    ghost use Rattle.std.specs.Prelude.{◌≡◌};
    ghost use Rattle.job_lane.specs.Lane.{new_seat};
    ghost use Rattle.machine_hub.specs.Hub.{slots_of};

    /// What a thread works with, before its work.
    pub fn new(
        role: Role,
        context: WorkerContext<'h, J, R>,
        seat: LaneSeat,
        buffer: Vec<u8>,
    ) -> Worker<'h, J, R>
        requires { seat ≡ new_seat J.lane }
        ensures role { result.role ≡ role }
        ensures shard { result.context.shard ≡ context.entry.shard }
        ensures caller { result.context.caller ≡ context.entry.caller }
        ensures seat { result.seat ≡ seat }
    {
        Worker {
            role,
            context,
            seat,
            buffer,
        }
    }

    /// The caller and the seat, after the work.
    pub fn into_parts(self) -> (Caller, LaneSeat)
        ensures same_hub { slots_of result.0 ≡ J.slots }
        ensures caller { result.0 ≡ self.entry.context.caller }
        ensures same_lane { result.1.lane ≡ J.lane }
        ensures seat { result.1 ≡ self.entry.seat }
    {
        (self.context.into_caller(), self.seat)
    }
}

/// Makes turns of one shard and pushes their jobs to the lane, until the work is over.
pub fn turn_all<'h, J, R>(shared: &Shared<'h, J, R>, worker: &mut Worker<'h, J, R>)
where
    J: Naming,
    R: Net<Listener = TcpListener, Stream = TcpStream> + Threads + Wait + Clock + Eprint + Sync,
    requires lane { shared.now.lane.now.name ≡ J.lane }
    requires fresh { worker.old.context.caller ≡ J.fresh }
    requires new { worker.old.seat ≡ new_seat J.lane }
    ensures { IsThread J.first (length J.slots) J.fresh worker.new.context.caller worker.new.seat }
{
    let mut beat = worker.context.beat.of_turner(worker.context.shard);
    // The shards drop a job that the dispatcher still holds at the end.
    let _held = run_turner(
        shared.rt,
        shared.lane,
        &mut worker.seat,
        &mut worker.context,
        &mut beat,
    );
}

/// Serves one connection after another, until the work is over.
pub fn receive<'h, J, R>(shared: &Shared<'h, J, R>, worker: &mut Worker<'h, J, R>)
where
    J: Naming,
    R: Net<Listener = TcpListener, Stream = TcpStream> + Threads + Wait + Clock + Eprint + Sync,
    requires fresh { worker.old.context.caller ≡ J.fresh }
    requires new { worker.old.seat ≡ new_seat J.lane }
    ensures { IsThread J.first (length J.slots) J.fresh worker.new.context.caller worker.new.seat }
{
    receive_all(
        shared.rt,
        &shared.entrance,
        &mut worker.context,
        &mut worker.buffer,
    );
}

/// Sends one job after another to its tenant's back end, and hands in the answers, until the work is over.
pub fn send_all<'h, J, R>(shared: &Shared<'h, J, R>, worker: &mut Worker<'h, J, R>)
where
    J: Naming,
    R: Net<Listener = TcpListener, Stream = TcpStream> + Threads + Wait + Clock + Eprint + Sync,
    requires lane { shared.now.lane.now.name ≡ J.lane }
    requires fresh { worker.old.context.caller ≡ J.fresh }
    requires new { worker.old.seat ≡ new_seat J.lane }
    ensures { IsThread J.first (length J.slots) J.fresh worker.new.context.caller worker.new.seat }
{
    let mut beat = worker.context.beat.of_sender();
    let signals = shared.beat.signals();
    let back_ends = BackEnds {
        rt: shared.rt,
        settings: shared.settings,
        tally: signals.tally(),
    };
    let limit = shared.limits.back_end_timeout;
    let over_tcp = TcpBackEnd::new(shared.rt, shared.alloc, back_ends, limit);
    let mut back_end = ToldBackEnd {
        rt: shared.rt,
        alloc: shared.alloc,
        settings: shared.settings,
        is_verbose: shared.is_verbose,
        back_end: PatientBackEnd::new(shared.rt, shared.alloc, signals, over_tcp),
    };
    run_sender(
        shared.rt,
        shared.lane,
        &mut worker.seat,
        &mut back_end,
        &mut worker.context,
        &mut beat,
    );
}
