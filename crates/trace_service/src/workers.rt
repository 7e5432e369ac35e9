//! The threads' work, each by its role.

ghost use Rattle.std.specs.Prelude.{◌≡◌, length, All};
ghost use Rattle.std.specs.Thread.{IsSync};
ghost use Rattle.job_lane.specs.Lane.{new_seat};
ghost use Rattle.service_workers.specs.Jobs.{IsThread};

use service_admin::serve_admin;
use service_context::{Naming, Shared};
use service_runtime::{Reserve, all_arrive};
use service_workers::{Role, Worker, receive, send_all, turn_all};
use std::net::{Net, TcpListener, TcpStream};
use std::sync::Wait;
use std::thread::{Threads, for_each_mut};
use std::time::Clock;

/// All threads' work, each in a thread of its own. Where one can't be started, all give up.
pub(crate) fn work_all<'h, J, R>(shared: &Shared<'h, J, R>, workers: &mut [Worker<'h, J, R>])
where
    J: Naming + Send + Sync,
    R: Net<Listener = TcpListener, Stream = TcpStream> + Threads + Wait + Clock + Eprint + Sync,
    requires lane { shared.now.lane.now.name ≡ J.lane }
    requires idle { All (λ w. (w.context.caller ≡ J.fresh) × (w.seat ≡ new_seat J.lane))
        workers.old }
    ensures did { All (λ w. IsThread J.first (length J.slots) J.fresh w.context.caller w.seat)
        workers.new }
{
    let threads = workers.len();
    if threads == 0 {
        return;
    }
    for_each_mut(
        shared.rt,
        workers,
        threads,
        &|_i: usize, worker: &mut Worker<J, R>|
            requires { IsSync R.row × (shared.now.lane.now.name ≡ J.lane)
                × (worker.old.context.caller ≡ J.fresh) × (worker.old.seat ≡ new_seat J.lane) }
            ensures { IsThread J.first (length J.slots) J.fresh worker.new.context.caller
                worker.new.seat }
        { work(shared, worker) },
    );
}

/// One thread's work, once all are there.
fn work<'h, J, R>(shared: &Shared<'h, J, R>, worker: &mut Worker<'h, J, R>)
where
    J: Naming,
    R: Net<Listener = TcpListener, Stream = TcpStream> + Threads + Wait + Clock + Eprint + Sync,
    requires lane { shared.now.lane.now.name ≡ J.lane }
    requires fresh { worker.old.context.caller ≡ J.fresh }
    requires new { worker.old.seat ≡ new_seat J.lane }
    ensures { IsThread J.first (length J.slots) J.fresh worker.new.context.caller worker.new.seat }
{
    settle(worker.role, shared.beat.signals().reserve());
    if !all_arrive(&shared.beat, shared.threads) {
        return;
    }
    match worker.role {
        Role::Turner => turn_all(shared, worker),
        Role::Sender => send_all(shared, worker),
        Role::Admin => serve_admin(shared, &mut worker.context, &mut worker.buffer),
        Role::Receiver => receive(shared, worker),
    }
}

/// A thread that frees memory has a heap of its own before posts take what there is.
fn settle(role: Role, reserve: &Reserve) {
    match role {
        Role::Turner | Role::Sender => reserve.found_heap(),
        Role::Admin | Role::Receiver => {}
    }
}
