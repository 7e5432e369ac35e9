//! The role of each thread.

ghost use Rattle.std.specs.Prelude.{◌≡◌, ◌<◌, ◌≤◌, ◌+◌, ◌∷◌, [], List, length, map, All, IfOk, vec_len};
ghost use Rattle.job_lane.specs.Lane.{new_seat};
ghost use Rattle.machine_hub.specs.Hub.{AreCallersOf, slots_of};
ghost use Rattle.shared_hub.specs.Logs.{CallerState};
ghost use Rattle.service_workers.specs.Assignment.{place_of, places};
ghost use Rattle.service_workers.specs.Jobs.{AreThreads, IsThread};

use crate::workers::{Role, Worker};
use http_edge::connection_buffer;
use job_lane::LaneSeat;
use service_context::{Naming, Shared, WorkerContext};
use shared_hub::Caller;
use std::alloc::{AllocError, Global};
use std::sync::Wait;
use std::time::Clock;

/// A worker for each caller: turners first, one for each shard, then senders, then those of the admin
/// port, then receivers.
pub fn assign_threads<'h, J: Naming, R: Wait + Clock>(
    shared: &Shared<'h, J, R>,
    mut callers: Vec<Caller>,
    mut seats: Vec<LaneSeat>,
) -> Result<Vec<Worker<'h, J, R>>, AllocError>
    requires hub { shared.now.hub.now ≡ J.slots }
    requires callers { AreCallersOf J.slots callers.items }
    requires seats { All (λ s. s ≡ new_seat J.lane) seats.items }
    requires new { All (λ c. c ≡ J.fresh) callers.items }
    requires enough { vec_len callers ≤ vec_len seats }
    ensures places { IfOk result (λ workers. map (λ w. (w.role, w.context.shard)) workers.items
        ≡ places (length shared.now.hub.now) shared.now.limits.senders shared.now.limits.admins
        (vec_len callers)) }
    ensures count { IfOk result (λ workers. vec_len workers ≡ vec_len callers) }
    ensures idle { IfOk result (λ workers.
        All (λ w. (w.context.caller ≡ J.fresh) × (w.seat ≡ new_seat J.lane)) workers.items) }
{
    let shards = shared.hub.shards();
    let senders = shared.limits.senders as usize;
    let admins = shared.limits.admins as usize;
    let mut workers = Vec::new(shared.alloc);
    while let Some(caller) = callers.pop() {
        let Some(seat) = seats.pop() else {
            unreachable!()
        };
        let (role, shard) = role_of(workers.len(), shards, senders, admins);
        let buffer = buffer_of(shared.alloc, role)?;
        let context = WorkerContext::of_thread(shared, caller, shard);
        workers.push(Worker::new(role, context, seat, buffer))?;
    }
    Ok(workers)
}

/// What the worker of this number does, and at which shard's context.
fn role_of(number: usize, shards: usize, senders: usize, admins: usize) -> (Role, usize)
    requires { 0 < shards }
    ensures place { result ≡ place_of shards senders admins number }
    ensures shard { result.1 < shards }
{
    if number < shards {
        (Role::Turner, number)
    } else if number - shards < senders {
        (Role::Sender, 0)
    } else if number - shards - senders < admins {
        (Role::Admin, 0)
    } else {
        (Role::Receiver, 0)
    }
}

/// What a worker reads into, which whoever serves connections has from the start.
fn buffer_of(alloc: Global, role: Role) -> Result<Vec<u8>, AllocError> {
    match role {
        Role::Receiver | Role::Admin => connection_buffer(alloc),
        Role::Turner | Role::Sender => Ok(Vec::new(alloc)),
    }
}

/// The callers and the seats of all workers, after their work, and the caller of who read the input, in these lists, in
/// which there is none yet. No memory is asked for where they have room for all.
pub fn collect_callers<'h, J: Naming, R: Wait + Clock>(
    mut callers: Vec<Caller>,
    mut seats: Vec<LaneSeat>,
    mut workers: Vec<Worker<'h, J, R>>,
    own: Caller,
) -> Result<(Vec<Caller>, Vec<LaneSeat>), AllocError>
    requires no_callers { callers.items ≡ [] }
    requires no_seats { seats.items ≡ [] }
    requires own { slots_of own ≡ J.slots }
    requires did { All (λ w. IsThread J.first (length J.slots) J.fresh w.context.caller w.seat)
        workers.items }
    ensures same_hub { IfOk result (λ r. AreCallersOf J.slots r.0.items) }
    ensures all { IfOk result (λ r. vec_len r.0 ≡ 1 + vec_len workers.entry) }
    ensures own_first { IfOk result (λ r. (others : List CallerState)
        × (r.0.items ≡ own ∷ others)) }
    ensures same_lane { IfOk result (λ r. All (λ s. s.lane ≡ J.lane) r.1.items) }
    ensures all_seats { IfOk result (λ r. vec_len r.1 ≡ vec_len workers.entry) }
    ensures threads { IfOk result (λ r. AreThreads J.first (length J.slots) J.fresh r.0.items
        r.1.items) }
{
    callers.push(own)?;
    while let Some(worker) = workers.pop() {
        let (caller, seat) = worker.into_parts();
        callers.push(caller)?;
        seats.push(seat)?;
    }
    Ok((callers, seats))
}
