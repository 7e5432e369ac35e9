//! What all threads work at, and what they share of it.

ghost use Rattle.std.specs.Prelude.{◌≡◌, IfOk, is_some, option_map};

use crate::start::ServiceStart;
use job_lane::Lane;
use service_context::{Naming, Shared};
use service_front::ServiceLimits;
use service_runtime::{AdminEntrance, Entrance, ServiceBeat, Signals, admin_entrance_of};
use shared_hub::SharedHub;
use std::alloc::{AllocError, Global};
use std::io;
use std::net::TcpListener;
use std::sync::{Mutex, Wait};
use std::time::{Clock, Instant};
use tenant_registry::{ChangeList, InForce};

/// What all threads work at, from their start to their end.
#[derive(Drop)]
pub(crate) struct Workplace<J: Naming> {
    pub settings: Mutex<InForce<J>>,
    /// The changes that were made of them.
    pub list: ChangeList<J>,
    pub hub: SharedHub,
    pub lane: Lane,
    pub signals: Signals,
}

impl<J: Naming> Workplace<J> {
    /// One under these settings and with these limits, at which nobody is yet.
    pub fn new(
        alloc: Global,
        settings: InForce<J>,
        list: ChangeList<J>,
        hub: SharedHub,
        lane: Lane,
        limits: &ServiceLimits,
    ) -> Result<Workplace<J>, AllocError>
        ensures hub { IfOk result (λ w. w.hub ≡ hub) }
        ensures lane { IfOk result (λ w. w.lane ≡ lane) }
        ensures body_memory { IfOk result (λ w. w.signals.body_memory.most
            ≡ limits.now.body_memory) }
    {
        let signals = Signals::new(alloc, hub.shards(), limits.senders, limits.body_memory)?;
        Ok(Workplace {
            settings: Mutex::new(settings),
            list,
            hub,
            lane,
            signals,
        })
    }
}

/// What so many threads share at this workplace.
pub(crate) fn share<'h, J: Naming, R: Wait + Clock, D>(
    start: &'h ServiceStart<'h, R, D>,
    workplace: &'h Workplace<J>,
    limits: ServiceLimits,
    threads: usize,
) -> io::Result<Shared<'h, J, R>>
    ensures hub { IfOk result (λ shared. shared.hub.now ≡ workplace.now.hub) }
    ensures lane { IfOk result (λ shared. shared.lane.now ≡ workplace.now.lane) }
    ensures admin { IfOk result (λ shared. is_some shared.admin ≡ is_some start.now.admin) }
    ensures port { IfOk result (λ shared. option_map (λ admin. admin.port) shared.admin
        ≡ start.now.admin) }
    ensures limits { IfOk result (λ shared. shared.limits ≡ limits) }
    ensures patience { IfOk result (λ shared. shared.entrance.patience ≡ limits.patience) }
    ensures threads { IfOk result (λ shared. shared.threads ≡ threads) }
    ensures verbose { IfOk result (λ shared. shared.is_verbose
        ≡ start.now.options.verbose) }
{
    let since = Instant::now(start.rt)?;
    Ok(Shared {
        rt: start.rt,
        alloc: start.alloc,
        settings: &workplace.settings,
        limits,
        hub: &workplace.hub,
        lane: &workplace.lane,
        entrance: Entrance::new(start.listener, limits.patience),
        admin: admin_entrance_of(start.admin),
        beat: ServiceBeat::new(start.rt, &workplace.signals, since),
        threads,
        is_verbose: start.options.verbose,
    })
}

/// Where an admin port listens, if there is one.
pub(crate) fn listener_of<'h>(admin: &Option<AdminEntrance<'h>>) -> Option<&'h TcpListener>
    ensures { is_some result ≡ is_some admin.now }
{
    match admin {
        Some(admin) => Some(admin.port.listener),
        None => None,
    }
}
