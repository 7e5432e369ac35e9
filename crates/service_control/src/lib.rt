//! The control thread of a service: it reads the input, answers each line, and ends the service.
//!
//! A line `report NAME` prints a tenant's counters, `add PATH` lets the tenant of a document come, and `retire NAME`
//! lets a tenant go after it has sent what it holds. At the end of the input [`Control`] drains all tenants, waits
//! until none holds a span, and prints their reports. [`ServiceFault`] is how that can fail, and [`Director`] is what
//! the start of the service knows of it.
#![tactic(auto)]

ghost use Rattle.service_control.specs.Commands.{TenantsAreInForce};

mod comings;
mod control;
mod director;
mod fault;

pub use crate::control::Control;
pub use crate::director::Director;
pub use crate::fault::ServiceFault;
use service_runtime::Documents;

/// After each line of the input the tenants in the control thread's list are those of the settings in force, which all
/// changes until then made of the settings at the start. So a tenant that came is there until it goes. A law over what
/// a service comes to.
pub fn tenants_are_in_force<D: Documents>()
    ensures { TenantsAreInForce D.reads }
{}
