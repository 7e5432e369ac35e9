//! The steps that the control thread has a tenant make.

ghost use Rattle.std.specs.Prelude.{◌≡◌};
ghost use Rattle.service_front.specs.Lines.{step_of};

use tenant_shard::Step;

/// A step that a tenant is to make.
#[derive(Clone, Copy)]
pub enum Chore {
    /// Says its counters.
    Report,
    /// Takes no more spans, and sends what it holds.
    Drain,
    /// Goes, where it was drained and holds nothing.
    Retire,
}

impl Chore {
    /// This step of the tenant at that moment.
    pub fn at(self, tenant: u32, now: u64) -> Step
        ensures { result ≡ step_of self tenant now }
    {
        match self {
            Chore::Report => Step::Report { tenant, now },
            Chore::Drain => Step::Drain { tenant, now },
            Chore::Retire => Step::Retire { tenant, now },
        }
    }
}
