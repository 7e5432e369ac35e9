//! The names of a hub, a lane and settings, in the proofs alone.

use std::marker::Brand;
use tenant_registry::SettingsNaming;

/// Names one hub, one lane and the settings at the start, in the proofs alone. Each call of a service picks its own.
pub trait Naming: SettingsNaming {
    ghost use Rattle.std.specs.Prelude.{List};
    ghost use Rattle.atomic_table.specs.Seated.{TableId};
    ghost use Rattle.job_lane.specs.Lane.{LaneName};
    ghost use Rattle.shared_hub.specs.Logs.{CallerState};

    // the slots of the hub's shards
    ghost slots: { List TableId };

    // the lane
    ghost lane: { LaneName };

    // a caller of the hub that has made no call
    ghost fresh: { CallerState };
}

impl Naming for Brand {
    ghost use Rattle.std.specs.Prelude.{[]};
    ghost use Rattle.service_context.specs.Work.{no_lane};

    ghost slots = { [] };

    ghost lane = { no_lane };

    ghost fresh = { [] };
}
