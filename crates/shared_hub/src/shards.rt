//! The shards of a hub, before their first steps.

ghost use Rattle.std.specs.Prelude.{◌≡◌, replicate, IfOk, vec_len};
ghost use Rattle.tail_settings.specs.Settings.{settings_view};
ghost use Rattle.machine_hub.specs.Hub.{AreNew, homes_of};
ghost use Rattle.shared_hub.specs.Shards.{AreOpened, kept};

use crate::ShardLog;
use crate::log::OptionalLog;
use decision_cache::HashKeys;
use machine_hub::LoggedMachine;
use shard_machine::ShardMachine;
use std::alloc::{AllocError, Global};
use tail_settings::Settings;
use tenant_shard::members_of;

/// The shards of the settings in the order of their numbers, each with a log that keeps all or nothing.
pub(crate) fn shards_of(
    alloc: Global,
    settings: &Settings,
    keeps: bool,
    keys: HashKeys,
) -> Result<Vec<ShardLog>, AllocError>
    ensures count { IfOk result (λ shards. vec_len shards ≡ settings.now.global.shards) }
    ensures opened { IfOk result (λ shards. AreOpened (settings_view settings.now)
        (homes_of shards.items)) }
    ensures keeps { IfOk result (λ shards.
        kept (homes_of shards.items) ≡ replicate settings.now.global.shards keeps) }
    ensures new { IfOk result (λ shards. AreNew shards.items) }
{
    let mut shards = Vec::new(alloc);
    for number in 0..settings.global.shards {
        let members = members_of(alloc, settings, number)?;
        let shard = ShardMachine::open(alloc, settings, members.as_slice(), keys)?;
        let log = OptionalLog::new(alloc, keeps);
        let machine = LoggedMachine::new(shard, log, number);
        shards.push(machine)?;
    }
    Ok(shards)
}
