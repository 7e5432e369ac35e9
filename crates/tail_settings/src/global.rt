//! The table `global`.

ghost use Rattle.std.specs.Prelude.{IsTrue, string_bytes};
ghost use Rattle.tail_settings.specs.Keys.{IsFrom};
ghost use Rattle.tail_settings.specs.Texts.{is_address, is_header};

use crate::fault::SettingsFault;
use crate::{keys, texts};
use std::alloc::Global;
use toml::Table;

/// What holds for all tenants.
#[derive(Debug, Drop)]
pub struct GlobalSettings {
    /// How many shards the tenants are spread over, 1 to 64.
    pub shards: u32,
    /// How many threads note the spans of one body, 1 to 16.
    pub parts: u32,
    /// How many threads serve connections, 1 to 64.
    pub receivers: u32,
    /// How many threads send batches, 1 to 64.
    pub senders: u32,
    /// How many jobs wait for a sender at most, 1 to 4,096.
    pub lane_size: u32,
    /// Where requests are received: a host and a port, as `127.0.0.1:4318`. 1 to 255 printable bytes of ASCII without
    /// the space.
    pub listen: String,
    /// The header field that names the tenant of a request. 1 to 64 of a to z, 0 to 9 and `-`.
    pub tenant_header: String,
    pub ghost shards_range: { IsFrom 1 64 shards },
    pub ghost parts_range: { IsFrom 1 16 parts },
    pub ghost receivers_range: { IsFrom 1 64 receivers },
    pub ghost senders_range: { IsFrom 1 64 senders },
    pub ghost lane_size_range: { IsFrom 1 4096 lane_size },
    pub ghost listen_bytes: { IsTrue (is_address (string_bytes listen)) },
    pub ghost tenant_header_bytes: { IsTrue (is_header (string_bytes tenant_header)) },
}

impl GlobalSettings {
    ghost use Rattle.toml.specs.View.{table_view};
    ghost use Rattle.tail_settings.specs.Fault.{Tells};
    ghost use Rattle.tail_settings.specs.Global.{global_view, global_of};

    /// What a document says of all tenants.
    #[tactic(auto, using(crate::proofs::Told::tells_more), unfolding(crate::specs::Global::global_of))]
    pub(crate) fn read(alloc: Global, document: &Table) -> Result<GlobalSettings, SettingsFault>
        ensures { Tells global_view result (global_of (table_view document.now)) }
    {
        let global = keys::table(Some(document), "global")?;
        let shards = keys::number(global, "shards", 1, 64, 1)?;
        let parts = keys::number(global, "parts", 1, 16, 2)?;
        let receivers = keys::number(global, "receivers", 1, 64, 4)?;
        let senders = keys::number(global, "senders", 1, 64, 4)?;
        let lane_size = keys::number(global, "lane_size", 1, 4096, 64)?;
        let listen = texts::address(alloc, global, "listen", "127.0.0.1:4318")?;
        let tenant_header = texts::header(alloc, global, "tenant_header", "x-scope-orgid")?;
        Ok(GlobalSettings {
            shards: shards as u32,
            parts: parts as u32,
            receivers: receivers as u32,
            senders: senders as u32,
            lane_size: lane_size as u32,
            listen,
            tenant_header,
        })
    }
}
