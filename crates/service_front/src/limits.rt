//! A service's limits.

ghost use Rattle.std.specs.Prelude.{◌≡◌, ◌<◌, ◌≤◌, None, unwrap_or, if◌then◌else◌};

use crate::options::ServiceOptions;
use service_runtime::{ADMINS, Patience};
use std::time::Duration;
use tail_settings::GlobalSettings;

/// How many threads there are of a kind, how long they wait for those outside, and how much they hold of what comes.
/// It stays as the settings change.
#[derive(Clone, Copy)]
pub struct ServiceLimits {
    pub senders: u32,
    pub receivers: u32,
    /// Those that serve the admin port.
    pub admins: u32,
    /// For a client, by a receiver.
    pub patience: Patience,
    /// For a back end in a whole attempt, by a sender.
    pub back_end_timeout: Option<Duration>,
    /// For bodies that are on their way.
    pub body_memory: Option<u64>,
    /// For the notes of one body, the one that it came to among them.
    pub parts: u32,
    pub ghost parts_range: { (0 < parts) × (parts ≤ 16) },
}

impl ServiceLimits {
    /// As the options say, and else the settings.
    pub fn of(
        global: &GlobalSettings,
        options: &ServiceOptions,
        has_admin_port: bool,
    ) -> ServiceLimits
        ensures senders { result.senders ≡ unwrap_or options.now.senders global.now.senders }
        ensures receivers { result.receivers ≡ unwrap_or options.now.connections
            global.now.receivers }
        ensures admins { result.admins ≡ (if has_admin_port then ADMINS else 0) }
        ensures few_admins { result.admins ≤ ADMINS }
        ensures parts { result.parts ≡ global.now.parts }
        ensures rest { result.patience.rest ≡ options.now.client_timeout }
        ensures request { result.patience.request ≡ options.now.request_timeout }
        ensures bytes { result.patience.bytes ≡ None }
        ensures back_end { result.back_end_timeout ≡ options.now.back_end_timeout }
        ensures body_memory { result.body_memory ≡ options.now.body_memory }
    {
        ServiceLimits {
            senders: options.senders.unwrap_or(global.senders),
            receivers: options.connections.unwrap_or(global.receivers),
            admins: admins_of(has_admin_port),
            patience: Patience {
                rest: options.client_timeout,
                request: options.request_timeout,
                bytes: None,
            },
            back_end_timeout: options.back_end_timeout,
            body_memory: options.body_memory,
            parts: global.parts,
        }
    }
}

/// So many threads serve the admin port, if there is one.
fn admins_of(has_admin_port: bool) -> u32
    ensures admins { result ≡ (if has_admin_port then ADMINS else 0) }
    ensures few { result ≤ ADMINS }
{
    if has_admin_port { ADMINS } else { 0 }
}
