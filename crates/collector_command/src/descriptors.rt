//! How many descriptors a service needs, and how many the process may have.

ghost use Rattle.std.specs.Prelude.{◌≡◌, option_map, unwrap_or};
ghost use Rattle.collector_command.specs.Descriptors.{open_files, needed, too_low};

use crate::task::ServeOptions;
use service_runtime::{ADMINS, number_behind};
use tail_settings::GlobalSettings;

/// Behind this stands the limit, in a text as that of /proc/self/limits.
const TITLE: &[u8] = b"Max open files";

/// Right behind the limit stands no unit.
const NO_UNIT: &[u8] = b"";

/// Beside the connections of receivers and senders: standard input, output and error, the listener, and one of who
/// reads the input, for a file that a line names or for a connection that wakes a receiver.
const OTHERS: u64 = 5;

/// How many files the process may have open, as a text like that of /proc/self/limits says. None where it says none, or
/// that there is no limit.
fn open_files(limits: &[u8]) -> Option<u64>
    ensures { result ≡ open_files limits.now }
{
    number_behind(limits, TITLE, NO_UNIT)
}

/// So many threads hold a connection each.
#[derive(Clone, Copy, Debug, PartialEq, Eq)]
pub struct ThreadCounts {
    pub receivers: u32,
    pub senders: u32,
    /// Those of the admin port, if there is one.
    pub admins: Option<u32>,
}

impl ThreadCounts {
    /// How many descriptors a service with these threads has open at a time, at most.
    pub fn needed(&self) -> u64
        ensures { result ≡ needed self.now }
    {
        let admins = match self.admins {
            Some(admins) => u64::from(admins) + 2,
            None => 0,
        };
        u64::from(self.receivers) + u64::from(self.senders) + admins + OTHERS
    }
}

/// How many files the process may have open, where a service with these threads needs more.
pub fn too_low(limits: &[u8], threads: ThreadCounts) -> Option<u64>
    ensures { result ≡ too_low limits.now threads }
{
    match open_files(limits) {
        Some(limit) if limit < threads.needed() => Some(limit),
        _ => None,
    }
}

/// The threads that hold a connection each, by settings and options.
pub fn thread_counts(global: &GlobalSettings, options: &ServeOptions<'_>) -> ThreadCounts
    ensures receivers { result.receivers ≡ unwrap_or options.now.connections global.now.receivers }
    ensures senders { result.senders ≡ unwrap_or options.now.senders global.now.senders }
    ensures admins { result.admins ≡ option_map (λ _. ADMINS) options.now.admin }
{
    ThreadCounts {
        receivers: options.connections.unwrap_or(global.receivers),
        senders: options.senders.unwrap_or(global.senders),
        admins: match options.admin {
            Some(_) => Some(ADMINS),
            None => None,
        },
    }
}
