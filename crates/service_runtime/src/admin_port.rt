//! A service's admin port.

ghost use Rattle.std.specs.Prelude.{◌≡◌, IfSome, is_some, option_map};
ghost use Rattle.service_runtime.specs.Visit.{HasAdminLimits};

use crate::desk::AdminDesk;
use crate::entrance::Entrance;
use crate::visit::Patience;
use std::fs::File;
use std::net::TcpListener;
use std::sync::Mutex;
use std::time::Duration;

/// So many threads serve operators at the admin port, so that one that waits, for a client or for a tenant that
/// goes, holds up nobody else.
pub const ADMINS: u32 = 8;

/// So many seconds a connection may rest: a page that asks every two seconds doesn't keep a thread between.
const LONGEST_REST: u64 = 1;

/// So many seconds a request may take.
const LONGEST_REQUEST: u64 = 5;

/// So many bytes a request may have. Of who isn't let in none is kept; whoever is, which without a token is whoever
/// reaches the address, can have all threads hold as many, and read documents of which each byte takes up to 1,200,
/// where unknown keys are nested: 0.3 GB a thread. A document of 64 policies with 64 values of 50 bytes each has
/// 227,000.
const LARGEST_REQUEST: u64 = 262_144;

/// A service's admin port: where it listens, and who is let in there.
#[derive(Clone, Copy)]
pub struct AdminPort<'a> {
    pub listener: &'a TcpListener,
    /// The service's input is read there.
    pub desk: &'a AdminDesk,
    /// Whoever asks has to have it. Without it whoever reaches the address may ask.
    pub token: Option<&'a [u8]>,
    /// Linux's `/proc/self/status`, where there is one.
    pub status: Option<&'a Mutex<File>>,
    /// What runs, as metrics tell it.
    pub version: &'static str,
}

/// A service's admin port, and who comes in there, as its threads share it.
#[derive(Drop)]
pub struct AdminEntrance<'h> {
    pub port: AdminPort<'h>,
    pub entrance: Entrance<'h>,
}

impl<'h> AdminEntrance<'h> {
    /// At this port.
    pub(crate) fn at(port: AdminPort<'h>) -> AdminEntrance<'h>
        ensures port { result.port ≡ port.entry }
        ensures limits { HasAdminLimits result.entrance.patience }
    {
        let patience = Patience {
            rest: Some(Duration::from_secs(LONGEST_REST)),
            request: Some(Duration::from_secs(LONGEST_REQUEST)),
            bytes: Some(LARGEST_REQUEST),
        };
        AdminEntrance {
            port,
            entrance: Entrance::new(port.listener, patience),
        }
    }
}

/// The entrance at this admin port, if there is one.
pub fn admin_entrance_of<'h>(port: Option<AdminPort<'h>>) -> Option<AdminEntrance<'h>>
    ensures there { is_some result ≡ is_some port.entry }
    ensures port { option_map (λ admin. admin.port) result ≡ port.entry }
    // Who comes in there has these limits.
    ensures limits { IfSome result (λ admin. HasAdminLimits admin.entrance.patience) }
{
    match port {
        Some(port) => Some(AdminEntrance::at(port)),
        None => None,
    }
}
