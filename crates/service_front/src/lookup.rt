//! What is looked up in the settings in force, which are locked meanwhile.

ghost use Rattle.std.specs.Prelude.{◌≡◌, ℕ, None, map, option_map, IfNone, IfOk, IfSome};
ghost use Rattle.http_edge.specs.Seen.{seen};
ghost use Rattle.otlp_front.specs.Route.{names_in, post, route_of};
ghost use Rattle.service_front.specs.Pages.{IsKnown, IsNobody};
ghost use Rattle.tail_settings.specs.Section.{section_view};
ghost use Rattle.tail_settings.specs.Settings.{SettingsData, number_of, section_at};
ghost use Rattle.tenant_registry.specs.InForce.{CameOf, IsWhere, longest_wait};
ghost use Rattle.tenant_registry.specs.Roster.{entry_of};

use http_edge::HttpMessage;
use otlp_front::RouteRefusal;
use std::alloc::{AllocError, Global};
use std::str;
use std::sync::{Mutex, Wait};
use tail_settings::Section;
use tenant_registry::{Destination, InForce, Present, SettingsNaming};

/// The tenants that are present.
pub fn tenants_in<J: SettingsNaming, R: Wait>(
    rt: &R,
    alloc: Global,
    settings: &Mutex<InForce<J>>,
) -> Result<Vec<Present>, AllocError>
    ensures { IfOk result (λ tenants. (now : SettingsData) × CameOf J.first now
        × (map entry_of tenants.items ≡ (names_in now).tenants)) }
{
    settings.lock(rt).tenants(alloc)
}

/// The number of the tenant of this name.
fn number_of<J: SettingsNaming, R: Wait>(
    rt: &R,
    settings: &Mutex<InForce<J>>,
    name: &str,
) -> Option<u32>
    ensures { (now : SettingsData) × CameOf J.first now × (result ≡ number_of now name.now) }
{
    settings.lock(rt).number(name)
}

/// The section of the tenant of this number.
pub fn section_of<J: SettingsNaming, R: Wait>(
    rt: &R,
    settings: &Mutex<InForce<J>>,
    tenant: u32,
) -> Result<Option<Section>, AllocError>
    ensures { IfOk result (λ section. (now : SettingsData) × CameOf J.first now
        × (option_map section_view section ≡ section_at now tenant)) }
{
    settings.lock(rt).section(tenant)
}

/// For how long, in milliseconds, spans of the tenant of this number may wait until a batch has them.
pub fn longest_wait_of<J: SettingsNaming, R: Wait>(
    rt: &R,
    settings: &Mutex<InForce<J>>,
    tenant: u32,
) -> u64
    ensures { (now : SettingsData) × CameOf J.first now
        × (result ≡ longest_wait (section_at now tenant)) }
{
    settings.lock(rt).longest_wait(tenant)
}

/// Why the message with this head goes to no tenant. None where it goes to one.
pub fn refusal_of<J: SettingsNaming, R: Wait>(
    rt: &R,
    settings: &Mutex<InForce<J>>,
    head: &HttpMessage,
) -> Option<RouteRefusal>
    ensures refused { IfSome result (λ refusal. (now : SettingsData) × CameOf J.first now
        × IsWhere (route_of (names_in now) (seen head.now)) now
        (Destination.Nowhere refusal)) }
    ensures none { IfNone result ((now : SettingsData) × CameOf J.first now
        × ((tenant : ℕ) × (route_of (names_in now) (seen head.now) ≡ post tenant))) }
{
    settings.lock(rt).refusal(head)
}

/// Where a message goes.
pub fn destination_of<J: SettingsNaming, R: Wait>(
    rt: &R,
    settings: &Mutex<InForce<J>>,
    message: &HttpMessage,
) -> Result<Destination, AllocError>
    ensures { IfOk result (λ d. (now : SettingsData) × CameOf J.first now
        × IsWhere (route_of (names_in now) (seen message.now)) now d) }
{
    settings.lock(rt).destination(message)
}

/// The number of the tenant of this name by the settings in force, and its name as a text.
pub fn find<'n, J: SettingsNaming, R: Wait>(
    rt: &R,
    settings: &Mutex<InForce<J>>,
    name: &'n [u8],
) -> Option<(&'n str, u32)>
    ensures name { IfSome result (λ found. found.0.now ≡ name.entry.now) }
    ensures known { IfSome result (λ found. IsKnown J.first name.entry.now found.1) }
    ensures nobody { result ≡ None → IsNobody J.first name.entry.now }
{
    match str::from_utf8(name) {
        Ok(name) => {
            let number = number_of(rt, settings, name)?;
            Some((name, number))
        }
        Err(_) => None,
    }
}
