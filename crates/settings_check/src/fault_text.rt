//! What is said of a document's fault.

ghost use Rattle.std.specs.Prelude.{◌≡◌, IfOk, IsSomeAnd, string_bytes};
ghost use Rattle.tail_settings.specs.Fault.{fault_view};
ghost use Rattle.settings_check.specs.Table.{place_of};
ghost use Rattle.settings_check.specs.FaultTexts.{key_lines, key_text, double_text, too_much, many_text, fault_text};
ghost use Rattle.settings_check.specs.Place.{place_view};

use crate::place::Place;
use crate::table::{TableKind, find_key};
use crate::unknown::joined;
use std::alloc::{AllocError, Global};
use tail_settings::SettingsFault;

/// What is said of too many policies.
const MANY_POLICIES: &str = "more than 64 policies, where an and counts as those that it holds\n";

/// What is said of too many tenants.
const MANY_TENANTS: &str = "the document: more than 1000 tenants\n";

/// What is said of too many spans.
const MANY_SPANS: &str =
    "the document: the max_spans of all tenants are above 2147483648 together\n";

/// The lines of a key: its table with what is wrong, and what it may be.
fn key_lines(alloc: Global, place: &Place, key: &str, what: &str) -> Result<String, AllocError>
    ensures { IfOk result (λ text. string_bytes text
        ≡ key_lines (place_view place.now) key.now what.now (place_of key.now TableKind.ALL)) }
{
    match find_key(key) {
        Some(found) => {
            let tenant = place.tenant.as_str();
            let title = found.0.title(place.policy.as_str());
            let allowed = found.1.allowed();
            let lines = format!(in alloc;
                "{tenant}{title}: the key {key} {what}\n{key} may be: {allowed}\n"
            )?;
            Ok(lines)
        }
        None => Ok(String::new(alloc)),
    }
}

/// What is said of a fault of this number that is a key's.
fn key_text(
    alloc: Global,
    place: &Place,
    number: u32,
    key: &str,
    what: &str,
) -> Result<String, AllocError>
    ensures { IfOk result (λ text. string_bytes text ≡ key_text (place_view place.now) number
        key.now what.now) }
{
    let lines = key_lines(alloc, place, key, what)?;
    let text = format!(in alloc; "settings fault {number} {key}\n{lines}")?;
    Ok(text)
}

/// What is said of a name that two tenants have.
fn double_text(alloc: Global, name: &str) -> Result<String, AllocError>
    ensures { IfOk result (λ text. string_bytes text ≡ double_text name.now) }
{
    let text = format!(in alloc;
        "settings fault 14 {name}\na second tenant has the name {name}\n"
    )?;
    Ok(text)
}

/// What there is too much of: tenants, or else policies of one, behind the words of that one, or else spans.
fn too_much(alloc: Global, place: &Place) -> Result<String, AllocError>
    ensures { IfOk result (λ text. string_bytes text ≡ too_much (place_view place.now)) }
{
    if place.count > 1000 {
        return String::from_str(alloc, MANY_TENANTS);
    }
    if place.tenant.is_empty() {
        return String::from_str(alloc, MANY_SPANS);
    }
    joined(alloc, place.tenant.as_str(), MANY_POLICIES)
}

/// What is said of too much of something.
fn many_text(alloc: Global, place: &Place) -> Result<String, AllocError>
    ensures { IfOk result (λ text. string_bytes text ≡ many_text (place_view place.now)) }
{
    let what = too_much(alloc, place)?;
    let text = format!(in alloc; "settings fault 15\n{what}")?;
    Ok(text)
}

/// What is said of a fault, with the words of where it is, and the reader's own words on a text that is no TOML
/// document. Of refused memory there is nothing to say but that.
pub fn fault_text(
    alloc: Global,
    place: &Place,
    fault: &SettingsFault,
    words: &str,
) -> Result<String, AllocError>
    ensures { IfOk result (λ text. IsSomeAnd (fault_view fault.now)
        (λ seen. string_bytes text ≡ fault_text (place_view place.now) seen words.now)) }
{
    match fault {
        SettingsFault::NotToml => {
            format!(in alloc; "settings fault 10\nthe text is no TOML document\n{words}")
        }
        SettingsFault::MissingKey(key) => key_text(alloc, place, 11, key, "is missing"),
        SettingsFault::WrongKind(key) => {
            key_text(
                alloc,
                place,
                12,
                key,
                "is of another kind, or a member of it is",
            )
        }
        SettingsFault::OutOfRange(key) => {
            key_text(alloc, place, 13, key, "has a value that it may not have")
        }
        SettingsFault::DoubleTenant(name) => double_text(alloc, name.as_str()),
        SettingsFault::TooMany => many_text(alloc, place),
        SettingsFault::OutOfMemory => Err(AllocError),
    }
}
