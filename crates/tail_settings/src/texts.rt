//! What the texts of settings may hold.

ghost use Rattle.std.specs.Prelude.{◌≡◌, IfOk, IsTrue, string_bytes};
ghost use Rattle.std.specs.List.{list_all};
ghost use Rattle.tail_settings.specs.Fault.{Tells};
ghost use Rattle.tail_settings.specs.Keys.{keys_of};
ghost use Rattle.tail_settings.specs.Texts.{is_name_byte, is_name, is_address_byte, is_address, is_header_byte, is_header, is_attribute_key, address_at, header_at, attribute_key_at};

use crate::fault::SettingsFault;
use crate::keys;
use std::alloc::Global;
use toml::Table;

/// Whether a tenant's name may hold this byte.
fn is_name_byte(byte: u8) -> bool
    ensures { result ≡ is_name_byte byte }
{
    matches!(byte, b'A'..=b'Z' | b'a'..=b'z' | b'0'..=b'9' | b'_' | b'-' | b'.')
}

/// Whether a tenant's name may hold all these bytes.
fn are_name_bytes(bytes: &[u8]) -> bool
    ensures { result ≡ list_all is_name_byte bytes.now }
{
    bytes.iter().all(|byte| is_name_byte(*byte))
}

/// Whether a tenant may have this name.
pub fn is_name(name: &str) -> bool
    ensures { result ≡ is_name name.now }
{
    1 <= name.len() && name.len() <= 64 && are_name_bytes(name.as_bytes())
}

/// Whether a host and a port may hold this byte.
fn is_address_byte(byte: u8) -> bool
    ensures { result ≡ is_address_byte byte }
{
    matches!(byte, 33..=126)
}

/// Whether a host and a port may hold all these bytes.
fn are_address_bytes(bytes: &[u8]) -> bool
    ensures { result ≡ list_all is_address_byte bytes.now }
{
    bytes.iter().all(|byte| is_address_byte(*byte))
}

/// Whether a text may be a host and a port.
fn is_address(text: &str) -> bool
    ensures { result ≡ is_address text.now }
{
    1 <= text.len() && text.len() <= 255 && are_address_bytes(text.as_bytes())
}

/// The host and the port at a key, or the default.
#[tactic(auto, using(crate::proofs::Told::tells_more), unfolding(crate::specs::Texts::address_at))]
pub fn address(
    alloc: Global,
    table: Option<&Table>,
    key: &'static str,
    default: &str,
) -> Result<String, SettingsFault>
    ensures meaning { Tells string_bytes result
        (address_at key.now default.now (keys_of table.entry)) }
    ensures address { IfOk result (λ s. IsTrue (is_address (string_bytes s))) }
{
    let text = keys::text_or(table, key, default)?;
    if !is_address(text) {
        return Err(SettingsFault::OutOfRange(key));
    }
    Ok(String::from_str(alloc, text)?)
}

/// Whether the name of a header field may hold this byte.
fn is_header_byte(byte: u8) -> bool
    ensures { result ≡ is_header_byte byte }
{
    matches!(byte, b'a'..=b'z' | b'0'..=b'9' | b'-')
}

/// Whether the name of a header field may hold all these bytes.
fn are_header_bytes(bytes: &[u8]) -> bool
    ensures { result ≡ list_all is_header_byte bytes.now }
{
    bytes.iter().all(|byte| is_header_byte(*byte))
}

/// Whether a text may be the name of a header field.
fn is_header(text: &str) -> bool
    ensures { result ≡ is_header text.now }
{
    1 <= text.len() && text.len() <= 64 && are_header_bytes(text.as_bytes())
}

/// The name of a header field at a key, or the default.
#[tactic(auto, using(crate::proofs::Told::tells_more), unfolding(crate::specs::Texts::header_at))]
pub fn header(
    alloc: Global,
    table: Option<&Table>,
    key: &'static str,
    default: &str,
) -> Result<String, SettingsFault>
    ensures meaning { Tells string_bytes result
        (header_at key.now default.now (keys_of table.entry)) }
    ensures header { IfOk result (λ s. IsTrue (is_header (string_bytes s))) }
{
    let text = keys::text_or(table, key, default)?;
    if !is_header(text) {
        return Err(SettingsFault::OutOfRange(key));
    }
    Ok(String::from_str(alloc, text)?)
}

/// Whether a text may be the key of an attribute.
fn is_attribute_key(text: &str) -> bool
    ensures { result ≡ is_attribute_key text.now }
{
    1 <= text.len() && text.len() <= 256
}

/// The key of an attribute, at a key that has to be there.
#[tactic(auto, using(crate::proofs::Told::tells_more), unfolding(crate::specs::Texts::attribute_key_at))]
pub fn attribute_key(
    alloc: Global,
    table: Option<&Table>,
    key: &'static str,
) -> Result<String, SettingsFault>
    ensures { Tells string_bytes result (attribute_key_at key.now (keys_of table.entry)) }
{
    let text = keys::text(table, key)?;
    if !is_attribute_key(text) {
        return Err(SettingsFault::OutOfRange(key));
    }
    Ok(String::from_str(alloc, text)?)
}
