//! What is known of a scope spans or a resource spans before its last field was read.

ghost use Rattle.otlp_parts.specs.Embedded.{scope_embedding, resource_embedding};
ghost use Rattle.otlp_parts.specs.Found.{IsFound, found_prop};

use crate::found::Found;
use crate::parts::ScopeParts;
use text_slice::TextSlice;

/// A scope spans, as far as it was read.
#[derive(Drop)]
pub struct ScopeReading {
    pub scope: Found,
    pub schema_url: Option<TextSlice>,
    pub spans: Vec<TextSlice>,
    pub invalid: u64,
    ghost found: { IsFound scope_embedding scope } by { found_prop scope_embedding scope },
}

/// A resource spans, as far as it was read.
#[derive(Drop)]
pub struct ResourceReading {
    pub resource: Found,
    pub schema_url: Option<TextSlice>,
    pub scopes: Vec<ScopeParts>,
    pub invalid: u64,
    ghost found: { IsFound resource_embedding resource } by { found_prop resource_embedding resource },
}
