//! The keys of texts that spans share, kept once for those spans.

ghost use Rattle.std.specs.Prelude.{◌≡◌, IfOk};
ghost use Rattle.span_pool.specs.Stored.{key_where};

use crate::keys::TextKeys;
use std::alloc::{AllocError, Global};
use std::marker::Model;
use std::sync::Arc;

/// A tenant's number and keys of its texts.
#[derive(Debug, Drop)]
struct Packed {
    owner: u32,
    // Which of the keys there are. An `Option<u32>` takes 8 bytes.
    has_resource: bool,
    has_resource_schema_url: bool,
    has_scope: bool,
    has_scope_schema_url: bool,
    // The keys, 0 for each that there isn't.
    resource: u32,
    resource_schema_url: u32,
    scope: u32,
    scope_schema_url: u32,
}

impl Model for Packed {
    ghost use Rattle.span_pool.specs.Stored.{OwnedKeys, key_where};

    ghost Value = { OwnedKeys };

    ghost view = { λ p. record {
      owner = p.owner;
      keys = record {
        resource = key_where p.has_resource p.resource;
        resource_schema_url = key_where p.has_resource_schema_url p.resource_schema_url;
        scope = key_where p.has_scope p.scope;
        scope_schema_url = key_where p.has_scope_schema_url p.scope_schema_url;
      };
    } };
}

/// Whether there is a key, and which, 0 where there is none.
fn parted(key: Option<u32>) -> (bool, u32)
    ensures { key_where result.0 result.1 ≡ key }
{
    match key {
        Some(key) => (true, key),
        None => (false, 0),
    }
}

/// The key, where there is one.
fn joined(is_there: bool, key: u32) -> Option<u32>
    ensures { result ≡ key_where is_there key }
{
    if is_there { Some(key) } else { None }
}

impl Packed {
    fn of(owner: u32, keys: TextKeys) -> Packed
        ensures { result ≡ record { owner = owner; keys = keys } }
    {
        let (has_resource, resource) = parted(keys.resource);
        let (has_resource_schema_url, resource_schema_url) = parted(keys.resource_schema_url);
        let (has_scope, scope) = parted(keys.scope);
        let (has_scope_schema_url, scope_schema_url) = parted(keys.scope_schema_url);
        Packed {
            owner,
            has_resource,
            has_resource_schema_url,
            has_scope,
            has_scope_schema_url,
            resource,
            resource_schema_url,
            scope,
            scope_schema_url,
        }
    }

    fn owner(&self) -> u32
        ensures { result ≡ self.now.owner }
    {
        self.owner
    }

    fn keys(&self) -> TextKeys
        ensures { result ≡ self.now.keys }
    {
        TextKeys {
            resource: joined(self.has_resource, self.resource),
            resource_schema_url: joined(self.has_resource_schema_url, self.resource_schema_url),
            scope: joined(self.has_scope, self.scope),
            scope_schema_url: joined(self.has_scope_schema_url, self.scope_schema_url),
        }
    }
}

/// Keys of a tenant's texts, with the tenant's number, kept once for all spans that name these texts. It has 8 bytes,
/// and a block of 40 that all of them share.
#[derive(Debug, Drop)]
pub struct SharedKeys {
    packed: Arc<Packed>,
}

impl Model for SharedKeys {
    ghost use Rattle.span_pool.specs.Stored.{OwnedKeys};

    ghost Value = { OwnedKeys };

    ghost view = { λ s. s.packed.value };
}

impl SharedKeys {
    /// These keys of the tenant's texts.
    pub fn of(alloc: Global, owner: u32, keys: TextKeys) -> Result<SharedKeys, AllocError>
        ensures { IfOk result (λ source. source ≡ record { owner = owner; keys = keys }) }
    {
        let packed = Arc::new(alloc, Packed::of(owner, keys))?;
        Ok(SharedKeys { packed })
    }

    /// The same keys, for one span more. It takes no memory, and is refused only where those that share them can't be
    /// counted any more.
    pub fn shared(&self) -> Result<SharedKeys, AllocError>
        ensures { IfOk result (λ source. source ≡ self.now) }
    {
        let packed = Arc::try_clone(&self.packed)?;
        Ok(SharedKeys { packed })
    }

    /// The number of the tenant whose texts they name.
    pub fn owner(&self) -> u32
        ensures { result ≡ self.now.owner }
    {
        self.packed.owner()
    }

    /// The keys.
    pub fn keys(&self) -> TextKeys
        ensures { result ≡ self.now.keys }
    {
        self.packed.keys()
    }
}
