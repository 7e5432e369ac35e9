//! Keys in the place of texts.

/// The keys of the texts that a span shares with others, each missing where the span has no such text.
#[derive(Clone, Copy, Debug, PartialEq, Eq)]
pub struct TextKeys {
    /// The resource's.
    pub resource: Option<u32>,
    /// That of the URL of the resource's schema.
    pub resource_schema_url: Option<u32>,
    /// The scope's.
    pub scope: Option<u32>,
    /// That of the URL of the scope's schema.
    pub scope_schema_url: Option<u32>,
}
