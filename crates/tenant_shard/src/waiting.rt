//! What can be asked of a shard without a step.

use tenant_pipeline::Usage;

/// What a tenant and its shard wait for, and how full the tenant is. A moment is in milliseconds, and may have passed
/// already.
#[derive(Clone, Copy, Debug)]
pub struct Waiting {
    /// Whether the tenant is a member that holds no spans.
    pub is_empty: bool,
    /// How full the tenant is, and how full it may be. All 0 where it is no member.
    pub usage: Usage,
    /// When the tenant is ready next; none where nothing of it waits, or it is no member.
    pub tenant_ready: Option<u64>,
    /// When the first of all members is ready next; none where nothing of any member's waits.
    pub shard_ready: Option<u64>,
}
