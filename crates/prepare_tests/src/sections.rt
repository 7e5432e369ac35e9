//! Sections by their policies.

use std::alloc::Global;
use std::process::Abort;
use tail_settings::{Section, Settings, load};

/// An attribute `a` whose value is the string `w`, traces of 5 ms or more, and traces with an error, which have an
/// attribute `a` as well whose value is the string `v`.
pub const THREE: &str = "{ type = \"string_attribute\", key = \"a\", values = [\"w\"] }, \
{ type = \"latency\", threshold_ms = 5 }, { type = \"and\", and_sub_policy = [\
{ type = \"status_code\", status_codes = [\"ERROR\"] }, \
{ type = \"string_attribute\", key = \"a\", values = [\"v\"] }] }";

/// The first of these alone.
pub const FIRST: &str = "{ type = \"string_attribute\", key = \"a\", values = [\"w\"] }";

fn first_section(settings: Settings) -> Option<Section> {
    let (_name, tenant) = settings.tenants.into_iter().next()?;
    Some(tenant.section)
}

/// A section with these policies.
pub fn section_of(rt: &impl Abort, alloc: Global, policies: &str) -> Section {
    let document = format!(in alloc;
        "tenant = [{{ name = \"a\", tail_sampling = {{ policy = [{policies}] }} }}]"
    ).expect(rt, "memory");
    let settings = load(alloc, document.as_str()).expect(rt, "good settings");
    first_section(settings).expect(rt, "a tenant")
}
