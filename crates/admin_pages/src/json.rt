//! Figures as JSON.
//!
//! Where memory is refused, a part of what was asked for may have been appended.

ghost use Rattle.std.specs.Prelude.{◌≡◌, ◌++◌, ◌<◌, map, flat_map, OnOk};
ghost use Rattle.admin_pages.specs.Figures.{tenant_of};
ghost use Rattle.admin_pages.specs.Json.{hex_digit, string_byte, string_text, value_text, member_text, members_text, counted_text, figures_text, tenant_text, gone_text, further_text, array_text, tenants_text};

use crate::figures::TenantFigures;
use crate::tenant_metric::TenantMetric;
use std::alloc::{AllocError, Global};

/// Appends an object with all tenants.
#[tactic(auto, using(crate::proofs::Joined::more))]
pub fn put_tenants(
    alloc: Global,
    out: &mut Vec<u8>,
    tenants: &[TenantFigures],
) -> Result<(), AllocError>
    ensures { OnOk result (out.new.items ≡ out.old.items ++ tenants_text
        (map tenant_of tenants.now)) }
{
    out.extend_from_slice(b"{\"tenants\":")?;
    put_array(alloc, out, tenants)?;
    out.extend_from_slice(b"}")
}

/// Appends the object of a tenant.
#[tactic(auto, using(crate::proofs::Joined::more), unfolding(crate::specs::Json::tenant_text))]
pub fn put_tenant(
    alloc: Global,
    out: &mut Vec<u8>,
    tenant: &TenantFigures,
) -> Result<(), AllocError>
    ensures { OnOk result (out.new.items ≡ out.old.items ++ tenant_text (tenant_of tenant.now)) }
{
    put_figures(alloc, out, tenant)?;
    out.extend_from_slice(b"}")
}

/// Appends the object of a tenant without its end.
pub(crate) fn put_figures(
    alloc: Global,
    out: &mut Vec<u8>,
    tenant: &TenantFigures,
) -> Result<(), AllocError>
    ensures { OnOk result (out.new.items ≡ out.old.items ++ figures_text (tenant_of tenant.now)) }
{
    put_counted(alloc, out, tenant)?;
    put_members(alloc, out, tenant, &TenantMetric::others())
}

/// Appends the object of a tenant that has gone, with its last counters. Nothing else of it is told.
#[tactic(auto, using(crate::proofs::Joined::more), unfolding(crate::specs::Json::gone_text))]
pub fn put_gone(alloc: Global, out: &mut Vec<u8>, tenant: &TenantFigures) -> Result<(), AllocError>
    ensures { OnOk result (out.new.items ≡ out.old.items ++ gone_text (tenant_of tenant.now)) }
{
    put_counted(alloc, out, tenant)?;
    out.extend_from_slice(b"}")
}

/// Appends the front of a tenant's object.
fn put_counted(alloc: Global, out: &mut Vec<u8>, tenant: &TenantFigures) -> Result<(), AllocError>
    ensures { OnOk result (out.new.items ≡ out.old.items ++ counted_text (tenant_of tenant.now)) }
{
    out.extend_from_slice(b"{\"tenant\":")?;
    put_string(out, tenant.name.as_str())?;
    put_members(alloc, out, tenant, &TenantMetric::counters())
}

/// Appends these numbers of a tenant as members.
#[tactic(auto, unfolding(crate::specs::Json::members_text))]
fn put_members(
    alloc: Global,
    out: &mut Vec<u8>,
    tenant: &TenantFigures,
    mut metrics: &[TenantMetric],
) -> Result<(), AllocError>
    ensures { OnOk result (out.new.items
        ≡ out.old.items ++ members_text (tenant_of tenant.now) metrics.entry.now) }
{
    while let [first, rest @ ..] = metrics {
        put_member(alloc, out, tenant, *first)?;
        metrics = rest;
    }
    Ok(())
}

/// Appends a number of a tenant as a member.
#[tactic(auto, using(crate::proofs::Joined::more), unfolding(crate::specs::Json::member_text))]
fn put_member(
    alloc: Global,
    out: &mut Vec<u8>,
    tenant: &TenantFigures,
    metric: TenantMetric,
) -> Result<(), AllocError>
    ensures { OnOk result (out.new.items ≡ out.old.items ++ member_text (tenant_of tenant.now)
        metric) }
{
    out.extend_from_slice(b",\"")?;
    out.extend_from_slice(metric.word().as_bytes())?;
    out.extend_from_slice(b"\":")?;
    put_value(alloc, out, metric.value(tenant))
}

/// Appends a value, or that there is none.
fn put_value(alloc: Global, out: &mut Vec<u8>, value: Option<u64>) -> Result<(), AllocError>
    ensures { OnOk result (out.new.items ≡ out.old.items ++ value_text value) }
{
    match value {
        Some(value) => {
            let value = format!(in alloc; "{value}")?;
            out.extend_from_slice(value.as_bytes())
        }
        None => out.extend_from_slice(b"null"),
    }
}

/// Appends an array of tenants.
#[tactic(auto, using(crate::proofs::Joined::more))]
fn put_array(alloc: Global, out: &mut Vec<u8>, tenants: &[TenantFigures]) -> Result<(), AllocError>
    ensures { OnOk result (out.new.items ≡ out.old.items ++ array_text
        (map tenant_of tenants.now)) }
{
    let [first, rest @ ..] = tenants else {
        return out.extend_from_slice(b"[]");
    };
    out.extend_from_slice(b"[")?;
    put_tenant(alloc, out, first)?;
    put_further(alloc, out, rest)?;
    out.extend_from_slice(b"]")
}

/// Appends the further members of an array.
fn put_further(
    alloc: Global,
    out: &mut Vec<u8>,
    mut tenants: &[TenantFigures],
) -> Result<(), AllocError>
    ensures { OnOk result (out.new.items ≡ out.old.items ++ further_text
        (map tenant_of tenants.entry.now)) }
{
    while let [first, rest @ ..] = tenants {
        out.extend_from_slice(b",")?;
        put_tenant(alloc, out, first)?;
        tenants = rest;
    }
    Ok(())
}

/// Appends a string.
#[tactic(auto, using(crate::proofs::Joined::more))]
pub fn put_string(out: &mut Vec<u8>, text: &str) -> Result<(), AllocError>
    ensures { OnOk result (out.new.items ≡ out.old.items ++ string_text text.now) }
{
    out.extend_from_slice(b"\"")?;
    put_characters(out, text.as_bytes())?;
    out.extend_from_slice(b"\"")
}

/// Appends the bytes of a string, escaped where they have to be.
fn put_characters(out: &mut Vec<u8>, mut bytes: &[u8]) -> Result<(), AllocError>
    ensures { OnOk result (out.new.items ≡ out.old.items ++ flat_map string_byte bytes.entry.now) }
{
    while let [first, rest @ ..] = bytes {
        put_byte(out, *first)?;
        bytes = rest;
    }
    Ok(())
}

/// Appends a byte of a string.
fn put_byte(out: &mut Vec<u8>, byte: u8) -> Result<(), AllocError>
    ensures { OnOk result (out.new.items ≡ out.old.items ++ string_byte byte) }
{
    match byte {
        b'"' => out.extend_from_slice(b"\\\""),
        b'\\' => out.extend_from_slice(b"\\\\"),
        0..32 => {
            let digits = [
                b'\\',
                b'u',
                b'0',
                b'0',
                hex_digit(byte / 16),
                hex_digit(byte % 16),
            ];
            out.extend_from_slice(&digits)
        }
        _ => out.extend_from_slice(&[byte]),
    }
}

/// A hexadecimal digit, in lower case.
fn hex_digit(n: u8) -> u8
    requires { n < 16 }
    ensures { result ≡ hex_digit n }
{
    if n < 10 { b'0' + n } else { b'a' - 10 + n }
}
