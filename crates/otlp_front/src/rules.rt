//! The rules, in their order.

ghost use Rattle.std.specs.Prelude.{◌≡◌, option_and_then};
ghost use Rattle.http_edge.specs.Seen.{seen};
ghost use Rattle.http_edge.specs.Fields.{only};
ghost use Rattle.http_edge.specs.Stages.{single_of};
ghost use Rattle.tail_settings.specs.Settings.{settings_view};
ghost use Rattle.otlp_front.specs.Route.{names_in, is_post, tenant_in, route_to, route_of, number_of};
ghost use Rattle.otlp_front.specs.Seen.{route_by};

use crate::destination::Route;
use crate::fields::{has_protobuf, post_fields};
use crate::refusal::RouteRefusal;
use crate::target::is_for_traces;
use http::Method;
use http_edge::{Headers, HttpMessage, Single};
use std::str;
use tail_settings::Settings;

/// Where a message goes: to the tenant that it names, or nowhere, with the reply of the first rule that it fails. Rules
/// are on path, method, tenant, content type and content encoding, in this order.
#[tactic(auto, unfolding(crate::specs::Route::route_of))]
pub fn route(settings: &Settings, message: &HttpMessage) -> Route
    ensures { route_by result ≡ route_of (names_in (settings_view settings.now))
        (seen message.now) }
{
    if !is_for_traces(&message.target) {
        return Route::Refuse(RouteRefusal::NoSuchPath);
    }
    if !is_post(&message.method) {
        return Route::Refuse(RouteRefusal::MethodNotAllowed);
    }
    by_fields(settings, &message.headers)
}

fn is_post(method: &Method) -> bool
    ensures { result ≡ is_post method.now }
{
    method.as_str() == "POST"
}

/// Where a post goes, by what its fields say.
fn by_fields(settings: &Settings, headers: &Headers) -> Route
    ensures { route_by result ≡ route_to headers.now
        (tenant_in (names_in (settings_view settings.now)) headers.now) }
{
    let fields = post_fields(headers, settings.global.tenant_header.as_bytes());
    let Some(tenant) = named_tenant(settings, fields.tenant) else {
        return Route::Refuse(RouteRefusal::UnknownTenant);
    };
    if !has_protobuf(fields.content_type) {
        return Route::Refuse(RouteRefusal::UnsupportedType);
    }
    if !fields.plain {
        return Route::Refuse(RouteRefusal::UnsupportedEncoding);
    }
    Route::Post { tenant }
}

/// The number of the tenant that this field names.
fn named_tenant(settings: &Settings, field: Single<'_>) -> Option<u32>
    ensures { result ≡ option_and_then
        (number_of (names_in (settings_view settings.now)).tenants) (only (single_of field.entry)) }
{
    number_of(settings, field.only()?)
}

/// The number of the tenant with this name. Names are texts, so that bytes that are none name nobody.
fn number_of(settings: &Settings, name: &[u8]) -> Option<u32>
    ensures { result ≡ number_of (names_in (settings_view settings.now)).tenants name.now }
{
    match str::from_utf8(name) {
        Ok(name) => settings.number(name),
        Err(_) => None,
    }
}
