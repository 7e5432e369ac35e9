//! What an operator asks for.

ghost use Rattle.std.specs.Prelude.{◌≡◌};
ghost use Rattle.admin_pages.specs.Route.{reads, read_at, of_tenants, of_tenant, of_named, behind_tenants, of_drain, route_of, route_view};

/// What is behind it is a tenant's name.
const TENANTS: &[u8] = b"/tenants/";

/// What an operator asks for.
#[derive(Clone, Copy, Debug, PartialEq, Eq)]
pub enum AdminRoute<'p> {
    /// `GET /`: the page to look at.
    Page,
    /// `GET /metrics`: all figures, for a scraper.
    Metrics,
    /// `GET /healthz`: whether the service runs.
    Health,
    /// `GET /readyz`: whether it is to get spans, for which no drain may have been asked.
    Readiness,
    /// `POST /drain`: that it ends in order.
    Drain,
    /// `GET /tenants`: all tenants' figures.
    Tenants,
    /// `POST /tenants`: that a tenant comes, whose document is the body.
    Add,
    /// `GET /tenants/NAME`: a tenant's settings and figures. The name stands as in the path, and may be nobody's.
    Tenant(&'p [u8]),
    /// `DELETE /tenants/NAME`: that a tenant goes.
    Retire(&'p [u8]),
    /// There is nothing at the path.
    NoSuchPath,
    /// There is, but not for this method: for these, as the field `Allow` names them.
    OtherMethod(&'static [u8]),
}

/// What is asked for by a method at a path, which has neither a query nor a host.
#[tactic(auto, unfolding(crate::specs::Route::route_of))]
pub fn admin_route<'p>(method: &str, path: &'p [u8]) -> AdminRoute<'p>
    ensures { route_view result ≡ route_of method.now path.entry.now }
{
    if path == b"/".as_slice() {
        return read_at(method, AdminRoute::Page);
    }
    if path == b"/metrics".as_slice() {
        return read_at(method, AdminRoute::Metrics);
    }
    if path == b"/healthz".as_slice() {
        return read_at(method, AdminRoute::Health);
    }
    if path == b"/readyz".as_slice() {
        return read_at(method, AdminRoute::Readiness);
    }
    if path == b"/tenants".as_slice() {
        return of_tenants(method);
    }
    if path == b"/drain".as_slice() {
        return of_drain(method);
    }
    behind_tenants(method, path)
}

/// What is asked for at the path of a tenant.
fn behind_tenants<'p>(method: &str, path: &'p [u8]) -> AdminRoute<'p>
    ensures { route_view result ≡ behind_tenants method.now path.entry.now }
{
    match path.strip_prefix(TENANTS) {
        Some(name) => of_named(method, name),
        None => AdminRoute::NoSuchPath,
    }
}

/// What is asked of what a name of one or more bytes says.
fn of_named<'p>(method: &str, name: &'p [u8]) -> AdminRoute<'p>
    ensures { route_view result ≡ of_named method.now name.entry.now }
{
    if name.is_empty() {
        AdminRoute::NoSuchPath
    } else {
        of_tenant(method, name)
    }
}

/// What is asked of the whole service.
fn of_drain<'p>(method: &str) -> AdminRoute<'p>
    ensures { route_view result ≡ of_drain method.now }
{
    if method == "POST" {
        AdminRoute::Drain
    } else {
        AdminRoute::OtherMethod(b"POST")
    }
}

/// What is asked for at a path that takes nothing else.
fn read_at<'p>(method: &str, asked: AdminRoute<'p>) -> AdminRoute<'p>
    ensures { route_view result ≡ read_at method.now (route_view asked.entry) }
{
    if reads(method) {
        asked
    } else {
        AdminRoute::OtherMethod(b"GET, HEAD")
    }
}

/// What is asked of all tenants.
fn of_tenants<'p>(method: &str) -> AdminRoute<'p>
    ensures { route_view result ≡ of_tenants method.now }
{
    if reads(method) {
        AdminRoute::Tenants
    } else if method == "POST" {
        AdminRoute::Add
    } else {
        AdminRoute::OtherMethod(b"GET, HEAD, POST")
    }
}

/// What is asked of the tenant of a name.
fn of_tenant<'p>(method: &str, name: &'p [u8]) -> AdminRoute<'p>
    ensures { route_view result ≡ of_tenant method.now name.entry.now }
{
    if reads(method) {
        AdminRoute::Tenant(name)
    } else if method == "DELETE" {
        AdminRoute::Retire(name)
    } else {
        AdminRoute::OtherMethod(b"GET, HEAD, DELETE")
    }
}

/// Whether a method asks for a page, or for what its head would be.
fn reads(method: &str) -> bool
    ensures { result ≡ reads method.now }
{
    method == "GET" || method == "HEAD"
}
