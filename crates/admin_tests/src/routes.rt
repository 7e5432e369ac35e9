//! What is asked for, and tokens.

use admin_pages::{AdminRoute, admin_route, same_token};
use std::process::Abort;

/// A request with this method and path leads there.
fn leads(rt: &impl Abort, method: &str, path: &str, route: AdminRoute) {
    assert!(rt;
        admin_route(method, path.as_bytes()) == route,
        "{method} {path}"
    );
}

/// This path has these methods, of which this isn't one.
fn has(rt: &impl Abort, method: &str, path: &str, methods: &'static [u8]) {
    leads(rt, method, path, AdminRoute::OtherMethod(methods));
}

#[test]
fn each_path_has_its_methods(rt: HostRuntime) {
    leads(&rt, "GET", "/", AdminRoute::Page);
    leads(&rt, "HEAD", "/metrics", AdminRoute::Metrics);
    leads(&rt, "GET", "/healthz", AdminRoute::Health);
    leads(&rt, "GET", "/readyz", AdminRoute::Readiness);
    leads(&rt, "POST", "/drain", AdminRoute::Drain);
    leads(&rt, "GET", "/tenants", AdminRoute::Tenants);
    leads(&rt, "POST", "/tenants", AdminRoute::Add);
    leads(&rt, "GET", "/tenants/shop", AdminRoute::Tenant(b"shop"));
    leads(&rt, "DELETE", "/tenants/a/b", AdminRoute::Retire(b"a/b"));
    has(&rt, "POST", "/metrics", b"GET, HEAD");
    has(&rt, "GET", "/drain", b"POST");
    has(&rt, "PUT", "/tenants", b"GET, HEAD, POST");
    has(&rt, "POST", "/tenants/shop", b"GET, HEAD, DELETE");
    leads(&rt, "GET", "/tenants/", AdminRoute::NoSuchPath);
    leads(&rt, "GET", "/Metrics", AdminRoute::NoSuchPath);
    leads(&rt, "GET", "/metrics/", AdminRoute::NoSuchPath);
    has(&rt, "get", "/metrics", b"GET, HEAD");
    leads(&rt, "GET", "", AdminRoute::NoSuchPath);
}

#[test]
fn a_token_is_the_same_in_each_byte(rt: HostRuntime) {
    assert!(rt; same_token(b"secret", b"secret") && same_token(b"", b""));
    assert!(rt; !same_token(b"secret", b"Secret") && !same_token(b"secret", b"secreT"));
    assert!(rt; !same_token(b"secret", b"secre") && !same_token(b"secret", b"secrets"));
}
