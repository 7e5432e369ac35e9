//! Tests of `admin_pages`: lines of reports read back, metrics and JSON byte for byte, routes and tokens. Texts were
//! worked out by hand from Prometheus' text format 0.0.4, RFC 8259 and RFC 9110.
#![tactic(auto)]

#[cfg(test)]
mod figures;
#[cfg(test)]
mod pages;
#[cfg(test)]
mod reports;
#[cfg(test)]
mod routes;
#[cfg(test)]
mod service;
#[cfg(test)]
mod settings;
#[cfg(test)]
mod statuses;
