//! Tests of `export_edge`, `service_runtime` and `trace_service`: jobs that go to their own tenant's address over lines
//! in memory, what turners and senders did, seen from a source, a sink and a back end that take notes, lines of an
//! input, and bodies that are posted to a hub of two tenants.
#![tactic(auto)]

#[cfg(test)]
mod dial_tests;
#[cfg(test)]
mod notes;
#[cfg(test)]
mod post_tests;
#[cfg(test)]
mod runtime_tests;
#[cfg(test)]
mod thread_tests;
#[cfg(test)]
mod work_tests;
