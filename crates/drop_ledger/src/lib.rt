//! The ledger of a tenant's spans.
//!
//! Each span that was taken is counted in exactly one of eleven places ([`Place`]), from its arrival to its end:
//! sent, or dropped for a named reason. A [`Ledger`] keeps that these add up to what was taken, whatever is moved,
//! and tells all fourteen counters in one line. No span is lost from it, and none counted twice.
//!
//! It stands on no other crate. Counters and line are its own; the reasons are those for which the OpenTelemetry
//! Collector's `tail_sampling` processor and its exporters drop spans.
#![tactic(auto)]

mod ledger;
mod places;
mod report;

pub use ledger::Ledger;
pub use places::{Place, Places, equal_places};
