//! The front of the collector, behind HTTP: which tenant a message is for.
//!
//! [`route`] looks at a message's target, method and fields and says to which tenant its body is posted, or with which
//! reply it is refused: that of the first rule that fails. The body isn't looked at. It takes no memory, and no
//! tenant's section has a say. [`path`] gives the path that stands in a target by HTTP's grammar.
//!
//! Rules are those of OTLP/HTTP (OTLP 1.x) and RFC 9110, with this project's own choices where they leave one
//! (docs/HTTP.md). It stands on `http_edge` for messages and replies, and on `tail_settings` for the tenants' names.
#![tactic(auto)]

ghost use Rattle.otlp_front.specs.Passes.{PostsPass};
ghost use Rattle.otlp_front.specs.Law.{PathsStandInTargets};

mod destination;
mod fields;
mod refusal;
mod rules;
mod target;

pub use crate::destination::{Route, equal_routes};
pub use crate::refusal::RouteRefusal;
pub use crate::rules::route;
pub use crate::target::path;

/// A message is posted to a tenant exactly where it passes every rule: a law over the definitions.
pub fn posts_pass()
    ensures { PostsPass }
{}

/// The path of a target is the one that stands in it by RFC 9112's grammar, with a query or without, alone or behind
/// `http://` or `https://` and an authority: a law over the definitions.
pub fn paths_stand_in_targets()
    ensures { PathsStandInTargets }
{}
