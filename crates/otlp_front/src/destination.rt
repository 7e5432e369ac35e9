//! Where a message goes.

ghost use Rattle.std.specs.Prelude.{◌≡◌, ◌↔◌, true};

use crate::refusal::RouteRefusal;

/// Where a message goes.
#[derive(Clone, Copy, Debug, PartialEq, Eq)]
pub enum Route {
    /// Its body is posted to the tenant that has this number in the settings.
    Post { tenant: u32 },
    /// It is refused, and nothing else is done.
    Refuse(RouteRefusal),
}

/// Routes are equal where they lead to the same, and refusals where they are for the same reason.
pub fn equal_routes()
    ensures routes { (a b : Route) → (⟦<Route as PartialEq>⟧.eq a b ≡ true) ↔ (a ≡ b) }
    ensures refusals { (a b : RouteRefusal)
        → (⟦<RouteRefusal as PartialEq>⟧.eq a b ≡ true) ↔ (a ≡ b) }
{}
