//! A list of which two holders have a half each.

ghost use Rattle.std.specs.Prelude.{◌≡◌, ◌∷◌, [], IfOk};
ghost use Rattle.agreed_list.specs.Agreed.{half_of};

use agreed_list::{AgreedList, Half, More};
use std::alloc::{AllocError, Global};

/// Adds a number.
struct Adds;

impl More<u32, u32> for Adds {
    ghost use Rattle.std.specs.Prelude.{[], ◌∷◌};

    ghost more = { λ number. number ∷ [] };
}

/// A list to which 7 and then 5 are added, and its halves.
fn seven_and_five(alloc: Global) -> Result<(AgreedList<u32>, Half<u32>, Half<u32>), AllocError>
    ensures one { IfOk result (λ r. r.1 ≡ half_of r.0 (7 ∷ 5 ∷ [])) }
    ensures other { IfOk result (λ r. r.2 ≡ half_of r.0 (7 ∷ 5 ∷ [])) }
{
    let (list, mut one, mut other) = AgreedList::open(alloc)?;
    list.meet::<u32, Adds>(&mut one, &mut other, &7);
    list.meet::<u32, Adds>(&mut one, &mut other, &5);
    Ok((list, one, other))
}

/// A list is opened, and its halves meet twice.
#[test]
fn both_halves_know_what_was_added(rt: HostRuntime) {
    let (list, mut one, mut other) = seven_and_five(rt.alloc()).expect(&rt, "memory");
    list.meet::<u32, Adds>(&mut one, &mut other, &3);
}
