//! Who is present.

use std::alloc::Global;
use std::process::Abort;
use tail_settings::load;
use tenant_registry::Roster;

/// Two tenants, of whom one's name begins with the other's.
const TWO: &str = "tenant = [
    { name = 'ab', tail_sampling = { policy = [{ type = 'always_sample' }] } },
    { name = 'a', tail_sampling = { policy = [{ type = 'always_sample' }] } },
]";

/// Whether these tenants are present, by number and name, and no others.
fn are_present(roster: &Roster, wanted: &[(u32, &str)]) -> bool {
    let tenants = roster.tenants();
    for (present, (number, name)) in tenants.iter().zip(wanted.iter()) {
        if present.number != *number || present.name.as_str() != *name {
            return false;
        }
    }
    tenants.len() == wanted.len()
}

/// These tenants are present, by number and name, and no others.
fn assert_present(rt: &impl Abort, roster: &Roster, wanted: &[(u32, &str)]) {
    assert!(rt; are_present(roster, wanted));
}

/// The tenant of this name has this number. None where there is no such tenant.
fn assert_found(rt: &impl Abort, roster: &Roster, name: &str, wanted: Option<u32>) {
    let number = match roster.find(name.as_bytes()) {
        Some(present) => Some(present.number),
        None => None,
    };
    assert!(rt; number == wanted, "{name}");
}

/// Two tenants as they are present at the start.
fn roster_of_two(rt: &impl Abort, alloc: Global) -> Roster {
    let settings = load(alloc, TWO).expect(rt, "good settings");
    Roster::of(alloc, &settings).expect(rt, "memory")
}

#[test]
fn who_comes_and_leaves_is_found_while_present(rt: HostRuntime) {
    assert_present(&rt, &Roster::new(rt.alloc()), &[]);
    let mut roster = roster_of_two(&rt, rt.alloc());
    assert_present(&rt, &roster, &[(0, "ab"), (1, "a")]);
    let name = String::from_str(rt.alloc(), "b").expect(&rt, "memory");
    roster.reserve().expect(&rt, "memory");
    roster.push(7, name);
    roster.remove(0);
    assert_present(&rt, &roster, &[(1, "a"), (7, "b")]);
    assert_found(&rt, &roster, "a", Some(1));
    assert_found(&rt, &roster, "b", Some(7));
    assert_found(&rt, &roster, "ab", None);
    assert_found(&rt, &roster, "", None);
}
