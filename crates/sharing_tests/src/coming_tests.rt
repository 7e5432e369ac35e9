//! A tenant that comes where memory may be refused.

use crate::calls::{Made, stepped};
use crate::story::SETTINGS;
use decision_cache::HashKeys;
use shared_hub::SharedHub;
use std::alloc::Global;
use std::sync::Wait;
use std::test::Fail;
use tail_settings::{Section, Settings, load};
use tenant_shard::{Outcome, Step};

const KEYS: HashKeys = HashKeys {
    first: 3,
    second: 7,
};

fn outcome_of(made: Option<Made>) -> Option<Outcome> {
    let (outcome, _receipt) = made?;
    Some(outcome)
}

/// What a hub that keeps all tells of a tenant that comes, and of its counters afterwards.
fn comes<R: Wait>(
    rt: &R,
    alloc: Global,
    settings: &Settings,
    section: Section,
) -> Option<(Option<Outcome>, Option<Outcome>)> {
    let Ok((hub, _keeper, mut callers)) = SharedHub::open(rt, alloc, settings, 1, true, KEYS) else {
        return None;
    };
    let Some(mut me) = callers.pop() else {
        return None;
    };
    let coming = Step::Add { tenant: 3, section };
    let told = stepped(rt, alloc, &hub, &mut me, 1, coming);
    let asked = stepped(
        rt,
        alloc,
        &hub,
        &mut me,
        1,
        Step::Report { tenant: 3, now: 0 },
    );
    Some((outcome_of(told), outcome_of(asked)))
}

/// Who was told that it came is a member, and who was refused memory is none.
fn is_member_as_told(told: &Option<Outcome>, asked: &Option<Outcome>) -> bool {
    match told {
        Some(Outcome::Done(_)) => !matches!(asked, Some(Outcome::Refused(_, _))),
        Some(_) => false,
        None => matches!(asked, Some(Outcome::Refused(3, 22))),
    }
}

/// With each allocation refused in turn (tests/refused.py): no tenant is left a member that was refused memory.
#[test]
fn who_is_refused_memory_has_not_come(rt: HostRuntime) -> Result<(), Fail> {
    let settings = load(rt.alloc(), SETTINGS)?;
    let Some(section) = settings.section(1) else {
        return Err("a section".into());
    };
    let section = section.copy()?;
    let Some((told, asked)) = comes(&rt, rt.alloc(), &settings, section) else {
        return Err("out of memory".into());
    };
    assert!(rt; is_member_as_told(&told, &asked));
    Ok(())
}
