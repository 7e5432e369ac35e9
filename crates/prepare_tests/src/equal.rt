//! When bodies that were prepared are equal.

use crate::sections::{FIRST, THREE, section_of};
use bytes::Bytes;
use otlp_prepare::{
    NotedSpan, Prepared, RecentTexts, SpanOrigin, equal_bodies_are_the_same, prepare, prepare_next,
};
use std::alloc::Global;
use std::mem::size_of;
use std::process::Abort;
use std::sync::ArcSlice;
use std::thread::Threads;
use tail_settings::Section;
use text_slice::TextSlice;

/// One span of a resource without attributes.
const ONE: &str = "0a220a00121e121c0a100000000000000000000000000000000112080000000000000001";

/// The same, whose schemas have empty URLs, with a scope spans without spans and a resource spans without any.
const SAME: &str = "\
0a280a001a0012001220121c0a1000000000000000000000000000000001120800000000000000011a000a00";

/// Others, one by one: no resource, another resource, a scope, a schema, a span id, a trace id, a span more, and one
/// that isn't valid beside it.
const OTHERS: &str = "\
0a20121e121c0a100000000000000000000000000000000112080000000000000001\n\
0a270a050a030a0161121e121c0a100000000000000000000000000000000112080000000000000001\n\
0a240a0012200a00121c0a100000000000000000000000000000000112080000000000000001\n\
0a250a001a0175121e121c0a100000000000000000000000000000000112080000000000000001\n\
0a220a00121e121c0a100000000000000000000000000000000112080000000000000002\n\
0a220a00121e121c0a100000000000000000000000000000000212080000000000000001\n\
0a400a00123c121c0a100000000000000000000000000000000112080000000000000001\
121c0a100000000000000000000000000000000112080000000000000001\n\
0a240a001220121c0a1000000000000000000000000000000001120800000000000000011200";

/// The body that these digits spell, prepared for a tenant.
fn ready<R: Threads + Abort + Sync>(
    rt: &R,
    alloc: Global,
    tenant: u32,
    section: &Section,
    digits: &str,
) -> Prepared {
    let body = hex::decode(alloc, digits).expect(rt, "hexadecimal digits");
    let body = Bytes::from_vec(body).expect(rt, "memory");
    prepare(rt, alloc, tenant, section, body, 1).expect(rt, "a good body")
}

/// Whether a body is equal to `ONE` for the same tenant.
fn is_as_one<R: Threads + Abort + Sync>(
    rt: &R,
    alloc: Global,
    section: &Section,
    digits: &str,
) -> bool {
    let one = ready(rt, alloc, 1, section, ONE);
    let other = ready(rt, alloc, 1, section, digits);
    one == other && other == one
}

/// Each of these is another body than `ONE`.
fn assert_others<R: Threads + Abort + Sync>(rt: &R, alloc: Global, section: &Section) {
    assert_eq!(rt; OTHERS.lines().count(), 8);
    for line in OTHERS.lines() {
        assert!(rt; !is_as_one(rt, alloc, section, line), "{line}");
    }
}

#[test]
fn bodies_are_equal_by_their_value(rt: HostRuntime) {
    let section = section_of(&rt, rt.alloc(), THREE);
    assert!(rt; is_as_one(&rt, rt.alloc(), &section, ONE));
    assert!(rt; is_as_one(&rt, rt.alloc(), &section, SAME));
    assert_others(&rt, rt.alloc(), &section);
}

/// Whether a body is prepared behind others as it is alone.
fn is_as_alone<R: Threads + Abort + Sync>(
    rt: &R,
    alloc: Global,
    recent: &mut RecentTexts,
    tenant: u32,
    section: &Section,
    digits: &str,
) -> bool {
    let body = hex::decode(alloc, digits).expect(rt, "hexadecimal digits");
    let body = TextSlice::from_vec(alloc, body).expect(rt, "memory");
    let next = prepare_next(rt, alloc, recent, tenant, section, body, 1).expect(rt, "a good body");
    next == ready(rt, alloc, tenant, section, digits)
}

/// Each body is prepared as alone, behind others, and again for another tenant.
fn assert_as_alone<R: Threads + Abort + Sync>(rt: &R, alloc: Global, section: &Section) {
    let mut recent = RecentTexts::new();
    for line in OTHERS.lines() {
        assert!(rt;
            is_as_alone(rt, alloc, &mut recent, 1, section, line),
            "{line}"
        );
        assert!(rt;
            is_as_alone(rt, alloc, &mut recent, 2, section, line),
            "{line}"
        );
    }
}

#[test]
fn bodies_are_prepared_one_after_another_as_alone(rt: HostRuntime) {
    let section = section_of(&rt, rt.alloc(), THREE);
    assert_as_alone(&rt, rt.alloc(), &section);
}

/// Whether a body is told from the same one for another tenant and for fewer policies, of which it has the first.
fn differs_by_tenant_and_policies<R: Threads + Abort + Sync>(
    rt: &R,
    alloc: Global,
    three: &Section,
    first: &Section,
) -> bool {
    let one = ready(rt, alloc, 1, three, ONE);
    let second = ready(rt, alloc, 2, three, ONE);
    let other = ready(rt, alloc, 1, first, ONE);
    equal_bodies_are_the_same(&one, &other);
    one != second
        && second.tenant() == 2
        && one != other
        && one.has_policies(three.tail_sampling.policies.as_slice())
        && !one.has_policies(first.tail_sampling.policies.as_slice())
        && !other.has_policies(three.tail_sampling.policies.as_slice())
}

#[test]
fn bodies_of_other_tenants_and_policies_differ(rt: HostRuntime) {
    let three = section_of(&rt, rt.alloc(), THREE);
    let first = section_of(&rt, rt.alloc(), FIRST);
    assert!(rt; differs_by_tenant_and_policies(&rt, rt.alloc(), &three, &first));
}

/// A body that was prepared where its section was let go.
fn ready_alone<R: Threads + Abort + Sync>(rt: &R, alloc: Global) -> Prepared {
    let section = section_of(rt, alloc, THREE);
    ready(rt, alloc, 1, &section, ONE)
}

#[test]
fn a_body_outlives_its_section(rt: HostRuntime) {
    let alone = ready_alone(&rt, rt.alloc());
    let section = section_of(&rt, rt.alloc(), THREE);
    let one = ready(&rt, rt.alloc(), 1, &section, ONE);
    assert!(rt; alone == one);
}

/// So many hold the section's policies.
fn assert_held_by(rt: &impl Abort, section: &Section, count: usize) {
    assert_eq!(rt;
        ArcSlice::strong_count(&section.tail_sampling.policies),
        count
    );
}

#[test]
fn policies_are_shared_and_not_copied(rt: HostRuntime) {
    let section = section_of(&rt, rt.alloc(), THREE);
    assert_held_by(&rt, &section, 1);
    let one = ready(&rt, rt.alloc(), 1, &section, ONE);
    let second = ready(&rt, rt.alloc(), 2, &section, ONE);
    assert_held_by(&rt, &section, 3);
    drop(one);
    drop(second);
    assert_held_by(&rt, &section, 1);
}

#[test]
fn a_span_that_is_ready_has_64_bytes_and_an_origin_40(rt: HostRuntime) {
    assert!(rt; size_of::<NotedSpan>() == 64);
    assert!(rt; size_of::<SpanOrigin>() == 40);
}
