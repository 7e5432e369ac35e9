//! Notes of spans, and what is decided by them.

use crate::lines::{cut, number, words};
use crate::policies::{RESOURCE, checked, loaded, policies_of, span_of};
use span_view::{SpanRef, is_text};
use std::alloc::{AllocError, Global};
use std::process::Abort;
use tail_policy::{
    AllOf, AnyOf, Policy, PolicyByParts, TenantPolicies, TraceNote, keeps, views_of_parts,
};
use tail_settings::{Settings, load};

/// A resource by a name: with an attribute `k`, the string `w` or the number 8, or without.
fn resource_of(name: &str) -> &'static [u8] {
    match name {
        "w" => RESOURCE,
        "8" => b"\x0a\x07\x0a\x01k\x12\x02\x18\x08",
        _ => b"",
    }
}

/// A note as three words spell it: which bits are set, and the first start and the last end.
fn note_of(met: &str, start: &str, end: &str) -> TraceNote {
    TraceNote::new(number(met), number(start), number(end))
}

/// A span by a name: with an attribute `k` of a number, or one of those of lists.
fn noted_span(name: &str) -> &'static [u8] {
    match name {
        "k-0" => b"\x4a\x07\x0a\x01k\x12\x02\x18\x00",
        "k-62" => b"\x4a\x07\x0a\x01k\x12\x02\x18\x3e",
        "k-63" => b"\x4a\x07\x0a\x01k\x12\x02\x18\x3f",
        "k-64" => b"\x4a\x07\x0a\x01k\x12\x02\x18\x40",
        _ => span_of(name),
    }
}

/// 64 policies: of the numbers 0 to 62 of `k` in one `and`, and of 63 by itself.
fn sixty_four(rt: &impl Abort, alloc: Global) -> String {
    let beginning = "[{ type = \"and\", and_sub_policy = [";
    let mut text = String::from_str(alloc, beginning).expect(rt, "memory");
    for number in 0..63 {
        let policy = format!(in alloc;
            "{{ type = \"numeric_attribute\", key = \"k\", min_value = {number}, max_value = {number} }}, "
        ).expect(rt, "memory");
        text.push_str(policy.as_str()).expect(rt, "memory");
    }
    text.push_str(
        "] }, { type = \"numeric_attribute\", key = \"k\", min_value = 63, max_value = 63 }]",
    ).expect(rt, "memory");
    text
}

/// The settings of a tenant with them.
fn sixty_four_loaded(rt: &impl Abort, alloc: Global) -> Settings {
    let text = sixty_four(rt, alloc);
    loaded(rt, alloc, text.as_str())
}

/// The settings of two tenants with policies of these names.
fn both_loaded(rt: &impl Abort, alloc: Global, first: &str, second: &str) -> Settings {
    let (first, second) = (policies_of(first), policies_of(second));
    let text = format!(in alloc;
        "[[tenant]]\nname = \"a\"\ntail_sampling.policy = {first}\n\
[[tenant]]\nname = \"b\"\ntail_sampling.policy = {second}\n"
    )
    .expect(rt, "memory");
    load(alloc, text.as_str()).expect(rt, "good settings")
}

/// Settings by a name: of the policies that it has for one tenant, or for two.
fn settings_of(rt: &impl Abort, alloc: Global, name: &str) -> Settings {
    match name {
        "sixty-four" => sixty_four_loaded(rt, alloc),
        "error+has-v" => both_loaded(rt, alloc, "error", "has-v"),
        "error+has-w" => both_loaded(rt, alloc, "error", "has-w"),
        _ => loaded(rt, alloc, policies_of(name)),
    }
}

/// The policies of a tenant by its number, none where there is no such tenant.
fn policies_in(settings: &Settings, number: u32) -> TenantPolicies<'_> {
    match settings.section(number) {
        Some(section) => TenantPolicies::of(&section.tail_sampling.policies),
        None => TenantPolicies::of(&[]),
    }
}

/// The note of a span with its resource, by each text alone.
fn note_by_parts<P: PolicyByParts>(
    rt: &impl Abort,
    policy: &P,
    span: &[u8],
    resource: &[u8],
) -> Result<P::Note, AllocError> {
    assert!(rt; is_text(b"", resource));
    let shared = policy.resource_note(resource)?;
    let own = policy.note(&checked(rt, span, b""))?;
    Ok(policy.with_resource(&shared, own))
}

/// Whether this is kept of a span, by one view of both texts and by each text alone: `SPAN RESOURCE = MET START END`.
fn is_noted(rt: &impl Abort, settings: &Settings, line: &str) -> bool {
    let [span, resource, _, met, start, end, _] = words(line);
    let (span, resource) = (noted_span(span), resource_of(resource));
    let note = note_of(met, start, end);
    let policies = policies_in(settings, 0);
    policies.note(&checked(rt, span, resource)) == Ok(note)
        && note_by_parts(rt, &policies, span, resource) == Ok(note)
}

/// Whether two notes are joined so, in either order: `MET START END MET START END = MET START END`.
fn are_joined(settings: &Settings, line: &str) -> bool {
    let (two, wanted) = cut(line, " = ");
    let [met, start, end, other_met, other_start, other_end, _] = words(two);
    let first = note_of(met, start, end);
    let second = note_of(other_met, other_start, other_end);
    let [met, start, end, _, _, _, _] = words(wanted);
    let whole = note_of(met, start, end);
    let policies = policies_in(settings, 0);
    policies.join(first, second) == whole && policies.join(second, first) == whole
}

/// The verdict on the trace of two spans, by their joined notes.
fn verdict_on<P: Policy>(policy: &P, spans: &[SpanRef<'_>; 2]) -> Result<bool, AllocError> {
    let one = policy.note(&spans[0])?;
    let other = policy.note(&spans[1])?;
    Ok(policy.verdict(&policy.join(one, other)))
}

/// Two spans by their names, without a resource.
fn two_of(rt: &impl Abort, first: &str, second: &str) -> [SpanRef<'static>; 2] {
    [
        checked(rt, span_of(first), b""),
        checked(rt, span_of(second), b""),
    ]
}

/// Whether a trace is sampled so, by its notes and by its list: `SPAN SPAN = yes`.
fn is_sampled(rt: &impl Abort, settings: &Settings, line: &str) -> bool {
    let [first, second, _, wanted, _, _, _] = words(line);
    let wanted = wanted == "yes";
    let spans = two_of(rt, first, second);
    let by_list = match settings.section(0) {
        Some(section) => keeps(&section.tail_sampling.policies, &spans),
        None => !wanted,
    };
    by_list == wanted && verdict_on(&policies_in(settings, 0), &spans) == Ok(wanted)
}

/// Whether a trace of a note is sampled so: `MET START END = yes`.
fn is_decided(settings: &Settings, line: &str) -> bool {
    let [met, start, end, _, wanted, _, _] = words(line);
    policies_in(settings, 0).verdict(&note_of(met, start, end)) == (wanted == "yes")
}

/// Whether one of the tenants' policies samples the trace of two spans.
fn is_sampled_by_one(settings: &Settings, spans: &[SpanRef<'_>; 2]) -> Result<bool, AllocError> {
    let any = AnyOf {
        first: policies_in(settings, 0),
        second: policies_in(settings, 1),
    };
    verdict_on(&any, spans)
}

/// Whether both do.
fn is_sampled_by_both(settings: &Settings, spans: &[SpanRef<'_>; 2]) -> Result<bool, AllocError> {
    let all = AllOf {
        first: policies_in(settings, 0),
        second: policies_in(settings, 1),
    };
    verdict_on(&all, spans)
}

/// Whether a trace is sampled so where one of two tenants' policies are enough, and where both have to:
/// `SPAN SPAN = yes no`.
fn is_sampled_by_two(rt: &impl Abort, settings: &Settings, line: &str) -> bool {
    let [first, second, _, one, both, _, _] = words(line);
    let spans = two_of(rt, first, second);
    is_sampled_by_one(settings, &spans) == Ok(one == "yes")
        && is_sampled_by_both(settings, &spans) == Ok(both == "yes")
}

/// Whether a span with its resource is sampled, by a note of its two parts, where the first tenant's policies have to,
/// and the second's or the first's.
fn verdict_by_parts(
    rt: &impl Abort,
    settings: &Settings,
    span: &[u8],
    resource: &[u8],
) -> Result<bool, AllocError> {
    let all = AllOf {
        first: policies_in(settings, 0),
        second: AnyOf {
            first: policies_in(settings, 1),
            second: policies_in(settings, 0),
        },
    };
    let note = note_by_parts(rt, &all, span, resource)?;
    Ok(all.verdict(&note))
}

/// Whether it is sampled so: `SPAN RESOURCE = yes`.
fn is_sampled_in_parts(rt: &impl Abort, settings: &Settings, line: &str) -> bool {
    let [span, resource, _, wanted, _, _, _] = words(line);
    verdict_by_parts(rt, settings, span_of(span), resource_of(resource)) == Ok(wanted == "yes")
}

/// Whether a line comes true: policies by their name, and behind it what is asked of them and what they say.
fn comes_true(rt: &impl Abort, alloc: Global, asked: &str, line: &str) -> bool {
    let (policies, line) = cut(line, " ");
    let settings = settings_of(rt, alloc, policies);
    match asked {
        "note" => is_noted(rt, &settings, line),
        "join" => are_joined(&settings, line),
        "trace" => is_sampled(rt, &settings, line),
        "decide" => is_decided(&settings, line),
        "two" => is_sampled_by_two(rt, &settings, line),
        _ => is_sampled_in_parts(rt, &settings, line),
    }
}

/// Asks each line of a table so.
fn ask(rt: &impl Abort, alloc: Global, asked: &str, table: &str) {
    for line in table.lines() {
        assert!(rt; comes_true(rt, alloc, asked, line), "at {line}");
    }
}

/// A span, a resource, and their note under policies of each kind. An error meets both policies of it, and no policy
/// of time or of always needs a bit; both occurrences of a key count, and the resource's.
const NOTES: &str = "\
each late-error - = 36 5 1000000005
each late-error w = 44 5 1000000005
each twice - = 88 0 0
each twice 8 = 88 0 0
each whole 8 = 16 0 18446744073709551615
each backwards w = 8 18446744073709551615 0";

#[test]
fn notes_of_each_kind(rt: HostRuntime) {
    ask(&rt, rt.alloc(), "note", NOTES);
}

/// Policies, a span, a resource, and their note: where no policy asks for an attribute, where one in an `and` alone
/// does, and where a key stands behind its value. A missing status is UNSET, and a number without a name meets no
/// policy.
const ASKED: &str = "\
statuses late-error w = 1 5 1000000005
statuses error - = 1 0 0
statuses ok - = 4 0 0
statuses unset 8 = 4 0 0
statuses twice w = 4 0 0
statuses unknown - = 0 0 0
statuses negative - = 0 0 0
second late-error w = 0 5 1000000005
second backwards - = 0 18446744073709551615 0
error negative - = 0 0 0
both twice - = 2 0 0
both late-error w = 1 5 1000000005
both unknown - = 0 0 0
has-w ok w = 1 0 0
each value-first - = 72 0 0";

#[test]
fn notes_where_little_is_asked(rt: HostRuntime) {
    ask(&rt, rt.alloc(), "note", ASKED);
}

/// Two notes, and theirs together: all bits, the first start and the last end.
const JOINED: &str = "\
each 36 5 9 88 3 7 = 124 3 9
each 1 0 0 1 18446744073709551615 18446744073709551615 = 1 0 18446744073709551615
each 0 18446744073709551615 0 2 18446744073709551615 0 = 2 18446744073709551615 0
each 1 9 5 2 7 6 = 3 7 6";

#[test]
fn joined_notes_have_all_bits_and_both_ends(rt: HostRuntime) {
    ask(&rt, rt.alloc(), "join", JOINED);
}

/// Policies, two spans, and whether their trace is sampled. What is joined may be met by different spans, and another
/// policy is enough.
const VERDICTS: &str = "\
each backwards backwards = yes
longest whole backwards = yes
longest backwards backwards = no
longest twice late-error = no
error twice late-error = yes
error twice twice = no
both-or-8 twice late-error = yes
both-or-8 late-error late-error = no
both-or-8 twice twice = no";

#[test]
fn verdicts_by_notes(rt: HostRuntime) {
    ask(&rt, rt.alloc(), "trace", VERDICTS);
}

/// Policies, a note, and whether its trace is sampled. The bit of a policy of time says nothing.
const DECIDED: &str = "\
both-or-8 0 5 9 = no
both-or-8 4 5 9 = yes
both-or-8 1 5 9 = no
both-or-8 2 5 9 = no
both-or-8 3 5 9 = yes
each 0 9 5 = yes
second 1 5 1000000004 = no
second 0 5 1000000005 = yes
second 0 1000000005 5 = no";

#[test]
fn notes_are_decided(rt: HostRuntime) {
    ask(&rt, rt.alloc(), "decide", DECIDED);
}

/// A span with a number, and which bits are set.
const BITS: &str = "\
sixty-four k-0 - = 1 0 0
sixty-four k-62 - = 4611686018427387904 0 0
sixty-four k-63 - = 9223372036854775808 0 0
sixty-four k-64 - = 0 0 0";

#[test]
fn sixty_four_policies_have_a_bit_each(rt: HostRuntime) {
    ask(&rt, rt.alloc(), "note", BITS);
}

/// The last policy alone; all of the `and`, none missing, and but one.
const SIXTY_FOUR_DECIDED: &str = "\
sixty-four 9223372036854775808 0 0 = yes
sixty-four 9223372036854775807 0 0 = yes
sixty-four 9223372036854775806 0 0 = no
sixty-four 4611686018427387903 0 0 = no
sixty-four 0 0 0 = no";

#[test]
fn sixty_four_policies_are_decided(rt: HostRuntime) {
    ask(&rt, rt.alloc(), "decide", SIXTY_FOUR_DECIDED);
}

/// Two spans, and whether an error or a text is enough, and whether both are there, be it by different spans.
const TWO: &str = "\
error+has-v late-error twice = yes yes
error+has-v late-error late-error = yes no
error+has-v twice twice = yes no
error+has-v backwards backwards = no no";

#[test]
fn one_policy_of_two_or_both(rt: HostRuntime) {
    ask(&rt, rt.alloc(), "two", TWO);
}

/// A span, a resource, and whether they are sampled.
const PARTS: &str = "\
error+has-w late-error w = yes
error+has-w late-error 8 = yes
error+has-w twice w = no
error+has-w backwards 8 = no";

#[test]
fn what_resources_tell_two_policies(rt: HostRuntime) {
    views_of_parts();
    ask(&rt, rt.alloc(), "parts", PARTS);
}
