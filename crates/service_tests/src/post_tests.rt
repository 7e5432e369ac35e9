//! Bodies that are posted to a hub of two tenants.

ghost use Rattle.std.specs.Prelude.{◌≡◌};
ghost use Rattle.machine_hub.specs.Hub.{slots_of};

use decision_cache::HashKeys;
use http_edge::Reply;
use otlp_prepare::RecentTexts;
use service_runtime::Gates;
use shared_hub::{Caller, HubFault, SharedHub};
use std::alloc::{AllocError, Global};
use std::process::Abort;
use std::sync::Wait;
use std::test::Fail;
use std::thread::Threads;
use tail_settings::{Settings, load};
use tenant_shard::{Outcome, Step};
use text_slice::TextSlice;
use trace_service::post_body;

/// The tests' own trace ids are no one's choice.
const KEYS: HashKeys = HashKeys {
    first: 0x0123_4567_89ab_cdef,
    second: 7,
};

/// Two tenants with different policies, in two shards. Each trace of the second is sampled a second after it opened,
/// and is a batch at once.
const SETTINGS: &str = "
[global]
shards = 2

[[tenant]]
name = \"a\"
tail_sampling = { policy = [{ type = \"latency\", threshold_ms = 5 }] }

[[tenant]]
name = \"b\"
tail_sampling = { decision_wait_ms = 1000, policy = [{ type = \"always_sample\" }] }
batch = { timeout_ms = 0 }
sending_queue = { num_consumers = 1 }
";

/// One span: its trace's id is the byte 11 sixteen times, its own 21 eight times, in hexadecimal digits.
const BODY: &[u8] =
    b"\x0a\x20\x12\x1e\x12\x1c\x0a\x10\x11\x11\x11\x11\x11\x11\x11\x11\x11\x11\x11\x11\x11\x11\x11\x11\x12\x08!!!!!!!!";

/// A batch of that span twice.
const BOTH: &[u8] = b"\x0a\x3e\x12\x3c\
\x12\x1c\x0a\x10\x11\x11\x11\x11\x11\x11\x11\x11\x11\x11\x11\x11\x11\x11\x11\x11\x12\x08!!!!!!!!\
\x12\x1c\x0a\x10\x11\x11\x11\x11\x11\x11\x11\x11\x11\x11\x11\x11\x11\x11\x11\x11\x12\x08!!!!!!!!";

/// What is told of a body that is posted to this tenant, and read under that tenant's section.
fn told<R: Threads + Wait + Sync>(
    rt: &R,
    alloc: Global,
    settings: &Settings,
    hub: &SharedHub,
    me: &mut Caller,
    tenant: u32,
    section_of: u32,
    body: &[u8],
) -> Result<Option<Reply>, AllocError>
    requires { slots_of me.old ≡ hub.now }
    ensures { slots_of me.new ≡ hub.now }
{
    let Some(section) = settings.section(section_of) else {
        return Ok(None);
    };
    let body = TextSlice::copy_from_slice(alloc, body)?;
    let gates = Gates::new(alloc)?;
    let mut recent = RecentTexts::new();
    Ok(Some(post_body(
        rt,
        rt,
        alloc,
        hub,
        me,
        &mut recent,
        0,
        tenant,
        section,
        body,
        2,
        &gates,
    )))
}

/// Whether such a body is told this.
fn is_told<R: Threads + Wait + Sync>(
    rt: &R,
    alloc: Global,
    settings: &Settings,
    hub: &SharedHub,
    me: &mut Caller,
    tenant: u32,
    section_of: u32,
    body: &[u8],
    status: u16,
    content: &[u8],
) -> bool
    requires { slots_of me.old ≡ hub.now }
    ensures { slots_of me.new ≡ hub.now }
{
    match told(rt, alloc, settings, hub, me, tenant, section_of, body) {
        Ok(Some(reply)) => reply.status == status && reply.body.as_slice() == content,
        _ => false,
    }
}

/// Whether bodies are told what came of them: one of each tenant, which is taken; one that is cut; one for nobody; one
/// that is ready for another tenant's policies.
fn are_told<R: Threads + Wait + Sync>(
    rt: &R,
    alloc: Global,
    settings: &Settings,
    hub: &SharedHub,
    me: &mut Caller,
) -> bool
    requires { slots_of me.old ≡ hub.now }
{
    let cut = &BODY[..33];
    let bad = b"\x12\x0cbad protobuf".as_slice();
    let unknown = b"\x12\x0eunknown tenant".as_slice();
    let told = [
        is_told(rt, alloc, settings, hub, me, 0, 0, BODY, 200, b""),
        is_told(rt, alloc, settings, hub, me, 1, 1, BODY, 200, b""),
        is_told(rt, alloc, settings, hub, me, 0, 0, cut, 400, bad),
        is_told(rt, alloc, settings, hub, me, 7, 0, BODY, 403, unknown),
        is_told(rt, alloc, settings, hub, me, 1, 0, BODY, 403, unknown),
    ];
    told == [true; 5]
}

/// The same, of a hub that is opened for them.
fn are_told_by_a_hub<R>(rt: &R, alloc: Global, settings: &Settings) -> bool
where
    R: Threads + Wait + Sync + Abort,
{
    let opened = SharedHub::open(rt, alloc, settings, 1, false, KEYS);
    let (hub, _keeper, mut callers) = opened.expect(rt, "memory");
    let mut me = callers.pop().expect(rt, "a caller");
    are_told(rt, alloc, settings, &hub, &mut me)
}

#[test]
fn each_is_told_what_came_of_its_body(rt: HostRuntime) {
    let settings = load(rt.alloc(), SETTINGS).expect(&rt, "good settings");
    assert!(rt; are_told_by_a_hub(&rt, rt.alloc(), &settings));
}

/// How many of two posts of the span to the second tenant are told 200. The others are told of memory: else None.
fn count_taken<R: Threads + Wait + Sync>(
    rt: &R,
    alloc: Global,
    settings: &Settings,
    hub: &SharedHub,
    me: &mut Caller,
) -> Result<Option<u32>, AllocError>
    requires { slots_of me.old ≡ hub.now }
    ensures { slots_of me.new ≡ hub.now }
{
    let first = status_of(told(rt, alloc, settings, hub, me, 1, 1, BODY)?);
    let second = status_of(told(rt, alloc, settings, hub, me, 1, 1, BODY)?);
    Ok(match (first, second) {
        (200, 200) => Some(2),
        (200, 503) | (503, 200) => Some(1),
        _ => None,
    })
}

/// The status of a reply, of a 503 only where it has no body.
fn status_of(reply: Option<Reply>) -> u16 {
    match reply {
        Some(reply) if reply.body.is_empty() => reply.status,
        _ => 0,
    }
}

/// Whether a turn gives a job with so many spans.
fn is_due<R: Wait>(
    rt: &R,
    alloc: Global,
    hub: &SharedHub,
    me: &mut Caller,
    count: Option<u32>,
) -> Result<bool, HubFault>
    requires { slots_of me.old ≡ hub.now }
{
    let shard = 1 % hub.shards();
    let (outcome, _receipt) = hub.step(rt, alloc, me, shard, Step::Turn { now: 1000 })?;
    let Outcome::Job(1, _, payload) = outcome else {
        return Ok(false);
    };
    Ok(match count {
        Some(2) => payload.as_slice() == BOTH,
        Some(1) => payload.as_slice() == BODY,
        _ => false,
    })
}

/// Whether of two posts what is answered 200 leaves, and nothing else.
fn leave<R>(rt: &R, alloc: Global, settings: &Settings) -> Result<bool, Fail>
where
    R: Threads + Wait + Sync,
{
    let (hub, _keeper, mut callers) = SharedHub::open(rt, alloc, settings, 1, false, KEYS)?;
    let Some(mut me) = callers.pop() else {
        return Ok(false);
    };
    let count = count_taken(rt, alloc, settings, &hub, &mut me)?;
    Ok(is_due(rt, alloc, &hub, &mut me, count)?)
}

/// Where an allocation is refused a post may be answered 503, and the next one is taken. tests/refused.py refuses each
/// in turn.
#[test]
fn what_is_taken_leaves_with_or_without_memory(rt: HostRuntime) -> Result<(), Fail> {
    let settings = load(rt.alloc(), SETTINGS)?;
    assert!(rt; leave(&rt, rt.alloc(), &settings)?);
    Ok(())
}
