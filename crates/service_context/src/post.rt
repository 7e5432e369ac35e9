//! One body, posted to its tenant's shard.

ghost use Rattle.std.specs.Prelude.{◌≡◌, ◌<◌, ◌≤◌, length};
ghost use Rattle.http_edge.specs.Seen.{response_of};
ghost use Rattle.machine_hub.specs.Hub.{slots_of};
ghost use Rattle.tail_settings.specs.Section.{section_view};
ghost use Rattle.service_context.specs.Post.{IsPosted, Tells};

use http_edge::{Allow, MediaType, Reply};
use otlp_front::RouteRefusal;
use otlp_prepare::{RecentTexts, Refusal, prepare_next};
use service_runtime::Gates;
use shared_hub::{Caller, HubFault, SharedHub};
use std::alloc::Global;
use std::sync::Wait;
use std::thread::Threads;
use tail_settings::Section;
use tenant_registry::replies::{bad_protobuf, refused, without_memory};
use tenant_shard::{Outcome, Step};
use text_slice::TextSlice;

/// Posts a body that came at the moment `now`, in milliseconds, to the shard of the tenant with this number and
/// section: a body without a value is no step, and any other is one. Its notes are made before, in at most `parts`
/// threads, this one among them, which `threads` starts; then one of the tenant's gates is passed, for the step alone.
/// No digest is made of texts that are remembered of a body before.
/// A 503 without a body says that memory was refused; whether the step was made then is for the caller to know.
pub fn post_body<T: Threads + Sync, R: Wait>(
    threads: &T,
    rt: &R,
    alloc: Global,
    hub: &SharedHub,
    me: &mut Caller,
    recent: &mut RecentTexts,
    now: u64,
    tenant: u32,
    section: &Section,
    body: TextSlice,
    parts: u32,
    gates: &Gates,
) -> Reply
    requires parts { (0 < parts) × (parts ≤ 16) }
    requires same_hub { slots_of me.old ≡ hub.now }
    ensures same_hub { slots_of me.new ≡ hub.now }
    ensures posted { IsPosted me.old me.new (length hub.now) now tenant (section_view section.now)
        body (response_of result) }
{
    match prepare_next(threads, alloc, recent, tenant, section, body, parts) {
        Ok(prepared) => {
            let shard = tenant as usize % hub.shards();
            let _gate = gates.pass(rt, tenant);
            match hub.step(rt, alloc, me, shard, Step::Post { now, prepared }) {
                Ok((outcome, _receipt)) => http_reply(alloc, outcome),
                Err(HubFault::OutOfMemory) => without_memory(alloc),
                Err(HubFault::Behind { .. } | HubFault::OtherEntry { .. }) => unreachable!(),
            }
        }
        Err(Refusal::Bad(_)) => bad_protobuf(alloc),
        Err(Refusal::OutOfMemory) => without_memory(alloc),
    }
}

/// What a client is told of its body's outcome.
fn http_reply(alloc: Global, outcome: Outcome) -> Reply
    ensures { Tells outcome (response_of result) }
{
    match outcome {
        Outcome::Reply(_, reply) => Reply {
            status: reply.status,
            media: MediaType::Protobuf,
            allow: Allow::Post,
            body: reply.body.into_vec(),
        },
        _ => refused(alloc, RouteRefusal::UnknownTenant),
    }
}
