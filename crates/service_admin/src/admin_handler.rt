//! A thread that answers operators at the admin port.

ghost use Rattle.std.specs.Prelude.{◌≡◌, length, IfOk, OnErr};
ghost use Rattle.admin_pages.specs.Route.{route_view};
ghost use Rattle.http_edge.specs.Seen.{response_of, seen};
ghost use Rattle.http_edge.specs.declared.message.RefusalForm.TheVariants as forms;
ghost use Rattle.service_admin.specs.Shown.{IsShown, OnlyLooksIf, ShowsMetrics, ShowsReply, is_for_figures, may_look};
ghost use Rattle.service_context.specs.Looks.{OnlyLooks};
ghost use Rattle.service_front.specs.Pages.{IsOfService, admin_of};
ghost use Rattle.service_runtime.specs.Receiving.{IsTalk};

use crate::figures::{figures, tenant_shown, tenants_shown};
use admin_pages::{AdminRoute, ServiceFigures, admin_route};
use export_edge::Beat;
use http_edge::{EdgeFault, Handler, HttpMessage, RefusalForm, Reply, serve};
use http_line::StreamLine;
use otlp_front::path;
use service_context::{Naming, Shared, WorkerContext};
use service_front::{
    ServiceLimits, ask_to_come, ask_to_go, drain, is_draining, metrics_reply, not_let_in, page,
    readiness,
};
use service_runtime::notices::{notice, other_method};
use service_runtime::{
    AdminPort, Client, Entrance, Visit, is_let_in, linger, refuse_overrun, resident_bytes,
};
use std::alloc::AllocError;
use std::net::{Net, TcpListener, TcpStream};
use std::sync::Wait;
use std::thread::Threads;
use std::time::Clock;
use tenant_registry::replies::without_memory;

/// The handler of the admin port: it answers by steps of its thread's caller, and by lines of the input.
#[derive(Drop)]
pub(crate) struct AdminHandler<'c, 'h, J: Naming, R> {
    /// The context of the thread.
    pub context: &'c mut WorkerContext<'h, J, R>,
    /// The address, the token and the desk.
    pub port: &'c AdminPort<'h>,
    /// How many threads the service has, and how long they wait.
    pub limits: ServiceLimits,
    /// The size of the queue between dispatchers and senders.
    pub lane_capacity: usize,
}

impl<'c, 'h, J: Naming, R: Wait + Clock> Handler for AdminHandler<'c, 'h, J, R> {
    ghost use Rattle.std.specs.Prelude.{◌≡◌, length};
    ghost use Rattle.http_edge.specs.declared.message.RefusalForm.TheVariants as forms;
    ghost use Rattle.service_admin.specs.Shown.{IsShown};
    ghost use Rattle.service_front.specs.Pages.{admin_of};

    ghost refusals = { forms.Json };

    ghost answers = { λ old request told new.
        IsShown J.first (length old.context.now.hub.now)
        (admin_of old.port old.limits old.lane_capacity) request old.context.now.caller
        new.context.now.caller told
        × (admin_of new.port new.limits new.lane_capacity
        ≡ admin_of old.port old.limits old.lane_capacity)
        × (new.context.ghost_name ≡ old.context.ghost_name) };

    fn refusals() -> RefusalForm
        ensures { result ≡ forms.Json }
    {
        RefusalForm::Json
    }

    /// Who isn't let in is refused before the body comes.
    fn reply_to_head(&self, head: &HttpMessage) -> Option<Reply> {
        let asked = admin_route(head.method.as_str(), path(head.target.as_slice()));
        if is_let_in(self.port.token, &head.headers, &asked) {
            return None;
        }
        match not_let_in(self.context.alloc, self.port.token) {
            Ok(reply) => Some(reply),
            Err(AllocError) => Some(without_memory(self.context.alloc)),
        }
    }

    fn handle<T: Threads + Sync>(&mut self, _rt: &T, message: HttpMessage) -> Reply {
        match self.answer(&message) {
            Ok(reply) => reply,
            Err(AllocError) => without_memory(self.context.alloc),
        }
    }
}

impl<'c, 'h, J: Naming, R: Wait + Clock> AdminHandler<'c, 'h, J, R> {
    /// Serves the next who comes in at this door, unless the work is over. Pauses where none does.
    fn serve_next<T: Threads + Sync>(&mut self, rt: &T, door: &Entrance<'h>, buffer: &mut Vec<u8>)
        ensures looks { OnlyLooks (length J.slots) self.old.context.now.caller
            self.new.context.now.caller }
        ensures lent { self.new.context.ghost_name ≡ self.old.context.ghost_name }
    {
        let context = &mut *self.context;
        let signals = context.beat.signals();
        let Some(client) = door.admit(context.rt, signals) else {
            context.beat.with_short_pauses().pause();
            return;
        };
        if signals.is_over() {
            return;
        }
        self.serve(rt, client, buffer);
    }

    /// Serves a client to its end.
    fn serve<T: Threads + Sync>(&mut self, rt: &T, client: Client<'h>, buffer: &mut Vec<u8>)
        ensures { IsTalk forms.Json ⟦<AdminHandler<'c, 'h, J, R> as Handler>⟧.answers self.old
            self.new }
    {
        let context = &mut *self.context;
        let alloc = context.alloc;
        let mut beat = context.beat.with_short_pauses();
        let mut line = StreamLine::new(Visit::new(context.rt, &client));
        match serve(rt, alloc, &mut line, self, buffer) {
            Ok(()) | Err(EdgeFault::OutOfMemory) => linger(&client.stream, &mut beat),
            Err(_) => refuse_overrun(&client, &mut beat),
        }
    }

    /// The answer to a message.
    fn answer(&mut self, message: &HttpMessage) -> Result<Reply, AllocError>
        ensures shown { IfOk result (λ r. IsShown J.first (length self.old.context.now.hub.now)
            (admin_of self.old.port self.old.limits self.old.lane_capacity) (seen message.now)
            self.old.context.now.caller self.new.context.now.caller (response_of r)) }
        ensures looks { OnErr result (OnlyLooksIf (may_look
            (admin_of self.old.port self.old.limits self.old.lane_capacity) (seen message.now))
            (length self.old.context.now.hub.now) self.old.context.now.caller
            self.new.context.now.caller) }
        ensures same { admin_of self.new.port self.new.limits self.new.lane_capacity
            ≡ admin_of self.old.port self.old.limits self.old.lane_capacity }
        ensures lent { self.new.context.ghost_name ≡ self.old.context.ghost_name }
    {
        let asked = admin_route(message.method.as_str(), path(message.target.as_slice()));
        let document = message.body.as_slice();
        if is_let_in(self.port.token, &message.headers, &asked) {
            self.show(asked, document)
        } else {
            not_let_in(self.context.alloc, self.port.token)
        }
    }

    /// What is asked for, of who is let in. A tenant that is to come has this document.
    fn show(&mut self, asked: AdminRoute<'_>, document: &[u8]) -> Result<Reply, AllocError>
        ensures shown { IfOk result (ShowsReply J.first (length self.old.context.now.hub.now)
            (admin_of self.old.port self.old.limits self.old.lane_capacity) (route_view asked.entry)
            document.now self.old.context.now.caller self.new.context.now.caller) }
        ensures looks { OnErr result (OnlyLooksIf (is_for_figures (route_view asked.entry))
            (length self.old.context.now.hub.now) self.old.context.now.caller
            self.new.context.now.caller) }
        ensures same { admin_of self.new.port self.new.limits self.new.lane_capacity
            ≡ admin_of self.old.port self.old.limits self.old.lane_capacity }
        ensures lent { self.new.context.ghost_name ≡ self.old.context.ghost_name }
    {
        let context = &mut *self.context;
        let (rt, alloc, desk) = (context.rt, context.alloc, self.port.desk);
        let signals = context.beat.signals();
        match asked {
            AdminRoute::Page => page(alloc),
            AdminRoute::Metrics => self.metrics(),
            AdminRoute::Health => notice(alloc, 200, "state", "ok"),
            AdminRoute::Readiness => readiness(alloc, is_draining(rt, desk, signals)),
            AdminRoute::Drain => drain(rt, alloc, desk, signals),
            AdminRoute::Tenants => tenants_shown(self.context),
            AdminRoute::Add => ask_to_come(rt, alloc, desk, document),
            AdminRoute::Tenant(name) => tenant_shown(self.context, name),
            AdminRoute::Retire(name) => ask_to_go(rt, alloc, self.context.settings, desk, name),
            AdminRoute::NoSuchPath => notice(alloc, 404, "error", "no such path"),
            AdminRoute::OtherMethod(methods) => other_method(alloc, methods),
        }
    }

    /// All figures, for a scraper.
    fn metrics(&mut self) -> Result<Reply, AllocError>
        ensures shown { IfOk result (λ reply. ShowsMetrics J.first
            (length self.old.context.now.hub.now)
            (admin_of self.old.port self.old.limits self.old.lane_capacity)
            self.old.context.now.caller self.new.context.now.caller (response_of reply)) }
        ensures looks { OnErr result (OnlyLooks (length self.old.context.now.hub.now)
            self.old.context.now.caller self.new.context.now.caller) }
        ensures same { admin_of self.new.port self.new.limits self.new.lane_capacity
            ≡ admin_of self.old.port self.old.limits self.old.lane_capacity }
        ensures lent { self.new.context.ghost_name ≡ self.old.context.ghost_name }
    {
        let figures = figures(self.context)?;
        let service = self.service_figures(figures.len() as u64);
        metrics_reply(self.context.alloc, figures.as_slice(), &service)
    }

    /// The figures of the whole service, where so many tenants are present.
    fn service_figures(&mut self, tenants: u64) -> ServiceFigures
        ensures of_service { IsOfService (admin_of self.old.port self.old.limits
            self.old.lane_capacity) tenants result }
        ensures caller { self.new.context.now.caller ≡ self.old.context.now.caller }
        ensures same { admin_of self.new.port self.new.limits self.new.lane_capacity
            ≡ admin_of self.old.port self.old.limits self.old.lane_capacity }
        ensures lent { self.new.context.ghost_name ≡ self.old.context.ghost_name }
    {
        let context = &mut *self.context;
        let rt = context.rt;
        let uptime = context.beat.now() / 1000;
        let signals = context.beat.signals();
        let resident_bytes = match self.port.status {
            Some(status) => resident_bytes(rt, status),
            None => None,
        };
        ServiceFigures {
            version: self.port.version,
            uptime,
            tenants,
            is_draining: is_draining(rt, self.port.desk, signals),
            resident_bytes,
            receivers: u64::from(self.limits.receivers),
            senders: u64::from(self.limits.senders),
            lane_capacity: self.lane_capacity as u64,
            counts: signals.tally().counts(),
        }
    }
}

/// Serves the admin port until the work is over. Without such a port it returns at once.
pub fn serve_admin<'h, J, R>(
    shared: &Shared<'h, J, R>,
    context: &mut WorkerContext<'h, J, R>,
    buffer: &mut Vec<u8>,
)
where
    J: Naming,
    R: Net<Listener = TcpListener, Stream = TcpStream> + Threads + Wait + Clock + Sync,
    ensures { OnlyLooks (length J.slots) context.old.caller context.new.caller }
{
    let Some(admin) = &shared.admin else {
        return;
    };
    let mut handler = AdminHandler {
        context,
        port: &admin.port,
        limits: shared.limits,
        lane_capacity: shared.lane.capacity(),
    };
    serve_all(shared.rt, &admin.entrance, &mut handler, buffer);
}

/// Serves those who come, one after another, until the work is over.
fn serve_all<'c, 'h, J, R>(
    rt: &R,
    door: &Entrance<'h>,
    admin: &mut AdminHandler<'c, 'h, J, R>,
    buffer: &mut Vec<u8>,
)
where
    J: Naming,
    R: Threads + Wait + Clock + Sync,
    ensures looks { OnlyLooks (length J.slots) admin.old.context.now.caller
        admin.new.context.now.caller }
    ensures lent { admin.new.context.ghost_name ≡ admin.old.context.ghost_name }
{
    'clients: for _ in rt.forever() {
        let context = &mut *admin.context;
        if context.beat.signals().is_over() {
            return;
        }
        admin.serve_next(rt, door, buffer);
    }
    unreachable!()
}
