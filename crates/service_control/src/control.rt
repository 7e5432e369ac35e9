//! The control thread, which reads the input and ends the service.

ghost use Rattle.std.specs.Prelude.{◌≡◌, length, map, OnOk, IfNone};
ghost use Rattle.machine_hub.specs.Hub.{slots_of};
ghost use Rattle.tenant_registry.specs.Roster.{entry_of};
ghost use Rattle.service_control.specs.Control.{Answers, ReadsCommands, Reports, ReportsNamed};
ghost use Rattle.service_control.specs.Commands.{AreDrained, AreEmptyOn, AreReported, IsMade};
ghost use Rattle.service_front.specs.Lines.{step_of};

use crate::director::Director;
use crate::fault::ServiceFault;
use export_edge::Beat;
use service_context::{Naming, WorkerContext};
use service_front::{
    Chore, CommandReply, end_work, line_again, longest_wait_of, note_awaited, note_skipped,
};
use service_runtime::{
    Documents, Line, Observer, ServiceBeat, Stage, all_arrive, next_line, write_text,
};
use shared_hub::{Caller, SharedHub};
use std::alloc::Global;
use std::io::{BufRead, Write};
use std::mem;
use std::net::{Net, TcpListener, TcpStream};
use std::sync::{Mutex, Wait};
use std::time::Clock;
use tenant_registry::{InForce, Present, Registrar, Roster, SettingsNaming};
use tenant_shard::Outcome;

/// The control thread: the tenants that it knows, its context, and the listeners that it wakes at the end.
#[derive(Drop)]
pub struct Control<'h, J: Naming, R, D> {
    pub rt: &'h R,
    pub alloc: Global,
    pub registrar: Registrar<'h, J, R>,
    pub roster: Roster,
    pub documents: &'h D,
    pub listener: &'h TcpListener,
    /// Where the admin port listens.
    pub admin: Option<&'h TcpListener>,
    pub context: WorkerContext<'h, J, R>,
    pub beat: ServiceBeat<'h, R>,
}

impl<'h, J, R, D> Control<'h, J, R, D>
where
    J: Naming,
    R: Net<Listener = TcpListener, Stream = TcpStream> + Wait + Clock,
    D: Documents,
{
    /// Its caller at the shards, once the work is done.
    pub fn into_caller(self) -> Caller
        ensures same_hub { slots_of result ≡ J.slots }
        ensures caller { result ≡ self.entry.context.caller }
    {
        self.context.into_caller()
    }

    /// Answers the lines of the input, to its end.
    fn read_commands<I: BufRead, O: Write, L: Observer>(
        &mut self,
        roster: &mut Roster,
        input: &mut I,
        output: &mut O,
        lost: &mut u64,
        observer: &mut L,
        has_admin_port: bool,
    ) -> Result<(), ServiceFault>
        ensures commands_read { OnOk result
            (ReadsCommands has_admin_port D.reads J.first (I.remaining input.old) self.old
            roster.old (O.contents output.old, lost.old) self.new roster.new
            (O.contents output.new, lost.new)) }
        ensures hub { self.new.context.hub ≡ self.old.context.hub }
    {
        let mut line = Line::new();
        'lines: for _ in self.rt.forever() {
            if !next_line(self.rt, input, &mut line)? {
                return Ok(());
            }
            let text = line.as_slice();
            note_skipped(roster, text, observer);
            self.run_command(roster, output, lost, text, has_admin_port);
        }
        unreachable!()
    }

    /// Answers a line: by what it asks for, and where it asks for nothing by nothing.
    fn run_command<O: Write>(
        &mut self,
        roster: &mut Roster,
        output: &mut O,
        lost: &mut u64,
        line: &[u8],
        has_admin_port: bool,
    )
        ensures answered { Answers has_admin_port D.reads J.first line.now self.old roster.old
            (O.contents output.old, lost.old) self.new roster.new
            (O.contents output.new, lost.new) }
        ensures hub { self.new.context.hub ≡ self.old.context.hub }
    {
        if let Some(name) = line.strip_prefix(b"report ".as_slice()) {
            return self.report(roster, output, lost, name);
        }
        if let Some(path) = line.strip_prefix(b"add ".as_slice()) {
            return self.add(roster, output, lost, path);
        }
        if let Some(name) = line.strip_prefix(b"retire ".as_slice()) {
            self.retire(roster, output, lost, name, has_admin_port);
        }
    }

    /// Prints the report of the tenant of this name, where there is one.
    fn report<O: Write>(&mut self, roster: &Roster, output: &mut O, lost: &mut u64, name: &[u8])
        ensures reported { ReportsNamed name.now roster.now self.old
            (O.contents output.old, lost.old) self.new (O.contents output.new, lost.new) }
        ensures hub { self.new.context.hub ≡ self.old.context.hub }
        ensures changes { self.new.registrar ≡ self.old.registrar }
    {
        if let Some(tenant) = roster.find(name) {
            self.print_report(output, lost, tenant);
        }
    }

    /// Prints a tenant's report.
    fn print_report<O: Write>(&mut self, output: &mut O, lost: &mut u64, tenant: &Present)
        ensures reported { Reports tenant.now self.old (O.contents output.old, lost.old) self.new
            (O.contents output.new, lost.new) }
        ensures hub { self.new.context.hub ≡ self.old.context.hub }
        ensures changes { self.new.registrar ≡ self.old.registrar }
    {
        let outcome = self.make(tenant.number, Chore::Report);
        let reply = CommandReply::Outcome {
            name: tenant.name.as_str(),
            outcome: &outcome,
        };
        let context = &mut self.context;
        let line = line_again(self.rt, self.alloc, &mut context.teller, &self.beat, reply);
        write_text(output, line.as_slice(), lost);
    }

    /// Prints the reports of these tenants, none of which holds a span any more, in their order.
    fn print_reports<O: Write>(&mut self, tenants: &[Present], output: &mut O, lost: &mut u64)
        requires empty { AreEmptyOn self.old.context.caller (length self.old.context.hub.now)
            (map (λ tenant. tenant.number) tenants.now) }
        ensures reported { AreReported (length self.old.context.hub.now) self.old.context.caller
            self.old.beat.last (O.contents output.old, lost.old) (map entry_of tenants.now)
            self.new.context.caller self.new.beat.last (O.contents output.new, lost.new) }
        ensures changes { self.new.registrar ≡ self.old.registrar }
    {
        for tenant in tenants {
            self.print_report(output, lost, tenant);
        }
    }

    /// These tenants take no spans any more, and all send what they hold. A drain decides all that waits in one step,
    /// or nothing: where memory for the keys of its batches is refused it is turners that make less of it, one batch
    /// after another. Who drains stays behind turners meanwhile: at a moment ahead of theirs its step would write
    /// batches that they don't yet hand out.
    fn drain_all(&mut self, tenants: &[Present])
        ensures drained { AreDrained (length self.old.context.hub.now) self.old.context.caller
            self.old.beat.last (map (λ tenant. tenant.number) tenants.now) self.new.context.caller
            self.new.beat.last }
        ensures hub { self.new.context.hub ≡ self.old.context.hub }
        ensures changes { self.new.registrar ≡ self.old.registrar }
    {
        hurry(
            self.rt,
            self.context.settings,
            &self.beat,
            self.context.hub,
            tenants,
        );
        for tenant in tenants {
            self.make(tenant.number, Chore::Drain);
        }
        self.beat.signals().paces().calm();
    }

    /// Makes a step of a tenant, at the moment that it now is: again, after a pause, where memory was refused.
    pub(crate) fn make(&mut self, tenant: u32, chore: Chore) -> Outcome
        ensures made { IsMade self.old.context.caller self.new.context.caller
            (length self.old.context.hub.now) tenant self.old.beat.last self.new.beat.last
            (step_of chore tenant) result }
        ensures hub { self.new.context.hub ≡ self.old.context.hub }
        ensures changes { self.new.registrar ≡ self.old.registrar }
    {
        'attempts: for _ in self.rt.forever() {
            let now = self.beat.now();
            let step = chore.at(tenant, now);
            match self.context.step(tenant, step) {
                Ok(outcome) => return outcome,
                Err(_) => {
                    let context = &mut self.context;
                    context.teller.want();
                    self.beat.pause();
                }
            }
        }
        unreachable!()
    }

    /// Waits until none of these tenants holds a span.
    fn await_empty<L: Observer>(&mut self, tenants: &[Present], observer: &mut L)
        ensures empty { AreEmptyOn self.old.context.caller (length self.old.context.hub.now)
            (map (λ tenant. tenant.number) tenants.now) }
        ensures caller { self.new.context.caller ≡ self.old.context.caller }
        ensures hub { self.new.context.hub ≡ self.old.context.hub }
        ensures last { self.new.beat.last ≡ self.old.beat.last }
        ensures changes { self.new.registrar ≡ self.old.registrar }
    {
        let mut awaited = None;
        'looks: for _ in self.rt.forever() {
            let Some(tenant) = self.first_held(tenants) else {
                return;
            };
            note_awaited(tenant, &mut awaited, observer);
            self.beat.with_short_pauses().pause();
        }
        unreachable!()
    }

    /// The first of these tenants that holds a span, or None where none does.
    fn first_held<'t>(&mut self, tenants: &'t [Present]) -> Option<&'t Present>
        ensures none { IfNone result (AreEmptyOn self.old.context.caller
            (length self.old.context.hub.now) (map (λ tenant. tenant.number) tenants.entry.now)) }
        ensures caller { self.new.context.caller ≡ self.old.context.caller }
        ensures hub { self.new.context.hub ≡ self.old.context.hub }
        ensures last { self.new.beat.last ≡ self.old.beat.last }
        ensures changes { self.new.registrar ≡ self.old.registrar }
    {
        for tenant in tenants {
            if !self.context.is_empty(tenant.number) {
                return Some(tenant);
            }
        }
        None
    }
}

/// While memory is short the moments of these tenants' shards don't wait for the clock's, until they are calm, so that
/// what the tenants hold by now leaves one batch after another.
fn hurry<J: SettingsNaming, R: Wait + Clock>(
    rt: &R,
    settings: &Mutex<InForce<J>>,
    beat: &ServiceBeat<'_, R>,
    hub: &SharedHub,
    tenants: &[Present],
) {
    for tenant in tenants {
        let now = beat.with_short_pauses().now();
        let longest = longest_wait_of(rt, settings, tenant.number);
        let shard = hub.shard_of(tenant.number);
        if let Some(pace) = beat.signals().paces().shard(shard) {
            pace.hurry(now.saturating_add(longest));
        }
    }
}

impl<'h, J, R, D> Director for Control<'h, J, R, D>
where
    J: Naming,
    R: Net<Listener = TcpListener, Stream = TcpStream> + Wait + Clock,
    D: Documents,
{
    ghost use Rattle.service_control.specs.Control.{Directs};

    ghost directs = { λ old input so_far new written.
        Directs D.reads J.first input old (so_far, 0) new written };

    /// Once all threads are there reads the input to its end, has every tenant send what it holds, and prints the
    /// reports: how many of all answers were lost. Whatever comes of it, the other threads are told that the work is
    /// over.
    fn direct<I: BufRead, O: Write, L: Observer>(
        &mut self,
        input: &mut I,
        output: &mut O,
        observer: &mut L,
        threads: usize,
    ) -> Result<u64, ServiceFault> {
        if !all_arrive(&self.beat, threads) {
            return Err(ServiceFault::NoThread);
        }
        let mut roster = mem::replace(&mut self.roster, Roster::new(self.alloc));
        observer.observe(Stage::Serving);
        let mut lost = 0;
        let has_admin_port = self.admin.is_some();
        let heard = self.read_commands(
            &mut roster,
            input,
            output,
            &mut lost,
            observer,
            has_admin_port,
        );
        observer.observe(Stage::Draining);
        let tenants = roster.tenants();
        self.drain_all(tenants);
        self.beat.signals().close();
        self.await_empty(tenants, observer);
        self.print_reports(tenants, output, &mut lost);
        observer.observe(Stage::Closing);
        end_work(self.rt, self.beat.signals(), self.listener, self.admin);
        heard?;
        Ok(lost)
    }
}
