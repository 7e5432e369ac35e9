//! Tenants that come and go while the service runs, as lines of the input ask.

ghost use Rattle.std.specs.Prelude.{◌≡◌, ◌%◌, length, true, false, IfOk, IfErr};
ghost use Rattle.shared_hub.specs.Logs.{IsEmptyOn};
ghost use Rattle.tenant_registry.specs.NotAdded.{not_added_text};
ghost use Rattle.tenant_registry.specs.Roster.{HasRoom, present_in};
ghost use Rattle.service_control.specs.Comings.{IsAdded, IsJoined, IsNotJoined, IsStruck};
ghost use Rattle.service_control.specs.Commands.{left_by, stays};
ghost use Rattle.service_control.specs.Control.{Adds, RetiresNamed, standing_of, standing_with};

use crate::control::Control;
use export_edge::Beat;
use service_context::Naming;
use service_front::{Chore, CommandReply, line_again};
use service_runtime::{Documents, write_text};
use shared_hub::HubFault;
use std::io::Write;
use std::net::{Net, TcpListener, TcpStream};
use std::sync::Wait;
use std::time::Clock;
use tenant_registry::{Newcomer, NotAdded, Registrar, Roster, document};
use tenant_shard::{Outcome, Step};

/// A tenant that was to go stays for this reason: it wasn't empty.
const NOT_EMPTY: u8 = 26;

impl<'h, J, R, D> Control<'h, J, R, D>
where
    J: Naming,
    R: Net<Listener = TcpListener, Stream = TcpStream> + Wait + Clock,
    D: Documents,
{
    /// Lets the tenant come whose document is in the file at this path, and prints what came of it.
    pub(crate) fn add<O: Write>(
        &mut self,
        roster: &mut Roster,
        output: &mut O,
        lost: &mut u64,
        path: &[u8],
    )
        ensures added { Adds D.reads J.first path.now self.old roster.old
            (O.contents output.old, lost.old) self.new roster.new
            (O.contents output.new, lost.new) }
        ensures last { self.new.beat.last ≡ self.old.beat.last }
        ensures hub { self.new.context.hub ≡ self.old.context.hub }
    {
        match self.let_in(roster, path) {
            Ok(line) => write_text(output, line.as_slice(), lost),
            Err(NotAdded::Refused(number)) => {
                let reply = CommandReply::NotAdded(number);
                let context = &mut self.context;
                let line = line_again(self.rt, self.alloc, &mut context.teller, &self.beat, reply);
                write_text(output, line.as_slice(), lost);
            }
            Err(NotAdded::OutOfMemory) => {
                write_text(output, b"refused add memory\n".as_slice(), lost);
            }
        }
    }

    /// The line of the tenant that came whose document is in the file at this path.
    fn let_in(&mut self, roster: &mut Roster, path: &[u8]) -> Result<Vec<u8>, NotAdded>
        ensures added { IfOk result (λ line. IsAdded D.reads J.first
            (length self.old.context.hub.now) path.now (standing_of self.old roster.old)
            self.old.context.caller (standing_of self.new roster.new) self.new.context.caller
            line.items) }
        ensures not_added { IfErr result
            (λ why. IsAdded D.reads J.first (length self.old.context.hub.now) path.now
            (standing_of self.old roster.old) self.old.context.caller
            (standing_of self.new roster.new) self.new.context.caller (not_added_text why)) }
        ensures last { self.new.beat.last ≡ self.old.beat.last }
        ensures hub { self.new.context.hub ≡ self.old.context.hub }
    {
        let text = document(self.documents, self.alloc, path)?;
        roster.reserve()?;
        let newcomer = self.registrar.newcomer(self.alloc, text.as_str())?;
        self.join(roster, newcomer)
    }

    /// Has a newcomer join its shard: the line that says so. Where it can't, the settings forget it.
    fn join(&mut self, roster: &mut Roster, newcomer: Newcomer) -> Result<Vec<u8>, NotAdded>
        requires { HasRoom roster.old }
        ensures joined { IfOk result (λ line. IsJoined (length self.old.context.hub.now) newcomer
            (present_in roster.old) self.old.context.caller (present_in roster.new)
            self.new.context.caller line.items
            × (self.new.registrar ≡ self.old.registrar)) }
        ensures not_joined { IfErr result
            (λ why. IsNotJoined (length self.old.context.hub.now) newcomer self.old.context.caller
            self.new.context.caller why
            × IsStruck newcomer (standing_of self.old roster.old)
            (standing_of self.new roster.new)) }
        ensures last { self.new.beat.last ≡ self.old.beat.last }
        ensures hub { self.new.context.hub ≡ self.old.context.hub }
    {
        let Newcomer {
            number,
            name,
            section,
        } = newcomer;
        let step = Step::Add {
            tenant: number,
            section,
        };
        match self.context.step(number, step) {
            Ok(Outcome::Refused(_, reason)) => {
                self.registrar.strike(number);
                Err(NotAdded::Refused(reason))
            }
            Ok(_) => {
                let reply = CommandReply::Added {
                    name: name.as_str(),
                    number,
                };
                let context = &mut self.context;
                let line = line_again(self.rt, self.alloc, &mut context.teller, &self.beat, reply);
                roster.push(number, name);
                Ok(line)
            }
            Err(HubFault::OutOfMemory) => {
                self.registrar.strike(number);
                Err(NotAdded::OutOfMemory)
            }
            Err(HubFault::Behind { .. } | HubFault::OtherEntry { .. }) => unreachable!(),
        }
    }

    /// Has the tenant of this name send what it holds, waits until that is done, lets it go, and prints what came of
    /// it. Meanwhile no other line is answered. A service with an admin port may be told there to end before that is
    /// done: then the tenant stays while it holds spans. Where there is no tenant of this name nothing is done.
    pub(crate) fn retire<O: Write>(
        &mut self,
        roster: &mut Roster,
        output: &mut O,
        lost: &mut u64,
        name: &[u8],
        has_admin_port: bool,
    )
        ensures retired { RetiresNamed has_admin_port name.now self.old roster.old
            (O.contents output.old, lost.old) self.new roster.new
            (O.contents output.new, lost.new) }
        ensures hub { self.new.context.hub ≡ self.old.context.hub }
    {
        let Some(tenant) = roster.find(name) else {
            return;
        };
        let number = tenant.number;
        self.make(number, Chore::Drain);
        self.await_tenant(number, has_admin_port);
        let outcome = self.make(number, Chore::Retire);
        let reply = CommandReply::Outcome {
            name: tenant.name.as_str(),
            outcome: &outcome,
        };
        let context = &mut self.context;
        let line = line_again(self.rt, self.alloc, &mut context.teller, &self.beat, reply);
        let_go(&mut self.registrar, roster, number, &outcome);
        write_text(output, line.as_slice(), lost);
    }

    /// Waits until this tenant holds no span, or with an admin port until it is told there to end: else
    /// a back end that hangs would keep all others from being drained.
    fn await_tenant(&mut self, tenant: u32, has_admin_port: bool)
        ensures empty { has_admin_port ≡ false → IsEmptyOn self.old.context.caller
            (tenant % length self.old.context.hub.now) tenant true }
        ensures caller { self.new.context.caller ≡ self.old.context.caller }
        ensures last { self.new.beat.last ≡ self.old.beat.last }
        ensures hub { self.new.context.hub ≡ self.old.context.hub }
        ensures changes { self.new.registrar ≡ self.old.registrar }
    {
        'looks: for _ in self.rt.forever() {
            if self.context.is_empty(tenant) {
                return;
            }
            if has_admin_port && self.beat.signals().is_end_asked() {
                return;
            }
            self.beat.with_short_pauses().pause();
        }
        unreachable!()
    }
}

/// After its retirement the tenant of this number is present no more, and is struck, unless it stays.
fn let_go<J: Naming, R: Wait>(
    registrar: &mut Registrar<'_, J, R>,
    roster: &mut Roster,
    number: u32,
    outcome: &Outcome,
)
    ensures { standing_with roster.new registrar.new ≡ left_by outcome.now number
        (standing_with roster.old registrar.old) }
{
    if stays(outcome) {
        return;
    }
    registrar.strike(number);
    roster.remove(number);
}

/// Whether a tenant that was to go stays, since it wasn't empty.
fn stays(outcome: &Outcome) -> bool
    ensures { result ≡ stays outcome.now }
{
    match outcome {
        Outcome::Refused(_, number) => *number == NOT_EMPTY,
        _ => false,
    }
}
