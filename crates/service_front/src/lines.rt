//! Lines of the input, and the stages that an observer sees.

ghost use Rattle.std.specs.Prelude.{◌≡◌, true};
ghost use Rattle.std.specs.Bool.{OnTrue};
ghost use Rattle.service_front.specs.Lines.{AsksNothing};
ghost use Rattle.tenant_registry.specs.Roster.{present_in};

use service_runtime::{Observer, Signals, Stage, wake_at_last};
use std::net::{Net, TcpListener, TcpStream};
use std::sync::Wait;
use std::time::Clock;
use tenant_registry::{Present, Roster};

/// The observer is told of a line that asks for nothing.
pub fn note_skipped<L: Observer>(roster: &Roster, line: &[u8], observer: &mut L) {
    if asks_nothing(roster, line) {
        observer.observe(Stage::Skipped { line });
    }
}

/// The observer is told for which tenant is waited, unless that is the one for which it was before.
pub fn note_awaited<L: Observer>(tenant: &Present, awaited: &mut Option<u32>, observer: &mut L) {
    if *awaited != Some(tenant.number) {
        *awaited = Some(tenant.number);
        let name = tenant.name.as_str();
        observer.observe(Stage::Sending { name });
    }
}

/// Whether a line asks for nothing: it lets no tenant come, and names none that is present.
fn asks_nothing(roster: &Roster, line: &[u8]) -> bool
    ensures nothing { OnTrue result (AsksNothing (present_in roster.now) line.now) }
    ensures whole { AsksNothing (present_in roster.now) line.now → result ≡ true }
{
    if let Some(name) = line.strip_prefix(b"report ".as_slice()) {
        return roster.find(name).is_none();
    }
    if let Some(name) = line.strip_prefix(b"retire ".as_slice()) {
        return roster.find(name).is_none();
    }
    line.strip_prefix(b"add ".as_slice()).is_none()
}

/// The work is over from now on, and who waits for clients is woken, at the admin port too.
pub fn end_work<R>(rt: &R, signals: &Signals, listener: &TcpListener, admin: Option<&TcpListener>)
where
    R: Net<Listener = TcpListener, Stream = TcpStream> + Wait + Clock,
{
    signals.end();
    wake_at_last(rt, listener);
    if let Some(admin) = admin {
        wake_at_last(rt, admin);
    }
}
