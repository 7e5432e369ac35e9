//! The service's admin port.

ghost use Rattle.std.specs.Prelude.{◌≡◌, ◌⊎◌, ◌≤◌, ◌<◌, false, true, Err, IfErr, IfOk, IfSome, IsTrue, None, OnOk, OnErr, is_some, length, option_copied, option_map, string_bytes};
ghost use Rattle.collector_command.specs.Fault.{IsOutside};
ghost use Rattle.collector_command.specs.Reason.{IsAdded, TellsOf, reason_line};
ghost use Rattle.collector_command.specs.Task.{options_view};
ghost use Rattle.collector_command.specs.Token.{AreAsWritten, IsPortToken, IsTokenAt, is_token_byte, goes_on, is_token, shortest_token, without_last, without_end};
ghost use Rattle.collector_command.specs.declared.fault.ProgramFault.TheVariants as faults;
ghost use Rattle.trace_collector.specs.declared.engine.ReplayFault.TheVariants as replay_faults;

use crate::fault::ProgramFault;
use crate::files::read_file;
use crate::reason::Reason;
use crate::start::listen_at;
use crate::task::{ServeOptions, VERSION};
use service_runtime::{AdminDesk, AdminPort, Documents};
use std::fs::File;
use std::net::{Net, TcpListener, TcpStream};
use std::rt::Files;
use std::sync::Mutex;
use trace_collector::ReplayFault;

/// A shorter token is guessed sooner than it should be.
const SHORTEST_TOKEN: usize = 16;

/// What is said of a text that isn't so.
const TOKEN_MAY_BE: &str =
    "a token is one line of letters, digits and - . _ ~ + /, with = at its end alone";

/// Where Linux tells a process of itself.
const STATUS: &str = "/proc/self/status";

/// Where the admin port listens, and the token that is asked for there.
#[derive(Drop)]
pub struct AdminDoor {
    pub listener: TcpListener,
    /// Whoever asks has to have it, if there is one.
    pub token: Option<Vec<u8>>,
    /// What the system tells of this process, where it tells it.
    pub status: Option<Mutex<File>>,
}

/// The admin port that the options ask for, if they do. Without a token that is an address which this
/// machine alone reaches.
pub fn admin_door<R>(
    rt: &R,
    options: &ServeOptions<'_>,
    reason: &mut Reason,
) -> Result<Option<AdminDoor>, ProgramFault>
where
    R: Files<File = File>
        + AllocGlobal
        + Net<Listener = TcpListener, Stream = TcpStream>
        + Documents,
    ensures asked { IfOk result (λ door. is_some door ≡ is_some options.now.admin) }
    ensures token { IfOk result (λ door. IfSome door (λ door. IsPortToken R.reads
        (options_view options.now).admin_token_file
        (option_map (λ token. token.items) door.token))) }
    ensures alone { options.now.admin ≡ None → is_some options.now.admin_token_file ≡ true
        → result ≡ Err faults.Usage }
{
    let Some(address) = options.admin else {
        return match options.admin_token_file {
            // `asked_task` gives no such options.
            Some(_) => Err(ProgramFault::Usage),
            None => Ok(None),
        };
    };
    let token = match options.admin_token_file {
        Some(file) => Some(token_of_file(rt, file, reason)?),
        None => None,
    };
    let listener = listen_at(rt, address, reason)?;
    if token.is_none() && !is_loopback(&listener) {
        return Err(told(
            reason,
            address,
            "no loopback address, so --admin-token-file has to be given",
        ));
    }
    let status = match File::open(rt, STATUS) {
        Ok(file) => Some(Mutex::new(file)),
        Err(_) => None,
    };
    Ok(Some(AdminDoor {
        listener,
        token,
        status,
    }))
}

/// Whether this machine alone reaches it.
fn is_loopback(listener: &TcpListener) -> bool {
    match listener.local_addr() {
        Ok(address) => address.ip().is_loopback(),
        Err(_) => false,
    }
}

/// The token in a file, without the end of its line. What no client could send as one, or would not as it is meant, is
/// a fault.
fn token_of_file<R: Documents + AllocGlobal>(
    rt: &R,
    path: &str,
    reason: &mut Reason,
) -> Result<Vec<u8>, ProgramFault>
    ensures token { IfOk result (λ token. IsTokenAt R.reads path.now token.items) }
    ensures fault { IfErr result IsOutside }
    ensures told { reason.new.is_told ≡ reason.old.is_told }
    ensures line { OnErr result (TellsOf path.now reason.old reason.new) }
    ensures same { OnOk result (reason.new ≡ reason.old) }
{
    let bytes = read_file(rt, path, reason)?;
    token_in(bytes, path, reason)
}

/// The token that the bytes of a file at this path spell, without the end of its line.
fn token_in(bytes: Vec<u8>, path: &str, reason: &mut Reason) -> Result<Vec<u8>, ProgramFault>
    // It is all of the text, where that is a token.
    ensures whole { IfOk result (λ token. token.items ≡ without_end bytes.items) }
    ensures token { IfOk result (λ token. IsTrue (is_token token.items)) }
    ensures long { IfOk result (λ token. shortest_token ≤ length token.items) }
    ensures refused { OnErr result ((is_token (without_end bytes.items) ≡ false)
        ⊎ (length (without_end bytes.items) < shortest_token)) }

    // Otherwise it is a fault of the file at this path.
    ensures fault { IfErr result (λ fault. fault ≡ faults.Replay replay_faults.Line) }
    ensures told { reason.new.is_told ≡ reason.old.is_told }
    ensures line { OnErr result (TellsOf path.now reason.old reason.new) }
    ensures same { OnOk result (reason.new ≡ reason.old) }
{
    let mut token = bytes;
    let len = without_end(token.as_slice()).len();
    token.truncate(len);
    if token.len() < SHORTEST_TOKEN {
        return Err(told(reason, path, "a token has at least 16 bytes"));
    }
    if !is_token(token.as_slice()) {
        return Err(told(reason, path, TOKEN_MAY_BE));
    }
    Ok(token)
}

/// Whether it is a token of letters, digits and a few other bytes.
fn is_token(text: &[u8]) -> bool
    ensures { result ≡ is_token text.now }
{
    match text {
        [first, behind @ ..] => is_token_byte(*first) && goes_on(behind),
        [] => false,
    }
}

/// Whether these bytes may stand behind the first one.
fn goes_on(behind: &[u8]) -> bool
    ensures { result ≡ goes_on false behind.now }
{
    let mut is_padded = false;
    for byte in behind {
        if *byte == b'=' {
            is_padded = true;
        } else if is_padded || !is_token_byte(*byte) {
            return false;
        }
    }
    true
}

fn is_token_byte(byte: u8) -> bool
    ensures { result ≡ is_token_byte byte }
{
    byte.is_ascii_alphanumeric() || matches!(byte, b'-' | b'.' | b'_' | b'~' | b'+' | b'/')
}

/// A token is just what RFC 6750 writes as a `b64token`: a law over the definitions.
fn tokens_are_as_written()
    ensures { AreAsWritten }
{}

/// A text without the end of its line.
fn without_end(text: &[u8]) -> &[u8]
    ensures { result.now ≡ without_end text.now }
{
    without_last(without_last(text, b'\n'), b'\r')
}

/// A text without this byte at its end, if it stands there.
fn without_last(text: &[u8], byte: u8) -> &[u8]
    ensures { result.now ≡ without_last byte text.now }
{
    text.strip_suffix([byte].as_slice()).unwrap_or(text)
}

/// The fault of an option's value, whose reason is kept.
fn told(reason: &mut Reason, what: &str, why: &str) -> ProgramFault
    ensures fault { result ≡ faults.Replay replay_faults.Line }
    ensures told { reason.new.is_told ≡ reason.old.is_told }
    ensures line { IsAdded (string_bytes reason.old.lines) (reason_line what.now why.now)
        (string_bytes reason.new.lines) }
{
    reason.put(what, &why);
    ProgramFault::Replay(ReplayFault::Line)
}

/// The admin port of this door and this desk.
pub fn port_at<'x>(door: &'x AdminDoor, desk: &'x AdminDesk) -> AdminPort<'x>
    ensures listener { result.listener.now ≡ door.now.listener }
    ensures desk { result.desk.now ≡ desk.now }
    ensures token { option_copied result.token ≡ option_map (λ token. token.items) door.now.token }
    ensures status { option_copied result.status ≡ door.now.status }
    ensures version { result.version.now ≡ VERSION.now }
{
    let token = match &door.token {
        Some(token) => Some(token.as_slice()),
        None => None,
    };
    let status = match &door.status {
        Some(status) => Some(status),
        None => None,
    };
    AdminPort {
        listener: &door.listener,
        desk,
        token,
        status,
        version: VERSION,
    }
}
