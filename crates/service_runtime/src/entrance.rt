//! Where clients come in.

ghost use Rattle.std.specs.Prelude.{◌≡◌, IfSome};

use crate::beat::Signals;
use crate::visit::{Client, Patience};
use std::io::ErrorKind;
use std::net::{Net, Shutdown, TcpListener, TcpStream};
use std::os::fd::OwnedFd;
use std::sync::{Mutex, Wait};
use std::thread;
use std::time::{Clock, Duration};

/// So many milliseconds pass before the next attempt where no connection can be taken.
const REST: u64 = 50;

/// So many milliseconds a connection that wakes a receiver may take.
const LONGEST_WAKE: u64 = 100;

/// Where clients come in, one after another. A thread that waits in the system's call holds a descriptor for whoever
/// comes, so one receiver does, and the others wait for their turn: idle receivers leave the descriptors to senders.
#[derive(Drop)]
pub struct Entrance<'h> {
    listener: &'h TcpListener,
    turn: Mutex<()>,
    patience: Patience,
}

impl<'h> Entrance<'h> {
    /// An entrance for clients for whom is waited so long. They come in until the work is over: during a drain too,
    /// when each is told that no more spans are taken.
    pub fn new(listener: &'h TcpListener, patience: Patience) -> Entrance<'h>
        ensures { result.patience ≡ patience }
    {
        Entrance {
            listener,
            turn: Mutex::new(()),
            patience,
        }
    }

    /// Where it listens.
    pub fn listener(&self) -> &'h TcpListener {
        self.listener
    }

    /// Waits for the next client. None where the end has come meanwhile, or where none can be taken now.
    pub fn admit<'s, R: Wait + Clock>(&self, rt: &R, signals: &'s Signals) -> Option<Client<'s>>
        ensures { IfSome result (λ client. client.patience ≡ self.now.patience) }
    {
        let _turn = self.turn.lock(rt);
        if signals.is_over() {
            return None;
        }
        match self.listener.accept() {
            Ok((stream, _peer)) => self.limited(stream, signals),
            Err(error) => {
                // One client that has gone again says nothing of the next. Else descriptors or memory are wanting, of
                // all receivers, or nobody is to come any more.
                if error.kind() != ErrorKind::ConnectionAborted && !signals.is_over() {
                    thread::sleep(rt, Duration::from_millis(REST));
                }
                None
            }
        }
    }

    /// The client of a stream, with the limit for its reads and writes. None where it doesn't take that.
    fn limited<'s>(&self, stream: TcpStream, signals: &'s Signals) -> Option<Client<'s>>
        ensures { IfSome result (λ client. client.patience ≡ self.now.patience) }
    {
        let patience = self.patience;
        // Of requests that came together each reply is a write, and it isn't to wait until the one before it has been
        // acknowledged.
        let _delays_at_worst = stream.set_nodelay(true);
        if patience.rest.is_some() {
            stream.set_read_timeout(patience.rest).ok()?;
            stream.set_write_timeout(patience.rest).ok()?;
        }
        Some(Client::new(stream, patience, signals))
    }
}

/// Ends the listening, so that nobody waits for a client any more, whatever has become of the listener's address: who
/// came and wasn't taken is reset, and who comes is refused. False where there is no descriptor for it, or where the
/// system ends no listening so.
fn shut(listener: &TcpListener) -> bool {
    match listener.try_clone() {
        // std shuts streams alone.
        Ok(another) => TcpStream::from(OwnedFd::from(another))
            .shutdown(Shutdown::Both)
            .is_ok(),
        Err(_) => false,
    }
}

/// Makes a connection to the listener's own address, so that the receiver whose turn it is doesn't wait for one; the
/// others then take their turns. Where the listener has no room for it, who came before wakes them. False where it
/// can't be made, as while there is no descriptor.
fn wake<R>(rt: &R, listener: &TcpListener) -> bool
where
    R: Net<Listener = TcpListener, Stream = TcpStream>,
{
    let Ok(address) = listener.local_addr() else {
        return false;
    };
    match TcpStream::connect_timeout(rt, &address, Duration::from_millis(LONGEST_WAKE)) {
        Ok(_) => true,
        Err(error) => error.kind() == ErrorKind::TimedOut,
    }
}

/// Tries again until nobody waits for a client, or who does is woken: connections that end give their descriptors back.
pub fn wake_at_last<R>(rt: &R, listener: &TcpListener)
where
    R: Net<Listener = TcpListener, Stream = TcpStream> + Wait + Clock,
{
    'attempts: for _ in rt.forever() {
        if shut(listener) || wake(rt, listener) {
            return;
        }
        thread::sleep(rt, Duration::from_millis(REST));
    }
    unreachable!()
}
