//! The end of a connection whose client may still be sending.

ghost use Rattle.std.specs.Prelude.{◌≡◌, ◌≤◌, ℕ, List, [], false, length};
ghost use Rattle.http_edge.specs.Reply.{refusal_text};
ghost use Rattle.http_edge.specs.declared.message.RefusalForm.TheVariants as forms;
ghost use Rattle.http_line.specs.Line.{Moves};
ghost use Rattle.service_runtime.specs.Visit.{most_read_off};

use crate::visit::Client;
use export_edge::Beat;
use http_line::{Line, StreamLine};
use std::io::Write;
use std::net::{Shutdown, TcpStream};
use std::time::Duration;

/// So many seconds without a byte end the wait for more.
const SILENCE: u64 = 1;

/// For so many milliseconds bytes are read at most.
const LONGEST: u64 = 10_000;

/// So many bytes are read at most, which is more than the longest body that is taken.
const MOST_BYTES: usize = 33_554_432;

/// So many bytes are read at once.
const ROOM: usize = 8_192;

/// Closes the side of a connection that writes, and reads on for a while (RFC 9112, 9.6): a socket that is let go with
/// bytes unread resets its connection, and a client that sends a whole body before it reads would never see the reply.
pub fn linger<B: Beat>(stream: &TcpStream, beat: &mut B) {
    let silence = Duration::from_secs(SILENCE);
    if stream.shutdown(Shutdown::Write).is_ok() && stream.set_read_timeout(Some(silence)).is_ok() {
        read_off(&mut StreamLine::new(stream), beat);
    }
}

/// Where a connection failed since a request had more bytes than it may, its client is told so, and it ends as behind
/// any reply that closes it. A client that doesn't take the reply isn't waited for.
pub fn refuse_overrun<B: Beat>(client: &Client<'_>, beat: &mut B) {
    let mut stream = &client.stream;
    if client.has_overrun() && stream.write_all(too_large()).is_ok() {
        linger(stream, beat);
    }
}

/// What such a client is told, as who sends a longer body than is taken anywhere. What its method was isn't known any
/// more, so a reply to `HEAD` has its content too.
fn too_large() -> &'static [u8]
    ensures { result.now ≡ refusal_text forms.Json false 413 }
{
    b"HTTP/1.1 413 Content Too Large\r\nContent-Type: application/json\r\nConnection: close\r\n\
Content-Length: 26\r\n\r\n{\"error\":\"body too large\"}"
}

/// Reads what comes and lets it go, until the peer has closed its side too, or one of the bounds is met.
fn read_off<L: Line, B: Beat>(line: &mut L, beat: &mut B)
    ensures { (read : List ℕ) × Moves L.gives L.takes line.old line.new read []
        × (length read ≤ most_read_off) }
{
    let until = beat.now().saturating_add(LONGEST);
    let mut room = [0; ROOM];
    let mut left = MOST_BYTES;
    while left > 0 && beat.now() < until {
        let most = left.min(ROOM);
        match line.read_some(&mut room[..most]) {
            Ok(count) if count > 0 => left -= count,
            _ => return,
        }
    }
}
