//! The loop over messages.
ghost use Rattle.std.specs.Prelude.{◌≡◌, ◌≢◌, ℕ, ◌+◌, ◌<◌, ◌≤◌, List, [], ◌++◌, length, map, if◌then◌else◌, IfOk, IfErr, IfSome, OnOk, OnErr, Some, None, true, false, Ok, Err, vec_capacity, is_none};
ghost use Rattle.httparse.specs.Grammar.{RequestHead, HasNoRequest};
ghost use Rattle.http_edge.specs.Talk.{Converses, Begins, head_lines};
ghost use Rattle.http_edge.specs.Reply.{refusal_text, reply_text, continue_text, is_for_no_memory};
ghost use Rattle.http_edge.specs.Message.{Message, Settles, closes, max_fields, max_head, with_body};
ghost use Rattle.http_edge.specs.Chunks.{has_text};
ghost use Rattle.http_edge.specs.Limits.{part_room};
ghost use Rattle.http_line.specs.Line.{Moves};
ghost use Rattle.http_edge.specs.Steps.{work, HasFailed};
ghost use Rattle.http_edge.specs.Seen.{seen, response_of};
ghost use Rattle.http_edge.specs.Stages.{IsHeadProgress, IfHead, IsWatched, IsMessageOf, kept_if, StaysOpen, IsOver, IsCut, RepliesWhole, RepliesInPart, RepliesUnwritten, BreaksOff, StopsShort};
ghost use Rattle.http_edge.specs.declared.wire.EdgeFault.TheVariants.{ReadFailed, OutOfMemory};

use crate::body::{BodyRead, read_body};
use crate::head::{BodyKind, Head, HeadProgress, NO_PLACES, Places, head_at};
use crate::message::{Allow, Handler, HttpMessage, RefusalForm, Reply};
use crate::reply::{
    is_for_no_memory, no_memory_bytes, plain_bytes, refusal_body, refusal_media, taken_bytes,
};
use crate::wire::{EdgeFault, READ_AT_MOST, Room, Watch, fill, send};
use http_line::Line;
use std::alloc::{AllocError, Global};
use std::thread::Threads;

/// So many bytes the longest part that is looked at has, and one read more.
const CONNECTION_ROOM: usize = 65_536 + READ_AT_MOST;

/// A buffer for one connection after another. It has room for the longest head and for the longest line of a chunk.
pub fn connection_buffer(alloc: Global) -> Result<Vec<u8>, AllocError>
    ensures empty { IfOk result (λ buffer. buffer.items ≡ []) }
    ensures room { IfOk result (λ buffer. max_head + part_room ≤ vec_capacity buffer) }
{
    Vec::with_capacity(alloc, CONNECTION_ROOM)
}

/// Reads messages and writes the handler's replies, until the connection is to close, a message is bad, or the input
/// ends. What the buffer has from the connection before is let go. Where memory is refused, the client is told so by a
/// 503 from constant bytes, once all that was taken for its message is given back, and the connection is to close. That
/// reply has no body where the head was read and its method is HEAD. Nothing is read behind the end of the input.
pub fn serve<T: Threads + Sync, L: Line, H: Handler>(
    rt: &T,
    alloc: Global,
    line: &mut L,
    handler: &mut H,
    buffer: &mut Vec<u8>,
) -> Result<(), EdgeFault>
    // The bytes written are the replies to the messages in the bytes read.
    ensures talk { OnOk result (Converses H.refusals H.answers handler.old handler.new
        L.gives L.takes L.ends line.old line.new) }
    // After a failed write they are a beginning of that, after a failed read all of it, and after want of memory too,
    // with a reply that says so.
    ensures fault { IfErr result (λ fault. (read : List ℕ) × (written : List ℕ)
        × Moves L.gives L.takes line.old line.new read written
        × Begins H.refusals fault H.answers handler.old read handler.new written) }
    // One read at most gave no byte: nothing is read behind it.
    ensures stops { L.ends line.new ≤ L.ends line.old + 1 }
    // Without a fault, and where memory alone was refused, no call of the line has failed.
    ensures kept { OnOk result (L.failed line.new ≡ L.failed line.old) }
    ensures unfailed { result ≡ Err EdgeFault.OutOfMemory → L.failed line.new ≡ L.failed line.old }
    ensures read { result ≡ Err EdgeFault.ReadFailed
        → HasFailed (L.failed line.old) (L.failed line.new) }
    ensures write { result ≡ Err EdgeFault.WriteFailed
        → HasFailed (L.failed line.old) (L.failed line.new) }
{
    buffer.clear();
    let mut bodiless = false;
    match converse(rt, alloc, line, handler, buffer, &mut bodiless) {
        Ok(()) => Ok(()),
        Err(EdgeFault::OutOfMemory) => {
            send(line, no_memory_bytes(H::refusals(), true, bodiless))?;
            Err(EdgeFault::OutOfMemory)
        }
        Err(EdgeFault::ReadFailed) => Err(EdgeFault::ReadFailed),
        Err(EdgeFault::WriteFailed) => Err(EdgeFault::WriteFailed),
    }
}

/// Reads messages and writes the handler's replies, until the connection is to close, a message is bad, or the input
/// ends. Where memory is refused, nothing is said of that: `bodiless` tells whether the reply that says so has no body.
fn converse<T: Threads + Sync, L: Line, H: Handler>(
    rt: &T,
    alloc: Global,
    line: &mut L,
    handler: &mut H,
    buffer: &mut Vec<u8>,
    bodiless: &mut bool,
) -> Result<(), EdgeFault>
    requires { buffer.old.items ≡ [] }
    ensures talk { OnOk result (Converses H.refusals H.answers handler.old handler.new
        L.gives L.takes L.ends line.old line.new) }
    ensures broken { IfErr result (λ fault. fault ≢ OutOfMemory
        → BreaksOff H.refusals fault H.answers handler.old handler.new L.gives L.takes
        line.old line.new) }
    ensures short { result ≡ Err OutOfMemory → StopsShort H.refusals bodiless.new H.answers
        handler.old handler.new L.gives L.takes line.old line.new }
    ensures stops { L.ends line.new ≤ L.ends line.old + 1 }
    ensures kept { OnOk result (L.failed line.new ≡ L.failed line.old) }
    ensures unfailed { result ≡ Err EdgeFault.OutOfMemory → L.failed line.new ≡ L.failed line.old }
    ensures read { result ≡ Err EdgeFault.ReadFailed
        → HasFailed (L.failed line.old) (L.failed line.new) }
    ensures write { result ≡ Err EdgeFault.WriteFailed
        → HasFailed (L.failed line.old) (L.failed line.new) }
{
    let mut room: Room = [0u8; 8192];
    let mut places = NO_PLACES;
    'messages: while exchange(
        rt,
        alloc,
        line,
        handler,
        &mut room,
        &mut places,
        buffer,
        bodiless,
    )? {}
    Ok(())
}

/// One message, and whether the connection goes on after it. Where memory is refused, `bodiless` tells whether the
/// reply that says so has no body.
fn exchange<T: Threads + Sync, L: Line, H: Handler>(
    rt: &T,
    alloc: Global,
    line: &mut L,
    handler: &mut H,
    room: &mut Room,
    places: &mut Places,
    buffer: &mut Vec<u8>,
    bodiless: &mut bool,
) -> Result<bool, EdgeFault>
    ensures stays_open { result ≡ Ok true → StaysOpen H.refusals H.answers handler.old
        handler.new L.gives L.takes line.old line.new buffer.old.items
        buffer.new.items }
    ensures goes_on { result ≡ Ok true → L.ends line.new ≡ L.ends line.old }
    ensures closes { result ≡ Ok false → IsOver H.refusals H.answers handler.old
        handler.new L.gives L.takes line.old line.new (L.ends line.old < L.ends
        line.new) buffer.old.items }
    ensures on_error { IfErr result (λ fault. IsCut H.refusals fault bodiless.new H.answers
        handler.old handler.new L.gives L.takes line.old line.new buffer.old.items) }
    ensures work { result ≡ Ok true → work (L.reads_left line.new) buffer.new.items < work
        (L.reads_left line.old) buffer.old.items }
    ensures ends { L.ends line.old ≤ L.ends line.new }
    ensures stops { L.ends line.new ≤ L.ends line.old + 1 }
    ensures kept { OnOk result (L.failed line.new ≡ L.failed line.old) }
    ensures unfailed { result ≡ Err EdgeFault.OutOfMemory → L.failed line.new ≡ L.failed line.old }
    ensures read { result ≡ Err EdgeFault.ReadFailed
        → HasFailed (L.failed line.old) (L.failed line.new) }
    ensures write { result ≡ Err EdgeFault.WriteFailed
        → HasFailed (L.failed line.old) (L.failed line.new) }
{
    *bodiless = false;
    match read_head(alloc, line, room, places, buffer)? {
        HeadProgress::More => Ok(false),
        HeadProgress::TooMany => {
            refuse(alloc, line, H::refusals(), 431, false)?;
            Ok(false)
        }
        HeadProgress::Refuse {
            status,
            bodiless: is_bodiless,
        } => {
            *bodiless = is_bodiless;
            refuse(alloc, line, H::refusals(), status, is_bodiless)?;
            Ok(false)
        }
        HeadProgress::OutOfMemory {
            bodiless: is_bodiless,
        } => {
            *bodiless = is_bodiless;
            Err(EdgeFault::OutOfMemory)
        }
        HeadProgress::Whole(head) => {
            *bodiless = head.bodiless;
            let goes = serve_message(rt, alloc, line, handler, room, buffer, head)?;
            Ok(goes)
        }
    }
}

/// Reads until a head is there, a bad message, or the end.
fn read_head<L: Line>(
    alloc: Global,
    line: &mut L,
    room: &mut Room,
    places: &mut Places,
    buffer: &mut Vec<u8>,
) -> Result<HeadProgress, EdgeFault>
    ensures on_success { IfOk result (λ begin. (read : List ℕ)
        × Moves L.gives L.takes line.old line.new read []
        × (buffer.new.items ≡ buffer.old.items ++ read)
        × IsHeadProgress buffer.new.items begin) }
    ensures whole { IfOk result (λ begin. IfHead begin (L.ends line.new ≡ L.ends line.old)) }
    ensures end { result ≡ Ok HeadProgress.More → L.ends line.old < L.ends line.new }
    ensures short { result ≡ Ok HeadProgress.More → length buffer.new.items < max_head }
    ensures lines_bounded { result ≡ Ok HeadProgress.More
        → head_lines buffer.new.items ≤ max_fields + 1 }
    ensures on_error { OnErr result ((read : List ℕ)
        × Moves L.gives L.takes line.old line.new read []) }
    ensures lacks { result ≡ Err OutOfMemory → (read : List ℕ)
        × Moves L.gives L.takes line.old line.new read []
        × (buffer.new.items ≡ buffer.old.items ++ read) × HasNoRequest buffer.new.items }
    ensures unread { result ≡ Err ReadFailed → (read : List ℕ)
        × Moves L.gives L.takes line.old line.new read []
        × (buffer.new.items ≡ buffer.old.items ++ read) × HasNoRequest buffer.new.items }
    ensures work { OnOk result (work (L.reads_left line.new) buffer.new.items ≤ work
        (L.reads_left line.old) buffer.old.items) }
    ensures ends { L.ends line.old ≤ L.ends line.new }
    ensures stops { L.ends line.new ≤ L.ends line.old + 1 }
    ensures kept { OnOk result (L.failed line.new ≡ L.failed line.old) }
    ensures unfailed { result ≡ Err EdgeFault.OutOfMemory → L.failed line.new ≡ L.failed line.old }
    ensures failed { result ≡ Err EdgeFault.ReadFailed
        → HasFailed (L.failed line.old) (L.failed line.new) }
    ensures no_write { result ≢ Err EdgeFault.WriteFailed }
{
    let mut watch = Watch::before_head();
    'looks: loop {
        match look(alloc, line, room, places, buffer, &mut watch)? {
            Some(begin) => return Ok(begin),
            None => {}
        }
    }
}

/// Looks for a head where it is time to, and reads where none is there. Room is made before bytes are read: where it is
/// refused, what there is is looked at once more.
fn look<L: Line>(
    alloc: Global,
    line: &mut L,
    room: &mut Room,
    places: &mut Places,
    buffer: &mut Vec<u8>,
    watch: &mut Watch,
) -> Result<Option<HeadProgress>, EdgeFault>
    requires { IsWatched HasNoRequest buffer.old.items watch.old }
    ensures on_success { OnOk result ((read : List ℕ)
        × Moves L.gives L.takes line.old line.new read []
        × (buffer.new.items ≡ buffer.old.items ++ read)) }
    ensures found { IfOk result (λ found. IfSome found (IsHeadProgress buffer.new.items)) }
    ensures whole { IfOk result (λ found. IfSome found (λ begin. IfHead begin (L.ends line.new
        ≡ L.ends line.old))) }
    ensures watched { result ≡ Ok None → IsWatched HasNoRequest buffer.new.items watch.new }
    ensures more { result ≡ Ok None → L.ends line.new ≡ L.ends line.old }
    ensures end { result ≡ Ok (Some HeadProgress.More) → L.ends line.old < L.ends line.new }
    ensures short { result ≡ Ok (Some HeadProgress.More) → length buffer.new.items < max_head }
    ensures lines_bounded { result ≡ Ok (Some HeadProgress.More)
        → head_lines buffer.new.items ≤ max_fields + 1 }
    ensures on_error { OnErr result ((read : List ℕ)
        × Moves L.gives L.takes line.old line.new read []) }
    ensures lacks { result ≡ Err OutOfMemory → Moves L.gives L.takes line.old line.new [] []
        × (buffer.new.items ≡ buffer.old.items) × HasNoRequest buffer.new.items }
    ensures unread { result ≡ Err ReadFailed → Moves L.gives L.takes line.old line.new [] []
        × (buffer.new.items ≡ buffer.old.items) × HasNoRequest buffer.new.items }
    ensures work { OnOk result (work (L.reads_left line.new) buffer.new.items ≤ work
        (L.reads_left line.old) buffer.old.items) }
    ensures less { result ≡ Ok None → work (L.reads_left line.new) buffer.new.items < work
        (L.reads_left line.old) buffer.old.items }
    ensures ends { L.ends line.old ≤ L.ends line.new }
    ensures stops { L.ends line.new ≤ L.ends line.old + 1 }
    ensures kept { OnOk result (L.failed line.new ≡ L.failed line.old) }
    ensures unfailed { result ≡ Err EdgeFault.OutOfMemory → L.failed line.new ≡ L.failed line.old }
    ensures failed { result ≡ Err EdgeFault.ReadFailed
        → HasFailed (L.failed line.old) (L.failed line.new) }
    ensures no_write { result ≢ Err EdgeFault.WriteFailed }
{
    match head_due(alloc, buffer, places, watch) {
        Some(begin) => return Ok(Some(begin)),
        None => {}
    }
    match buffer.reserve(READ_AT_MOST) {
        Ok(()) => {}
        Err(AllocError) => {
            let begin = head_there(alloc, buffer, places).ok_or(EdgeFault::OutOfMemory)?;
            return Ok(Some(begin));
        }
    }
    if fill(line, buffer, &mut room[..READ_AT_MOST])? {
        return Ok(None);
    }
    Ok(Some(head_at(alloc, buffer, places)))
}

/// What the bytes begin with, where it is time to look and they aren't less than a head. Before it is time they are: no
/// line has ended since the last look. Where there is no byte nothing is looked at.
fn head_due(
    alloc: Global,
    bytes: &[u8],
    places: &mut Places,
    watch: &mut Watch,
) -> Option<HeadProgress>
    requires { IsWatched HasNoRequest bytes.now watch.old }
    ensures found { IfSome result (IsHeadProgress bytes.now) }
    ensures whole { result ≢ Some HeadProgress.More }
    ensures none { result ≡ None → HasNoRequest bytes.now }
    ensures seen { watch.new.seen ≡ length bytes.now }
    ensures blank { watch.new.is_begun ≡ false → has_text bytes.now ≡ false }
{
    if watch.is_due(bytes, false) && !bytes.is_empty() {
        head_there(alloc, bytes, places)
    } else {
        None
    }
}

/// What the bytes begin with, where they aren't less than a head.
fn head_there(alloc: Global, bytes: &[u8], places: &mut Places) -> Option<HeadProgress>
    ensures found { IfSome result (IsHeadProgress bytes.now) }
    ensures whole { result ≢ Some HeadProgress.More }
    ensures none { result ≡ None → HasNoRequest bytes.now }
{
    match head_at(alloc, bytes, places) {
        HeadProgress::More => None,
        begin => Some(begin),
    }
}

/// Writes the reply to a bad message.
fn refuse<L: Line>(
    alloc: Global,
    line: &mut L,
    form: RefusalForm,
    status: u16,
    bodiless: bool,
) -> Result<(), EdgeFault>
    ensures on_success { OnOk result (Moves L.gives L.takes line.old line.new []
        (refusal_text form bodiless status)) }
    ensures on_error { OnErr result ((front : List ℕ) × (missing : List ℕ)
        × (refusal_text form bodiless status ≡ front ++ missing)
        × Moves L.gives L.takes line.old line.new [] front) }
    ensures quiet { result ≡ Err OutOfMemory → Moves L.gives L.takes line.old line.new [] [] }
    ensures end { L.ends line.new ≡ L.ends line.old }
    ensures reads { L.reads_left line.new ≡ L.reads_left line.old }
    ensures kept { OnOk result (L.failed line.new ≡ L.failed line.old) }
    ensures unfailed { result ≡ Err EdgeFault.OutOfMemory → L.failed line.new ≡ L.failed line.old }
    ensures failed { result ≡ Err EdgeFault.WriteFailed
        → HasFailed (L.failed line.old) (L.failed line.new) }
    ensures no_read { result ≢ Err EdgeFault.ReadFailed }
{
    let reply = Reply {
        status,
        media: refusal_media(form),
        allow: Allow::Post,
        body: Vec::from_slice(alloc, refusal_body(form, status))?,
    };
    write_reply(alloc, line, form, &reply, true, bodiless)
}

/// Reads the body of a head's message, and answers it.
fn serve_message<T: Threads + Sync, L: Line, H: Handler>(
    rt: &T,
    alloc: Global,
    line: &mut L,
    handler: &mut H,
    room: &mut Room,
    buffer: &mut Vec<u8>,
    head: Head,
) -> Result<bool, EdgeFault>
    requires { IsHeadProgress buffer.old.items (HeadProgress.Whole head) }
    ensures stays_open { result ≡ Ok true → StaysOpen H.refusals H.answers handler.old
        handler.new L.gives L.takes line.old line.new buffer.old.items
        buffer.new.items }
    ensures goes_on { result ≡ Ok true → L.ends line.new ≡ L.ends line.old }
    ensures closes { result ≡ Ok false → IsOver H.refusals H.answers handler.old
        handler.new L.gives L.takes line.old line.new (L.ends line.old < L.ends
        line.new) buffer.old.items }
    ensures on_error { IfErr result (λ fault. IsCut H.refusals fault head.bodiless H.answers
        handler.old handler.new L.gives L.takes line.old line.new buffer.old.items) }
    ensures work { result ≡ Ok true → work (L.reads_left line.new) buffer.new.items < work
        (L.reads_left line.old) buffer.old.items }
    ensures ends { L.ends line.old ≤ L.ends line.new }
    ensures stops { L.ends line.new ≤ L.ends line.old + 1 }
    ensures kept { OnOk result (L.failed line.new ≡ L.failed line.old) }
    ensures unfailed { result ≡ Err EdgeFault.OutOfMemory → L.failed line.new ≡ L.failed line.old }
    ensures read { result ≡ Err EdgeFault.ReadFailed
        → HasFailed (L.failed line.old) (L.failed line.new) }
    ensures write { result ≡ Err EdgeFault.WriteFailed
        → HasFailed (L.failed line.old) (L.failed line.new) }
{
    interim(line, head.expects)?;
    let settled = reply_to_head(handler, &head, buffer);
    match read_body(
        alloc,
        line,
        room,
        buffer,
        head.len,
        head.kind,
        settled.is_none(),
    )? {
        BodyRead::Ended => Ok(false),
        BodyRead::TooLong => {
            refuse(alloc, line, H::refusals(), 413, head.bodiless)?;
            Ok(false)
        }
        BodyRead::Bad => {
            refuse(alloc, line, H::refusals(), 400, head.bodiless)?;
            Ok(false)
        }
        BodyRead::Whole(body) => {
            let goes = handle_message(rt, alloc, line, handler, head, body, settled)?;
            Ok(goes)
        }
    }
}

/// The reply that the head settles. A handler isn't asked where the whole body stands behind the head in the buffer:
/// there is nothing to spare.
fn reply_to_head<H: Handler>(handler: &H, head: &Head, buffer: &[u8]) -> Option<Reply>
    ensures { IfSome result (λ reply. Settles H.answers handler.now (seen head.now.message)
        (response_of reply)) }
{
    if has_come(head.kind, buffer.len().saturating_sub(head.len)) {
        return None;
    }
    handler.reply_to_head(&head.message)
}

/// Whether so many bytes are all of a body of this kind.
fn has_come(kind: BodyKind, count: usize) -> bool {
    match kind {
        BodyKind::Sized(len) => len <= count as u64,
        BodyKind::Chunks => false,
    }
}

/// Writes 100 Continue where it is due.
fn interim<L: Line>(line: &mut L, due: bool) -> Result<(), EdgeFault>
    ensures on_success { OnOk result (Moves L.gives L.takes line.old line.new []
        (if due then continue_text else [])) }
    ensures on_error { OnErr result ((front : List ℕ) × (missing : List ℕ)
        × ((if due then continue_text else []) ≡ front
        ++ missing)
        × Moves L.gives L.takes line.old line.new [] front) }
    ensures end { L.ends line.new ≡ L.ends line.old }
    ensures reads { L.reads_left line.new ≡ L.reads_left line.old }
    ensures kept { OnOk result (L.failed line.new ≡ L.failed line.old) }
    ensures failed { result ≡ Err EdgeFault.WriteFailed
        → HasFailed (L.failed line.old) (L.failed line.new) }
    ensures no_read { result ≢ Err EdgeFault.ReadFailed }
    ensures no_memory { result ≢ Err EdgeFault.OutOfMemory }
{
    let text: &[u8] = if due {
        b"HTTP/1.1 100 Continue\r\n\r\n"
    } else {
        b""
    };
    send(line, text)
}

/// Answers the message of a head and of what was kept of its body: by the reply that the head settled, or as the
/// handler does.
fn handle_message<T: Threads + Sync, L: Line, H: Handler>(
    rt: &T,
    alloc: Global,
    line: &mut L,
    handler: &mut H,
    head: Head,
    kept: Vec<u8>,
    settled: Option<Reply>,
) -> Result<bool, EdgeFault>
    requires { IfSome settled (λ reply. Settles H.answers handler.old (seen head.message)
        (response_of reply)) }
    ensures on_success { IfOk result (λ goes. (m : Message)
        → IsMessageOf head kept.items (is_none settled) m
        → RepliesWhole H.refusals H.answers handler.old handler.new L.gives L.takes line.old
        line.new m goes) }
    ensures on_error { OnErr result ((m : Message)
        → IsMessageOf head kept.items (is_none settled) m
        → RepliesInPart H.refusals H.answers handler.old handler.new L.gives L.takes line.old
        line.new m) }
    ensures short { result ≡ Err OutOfMemory → (m : Message)
        → IsMessageOf head kept.items (is_none settled) m
        → RepliesUnwritten H.refusals H.answers handler.old handler.new L.gives L.takes line.old
        line.new m }
    ensures end { L.ends line.new ≡ L.ends line.old }
    ensures reads { L.reads_left line.new ≡ L.reads_left line.old }
    ensures kept { OnOk result (L.failed line.new ≡ L.failed line.old) }
    ensures unfailed { result ≡ Err EdgeFault.OutOfMemory → L.failed line.new ≡ L.failed line.old }
    ensures failed { result ≡ Err EdgeFault.WriteFailed
        → HasFailed (L.failed line.old) (L.failed line.new) }
    ensures no_read { result ≢ Err EdgeFault.ReadFailed }
{
    let closes = head.closes;
    let bodiless = head.bodiless;
    let reply = reply_to(rt, handler, message_of(head, kept), settled);
    write_reply(alloc, line, H::refusals(), &reply, closes, bodiless)?;
    Ok(!closes)
}

/// The reply to a message of whose body this was kept: the one that its head settled, or the handler's.
fn reply_to<T: Threads + Sync, H: Handler>(
    rt: &T,
    handler: &mut H,
    message: HttpMessage,
    settled: Option<Reply>,
) -> Reply
    requires { IfSome settled (λ reply. Settles H.answers handler.old (seen message)
        (response_of reply)) }
    ensures { (body : List ℕ) → message.body.items ≡ kept_if (is_none settled) body
        → H.answers handler.old (with_body (seen message) body) (response_of result) handler.new }
{
    match settled {
        Some(reply) => reply,
        None => handler.handle(rt, message),
    }
}

/// Writes a reply.
#[tactic(auto, unfolding(crate::specs::Reply::reply_text))]
fn write_reply<L: Line>(
    alloc: Global,
    line: &mut L,
    form: RefusalForm,
    reply: &Reply,
    close: bool,
    bodiless: bool,
) -> Result<(), EdgeFault>
    ensures on_success { OnOk result (Moves L.gives L.takes line.old line.new []
        (reply_text form bodiless close (response_of reply.now))) }
    ensures on_error { OnErr result ((front : List ℕ) × (missing : List ℕ)
        × (reply_text form bodiless close (response_of reply.now) ≡ front ++ missing)
        × Moves L.gives L.takes line.old line.new [] front) }
    ensures quiet { result ≡ Err OutOfMemory → Moves L.gives L.takes line.old line.new [] [] }
    ensures memory { result ≡ Err OutOfMemory → is_for_no_memory (response_of reply.now) ≡ false }
    ensures end { L.ends line.new ≡ L.ends line.old }
    ensures reads { L.reads_left line.new ≡ L.reads_left line.old }
    ensures kept { OnOk result (L.failed line.new ≡ L.failed line.old) }
    ensures unfailed { result ≡ Err EdgeFault.OutOfMemory → L.failed line.new ≡ L.failed line.old }
    ensures failed { result ≡ Err EdgeFault.WriteFailed
        → HasFailed (L.failed line.old) (L.failed line.new) }
    ensures no_read { result ≢ Err EdgeFault.ReadFailed }
{
    if is_for_no_memory(reply) {
        return send(line, no_memory_bytes(form, close, bodiless));
    }
    if let Some(bytes) = taken_bytes(reply, close, bodiless) {
        return send(line, bytes);
    }
    let bytes = plain_bytes(alloc, reply, close, bodiless)?;
    send(line, &bytes)
}

/// The message of a head and a body.
fn message_of(head: Head, body: Vec<u8>) -> HttpMessage
    ensures { seen result ≡ with_body (seen head.message) body.items }
{
    let Head { message, .. } = head;
    let HttpMessage {
        method,
        target,
        headers,
        ..
    } = message;
    HttpMessage {
        method,
        target,
        headers,
        body,
    }
}
