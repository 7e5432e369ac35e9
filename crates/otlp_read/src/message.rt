//! Reading a message field by field.

ghost use Rattle.std.specs.Prelude.{◌≡◌, ◌≤◌, ℕ, map, option_map, unwrap_or};
ghost use Rattle.pb_wire.specs.Grammar.{entry};
ghost use Rattle.otlp_read.specs.Fault.{Gives};
ghost use Rattle.otlp_read.specs.Inside.{ReadsByFields};
ghost use Rattle.otlp_read.specs.Walk.{Step, read_with, with_another};

use crate::fault::ReadFault;
use otlp_trace::Repeated;
use pb_wire::{Field, next_field};
use std::alloc::Global;

/// Levels of messages and groups in a body, its own among them.
pub const LEVELS: u32 = 101;

/// A message, which takes one field after the other.
pub trait Message: Drop {
    ghost Data: { Type 0 };

    ghost view: { Self → Data };

    ghost empty: { Data };

    ghost step: { ℕ → Step Data };

    /// The message of no fields.
    fn empty(alloc: Global) -> Self
        ensures { view result ≡ empty };

    /// The message after one more field. Messages in the field have room for so many levels. The field's bytes are
    /// given as they are spelled, with its tag.
    fn field(
        self,
        alloc: Global,
        field: Field<'_>,
        spelled: &[u8],
        room: u32,
    ) -> Result<Self, ReadFault>
        requires room { room ≤ 100 }
        ensures exact { Gives view result (step room (view self) (entry field.entry) spelled.now) };
}

/// Goes on reading a message, where there is room for so many levels, its own among them.
pub fn merged<M: Message>(alloc: Global, before: M, bytes: &[u8], room: u32) -> Result<M, ReadFault>
    requires room { room ≤ 101 }
    ensures exact { Gives M.view result (read_with M.step room (M.view before) bytes.now) }
{
    if room == 0 {
        return Err(ReadFault::TooDeep);
    }
    let mut value = before;
    let mut left = bytes;
    'fields: while let Some((field, rest)) = next_field(left, 101 - room)? {
        let spelled = &left[..left.len() - rest.len()];
        value = value.field(alloc, field, spelled, room - 1)?;
        left = rest;
    }
    Ok(value)
}

/// Goes on reading an embedded message, from the one that stands, where one does.
pub fn merged_into<M: Message>(
    alloc: Global,
    before: Option<M>,
    bytes: &[u8],
    room: u32,
) -> Result<M, ReadFault>
    requires room { room ≤ 101 }
    ensures exact { Gives M.view result
        (read_with M.step room (unwrap_or (option_map M.view before) M.empty) bytes.now) }
{
    let start = match before {
        Some(message) => message,
        None => M::empty(alloc),
    };
    merged(alloc, start, bytes, room)
}

/// Reads a message of a repeated field, and puts it behind the others.
pub fn read_on<M: Message>(
    alloc: Global,
    before: Repeated<M>,
    bytes: &[u8],
    room: u32,
) -> Result<Repeated<M>, ReadFault>
    requires room { room ≤ 101 }
    ensures exact { Gives (map M.view) result
        (with_another (map M.view before) (read_with M.step room M.empty bytes.now)) }
{
    let message = merged(alloc, M::empty(alloc), bytes, room)?;
    let mut messages = before.into_vec();
    // A list of one takes the room of one: most lists of groups, scopes and events have no second.
    if messages.is_empty() {
        messages.reserve_exact(1)?;
    }
    messages.push(message)?;
    Ok(Repeated::from_vec(messages))
}

/// A known message has its value and its faults by the same rules as a body, one level deeper. At depth 101 it is
/// refused. What is inside an attribute's value has a law of its own ([`crate::attribute_values_inside`]).
pub fn messages_inside<M: Message>()
    ensures { ReadsByFields M.step (read_with M.step) }
{}
