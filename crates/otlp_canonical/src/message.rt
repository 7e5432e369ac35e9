//! Messages inside others, resources and scopes.

ghost use Rattle.std.specs.Prelude.{◌≡◌, ◌<◌, ℕ, List, option_map, IfSome};
ghost use Rattle.std.specs.List.{AllByRecursion};
ghost use Rattle.otlp_trace.specs.Data.{KeyValueData, ResourceData, ScopeData};
ghost use Rattle.otlp_trace.specs.Text.{embedded, repeated, key_value_text, resource_text, scope_text};
ghost use Rattle.otlp_canonical.specs.Parts.{Whole, Front};
ghost use Rattle.otlp_canonical.specs.Sound.{SoundKeyValue, SoundResource, SoundScope};

use crate::field::{begins, bytes_field, some_number, some_string};
use crate::unknown::unknown;
use crate::value::key_value;
use otlp_trace::{InstrumentationScope, KeyValue, Resource};

/// A message of which it can be found out whether a text is its canonical text.
pub trait Canonical {
    ghost Data: { Type 0 };

    ghost write: { Data → List ℕ };

    ghost sound: { ℕ → Data → Type 0 };

    /// Goes over the text where it is canonical, with room for so many levels, the message's own among them.
    fn check(text: &[u8], room: u32) -> Option<()>
        ensures { IfSome result (λ u. Whole write (sound room) text.now) };
}

/// What stands behind the messages of a repeated field.
pub fn each<M: Canonical>(text: &[u8], number: u8, room: u32) -> Option<&[u8]>
    requires fits { number < 16 }
    ensures { IfSome result (λ rest.
        Front (repeated number M.write) (AllByRecursion (M.sound room)) text.now rest.now) }
{
    let mut left = text;
    'messages: while begins(left, number) {
        let (message, rest) = bytes_field(left, number)?;
        M::check(message, room)?;
        left = rest;
    }
    Some(left)
}

/// What stands behind an embedded message, where there is one.
pub fn some_message<M: Canonical>(text: &[u8], number: u8, room: u32) -> Option<&[u8]>
    requires fits { number < 16 }
    ensures { IfSome result (λ rest.
        Front (λ o. embedded number (option_map M.write o)) (λ o. IfSome o (M.sound room)) text.now
        rest.now) }
{
    if !begins(text, number) {
        return Some(text);
    }
    let (message, rest) = bytes_field(text, number)?;
    M::check(message, room)?;
    Some(rest)
}

impl Canonical for KeyValue {
    ghost Data = { KeyValueData };

    ghost write = { key_value_text };

    ghost sound = { SoundKeyValue };

    #[inline(always)]
    fn check(text: &[u8], room: u32) -> Option<()> {
        key_value(text, room)
    }
}

impl Canonical for Resource {
    ghost Data = { ResourceData };

    ghost write = { resource_text };

    ghost sound = { SoundResource };

    fn check(text: &[u8], room: u32) -> Option<()> {
        if room == 0 {
            return None;
        }
        let attributes = each::<KeyValue>(text, 1, room - 1)?;
        let count = some_number(attributes, 2)?;
        unknown::<Resource>(count, room - 1)?;
        Some(())
    }
}

impl Canonical for InstrumentationScope {
    ghost Data = { ScopeData };

    ghost write = { scope_text };

    ghost sound = { SoundScope };

    fn check(text: &[u8], room: u32) -> Option<()> {
        if room == 0 {
            return None;
        }
        let name = some_string(text, 1)?;
        let version = some_string(name, 2)?;
        let attributes = each::<KeyValue>(version, 3, room - 1)?;
        let count = some_number(attributes, 4)?;
        unknown::<InstrumentationScope>(count, room - 1)?;
        Some(())
    }
}
