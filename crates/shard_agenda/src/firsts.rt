//! The first of the entries below each place, kept right where one entry changed.

ghost use Rattle.std.specs.Prelude.{◌≡◌, ◌<◌, ◌++◌, [], Some, IfNone, length};
ghost use Rattle.std.specs.Option.{option_to_list};
ghost use Rattle.shard_agenda.specs.Firsts.{precedes, first_of, first_below, IsRight, IsRightBut};

use crate::AgendaEntry;

/// Whether one entry stands before another.
fn precedes(a: &AgendaEntry, b: &AgendaEntry) -> bool
    ensures { result ≡ precedes a.now b.now }
{
    match (a.ready, b.ready) {
        (None, None) => a.tenant < b.tenant,
        (None, Some(_)) => false,
        (Some(_), None) => true,
        (Some(x), Some(y)) => x < y || x == y && a.tenant < b.tenant,
    }
}

/// The one that stands first.
fn first_of(a: AgendaEntry, b: Option<AgendaEntry>) -> AgendaEntry
    ensures { Some result ≡ first_of (Some a) b }
{
    match b {
        Some(b) if precedes(&b, &a) => b,
        _ => a,
    }
}

/// The first of a place's own entry and those below it, as the two places there tell.
fn first_below(entries: &[AgendaEntry], firsts: &[AgendaEntry], at: usize) -> AgendaEntry
    requires { at < length entries.now }
    ensures { Some result ≡ first_below entries.now firsts.now at }
{
    let first = first_of(entries[at], firsts.get(2 * at + 1).copied());
    first_of(first, firsts.get(2 * at + 2).copied())
}

/// Sets right what was right but for this place and the one above it.
pub fn mend(entries: &[AgendaEntry], firsts: &mut [AgendaEntry], mut at: usize)
    requires within { at < length entries.now }
    requires even { length firsts.old ≡ length entries.now }
    requires right { IsRightBut at entries.now firsts.old }
    ensures { IsRight entries.now firsts.new }
{
    loop {
        firsts[at] = first_below(entries, firsts, at);
        if at == 0 {
            return;
        }
        at = (at - 1) / 2;
    }
}

/// Takes out the last entry, if there is one. It takes no memory and gives none back.
pub fn pop(entries: &mut Vec<AgendaEntry>, firsts: &mut Vec<AgendaEntry>) -> Option<AgendaEntry>
    requires even { length firsts.old.items ≡ length entries.old.items }
    requires right { IsRight entries.old.items firsts.old.items }
    ensures entries { entries.old.items ≡ entries.new.items ++ option_to_list result }
    ensures empty { IfNone result (entries.old.items ≡ []) }
    ensures even { length firsts.new.items ≡ length entries.new.items }
    ensures right { IsRight entries.new.items firsts.new.items }
{
    let Some(last) = entries.pop() else {
        return None;
    };
    let _first = firsts.pop();
    let count = entries.len();
    if count == 0 {
        return Some(last);
    }
    mend(entries.as_slice(), firsts.as_mut_slice(), (count - 1) / 2);
    Some(last)
}
