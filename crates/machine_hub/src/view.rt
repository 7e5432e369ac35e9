//! What contracts and seats know of a machine with a log. No value of these is made: a `LinkedList` is a list there.

use crate::entry::Entry;
use std::collections::LinkedList;

// A machine with its log: its number, its state, the entries, whether the log keeps, whether it is stopped, the last
// step that was made, what happened since memory was first refused: steps, and calls that were refused memory; and the
// last call that came.
pub struct Standing<M, S, O, C> {
    pub number: u64,
    pub machine: M,
    pub entries: LinkedList<Entry<S, O>>,
    pub keeps: bool,
    pub stopped: bool,
    pub last: Option<Entry<S, O>>,
    pub later: LinkedList<Result<Entry<S, O>, C>>,
    pub asked: Option<C>,
}

// Which machine it is, what it was at first, and whether its log keeps.
pub struct Home<M> {
    pub number: u64,
    pub start: M,
    pub keeps: bool,
}

// What a seat knows: its parts of the right to know the whole, the machine's home, the machine while the seat has it
// out, its calls that came before memory was refused, each with its position, those that came after that, how many
// these are, how many were refused memory, and which, each with its position among these.
pub struct SlotView<M, S, O, C> {
    pub parts: u64,
    pub home: Home<M>,
    pub held: Option<Standing<M, S, O, C>>,
    pub calls: LinkedList<(u64, Entry<S, O>)>,
    pub late: LinkedList<(u64, Entry<S, O>)>,
    pub bare: u64,
    pub refused: u64,
    pub lost: LinkedList<(u64, C)>,
}
