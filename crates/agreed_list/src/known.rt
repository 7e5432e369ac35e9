//! What contracts know of a holder. No value of these is made: a `LinkedList` is a list there.

use std::collections::LinkedList;

// How many of the two halves are a holder's, and the list, as this half knows it and as the one does that came last.
pub struct Known<E> {
    pub parts: u64,
    pub one: LinkedList<E>,
    pub other: LinkedList<E>,
}
