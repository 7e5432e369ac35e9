//! What a pass of the queue knows.

use crate::job::Job;
use std::collections::LinkedList;

// Its parts of the right to know the whole, how many parts there are, and its pushes and pops, each job with its
// number. No value of it is made: it stands in clauses alone, where a `LinkedList` is a list.
pub struct SeatView {
    pub parts: u64,
    pub whole: u64,
    pub pushes: LinkedList<(u64, Job)>,
    pub pops: LinkedList<(u64, Job)>,
}
