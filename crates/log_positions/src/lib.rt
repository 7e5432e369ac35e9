//! Items with their numbers: what each of several threads knows of one list that only grows.
//!
//! Threads that share a queue, or a log, each know some of what went through it, each item with its position. What is
//! to be said of them together is that nothing was lost, nothing came twice, and all stood in order. The definitions
//! for that are in `specs/Numbered`, over lists of (number, item) in the words of std (`enumerate_from`,
//! `IsPermutation`, `AllPairs`); there is no code here. The functions have no bodies: their clauses are laws over the
//! definitions.
//!
//! It stands on no other crate. Its `proofs/` have what the proofs of the crates above cite: `Numbered` on such lists,
//! `Gathered` on all that some holders have together, after one of them has more or one takes in another, and `Shares`
//! on a number that is cut into the holders' parts.
#![tactic(auto)]

ghost use Rattle.log_positions.specs.Law.{EachStandsOnce, RisingIsTheList};

/// What is all of a list has each of its items once, with its number: a law over the definitions.
pub fn each_stands_once<X>()
    ensures { EachStandsOnce X }
{}

/// What is all of a list, in rising order, is that list: a law over the definitions.
pub fn rising_is_the_list<X>()
    ensures { RisingIsTheList X }
{}
