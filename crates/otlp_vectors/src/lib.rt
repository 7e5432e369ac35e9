//! Bodies of OTLP traces, replies and faulty bodies for tests, with the texts that Protocol Buffers' own libraries
//! give: those of tests/otlp, whose page tells how they were made.
#![tactic(auto)]

mod vectors;

pub use vectors::{FAULTS, RESPONSES, VECTORS};
