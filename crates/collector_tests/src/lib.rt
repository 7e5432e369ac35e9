//! Tests of a shard (`tenant_shard`) and its replay (`replay_script`, `trace_collector`), over public functions: what
//! no script can tell of a shard's members, runs in which memory is refused, readers and writers that fail, bodies of
//! Protocol Buffers' own libraries (tests/otlp), and what the definitions say of small runs and scripts that were
//! worked out by hand.
#![tactic(auto)]

#[cfg(test)]
mod bodies;
#[cfg(test)]
mod definitions;
#[cfg(test)]
mod lines;
#[cfg(test)]
mod members;
#[cfg(test)]
mod piecemeal;
#[cfg(test)]
mod queue_bytes;
#[cfg(test)]
mod refused;
#[cfg(test)]
mod sections;
