//! Tests of what is prepared of a body (`otlp_prepare`) and of notes that are made in several threads (`tail_notes`),
//! over public functions. Bodies and spans were worked out by hand, by the Protocol Buffers encoding guide
//! (<https://protobuf.dev/programming-guides/encoding/>) and the field numbers of opentelemetry-proto, or come from
//! Protocol Buffers' own libraries (tests/otlp).
#![tactic(auto)]

#[cfg(test)]
mod bodies;
#[cfg(test)]
mod equal;
#[cfg(test)]
mod gate;
#[cfg(test)]
mod listed;
#[cfg(test)]
mod many;
#[cfg(test)]
mod notes;
#[cfg(test)]
mod sections;
#[cfg(test)]
mod texts;
