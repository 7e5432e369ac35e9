//! Tests of what reads and writes OTLP's traces, over public functions: `pb_wire`, `otlp_trace`, `otlp_read`,
//! `otlp_canonical`, `otlp_parts` and `text_slice`. Texts are those of the Protocol Buffers encoding guide
//! (<https://protobuf.dev/programming-guides/encoding/>), were spelled by hand by it and by the field numbers of
//! opentelemetry-proto, or come from Protocol Buffers' own libraries (tests/otlp).
#![tactic(auto)]

#[cfg(test)]
mod bodies;
#[cfg(test)]
mod canonical;
#[cfg(test)]
mod defaults;
#[cfg(test)]
mod definitions;
#[cfg(test)]
mod listed;
#[cfg(test)]
mod memory;
#[cfg(test)]
mod order;
#[cfg(test)]
mod parts;
#[cfg(test)]
mod places;
#[cfg(test)]
mod reading;
#[cfg(test)]
mod slices;
#[cfg(test)]
mod texts;
#[cfg(test)]
mod wire;
#[cfg(test)]
mod writers;
