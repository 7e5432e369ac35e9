//! Tests of what becomes of spans, over public functions, and examples of the definitions that say it: views of spans
//! and sampling policies, batches, what becomes of a batch that is sent, and the rules of a tenant's whole past.
//!
//! What they expect was worked out by hand, from OTLP, the encoding guide of Protocol Buffers and the documents of the
//! OpenTelemetry Collector's processors and of its exporterhelper.
#![tactic(auto)]

#[cfg(test)]
mod answers;
#[cfg(test)]
mod batch_text;
#[cfg(test)]
mod batcher;
#[cfg(test)]
mod ledgers;
#[cfg(test)]
mod lines;
#[cfg(test)]
mod notes;
#[cfg(test)]
mod policies;
#[cfg(test)]
mod refusals;
#[cfg(test)]
mod retries;
#[cfg(test)]
mod retry_settings;
#[cfg(test)]
mod rules;
#[cfg(test)]
mod senders;
#[cfg(test)]
mod views;
