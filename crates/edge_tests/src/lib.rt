//! Tests of `http_line`, `http_edge` and `otlp_front`, and of posts over a line: talks, connections and answers whose
//! bytes were worked out by hand, cut at every byte, and over lines that fail at every call.
#![tactic(auto)]

#[cfg(test)]
mod answer_tests;
#[cfg(test)]
mod answers;
#[cfg(test)]
mod attempts;
#[cfg(test)]
mod calls;
#[cfg(test)]
mod connections;
#[cfg(test)]
mod handlers;
#[cfg(test)]
mod lines;
#[cfg(test)]
mod names;
#[cfg(test)]
mod notation;
#[cfg(test)]
mod talk_tests;
#[cfg(test)]
mod talks;
#[cfg(test)]
mod ways;
