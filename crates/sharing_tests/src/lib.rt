//! Tests of what threads share: the lane of jobs, machines side by side, the words of tenants, and the shards of all
//! tenants.
#![tactic(auto)]

#[cfg(test)]
mod calls;
#[cfg(test)]
mod coming_tests;
#[cfg(test)]
mod counter;
#[cfg(test)]
mod gate_tests;
#[cfg(test)]
mod holding;
#[cfg(test)]
mod hub_tests;
#[cfg(test)]
mod lane_tests;
#[cfg(test)]
mod lane_thread_tests;
#[cfg(test)]
mod list_tests;
#[cfg(test)]
mod log_tests;
#[cfg(test)]
mod outcomes;
#[cfg(test)]
mod packed_tests;
#[cfg(test)]
mod story;
#[cfg(test)]
mod story_tests;
#[cfg(test)]
mod word_tests;
