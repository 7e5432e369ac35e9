//! Tests of the stores that all tenants of a shard share, over public functions. What they expect was worked out by
//! hand.
#![tactic(auto)]

#[cfg(test)]
mod agenda;
#[cfg(test)]
mod cached;
#[cfg(test)]
mod decisions;
#[cfg(test)]
mod load;
#[cfg(test)]
mod packed;
#[cfg(test)]
mod placed;
#[cfg(test)]
mod pool;
#[cfg(test)]
mod rows;
#[cfg(test)]
mod stores;
#[cfg(test)]
mod story;
#[cfg(test)]
mod texts;
