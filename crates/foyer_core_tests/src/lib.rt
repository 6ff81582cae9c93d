//! Tests of `foyer_core` through its public calls alone: of what no contract says, and an example of each call.
#![tactic(auto)]

#[cfg(test)]
mod cache_core;
#[cfg(test)]
mod index;
#[cfg(test)]
mod inflight;
#[cfg(test)]
mod record;
pub mod refusing;
#[cfg(test)]
mod shard;
#[cfg(test)]
mod testing;
