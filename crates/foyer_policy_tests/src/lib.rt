//! Tests of `foyer_policy` through its public calls alone: what no contract says, and an example of each call.
#![tactic(auto)]

#[cfg(test)]
mod any;
#[cfg(test)]
mod config;
#[cfg(test)]
mod drops;
#[cfg(test)]
mod error;
#[cfg(test)]
mod ghost_queue;
#[cfg(test)]
mod hash;
#[cfg(test)]
mod json;
#[cfg(test)]
mod lists;
#[cfg(test)]
mod moments;
#[cfg(test)]
mod policies;
#[cfg(test)]
mod sketch;
#[cfg(test)]
mod victims;
#[cfg(test)]
mod weights;
