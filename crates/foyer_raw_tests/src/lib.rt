//! Tests of `foyer_raw` through its public calls alone, and what writes down for them. They stand in a crate of their
//! own: a library with tests beside its code would be proved once more for them.
#![tactic(auto)]

#[cfg(test)]
mod bulk;
#[cfg(test)]
mod caller;
#[cfg(test)]
mod calls;
#[cfg(test)]
mod collisions;
#[cfg(test)]
mod conditional;
#[cfg(test)]
mod fetches;
#[cfg(test)]
mod leaves;
#[cfg(test)]
mod limits;
#[cfg(test)]
mod moments;
#[cfg(test)]
mod no_entry;
pub mod notes;
#[cfg(test)]
mod races;
#[cfg(test)]
mod reconfigure;
#[cfg(test)]
mod testing;
#[cfg(test)]
mod threads;
