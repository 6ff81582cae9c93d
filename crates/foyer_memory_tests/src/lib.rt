//! Tests of `foyer_memory` through its public calls alone, which are run and not proved.
#![tactic(auto)]

#[cfg(test)]
mod build;
#[cfg(test)]
mod calls;
#[cfg(test)]
mod compare;
#[cfg(test)]
mod fetches;
#[cfg(test)]
mod guide;
#[cfg(test)]
mod made;
#[cfg(test)]
mod moments;
#[cfg(test)]
mod no_entry;
#[cfg(test)]
mod of;
#[cfg(test)]
mod pieces;
#[cfg(test)]
mod policies;
#[cfg(test)]
mod reconfigure;
#[cfg(test)]
mod testing;
#[cfg(test)]
mod threads;
#[cfg(test)]
mod waits;
#[cfg(test)]
mod weights;
