//! Tests of `foyer_audit` through its public calls alone.
#![tactic(auto)]

#[cfg(test)]
mod audited;
#[cfg(test)]
mod book;
#[cfg(test)]
mod testing;
