//! Tests of `foyer_session` through its public calls alone: what no contract says, and an example of each command that
//! no line of a script gives.
#![tactic(auto)]

#[cfg(test)]
mod failures;
#[cfg(test)]
mod flushes;
#[cfg(test)]
mod session;
#[cfg(test)]
mod sim;
#[cfg(test)]
mod streams;
