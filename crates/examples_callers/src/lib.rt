//! Callers of the libraries, each proved from their public contracts alone.
#![tactic(auto)]

pub mod cache;
pub mod memory;
pub mod policy;
pub mod session;
