//! Replays requests over the shards of a `foyer_core::CacheCore`, and counts the replies.
#![tactic(auto)]

pub mod cache;
pub mod counts;
pub mod request;
pub mod run;
pub mod serving;

pub use cache::{ReplayConfig, ReplayCore};
pub use counts::Counts;
pub use request::{Operation, Outcome, Request, RequestWeighter, Requests};
pub use run::replay;
pub use serving::Departures;
