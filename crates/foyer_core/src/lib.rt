//! A cache for one thread: records, the index, one shard and the sharded core.
#![tactic(auto)]

pub mod cache_core;
pub mod config;
pub mod entry;
pub mod filter;
pub mod finder;
pub mod hold;
pub mod indexer;
pub mod inflight;
pub mod outcome;
pub mod piece;
mod prefetch;
pub mod properties;
pub mod record;
mod records;
pub mod rules;
pub mod shard;
mod share;
mod slot;
mod slots;
pub mod stats;
mod store;
pub mod tags;
pub mod weighter;

pub use cache_core::{CacheCore, shard_capacity, shard_of};
pub use config::RawCacheConfig;
pub use entry::{CoreEntry, Leave, Left};
pub use filter::{AdmitAll, Filter};
pub use finder::{Finder, Indexed, TagFinder};
pub use hold::{Hold, RecordRef};
pub use indexer::{HashTableIndexer, Indexer, Sentry};
pub use inflight::{Enqueue, FetchOrTake, InflightManager};
pub use outcome::{
    Answers, Ended, FetchTarget, Foreign, Got, Inserted, InsertedOnto, Lookup, Outcome, PutOnto,
    Refused, ReplaceResult, Waiting,
};
pub use piece::Piece;
pub use properties::{CacheProperties, marked};
pub use record::{Data, Flags, Limits, Record};
pub use rules::Rules;
pub use shard::Shard;
pub use share::Share;
pub use stats::{Counted, Stats};
pub use tags::Tags;
pub use weighter::{UnitWeighter, Weighter};
