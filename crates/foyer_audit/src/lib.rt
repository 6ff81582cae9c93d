//! One shard of a cache with the history of its calls, which a single thread could have made: a `Book` for one
//! thread, and an `AuditedShard` under a lock, whose callers account for their calls.
#![tactic(auto)]

mod accounts;
pub mod audited;
pub mod book;
pub mod compared;
pub mod receipt;

pub use audited::{AuditedShard, Closed};
pub use book::Book;
pub use compared::Compared;
pub use receipt::{Receipt, Share};
