//! Calls by which records may leave.

use crate::cache::{Cache, Fetch, Led, target};
use crate::case::{Failure, Outcome, Runtime, same};
use foyer_core::{CacheProperties, Piece};
use foyer_memory::Replaced;
use futures::Future;
use futures::future::FutureExt;

/// A record that was removed, for calls that insert one.
pub type Removed = Piece<u64, u64, CacheProperties>;

/// A call by which records may leave.
#[derive(Clone, Copy)]
pub enum Call {
    Insert,
    Put,
    ReplaceIf,
    InsertIfFits,
    InsertPiece,
    Fetch,
    Resize(usize),
    EvictAll,
    Flush,
    /// A `flush_if` of even keys.
    FlushEven,
    Clear,
}

impl Call {
    /// Makes the call at a moment. If it inserts a record that is this piece's, or has its key and value.
    pub fn make<H: Runtime>(self, rt: H, cache: &Cache<H>, now: u64, piece: Removed) -> Outcome {
        let (key, value) = (*piece.key(), *piece.value());
        match self {
            Call::Insert => drop(cache.insert(now, key, value)?),
            Call::Put => cache.put(now, key, value)?,
            Call::ReplaceIf => {
                let replaced = cache.replace_if(now, None, key, value, CacheProperties::default())?;
                same(
                    rt,
                    "inserted",
                    &matches!(&replaced, Replaced::Inserted(_)),
                    &true,
                )?;
            }
            Call::InsertIfFits => {
                let made = cache.insert_if_fits(now, key, value, CacheProperties::default())?;
                same(rt, "inserted", &made.is_some(), &true)?;
            }
            Call::InsertPiece => drop(cache.insert_piece(now, piece)?),
            Call::Fetch => {
                let mut led = Led { task: None };
                let fetch = || Fetch::Now(Some(target(value)));
                let look = cache.get_or_fetch(now, &key, fetch, &mut led)?;
                at_once(rt, led.task.ok_or(Failure::Differs)?)?;
                same(rt, "fetched", &*at_once(rt, look)??, &value)?;
            }
            Call::Resize(capacity) => cache.resize(now, capacity)?,
            Call::EvictAll => cache.evict_all(now)?,
            Call::Flush => at_once(rt, cache.flush(now))??,
            Call::FlushEven => at_once(rt, cache.flush_if(|key, _| *key % 2 == 0))??,
            Call::Clear => cache.clear()?,
        }
        Ok(())
    }
}

/// What a future gives at its first poll.
pub fn at_once<H: Runtime, F: Future>(rt: H, mut future: F) -> Outcome<F::Output> {
    future.now_or_never(&rt)?.ok_or(Failure::Differs)
}
