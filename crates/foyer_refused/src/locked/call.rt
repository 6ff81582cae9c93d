//! The calls of a cache behind locks, and what each of them answers.

use super::Runtime;
use super::caches::{Entry, Locked, Search, Shared};
use crate::call::Kept;
use crate::cores::weighing;
use foyer_core::{CacheProperties, FetchTarget};
use foyer_memory::Replaced;
use foyer_policy::{Error, Properties, Reason, Result};
use foyer_raw::ListSpawner;
use futures::Future;
use futures::future::ready;
use futures::task::{Context, Poll};

/// A call. Each has its key, and inserts their weight.
#[derive(Clone, Copy)]
pub enum Call {
    Insert(u64, usize),
    Put(u64, usize),
    PutPhantom(u64),
    /// The key 5 has the held entry's record, and another key none.
    Replace(u64, usize),
    /// Nothing is seen of a key that has a record.
    Changed(u64),
    Fit(u64, usize),
    SetExpires(u64),
    Phantom(u64),
    Piece(u64),
    Get(u64),
    /// A value of this weight is made where the key is missing.
    Make(u64, usize),
    FetchBlocking(u64),
    Remove(u64),
    Delete(u64),
    RemoveThis,
    Read(u64),
    Peek(u64),
    Copied(u64),
    Cloned(u64),
    Touch(u64),
    Contains(u64),
    Fetch(u64),
    Complete,
    CompletePiece(u64),
    Fail,
    Cancel,
    Resize(usize),
    EvictAll,
    Clear,
    Flush,
    FlushIf,
    Reconfigure,
    CloneCache,
    CloneEntry,
    TakePiece,
}

/// What a call answered.
#[derive(Drop)]
pub enum Answer<H: Runtime> {
    Done,
    /// Entries of one record: of the caller and of those who waited.
    Entries([Option<Entry<H>>; 3]),
    /// A look-up that waits.
    Search(Search<H>),
    Piece(Kept),
    Cache(Shared<H>),
    /// Another one than can be.
    Odd,
}

impl<H: Runtime> Answer<H> {
    // The entry of the caller alone.
    fn one(entry: Entry<H>) -> Self {
        Answer::Entries([Some(entry), None, None])
    }
}

/// Makes a call.
pub fn make<H: Runtime>(
    cx: &mut Context<'_>,
    locked: &mut Locked<H>,
    call: Call,
) -> Result<Answer<H>> {
    let cache = &locked.cache;
    match call {
        Call::Resize(capacity) => cache.resize(0, capacity)?,
        Call::EvictAll => cache.evict_all(0)?,
        Call::Clear => cache.clear()?,
        Call::Flush => return flushed(cache.flush(0).poll(cx)),
        Call::FlushIf => return flushed(cache.flush_if(|key, _| *key % 2 == 0).poll(cx)),
        Call::Reconfigure => cache.reconfigure(locked.config.clone()?)?,
        Call::Complete | Call::CompletePiece(_) | Call::Fail | Call::Cancel => {
            return ended(cx, locked, call);
        }
        Call::CloneCache => return Ok(Answer::Cache(cache.try_clone()?)),
        Call::CloneEntry | Call::TakePiece | Call::RemoveThis => return asked(locked, call),
        Call::Insert(..) | Call::Phantom(_) | Call::Piece(_) => return inserted(cx, locked, call),
        Call::Replace(..) | Call::Fit(..) => return conditional(cx, locked, call),
        Call::Put(..) | Call::PutPhantom(_) => return put(cx, locked, call),
        Call::SetExpires(key) => return Ok(yes(cache.set_expires(0, &key, Some(1))?)),
        _ => return found(locked, call),
    }
    Ok(Answer::Done)
}

fn flushed<H: Runtime>(polled: Poll<Result<()>>) -> Result<Answer<H>> {
    match polled {
        Poll::Ready(done) => {
            done?;
            Ok(Answer::Done)
        }
        Poll::Pending => Ok(Answer::Odd),
    }
}

// Puts a record in. Those who wait are to be answered then.
fn inserted<H: Runtime>(
    cx: &mut Context<'_>,
    locked: &mut Locked<H>,
    call: Call,
) -> Result<Answer<H>> {
    let cache = &locked.cache;
    let made = match (call, &locked.piece) {
        (Call::Insert(key, weight), _) => cache.insert(0, key, weighing(weight))?,
        (Call::Phantom(key), _) => {
            let properties = CacheProperties::default().with_phantom(true);
            cache.insert_with_properties(0, key, weighing(1), properties)?
        }
        (_, Some(piece)) => cache.insert_piece(0, piece.clone()?)?,
        _ => return Ok(Answer::Odd),
    };
    Ok(with_waits(cx, locked, Some(made)))
}

// The same, if the key has what was seen, or if the record fits.
fn conditional<H: Runtime>(
    cx: &mut Context<'_>,
    locked: &mut Locked<H>,
    call: Call,
) -> Result<Answer<H>> {
    let (cache, properties) = (&locked.cache, CacheProperties::default());
    let made = match call {
        Call::Replace(key, weight) => {
            let seen = if key == 5 { locked.held.as_ref() } else { None };
            match cache.replace_if(0, seen, key, weighing(weight), properties)? {
                Replaced::Inserted(entry) => Some(entry),
                Replaced::Changed(_) => None,
            }
        }
        Call::Fit(key, weight) => cache.insert_if_fits(0, key, weighing(weight), properties)?,
        _ => None,
    };
    match (made, call) {
        (Some(made), _) => Ok(with_waits(cx, locked, Some(made))),
        (None, Call::Fit(_, weight)) => Ok(yes(weight > 12)),
        _ => Ok(Answer::Odd),
    }
}

// The same without an entry.
fn put<H: Runtime>(cx: &mut Context<'_>, locked: &mut Locked<H>, call: Call) -> Result<Answer<H>> {
    let cache = &locked.cache;
    match call {
        Call::Put(key, weight) => cache.put(0, key, weighing(weight))?,
        Call::PutPhantom(key) => {
            let properties = CacheProperties::default().with_phantom(true);
            cache.put_with_properties(0, key, weighing(1), properties)?;
        }
        _ => return Ok(Answer::Odd),
    }
    Ok(with_waits(cx, locked, None))
}

// An entry that was made, and those of the two who waited.
fn with_waits<H: Runtime>(
    cx: &mut Context<'_>,
    locked: &mut Locked<H>,
    made: Option<Entry<H>>,
) -> Answer<H> {
    let Some((mut one, mut other)) = locked.waits.take() else {
        return Answer::Entries([made, None, None]);
    };
    match (one.poll(cx), other.poll(cx)) {
        (Poll::Ready(Ok(one)), Poll::Ready(Ok(other))) => {
            Answer::Entries([made, Some(one), Some(other)])
        }
        _ => Answer::Odd,
    }
}

// Looks a key up.
fn found<H: Runtime>(locked: &mut Locked<H>, call: Call) -> Result<Answer<H>> {
    let entry = match call {
        Call::Get(key) => locked.cache.get(0, &key)?,
        Call::Make(key, weight) => Some(made(&locked.cache, key, weight)?),
        Call::FetchBlocking(key) => {
            let fetch = ready(Ok(FetchTarget::from(weighing(1))));
            Some(locked.cache.get_or_fetch_blocking(0, &key, fetch)?)
        }
        Call::Remove(key) => locked.cache.remove(&key)?,
        Call::Changed(key) => {
            let properties = CacheProperties::default();
            match locked
                .cache
                .replace_if(0, None, key, weighing(2), properties)?
            {
                Replaced::Inserted(_) => None,
                Replaced::Changed(found) => found,
            }
        }
        Call::Touch(key) => return Ok(yes(locked.cache.touch(0, &key)?)),
        Call::Delete(key) => return Ok(yes(locked.cache.delete(&key)?)),
        Call::Read(_) | Call::Peek(_) | Call::Copied(_) | Call::Cloned(_) => {
            return seen(&locked.cache, call);
        }
        Call::Contains(key) => return Ok(yes(locked.cache.contains(0, &key))),
        Call::Fetch(key) => match locked.ask(&key, call)?.try_unwrap() {
            Ok(hit) => Some(hit?),
            Err(search) => return Ok(Answer::Search(search)),
        },
        _ => None,
    };
    match entry {
        Some(entry) => Ok(Answer::one(entry)),
        None => Ok(Answer::Odd),
    }
}

// Makes a value that brings its properties.
fn made<H: Runtime>(cache: &Shared<H>, key: u64, weight: usize) -> Result<Entry<H>> {
    let properties = CacheProperties::default().with_expiry(Some(1));
    cache.get_or_insert_with_properties(0, &key, || Ok((weighing(weight), properties)))
}

// Looks at the value of a key, without an entry.
fn seen<H: Runtime>(cache: &Shared<H>, call: Call) -> Result<Answer<H>> {
    let value = match call {
        Call::Read(key) => cache.read(0, &key, |value| *value)?,
        Call::Peek(key) => cache.peek(0, &key, |value| *value),
        Call::Copied(key) => cache.get_copied(0, &key)?,
        Call::Cloned(key) => cache.get_cloned(0, &key)?,
        _ => None,
    };
    Ok(yes(value == Some(weighing(1))))
}

fn yes<H: Runtime>(is_so: bool) -> Answer<H> {
    if is_so { Answer::Done } else { Answer::Odd }
}

// Asks the held entry for one more, or for a piece, or has its record removed.
fn asked<H: Runtime>(locked: &Locked<H>, call: Call) -> Result<Answer<H>> {
    let Some(held) = &locked.held else {
        return Ok(Answer::Odd);
    };
    match call {
        Call::CloneEntry => Ok(Answer::one(held.try_clone()?)),
        Call::RemoveThis => Ok(yes(locked.cache.remove_this(held))),
        _ => Ok(Answer::Piece(held.piece()?)),
    }
}

// Ends the fetch of `FETCHED`, for which two wait: by its task, or without it. Where no fetch is open, two ask first.
// Both get the same; a fault of the fetch is no refusal here.
fn ended<H: Runtime>(
    cx: &mut Context<'_>,
    locked: &mut Locked<H>,
    call: Call,
) -> Result<Answer<H>> {
    if locked.waits.is_none() {
        locked.ask_twice(call)?;
    }
    let Some((mut one, mut other)) = locked.waits.take() else {
        return Ok(Answer::Odd);
    };
    if let Call::Cancel = call {
        locked.tasks = ListSpawner::new(locked.rt.alloc());
    } else if locked.tasks.poll_all(cx) > 0 {
        return Ok(Answer::Odd);
    }
    match (one.poll(cx), other.poll(cx)) {
        (Poll::Ready(Ok(one)), Poll::Ready(Ok(other))) => {
            Ok(Answer::Entries([Some(one), Some(other), None]))
        }
        (Poll::Ready(Err(one)), Poll::Ready(Err(other))) => refused(call, one, other),
        _ => Ok(Answer::Odd),
    }
}

// What both who waited were refused with.
fn refused<H: Runtime>(call: Call, one: Error, other: Error) -> Result<Answer<H>> {
    if one.number() != other.number() {
        return Ok(Answer::Odd);
    }
    match (call, one.number()) {
        (Call::Fail, 11) | (Call::Cancel, 15) => Ok(Answer::Done),
        _ => Err(one),
    }
}
