//! How often a listener and a pipe were told each key.

use foyer_core::{CacheProperties, Piece};
use foyer_policy::{Event, EventListener};
use foyer_raw::Pipe;
use futures::future::{Ready, ready};
use std::alloc::{AllocError, Global};
use std::sync::Arc;
use std::sync::atomic::{AtomicU64, Ordering};

/// How many keys were told as each kind, each key counted once; and how often a key was told as what it had been told
/// before.
#[derive(Clone, Copy, Debug, Default, PartialEq, Eq)]
pub struct Told {
    pub evicted: u64,
    pub replaced: u64,
    pub removed: u64,
    pub cleared: u64,
    /// Through the pipe.
    pub pieces: u64,
    /// More often than once.
    pub again: u64,
}

impl Told {
    /// So many were evicted, and their pieces went through the pipe.
    pub fn evicted(count: u64) -> Told {
        Told {
            evicted: count,
            pieces: count,
            ..Told::default()
        }
    }

    /// So many were cleared.
    pub fn cleared(count: u64) -> Told {
        Told {
            cleared: count,
            ..Told::default()
        }
    }

    /// So many were removed.
    pub fn removed(count: u64) -> Told {
        Told {
            removed: count,
            ..Told::default()
        }
    }
}

// How often one key was told.
#[derive(Drop)]
struct Tally {
    evicted: AtomicU64,
    replaced: AtomicU64,
    removed: AtomicU64,
    cleared: AtomicU64,
    pieces: AtomicU64,
    // When it was told last, by the number of what was told.
    turn: AtomicU64,
}

impl Tally {
    fn new() -> Tally {
        Tally {
            evicted: AtomicU64::new(0),
            replaced: AtomicU64::new(0),
            removed: AtomicU64::new(0),
            cleared: AtomicU64::new(0),
            pieces: AtomicU64::new(0),
            turn: AtomicU64::new(u64::MAX),
        }
    }
}

// How often each key was told, and how much was told together.
#[derive(Drop)]
struct Tallies {
    keys: Vec<Tally>,
    turns: AtomicU64,
}

/// How often each key was told, for all who have a share of it.
#[derive(Drop)]
pub struct Heard(Arc<Tallies, Global>);

impl Heard {
    /// Nothing was told yet of the keys below this number. Of others nothing is counted.
    pub fn new(alloc: Global, keys: u64) -> Result<Self, AllocError> {
        let mut tallies = Tallies {
            keys: Vec::new(alloc),
            turns: AtomicU64::new(0),
        };
        for _ in 0..keys {
            tallies.keys.push(Tally::new()).map_err(|_| AllocError)?;
        }
        Ok(Heard(Arc::new(alloc, tallies).map_err(|_| AllocError)?))
    }

    /// The same counts again.
    pub fn share(&self) -> Result<Self, AllocError> {
        Ok(Heard(Arc::try_clone(&self.0)?))
    }

    /// What was told since this was asked last.
    pub fn take(&self) -> Told {
        let mut told = Told::default();
        self.0.turns.store(0, Ordering::SeqCst);
        for tally in self.0.keys.iter() {
            tally.turn.store(u64::MAX, Ordering::SeqCst);
            let Tally {
                evicted,
                replaced,
                removed,
                cleared,
                pieces,
                turn: _,
            } = tally;
            for (count, keys) in [
                (evicted, &mut told.evicted),
                (replaced, &mut told.replaced),
                (removed, &mut told.removed),
                (cleared, &mut told.cleared),
                (pieces, &mut told.pieces),
            ] {
                let times = count.swap(0, Ordering::SeqCst);
                *keys += times.min(1);
                told.again += times.saturating_sub(1);
            }
        }
        told
    }

    /// How many even keys left before the first odd one.
    pub fn evens_first(&self) -> u64 {
        let turn = |key: &usize| match self.0.keys.get(*key) {
            Some(tally) => tally.turn.load(Ordering::SeqCst),
            None => u64::MAX,
        };
        let keys = self.0.keys.len();
        let first_odd = (1..keys)
            .step_by(2)
            .map(|key| turn(&key))
            .min()
            .unwrap_or(u64::MAX);
        (0..keys)
            .step_by(2)
            .filter(|key| turn(key) < first_odd)
            .count() as u64
    }

    fn of(&self, key: u64) -> Option<&Tally> {
        self.0.keys.get(key as usize)
    }

    fn piece(&self, key: u64) {
        if let Some(tally) = self.of(key) {
            tally.pieces.fetch_add(1, Ordering::SeqCst);
        }
    }
}

/// A listener that counts.
#[derive(Drop)]
pub struct Ear(pub Heard);

impl EventListener for Ear {
    type Key = u64;

    type Value = u64;

    fn on_leave(&self, event: Event, key: &u64, _value: &u64) {
        let Some(tally) = self.0.of(*key) else {
            return;
        };
        let count = match event {
            Event::Evict => &tally.evicted,
            Event::Replace => &tally.replaced,
            Event::Remove => &tally.removed,
            Event::Clear => &tally.cleared,
        };
        count.fetch_add(1, Ordering::SeqCst);
        let turn = self.0.0.turns.fetch_add(1, Ordering::SeqCst);
        tally.turn.store(turn, Ordering::SeqCst);
    }
}

/// An enabled pipe that counts.
#[derive(Drop)]
pub struct Tube(pub Heard);

impl Pipe for Tube {
    type Key = u64;

    type Value = u64;

    type Properties = CacheProperties;

    type Flush = Ready<()>;

    fn is_enabled(&self) -> bool {
        true
    }

    fn send(&self, piece: Piece<u64, u64, CacheProperties>) {
        self.0.piece(*piece.key());
    }

    fn flush(&self, pieces: Vec<Piece<u64, u64, CacheProperties>>) -> Ready<()> {
        for piece in pieces.as_slice() {
            self.0.piece(*piece.key());
        }
        ready(())
    }
}
