//! What a listener and a pipe hear, written down: for these tests, and for those of `foyer_memory`.

ghost use Rattle.std.specs.Prelude.{IsSome};

use foyer_core::{CacheProperties, Piece};
use foyer_policy::{Event, EventListener};
use foyer_raw::Pipe;
use futures::future::{Ready, ready};
use std::alloc::{AllocError, Global};
use std::cell::RefCell;
use std::rc::Rc;

/// What was heard of a key and a value.
#[derive(Clone, Copy, Debug, PartialEq, Eq)]
pub enum Note {
    /// It was evicted.
    Evict(u32, u64),
    /// It was replaced.
    Replace(u32, u64),
    /// It was removed.
    Remove(u32, u64),
    /// It left with all others.
    Clear(u32, u64),
    /// Its piece went through the pipe.
    Piece(u32, u64),
    /// So many pieces were flushed.
    Flush(usize),
}

impl Note {
    /// Of a leave with this reason.
    pub fn of(event: Event, key: &u32, value: &u64) -> Self {
        match event {
            Event::Evict => Note::Evict(*key, *value),
            Event::Replace => Note::Replace(*key, *value),
            Event::Remove => Note::Remove(*key, *value),
            Event::Clear => Note::Clear(*key, *value),
        }
    }
}

/// What was heard, in order, by all who have a share of it.
#[derive(Drop)]
pub struct Notes(Rc<RefCell<Vec<Note>>>);

impl Notes {
    /// Nothing was heard yet.
    pub fn new(alloc: Global) -> Result<Self, AllocError> {
        match Rc::new(alloc, RefCell::new(Vec::new(alloc))) {
            Ok(notes) => Ok(Notes(notes)),
            Err(_) => Err(AllocError),
        }
    }

    /// The same notes again.
    pub fn share(&self) -> Result<Self, AllocError> {
        Ok(Notes(self.0.clone()?))
    }

    /// Writes one more. A note for which there is no memory is lost.
    pub fn write(&self, note: Note) {
        if let Ok(mut notes) = self.0.try_borrow_mut() {
            let _ = notes.push(note);
        }
    }

    /// Whether just these were heard, in this order.
    pub fn are(&self, wanted: &[Note]) -> bool {
        match self.0.try_borrow_mut() {
            Ok(notes) => notes.as_slice() == wanted,
            Err(_) => false,
        }
    }

    /// Forgets them.
    pub fn forget(&self) {
        if let Ok(mut notes) = self.0.try_borrow_mut() {
            notes.clear();
        }
    }
}

/// A listener that writes leaves down.
#[derive(Drop)]
pub struct Ear(pub Notes);

impl EventListener for Ear {
    type Key = u32;

    type Value = u64;

    fn on_leave(&self, event: Event, key: &u32, value: &u64) {
        self.0.write(Note::of(event, key, value));
    }
}

/// A pipe that writes pieces down, be it enabled or not.
#[derive(Drop)]
pub struct Tube {
    pub notes: Notes,
    pub enabled: bool,
}

impl Pipe for Tube {
    type Key = u32;

    type Value = u64;

    type Properties = CacheProperties;

    type Flush = Ready<()>;

    fn is_enabled(&self) -> bool {
        self.enabled
    }

    fn send(&self, piece: Piece<u32, u64, CacheProperties>) {
        self.notes.write(Note::Piece(*piece.key(), *piece.value()));
    }

    fn flush(&self, pieces: Vec<Piece<u32, u64, CacheProperties>>) -> Ready<()>
        ensures { IsSome result.0 }
    {
        for piece in pieces.as_slice() {
            self.notes.write(Note::Piece(*piece.key(), *piece.value()));
        }
        self.notes.write(Note::Flush(pieces.len()));
        ready(())
    }
}
