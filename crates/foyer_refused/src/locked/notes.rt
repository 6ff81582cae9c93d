//! What a listener and a pipe hear, written down without asking for memory.

use foyer_core::{CacheProperties, Piece};
use foyer_policy::{Event, EventListener};
use foyer_raw::Pipe;
use foyer_session::SimValue;
use futures::future::{Ready, ready};
use std::alloc::{AllocError, Global};
use std::cell::RefCell;
use std::rc::Rc;

/// What was heard of a key.
#[derive(Clone, Copy, PartialEq, Eq)]
pub enum Note {
    /// Its record left, for this reason.
    Left(Event, u64),
    /// Its piece went through the pipe.
    Piece(u64),
    /// So many pieces were flushed together.
    Flushed(usize),
}

/// What was heard, in order, by all who have a share of it.
#[derive(Drop)]
pub struct Notes(Rc<RefCell<Vec<Note>>>);

// More notes than a call makes.
const ROOM: usize = 64;

impl Notes {
    /// Nothing was heard yet, and there is room for all that will be.
    pub fn new(alloc: Global) -> Result<Self, AllocError> {
        let notes = Vec::with_capacity(alloc, ROOM)?;
        match Rc::new(alloc, RefCell::new(notes)) {
            Ok(notes) => Ok(Notes(notes)),
            Err(_) => Err(AllocError),
        }
    }

    /// The same notes again.
    pub fn share(&self) -> Result<Self, AllocError> {
        Ok(Notes(self.0.clone()?))
    }

    // Writes one more, where there is room.
    fn write(&self, note: Note) {
        if let Ok(mut notes) = self.0.try_borrow_mut() {
            if notes.len() < ROOM {
                let _ = notes.push(note);
            }
        }
    }

    /// How many were heard.
    pub fn len(&self) -> usize {
        match self.0.try_borrow_mut() {
            Ok(notes) => notes.len(),
            Err(_) => 0,
        }
    }

    /// The one at this place.
    pub fn at(&self, place: usize) -> Option<Note> {
        match self.0.try_borrow_mut() {
            Ok(notes) => notes.get(place).copied(),
            Err(_) => None,
        }
    }

    /// Forgets them.
    pub fn forget(&self) {
        if let Ok(mut notes) = self.0.try_borrow_mut() {
            notes.clear();
        }
    }
}

/// A listener that writes leaves down.
#[derive(Drop)]
pub struct Ear(pub Notes);

impl EventListener for Ear {
    type Key = u64;

    type Value = SimValue;

    fn on_leave(&self, event: Event, key: &u64, _value: &SimValue) {
        self.0.write(Note::Left(event, *key));
    }
}

/// A pipe that is enabled and writes pieces down.
#[derive(Drop)]
pub struct Tube(pub Notes);

impl Pipe for Tube {
    type Key = u64;

    type Value = SimValue;

    type Properties = CacheProperties;

    type Flush = Ready<()>;

    fn is_enabled(&self) -> bool {
        true
    }

    fn send(&self, piece: Piece<u64, SimValue, CacheProperties>) {
        self.0.write(Note::Piece(*piece.key()));
    }

    fn flush(&self, pieces: Vec<Piece<u64, SimValue, CacheProperties>>) -> Ready<()> {
        for piece in pieces.as_slice() {
            self.0.write(Note::Piece(*piece.key()));
        }
        self.0.write(Note::Flushed(pieces.len()));
        ready(())
    }
}
