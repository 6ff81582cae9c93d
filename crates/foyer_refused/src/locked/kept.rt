//! What stands after a refused call of a cache behind locks and was told, and after the same call once more.

use super::Runtime;
use super::caches::{Locked, Search, look};
use super::call::{Answer, Call, make};
use super::notes::{Note, Notes};
use crate::cores::{FETCHED, Look};
use crate::kept::Filled;
use crate::word::Shown;
use foyer_policy::Event;
use futures::Future;
use futures::task::{Context, Poll};

/// What a call is to make of a cache.
#[derive(Clone, Copy)]
pub struct Wanted {
    /// The keys that leave, in order.
    pub leaves: &'static [u64],
    /// Why they do, and why the last one does.
    pub events: (Event, Event),
    /// Of how many at a time a refused call may have let go the first ones, and 0 where it may not.
    pub batch: usize,
    /// Whether all pieces go through the pipe at once, once all leaves are told.
    pub is_flush: bool,
    /// The capacity then.
    pub capacity: usize,
    /// The key and the weight of the record that comes in. Where none does, entries are of the key 5.
    pub enters: Option<(u64, usize)>,
    /// How many handles the record has of which entries are given, and 1 where a look-up waits.
    pub refs: usize,
}

impl Wanted {
    /// Nothing changes.
    pub fn same(filled: Filled) -> Wanted {
        Wanted {
            leaves: &[],
            events: (Event::Evict, Event::Evict),
            batch: 0,
            is_flush: false,
            capacity: filled.capacity,
            enters: None,
            refs: 1,
        }
    }

    /// A record of this weight comes in. Where the cache is full, the first of these are evicted for it.
    pub fn with(self, key: u64, weight: usize, victims: &'static [u64; 10]) -> Wanted {
        let evicts = if self.capacity == 12 { weight } else { 0 };
        Wanted {
            leaves: victims.get(..evicts).unwrap_or(&[]),
            batch: 1,
            enters: Some((key, weight)),
            ..self
        }
    }

    // The leave at this place.
    fn leave(&self, place: usize) -> Option<Note> {
        let key = self.leaves.get(place)?;
        let event = if place + 1 == self.leaves.len() {
            self.events.1
        } else {
            self.events.0
        };
        Some(Note::Left(event, *key))
    }

    /// How many of the leaves from this place on the notes tell, in order, where they tell nothing else.
    pub fn told(&self, notes: &Notes, at: usize) -> Option<usize> {
        if self.is_flush {
            return self.flushed(notes, at);
        }
        let mut place = 0;
        let mut gone = 0;
        while place < notes.len() {
            let leave = self.leave(at + gone);
            if leave.is_none() || notes.at(place) != leave {
                return None;
            }
            place += 1;
            if let Some(Note::Left(Event::Evict, key)) = leave {
                if notes.at(place) != Some(Note::Piece(key)) {
                    return None;
                }
                place += 1;
            }
            gone += 1;
        }
        Some(gone)
    }

    // The same of a flush.
    fn flushed(&self, notes: &Notes, at: usize) -> Option<usize> {
        let gone = notes.len() / 2;
        for place in 0..gone {
            let Some(Note::Left(event, key)) = self.leave(at + place) else {
                return None;
            };
            let told = notes.at(place) == Some(Note::Left(event, key));
            if !told || notes.at(gone + place) != Some(Note::Piece(key)) {
                return None;
            }
        }
        if notes.len() != 2 * gone + 1 || notes.at(2 * gone) != Some(Note::Flushed(gone)) {
            return None;
        }
        Some(gone)
    }

    // How a cache looks once so many more have left.
    fn without(&self, before: Look, at: usize, gone: usize) -> Look {
        let mut look = before;
        for key in self.leaves.iter().skip(at).take(gone) {
            look = look.without_key(*key);
        }
        look
    }
}

/// Makes a call until it is not refused, and compares what stands and what was told with what is wanted.
pub fn compared<H: Runtime>(
    cx: &mut Context<'_>,
    locked: &mut Locked<H>,
    call: Call,
    wanted: &Wanted,
) -> Shown {
    let before = look(&locked.cache);
    match make(cx, locked, call) {
        Ok(answer) => match settled(locked, before, 0, &answer, wanted) {
            Shown::Done => let_go(locked, call, answer).or_behind(locked.rt.alloc()),
            shown => shown,
        },
        Err(error) if error.number() == 7 => refused(cx, locked, call, before, wanted),
        Err(_) => Shown::Wrong("another refusal"),
    }
}

// The same behind a refusal.
fn refused<H: Runtime>(
    cx: &mut Context<'_>,
    locked: &mut Locked<H>,
    call: Call,
    before: Look,
    wanted: &Wanted,
) -> Shown {
    let Some(gone) = wanted.told(&locked.notes, 0) else {
        return Shown::Wrong("what a refused call told");
    };
    if gone > 0 && (wanted.batch == 0 || gone % wanted.batch != 0) {
        return Shown::Wrong("what left a refused call");
    }
    let mut stands = wanted.without(before, 0, gone);
    if let Call::Resize(capacity) = call {
        stands.capacity = capacity;
    }
    if look(&locked.cache) != stands {
        return Shown::Wrong("the cache after a refused call");
    }
    if !locked.is_held_once() {
        return Shown::Wrong("the handles after a refused call");
    }
    locked.notes.forget();
    let Ok(answer) = make(cx, locked, call) else {
        return Shown::Wrong("refused twice");
    };
    match settled(locked, stands, gone, &answer, wanted) {
        Shown::Done => emptied(cx, locked, call, answer),
        shown => shown,
    }
}

// Whether a call told all that is wanted, and the cache looks so, where it looked so before and so many had left.
fn settled<H: Runtime>(
    locked: &Locked<H>,
    before: Look,
    gone: usize,
    answer: &Answer<H>,
    wanted: &Wanted,
) -> Shown {
    let Some(more) = wanted.told(&locked.notes, gone) else {
        return Shown::Wrong("what is told");
    };
    if gone + more != wanted.leaves.len() {
        return Shown::Wrong("how many left");
    }
    let mut look_then = wanted.without(before, gone, more);
    look_then.capacity = wanted.capacity;
    if let Some((key, weight)) = wanted.enters {
        look_then = look_then.with(key, weight);
    }
    if look(&locked.cache) != look_then {
        return Shown::Wrong("the cache after the call");
    }
    let key = wanted.enters.map_or(5, |(key, _)| key);
    let is_right = match answer {
        Answer::Done => true,
        Answer::Search(_) => wanted.refs == 1,
        Answer::Entries(entries) => entries
            .iter()
            .flatten()
            .all(|entry| *entry.key() == key && entry.refs() == wanted.refs),
        Answer::Piece(piece) => *piece.key() == 5,
        Answer::Cache(again) => look(again) == look_then,
        Answer::Odd => false,
    };
    if is_right {
        return Shown::Done;
    }
    Shown::Wrong("the answer")
}

// Lets go what a call gave and what was held. No handle is left then, and nothing is told but of a phantom.
fn let_go<H: Runtime>(locked: &mut Locked<H>, call: Call, answer: Answer<H>) -> Shown {
    locked.notes.forget();
    drop(answer);
    let told = match call {
        Call::Phantom(key) => [Some(Note::Left(Event::Evict, key)), Some(Note::Piece(key))],
        _ => [None, None],
    };
    if [locked.notes.at(0), locked.notes.at(1)] != told || locked.notes.at(2).is_some() {
        return Shown::Wrong("what is told of an entry's drop");
    }
    if !locked.is_held_once() {
        return Shown::Wrong("the handles after the call");
    }
    locked.held = None;
    if locked.is_free() {
        return Shown::Done;
    }
    Shown::Wrong("a handle that nobody has")
}

// The same behind a refusal. A fetch that is open comes to its end, and then the cache can be emptied.
fn emptied<H: Runtime>(
    cx: &mut Context<'_>,
    locked: &mut Locked<H>,
    call: Call,
    answer: Answer<H>,
) -> Shown {
    let answer = match answer {
        Answer::Search(search) => match found(cx, locked, search) {
            Some(answer) => answer,
            None => return Shown::Wrong("the fetch of a look-up that was refused"),
        },
        answer => answer,
    };
    match let_go(locked, call, answer) {
        Shown::Done => {}
        shown => return shown,
    }
    let evicted = locked.cache.evict_all(0).is_ok();
    if evicted && locked.cache.entries() == 0 && locked.cache.usage() == 0 {
        return Shown::Kept;
    }
    Shown::Wrong("what can't be evicted")
}

// What a look-up finds, with all who wait beside it, once its task has run.
fn found<H: Runtime>(
    cx: &mut Context<'_>,
    locked: &mut Locked<H>,
    mut search: Search<H>,
) -> Option<Answer<H>> {
    if locked.tasks.poll_all(cx) > 0 {
        return None;
    }
    let Poll::Ready(Ok(entry)) = search.poll(cx) else {
        return None;
    };
    let (others, refs) = match locked.waits.take() {
        Some((mut one, mut other)) => match (one.poll(cx), other.poll(cx)) {
            (Poll::Ready(Ok(one)), Poll::Ready(Ok(other))) => ([Some(one), Some(other)], 3),
            _ => return None,
        },
        None => ([None, None], 1),
    };
    if *entry.key() != FETCHED || entry.refs() != refs {
        return None;
    }
    let [one, other] = others;
    Some(Answer::Entries([Some(entry), one, other]))
}
