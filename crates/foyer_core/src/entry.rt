//! Entries, which are handles of records, and records that left.

ghost use Rattle.std.specs.Prelude.{◌≡◌, IsNone, None, Some, false, true, MatchOption, IfSome, IfOk, IfErr};
ghost use Rattle.foyer_policy.specs.declared.error.Reason.TheVariants.{NoMemory};
ghost use Rattle.foyer_core.specs.Values.{body_of};

use crate::hold::Hold;
use crate::piece::Piece;
use crate::share::Share;
use foyer_policy::{Error, Event, Reason, Result, Source};
use std::marker::Model;

mod alike;
mod tail;

use tail::Tail;

/// A record that left. Its data stays readable.
#[derive(Drop)]
pub struct Left<K, V, P> {
    number: u64,
    id: u64,
    kept: Share<K, V, P>,
}

impl<K, V, P> Model for Left<K, V, P> {
    ghost use Rattle.foyer_core.specs.Values.{Gone};

    ghost Value = { Gone K V P };

    ghost view = { λ l. record { number = l.number; id = l.id; kept = l.kept } };
}

impl<K, V, P> Left<K, V, P> {
    #[inline(always)]
    pub(crate) fn new(number: u64, id: u64, kept: Share<K, V, P>) -> Self
        ensures { result ≡ record { number = number; id = id; kept = kept } }
    {
        Left { number, id, kept }
    }

    /// Returns the record's id, which its shard gives once.
    #[inline(always)]
    pub fn id(&self) -> u64
        ensures { result ≡ self.now.id }
    {
        self.id
    }

    /// Returns the key.
    #[inline(always)]
    pub fn key(&self) -> &K
        ensures { result.now ≡ self.now.kept.key }
    {
        self.kept.key()
    }

    /// Returns the value.
    #[inline(always)]
    pub fn value(&self) -> &V
        ensures { result.now ≡ self.now.kept.value }
    {
        self.kept.value()
    }

    /// Returns the properties.
    #[inline(always)]
    pub fn properties(&self) -> &P
        ensures { result.now ≡ self.now.kept.properties }
    {
        self.kept.properties()
    }

    /// Returns the key's hash.
    #[inline(always)]
    pub fn hash(&self) -> u64
        ensures { result ≡ self.now.kept.hash }
    {
        self.kept.hash()
    }

    /// Returns the weight.
    #[inline(always)]
    pub fn weight(&self) -> usize
        ensures { result ≡ self.now.kept.weight }
    {
        self.kept.weight()
    }

    /// Returns a piece of the record. Takes no memory.
    pub fn piece(self) -> Piece<K, V, P>
        ensures { result ≡ record { number = self.number; id = self.id; kept = self.kept } }
    {
        let Left { number, id, kept } = self;
        Piece::of_share(number, id, 0, kept)
    }
}

/// Why a record left, and the record.
pub type Leave<K, V, P> = (Event, Left<K, V, P>);

/// A handle of a core's record: the data stays readable, even after eviction.
///
/// It must be spent, by `give_back` or `drop_entry` of that core, or by `discard` if the core is gone.
pub struct CoreEntry<K, V, P> {
    number: u64,
    id: u64,
    kept: Share<K, V, P>,
    tail: Tail<K, V, P>,
}

impl<K, V, P> Model for CoreEntry<K, V, P> {
    ghost use Rattle.std.specs.Prelude.{◌≡◌, is_some};
    ghost use Rattle.std.specs.Option.{ForSome};
    ghost use Rattle.foyer_core.specs.Tails.{share_of, source_of};
    ghost use Rattle.foyer_core.specs.Values.{Held, body_of};

    ghost Value = { Held K V P };

    ghost view = { λ e. record { number = e.number; id = e.id; kept = e.kept; source = source_of e.tail; left = is_some (share_of e.tail) } };

    ghost invariant = { λ e. ForSome (share_of e.tail) (λ body. body ≡ body_of e.kept) };
}

impl<K: Drop, V: Drop, P: Drop> CoreEntry<K, V, P> {
    /// Returns an entry of a record that is to be inserted with this share of its data. It is nobody's until then.
    ///
    /// If `told`, it gets a share for `left`. Returns nothing if the reference count is full.
    #[inline(always)]
    pub fn of_share(kept: &Share<K, V, P>, source: Source, told: bool) -> Option<Self>
        ensures { IfSome result (λ e. (e.kept ≡ kept.now) × ((e.source ≡ source) × (e.left ≡ told))) }
    {
        CoreEntry::new(0, 0, 0, kept.another()?, source, told)
    }

    // Returns an entry of the record with this share of its data, not yet counted. If `told`, it gets a share for `left`.
    // Returns nothing if the reference count is full.
    #[inline(always)]
    pub(crate) fn new(
        number: u64,
        id: u64,
        slot: usize,
        kept: Share<K, V, P>,
        source: Source,
        told: bool,
    ) -> Option<Self>
        ensures { IfSome result (λ e. e ≡ record { number = number; id = id; kept = kept; source = source; left = told }) }
    {
        let share = if told { Some(kept.body()?) } else { None };
        Some(CoreEntry {
            number,
            id,
            kept,
            tail: Tail::new(source, slot, share),
        })
    }

    // The number of the core that made the entry.
    #[inline(always)]
    pub(crate) fn number(&self) -> u64
        ensures { result ≡ self.now.number }
    {
        self.number
    }

    /// Returns the record's id, which its shard gives once.
    #[inline(always)]
    pub fn id(&self) -> u64
        ensures { result ≡ self.now.id }
    {
        self.id
    }

    // Sets the slot of the record.
    #[inline(always)]
    pub(crate) fn set_slot(&mut self, slot: usize)
        ensures { self.new ≡ self.old }
    {
        self.tail.set_slot(slot);
    }

    // Sets where the record stands: the number of the core, the record's id and its slot.
    #[inline(always)]
    pub(crate) fn set_place(&mut self, number: u64, id: u64, slot: usize)
        ensures { self.new ≡ record self.old { number = number; id = id } }
    {
        self.number = number;
        self.id = id;
        self.tail.set_slot(slot);
    }

    // The slot that the record may be in.
    #[inline(always)]
    pub(crate) fn slot(&self) -> usize {
        self.tail.slot()
    }

    /// Returns the key's hash.
    #[inline(always)]
    pub fn hash(&self) -> u64
        ensures { result ≡ self.now.kept.hash }
    {
        self.kept.hash()
    }

    /// Returns the key.
    #[inline(always)]
    pub fn key(&self) -> &K
        ensures { result.now ≡ self.now.kept.key }
    {
        self.kept.key()
    }

    /// Returns the value.
    #[inline(always)]
    pub fn value(&self) -> &V
        ensures { result.now ≡ self.now.kept.value }
    {
        self.kept.value()
    }

    /// Returns the properties.
    #[inline(always)]
    pub fn properties(&self) -> &P
        ensures { result.now ≡ self.now.kept.properties }
    {
        self.kept.properties()
    }

    /// Returns the weight.
    #[inline(always)]
    pub fn weight(&self) -> usize
        ensures { result ≡ self.now.kept.weight }
    {
        self.kept.weight()
    }

    /// Returns where the entry came from.
    #[inline(always)]
    pub fn source(&self) -> Source
        ensures { result ≡ self.now.source }
    {
        self.tail.source()
    }

    /// Returns what the record would leave with, once: it has a share of the data for that.
    pub fn left(&mut self) -> Option<Left<K, V, P>>
        ensures given { IfSome result (λ l. (self.old.left ≡ true) × (l ≡ record { number = self.old.number; id = self.old.id; kept = self.old.kept })) }
        ensures once { IsNone result → self.old.left ≡ false }
        ensures taken { self.new ≡ record self.old { left = false } }
    {
        match self.tail.take_share() {
            Some(body) => Some(Left::new(
                self.number,
                self.id,
                Share::of_body(body, self.kept.hash(), self.kept.weight()),
            )),
            None => None,
        }
    }

    /// Returns a piece of the record.
    ///
    /// # Errors
    /// F7 if a reference count is full.
    pub fn piece(&self) -> Result<Piece<K, V, P>>
        ensures made { IfOk result (λ p. p ≡ record { number = self.now.number; id = self.now.id; kept = self.now.kept }) }
        ensures refused { IfErr result (λ e. e ≡ NoMemory) }
    {
        let share = self.kept.try_clone()?;
        Ok(Piece::of_share(self.number, self.id, self.slot(), share))
    }

    // An entry like this one, with its own share for `left`, of a record in this slot. F7 if the reference count is
    // full.
    pub(crate) fn share(&self, slot: usize) -> Result<Self>
        ensures entry { IfOk result (λ e. e ≡ record self.now { left = true }) }
        ensures refused { IfErr result (λ e. e ≡ NoMemory) }
    {
        let kept = self.kept.try_clone()?;
        match CoreEntry::new(self.number, self.id, slot, kept, self.source(), true) {
            Some(entry) => Ok(entry),
            None => Err(Error::new(Reason::NoMemory)),
        }
    }

    /// Returns the entry's handle by its name, which `unhold` of its core spends. Its shares go.
    #[inline(always)]
    pub fn into_hold(self) -> Hold
        ensures { (result.hash ≡ self.kept.hash) × (result.id ≡ self.id) }
    {
        let hold = Hold {
            hash: self.hash(),
            id: self.id,
            slot: self.slot(),
        };
        self.discard();
        hold
    }

    /// Discards an entry whose core is gone. No core changes.
    #[inline(always)]
    pub fn discard(self) {
        let CoreEntry {
            number: _,
            id: _,
            kept: _,
            tail: _,
        } = self;
    }
}

// Ends entries that were not counted, or whose core is gone.
pub(crate) fn discard_all<K: Drop, V: Drop, P: Drop>(mut entries: Vec<CoreEntry<K, V, P>>) {
    while let Some(entry) = entries.pop() {
        entry.discard();
    }
    entries.destroy_empty();
}
