//! Pieces: the data of records outside of their core.

ghost use Rattle.std.specs.Prelude.{◌≡◌, IfOk, IfErr};
ghost use Rattle.foyer_policy.specs.declared.error.Reason.TheVariants.{NoMemory};

use crate::record::Record;
use crate::share::Share;
use foyer_policy::Result;
use std::alloc::AllocError;
use std::fmt::{self, Debug};
use std::marker::Model;

/// The data of a record outside of its core, with the core's number and the record's id.
///
/// It isn't a handle: the record may leave.
#[derive(Drop)]
pub struct Piece<K, V, P> {
    number: u64,
    id: u64,
    // Where the record was when the piece was made. It is only a hint.
    slot: usize,
    kept: Share<K, V, P>,
}

impl<K, V, P> Model for Piece<K, V, P> {
    ghost use Rattle.foyer_core.specs.Values.{Carried};

    ghost Value = { Carried K V P };

    ghost view = { λ p. record { number = p.number; id = p.id; kept = p.kept } };
}

impl<K, V, P> Piece<K, V, P> {
    // The number of the core that made the piece.
    pub(crate) fn number(&self) -> u64
        ensures { result ≡ self.now.number }
    {
        self.number
    }

    // The record's id.
    pub(crate) fn id(&self) -> u64
        ensures { result ≡ self.now.id }
    {
        self.id
    }

    // The slot that the record may be in.
    pub(crate) fn slot(&self) -> usize {
        self.slot
    }

    // The share of the record's data.
    pub(crate) fn into_share(self) -> Share<K, V, P>
        ensures { result ≡ self.kept }
    {
        let Piece { kept, .. } = self;
        kept
    }

    // A piece with this share of a record's data. The record may be in this slot.
    pub(crate) fn of_share(number: u64, id: u64, slot: usize, kept: Share<K, V, P>) -> Self
        ensures { result ≡ record { number = number; id = id; kept = kept } }
    {
        Piece {
            number,
            id,
            slot,
            kept,
        }
    }
}

impl<K: Drop, V: Drop, P: Drop> Piece<K, V, P> {
    /// Creates a piece of a record that has this id in the core of this number.
    ///
    /// # Errors
    /// F7 if a reference count is full.
    pub fn new(kept: &Record<K, V, P>, number: u64, id: u64) -> Result<Self>
        ensures made { IfOk result (λ p. p ≡ record { number = number; id = id; kept = kept.now.kept }) }
        ensures refused { IfErr result (λ e. e ≡ NoMemory) }
    {
        let share = kept.share()?;
        Ok(Piece::of_share(number, id, 0, share))
    }

    /// Returns the key.
    pub fn key(&self) -> &K
        ensures { result.now ≡ self.now.kept.key }
    {
        self.kept.key()
    }

    /// Returns the value.
    pub fn value(&self) -> &V
        ensures { result.now ≡ self.now.kept.value }
    {
        self.kept.value()
    }

    /// Returns the properties.
    pub fn properties(&self) -> &P
        ensures { result.now ≡ self.now.kept.properties }
    {
        self.kept.properties()
    }

    /// Returns the key's hash.
    pub fn hash(&self) -> u64
        ensures { result ≡ self.now.kept.hash }
    {
        self.kept.hash()
    }
}

impl<K: Drop, V: Drop, P: Drop> Clone for Piece<K, V, P> {
    ghost use Rattle.std.specs.Prelude.{◌≡◌};

    ghost is_clone = { λ p c. c ≡ p };

    /// Returns the same piece with a share of its own. Fails if the reference count is full.
    fn clone(&self) -> std::result::Result<Self, AllocError> {
        let Ok(kept) = self.kept.try_clone() else {
            return Err(AllocError);
        };
        Ok(Piece::of_share(self.number, self.id, self.slot, kept))
    }
}

impl<K, V, P> Debug for Piece<K, V, P> {
    fn fmt<W: fmt::Write>(&self, f: &mut fmt::Formatter<W>) -> fmt::Result {
        f.debug_struct("Piece")
            .field("record", &self.id)
            .field("hash", &self.kept.hash())
            .finish()
    }
}
