//! What C holds by a number.

ghost use Rattle.std.specs.Prelude.{◌≡◌};

use crate::key::Key;
use crate::value::Value;
use foyer_core::{CacheProperties, Hold as Name, Leave, Piece};
use std::marker::Model;

pub(crate) type Gone = Leave<Key, Value, CacheProperties>;

pub(crate) type Listed = Piece<Key, Value, CacheProperties>;

/// A handle of a record, by the record's name. The core counts it, and it has no share of the record's data.
#[derive(Drop)]
pub(crate) struct Entry {
    name: Name,
}

impl Model for Entry {
    ghost use Rattle.luffapricot_c.specs.Named.{Named};

    ghost Value = { Named };

    ghost view = { λ e. record { hash = e.name.hash; id = e.name.id } };
}

impl Entry {
    #[inline(always)]
    pub(crate) fn new(name: Name) -> Entry
        ensures { result ≡ record { hash = name.hash; id = name.id } }
    {
        Entry { name }
    }

    #[inline(always)]
    pub(crate) fn name(&self) -> Name
        ensures { (result.hash ≡ self.now.hash) × (result.id ≡ self.now.id) }
    {
        self.name
    }
}

/// What a number names.
#[derive(Drop)]
pub(crate) enum Held {
    /// A handle of a record.
    Entry(Entry),
    /// Nothing yet: the fetch of a key is open.
    Waiting,
    /// The refusal with which a fetch ended.
    Refused(u32),
    /// A record that left with its last handle.
    Gone(Gone),
    /// Records that left, in order.
    Left(Vec<Gone>),
    /// Records that were resident when they were listed, in the policy's order.
    Listed(Vec<Listed>),
}

/// What C holds by a number.
#[derive(Drop)]
pub(crate) struct Hold {
    held: Held,
}

impl Hold {
    #[inline(always)]
    pub(crate) fn new(held: Held) -> Hold
        ensures { result.held ≡ held }
    {
        Hold { held }
    }

    #[inline(always)]
    pub(crate) fn into_held(self) -> Held
        ensures { result ≡ self.held }
    {
        let Hold { held } = self;
        held
    }

    #[inline(always)]
    pub(crate) fn held(&self) -> &Held
        ensures { result.now ≡ self.now.held }
    {
        &self.held
    }
}
