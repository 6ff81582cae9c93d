//! What C holds of a cache.

ghost use Rattle.std.specs.Prelude.{◌≡◌, [], if◌then◌else◌, is_some, option_copied, reverse};
ghost use Rattle.slab.specs.Slab.{HasRoomFor, get};
ghost use Rattle.luffapricot_c.specs.Calls.{HoldsEntry};
ghost use Rattle.luffapricot_c.specs.Holds.{given, given_all, given_each, settled};
ghost use Rattle.foyer_core.specs.Cores.{core_of, fetches_of, meaning_of_core};
ghost use Rattle.luffapricot_c.specs.Named.{named_of};
ghost use Rattle.luffapricot_c.specs.Releases.{EndsNamed, HeldAnswers, NumberAnswers, Releases, ShowsLeft, TakesLeft, held_left, left_at};
ghost use Rattle.luffapricot_c.specs.declared.hold.Held.TheVariants.{Entry as EntryHeld};

use super::{ByteCache, Core};
use crate::hold::{Entry, Gone, Held, Hold};
use crate::key::Key;
use crate::record::LuffaRecord;
use crate::status;
use crate::value::Value;
use foyer_core::{
    Answers, CacheProperties, CoreEntry, Foreign, Hold as Name, Outcome, RecordRef, Waiting,
};
use foyer_policy::Result;
use slab::Slab;
use std::alloc::Global;
use std::mem;

type Given = CoreEntry<Key, Value, CacheProperties>;

// Holds a handle under a new number, for which there is room, and shows its record.
#[inline(always)]
pub(super) fn hold(holds: &mut Slab<Hold>, entry: Given, shown: &mut LuffaRecord)
    requires room { HasRoomFor holds.old 1 }
    ensures { HoldsEntry (named_of entry) entry.kept shown.new holds.old holds.new }
{
    shown.show(
        entry.key(),
        entry.value(),
        entry.weight(),
        entry.properties(),
    );
    shown.number = holds.insert_reserved(Hold::new(Held::Entry(named(entry))));
}

// Holds a handle by its name under a new number, for which there is room, and shows its record.
#[inline(always)]
pub(super) fn hold_named(
    holds: &mut Slab<Hold>,
    name: Name,
    found: &RecordRef<'_, Key, Value, CacheProperties>,
    shown: &mut LuffaRecord,
)
    requires room { HasRoomFor holds.old 1 }
    ensures { HoldsEntry (record { hash = name.hash; id = name.id }) found.now.kept shown.new holds.old holds.new }
{
    shown.show(
        found.key(),
        found.value(),
        found.weight(),
        found.properties(),
    );
    shown.number = holds.insert_reserved(Hold::new(Held::Entry(Entry::new(name))));
}

// An entry by the name of its record.
#[inline(always)]
fn named(entry: Given) -> Entry
    ensures { result ≡ named_of entry }
{
    Entry::new(entry.into_hold())
}

// Gives an entry's handle back, and returns what left with it.
#[inline(always)]
fn end(core: &mut Core, entry: &Entry) -> Option<Gone>
    ensures ends { EndsNamed (meaning_of_core core.old) entry.now result (core_of core.old) (core_of core.new) }
    ensures fetches { fetches_of core.new ≡ fetches_of core.old }
{
    match core.unhold(entry.name()) {
        Ok(leave) => leave,
        Err(Foreign) => None,
    }
}

// Gives each who waited what there is for it.
#[inline(always)]
pub(super) fn answer(holds: &mut Slab<Hold>, answers: Answers<Key, Value, CacheProperties, usize>)
    ensures { holds.new ≡ given answers holds.old }
{
    let Answers { waiters, outcome } = answers;
    match outcome {
        Outcome::Entries(entries) => answer_entries(holds, waiters, entries),
        Outcome::Fault(error) => answer_refusal(holds, waiters, status::refusal(error)),
        Outcome::None => answer_refusal(holds, waiters, status::MISSING),
    }
}

// As many wait as there are entries.
fn answer_entries(holds: &mut Slab<Hold>, mut waiters: Vec<Waiting<usize>>, mut entries: Vec<Given>)
    ensures { holds.new ≡ given_each (reverse waiters.items) (reverse entries.items) holds.old }
{
    while let Some(entry) = entries.pop() {
        match waiters.pop() {
            Some(waiting) => settle(holds, waiting.waiter, Held::Entry(named(entry))),
            None => entry.discard(),
        }
    }
    entries.destroy_empty();
}

fn answer_refusal(holds: &mut Slab<Hold>, mut waiters: Vec<Waiting<usize>>, status: u32)
    ensures { holds.new ≡ given_all (reverse waiters.items) status holds.old }
{
    while let Some(waiting) = waiters.pop() {
        settle(holds, waiting.waiter, Held::Refused(status));
    }
}

// A number that waited names this from now on.
fn settle(holds: &mut Slab<Hold>, number: usize, held: Held)
    ensures { holds.new ≡ settled holds.old number held }
{
    let settled = Hold::new(held);
    if let Some(hold) = holds.get_mut(number) {
        *hold = settled;
    } else {
        drop(settled);
    }
}

// A record that left, by its place among those that a number names.
fn left_in(holds: &Slab<Hold>, number: usize, index: usize) -> Option<&Gone>
    ensures { option_copied result ≡ left_at (get holds.now number) index }
{
    match holds.get(number)?.held() {
        Held::Gone(gone) => Some(gone),
        Held::Left(left) => left.get(index),
        _ => None,
    }
}

// Takes out what left. A single record is taken by itself, so that the list keeps its room.
#[inline(always)]
fn moved(left: &mut Vec<Gone>, alloc: Global) -> Held
    ensures held { result ≡ held_left left.old left.old.items }
    ensures empty { left.new.items ≡ [] }
{
    if left.len() != 1 {
        return Held::Left(mem::replace(left, Vec::new(alloc)));
    }
    match left.pop() {
        Some(gone) => Held::Gone(gone),
        None => unreachable!(),
    }
}

// What left is forgotten if nobody is told of it.
#[inline(always)]
pub(super) fn forget_left(left: &mut Vec<Gone>, has_listener: bool)
    ensures { left.new.items ≡ (if has_listener then left.old.items else []) }
{
    if !has_listener {
        left.clear();
    }
}

// What left is told, if there is a listener.
pub(super) fn keep(kept: &mut Vec<Gone>, has_listener: bool, left: Vec<Gone>)
    ensures { kept.new.items ≡ (if has_listener then left.items else kept.old.items) }
{
    if has_listener {
        *kept = left;
    }
}

impl ByteCache {
    /// What a number that waits was answered: 0 for a record, which it shows, the number of a refusal, or WAIT.
    pub(crate) fn answered(&self, number: usize, shown: &mut LuffaRecord) -> u32
        ensures { NumberAnswers (get self.now.holds number) number result shown.new self.now }
    {
        match self.holds.get(number) {
            Some(hold) => match hold.held() {
                Held::Entry(entry) => self.show_entry(entry, number, shown),
                Held::Waiting => status::WAIT,
                Held::Refused(refusal) => *refusal,
                _ => status::MISSING,
            },
            None => status::MISSING,
        }
    }

    // Shows an entry's record under a number: 0, or MISSING if its shard doesn't have it.
    fn show_entry(&self, entry: &Entry, number: usize, shown: &mut LuffaRecord) -> u32
        ensures { HeldAnswers (EntryHeld entry.now) number result shown.new self.now }
    {
        let Some(record) = self.core.held(entry.name()) else {
            return status::MISSING;
        };
        shown.show(
            record.key(),
            record.value(),
            record.weight(),
            record.properties(),
        );
        shown.number = number;
        status::OK
    }

    /// Ends what a number names. A handle goes back to the core.
    #[inline(always)]
    pub(crate) fn release(&mut self, number: usize) -> u32
        ensures { Releases (get self.old.holds number) number result self.old self.new }
    {
        let Some(hold) = self.holds.try_remove(number) else {
            return status::MISSING;
        };
        match hold.into_held() {
            Held::Entry(entry) => {
                let leave = end(&mut self.core, &entry);
                if !self.has_listener {
                    return status::OK;
                }
                match leave {
                    Some(gone) => {
                        self.holds.insert_reserved(Hold::new(Held::Gone(gone)));
                        status::LEFT
                    }
                    None => status::OK,
                }
            }
            Held::Waiting => {
                self.holds.insert_reserved(Hold::new(Held::Waiting));
                status::WAIT
            }
            Held::Refused(_) => status::OK,
            Held::Gone(gone) => {
                drop(gone);
                status::OK
            }
            Held::Left(left) => {
                drop(left);
                status::OK
            }
            Held::Listed(listed) => {
                drop(listed);
                status::OK
            }
        }
    }

    /// Moves what left under a number, and says how many records it names. Whether any left.
    pub(crate) fn take_left(&mut self, number: &mut usize, count: &mut usize) -> Result<bool>
        ensures { TakesLeft result number.new count.new self.old self.new }
    {
        if self.left.is_empty() {
            return Ok(false);
        }
        self.holds.reserve(1)?;
        *count = self.left.len();
        let held = moved(&mut self.left, self.alloc);
        *number = self.holds.insert_reserved(Hold::new(held));
        Ok(true)
    }

    /// Shows a record that left, of those that a number names. Whether there is one.
    pub(crate) fn show_left(&self, number: usize, index: usize, shown: &mut LuffaRecord) -> bool
        ensures found { result ≡ is_some (left_at (get self.now.holds number) index) }
        ensures shown { ShowsLeft (left_at (get self.now.holds number) index) shown.new }
    {
        match left_in(&self.holds, number, index) {
            Some(gone) => {
                shown.show_gone(gone);
                true
            }
            None => false,
        }
    }
}
