//! A finder over tags.

ghost use Rattle.std.specs.Prelude.{◌≡◌, ◌≢◌, ℕ, ◌≤◌, ◌-◌, ◌^◌, ◌<◌, Some, None, IfErr, IsOk, OnOk, OnErr, true};
ghost use Rattle.std.specs.Map.{update};
ghost use Rattle.foyer_policy.specs.declared.error.Reason.TheVariants.{NoMemory};
ghost use Rattle.foyer_core.specs.Indexer.{same_key};
ghost use Rattle.foyer_core.specs.Tags.{HasRoomForTags, HasHomesFor};
ghost use Rattle.foyer_core.specs.Trails.{led, either};

use crate::finder::Finder;
use crate::finder::key_tags::KeyTags;
use crate::indexer::{HashTableIndexer, Indexer, insert_clone};
use foyer_policy::{Key, Result};
use std::alloc::Global;
use std::snapshot::Snapshot;

// Slots from here on don't fit a tag.
const FAR: usize = u32::MAX as usize;

/// A finder that takes eight bytes for each bucket and compares keys in the records. Slots from 2^32 - 1 on are in an
/// index beside the tags, which keeps clones of their keys.
#[derive(Drop)]
pub struct TagFinder<K: Key, I: Indexer<K> = HashTableIndexer<K>> {
    near: KeyTags<K>,
    far: I,
    ghost apart: { (q : ℕ × K) (s : ℕ) → I.view far q ≡ Some s → led K.eq near.trail q ≡ None },
    ghost below: { (q : ℕ × K) (s : ℕ) → led K.eq near.trail q ≡ Some s → s < 2 ^ 32 - 1 },
    ghost above: { (q : ℕ × K) (s : ℕ) → I.view far q ≡ Some s → 2 ^ 32 - 1 ≤ s },
}

impl<K: Key, I: Indexer<K>> TagFinder<K, I> {
    // Puts a slot under a key whose number fits a tag.
    #[inline(always)]
    fn put_near(&mut self, hash: u64, key: &K, was: Option<usize>, slot: usize) -> Result<()>
        requires slot { slot < 2 ^ 32 - 1 }
        requires was { was ≡ either (led K.eq self.old.near.trail) (I.view self.old.far) (hash, key.now) }
        requires new { (q : ℕ × K) → either (led K.eq self.old.near.trail) (I.view self.old.far) q ≢ Some slot }
        ensures view { OnOk result ((q : ℕ × K) → either (led K.eq self.new.near.trail) (I.view self.new.far) q
            ≡ update (same_key K.eq) (either (led K.eq self.old.near.trail) (I.view self.old.far))
            (hash, key.now) (Some slot) q) }
        ensures refused { IfErr result (λ e. e ≡ NoMemory) }
        ensures err { OnErr result ((q : ℕ × K) → either (led K.eq self.new.near.trail) (I.view self.new.far) q
            ≡ either (led K.eq self.old.near.trail) (I.view self.old.far) q) }
        ensures granted { HasRoomForTags self.old.near.tags 1 → HasHomesFor self.old.near.tags 1 → IsOk result }
    {
        let Some(was) = was else {
            return self.near.insert(hash, Snapshot::of(key), slot);
        };
        if was < FAR {
            self.near.replace(hash, Snapshot::of(key), was, slot);
            return Ok(());
        }
        self.near.insert(hash, Snapshot::of(key), slot)?;
        let _ = self.far.remove(hash, key);
        Ok(())
    }

    // Puts a slot whose number fits no tag under a clone of the key.
    #[cold]
    #[inline(never)]
    fn put_far(&mut self, hash: u64, key: &K, was: Option<usize>, slot: usize) -> Result<()>
        requires clones { (k c : K) → K.is_clone k c → K.eq c k ≡ true }
        requires slot { 2 ^ 32 - 1 ≤ slot }
        requires was { was ≡ either (led K.eq self.old.near.trail) (I.view self.old.far) (hash, key.now) }
        ensures view { OnOk result ((q : ℕ × K) → either (led K.eq self.new.near.trail) (I.view self.new.far) q
            ≡ update (same_key K.eq) (either (led K.eq self.old.near.trail) (I.view self.old.far))
            (hash, key.now) (Some slot) q) }
        ensures refused { IfErr result (λ e. e ≡ NoMemory) }
        ensures err { OnErr result ((q : ℕ × K) → either (led K.eq self.new.near.trail) (I.view self.new.far) q
            ≡ either (led K.eq self.old.near.trail) (I.view self.old.far) q) }
    {
        insert_clone(&mut self.far, hash, key, slot as u64)?;
        if let Some(was) = was {
            if was < FAR {
                self.near.remove(hash, Snapshot::of(key), was);
            }
        }
        Ok(())
    }
}

impl<K: Key, I: Indexer<K>> Finder<K> for TagFinder<K, I> {
    ghost use Rattle.foyer_core.specs.Trails.{led_same, either_same};

    ghost view = { λ s. either (led K.eq s.near.trail) (I.view s.far) };

    ghost has_room = { λ s slot. (slot < 2 ^ 32 - 1) × HasRoomForTags s.near.tags 1 × HasHomesFor s.near.tags 1 };

    ghost respects = { λ s p q same. either_same (led K.eq s.near.trail) (I.view s.far) p q
        (led_same K.Eq.laws s.near.trail p q same) (I.respects s.far p q same) };

    fn empty(alloc: Global) -> Self {
        TagFinder {
            near: KeyTags::new(alloc),
            far: I::empty(alloc),
        }
    }

    #[inline(always)]
    fn find<F: Fn(usize) -> bool>(&self, hash: u64, key: &K, is_its: F) -> Option<usize> {
        if let Some(slot) = self.near.find(hash, key, is_its) {
            return Some(slot);
        }
        let slot = self.far.get(hash, key)?;
        Some(slot as usize)
    }

    #[inline(always)]
    fn put(&mut self, hash: u64, key: &K, was: Option<usize>, slot: usize) -> Result<()> {
        if slot < FAR {
            self.put_near(hash, key, was, slot)
        } else {
            self.put_far(hash, key, was, slot)
        }
    }

    #[inline(always)]
    fn take(&mut self, hash: u64, key: &K, slot: usize) {
        if slot < FAR {
            self.near.remove(hash, Snapshot::of(key), slot);
        } else {
            let _ = self.far.remove(hash, key);
        }
    }
}
