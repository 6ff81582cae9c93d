//! Tags, and which slot each key leads to.

ghost use Rattle.std.specs.Prelude.{◌≡◌, ◌≢◌, ℕ, Bool, ◌-◌, ◌^◌, ◌<◌, Some, None, IfErr, IsOk, OnOk, OnErr};
ghost use Rattle.std.specs.Map.{update};
ghost use Rattle.foyer_policy.specs.declared.error.Reason.TheVariants.{NoMemory};
ghost use Rattle.foyer_core.specs.Indexer.{same_key};
ghost use Rattle.foyer_core.specs.Tags.{slots_of, HasRoomForTags, HasHomesFor};
ghost use Rattle.foyer_core.specs.Trails.{led, keyed, IsTagged, IsTagged-prop};

use crate::finder::trail::Trail;
use crate::tags::Tags;
use foyer_policy::{Error, Key, Reason, Result};
use std::alloc::Global;
use std::snapshot::Snapshot;

/// Slots below 2^32 - 1 under hashed keys, in tags. No memory is taken for the keys.
#[derive(Drop)]
pub(crate) struct KeyTags<K: Key> {
    tags: Tags,
    trail: Trail<K>,
    ghost tagged: { IsTagged K.eq (led K.eq trail) (keyed trail) (slots_of tags) } by { IsTagged-prop K.eq (led K.eq trail) (keyed trail) (slots_of tags) },
}

impl<K: Key> KeyTags<K> {
    /// Creates tags with no keys.
    pub(crate) fn new(alloc: Global) -> Self
        ensures { (q : ℕ × K) → led K.eq result.trail q ≡ None }
    {
        KeyTags {
            tags: Tags::new(alloc),
            trail: Trail::new(),
        }
    }

    /// Returns the slot of a key. `is_its` says of a slot whether this key leads to it.
    #[inline(always)]
    pub(crate) fn find<F: Fn(usize) -> bool>(&self, hash: u64, _key: &K, is_its: F) -> Option<usize>
        requires asked { (q : ℕ × K) (s : ℕ) → led K.eq self.now.trail q ≡ Some s → F.pre is_its s }
        requires told { (q : ℕ × K) (s : ℕ) (answer : Bool) → led K.eq self.now.trail q ≡ Some s →
            F.post is_its s answer → answer ≡ same_key K.eq q (hash, _key.now) }
        ensures { result ≡ led K.eq self.now.trail (hash, _key.now) }
    {
        self.tags.find(hash, is_its)
    }

    /// Sets the slot of a key that has none. No key leads to the slot.
    ///
    /// # Errors
    /// F7 if memory runs out; nothing has changed.
    #[inline(always)]
    pub(crate) fn insert(&mut self, hash: u64, key: Snapshot<K>, slot: usize) -> Result<()>
        requires slot { slot < 2 ^ 32 - 1 }
        requires absent { led K.eq self.old.trail (hash, key.value) ≡ None }
        requires new { (q : ℕ × K) → led K.eq self.old.trail q ≢ Some slot }
        ensures led { OnOk result ((q : ℕ × K) → led K.eq self.new.trail q
            ≡ update (same_key K.eq) (led K.eq self.old.trail) (hash, key.value) (Some slot) q) }
        ensures refused { IfErr result (λ e. e ≡ NoMemory) }
        ensures err { OnErr result ((q : ℕ × K) → led K.eq self.new.trail q ≡ led K.eq self.old.trail q) }
        ensures granted { HasRoomForTags self.old.tags 1 → HasHomesFor self.old.tags 1 → IsOk result }
    {
        if self.tags.reserve(1).is_err() {
            return Err(Error::new(Reason::NoMemory));
        }
        self.tags.insert(hash, slot);
        self.trail.mark(hash, key, Some(slot));
        Ok(())
    }

    /// Replaces the slot of a key by one to which no key leads. Takes no memory.
    #[inline(always)]
    pub(crate) fn replace(&mut self, hash: u64, key: Snapshot<K>, was: usize, slot: usize)
        requires was { led K.eq self.old.trail (hash, key.value) ≡ Some was }
        requires slot { slot < 2 ^ 32 - 1 }
        requires new { (q : ℕ × K) → led K.eq self.old.trail q ≢ Some slot }
        ensures led { (q : ℕ × K) → led K.eq self.new.trail q
            ≡ update (same_key K.eq) (led K.eq self.old.trail) (hash, key.value) (Some slot) q }
    {
        self.tags.replace(hash, was, slot);
        self.trail.mark(hash, key, Some(slot));
    }

    /// Removes a key that leads to this slot. Takes no memory.
    #[inline(always)]
    pub(crate) fn remove(&mut self, hash: u64, key: Snapshot<K>, slot: usize)
        requires { led K.eq self.old.trail (hash, key.value) ≡ Some slot }
        ensures led { (q : ℕ × K) → led K.eq self.new.trail q
            ≡ update (same_key K.eq) (led K.eq self.old.trail) (hash, key.value) None q }
    {
        let _ = self.tags.remove(hash, slot);
        self.trail.mark(hash, key, None);
    }
}
