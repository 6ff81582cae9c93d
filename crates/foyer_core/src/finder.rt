//! How a shard finds the slot of a key. The shard says which slot has which key, so a finder needn't keep keys.

ghost use Rattle.std.specs.Prelude.{◌≡◌, ◌≢◌, ℕ, Bool, Some, None, IfErr, IsOk, OnOk, OnErr, true};
ghost use Rattle.std.specs.Map.{update};
ghost use Rattle.foyer_policy.specs.declared.error.Reason.TheVariants.{NoMemory};

use foyer_policy::{Key, Result};
use std::alloc::Global;

mod indexed;
mod key_tags;
mod tag_finder;
mod trail;

pub use indexed::Indexed;
pub use tag_finder::TagFinder;

/// A map from keys to slots that needn't keep the keys. Keys are looked up together with their hash, and compared by
/// `==`.
pub trait Finder<K: Key>: Drop {
    ghost use Rattle.std.specs.Prelude.{◌≡◌, ℕ, Option, true};
    ghost use Rattle.foyer_core.specs.Indexer.{same_key};

    // the slot under a hashed key
    ghost view: { Self → (ℕ × K) → Option ℕ };

    // a key can be put at this slot with no allocation
    ghost has_room: { Self → ℕ → Type 0 };

    /// Creates a finder with no keys.
    fn empty(alloc: Global) -> Self
        ensures { (q : ℕ × K) → view result q ≡ None };

    /// Returns the slot of a key. `is_its` says of a slot whether this key leads to it, and is asked only of slots in
    /// the finder.
    fn find<F: Fn(usize) -> bool>(&self, hash: u64, key: &K, is_its: F) -> Option<usize>
        requires asked { (q : ℕ × K) (s : ℕ) → view self.now q ≡ Some s → F.pre is_its s }
        requires told { (q : ℕ × K) (s : ℕ) (answer : Bool) → view self.now q ≡ Some s →
            F.post is_its s answer → answer ≡ same_key K.eq q (hash, key.now) }
        ensures { result ≡ view self.now (hash, key.now) };

    /// Sets the slot of a key, which led to the slot `was`, or to none. No key leads to the new slot. A finder that
    /// keeps keys clones this one.
    ///
    /// # Errors
    /// F7 if memory runs out; nothing has changed.
    fn put(&mut self, hash: u64, key: &K, was: Option<usize>, slot: usize) -> Result<()>
        requires clones { (k c : K) → K.is_clone k c → K.eq c k ≡ true }
        requires was { was ≡ view self.old (hash, key.now) }
        requires new { (q : ℕ × K) → view self.old q ≢ Some slot }
        ensures view { OnOk result ((q : ℕ × K) →
            view self.new q ≡ update (same_key K.eq) (view self.old) (hash, key.now) (Some slot) q) }
        ensures refused { IfErr result (λ e. e ≡ NoMemory) }
        ensures granted { has_room self.old slot → IsOk result }
        ensures err { OnErr result ((q : ℕ × K) → view self.new q ≡ view self.old q) };

    /// Removes a key that leads to this slot. Takes no memory.
    fn take(&mut self, hash: u64, key: &K, slot: usize)
        requires { view self.old (hash, key.now) ≡ Some slot }
        ensures { (q : ℕ × K) →
            view self.new q ≡ update (same_key K.eq) (view self.old) (hash, key.now) None q };

    // equal hashed keys are one key
    ghost respects: { (s : Self) (p q : ℕ × K) →
        same_key K.eq p q ≡ true → view s p ≡ view s q };
}
