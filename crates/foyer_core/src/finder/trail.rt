//! Which slot each key leads to, for contracts only.

ghost use Rattle.std.specs.Prelude.{◌≡◌, ℕ, Bool, Option, None, nat_eq};
ghost use Rattle.std.specs.Map.{update};
ghost use Rattle.foyer_core.specs.Indexer.{same_key};

use foyer_policy::Past;
use std::mem;
use std::snapshot::Snapshot;

/// A list of marks, the last one first.
#[derive(Drop)]
enum Marks<K> {
    /// Nothing.
    Start,
    /// Marks that a key leads to a slot from here on, or to none.
    Mark {
        before: Past<Marks<K>>,
        hash: u64,
        key: Snapshot<K>,
        slot: Option<usize>,
    },
}

/// Which slot each hashed key leads to, by the marks made. Takes no memory, and no code runs for it.
#[derive(Drop)]
pub(crate) struct Trail<K> {
    marks: Past<Marks<K>>,
}

impl<K> Trail<K> {
    ghost use Rattle.foyer_core.specs.Trails.{led, keyed, keyed_with};

    /// Creates a trail in which no key leads to a slot.
    #[inline(always)]
    pub(crate) fn new() -> Self
        ensures led { (eq : K → K → Bool) (q : ℕ × K) → led eq result q ≡ None }
        ensures keyed { (s : ℕ) → keyed result s ≡ None }
    {
        Trail {
            marks: Past::of(&Marks::Start),
        }
    }

    /// Marks that a key leads to a slot from here on, or to none.
    #[inline(always)]
    pub(crate) fn mark(&mut self, hash: u64, key: Snapshot<K>, slot: Option<usize>)
        ensures led { (eq : K → K → Bool) (q : ℕ × K) →
            led eq self.new q ≡ update (same_key eq) (led eq self.old) (hash, key.value) slot q }
        ensures keyed { (s : ℕ) → keyed self.new s ≡ keyed_with slot (hash, key.value) (keyed self.old) s }
    {
        let start = Past::of(&Marks::Start);
        let before = mem::replace(&mut self.marks, start);
        self.marks = Past::of(&Marks::Mark {
            before,
            hash,
            key,
            slot,
        });
    }
}
