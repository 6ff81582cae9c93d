//! What the clones, the entries and the tasks of a cache share.

ghost use Rattle.std.specs.Prelude.{◌≡◌, true};
ghost use Rattle.foyer_core.specs.Rules.{Judges};
ghost use Rattle.foyer_core.specs.State.{coming_in};

use crate::counted::{At, Hashed, RawEnded};
use crate::shards::Shards;
use foyer_core::{Data, Filter, Finder, Piece, Rules, Weighter};
use foyer_policy::{EventListener, Eviction, HashBuilder, Key, Properties, Value};
use std::sync::{Arc, Wait};

/// What the clones, the entries and the tasks of a cache share.
///
/// The last owner's drop tells the listener of all records that are still in, as `Clear`.
pub(crate) struct Shared<H, E, K, V, S, P, W, A, L, R, I>
where
    H: Drop,
    E: Eviction,
    K: Key,
    V: Value,
    S: Drop,
    P: Properties,
    W: Drop,
    A: Drop,
    L: EventListener<Key = K, Value = V>,
    R: Drop,
    I: Finder<K>,
{
    pub(crate) shards: Shards<H, E, K, V, P, R, I>,
    pub(crate) hash_builder: Arc<S>,
    pub(crate) rules: Rules<W, A>,
    pub(crate) listener: L,
}

impl<H, E, K, V, S, P, W, A, L, R, I> Drop for Shared<H, E, K, V, S, P, W, A, L, R, I>
where
    H: Drop,
    E: Eviction,
    K: Key,
    V: Value,
    S: Drop,
    P: Properties,
    W: Drop,
    A: Drop,
    L: EventListener<Key = K, Value = V>,
    R: Drop,
    I: Finder<K>,
{
    fn drop(self) {
        let Shared {
            shards,
            hash_builder: _,
            rules: _,
            listener,
        } = self;
        shards.finish(&listener);
    }
}

impl<H, E, K, V, S, P, W, A, L, R, I> Shared<H, E, K, V, S, P, W, A, L, R, I>
where
    H: Wait + Drop,
    E: Eviction,
    K: Key,
    V: Value,
    S: HashBuilder,
    P: Properties,
    W: Weighter<K, V>,
    A: Filter<K, V>,
    L: EventListener<Key = K, Value = V>,
    R: Drop,
    I: Finder<K>,
{
    // Makes a record to insert, of a key with this hash. Asks the weighter, then the filter, with no lock held.
    pub(crate) fn data(&self, hash: u64, key: K, value: V, properties: P) -> Data<K, V, P>
        ensures judged { Judges (W.weighs self.now.rules.weighter key value) (A.admits self.now.rules.filter key value)
            (λ admitted. coming_in P.location_of P.with_phantom_of admitted properties) result.weight result.properties }
        ensures key { result.key ≡ key }
        ensures value { result.value ≡ value }
        ensures hash { result.hash ≡ hash }
    {
        self.rules.data(hash, key, value, properties)
    }

    // Returns the weight of a piece whose key has this hash, by the weighter. If its shard knows the piece, which then
    // holds for ever, the weighter isn't asked, and this is 0.
    pub(crate) fn weight_of(&self, hash: u64, piece: &Piece<K, V, P>) -> usize {
        let is_known = self.shards.lock(hash).knows(hash, piece);
        if is_known {
            return 0;
        }
        self.rules.weighter.weigh(piece.key(), piece.value())
    }

    // Ends an open fetch of a key with this hash by a piece, inserted at `now`. All that wait get F12 if the piece's record
    // has another key or lives in another shard. Asks the weighter of a piece that this cache doesn't know.
    pub(crate) fn complete_piece(
        &self,
        now: At,
        key: Hashed<'_, K>,
        fetch: u64,
        piece: Piece<K, V, P>,
    ) -> RawEnded<K, V, P>
        requires clones { (k c : K) → K.is_clone k c → K.eq c k ≡ true }
    {
        let own = self.hash_builder.hash_one(piece.key());
        let weight = if own == key.hash() && *key.key() == *piece.key() {
            self.weight_of(own, &piece)
        } else {
            0
        };
        let shards = &self.shards;
        let is_home = shards.index_of(own) == shards.index_of(key.hash());
        shards
            .lock(key.hash())
            .complete_piece(shards.alloc, now, key, fetch, piece, own, is_home, weight)
    }
}
