//! Hashes of keys, by which a cache finds their shards and records.

ghost use Rattle.std.specs.Prelude.{◌≡◌, ℕ, ◌+◌, ◌*◌, ◌%◌, ◌^◌, ◌<◌, List, IsTrue};
ghost use Rattle.std.specs.List.{concat, fold};
ghost use Rattle.foyer_policy.specs.Hash.{no_digits, with_bytes, number_of_bytes};

use std::hash::{BuildHasher, BuildHasherDefault, FoldHasher, Hash, Hasher};
use std::marker::Model;

/// Gives each key a hash, and equal keys equal hashes. Every `BuildHasher` is one.
pub trait HashBuilder: Drop + 'static {
    // The hash of a key that makes these writes to a hasher.
    ghost hash_of: { Self → List (List ℕ) → ℕ };

    /// Returns the hash of a key.
    fn hash_one<K: Hash>(&self, key: &K) -> u64
        ensures number { result ≡ hash_of self.now (K.hash_input key.now) }
        ensures equal_keys { (other : K) → IsTrue (K.eq key.now other) → hash_of self.now (K.hash_input other) ≡ result };

    // Each hash fits a `u64`.
    ghost fits: { (s : Self) (writes : List (List ℕ)) → hash_of s writes < 2 ^ 64 };
}

impl<S: BuildHasher + Drop + 'static> HashBuilder for S {
    ghost hash_of = { λ s writes. S.Hasher.finish (fold S.Hasher.write (S.build_hasher s) writes) % 2 ^ 64 };

    ghost use Rattle.std.proofs.lemmas.Nat.{mod_below};
    ghost use Rattle.std.proofs.Common.{lit<};

    ghost fits = { λ _ _. mod_below _ _ (lit< tt) };

    #[inline]
    fn hash_one<K: Hash>(&self, key: &K) -> u64 {
        let mut state = self.build_hasher();
        key.hash(&mut state);
        state.finish()
    }
}

/// The default hash builder of a cache: fast, not cryptographic, with a fixed seed.
///
/// Its hashes aren't promised, and a caller who picks the keys can make them collide.
pub type DefaultHasher = BuildHasherDefault<FoldHasher>;

/// A hasher that reads the written bytes as the digits of a number in base 256, the least significant first, modulo
/// 2^64. So the hash of a `u64` is that number. It builds itself.
#[derive(Clone, Copy, Debug)]
pub struct ModHasher {
    // The sum of the digits so far.
    sum: u64,
    // What the next byte counts: 0 from the ninth byte on.
    place: u64,
}

impl Model for ModHasher {
    ghost use Rattle.foyer_policy.specs.Hash.{Digits};

    ghost Value = { Digits };

    ghost view = { λ h. record { sum = h.sum; place = h.place } };

    ghost inverse = { λ d. record { sum = d.sum; place = d.place } };
}

impl Default for ModHasher {
    ghost is_default = { λ h. h ≡ no_digits };

    #[inline]
    fn default() -> ModHasher {
        ModHasher { sum: 0, place: 1 }
    }
}

impl Hasher for ModHasher {
    ghost write = { with_bytes };

    ghost finish = { λ h. h.sum };

    #[inline]
    fn finish(&self) -> u64 {
        self.sum
    }

    #[inline]
    fn write(&mut self, bytes: &[u8]) {
        for &byte in bytes {
            // No later byte counts.
            if self.place == 0 {
                return;
            }
            self.sum = self
                .sum
                .wrapping_add((byte as u64).wrapping_mul(self.place));
            self.place = self.place.wrapping_mul(256);
        }
    }

    // Eight digits at once.
    #[inline]
    fn write_u64(&mut self, i: u64) {
        self.sum = self.sum.wrapping_add(i.wrapping_mul(self.place));
        self.place = 0;
    }

    #[inline]
    fn write_usize(&mut self, i: usize) {
        self.write_u64(i as u64);
    }
}

impl BuildHasher for ModHasher {
    type Hasher = ModHasher;

    ghost build_hasher = { λ _. no_digits };

    #[inline]
    fn build_hasher(&self) -> ModHasher {
        ModHasher::default()
    }
}

/// Returns the hash that a `ModHasher` gives a key.
pub fn mod_hash<K: Hash>(key: &K) -> u64
    ensures { result ≡ number_of_bytes (concat (K.hash_input key.now)) % 2 ^ 64 }
{
    HashBuilder::hash_one(&ModHasher::default(), key)
}

/// Returns the hash that a `ModHasher` gives a `u64` key: that key.
pub fn mod_hash_of_u64(key: u64) -> u64
    ensures { result ≡ key }
{
    mod_hash(&key)
}
