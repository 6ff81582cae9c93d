//! Weights in bytes.

ghost use Rattle.std.specs.Prelude.{◌≡◌, ◌+◌, ℕ, length, min};

use foyer_core::Weighter;

/// Text or bytes, weighed by their length. The struct that holds them doesn't count.
pub trait ByteLen {
    ghost use Rattle.std.specs.Prelude.{ℕ};

    // the length in bytes
    ghost bytes_of: { Self → ℕ };

    /// Returns the length in bytes.
    fn byte_len(&self) -> usize
        ensures { result ≡ bytes_of self.now };
}

impl ByteLen for String {
    ghost use Rattle.std.specs.Prelude.{string_len};

    ghost bytes_of = { string_len };

    fn byte_len(&self) -> usize {
        self.len()
    }
}

impl ByteLen for &'static str {
    ghost use Rattle.std.specs.Prelude.{length};

    ghost bytes_of = { λ s. length s.now };

    fn byte_len(&self) -> usize {
        self.len()
    }
}

impl ByteLen for Vec<u8> {
    ghost use Rattle.std.specs.Prelude.{vec_len};

    ghost bytes_of = { vec_len };

    fn byte_len(&self) -> usize {
        self.len()
    }
}

/// Each record weighs the bytes of its key and its value, at most 2^64 - 1.
#[derive(Clone, Copy, Debug, Default)]
pub struct Bytes;

impl<K: ByteLen, V: ByteLen> Weighter<K, V> for Bytes {
    ghost use Rattle.std.specs.Prelude.{◌≡◌, ◌+◌, min};

    ghost weighs = { λ _ k v w. w ≡ min (K.bytes_of k + V.bytes_of v) 18446744073709551615 };

    fn weigh(&self, key: &K, value: &V) -> usize {
        key.byte_len().saturating_add(value.byte_len())
    }
}
