//! Admission of records.

ghost use Rattle.std.specs.Prelude.{◌≡◌, true};

/// Says whether an inserted record is admitted. An insert asks it once, after the weighter.
pub trait Filter<K, V>: Drop {
    ghost use Rattle.std.specs.Prelude.{Bool};

    // what the filter may return
    ghost admits: { Self → K → V → Bool → Type 0 };

    /// Returns whether a record with this key and value is admitted. A record that isn't becomes phantom: its entry
    /// holds it, and no `get` finds it.
    fn admit(&self, key: &K, value: &V) -> bool
        ensures { admits self.now key.now value.now result };
}

/// Admits every record.
#[derive(Clone, Copy, Debug, Default)]
pub struct AdmitAll;

impl<K, V> Filter<K, V> for AdmitAll {
    ghost use Rattle.std.specs.Prelude.{◌≡◌, true};

    ghost admits = { λ _ _ _ admitted. admitted ≡ true };

    #[inline]
    fn admit(&self, _key: &K, _value: &V) -> bool {
        true
    }
}
