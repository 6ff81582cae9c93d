//! The weighter and the filter of a cache.

ghost use Rattle.std.specs.Prelude.{◌≡◌};
ghost use Rattle.foyer_core.specs.Rules.{Judges};
ghost use Rattle.foyer_core.specs.State.{coming_in};

use crate::filter::Filter;
use crate::properties::marked;
use crate::record::Data;
use crate::weighter::Weighter;
use foyer_policy::Properties;

/// The weighter and the filter of a cache.
#[derive(Clone, Copy, Debug, Drop)]
pub struct Rules<W, A> {
    /// Says what a record counts against the capacity.
    pub weighter: W,
    /// Says whether a record is admitted.
    pub filter: A,
}

impl<W, A> Rules<W, A> {
    /// Returns the weight of a record and the properties it is inserted with: asks the weighter, and then the filter.
    ///
    /// A record that isn't admitted, or that is to be on disk alone, gets properties that say that it is phantom.
    #[inline(always)]
    pub fn judge<K, V, P: Properties>(&self, key: &K, value: &V, properties: P) -> (usize, P)
    where
        W: Weighter<K, V>,
        A: Filter<K, V>,
        ensures { Judges (W.weighs self.now.weighter key.now value.now) (A.admits self.now.filter key.now value.now)
            (λ admitted. coming_in P.location_of P.with_phantom_of admitted properties) result.0 result.1 }
    {
        let weight = self.weighter.weigh(key, value);
        let admitted = self.filter.admit(key, value);
        (weight, marked(properties, admitted))
    }

    /// Returns the data of a record to insert, with the weight and the properties that `judge` returns.
    #[inline(always)]
    pub fn data<K, V, P: Properties>(
        &self,
        hash: u64,
        key: K,
        value: V,
        properties: P,
    ) -> Data<K, V, P>
    where
        W: Weighter<K, V>,
        A: Filter<K, V>,
        ensures judged { Judges (W.weighs self.now.weighter key value) (A.admits self.now.filter key value)
            (λ admitted. coming_in P.location_of P.with_phantom_of admitted properties) result.weight result.properties }
        ensures key { result.key ≡ key }
        ensures value { result.value ≡ value }
        ensures hash { result.hash ≡ hash }
    {
        let (weight, properties) = self.judge(&key, &value, properties);
        Data {
            key,
            value,
            properties,
            hash,
            weight,
        }
    }
}
