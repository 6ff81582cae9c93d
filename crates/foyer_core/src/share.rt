//! Shares of the data of records.

ghost use Rattle.std.specs.Prelude.{◌≡◌, IfOk, IfErr, IfSome};
ghost use Rattle.std.specs.Arc.{arc_value};
ghost use Rattle.foyer_policy.specs.declared.error.Reason.TheVariants.{NoMemory};
ghost use Rattle.foyer_core.specs.Values.{body_of, kept_of};

use crate::record::Data;
use foyer_policy::{Error, Reason, Result};
use std::alloc::Global;
use std::marker::Model;
use std::sync::Arc;

/// What all shares of a record have in common.
#[derive(Drop)]
pub struct Body<K, V, P> {
    pub(crate) key: K,
    pub(crate) value: V,
    pub(crate) properties: P,
}

/// A counted reference to a body. Hash and weight are beside it, since a record of another core may have the same
/// body with others.
#[derive(Drop)]
pub struct Share<K, V, P> {
    body: Arc<Body<K, V, P>, Global>,
    hash: u64,
    weight: usize,
}

impl<K, V, P> Model for Share<K, V, P> {
    ghost use Rattle.std.specs.Arc.{arc_value};
    ghost use Rattle.foyer_core.specs.declared.record.Data.{Data};
    ghost use Rattle.foyer_core.specs.Values.{kept_of};

    ghost Value = { Data K V P };

    ghost view = { λ s. kept_of (arc_value s.body) s.hash s.weight };
}

impl<K, V, P> Share<K, V, P> {
    /// Creates the first share of these data. If memory runs out, they come back as `Err`.
    #[inline(always)]
    pub fn new(alloc: Global, kept: Data<K, V, P>) -> std::result::Result<Self, Data<K, V, P>>
    where
        K: Drop,
        V: Drop,
        P: Drop,
        ensures made { IfOk result (λ s. s ≡ kept) }
        ensures returned { IfErr result (λ e. e ≡ kept) }
    {
        let Data {
            key,
            value,
            properties,
            hash,
            weight,
        } = kept;
        match Arc::new(
            alloc,
            Body {
                key,
                value,
                properties,
            },
        ) {
            Ok(body) => Ok(Share { body, hash, weight }),
            Err(failed) => {
                let Body {
                    key,
                    value,
                    properties,
                } = failed.value;
                Err(Data {
                    key,
                    value,
                    properties,
                    hash,
                    weight,
                })
            }
        }
    }

    /// Returns a share of this body with this hash and weight.
    #[inline(always)]
    pub fn of_body(body: Arc<Body<K, V, P>, Global>, hash: u64, weight: usize) -> Self
        ensures { result ≡ kept_of (arc_value body) hash weight }
    {
        Share { body, hash, weight }
    }

    /// Returns the body, and the hash and the weight that are beside it.
    #[inline(always)]
    pub fn into_parts(self) -> (Arc<Body<K, V, P>, Global>, u64, usize)
        ensures { kept_of (arc_value result.0) result.1 result.2 ≡ self }
    {
        let Share { body, hash, weight } = self;
        (body, hash, weight)
    }

    /// Returns the same body with another hash and weight.
    pub fn with(self, hash: u64, weight: usize) -> Self
        ensures { result ≡ record self { hash = hash; weight = weight } }
    {
        let Share { body, .. } = self;
        Share { body, hash, weight }
    }

    /// Returns one more reference to the body, or nothing if the reference count is full.
    #[inline(always)]
    pub fn body(&self) -> Option<Arc<Body<K, V, P>, Global>>
        ensures { IfSome result (λ body. arc_value body ≡ body_of self.now) }
    {
        Arc::try_clone(&self.body).ok()
    }

    /// Returns one more share, or nothing if the reference count is full.
    #[inline(always)]
    pub fn another(&self) -> Option<Self>
        ensures { IfSome result (λ s. s ≡ self.now) }
    {
        Some(Share {
            body: self.body()?,
            hash: self.hash,
            weight: self.weight,
        })
    }

    /// Returns one more share.
    ///
    /// # Errors
    /// F7 if the reference count is full.
    #[inline(always)]
    pub fn try_clone(&self) -> Result<Self>
        ensures share { IfOk result (λ s. s ≡ self.now) }
        ensures refused { IfErr result (λ e. e ≡ NoMemory) }
    {
        match self.another() {
            Some(share) => Ok(share),
            None => Err(Error::new(Reason::NoMemory)),
        }
    }

    #[inline(always)]
    pub fn key(&self) -> &K
        ensures { result.now ≡ self.now.key }
    {
        &self.body.key
    }

    #[inline(always)]
    pub fn value(&self) -> &V
        ensures { result.now ≡ self.now.value }
    {
        &self.body.value
    }

    #[inline(always)]
    pub fn properties(&self) -> &P
        ensures { result.now ≡ self.now.properties }
    {
        &self.body.properties
    }

    #[inline(always)]
    pub fn hash(&self) -> u64
        ensures { result ≡ self.now.hash }
    {
        self.hash
    }

    #[inline(always)]
    pub fn weight(&self) -> usize
        ensures { result ≡ self.now.weight }
    {
        self.weight
    }
}
