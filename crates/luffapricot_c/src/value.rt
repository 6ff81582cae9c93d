//! Values of bytes, with the weight that the caller gives them.

ghost use Rattle.std.specs.Prelude.{◌≡◌, IfErr, IfOk};
ghost use Rattle.foyer_policy.specs.declared.error.Reason.TheVariants.{NoMemory};
ghost use Rattle.luffapricot_c.specs.Bytes.{IsValue};

use crate::key::{Bytes, copied};
use foyer_core::Weighter;
use foyer_policy::Result;
use std::alloc::Global;

/// A value, what it counts against the capacity, and who owns it.
#[derive(Drop)]
pub struct Value {
    pub(crate) bytes: Bytes,
    pub(crate) weight: usize,
    // What the caller named by a number in place of bytes, or 0.
    pub(crate) owner: u64,
}

impl Value {
    /// A copy of the value.
    pub(crate) fn copied(&self, alloc: Global) -> Result<Value>
        ensures copy { IfOk result (λ v. IsValue (self.now.bytes).items self.now.owner self.now.weight v) }
        ensures refused { IfErr result (λ e. e ≡ NoMemory) }
    {
        Ok(Value {
            bytes: copied(alloc, self.bytes.as_slice())?,
            weight: self.weight,
            owner: self.owner,
        })
    }
}

/// Each record weighs what its value says.
#[derive(Clone, Copy, Debug, Default)]
pub struct GivenWeight;

impl<K> Weighter<K, Value> for GivenWeight {
    ghost use Rattle.std.specs.Prelude.{◌≡◌};

    ghost weighs = { λ _ _ value weight. weight ≡ value.weight };

    #[inline]
    fn weigh(&self, _key: &K, value: &Value) -> usize {
        value.weight
    }
}
