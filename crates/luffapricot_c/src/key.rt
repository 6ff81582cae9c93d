//! Keys of bytes, with the hash that the caller gives them.

ghost use Rattle.std.specs.Prelude.{◌≡◌, IfOk, IfErr, OnOk};
ghost use Rattle.foyer_policy.specs.declared.error.Reason.TheVariants.{NoMemory};

use foyer_policy::{Error, Reason, Result};
use smallvec::SmallVec;
use std::alloc::Global;
use std::hash::{Hash, Hasher};

/// A key or a value of at most so many bytes allocates nothing.
const IN_PLACE: usize = 22;

/// Bytes, which are kept in place if they are few.
pub(crate) type Bytes = SmallVec<u8, IN_PLACE>;

/// A key. Equal keys have equal bytes and equal hashes, so the caller gives equal bytes the same hash.
#[derive(Clone, Drop, PartialEq, Eq)]
pub struct Key {
    pub(crate) hash: u64,
    pub(crate) bytes: Bytes,
}

impl Hash for Key {
    ghost use Rattle.std.specs.Hash as fed;
    ghost use borrow.Author.Rules.{rules};

    ghost hash_input = { λ k. fed.u64 k.hash };

    ghost respects_eq = { Prim.search rules };

    // The hash is the caller's.
    #[inline]
    fn hash<H: Hasher>(&self, state: &mut H) {
        state.write_u64(self.hash);
    }
}

impl Key {
    /// A key of no bytes. It allocates nothing.
    pub(crate) fn empty(alloc: Global) -> Key {
        Key {
            hash: 0,
            bytes: SmallVec::new(alloc),
        }
    }

    /// A key of these bytes.
    pub(crate) fn new(alloc: Global, hash: u64, bytes: &[u8]) -> Result<Key>
        ensures hash { IfOk result (λ key. key.hash ≡ hash) }
        ensures bytes { IfOk result (λ key. (key.bytes).items ≡ bytes.now) }
        ensures refused { IfErr result (λ e. e ≡ NoMemory) }
    {
        Ok(Key {
            hash,
            bytes: copied(alloc, bytes)?,
        })
    }

    /// Replaces the bytes by these, and keeps the room that they have.
    #[inline(always)]
    pub(crate) fn set(&mut self, hash: u64, bytes: &[u8]) -> Result<()>
        ensures hash { self.new.hash ≡ hash }
        ensures bytes { OnOk result ((self.new.bytes).items ≡ bytes.now) }
        ensures refused { IfErr result (λ e. e ≡ NoMemory) }
    {
        self.hash = hash;
        if self.bytes.len() == bytes.len() {
            self.bytes.as_mut_slice().copy_from_slice(bytes);
            return Ok(());
        }
        self.bytes.clear();
        self.bytes.extend_from_slice(bytes)?;
        Ok(())
    }
}

/// A copy of bytes.
#[inline]
pub(crate) fn copied(alloc: Global, bytes: &[u8]) -> Result<Bytes>
    ensures bytes { IfOk result (λ copy. copy.items ≡ bytes.now) }
    ensures refused { IfErr result (λ e. e ≡ NoMemory) }
{
    if bytes.len() <= IN_PLACE {
        return Ok(SmallVec::from_slice(alloc, bytes)?);
    }
    let Ok(mut copy) = Vec::with_capacity(alloc, bytes.len()) else {
        return Err(Error::new(Reason::NoMemory));
    };
    copy.extend_from_slice(bytes)?;
    Ok(SmallVec::from_vec(copy))
}
