//! Tags in buckets that are probed one after the other.

ghost use Rattle.std.specs.Prelude.{◌≡◌, ◌≢◌, ℕ, ◌-◌, ◌^◌, ◌<◌, ◌≤◌, Some, None, true, false, IfSome, IfNone, OnOk};
ghost use Rattle.foyer_core.specs.Probing.{fingerprint, home, named, tag_in, size_of, IsNamed, AllNamed, IsPut, IsFull, IsProbed, IsProbedBut, IsOnce, IsMoved};

use std::alloc::{AllocError, Global};

// 2^64 divided by the golden ratio, and odd: its multiples spread evenly in their upper bits.
const GOLDEN: u64 = 0x9e37_79b9_7f4a_7c15;

/// A slot, with the fingerprint of its hash.
#[derive(Clone, Copy)]
pub(crate) struct Tag {
    pub(crate) fingerprint: u32,
    // the largest number if there is no slot
    slot: u32,
}

impl Tag {
    /// Creates the tag of a slot below 2^32 - 1.
    #[inline(always)]
    pub(crate) fn new(fingerprint: u32, slot: usize) -> Self
        requires { slot < 2 ^ 32 - 1 }
        ensures named { named (Some result) ≡ Some result }
        ensures fingerprint { result.fingerprint ≡ fingerprint }
        ensures slot { result.slot ≡ slot }
    {
        Tag {
            fingerprint,
            slot: slot as u32,
        }
    }

    // What an empty bucket has.
    #[inline(always)]
    fn empty() -> Self
        ensures { named (Some result) ≡ None }
    {
        Tag {
            fingerprint: 0,
            slot: u32::MAX,
        }
    }
}

/// A tag that was found: its bucket and its slot.
#[derive(Clone, Copy)]
pub(crate) struct Found {
    pub(crate) bucket: usize,
    pub(crate) slot: usize,
}

/// Returns the fingerprint of a hash.
#[inline(always)]
pub(crate) fn fingerprint_of(hash: u64) -> u32
    ensures { result ≡ fingerprint hash }
{
    (hash.wrapping_mul(GOLDEN) >> 32) as u32
}

/// Returns the home of a fingerprint: the bucket at which its probe begins, of 2^bits.
#[inline(always)]
pub(crate) fn home_of(fingerprint: u32, bits: u32) -> usize
    requires { bits ≤ 32 }
    ensures value { result ≡ home bits fingerprint }
    ensures within { result < 2 ^ bits }
{
    (u64::from(fingerprint) >> (32 - bits)) as usize
}

/// Buckets, each with a tag or empty. Only `reserve` adds some.
#[derive(Drop)]
pub(crate) struct Buckets {
    tags: Vec<Tag>,
}

impl Buckets {
    /// Creates no buckets.
    pub(crate) fn new(alloc: Global) -> Self
        ensures tags { (i : ℕ) → tag_in result i ≡ None }
        ensures size { size_of result ≡ 0 }
    {
        Buckets {
            tags: Vec::new(alloc),
        }
    }

    /// Returns the number of buckets.
    #[inline(always)]
    pub(crate) fn len(&self) -> usize
        ensures { result ≡ size_of self.now }
    {
        self.tags.len()
    }

    /// Makes at least so many buckets. New ones are empty.
    pub(crate) fn reserve(&mut self, buckets: usize) -> Result<(), AllocError>
        ensures size { OnOk result (buckets ≤ size_of self.new) }
        ensures more { size_of self.old ≤ size_of self.new }
        ensures tags { (i : ℕ) → tag_in self.new i ≡ tag_in self.old i }
    {
        if self.tags.len() < buckets {
            self.tags.resize(buckets, Tag::empty())?;
        }
        Ok(())
    }

    /// Empties every bucket.
    pub(crate) fn clear(&mut self)
        ensures tags { (i : ℕ) → tag_in self.new i ≡ None }
        ensures size { size_of self.new ≡ size_of self.old }
    {
        self.tags.fill(Tag::empty());
    }

    /// Returns the tag in a bucket, or `None` if it is empty.
    #[inline(always)]
    pub(crate) fn get(&self, bucket: usize) -> Option<Tag>
        requires { bucket < size_of self.now }
        ensures { result ≡ tag_in self.now bucket }
    {
        let tag = self.tags[bucket];
        if tag.slot == u32::MAX {
            None
        } else {
            Some(tag)
        }
    }

    /// Writes a bucket.
    #[inline(always)]
    pub(crate) fn put(&mut self, bucket: usize, tag: Tag)
        requires { bucket < size_of self.old }
        ensures put { IsPut (tag_in self.old) (tag_in self.new) bucket (named (Some tag)) }
        ensures size { size_of self.new ≡ size_of self.old }
    {
        self.tags[bucket] = tag;
    }

    /// Empties a bucket.
    #[inline(always)]
    pub(crate) fn take(&mut self, bucket: usize)
        requires { bucket < size_of self.old }
        ensures put { IsPut (tag_in self.old) (tag_in self.new) bucket None }
        ensures size { size_of self.new ≡ size_of self.old }
    {
        self.put(bucket, Tag::empty());
    }

    /// Returns the first tag of a fingerprint, from its home on, for whose slot `is_it` returns true.
    #[inline(always)]
    pub(crate) fn find<F: Fn(usize) -> bool>(
        &self,
        bits: u32,
        fingerprint: u32,
        is_it: F,
    ) -> Option<Found>
        requires bits { bits ≤ 32 }
        requires probed { IsProbed bits (tag_in self.now) }
        requires callable { AllNamed (tag_in self.now) fingerprint (F.pre is_it) }
        ensures found { IfSome result (λ r. IsNamed (tag_in self.now) fingerprint r.bucket r.slot) }
        ensures yes { IfSome result (λ r. F.post is_it r.slot true) }
        ensures absent { IfNone result (AllNamed (tag_in self.now) fingerprint (λ s. F.post is_it s false)) }
    {
        for bucket in home_of(fingerprint, bits)..self.len() {
            let tag = self.get(bucket)?;
            let slot = tag.slot as usize;
            if tag.fingerprint == fingerprint && is_it(slot) {
                return Some(Found { bucket, slot });
            }
        }
        None
    }

    /// Returns the first empty bucket from one on, before `end`, which is empty.
    #[inline(always)]
    pub(crate) fn first_empty(&self, from: usize, end: usize) -> usize
        requires order { from ≤ end }
        requires within { end < size_of self.now }
        requires end { tag_in self.now end ≡ None }
        ensures full { IsFull (tag_in self.now) from result }
        ensures empty { tag_in self.now result ≡ None }
        ensures from { from ≤ result }
        ensures end { result ≤ end }
    {
        for bucket in from..end {
            if self.get(bucket).is_none() {
                return bucket;
            }
        }
        end
    }

    /// Moves tags back over an empty bucket, until each is found from its home on.
    #[inline(always)]
    pub(crate) fn close_gap(&mut self, bits: u32, bucket: usize)
        requires bits { bits ≤ 32 }
        requires within { bucket < size_of self.old }
        requires empty { tag_in self.old bucket ≡ None }
        requires probed { IsProbedBut bucket bits (tag_in self.old) }
        requires once { IsOnce (tag_in self.old) }
        ensures probed { IsProbed bits (tag_in self.new) }
        ensures once { IsOnce (tag_in self.new) }
        ensures moved { IsMoved (size_of self.old) (tag_in self.old) (tag_in self.new) }
        ensures size { size_of self.new ≡ size_of self.old }
    {
        let mut gap = bucket;
        for next in bucket + 1..self.len() {
            let Some(tag) = self.get(next) else {
                return;
            };
            if home_of(tag.fingerprint, bits) <= gap {
                self.put(gap, tag);
                self.take(next);
                gap = next;
            }
        }
    }
}
