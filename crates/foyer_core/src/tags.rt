//! An index from hashes to slots, in eight bytes for each bucket: open addressing with linear probing.
//!
//! A tag is in the bucket of its hash or behind it, with no empty bucket between. Buckets behind the last home take
//! what runs over, so no probe wraps round. A removal moves the tags behind it back, so it leaves no marker (Knuth,
//! The Art of Computer Programming, volume 3, section 6.4, algorithm R).

ghost use Rattle.std.specs.Prelude.{◌≡◌, ℕ, ◌+◌, ◌-◌, ◌^◌, ◌<◌, ◌≤◌, Some, None, true, false, IfSome, IfNone, IfOk, OnOk, OnErr, IsOk, IsTrue, ◌↔◌, nat_eq};
ghost use Rattle.std.specs.Bool.{OnTrue, OnFalse};
ghost use Rattle.std.specs.Map.{update};
ghost use Rattle.foyer_core.specs.Probing.{fingerprint, named, tag_in, size_of, count_in, IsProbed, IsProbed-prop, IsOnce, IsBefore};

use crate::tags::buckets::{Buckets, Tag, fingerprint_of, home_of};
use std::alloc::{AllocError, Global};

mod buckets;

// Twice as many homes come with each bit from here on.
const FIRST_BITS: u32 = 2;

// So many buckets come at a time, at least, behind those that are used.
const SPARE: usize = 8;

/// Slots under hashes, each below 2^32 - 1 and entered once.
///
/// Of a hash only a fingerprint of 32 mixed bits is kept, so a slot that is found is one that may have this hash.
#[derive(Drop)]
pub struct Tags {
    buckets: Buckets,
    // there are 2^bits homes, whether these buckets are there or not
    bits: u32,
    // behind all homes and all tags
    end: usize,
    len: usize,
    // for so many slots these homes are enough
    limit: usize,
    alloc: Global,
    ghost few: { bits ≤ 32 },
    ghost homes: { 2 ^ bits ≤ end },
    ghost before: { IsBefore end (tag_in buckets) },
    ghost probed: { IsProbed bits (tag_in buckets) } by { IsProbed-prop bits (tag_in buckets) },
    ghost once: { IsOnce (tag_in buckets) },
    ghost counted: { len ≡ count_in (tag_in buckets) (size_of buckets) },
}

impl Tags {
    ghost use Rattle.foyer_core.specs.Tags.{slots_of, len_of, HasRoomForTags, HasHomesFor};

    /// Creates an index with no slots. Takes no memory.
    pub fn new(alloc: Global) -> Self
        ensures slots { (s : ℕ) → slots_of result s ≡ None }
        ensures len { len_of result ≡ 0 }
    {
        Tags::over(alloc, FIRST_BITS)
    }

    /// Creates an index with no slots and room for so many.
    pub fn with_capacity(alloc: Global, slots: usize) -> Result<Self, AllocError>
        ensures slots { IfOk result (λ t. (s : ℕ) → slots_of t s ≡ None) }
        ensures len { IfOk result (λ t. len_of t ≡ 0) }
        ensures room { IfOk result (λ t. HasRoomForTags t slots) }
    {
        let mut tags = Tags::new(alloc);
        tags.reserve(slots)?;
        Ok(tags)
    }

    // No slots, over so many homes.
    fn over(alloc: Global, bits: u32) -> Self
        requires { bits ≤ 32 }
        ensures slots { (s : ℕ) → slots_of result s ≡ None }
        ensures len { len_of result ≡ 0 }
    {
        Tags {
            buckets: Buckets::new(alloc),
            bits,
            end: homes_of(bits),
            len: 0,
            limit: limit_of(bits),
            alloc,
        }
    }

    /// Returns the number of slots.
    #[inline(always)]
    pub fn len(&self) -> usize
        ensures { result ≡ len_of self.now }
    {
        self.len
    }

    /// Makes room for so many more slots. If memory runs out, nothing has changed.
    #[inline(always)]
    pub fn reserve(&mut self, more: usize) -> Result<(), AllocError>
        ensures room { OnOk result (HasRoomForTags self.new more) }
        ensures slots { (s : ℕ) → slots_of self.new s ≡ slots_of self.old s }
        ensures len { len_of self.new ≡ len_of self.old }
        ensures err { OnErr result ((n : ℕ) → HasRoomForTags self.old n → HasRoomForTags self.new n) }
        ensures granted { HasRoomForTags self.old more → HasHomesFor self.old more → IsOk result }
    {
        if self.has_room(more) {
            return Ok(());
        }
        self.make_room(more)
    }

    // Whether so many more slots have room in these buckets, and these homes are enough for them.
    #[inline(always)]
    fn has_room(&self, more: usize) -> bool
        ensures room { OnTrue result (HasRoomForTags self.now more) }
        ensures granted { HasRoomForTags self.now more → HasHomesFor self.now more → IsTrue result }
    {
        let Some(wanted) = self.end.checked_add(more) else {
            return false;
        };
        wanted <= self.buckets.len() && more <= self.limit.saturating_sub(self.len)
    }

    // Makes room by more buckets, or by more homes.
    #[cold]
    #[inline(never)]
    fn make_room(&mut self, more: usize) -> Result<(), AllocError>
        ensures room { OnOk result (HasRoomForTags self.new more) }
        ensures slots { (s : ℕ) → slots_of self.new s ≡ slots_of self.old s }
        ensures len { len_of self.new ≡ len_of self.old }
        ensures err { OnErr result ((n : ℕ) → HasRoomForTags self.old n → HasRoomForTags self.new n) }
    {
        let bits = bits_for(self.bits, self.len.saturating_add(more));
        if bits == self.bits {
            return self.lengthen(more);
        }
        let wider = self.widened(bits, more)?;
        *self = wider;
        Ok(())
    }

    // Makes room for so many more slots over the same homes.
    #[inline(always)]
    fn lengthen(&mut self, more: usize) -> Result<(), AllocError>
        ensures room { OnOk result (HasRoomForTags self.new more) }
        ensures slots { (s : ℕ) → slots_of self.new s ≡ slots_of self.old s }
        ensures len { len_of self.new ≡ len_of self.old }
        ensures kept { (n : ℕ) → HasRoomForTags self.old n → HasRoomForTags self.new n }
    {
        let Some(wanted) = self.end.checked_add(more) else {
            return Err(AllocError);
        };
        if self.buckets.len() < wanted {
            self.buckets
                .reserve(wanted.saturating_add(self.end / 64 + SPARE))?;
        }
        Ok(())
    }

    // The same slots over so many homes, with room for so many more.
    #[cold]
    #[inline(never)]
    fn widened(&self, bits: u32, more: usize) -> Result<Tags, AllocError>
        requires { bits ≤ 32 }
        ensures slots { IfOk result (λ t. (s : ℕ) → slots_of t s ≡ slots_of self.now s) }
        ensures len { IfOk result (λ t. len_of t ≡ len_of self.now) }
        ensures room { IfOk result (λ t. HasRoomForTags t more) }
    {
        let mut wider = Tags::over(self.alloc, bits);
        for bucket in 0..self.buckets.len() {
            if let Some(tag) = self.buckets.get(bucket) {
                wider.lengthen(1)?;
                wider.put(tag);
            }
        }
        wider.lengthen(more)?;
        Ok(wider)
    }

    /// Returns a slot under a hash for which `is_it` returns true, or `None`. It is called only for slots with the
    /// hash's fingerprint.
    #[inline(always)]
    pub fn find<F: Fn(usize) -> bool>(&self, hash: u64, is_it: F) -> Option<usize>
        requires { (s : ℕ) → slots_of self.now s ≡ Some (fingerprint hash) → F.pre is_it s }
        ensures found { IfSome result (λ s. slots_of self.now s ≡ Some (fingerprint hash)) }
        ensures yes { IfSome result (λ s. F.post is_it s true) }
        ensures absent { IfNone result ((s : ℕ) →
            slots_of self.now s ≡ Some (fingerprint hash) → F.post is_it s false) }
    {
        let found = self.buckets.find(self.bits, fingerprint_of(hash), is_it)?;
        Some(found.slot)
    }

    /// Enters a new slot under a hash, for which there is room. Takes no memory.
    #[inline(always)]
    pub fn insert(&mut self, hash: u64, slot: usize)
        requires room { HasRoomForTags self.old 1 }
        requires slot { slot < 2 ^ 32 - 1 }
        requires new { slots_of self.old slot ≡ None }
        ensures slots { (s : ℕ) →
            slots_of self.new s ≡ update nat_eq (slots_of self.old) slot (Some (fingerprint hash)) s }
        ensures len { len_of self.new ≡ len_of self.old + 1 }
        ensures room { (n : ℕ) → HasRoomForTags self.old (n + 1) → HasRoomForTags self.new n }
    {
        self.put(Tag::new(fingerprint_of(hash), slot));
    }

    // Enters a tag whose slot is new. Needs room.
    #[inline(always)]
    fn put(&mut self, tag: Tag)
        requires named { named (Some tag) ≡ Some tag }
        requires room { HasRoomForTags self.old 1 }
        requires new { slots_of self.old tag.slot ≡ None }
        ensures slots { (s : ℕ) →
            slots_of self.new s ≡ update nat_eq (slots_of self.old) tag.slot (Some tag.fingerprint) s }
        ensures len { len_of self.new ≡ len_of self.old + 1 }
        ensures room { (n : ℕ) → HasRoomForTags self.old (n + 1) → HasRoomForTags self.new n }
    {
        let bucket = self
            .buckets
            .first_empty(home_of(tag.fingerprint, self.bits), self.end);
        self.buckets.put(bucket, tag);
        self.end = self.end.max(bucket + 1);
        self.len += 1;
    }

    /// Replaces a slot under a hash by a new one. Takes no memory.
    #[inline(always)]
    pub fn replace(&mut self, hash: u64, slot: usize, other: usize)
        requires there { slots_of self.old slot ≡ Some (fingerprint hash) }
        requires other { other < 2 ^ 32 - 1 }
        requires new { slots_of self.old other ≡ None }
        ensures slots { (s : ℕ) → slots_of self.new s ≡ update nat_eq
            (update nat_eq (slots_of self.old) slot None) other (Some (fingerprint hash)) s }
        ensures len { len_of self.new ≡ len_of self.old }
        ensures room { (n : ℕ) → HasRoomForTags self.old n → HasRoomForTags self.new n }
    {
        let fingerprint = fingerprint_of(hash);
        let found = self
            .buckets
            .find(self.bits, fingerprint, |found| found == slot);
        let Some(found) = found else {
            unreachable!();
        };
        self.buckets.put(found.bucket, Tag::new(fingerprint, other));
    }

    /// Removes a slot from under a hash, and returns whether it was there. Takes no memory.
    #[inline(always)]
    pub fn remove(&mut self, hash: u64, slot: usize) -> bool
        ensures was { IsTrue result ↔ (slots_of self.old slot ≡ Some (fingerprint hash)) }
        ensures slots { OnTrue result ((s : ℕ) →
            slots_of self.new s ≡ update nat_eq (slots_of self.old) slot None s) }
        ensures len { OnTrue result (len_of self.old ≡ len_of self.new + 1) }
        ensures absent { OnFalse result (self.new ≡ self.old) }
        ensures room { (n : ℕ) → HasRoomForTags self.old n → HasRoomForTags self.new n }
    {
        let found = self
            .buckets
            .find(self.bits, fingerprint_of(hash), |other| other == slot);
        let Some(found) = found else {
            return false;
        };
        self.buckets.take(found.bucket);
        self.buckets.close_gap(self.bits, found.bucket);
        self.len -= 1;
        true
    }

    /// Removes all slots. The room stays.
    pub fn clear(&mut self)
        ensures slots { (s : ℕ) → slots_of self.new s ≡ None }
        ensures len { len_of self.new ≡ 0 }
        ensures room { (n : ℕ) → HasRoomForTags self.old n → HasRoomForTags self.new n }
    {
        self.buckets.clear();
        self.end = homes_of(self.bits);
        self.len = 0;
    }
}

// How many homes there are for fingerprints of so many bits.
#[inline(always)]
fn homes_of(bits: u32) -> usize
    requires { bits ≤ 32 }
    ensures { result ≡ 2 ^ bits }
{
    1 << bits
}

// For how many slots the homes of so many bits are enough: a quarter of them is left over.
#[inline(always)]
fn limit_of(bits: u32) -> usize
    requires { bits ≤ 32 }
    ensures { result ≤ 2 ^ bits }
{
    homes_of(bits) / 4 * 3
}

// How many bits so many slots want, at least as many as there are.
#[inline(always)]
fn bits_for(bits: u32, slots: usize) -> u32
    requires { bits ≤ 32 }
    ensures { result ≤ 32 }
{
    let mut wanted = bits;
    while wanted < 32 && limit_of(wanted) < slots {
        wanted += 1;
    }
    wanted
}
