//! Slots: where a shard keeps its records.

ghost use Rattle.std.specs.Prelude.{◌≡◌, ◌+◌, ◌-◌, ◌<◌, ◌≤◌, ◌^◌, IfOk, IfErr, IfSome, OnErr, OnOk, true, false, IsTrue, Some, None, replicate, vec_len, vec_capacity};
ghost use Rattle.foyer_policy.specs.declared.error.Reason.TheVariants.{NoMemory};

use crate::entry::{CoreEntry, Left, discard_all};
use crate::outcome::Further;
use crate::share::{Body, Share};
use foyer_policy::{Error, Reason, Result, Source};
use std::alloc::Global;
use std::marker::Model;
use std::sync::Arc;

/// A record with its id. A resident record has one more share of its body, with which it leaves. Its place in the
/// policy has the number of its slot.
///
/// The fields stand in the order of their use. An allocator puts a large block 16 bytes behind the beginning of a cache
/// line, so the first 48 bytes of a cell are one line of memory, and a drop needs no more.
#[derive(Drop)]
pub struct Slot<K, V, P> {
    id: u64,
    body: Arc<Body<K, V, P>, Global>,
    hash: u64,
    handles: usize,
    leave: Option<Arc<Body<K, V, P>, Global>>,
    weight: usize,
}

impl<K, V, P> Model for Slot<K, V, P> {
    ghost use Rattle.std.specs.Prelude.{◌≡◌, is_some};
    ghost use Rattle.std.specs.Option.{ForSome};
    ghost use Rattle.std.specs.Arc.{arc_value};
    ghost use Rattle.foyer_core.specs.Values.{Kept, kept_of};

    ghost Value = { Kept K V P };

    ghost view = { λ s. record {
      id = s.id;
      kept = kept_of (arc_value s.body) s.hash s.weight;
      handles = s.handles;
      resident = is_some s.leave;
    } };

    ghost invariant = { λ s. ForSome s.leave (λ body. arc_value body ≡ arc_value s.body) };
}

impl<K: Drop, V: Drop, P: Drop> Slot<K, V, P> {
    /// Creates a record with this share of its data and so many handles, in neither index nor policy.
    #[inline(always)]
    pub fn outside(kept: Share<K, V, P>, id: u64, handles: usize) -> Self
        ensures { result ≡ record { id = id; kept = kept; handles = handles; resident = false } }
    {
        let (body, hash, weight) = kept.into_parts();
        Slot {
            id,
            body,
            hash,
            handles,
            leave: None,
            weight,
        }
    }

    /// Gives the record the share with which it leaves.
    ///
    /// # Errors
    /// F7 if the reference count is full.
    #[inline(always)]
    pub fn come_in(&mut self) -> Result<()>
        ensures came { OnOk result (self.new ≡ record self.old { resident = true }) }
        ensures refused { IfErr result (λ e. e ≡ NoMemory) }
    {
        let Ok(body) = Arc::try_clone(&self.body) else {
            return Err(Error::new(Reason::NoMemory));
        };
        self.leave = Some(body);
        Ok(())
    }

    // One more share of the record's data, or nothing if the reference count is full.
    #[inline(always)]
    fn another(&self) -> Option<Share<K, V, P>>
        ensures { IfSome result (λ share. share ≡ self.now.kept) }
    {
        let body = Arc::try_clone(&self.body).ok()?;
        Some(Share::of_body(body, self.hash, self.weight))
    }

    /// Returns one more share of the record's data.
    ///
    /// # Errors
    /// F7 if the reference count is full.
    #[inline(always)]
    pub fn share(&self) -> Result<Share<K, V, P>>
        ensures share { IfOk result (λ share. share ≡ self.now.kept) }
        ensures refused { IfErr result (λ e. e ≡ NoMemory) }
    {
        match self.another() {
            Some(share) => Ok(share),
            None => Err(Error::new(Reason::NoMemory)),
        }
    }

    /// Returns what the record leaves with, in the core of this number.
    ///
    /// # Errors
    /// F7 if the reference count is full.
    #[inline(always)]
    pub fn left(&self, number: u64) -> Result<Left<K, V, P>>
        ensures left { IfOk result (λ l. l ≡ record { number = number; id = self.now.id; kept = self.now.kept }) }
        ensures refused { IfErr result (λ e. e ≡ NoMemory) }
    {
        let share = self.share()?;
        Ok(Left::new(number, self.id, share))
    }

    #[inline(always)]
    pub fn id(&self) -> u64
        ensures { result ≡ self.now.id }
    {
        self.id
    }

    #[inline(always)]
    pub fn hash(&self) -> u64
        ensures { result ≡ self.now.kept.hash }
    {
        self.hash
    }

    #[inline(always)]
    pub fn key(&self) -> &K
        ensures { result.now ≡ self.now.kept.key }
    {
        &self.body.key
    }

    #[inline(always)]
    pub fn value(&self) -> &V
        ensures { result.now ≡ self.now.kept.value }
    {
        &self.body.value
    }

    #[inline(always)]
    pub fn properties(&self) -> &P
        ensures { result.now ≡ self.now.kept.properties }
    {
        &self.body.properties
    }

    #[inline(always)]
    pub fn weight(&self) -> usize
        ensures { result ≡ self.now.kept.weight }
    {
        self.weight
    }

    #[inline(always)]
    pub fn handles(&self) -> usize
        ensures { result ≡ self.now.handles }
    {
        self.handles
    }

    #[inline(always)]
    pub fn is_resident(&self) -> bool
        ensures { result ≡ self.now.resident }
    {
        self.leave.is_some()
    }

    /// Returns an entry of the record, not yet counted, or nothing if the reference count is full. If `told`, it gets a share
    /// for `left`.
    #[inline(always)]
    pub fn entry(
        &self,
        number: u64,
        slot: usize,
        source: Source,
        told: bool,
    ) -> Option<CoreEntry<K, V, P>>
        ensures { IfSome result (λ e. e ≡ record { number = number; id = self.now.id; kept = self.now.kept; source = source; left = told }) }
    {
        CoreEntry::new(number, self.id, slot, self.another()?, source, told)
    }

    /// Returns entries of the record, not yet counted, in a list with spare room, both as `further` says.
    ///
    /// # Errors
    /// F7 if memory runs out or the reference count is full.
    #[inline(always)]
    pub fn entries(
        &self,
        alloc: Global,
        number: u64,
        source: Source,
        further: Further,
    ) -> Result<Vec<CoreEntry<K, V, P>>>
        requires { further.count + further.room < 2 ^ 64 }
        ensures entries { IfOk result (λ es. es.items ≡ replicate further.count
            (record { number = number; id = self.now.id; kept = self.now.kept; source = source; left = true })) }
        ensures refused { IfErr result (λ e. e ≡ NoMemory) }
        ensures room { IfOk result (λ es. vec_len es + further.room ≤ vec_capacity es) }
    {
        let Ok(mut entries) = Vec::with_capacity(alloc, further.count + further.room) else {
            return Err(Error::new(Reason::NoMemory));
        };
        for _made in 0..further.count {
            match self.entry(number, 0, source, true) {
                Some(entry) => entries.push_reserved(entry),
                None => {
                    discard_all(entries);
                    return Err(Error::new(Reason::NoMemory));
                }
            }
        }
        Ok(entries)
    }

    /// Counts so many more handles.
    #[inline(always)]
    pub fn add_handles(&mut self, more: usize)
        requires { self.old.handles + more < 2 ^ 64 }
        ensures { self.new ≡ record self.old { handles = self.old.handles + more } }
    {
        self.handles += more;
    }

    /// Counts one handle less, and returns how many are left.
    #[inline(always)]
    pub fn take_handle(&mut self) -> usize
        requires { 0 < self.old.handles }
        ensures left { result ≡ self.old.handles - 1 }
        ensures taken { self.new ≡ record self.old { handles = self.old.handles - 1 } }
    {
        self.handles -= 1;
        self.handles
    }

    /// Takes the record out of index and policy, and returns what leaves, in the core of this number.
    #[inline(always)]
    pub fn leave(&mut self, number: u64) -> Left<K, V, P>
        requires { IsTrue self.old.resident }
        ensures left { result ≡ record { number = number; id = self.old.id; kept = self.old.kept } }
        ensures out { self.new ≡ record self.old { resident = false } }
    {
        match self.leave.take() {
            Some(body) => Left::new(
                number,
                self.id,
                Share::of_body(body, self.hash, self.weight),
            ),
            None => unreachable!(),
        }
    }

    /// Returns what leaves, in the core of this number.
    #[inline(always)]
    pub fn into_left(self, number: u64) -> Left<K, V, P>
        ensures { result ≡ record { number = number; id = self.id; kept = self.kept } }
    {
        let Slot {
            id,
            body,
            hash,
            weight,
            ..
        } = self;
        Left::new(number, id, Share::of_body(body, hash, weight))
    }
}
