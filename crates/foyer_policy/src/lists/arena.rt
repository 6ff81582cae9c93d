//! Nodes in one block, each with links and a value, or free.

ghost use Rattle.std.specs.Prelude.{◌≡◌, ◌≢◌, ℕ, ◌+◌, ◌^◌, ◌<◌, ◌≤◌, Some, None, OnOk, OnErr, IsOk, IsSome, IsTrue, length, replicate, slice_index_or, slice_set};
ghost use Rattle.std.specs.Option.{ForSome};
ghost use Rattle.foyer_policy.specs.Block.{IsFilled};
ghost use Rattle.foyer_policy.specs.Nodes.{node_with};
ghost use Rattle.foyer_policy.specs.Arena.{get, links_of, value_of, relinked, moved_links, moved_free, IsMarked, IsArena, AreMoved};

use crate::link::Link;
use crate::lists::block::{Base, Deed, Node, Nodes, allocate, deallocate};
use crate::lists::free::{put_free, take_free};
use std::alloc::{AllocError, Global};
use std::mem;
use std_alloc::room::may_hold;

/// The number of a node's list, and where the list goes on at both sides. The free nodes are a list too, whose number
/// no list of values has.
#[derive(Clone, Copy)]
pub(crate) struct Links {
    pub(crate) list: usize,
    pub(crate) before: Link,
    pub(crate) after: Link,
}

/// A block of nodes, each in one of `N` lists with a value, or free. A node keeps its number when the block grows.
pub(crate) struct Arena<T, const N: usize> {
    pub(crate) base: Base<Links, T>,
    pub(crate) len: usize,
    pub(crate) used: usize,
    free: Link,
    pub(crate) nodes: Nodes<Links, T>,
    deed: Deed<Links, T, Global>,
    alloc: Global,
}

impl<T, const N: usize> Arena<T, N> {
    /// Creates an arena with no nodes. Takes no memory.
    pub(crate) fn new(alloc: Global) -> Self
        ensures arena { IsArena result }
        ensures counts { (result.len ≡ 0) × (result.used ≡ 0) }
        ensures none { (q : ℕ) → get result q ≡ None }
    {
        match allocate(&alloc, 0) {
            Ok((base, nodes, deed)) => Arena {
                base,
                len: 0,
                used: 0,
                free: Link::end(),
                nodes,
                deed,
                alloc,
            },
            Err(_) => unreachable!(),
        }
    }

    /// Returns the first free node.
    #[inline(always)]
    pub(crate) fn first_free(&self) -> usize
        requires arena { IsArena self.now }
        requires room { self.now.used < self.now.len }
        ensures vacant { get self.now result ≡ None }
        ensures within { result < self.now.len }
    {
        let Some(place) = self.free.place() else {
            unreachable!()
        };
        place
    }

    /// Puts a value with its links into a free node.
    #[inline(always)]
    pub(crate) fn insert_at(&mut self, place: usize, links: Links, value: T)
        requires arena { IsArena self.old }
        requires within { place < self.old.len }
        requires vacant { get self.old place ≡ None }
        requires list { links.list < N }
        ensures arena { IsArena self.new }
        ensures node { get self.new place ≡ Some (node_with links value) }
        ensures others { (q : ℕ) → q ≢ place → get self.new q ≡ get self.old q }
        ensures counts { (self.new.used ≡ self.old.used + 1) × (self.new.len ≡ self.old.len) }
    {
        self.free = take_free(&mut self.nodes, self.base, place, self.free);
        self.nodes.set_links(self.base, place, links);
        self.nodes.write(self.base, place, value);
        self.used += 1;
    }

    /// Removes the value of a node, which is the first free one then.
    #[inline(always)]
    pub(crate) fn remove(&mut self, place: usize) -> T
        requires arena { IsArena self.old }
        requires there { IsSome (get self.old place) }
        ensures arena { IsArena self.new }
        ensures value { value_of (get self.old place) ≡ Some result }
        ensures gone { get self.new place ≡ None }
        ensures others { (q : ℕ) → q ≢ place → get self.new q ≡ get self.old q }
        ensures counts { (self.new.used + 1 ≡ self.old.used) × (self.new.len ≡ self.old.len) }
    {
        let value = self.nodes.read(self.base, place);
        put_free::<T, N>(&mut self.nodes, self.base, place, self.free);
        self.free = Link::to(place);
        self.used -= 1;
        value
    }

    /// Returns the links of a node that has a value.
    #[inline(always)]
    pub(crate) fn links(&self, place: usize) -> Links
        requires arena { IsArena self.now }
        requires there { IsSome (get self.now place) }
        ensures { links_of (get self.now place) ≡ Some result }
    {
        *self.nodes.links(self.base, place)
    }

    /// Writes the links of a node that has a value.
    #[inline(always)]
    pub(crate) fn set_links(&mut self, place: usize, links: Links)
        requires arena { IsArena self.old }
        requires there { IsSome (get self.old place) }
        requires list { links.list < N }
        ensures arena { IsArena self.new }
        ensures node { get self.new place ≡ relinked links (get self.old place) }
        ensures others { (q : ℕ) → q ≢ place → get self.new q ≡ get self.old q }
        ensures counts { (self.new.used ≡ self.old.used) × (self.new.len ≡ self.old.len) }
    {
        self.nodes.set_links(self.base, place, links);
    }

    /// Returns the value of a node that has one.
    #[inline(always)]
    pub(crate) fn get(&self, place: usize) -> &T
        requires arena { IsArena self.now }
        requires there { IsSome (get self.now place) }
        ensures { value_of (get self.now place) ≡ Some result.now }
    {
        self.nodes.get(self.base, place)
    }

    /// Returns whether a node has a value.
    #[inline(always)]
    pub(crate) fn has_value(&self, place: usize) -> bool
        requires arena { IsArena self.now }
        ensures { IsTrue result → IsSome (get self.now place) }
    {
        place < self.len && self.nodes.links(self.base, place).list < N
    }

    /// Makes room for `more` values beside those in the arena. If memory runs out, nothing has changed.
    pub(crate) fn reserve(&mut self, more: usize) -> Result<(), AllocError>
        requires { IsArena self.old }
        ensures arena { IsArena self.new }
        ensures same { (q : ℕ) → get self.new q ≡ get self.old q }
        ensures used { self.new.used ≡ self.old.used }
        ensures kept { self.old.len ≤ self.new.len }
        ensures room { OnOk result (self.new.used + more ≤ self.new.len) }
        ensures lacking { OnErr result (self.new.len < self.new.used + more) }
        ensures had_room { self.old.used + more ≤ self.old.len → IsOk result }
    {
        let Some(wanted) = self.used.checked_add(more) else {
            return Err(AllocError);
        };
        self.reserve_to(wanted)
    }

    /// Makes nodes until there are so many. If memory runs out, nothing has changed.
    pub(crate) fn reserve_to(&mut self, wanted: usize) -> Result<(), AllocError>
        requires { IsArena self.old }
        ensures arena { IsArena self.new }
        ensures same { (q : ℕ) → get self.new q ≡ get self.old q }
        ensures used { self.new.used ≡ self.old.used }
        ensures kept { self.old.len ≤ self.new.len }
        ensures enough { OnOk result (wanted ≤ self.new.len) }
        ensures lacking { OnErr result (self.new.len < wanted) }
        ensures had_len { wanted ≤ self.old.len → IsOk result }
    {
        if wanted <= self.len {
            return Ok(());
        }
        self.grow(wanted.max(2 * self.len).max(4))
    }

    // Moves all nodes to a block of `len`, in which each keeps its number. The free ones are linked by rising
    // numbers.
    fn grow(&mut self, len: usize) -> Result<(), AllocError>
        requires arena { IsArena self.old }
        requires more { self.old.len < len }
        ensures arena { IsArena self.new }
        ensures same { (q : ℕ) → get self.new q ≡ get self.old q }
        ensures used { self.new.used ≡ self.old.used }
        ensures grown { OnOk result (self.new.len ≡ len) }
        ensures refused { OnErr result (self.new.len ≡ self.old.len) }
    {
        if !may_hold::<Node<Links, T>>(len) {
            return Err(AllocError);
        }
        let (base, mut nodes, deed) = allocate(&self.alloc, len)?;
        let free = hand_over_all::<T, N>(
            &mut self.nodes,
            self.base,
            self.len,
            &mut nodes,
            base,
            len,
        );
        let old_nodes = mem::replace(&mut self.nodes, nodes);
        let old_deed = mem::replace(&mut self.deed, deed);
        deallocate(&self.alloc, self.base, self.len, old_nodes, old_deed);
        self.base = base;
        self.len = len;
        self.free = free;
        Ok(())
    }

    /// Frees the block, in which no node has a value.
    pub(crate) fn destroy_empty(self)
        requires arena { IsArena self }
        requires empty { self.used ≡ 0 }
    {
        let Arena {
            base,
            len,
            used: _,
            free: _,
            nodes,
            deed,
            alloc,
        } = self;
        deallocate(&alloc, base, len, nodes, deed);
    }
}

// Moves the nodes of a block to a larger one, and returns the first free one there.
fn hand_over_all<T, const N: usize>(
    from: &mut Nodes<Links, T>,
    from_base: Base<Links, T>,
    from_len: usize,
    to: &mut Nodes<Links, T>,
    base: Base<Links, T>,
    len: usize,
) -> Link
    requires from { (from_base.ptr ≡ from.old.at) × (length from.old.links ≡ from_len)
        × (length from.old.values ≡ from_len) }
    requires marked { (q : ℕ) → q < from_len
        → IsMarked N (slice_index_or from.old.links q None) (slice_index_or from.old.values q None) }
    requires to { (base.ptr ≡ to.old.at) × (to.old.links ≡ replicate len None)
        × (to.old.values ≡ replicate len None) }
    requires more { (from_len ≤ len) × (len < 2 ^ 63) }
    ensures from { (from.new.at ≡ from.old.at) × (from.new.links ≡ from.old.links) × (to.new.at ≡ to.old.at) }
    ensures moved { AreMoved N from.old.links from.old.values from.new.values to.new.links to.new.values result 0 }
    ensures len { length to.new.links ≡ len }
{
    let mut free = Link::end();
    let mut place = len;
    while place > 0 {
        place -= 1;
        free = hand_over::<T, N>(from, from_base, from_len, to, base, place, free);
    }
    free
}

// Moves a node with its links and its value to the same number of another block. If it has no value, it is free
// there, before `free`. Returns the first free one then.
#[inline(always)]
fn hand_over<T, const N: usize>(
    from: &mut Nodes<Links, T>,
    from_base: Base<Links, T>,
    from_len: usize,
    to: &mut Nodes<Links, T>,
    base: Base<Links, T>,
    place: usize,
    free: Link,
) -> Link
    requires from { (from_base.ptr ≡ from.old.at) × (length from.old.links ≡ from_len)
        × (length from.old.values ≡ from_len) }
    requires marked { place < from_len
        → IsMarked N (slice_index_or from.old.links place None) (slice_index_or from.old.values place None) }
    requires to { (base.ptr ≡ to.old.at) × (place < length to.old.links) × (place < length to.old.values)
        × (slice_index_or to.old.values place None ≡ None) }
    requires free { ForSome free (IsFilled to.old.links) }
    requires small { place < 2 ^ 63 }
    ensures from { (from.new.at ≡ from.old.at) × (from.new.links ≡ from.old.links)
        × (from.new.values ≡ slice_set from.old.values place None) }
    ensures to { (to.new.at ≡ to.old.at)
        × (to.new.links ≡ moved_links N (slice_index_or from.old.links place None)
        (slice_index_or from.old.values place None) place free to.old.links)
        × (to.new.values ≡ slice_set to.old.values place (slice_index_or from.old.values place None)) }
    ensures free { result ≡ moved_free (slice_index_or from.old.values place None) place free }
{
    if place < from_len {
        let links = *from.links(from_base, place);
        if links.list != N {
            to.set_links(base, place, links);
            let value = from.read(from_base, place);
            to.write(base, place, value);
            return free;
        }
    }
    put_free::<T, N>(to, base, place, free);
    Link::to(place)
}
