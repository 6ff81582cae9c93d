//! One block of nodes, each with its links and room for a value.

ghost use Rattle.std.specs.Prelude.{◌≡◌, ◌<◌, ℕ, List, Option, Some, None, length, replicate, slice_index_or, slice_set, IfOk, IsOk, ⊤};
ghost use Rattle.std.specs.Borrow.{sem};
ghost use denote.RawPtr.{Ptr};

use std::alloc::{AllocError, Allocator};
use std::marker::{Model, PhantomData, Send, Sync};
use std::mem::{align_of, size_of};

/// One node: its links, and room for a value.
pub(crate) struct Node<L, T> {
    links: L,
    value: T,
}

/// Where a block of nodes begins. It owns nothing.
pub(crate) struct Base<L, T> {
    ptr: *mut Node<L, T>,
}

impl<L, T> Clone for Base<L, T> {
    ghost is_clone = { λ x y. y ≡ x };

    ghost is_infallible = { λ _. ⊤ };

    fn clone(&self) -> Result<Base<L, T>, AllocError> {
        Ok(*self)
    }
}

impl<L, T> Copy for Base<L, T> {}

unsafe impl<L, T> Send for Base<L, T> {}

unsafe impl<L, T> Sync for Base<L, T> {}

/// The owner of the nodes. It takes no space: its holder has the base and the length too.
pub(crate) struct Nodes<L, T> {
    mark: PhantomData<*const (L, T)>,
    ghost at: { Ptr },
    ghost links: { List (Option L) },
    ghost values: { List (Option T) },
}

impl<L, T> Model for Nodes<L, T> {
    ghost use Rattle.foyer_policy.specs.Block.{nodes_own, nodes_lent};

    ghost also_owns = { λ n. nodes_own L.row T.row n.at n.links n.values };

    ghost also_shares = { λ n _ κ. nodes_lent L.row T.row n.at n.links n.values κ };
}

unsafe impl<L: Send, T: Send> Send for Nodes<L, T> {}

unsafe impl<L: Sync, T: Sync> Sync for Nodes<L, T> {}

/// The right to give the block of `len` nodes at `at` back to `alloc`. It takes no space.
pub(crate) struct Deed<L, T, A: Allocator> {
    mark: PhantomData<*const (L, T, A)>,
    ghost at: { Ptr },
    ghost len: { ℕ },
    ghost alloc: { A },
}

impl<L, T, A: Allocator> Model for Deed<L, T, A> {
    ghost use base.Fml.{ftrue};
    ghost use Rattle.foyer_policy.specs.Block.{deed_owns};

    ghost also_owns = { λ d. deed_owns L.row T.row (A.dealloc_token d.alloc) d.at d.len };

    ghost also_shares = { λ _ _ _. ftrue };
}

unsafe impl<L, T, A: Allocator + Send> Send for Deed<L, T, A> {}

// A `&` to it holds nothing.
unsafe impl<L, T, A: Allocator> Sync for Deed<L, T, A> {}

ghost use Rattle.foyer_policy.specs.Block.{FitsBlock};

/// Allocates `len` nodes with neither links nor values. Takes memory only if `len` isn't 0.
pub(crate) fn allocate<L, T, A: Allocator>(
    alloc: &A,
    len: usize,
) -> Result<(Base<L, T>, Nodes<L, T>, Deed<L, T, A>), AllocError>
    requires { FitsBlock L.row T.row len }
    ensures block { IfOk result (λ r. (r.1.at ≡ r.0.ptr) × (r.1.links ≡ replicate len None)
        × (r.1.values ≡ replicate len None) × (r.2.at ≡ r.0.ptr) × (r.2.len ≡ len)
        × (r.2.alloc ≡ alloc.now)) }
    ensures none { len ≡ 0 → IsOk result }
{
    if len == 0 {
        let none = ();
        let base = Base {
            ptr: &raw const none as *mut Node<L, T>,
        };
        return Ok((
            base,
            Nodes { mark: PhantomData },
            Deed { mark: PhantomData },
        ));
    }
    match alloc.allocate(len * size_of::<Node<L, T>>(), align_of::<Node<L, T>>()) {
        Ok(block) => {
            let base = Base {
                ptr: block as *mut Node<L, T>,
            };
            Ok((
                base,
                Nodes { mark: PhantomData },
                Deed { mark: PhantomData },
            ))
        }
        Err(error) => Err(error),
    }
}

/// Frees a block in which no node has a value.
pub(crate) fn deallocate<L, T, A: Allocator>(
    alloc: &A,
    base: Base<L, T>,
    len: usize,
    nodes: Nodes<L, T>,
    deed: Deed<L, T, A>,
)
    requires { (nodes.at ≡ base.ptr) × (length nodes.links ≡ len) × (nodes.values ≡ replicate len None)
        × (deed.at ≡ base.ptr) × (deed.len ≡ len) × (deed.alloc ≡ alloc.now) }
{
    let Nodes { mark: _ } = nodes;
    let Deed { mark: _ } = deed;
    if len != 0 {
        unsafe {
            alloc.deallocate(
                base.ptr as *mut u8,
                len * size_of::<Node<L, T>>(),
                align_of::<Node<L, T>>(),
            );
        }
    }
}

impl<L, T> Nodes<L, T> {
    ghost use Rattle.foyer_policy.specs.Block.{IsFilled};
    ghost use Rattle.foyer_policy.specs.BlockLends.{lends_slot};

    /// Returns the links of a node.
    #[inline(always)]
    pub(crate) fn links(&self, base: Base<L, T>, index: usize) -> &L
        requires { (base.ptr ≡ self.now.at) × IsFilled self.now.links index }
        ensures { slice_index_or self.now.links index None ≡ Some result.now }
    {
        unsafe { &(*base.ptr.add(index)).links }
    }

    /// Writes the links of a node, whether or not it had some.
    #[inline(always)]
    pub(crate) fn set_links(&mut self, base: Base<L, T>, index: usize, links: L)
        requires { (base.ptr ≡ self.old.at) × (index < length self.old.links) }
        ensures { (self.new.at ≡ self.old.at) × (self.new.links ≡ slice_set self.old.links index (Some links))
            × (self.new.values ≡ self.old.values) }
    {
        unsafe { (&raw mut (*base.ptr.add(index)).links).write(links) }
    }

    /// Puts a value into a node that has none.
    #[inline(always)]
    pub(crate) fn write(&mut self, base: Base<L, T>, index: usize, value: T)
        requires { (base.ptr ≡ self.old.at) × (index < length self.old.values)
            × (slice_index_or self.old.values index None ≡ None) }
        ensures { (self.new.at ≡ self.old.at) × (self.new.links ≡ self.old.links)
            × (self.new.values ≡ slice_set self.old.values index (Some value)) }
    {
        unsafe { (&raw mut (*base.ptr.add(index)).value).write(value) }
    }

    /// Moves the value out of a node.
    #[inline(always)]
    pub(crate) fn read(&mut self, base: Base<L, T>, index: usize) -> T
        requires { (base.ptr ≡ self.old.at) × IsFilled self.old.values index }
        ensures value { slice_index_or self.old.values index None ≡ Some result }
        ensures rest { (self.new.at ≡ self.old.at) × (self.new.links ≡ self.old.links)
            × (self.new.values ≡ slice_set self.old.values index None) }
    {
        unsafe { (&raw const (*base.ptr.add(index)).value).read() }
    }

    /// Returns the value of a node.
    #[inline(always)]
    pub(crate) fn get(&self, base: Base<L, T>, index: usize) -> &T
        requires { (base.ptr ≡ self.now.at) × IsFilled self.now.values index }
        ensures { slice_index_or self.now.values index None ≡ Some result.now }
    {
        unsafe { &(*base.ptr.add(index)).value }
    }

    /// Returns the value of a node for writing.
    #[inline(always)]
    pub(crate) fn get_mut(&mut self, base: Base<L, T>, index: usize) -> &mut T
        requires { (base.ptr ≡ self.old.at) × IsFilled self.old.values index }
        ensures* writes_back { sem 𝓛 (lends_slot L.row T.row self.entry index result) }
        ensures value { slice_index_or self.old.values index None ≡ Some result.now }
    {
        unsafe { &mut (*base.ptr.add(index)).value }
    }
}
