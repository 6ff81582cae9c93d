//! The free nodes of a block, as a list of their own: nodes are added in front, and any one may be taken.

ghost use Rattle.std.specs.Prelude.{◌≡◌, ◌^◌, ◌<◌, None, length, slice_index_or};
ghost use Rattle.std.specs.Option.{ForSome};
ghost use Rattle.foyer_policy.specs.Block.{IsFilled};
ghost use Rattle.foyer_policy.specs.Free.{HasNeighbours, first_beside, joined, leads_back, leads_on, put_free, rewritten};

use crate::link::Link;
use crate::lists::arena::Links;
use crate::lists::block::{Base, Nodes};

// Sets what comes before the node `at`, if there is such a node.
#[inline(always)]
fn set_before<T>(nodes: &mut Nodes<Links, T>, base: Base<Links, T>, at: Link, to: Link)
    requires base { base.ptr ≡ nodes.old.at }
    requires there { ForSome at (IsFilled nodes.old.links) }
    ensures at { nodes.new.at ≡ nodes.old.at }
    ensures links { nodes.new.links ≡ rewritten (leads_back to) at nodes.old.links }
    ensures values { nodes.new.values ≡ nodes.old.values }
{
    if let Some(at) = at.place() {
        let mut links = *nodes.links(base, at);
        links.before = to;
        nodes.set_links(base, at, links);
    }
}

// Sets what comes after the node `at`, if there is such a node.
#[inline(always)]
fn set_after<T>(nodes: &mut Nodes<Links, T>, base: Base<Links, T>, at: Link, to: Link)
    requires base { base.ptr ≡ nodes.old.at }
    requires there { ForSome at (IsFilled nodes.old.links) }
    ensures at { nodes.new.at ≡ nodes.old.at }
    ensures links { nodes.new.links ≡ rewritten (leads_on to) at nodes.old.links }
    ensures values { nodes.new.values ≡ nodes.old.values }
{
    if let Some(at) = at.place() {
        let mut links = *nodes.links(base, at);
        links.after = to;
        nodes.set_links(base, at, links);
    }
}

/// Adds a node without a value in front of the free ones, of which `free` is the first.
#[inline(always)]
pub(super) fn put_free<T, const N: usize>(
    nodes: &mut Nodes<Links, T>,
    base: Base<Links, T>,
    place: usize,
    free: Link,
)
    requires base { base.ptr ≡ nodes.old.at }
    requires within { place < length nodes.old.links }
    requires small { place < 2 ^ 63 }
    requires there { ForSome free (IsFilled nodes.old.links) }
    ensures at { nodes.new.at ≡ nodes.old.at }
    ensures links { nodes.new.links ≡ put_free N place free nodes.old.links }
    ensures values { nodes.new.values ≡ nodes.old.values }
{
    set_before(nodes, base, free, Link::to(place));
    let links = Links {
        list: N,
        before: Link::end(),
        after: free,
    };
    nodes.set_links(base, place, links);
}

/// Takes a node from the free ones, of which `free` is the first, and returns the first that is left.
#[inline(always)]
pub(super) fn take_free<T>(
    nodes: &mut Nodes<Links, T>,
    base: Base<Links, T>,
    place: usize,
    free: Link,
) -> Link
    requires base { base.ptr ≡ nodes.old.at }
    requires there { IsFilled nodes.old.links place }
    requires beside { HasNeighbours nodes.old.links (slice_index_or nodes.old.links place None) }
    ensures at { nodes.new.at ≡ nodes.old.at }
    ensures links { nodes.new.links
        ≡ joined (slice_index_or nodes.old.links place None) nodes.old.links }
    ensures values { nodes.new.values ≡ nodes.old.values }
    ensures first { result ≡ first_beside (slice_index_or nodes.old.links place None) free }
{
    let links = *nodes.links(base, place);
    set_before(nodes, base, links.after, links.before);
    set_after(nodes, base, links.before, links.after);
    match links.before.place() {
        Some(_) => free,
        None => links.after,
    }
}
