//! Steps of linked lists over the nodes of an arena: linking a node in, out of its list, and removing it.

ghost use Rattle.std.specs.Prelude.{◌≡◌, ℕ, ◌+◌, ◌<◌, ◌∷◌, ◌++◌, [], Some, None, IsSome, IsTrue, length, map, slice_index_or, slice_set, if◌then◌else◌};
ghost use Rattle.std.specs.Option.{ForSome};
ghost use Rattle.foyer_policy.specs.Arena.{get, value_of, IsArena};
ghost use Rattle.foyer_policy.specs.Lists.{list_at, find, drop_place};
ghost use Rattle.foyer_policy.specs.Chain.{is_at, after_set, before_set, end_set, all_but, lists_of, Linked, IsSound};

use crate::link::Link;
use crate::lists::arena::{Arena, Links};

// Sets what comes after the node `at`, or the list's head if there is no such node.
#[inline(always)]
fn set_after<T, const N: usize>(
    nodes: &mut Arena<T, N>,
    heads: &mut [Link],
    list: usize,
    at: Link,
    to: Link,
)
    requires arena { IsArena nodes.old }
    requires there { ForSome at (λ q. IsSome (get nodes.old q)) }
    requires list { list < length heads.old }
    ensures arena { IsArena nodes.new }
    ensures links { (q : ℕ) → get nodes.new q
        ≡ (if is_at at q then after_set to (get nodes.old q) else get nodes.old q) }
    ensures used { nodes.new.used ≡ nodes.old.used }
    ensures len { nodes.new.len ≡ nodes.old.len }
    ensures heads { heads.new ≡ end_set at list to heads.old }
{
    match at.place() {
        Some(at) => {
            let mut links = nodes.links(at);
            links.after = to;
            nodes.set_links(at, links);
        }
        None => heads[list] = to,
    }
}

// Sets what comes before the node `at`, or the list's tail if there is no such node.
#[inline(always)]
fn set_before<T, const N: usize>(
    nodes: &mut Arena<T, N>,
    tails: &mut [Link],
    list: usize,
    at: Link,
    to: Link,
)
    requires arena { IsArena nodes.old }
    requires there { ForSome at (λ q. IsSome (get nodes.old q)) }
    requires list { list < length tails.old }
    ensures arena { IsArena nodes.new }
    ensures links { (q : ℕ) → get nodes.new q
        ≡ (if is_at at q then before_set to (get nodes.old q) else get nodes.old q) }
    ensures used { nodes.new.used ≡ nodes.old.used }
    ensures len { nodes.new.len ≡ nodes.old.len }
    ensures tails { tails.new ≡ end_set at list to tails.old }
{
    match at.place() {
        Some(at) => {
            let mut links = nodes.links(at);
            links.before = to;
            nodes.set_links(at, links);
        }
        None => tails[list] = to,
    }
}

// Appends a value to a list, in a node that has none.
#[inline(always)]
pub(super) fn link_back<T, const N: usize>(
    nodes: &mut Arena<T, N>,
    heads: &mut [Link],
    tails: &mut [Link],
    list: usize,
    node: usize,
    value: T,
)
    requires sound { IsSound nodes.old heads.old tails.old }
    requires list { list < N }
    requires count { length heads.old ≡ N }
    requires within { node < nodes.old.len }
    requires free { find node (lists_of nodes.old heads.old) ≡ None }
    ensures sound { IsSound nodes.new heads.new tails.new }
    ensures lists { lists_of nodes.new heads.new
        ≡ (let ls = lists_of nodes.old heads.old in
        slice_set ls list (list_at ls list ++ (node, value) ∷ [])) }
    ensures used { nodes.new.used ≡ nodes.old.used + 1 }
    ensures len { nodes.new.len ≡ nodes.old.len }
{
    let before = tails[list];
    let links = Links {
        list,
        before,
        after: Link::end(),
    };
    nodes.insert_at(node, links, value);
    set_after(nodes, heads, list, before, Link::to(node));
    tails[list] = Link::to(node);
}

// Unlinks a node from its list. It keeps its value, and is in no list.
#[inline(always)]
pub(super) fn unlink<T, const N: usize>(
    nodes: &mut Arena<T, N>,
    heads: &mut [Link],
    tails: &mut [Link],
    place: usize,
)
    requires sound { IsSound nodes.old heads.old tails.old }
    requires there { IsSome (find place (lists_of nodes.old heads.old)) }
    ensures arena { IsArena nodes.new }
    ensures linked { Linked (all_but place (get nodes.new)) heads.new tails.new
        (map (drop_place place) (lists_of nodes.old heads.old)) }
    ensures node { get nodes.new place ≡ get nodes.old place }
    ensures used { nodes.new.used ≡ nodes.old.used }
    ensures len { nodes.new.len ≡ nodes.old.len }
{
    let links = nodes.links(place);
    set_after(nodes, heads, links.list, links.before, links.after);
    set_before(nodes, tails, links.list, links.after, links.before);
}

// Appends a node that is in no list to one.
#[inline(always)]
pub(super) fn relink<T, const N: usize>(
    nodes: &mut Arena<T, N>,
    heads: &mut [Link],
    tails: &mut [Link],
    list: usize,
    place: usize,
)
    requires arena { IsArena nodes.old }
    requires list { list < N }
    requires heads { length heads.old ≡ N }
    requires tails { length tails.old ≡ length heads.old }
    requires there { IsSome (get nodes.old place) }
    requires last { ForSome (slice_index_or tails.old list None) (λ q. IsSome (get nodes.old q)) }
    ensures arena { IsArena nodes.new }
    ensures linked { (ls : _) (v : _) → value_of (get nodes.old place) ≡ Some v
        → Linked (all_but place (get nodes.old)) heads.old tails.old ls
        → Linked (get nodes.new) heads.new tails.new
        (slice_set ls list (list_at ls list ++ (place, v) ∷ [])) }
    ensures used { nodes.new.used ≡ nodes.old.used }
    ensures len { nodes.new.len ≡ nodes.old.len }
{
    let before = tails[list];
    set_after(nodes, heads, list, before, Link::to(place));
    tails[list] = Link::to(place);
    let links = Links {
        list,
        before,
        after: Link::end(),
    };
    nodes.set_links(place, links);
}

// Removes the value of a node from its list, and frees the node.
#[inline(always)]
pub(super) fn take_out<T, const N: usize>(
    nodes: &mut Arena<T, N>,
    heads: &mut [Link],
    tails: &mut [Link],
    place: usize,
) -> T
    requires sound { IsSound nodes.old heads.old tails.old }
    requires there { IsSome (find place (lists_of nodes.old heads.old)) }
    ensures sound { IsSound nodes.new heads.new tails.new }
    ensures value { find place (lists_of nodes.old heads.old) ≡ Some result }
    ensures lists { lists_of nodes.new heads.new
        ≡ map (drop_place place) (lists_of nodes.old heads.old) }
    ensures used { nodes.new.used + 1 ≡ nodes.old.used }
    ensures len { nodes.new.len ≡ nodes.old.len }
{
    unlink(nodes, heads, tails, place);
    nodes.remove(place)
}

// Reads what moving a node will write: the nodes at both sides. Returns true.
#[inline(always)]
pub(super) fn has_neighbors<T, const N: usize>(
    nodes: &Arena<T, N>,
    heads: &[Link],
    tails: &[Link],
    place: usize,
) -> bool
    requires sound { IsSound nodes.now heads.now tails.now }
    requires there { IsSome (find place (lists_of nodes.now heads.now)) }
    ensures { IsTrue result }
{
    let links = nodes.links(place);
    is_listed(nodes, links.before) && is_listed(nodes, links.after)
}

// Reads the node that a link leads to, if there is one. Returns true.
#[inline(always)]
fn is_listed<T, const N: usize>(nodes: &Arena<T, N>, at: Link) -> bool
    requires arena { IsArena nodes.now }
    requires there { ForSome at (λ q. IsSome (get nodes.now q)) }
    ensures { IsTrue result }
{
    match at.place() {
        Some(at) => nodes.links(at).list < N,
        None => true,
    }
}
