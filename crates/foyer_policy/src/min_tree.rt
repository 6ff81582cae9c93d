//! The first of many numbers that is at most another.

ghost use Rattle.std.specs.Prelude.{◌≡◌, ℕ, ◌+◌, ◌-◌, ◌*◌, ◌^◌, ◌<◌, ◌≤◌, IfOk, IfErr, IfSome, IfNone, length, slice_index, slice_set};
ghost use Rattle.foyer_policy.specs.MinTree.{leftmost, least_of, IsTree, HasHeight};
ghost use Rattle.foyer_policy.specs.declared.error.Reason.TheVariants.{NoMemory};

use crate::error::{Error, Reason, Result};
use std::alloc::Global;
use std::marker::Model;

/// Numbers under indices from 0, as the leaves of a segment tree, in which each node has the least number of its four
/// children. Changing a number, and finding the first one within a limit, take about as many steps as the tree is
/// high.
#[derive(Drop)]
pub(crate) struct MinTree {
    // The root is node 1, and the children of node i are the four from 4 i - 2 on. Node 0 isn't used, so that the
    // four share a line of the cache if memory begins 16 bytes behind a line's start, as large blocks mostly do.
    nodes: Vec<u64>,
    // The nodes from this one on are the leaves, three times its number less two of them, a power of four.
    first_leaf: usize,
    // An index that the owner marks; at first 0.
    marked: usize,
}

impl Model for MinTree {
    ghost use Rattle.std.specs.Prelude.{ℕ, ◌+◌, ◌*◌, ◌<◌, List, drop};
    ghost use Rattle.foyer_policy.specs.MinTree.{IsTree};

    ghost Value = { List ℕ };

    ghost view = { λ t. drop t.first_leaf t.nodes.items };

    ghost invariant = { λ t. IsTree t.first_leaf t.nodes.items × (t.marked + 2 < 3 * t.first_leaf) };
}

// The first leaf of the smallest tree that has so many leaves, or `None` for a huge number.
fn first_for(count: usize) -> Option<usize>
    ensures enough { IfSome result (λ first. count + 2 ≤ 3 * first) }
    ensures few { IfSome result (λ first. 3 * first ≤ 4 * count + 3) }
    ensures fits { IfSome result (λ first. 4 * first < 2 ^ 64) }
    ensures lowest { IfSome result (λ first. (height : ℕ) × (first ≡ leftmost 1 height)) }
    ensures none { IfNone result (2 ^ 62 < count) }
{
    let mut first: usize = 1;
    while 3 * first - 2 < count {
        if first > usize::MAX / 16 {
            return None;
        }
        first = 4 * first - 2;
    }
    Some(first)
}

// The least number of four nodes in a row.
#[inline(always)]
fn least_number(nodes: &[u64], at: usize) -> u64
    requires { at + 3 < length nodes.now }
    ensures { result ≡ least_of nodes.now at }
{
    let left = nodes[at].min(nodes[at + 1]);
    let right = nodes[at + 2].min(nodes[at + 3]);
    left.min(right)
}

// The first of four nodes in a row whose number is at most a limit; one of them must be. It has no branches, since
// nobody can predict which one it is.
#[inline(always)]
fn first_of(nodes: &[u64], at: usize, limit: u64) -> usize
    requires room { at + 3 < length nodes.now }
    requires some { least_of nodes.now at ≤ limit }
    ensures from { at ≤ result }
    ensures to { result ≤ at + 3 }
    ensures within { slice_index nodes.now result ≤ limit }
    ensures first { (j : ℕ) → at ≤ j → j < result → limit < slice_index nodes.now j }
{
    let one = nodes[at] > limit;
    let two = one & (nodes[at + 1] > limit);
    let three = two & (nodes[at + 2] > limit);
    at + usize::from(one) + usize::from(two) + usize::from(three)
}

// The first of some nodes in a row whose number is at most a limit.
#[inline(always)]
fn first_in(nodes: &[u64], start: usize, end: usize, limit: u64) -> Option<usize>
    requires { end ≤ length nodes.now }
    ensures from { IfSome result (λ s. start ≤ s) }
    ensures to { IfSome result (λ s. s < end) }
    ensures within { IfSome result (λ s. slice_index nodes.now s ≤ limit) }
    ensures first { IfSome result (λ s. (j : ℕ) → start ≤ j → j < s → limit < slice_index nodes.now j) }
    ensures none { IfNone result ((j : ℕ) → start ≤ j → j < end → limit < slice_index nodes.now j) }
{
    for node in start..end {
        if nodes[node] <= limit {
            return Some(node);
        }
    }
    None
}

// The index of the first number below a node that is at most a limit, which the node's number must be.
#[inline]
fn first_below(nodes: &[u64], first_leaf: usize, top: usize, limit: u64) -> usize
    requires tree { IsTree first_leaf nodes.now }
    requires top { (0 < top) × (top < length nodes.now) }
    requires number { slice_index nodes.now top ≤ limit }
    ensures leaf { first_leaf + result < length nodes.now }
    ensures within { slice_index nodes.now (first_leaf + result) ≤ limit }
    ensures behind { (height : ℕ) → HasHeight first_leaf top height → leftmost top height ≤ first_leaf + result }
    ensures first { (height : ℕ) → HasHeight first_leaf top height → (l : ℕ) → leftmost top height ≤ l → l < first_leaf + result
        → limit < slice_index nodes.now l }
{
    let mut node = top;
    // Some leaf below the node is within the limit, and none before those is.
    while node < first_leaf {
        node = first_of(nodes, 4 * node - 2, limit);
    }
    node - first_leaf
}

impl MinTree {
    /// Creates at least so many numbers, each the largest.
    ///
    /// # Errors
    /// F7 if memory runs out.
    pub(crate) fn new(alloc: Global, count: usize) -> Result<Self>
        ensures count { IfOk result (λ t. count ≤ length t) }
        ensures few { IfOk result (λ t. length t ≤ 4 * count + 1) }
        ensures greatest { IfOk result (λ t. (i : ℕ) → i < length t → slice_index t i ≡ 2 ^ 64 - 1) }
        ensures refused { IfErr result (λ e. e ≡ NoMemory) }
    {
        let Some(first) = first_for(count) else {
            return Err(Error::new(Reason::NoMemory));
        };
        let Ok(nodes) = Vec::from_elem(alloc, u64::MAX, 4 * first - 2) else {
            return Err(Error::new(Reason::NoMemory));
        };
        Ok(MinTree {
            nodes,
            first_leaf: first,
            marked: 0,
        })
    }

    /// Returns the number at an index.
    #[inline]
    pub(crate) fn get(&self, index: usize) -> u64
        requires { index < length self.now }
        ensures { result ≡ slice_index self.now index }
    {
        self.nodes[self.first_leaf + index]
    }

    /// Changes the number at an index.
    #[inline]
    pub(crate) fn set(&mut self, index: usize, number: u64)
        requires { index < length self.old }
        ensures { self.new ≡ slice_set self.old index number }
    {
        let mut node = self.first_leaf + index;
        self.nodes[node] = number;
        while node > 1 {
            node = (node + 2) / 4;
            let least = least_number(&self.nodes, 4 * node - 2);
            // Above a node that keeps its number nothing changes.
            if self.nodes[node] == least {
                return;
            }
            self.nodes[node] = least;
        }
    }

    /// Returns the least number.
    #[inline(always)]
    pub(crate) fn least(&self) -> u64
        ensures below { (i : ℕ) → i < length self.now → result ≤ slice_index self.now i }
        ensures is { (i : ℕ) × (i < length self.now) × (slice_index self.now i ≡ result) }
    {
        self.nodes[1]
    }

    /// Returns the index of the first number that is at most a limit, or `None`.
    pub(crate) fn first(&self, limit: u64) -> Option<usize>
        ensures within { IfSome result (λ i. (i < length self.now) × (slice_index self.now i ≤ limit)) }
        ensures first { IfSome result (λ i. (j : ℕ) → j < i → limit < slice_index self.now j) }
        ensures none { IfNone result ((j : ℕ) → j < length self.now → limit < slice_index self.now j) }
    {
        if self.nodes[1] > limit {
            return None;
        }
        Some(first_below(&self.nodes, self.first_leaf, 1, limit))
    }

    /// Returns the index of the first number after an index that is at most a limit, or `None`.
    pub(crate) fn first_after(&self, index: usize, limit: u64) -> Option<usize>
        requires { index < length self.now }
        ensures behind { IfSome result (λ i. index < i) }
        ensures within { IfSome result (λ i. (i < length self.now) × (slice_index self.now i ≤ limit)) }
        ensures first { IfSome result (λ i. (j : ℕ) → index < j → j < i → limit < slice_index self.now j) }
        ensures none { IfNone result ((j : ℕ) → index < j → j < length self.now → limit < slice_index self.now j) }
    {
        // No leaf behind the index that is below the node is within the limit.
        let mut node = self.first_leaf + index;
        while node > 1 {
            let parent = (node + 2) / 4;
            if let Some(sibling) = first_in(&self.nodes, node + 1, 4 * parent + 2, limit) {
                return Some(first_below(&self.nodes, self.first_leaf, sibling, limit));
            }
            node = parent;
        }
        None
    }

    /// Returns the index that was marked last, or 0 if none was.
    #[inline]
    pub(crate) fn marked(&self) -> usize
        ensures { result < length self.now }
    {
        self.marked
    }

    /// Marks an index. No number changes.
    #[inline]
    pub(crate) fn mark(&mut self, index: usize)
        requires { index < length self.old }
        ensures { self.new ≡ self.old }
    {
        self.marked = index;
    }
}
