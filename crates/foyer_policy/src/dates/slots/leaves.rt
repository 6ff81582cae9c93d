//! The leaves of a tree over slots: for each block of slots, a number that none of its dates is below.

ghost use Rattle.std.specs.Prelude.{◌≡◌, ◌≢◌, ℕ, ◌+◌, ◌*◌, ◌/◌, ◌<◌, ◌≤◌, Some, length, slice_get, slice_index};
ghost use Rattle.foyer_policy.specs.DateSlots.{AreAbove};

use super::row::Row;
use super::{BLOCK, Gone};
use crate::min_tree::MinTree;

// The least date in a block, or the largest number if there is none.
fn least_date(row: &Row, block: usize) -> u64
    ensures { (j : ℕ) (e : ℕ × ℕ) → slice_get row.now.slots j ≡ Some (Some e) → j / 32 ≡ block → result ≤ e.1 }
{
    let start = block.saturating_mul(BLOCK);
    let end = start.saturating_add(BLOCK).min(row.len());
    let mut least = u64::MAX;
    for index in start..end {
        let date = match row.get(index) {
            Some((_, date)) => date,
            None => u64::MAX,
        };
        least = least.min(date);
    }
    least
}

// Sets the leaf of a block to its least date. A function of its own, so that its callers, which rarely need it, stay
// short.
#[inline(never)]
fn refresh(tree: &mut MinTree, row: &Row, block: usize)
    requires { block < length tree.old }
    ensures length { length tree.new ≡ length tree.old }
    ensures here { (j : ℕ) (e : ℕ × ℕ) → slice_get row.now.slots j ≡ Some (Some e) → j / 32 ≡ block
        → slice_index tree.new block ≤ e.1 }
    ensures others { (b : ℕ) → b ≢ block → slice_index tree.new b ≡ slice_index tree.old b }
{
    tree.set(block, least_date(row, block));
}

// Sets the first `count` leaves, which must be those of all slots.
pub(super) fn refresh_all(tree: &mut MinTree, row: &Row, count: usize)
    requires leaves { count ≤ length tree.old }
    requires within { length row.now.slots ≤ 32 * count }
    ensures length { length tree.new ≡ length tree.old }
    ensures above { AreAbove row.now.slots tree.new }
{
    for block in 0..count {
        refresh(tree, row, block);
    }
}

// Sets the leaf of a block anew, if the date that was removed may have been the least. If its place was the first of
// its list, the next to be removed is often beside it: then the block is marked, and its leaf is set when another
// block is marked.
#[inline(always)]
pub(super) fn raise(tree: &mut MinTree, row: &Row, block: usize, gone: Gone)
    requires leaf { block < length tree.old }
    requires above { AreAbove row.now.slots tree.old }
    ensures length { length tree.new ≡ length tree.old }
    ensures above { AreAbove row.now.slots tree.new }
{
    if gone.date > tree.get(block) {
        return;
    }
    if !gone.was_first {
        refresh(tree, row, block);
        return;
    }
    let marked = tree.marked();
    if marked != block {
        refresh(tree, row, marked);
        tree.mark(block);
    }
}

// Lowers the leaf of a block to a new date.
#[inline(always)]
pub(super) fn lower(tree: &mut MinTree, block: usize, date: u64)
    requires { block < length tree.old }
    ensures length { length tree.new ≡ length tree.old }
    ensures here { slice_index tree.new block ≤ date }
    ensures less { (b : ℕ) → slice_index tree.new b ≤ slice_index tree.old b }
{
    if date < tree.get(block) {
        tree.set(block, date);
    }
}
