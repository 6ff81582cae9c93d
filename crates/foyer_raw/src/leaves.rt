//! What left with a call.

ghost use Rattle.std.specs.Prelude.{◌≡◌, []};
ghost use Rattle.foyer_raw.specs.Told.{IsUntold, told_of};

use foyer_core::Leave;
use std::alloc::Global;
use std::mem::replace;

/// What left with a call, in order. Up to two records take no memory.
#[derive(Drop)]
pub struct Leaves<K: Drop, V: Drop, P: Drop> {
    pub(crate) first: Option<Leave<K, V, P>>,
    pub(crate) second: Option<Leave<K, V, P>>,
    pub(crate) more: Vec<Leave<K, V, P>>,
}

impl<K: Drop, V: Drop, P: Drop> Leaves<K, V, P> {
    /// Nothing.
    #[inline(always)]
    pub fn new(alloc: Global) -> Self
        ensures { IsUntold result }
    {
        Leaves {
            first: None,
            second: None,
            more: Vec::new(alloc),
        }
    }

    // Takes all from a list, which keeps its room if at most two are in it.
    #[inline(always)]
    pub(crate) fn take(&mut self, all: &mut Vec<Leave<K, V, P>>)
        requires { IsUntold self.old }
        ensures told { told_of self.new ≡ all.old.items }
        ensures taken { all.new.items ≡ [] }
    {
        match all.len() {
            0 => {}
            1 => self.first = all.pop(),
            _ => self.take_many(all),
        }
    }

    #[cold]
    #[inline(never)]
    fn take_many(&mut self, all: &mut Vec<Leave<K, V, P>>)
        requires { IsUntold self.old }
        ensures told { told_of self.new ≡ all.old.items }
        ensures taken { all.new.items ≡ [] }
    {
        if all.len() == 2 {
            self.second = all.pop();
            self.first = all.pop();
            return;
        }
        let none = Vec::new(*all.allocator());
        self.more = replace(all, none);
    }
}
