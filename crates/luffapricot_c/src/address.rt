//! An address that C holds, and behind it a box or nothing.

ghost use Rattle.std.specs.Prelude.{◌≡◌, Option, Some, None, IsSome};
ghost use Rattle.std.specs.Coded.{coded_option};
ghost use Rattle.luffapricot_c.specs.declared.cache.ByteCache.{ByteCache};
ghost use Rattle.luffapricot_c.specs.contracts.cache.ByteCache.{the_row};

use crate::cache::ByteCache;
use crate::loose::Loose;
use std::alloc::Global;
use std::marker::{Model, Send};

/// The address of a box, or any address and no box. Dropping it leaks the box.
#[repr(C)]
#[derive(Drop)]
pub struct Address {
    at: *mut u8,
    alloc: Global,
    pub(crate) ghost held: { Option ByteCache } by { coded_option the_row.coded },
}

impl Model for Address {
    ghost use Rattle.std.specs.contracts.impls.GlobalAllocator.TheImpl.{ghosts};
    ghost use Rattle.luffapricot_c.specs.contracts.cache.ByteCache.{the_row};
    ghost use Rattle.luffapricot_c.specs.Behind.{held_owns};

    ghost also_owns = { λ l. held_owns (ghosts.dealloc_token l.alloc) the_row l.at l.held };
}

// Any thread may use what is behind it, one at a time.
unsafe impl Send for Address {}

impl Address {
    pub(crate) fn of(loose: Loose<ByteCache, Global>) -> Address
        ensures { result.held ≡ Some loose.value }
    {
        let Loose { at, alloc } = loose;
        Address {
            at: at as *mut u8,
            alloc,
        }
    }

    pub(crate) fn none(at: *mut u8, alloc: Global) -> Address
        ensures { result.held ≡ None }
    {
        Address { at, alloc }
    }

    pub(crate) fn into_loose(self) -> Loose<ByteCache, Global>
        requires { IsSome self.held }
        ensures { self.held ≡ Some result.value }
    {
        let Address { at, alloc } = self;
        Loose {
            at: at as *mut ByteCache,
            alloc,
        }
    }
}
