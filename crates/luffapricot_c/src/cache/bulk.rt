//! What a cache does with all of its records.

ghost use Rattle.luffapricot_c.specs.Bulk.{ClearsAll, EvictsAll, Reconfigures, ResizesTo};
ghost use Rattle.luffapricot_c.specs.Calls.{IfTaken};

use super::ByteCache;
use super::holds::keep;
use crate::status;
use foyer_core::Refused;
use foyer_policy::EvictionConfig;

impl ByteCache {
    pub(crate) fn resize(&mut self, now: u64, capacity: usize) -> u32
        ensures { IfTaken self.old.left.items result self.old self.new (ResizesTo now capacity result self.old self.new) }
    {
        if !self.left.is_empty() {
            return status::UNTOLD;
        }
        match self.core.resize(now, capacity) {
            Ok(left) => {
                keep(&mut self.left, self.has_listener, left);
                status::OK
            }
            Err(Refused { error, leaves }) => {
                keep(&mut self.left, self.has_listener, leaves);
                status::refusal(error)
            }
        }
    }

    pub(crate) fn evict_all(&mut self, now: u64) -> u32
        ensures { IfTaken self.old.left.items result self.old self.new (EvictsAll now result self.old self.new) }
    {
        if !self.left.is_empty() {
            return status::UNTOLD;
        }
        match self.core.evict_all(now) {
            Ok(left) => {
                keep(&mut self.left, self.has_listener, left);
                status::OK
            }
            Err(Refused { error, leaves }) => {
                keep(&mut self.left, self.has_listener, leaves);
                status::refusal(error)
            }
        }
    }

    pub(crate) fn clear(&mut self) -> u32
        ensures { IfTaken self.old.left.items result self.old self.new (ClearsAll result self.old self.new) }
    {
        if !self.left.is_empty() {
            return status::UNTOLD;
        }
        match self.core.clear() {
            Ok(left) => {
                keep(&mut self.left, self.has_listener, left);
                status::OK
            }
            Err(error) => status::refusal(error),
        }
    }

    pub(crate) fn reconfigure(&mut self, config: &EvictionConfig) -> u32
        ensures { Reconfigures config.now result self.old self.new }
    {
        match self.core.reconfigure(config) {
            Ok(()) => status::OK,
            Err(error) => status::refusal(error),
        }
    }
}
