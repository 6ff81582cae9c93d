//! Each value is dropped once, by whoever has it last.

use super::*;
use foyer_core::CoreEntry;
use std::sync::Arc;
use std::sync::atomic::{AtomicU64, Ordering};

// How often each value was dropped, as a digit of the number: the value 2 counts hundreds.
type Drops = Arc<AtomicU64, Global>;

// A value that counts its drop.
struct Counted {
    digit: u64,
    drops: Drops,
}

impl Drop for Counted {
    fn drop(self) {
        let Counted { digit, drops } = self;
        drops.fetch_add(digit, Ordering::SeqCst);
    }
}

type CountedCore = CacheCore<
    Fifo,
    u64,
    Counted,
    CacheProperties,
    ModHasher,
    UnitWeighter,
    AdmitAll,
    (),
    (),
>;

// Puts the value of a digit in under a key: its entry.
fn put_counted(
    rt: &impl Abort,
    core: &mut CountedCore,
    drops: &Drops,
    key: u64,
    digit: u64,
    phantom: bool,
) -> CoreEntry<u64, Counted, CacheProperties> {
    let value = Counted {
        digit,
        drops: Arc::try_clone(drops).expect(rt, "a count"),
    };
    let properties = CacheProperties::default().with_phantom(phantom);
    let made = core.insert_with_properties(0, key, value, properties);
    let Inserted {
        entry,
        answers,
        leaves: _,
    } = made.expect(rt, "an insert");
    core.drop_answers(answers);
    entry
}

#[test]
fn each_value_is_dropped_once(rt: HostRuntime) -> Done {
    let drops: Drops = Arc::new(rt.alloc(), AtomicU64::new(0))?;
    let mut core: CountedCore = CacheCore::new(rt.alloc(), config(2, 1))?;
    for (key, digit) in [(1, 1), (2, 10), (2, 100)] {
        let entry = put_counted(&rt, &mut core, &drops, key, digit, false);
        drop(core.drop_entry(entry));
    }
    // 1 was evicted, and 10 replaced.
    assert_eq!(rt; drops.load(Ordering::SeqCst), 11);
    let phantom = put_counted(&rt, &mut core, &drops, 3, 1_000, true);
    let held = put_counted(&rt, &mut core, &drops, 4, 10_000, false);
    drop(core.drop_entry(phantom));
    assert_eq!(rt; drops.load(Ordering::SeqCst), 1_011);
    let piece = held.piece().expect(&rt, "a piece");
    let leaves = core.clear().expect(&rt, "a clear");
    drop(core.drop_entry(held));
    drop(leaves);
    assert_eq!(rt; drops.load(Ordering::SeqCst), 1_111);
    drop(piece);
    assert_eq!(rt; drops.load(Ordering::SeqCst), 11_111);
    let entry = put_counted(&rt, &mut core, &drops, 5, 100_000, false);
    drop(core.drop_entry(entry));
    drop(core);
    assert_eq!(rt; drops.load(Ordering::SeqCst), 111_111);
    Ok(())
}
