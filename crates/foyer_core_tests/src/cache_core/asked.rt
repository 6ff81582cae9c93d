//! How often a weighter, a filter and a predicate are asked, and in which order.

use super::*;
use foyer_core::{Ended, FetchTarget};
use std::sync::Arc;
use std::sync::atomic::{AtomicU64, Ordering};
use std::test::Fail;

// Who was asked, in order: the weighter writes a digit 1 behind the others, and the filter a digit 2.
type Trail = Arc<AtomicU64, Global>;

fn write(trail: &Trail, digit: u64) {
    let before = trail.load(Ordering::SeqCst);
    let after = before.wrapping_mul(10).wrapping_add(digit);
    trail.store(after, Ordering::SeqCst);
}

// Who was asked since this was last called.
fn asked(trail: &Trail) -> u64 {
    trail.swap(0, Ordering::SeqCst)
}

// Each record weighs two.
#[derive(Drop)]
struct TracedWeighter {
    trail: Trail,
}

impl Weighter<u64, u64> for TracedWeighter {
    ghost use Rattle.std.specs.Prelude.{◌≡◌};

    ghost weighs = { λ _ _ _ w. w ≡ 2 };

    fn weigh(&self, _key: &u64, _value: &u64) -> usize {
        write(&self.trail, 1);
        2
    }
}

// Admits all keys but 9.
#[derive(Drop)]
struct TracedFilter {
    trail: Trail,
}

impl Filter<u64, u64> for TracedFilter {
    ghost use Rattle.std.specs.Prelude.{◌≡◌, ◌==◌, not};

    ghost admits = { λ _ key _ admitted. admitted ≡ not (key == 9) };

    fn admit(&self, key: &u64, _value: &u64) -> bool {
        write(&self.trail, 2);
        *key != 9
    }
}

type Traced = Core<Fifo, TracedWeighter, TracedFilter>;

// A core with room for two records, whose weighter and filter write this trail.
fn traced(alloc: Global, trail: &Trail) -> std::result::Result<Traced, Fail> {
    let config = RawCacheConfig {
        number: 2,
        ..config(4, 1)
    };
    let weighter = TracedWeighter {
        trail: Arc::try_clone(trail)?,
    };
    let filter = TracedFilter {
        trail: Arc::try_clone(trail)?,
    };
    Ok(CacheCore::new(alloc, config.with_weighter(weighter).with_filter(filter))?)
}

// Whether the insert evicts, replaces or makes a phantom record.
#[test]
fn an_insert_asks_the_weighter_and_then_the_filter(rt: HostRuntime) -> Done {
    let trail = Arc::new(rt.alloc(), AtomicU64::new(0))?;
    let mut core = traced(rt.alloc(), &trail)?;
    assert_eq!(rt; asked(&trail), 0);
    for (key, left) in [(1, 0), (2, 0), (3, 1), (3, 2), (9, 1)] {
        let (entry, leaves) = put(&rt, &mut core, key, 10);
        drop(core.drop_entry(entry));
        assert_eq!(rt;
            (leaves.len(), asked(&trail)),
            (left, 12),
            "insert of {key}"
        );
    }
    assert!(rt; core.contains(0, &3) && !core.contains(0, &9));
    assert_eq!(rt; asked(&trail), 0);
    let mut leaves = Vec::new(rt.alloc());
    let made = core.insert_with_properties_onto(0, 4, 40, CacheProperties::default(), &mut leaves);
    settle(&rt, &mut core, made.expect(&rt, "an insert"));
    assert_eq!(rt; asked(&trail), 12);
    Ok(())
}

#[test]
fn a_completion_asks_as_an_insert_does(rt: HostRuntime) -> Done {
    let trail = Arc::new(rt.alloc(), AtomicU64::new(0))?;
    let mut core = traced(rt.alloc(), &trail)?;
    ask(&rt, &mut core, 1, None);
    assert_eq!(rt; asked(&trail), 0);
    let Ended {
        found,
        answers,
        leaves: _,
    } = core.complete(0, &1, 0, FetchTarget::from(10), Source::Outer);
    core.drop_answers(answers);
    assert!(rt; found && core.contains(0, &1));
    assert_eq!(rt; asked(&trail), 12);
    Ok(())
}

// For a piece of another core the weighter alone is asked, and for one of this core nobody.
#[test]
fn a_foreign_piece_asks_the_weighter_once(rt: HostRuntime) -> Done {
    let trail = Arc::new(rt.alloc(), AtomicU64::new(0))?;
    let mut core = traced(rt.alloc(), &trail)?;
    let mut other = super::core(rt.alloc(), 4, 1)?;
    let (entry, _) = put(&rt, &mut other, 9, 90);
    let made = core.insert_piece(0, entry.piece().expect(&rt, "a piece"));
    release(&rt, &mut other, entry);
    let (entry, _) = taken(&rt, &mut core, made.expect(&rt, "an insert"));
    assert_eq!(rt; (asked(&trail), core.usage()), (1, 2));
    let made = core.insert_piece(0, entry.piece().expect(&rt, "a piece"));
    let (again, _) = taken(&rt, &mut core, made.expect(&rt, "an insert"));
    assert_eq!(rt; asked(&trail), 0);
    release(&rt, &mut core, entry);
    release(&rt, &mut core, again);
    Ok(())
}

// A predicate that adds up the values has asked each record once: a digit of the sum is one record's.
#[test]
fn a_predicate_is_asked_once_of_each_record(rt: HostRuntime) -> Done {
    let mut core = core(rt.alloc(), 256, 4)?;
    let mut value = 1;
    for key in 0..8 {
        let (entry, _) = put(&rt, &mut core, key, value);
        release(&rt, &mut core, entry);
        value *= 10;
    }
    let held = found(&rt, &mut core, 3);
    let sum = AtomicU64::new(0);
    let leaves = core.flush_if(&|key, value| {
        sum.fetch_add(*value, Ordering::SeqCst);
        *key < 4
    });
    release(&rt, &mut core, held);
    assert_eq!(rt; leaves?.len(), 4);
    assert_eq!(rt; sum.swap(0, Ordering::SeqCst), 11111111);
    let leaves = core.flush_if(&|_, value| {
        sum.fetch_add(*value, Ordering::SeqCst);
        false
    })?;
    assert!(rt; leaves.is_empty());
    assert_eq!(rt; sum.load(Ordering::SeqCst), 11110000);
    Ok(())
}
