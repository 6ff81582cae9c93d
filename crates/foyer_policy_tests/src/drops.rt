//! Values of lists that count their drops.

use foyer_policy::Lists;
use std::alloc::Global;
use std::process::Abort;
use std::sync::Arc;
use std::sync::atomic::{AtomicU64, Ordering};
use std::test::Fail;

type Drops = Arc<Vec<AtomicU64>, Global>;

// A value that counts its drop at its number.
struct Counted {
    number: usize,
    drops: Drops,
}

impl Drop for Counted {
    fn drop(self) {
        let Counted { number, drops } = self;
        if let Some(count) = drops.get(number) {
            count.fetch_add(1, Ordering::SeqCst);
        }
    }
}

fn no_drops(alloc: Global, values: usize) -> Result<Drops, Fail> {
    let mut counts = Vec::new(alloc);
    for _ in 0..values {
        counts.push(AtomicU64::new(0))?;
    }
    Ok(Arc::new(alloc, counts)?)
}

// Appends the value of a number to a list.
fn push<const N: usize>(
    lists: &mut Lists<Counted, N>,
    list: usize,
    number: usize,
    drops: &Drops,
) -> Result<(), Fail> {
    let drops = Arc::try_clone(drops)?;
    lists.reserve(1)?;
    lists.push_back(list, Counted { number, drops });
    Ok(())
}

// The values of these numbers were dropped so often.
fn assert_drops(rt: &impl Abort, drops: &Drops, numbers: std::ops::Range<usize>, wanted: u64) {
    for number in numbers {
        let count = drops.get(number).map(|count| count.load(Ordering::SeqCst));
        assert_eq!(rt; count, Some(wanted), "drops of {number}");
    }
}

// Through pops, a removal, growths and a value that is overwritten.
#[test]
fn each_value_is_dropped_once(rt: HostRuntime) -> Result<(), Fail> {
    let drops = no_drops(rt.alloc(), 101)?;
    let mut lists: Lists<Counted, 3> = Lists::new(rt.alloc());
    for number in 0..60usize {
        push(&mut lists, number % 3, number, &drops)?;
    }
    assert_drops(&rt, &drops, 0..101, 0);
    for list in 0..3usize {
        lists.pop_front(list);
    }
    assert_drops(&rt, &drops, 0..3, 1);
    if let Some(first) = lists.front(0) {
        let removed = lists.remove(first);
        assert_eq!(rt; removed.number, 3);
        assert_drops(&rt, &drops, 3..101, 0);
    }
    assert_drops(&rt, &drops, 3..4, 1);
    lists.reserve(200)?;
    assert_drops(&rt, &drops, 4..101, 0);
    for number in 60..100usize {
        push(&mut lists, 2, number, &drops)?;
    }
    let other = Counted {
        number: 100,
        drops: Arc::try_clone(&drops)?,
    };
    if let Some(first) = lists.front(1) {
        *lists.get_mut(first) = other;
    }
    assert_drops(&rt, &drops, 4..5, 1);
    assert_drops(&rt, &drops, 5..101, 0);
    drop(lists);
    assert_drops(&rt, &drops, 0..101, 1);
    Ok(())
}

#[test]
fn unused_and_emptied_lists_drop_nothing(rt: HostRuntime) -> Result<(), Fail> {
    let drops = no_drops(rt.alloc(), 1)?;
    let unused: Lists<Counted, 2> = Lists::new(rt.alloc());
    drop(unused);
    let mut emptied: Lists<Counted, 2> = Lists::new(rt.alloc());
    push(&mut emptied, 1, 0, &drops)?;
    emptied.pop_front(1);
    assert_drops(&rt, &drops, 0..1, 1);
    drop(emptied);
    assert_drops(&rt, &drops, 0..1, 1);
    Ok(())
}
