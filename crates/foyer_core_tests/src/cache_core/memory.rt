//! With memory at hand no call is refused for want of it. A body that answers so all the same meets every contract.

use super::*;

#[test]
fn every_growth_is_refused(rt: HostRuntime) -> Done {
    let mut core = core(rt.alloc(), 3, 1)?;
    for key in 0..40 {
        let left = put_tenfold(&rt, &mut core, key).len();
        assert_eq!(rt; left, usize::from(key >= 3), "insert of {key}");
    }
    for key in 37..40 {
        assert_eq!(rt;
            put_tenfold(&rt, &mut core, key).len(),
            1,
            "insert of {key} again"
        );
    }
    assert_eq!(rt; core.usage(), 3);
    Ok(())
}

#[test]
fn get_refuses_memory(rt: HostRuntime) -> Done {
    let mut core = core(rt.alloc(), 3, 1)?;
    let (entry, _) = put(&rt, &mut core, 1, 10);
    for _ in 0..100 {
        let again = found(&rt, &mut core, 1);
        release(&rt, &mut core, again);
    }
    release(&rt, &mut core, entry);
    Ok(())
}

// A core of two shards with 2,000 records.
fn many(rt: &impl Abort, alloc: Global) -> Core {
    let mut core = core(alloc, 4000, 2).expect(rt, "a core");
    for key in 0..2000 {
        assert!(rt; put_tenfold(rt, &mut core, key).is_empty());
    }
    core
}

#[test]
fn clear_of_many_is_refused(rt: HostRuntime) -> Done {
    let many = || many(&rt, rt.alloc());
    assert_eq!(rt; many().clear().expect(&rt, "a clear").len(), 2000);
    assert_eq!(rt; many().evict_all(0).expect(&rt, "an eviction").len(), 2000);
    assert_eq!(rt; many().resize(0, 500).expect(&rt, "a resize").len(), 1500);
    let half = many().flush_if(&|key, _| *key % 2 == 0);
    assert_eq!(rt; half.expect(&rt, "a flush").len(), 1000);
    Ok(())
}
