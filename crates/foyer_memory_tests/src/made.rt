//! Makers that bring their value's properties, in a cache of each policy.

use crate::no_entry::{LIFE, NOW, piped};
use crate::testing::{Cache, Fetch, Outcome, all_policies, builder, number};
use foyer_memory::CacheProperties;
use foyer_policy::{Fault, Properties};
use foyer_raw::Direct;
use foyer_raw_tests::notes::Note::{Evict, Piece, Remove};
use foyer_raw_tests::notes::Notes;

// A made value lives as long as its properties say, or else as long as the cache says. A fault makes nothing.
#[test]
fn a_made_value_may_bring_its_expiry(rt: HostRuntime) -> Outcome {
    for config in all_policies() {
        let notes = Notes::new(rt.alloc())?;
        let cache: Cache<HostRuntime, Direct<Fetch>> = builder(9, config, &notes)?
            .with_time_to_live(10)
            .build(rt, rt.alloc(), &rt)?;
        for (key, life) in [(1, Some(LIFE)), (2, Some(5)), (3, None)] {
            let expiry = life.map(|life| NOW + life);
            let make = || Ok((
                u64::from(key),
                CacheProperties::default().with_expiry(expiry),
            ));
            let entry = cache.get_or_insert_with_properties(NOW, &key, make)?;
            assert_eq!(rt; (*entry, entry.refs()), (u64::from(key), 1));
            let last = expiry.unwrap_or(NOW + 10) - 1;
            assert!(rt; cache.contains(last, &key) && !cache.contains(last + 1, &key));
            let again = cache.get_or_insert_with_properties(
                last,
                &key,
                || Ok((9, CacheProperties::default())),
            );
            assert_eq!(rt; *again?, u64::from(key));
        }
        let failed = cache.get_or_insert_with_properties(
            NOW,
            &4,
            || Err(Fault::with_text(rt.alloc(), 404, "no such key")),
        );
        assert_eq!(rt;
            (number(failed), cache.contains(NOW, &4)),
            (Some(11), false)
        );
        assert_eq!(rt; (cache.stats().hits, cache.stats().misses), (3, 4));
    }
    Ok(())
}

// A phantom that a maker asks for is returned, and found by nobody.
#[test]
fn a_made_value_may_be_a_phantom(rt: HostRuntime) -> Outcome {
    for config in all_policies() {
        let (cache, notes) = piped(rt, config, 1)?;
        let phantom = CacheProperties::default().with_phantom(true);
        let entry = cache.get_or_insert_with_properties(0, &1, || Ok((10, phantom)))?;
        assert!(rt; *entry == 10 && entry.is_outdated() && !cache.contains(0, &1));
        drop(entry);
        assert!(rt; notes.are(&[Remove(1, 10), Evict(1, 10), Piece(1, 10)]));
    }
    Ok(())
}
