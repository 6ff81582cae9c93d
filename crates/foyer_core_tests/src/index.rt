//! What leads from a key to its record: tags, indexes and finders.

use crate::testing::Done;
use foyer_core::{Finder, HashTableIndexer, Indexed, Indexer, Sentry, TagFinder, Tags};
use std::process::Abort;

#[test]
fn a_slot_is_found_where_the_question_says_yes(rt: HostRuntime) -> Done {
    let mut tags = Tags::with_capacity(rt.alloc(), 3)?;
    for (hash, slot) in [(7, 0), (7, 1), (9, 2)] {
        tags.insert(hash, slot);
    }
    assert_eq!(rt; tags.find(7, |slot| slot == 1), Some(1));
    assert_eq!(rt; tags.find(7, |slot| slot != 1), Some(0));
    assert_eq!(rt; tags.find(7, |slot| slot == 2), None);
    tags.replace(9, 2, 4);
    assert_eq!(rt; tags.find(9, |_| true), Some(4));
    assert!(rt; tags.remove(7, 0) && !tags.remove(7, 0) && !tags.remove(9, 1));
    assert_eq!(rt; (tags.len(), tags.find(7, |_| true)), (2, Some(1)));
    tags.clear();
    assert_eq!(rt; (tags.len(), tags.find(7, |_| true)), (0, None));
    Ok(())
}

// Three keys of one hash, and one of them under another.
fn keeps_keys_apart<I: Indexer<u64>>(rt: &impl Abort, index: &mut I) -> Done {
    for (hash, key, id) in [(7, 10, 1), (7, 20, 2), (7, 30, 3), (8, 10, 4)] {
        assert_eq!(rt; index.insert(hash, key, id)?, None);
    }
    assert_eq!(rt; index.insert(7, 20, 5)?, Some(2));
    assert_eq!(rt; (index.get(7, &20), index.get(8, &20)), (Some(5), None));
    assert_eq!(rt;
        (index.remove(7, &10), index.remove(7, &10)),
        (Some(1), None)
    );
    let mut ids = index.drain()?;
    ids.sort()?;
    assert_eq!(rt; ids.as_slice(), [3, 4, 5].as_slice());
    assert_eq!(rt; (index.get(7, &20), index.drain()?.len()), (None, 0));
    Ok(())
}

#[test]
fn keys_of_one_hash_stay_apart(rt: HostRuntime) -> Done {
    let mut index = HashTableIndexer::new(rt.alloc());
    assert!(rt; index.is_empty());
    keeps_keys_apart(&rt, &mut index)?;
    assert!(rt; index.is_empty());
    keeps_keys_apart(&rt, &mut Sentry::new(rt.alloc()))?;
    let _ = index.insert(7, 10, 1)?;
    let guarded = Sentry::from(index);
    assert_eq!(rt; (guarded.get(7, &10), guarded.get(8, &10)), (Some(1), None));
    Ok(())
}

// The greatest slot that fits a tag.
const LAST_NEAR: usize = 4_294_967_294;

// A key leads to one slot, then to another one, and then to none.
fn leads_to<F: Finder<u64>>(rt: &impl Abort, mut finder: F, first: usize, second: usize) -> Done {
    finder.put(1, &5, None, first)?;
    assert_eq!(rt; finder.find(1, &5, |_| true), Some(first));
    finder.put(1, &5, Some(first), second)?;
    assert_eq!(rt; finder.find(1, &5, |_| true), Some(second));
    finder.take(1, &5, second);
    assert_eq!(rt; finder.find(1, &5, |_| true), None);
    Ok(())
}

#[test]
fn keys_lead_to_slots_near_and_far(rt: HostRuntime) -> Done {
    let alloc = rt.alloc();
    let far = LAST_NEAR + 1;
    for (first, second) in [(0, LAST_NEAR), (3, far), (far, 3), (far, usize::MAX)] {
        let tags: TagFinder<u64> = TagFinder::empty(alloc);
        leads_to(&rt, tags, first, second)?;
        let index: Indexed<HashTableIndexer<u64>> = Indexed::empty(alloc);
        leads_to(&rt, index, first, second)?;
    }
    leads_to(&rt, Indexed::from(Sentry::new(alloc)), 1, 2)
}
