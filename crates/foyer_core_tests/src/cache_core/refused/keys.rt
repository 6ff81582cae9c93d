//! Calls for which a clone of the key is refused.

use super::*;
use crate::refusing::{Grants, RefusingKey};
use foyer_core::{Ended, FetchTarget, HashTableIndexer, Indexed, Lookup, Outcome, Refused};
use std::sync::Arc;
use std::sync::atomic::{AtomicU64, Ordering};
use std::test::Fail;

// A core over keys whose clones are refused, where numbers wait.
type Keyed<I = TagFinder<RefusingKey>> = CacheCore<
    Fifo,
    RefusingKey,
    u64,
    CacheProperties,
    ModHasher,
    UnitWeighter,
    AdmitAll,
    u64,
    u64,
    I,
>;

// One of capacity 2 that holds the keys 1 and 2, for which so many clones are granted, and none further.
fn keyed<I: Finder<RefusingKey>>(
    rt: &impl Abort,
    alloc: Global,
    needed: u64,
) -> std::result::Result<(Keyed<I>, Grants), Fail> {
    let grants = Arc::new(alloc, AtomicU64::new(needed))?;
    let mut core = CacheCore::with_index(alloc, config(2, 1))?;
    for number in 1..3 {
        let made = core.insert(0, RefusingKey::new(number, &grants)?, 0);
        assert_eq!(rt; came_in(rt, &mut core, made), (true, 0));
    }
    assert_eq!(rt; grants.load(Ordering::SeqCst), 0);
    Ok((core, grants))
}

// Whether a record came in, or memory was refused, and how many left.
fn came_in<I: Finder<RefusingKey>>(
    rt: &impl Abort,
    core: &mut Keyed<I>,
    made: std::result::Result<
        Inserted<RefusingKey, u64, CacheProperties, u64>,
        Refused<RefusingKey, u64, CacheProperties>,
    >,
) -> (bool, usize) {
    match made {
        Ok(made) => {
            let Inserted {
                entry,
                answers,
                leaves,
            } = made;
            core.drop_answers(answers);
            drop(core.drop_entry(entry));
            (true, leaves.len())
        }
        Err(refused) => {
            assert_eq!(rt; refused.error.number(), 7);
            (false, refused.leaves.len())
        }
    }
}

// The last insert evicts the other record, and replaces the key's own.
#[test]
fn an_insert_needs_no_clone_of_the_key(rt: HostRuntime) -> Done {
    let (mut core, grants) = keyed::<TagFinder<RefusingKey>>(&rt, rt.alloc(), 0)?;
    let phantom = CacheProperties::default().with_phantom(true);
    let made = core.insert_with_properties(0, RefusingKey::new(3, &grants)?, 0, phantom);
    assert_eq!(rt; came_in(&rt, &mut core, made), (true, 1));
    for gone in [1, 2] {
        let made = core.insert(0, RefusingKey::new(3, &grants)?, 0);
        assert_eq!(rt; came_in(&rt, &mut core, made), (true, gone));
    }
    assert!(rt; core.contains(0, &RefusingKey::new(3, &grants)?));
    assert_eq!(rt; (core.usage(), core.entries()), (1, 1));
    Ok(())
}

// An index keeps the keys, and asks for a clone once the eviction is made. A phantom record isn't put into it.
#[test]
fn an_insert_into_an_index_needs_a_clone_of_the_key(rt: HostRuntime) -> Done {
    type Keeping = Indexed<HashTableIndexer<RefusingKey>>;
    let (mut core, grants) = keyed::<Keeping>(&rt, rt.alloc(), 2)?;
    let phantom = CacheProperties::default().with_phantom(true);
    let made = core.insert_with_properties(0, RefusingKey::new(3, &grants)?, 0, phantom);
    assert_eq!(rt; came_in(&rt, &mut core, made), (true, 1));
    let made = core.insert(0, RefusingKey::new(3, &grants)?, 0);
    assert_eq!(rt; came_in(&rt, &mut core, made), (false, 1));
    assert_eq!(rt; (core.usage(), core.entries()), (1, 1));
    grants.store(1, Ordering::SeqCst);
    let made = core.insert(0, RefusingKey::new(3, &grants)?, 0);
    assert_eq!(rt; came_in(&rt, &mut core, made), (true, 0));
    assert!(rt; core.contains(0, &RefusingKey::new(3, &grants)?));
    Ok(())
}

// A slot that fits no tag is in an index.
#[test]
fn a_far_slot_needs_a_clone_of_the_key(rt: HostRuntime) -> Done {
    const FAR: usize = 4_294_967_295;
    let grants = Arc::new(rt.alloc(), AtomicU64::new(0))?;
    let key = RefusingKey::new(7, &grants)?;
    let mut finder: TagFinder<RefusingKey> = TagFinder::empty(rt.alloc());
    finder.put(1, &key, None, 3)?;
    finder.put(1, &key, Some(3), FAR - 1)?;
    let Err(error) = finder.put(1, &key, Some(FAR - 1), FAR) else {
        panic!(&rt; "the clone is not refused");
    };
    assert_eq!(rt;
        (error.number(), finder.find(1, &key, |_| true)),
        (7, Some(FAR - 1))
    );
    grants.store(1, Ordering::SeqCst);
    finder.put(1, &key, Some(FAR - 1), FAR)?;
    assert_eq!(rt; finder.find(1, &key, |_| true), Some(FAR));
    finder.take(1, &key, FAR);
    assert_eq!(rt; finder.find(1, &key, |_| true), None);
    Ok(())
}

// Neither a record that is in needs one, nor one that comes back.
#[test]
fn a_piece_needs_no_clone_of_the_key(rt: HostRuntime) -> Done {
    let (mut core, grants) = keyed::<TagFinder<RefusingKey>>(&rt, rt.alloc(), 0)?;
    let one = RefusingKey::new(1, &grants)?;
    let entry = core
        .get(0, &one)
        .expect(&rt, "a get")
        .expect(&rt, "an entry");
    let piece = entry.piece().expect(&rt, "a piece");
    drop(core.drop_entry(entry));
    let made = core.insert_piece(0, piece.clone()?);
    assert_eq!(rt; came_in(&rt, &mut core, made), (true, 0));
    core.clear()?;
    assert_eq!(rt; (core.contains(0, &one), core.usage()), (false, 0));
    let made = core.insert_piece(0, piece);
    assert_eq!(rt; came_in(&rt, &mut core, made), (true, 0));
    assert_eq!(rt; (core.contains(0, &one), core.usage()), (true, 1));
    Ok(())
}

// A key that is looked up: the fetch that is led, or none where memory is refused.
fn lead(rt: &impl Abort, core: &mut Keyed, key: &RefusingKey) -> Option<u64> {
    match core.get_or_enqueue(0, key, None, 5) {
        Ok(
            Lookup::Lead {
                fetch,
                token: _,
                required: _,
            },
        ) => Some(fetch),
        Ok(Lookup::Wait { token: _ }) => panic!(rt; "it is fetched already"),
        Ok(Lookup::Hit(entry)) => {
            entry.discard();
            panic!(rt; "it is found")
        }
        Err(error) => {
            assert_eq!(rt; error.number(), 7);
            None
        }
    }
}

// A refused look-up opens no fetch. Where the fetch ends and its key can't be cloned, it is closed all the same.
#[test]
fn a_fetch_needs_a_clone_of_the_key(rt: HostRuntime) -> Done {
    let (mut core, grants) = keyed::<TagFinder<RefusingKey>>(&rt, rt.alloc(), 0)?;
    let three = RefusingKey::new(3, &grants)?;
    assert_eq!(rt; lead(&rt, &mut core, &three), None);
    assert!(rt; !core.is_open(&three, 0));
    grants.store(1, Ordering::SeqCst);
    assert_eq!(rt; lead(&rt, &mut core, &three), Some(0));
    let Ended {
        found,
        answers,
        leaves,
    } = core.complete(0, &three, 0, FetchTarget::from(30), Source::Outer);
    assert!(rt; found && leaves.is_empty() && answers.waiters.len() == 1);
    match &answers.outcome {
        Outcome::Fault(error) => assert_eq!(rt; error.number(), 7),
        _ => panic!(rt; "the completion is not refused"),
    }
    core.drop_answers(answers);
    assert!(rt; !core.is_open(&three, 0) && !core.contains(0, &three) && core.usage() == 2);
    Ok(())
}
