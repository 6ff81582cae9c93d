//! Open fetches of missing keys, and who waits for them.

use crate::testing::Done;
use foyer_core::{Enqueue, FetchOrTake, InflightManager};
use foyer_policy::Result;

// Numbers wait, and builders are numbers.
type Fetches = InflightManager<u64, u64, u64>;

// Asks for a key of the hash 7, and answers the fetch where it leads, the token, and the builder that came back.
fn ask(
    fetches: &mut Fetches,
    key: u64,
    builder: Option<u64>,
) -> Result<(Option<u64>, u64, Option<u64>)> {
    match fetches.enqueue(0, 7, key, builder, key + 100, u64::MAX)? {
        Enqueue::Lead {
            id,
            token,
            required_fetch_builder,
        } => Ok((Some(id), token, required_fetch_builder)),
        Enqueue::Wait { token } => Ok((None, token, None)),
    }
}

// The first builder that one who waits brings is kept, and given once.
#[test]
fn one_leads_and_others_wait(rt: HostRuntime) -> Done {
    let mut fetches = Fetches::new(rt.alloc());
    assert!(rt; fetches.is_empty() && !fetches.lacks(7, &1, 1));
    assert_eq!(rt; ask(&mut fetches, 1, Some(5))?, (Some(0), 0, Some(5)));
    assert_eq!(rt; ask(&mut fetches, 1, Some(6))?, (None, 1, None));
    assert_eq!(rt; ask(&mut fetches, 2, None)?, (Some(1), 2, None));
    assert_eq!(rt; (fetches.waiters(7, &1), fetches.waiters(8, &1)), (2, 0));
    assert!(rt; fetches.is_open(7, &1, 0) && fetches.lacks(7, &1, 3));
    match fetches.fetch_or_take(7, &1, 0) {
        Some(FetchOrTake::Fetch(builder)) => assert_eq!(rt; builder, 6),
        _ => panic!(rt; "no builder was kept"),
    }
    match fetches.fetch_or_take(7, &1, 0) {
        Some(FetchOrTake::Notifiers(waiters)) => assert_eq!(rt; waiters.len(), 2),
        _ => panic!(rt; "nobody waits"),
    }
    let waiters = fetches.take(7, &2, Some(1)).expect(&rt, "an open fetch");
    assert_eq!(rt; (waiters[0].token, waiters[0].waiter), (2, 102));
    assert!(rt; fetches.is_empty());
    Ok(())
}
