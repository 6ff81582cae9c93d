//! Fetches of missing keys.

use super::*;
use foyer_core::{Ended, FetchOrTake, FetchTarget};
use foyer_policy::Fault;
use std::sync::Arc;

type End = Ended<u64, u64, CacheProperties, u64>;

// What those got who waited.
#[derive(Clone, Copy, PartialEq, Eq, Debug)]
enum Got {
    Nothing,
    Refusal(u8),
    Value(u64, Source),
}

// How a fetch ended: whether it was open, how many were answered, and what they got. Their entries go back.
fn ending(rt: &impl Abort, core: &mut Core, ended: End) -> (bool, usize, Got) {
    let Ended {
        found,
        answers,
        leaves: _,
    } = ended;
    let (waiters, entries) = answers.into_parts();
    let got = match entries {
        Err(error) => Got::Refusal(error.number()),
        Ok(mut entries) => {
            assert_eq!(rt; entries.len(), waiters.len());
            let mut got = Got::Nothing;
            while let Some(entry) = entries.pop() {
                got = Got::Value(*entry.value(), entry.source());
                drop(core.drop_entry(entry));
            }
            entries.destroy_empty();
            got
        }
    };
    (found, waiters.len(), got)
}

#[test]
fn a_fetch_answers_all_who_wait(rt: HostRuntime) -> Done {
    let mut core = core(rt.alloc(), 4, 1)?;
    assert_eq!(rt;
        ask(&rt, &mut core, 7, Some(5)),
        Asked::Leads(0, 0, Some(5))
    );
    assert_eq!(rt; ask(&rt, &mut core, 7, None), Asked::Waits(1));
    assert_eq!(rt; ask(&rt, &mut core, 8, None), Asked::Leads(1, 2, None));
    assert!(rt; core.is_open(&7, 0) && core.is_open(&8, 1) && !core.is_open(&8, 0));
    let ended = core.complete(0, &7, 0, FetchTarget::from(70), Source::Disk);
    let ended = ending(&rt, &mut core, ended);
    assert_eq!(rt; ended, (true, 2, Got::Value(70, Source::Disk)));
    assert_eq!(rt; ask(&rt, &mut core, 7, None), Asked::Hit(70));
    Ok(())
}

// The overtaken fetch writes nothing. Answers that nobody wants give their handles back.
#[test]
fn an_insert_overtakes_a_fetch(rt: HostRuntime) -> Done {
    let mut core = core(rt.alloc(), 4, 1)?;
    for _ in 0..2 {
        ask(&rt, &mut core, 7, None);
    }
    let Inserted {
        entry,
        answers,
        leaves,
    } = core.insert(0, 7, 70).expect(&rt, "an insert");
    assert_eq!(rt; (core.refs(&entry), leaves.len()), (3, 0));
    core.drop_answers(answers);
    assert_eq!(rt; core.refs(&entry), 1);
    release(&rt, &mut core, entry);
    let ended = core.complete(0, &7, 0, FetchTarget::from(69), Source::Outer);
    assert_eq!(rt; ending(&rt, &mut core, ended), (false, 0, Got::Nothing));
    assert_eq!(rt; ask(&rt, &mut core, 7, None), Asked::Hit(70));
    Ok(())
}

// A phantom record answers who waits, and is never found.
#[test]
fn a_fetch_completes_with_a_phantom_or_a_piece(rt: HostRuntime) -> Done {
    let mut core = core(rt.alloc(), 4, 1)?;
    ask(&rt, &mut core, 7, None);
    let phantom = CacheProperties::default().with_phantom(true);
    let ended = core.complete(0, &7, 0, FetchTarget::from((70, phantom)), Source::Outer);
    let ended = ending(&rt, &mut core, ended);
    assert_eq!(rt; ended, (true, 1, Got::Value(70, Source::Outer)));
    assert_eq!(rt; (core.contains(0, &7), core.entries()), (false, 0));
    let (entry, _) = put(&rt, &mut core, 8, 80);
    let piece = entry.piece().expect(&rt, "a piece");
    release(&rt, &mut core, entry);
    core.clear()?;
    for (key, got) in [(7, Got::Refusal(12)), (8, Got::Value(80, Source::Memory))] {
        ask(&rt, &mut core, key, None);
        let fetch = key - 6;
        let ended = core.complete(
            0,
            &key,
            fetch,
            FetchTarget::from(piece.clone()?),
            Source::Outer,
        );
        assert_eq!(rt; ending(&rt, &mut core, ended), (true, 1, got));
    }
    Ok(())
}

#[test]
fn a_fetch_fails_or_is_cancelled_or_finds_nothing(rt: HostRuntime) -> Done {
    let mut core = core(rt.alloc(), 4, 1)?;
    for key in [7, 8, 9, 9] {
        ask(&rt, &mut core, key, Some(key + 10));
    }
    let fault = Fault {
        code: 3,
        message: String::new(rt.alloc()),
    };
    let ended = core.fail(&7, 0, Arc::new(rt.alloc(), fault)?);
    assert_eq!(rt; ending(&rt, &mut core, ended), (true, 1, Got::Refusal(11)));
    let ended = core.cancel(&8, 1);
    assert_eq!(rt; ending(&rt, &mut core, ended), (true, 1, Got::Refusal(15)));
    match core.fetch_or_take(&9, 2) {
        Some(FetchOrTake::Fetch(builder)) => assert_eq!(rt; builder, 19),
        _ => panic!(rt; "no builder was kept"),
    }
    match core.fetch_or_take(&9, 2) {
        Some(FetchOrTake::Notifiers(waiters)) => assert_eq!(rt; waiters.len(), 2),
        _ => panic!(rt; "nobody waits"),
    }
    assert!(rt; core.fetch_or_take(&9, 2).is_none() && core.entries() == 0);
    Ok(())
}
