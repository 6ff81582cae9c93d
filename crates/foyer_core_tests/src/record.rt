//! Records, their properties, and pieces of records that no core has.

use crate::testing::Done;
use foyer_core::{CacheProperties, Data, FetchTarget, Flags, Piece, Record, marked};
use foyer_policy::{Age, Hint, Location, Properties, Result};
use std::alloc::Global;

// A record of the key 7.
fn seven(alloc: Global) -> Result<Record<u64, u64, CacheProperties>> {
    let data = Data {
        key: 7,
        value: 70,
        properties: CacheProperties::default().with_hint(Hint::Low),
        hash: 3,
        weight: 5,
    };
    Record::new(alloc, data)
}

#[test]
fn a_record_has_what_it_was_made_of(rt: HostRuntime) -> Done {
    let record = seven(rt.alloc())?;
    assert_eq!(rt; (*record.key(), *record.value()), (7, 70));
    assert_eq!(rt; record.properties().hint(), Hint::Low);
    assert_eq!(rt; (record.hash(), record.weight()), (3, 5));
    assert!(rt; record.state().is_none() && record.refs() == 0);
    assert!(rt; !record.is_in_indexer() && !record.is_in_eviction());
    Ok(())
}

#[test]
fn a_record_counts_handles_and_keeps_flags(rt: HostRuntime) -> Done {
    let mut record = seven(rt.alloc())?;
    assert_eq!(rt; record.inc_refs(2, 2)?, 2);
    assert!(rt; record.inc_refs(1, 2).is_err());
    assert_eq!(rt; record.dec_refs(1), 1);
    record.set_in_indexer(true);
    record.set_in_eviction(true);
    let both = Flags::IN_INDEXER.union(Flags::IN_EVICTION);
    assert_eq!(rt; both.bits(), 3);
    assert!(rt; record.get_flags(both));
    record.set_flags(Flags::IN_INDEXER, false);
    assert!(rt; !record.is_in_indexer() && record.is_in_eviction());
    record.set_state(None);
    assert!(rt; record.state().is_none());
    Ok(())
}

#[test]
fn texts_of_records_pieces_and_targets_show_no_data(rt: HostRuntime) -> Done {
    let record = seven(rt.alloc())?;
    let text = format!(in rt.alloc(); "{record:?}")?;
    assert_eq!(rt; text.as_str(), "Record { hash: 3 }");
    let piece = Piece::new(&record, 4, 9)?.clone()?;
    assert_eq!(rt; (*piece.key(), *piece.value(), piece.hash()), (7, 70, 3));
    let text = format!(in rt.alloc(); "{piece:?}")?;
    assert_eq!(rt; text.as_str(), "Piece { record: 9, hash: 3 }");
    let target: FetchTarget<u64, u64, CacheProperties> = FetchTarget::from(70);
    let text = format!(in rt.alloc(); "{target:?}")?;
    assert_eq!(rt; text.as_str(), "FetchTarget");
    Ok(())
}

// A cache's own properties keep no location and no age.
#[test]
fn properties_keep_the_phantom_answer_and_the_hint(rt: HostRuntime) {
    let plain = CacheProperties::default();
    assert!(rt; plain.phantom().is_none() && plain.hint() == Hint::Normal);
    let given = Properties::with_hint(plain, Hint::Low)
        .with_location(Location::OnDisk)
        .with_age(Age::Old);
    assert!(rt; Properties::hint(&given) == Some(Hint::Low));
    assert!(rt; given.location().is_none() && given.age().is_none());
    assert!(rt; given.with_phantom(true).phantom() == Some(true));
    assert!(rt; marked(CacheProperties::default(), true).phantom().is_none());
    assert!(rt; marked(CacheProperties::default(), false).phantom() == Some(true));
}
