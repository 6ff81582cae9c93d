// Keys whose clones are refused, which no request for memory can be.

use super::*;
use std::alloc::AllocError;

// A number as a key. An odd one can't be cloned.
#[derive(Debug, Drop, PartialEq, Eq, Hash)]
struct Picky(u64);

impl Clone for Picky {
    fn clone(&self) -> Result<Self, AllocError> {
        match self.0 % 2 {
            0 => Ok(Picky(self.0)),
            _ => Err(AllocError),
        }
    }
}

type OfKeys = Command<Picky, u64, CacheProperties, foyer_session::NoPredicate, FifoConfig>;

#[test]
fn a_fetch_needs_a_clone_of_the_key_and_an_insert_none(rt: HostRuntime) -> Result<(), Fail> {
    let config = RawCacheConfig {
        shards: 1,
        hash_builder: ModHasher::default(),
        ..RawCacheConfig::new(2)
    };
    let mut session: Session<Fifo, Picky, u64, CacheProperties, ModHasher, UnitWeighter, AdmitAll> =
        Session::new(rt.alloc(), CacheCore::new(rt.alloc(), config)?);
    let fetch = OfKeys::GetOrFetch(0, Picky(7), None);
    let Answer::Refused(error) = session.step(fetch)?.answer else {
        panic!(rt; "it is not refused");
    };
    assert_eq!(rt; (error.number(), session.entries()), (7, 0));
    let insert = OfKeys::Insert(0, Picky(7), 70, CacheProperties::default());
    let reply = session.step(insert)?;
    assert!(rt; matches!(reply.answer, Answer::Entry { .. }) && session.entries() == 1);
    let reply = session.step(OfKeys::GetOrFetch(0, Picky(8), None))?;
    assert!(rt; matches!(reply.answer, Answer::Lead { fetch: 0, token: 0 }));
    Ok(())
}
