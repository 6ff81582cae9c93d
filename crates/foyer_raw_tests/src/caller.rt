//! A cache that its clones share, and a fetch that answers all who wait for a key.

ghost use Rattle.std.specs.Prelude.{IsSome};

use foyer_core::{AdmitAll, CacheProperties, FetchTarget, RawCacheConfig, UnitWeighter};
use foyer_policy::{DefaultHasher, Fault, Lru};
use foyer_raw::{Direct, ListSpawner, NoListener, NoopPipe, RawCache};
use futures::Future;
use futures::executor::block_on;
use futures::future::{Ready, ready};
use futures::task::{Context, Poll};
use std::test::Fail;

/// The moment of each call. No record here expires, and so any number will do.
const NOW: u64 = 0;

/// A cache of numbers under numbers that fetches with these types.
type Numbers<H, T> = RawCache<
    H,
    Lru,
    u32,
    u64,
    DefaultHasher,
    CacheProperties,
    UnitWeighter,
    AdmitAll,
    NoListener<u32, u64>,
    NoopPipe<u32, u64>,
    T,
>;

/// A fetch that is ready at once.
type Fetch = Ready<Result<FetchTarget<u32, u64, CacheProperties>, Fault>>;

/// Polls tasks until none is left.
#[derive(Drop)]
struct Drive<X: Future<Output = ()>>(ListSpawner<X>);

impl<X: Future<Output = ()>> Future for Drive<X> {
    type Output = ();

    fn poll(&mut self, cx: &mut Context<'_>) -> Poll<()> {
        if self.0.poll_all(cx) == 0 {
            return Poll::Ready(());
        }
        cx.yield_now()
    }
}

// A fetch that gives this value.
fn fetched(value: u64) -> Fetch
    ensures { IsSome result.0 }
{
    ready(Ok(FetchTarget::Entry {
        value,
        properties: CacheProperties::default(),
    }))
}

#[test]
fn clones_share_a_cache(rt: HostRuntime) -> Result<(), Fail> {
    let alloc = rt.alloc();
    let config = RawCacheConfig::new(100);
    let cache: Numbers<HostRuntime, Direct<Fetch>> = RawCache::new(
        rt,
        alloc,
        config,
        NoListener::new(),
    )?;
    let entry = cache.insert(NOW, 1, 10)?;
    let other = cache.try_clone()?;
    let found = other.get(NOW, &1)?.ok_or("none")?;
    assert_eq!(rt; (*found, entry.refs()), (10, 2));
    drop(found);
    drop(other.remove(&1)?);
    assert!(rt; entry.is_outdated() && !cache.contains(NOW, &1));

    let mut spawner = ListSpawner::new(alloc);
    let first = cache.get_or_fetch(NOW, &7, || fetched(70), &mut spawner)?;
    let second = other.get_or_fetch(NOW, &7, || fetched(71), &mut spawner)?;
    block_on(&rt, Drive(spawner))?;
    let first = block_on(&rt, first)??.ok_or("none")?;
    let second = block_on(&rt, second)??.ok_or("none")?;
    assert_eq!(rt; (*first, *second, first.refs()), (70, 70, 2));
    Ok(())
}
