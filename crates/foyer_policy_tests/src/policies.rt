//! Each call of each policy once, as a cache above makes them.

use foyer_policy::{Eviction, Fifo, Hint, Item, Lfu, Lru, Place, S3Fifo, Sieve, looks_are_paid};
use std::alloc::Global;
use std::process::Abort;
use std::test::Fail;

// A record of weight 1 whose hash is its number.
pub fn item(id: u64) -> Item {
    Item {
        id,
        hash: id,
        weight: 1,
        hint: Hint::Normal,
        expires: None,
    }
}

// Makes room and takes a record in.
pub fn push<E: Eviction>(policy: &mut E, item: Item) -> Result<Place, Fail> {
    policy.reserve()?;
    Ok(policy.push(item))
}

// The records that are in, in order, are these.
pub fn assert_order<E: Eviction>(rt: &impl Abort, policy: &E, ids: &[u64]) -> Result<(), Fail> {
    let order = policy.order()?;
    assert_eq!(rt; order.len(), ids.len());
    for (item, id) in order.iter().zip(ids) {
        assert_eq!(rt; item.id, *id);
    }
    Ok(())
}

fn answers_each_call<E: Eviction>(rt: &impl Abort, alloc: Global) -> Result<(), Fail>
where
    E::Config: Default,
{
    looks_are_paid::<E>();
    let config = E::Config::default();
    E::check(&config)?;
    let mut policy = E::new(alloc, 16, &config)?;
    assert_eq!(rt; policy.span(), 0);

    let place = push(&mut policy, item(7))?;
    assert!(rt; place.number() < policy.span());
    assert_eq!(rt; policy.item(place), item(7));
    policy.update(2, None)?;
    policy.update(16, Some(&config))?;
    policy.acquire(place);
    assert_eq!(rt;
        policy.pinned_weight(),
        usize::from(policy.is_pinned(place))
    );
    policy.release(place);
    assert!(rt; !policy.is_pinned(place));
    assert_order(rt, &policy, &[7])?;
    assert_eq!(rt; policy.remove(place), item(7));

    for id in 0..5u64 {
        push(&mut policy, item(id))?;
    }
    for id in 0..5u64 {
        assert_eq!(rt; policy.pop()?, Some(item(id)));
    }
    assert_eq!(rt; policy.pop()?, None);
    assert_eq!(rt; policy.looks(), 0);

    for id in 10..13u64 {
        push(&mut policy, item(id))?;
    }
    policy.reserve_clear()?;
    policy.clear();
    assert_order(rt, &policy, &[])
}

// Where nothing was used, the next two victims are read ahead.
fn gives_its_victims_ahead<E: Eviction>(rt: &impl Abort, alloc: Global) -> Result<(), Fail>
where
    E::Config: Default,
{
    let mut policy = E::new(alloc, 5, &E::Config::default())?;
    assert_eq!(rt; policy.ahead(), (None, None));
    policy.reserve_to(3)?;
    for (id, number) in [(0, 2), (1, 0), (2, 1)] {
        policy.push_at(Place::at(number), item(id));
        assert!(rt; policy.look_ahead(Place::at(number)));
    }
    let places = [Place::at(2), Place::at(0), Place::at(1)];
    assert_eq!(rt; policy.ahead(), (Some(places[0]), Some(places[1])));
    assert_eq!(rt; policy.pop_at()?, Some((places[0], item(0))));
    assert_eq!(rt; policy.pop_at()?, Some((places[1], item(1))));
    assert_eq!(rt; policy.ahead(), (Some(places[2]), None));
    assert_eq!(rt; policy.pop_at()?, Some((places[2], item(2))));
    assert_eq!(rt; policy.pop_at()?, None);
    assert_eq!(rt; policy.ahead(), (None, None));
    Ok(())
}

#[test]
fn fifo_answers_each_call(rt: HostRuntime) -> Result<(), Fail> {
    answers_each_call::<Fifo>(&rt, rt.alloc())
}

#[test]
fn lru_answers_each_call(rt: HostRuntime) -> Result<(), Fail> {
    answers_each_call::<Lru>(&rt, rt.alloc())
}

#[test]
fn lfu_answers_each_call(rt: HostRuntime) -> Result<(), Fail> {
    answers_each_call::<Lfu>(&rt, rt.alloc())
}

#[test]
fn s3fifo_answers_each_call(rt: HostRuntime) -> Result<(), Fail> {
    answers_each_call::<S3Fifo>(&rt, rt.alloc())
}

#[test]
fn sieve_answers_each_call(rt: HostRuntime) -> Result<(), Fail> {
    answers_each_call::<Sieve>(&rt, rt.alloc())
}

#[test]
fn fifo_gives_its_victims_ahead(rt: HostRuntime) -> Result<(), Fail> {
    gives_its_victims_ahead::<Fifo>(&rt, rt.alloc())
}

#[test]
fn lru_gives_its_victims_ahead(rt: HostRuntime) -> Result<(), Fail> {
    gives_its_victims_ahead::<Lru>(&rt, rt.alloc())
}

#[test]
fn lfu_gives_its_victims_ahead(rt: HostRuntime) -> Result<(), Fail> {
    gives_its_victims_ahead::<Lfu>(&rt, rt.alloc())
}

#[test]
fn s3fifo_gives_its_victims_ahead(rt: HostRuntime) -> Result<(), Fail> {
    gives_its_victims_ahead::<S3Fifo>(&rt, rt.alloc())
}

#[test]
fn sieve_gives_its_victims_ahead(rt: HostRuntime) -> Result<(), Fail> {
    gives_its_victims_ahead::<Sieve>(&rt, rt.alloc())
}
