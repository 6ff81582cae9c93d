//! What is expired at a moment, and is the first to leave.

use crate::any::defaults;
use crate::policies::{assert_order, item, push};
use foyer_policy::{
    AnyEviction, Eviction, Item, Lru, LruConfig, due_first_is_a_policy, victims_are_closed,
};
use std::process::Abort;
use std::test::Fail;

fn expiring(id: u64, expires: Option<u64>) -> Item {
    Item {
        expires,
        ..item(id)
    }
}

// Takes out what is expired at a moment, one by one, as the policy's order has it; answers how many these were.
fn take_expired<E: Eviction>(rt: &impl Abort, policy: &mut E, now: u64) -> Result<usize, Fail> {
    let order = policy.order()?;
    let mut count = 0;
    for item in order.iter() {
        if item.expires.is_some_and(|moment| moment <= now) {
            let Some(place) = policy.expired(now) else {
                panic!(rt; "{} is expired", item.id)
            };
            assert_eq!(rt; policy.item(place), *item);
            policy.remove(place);
            count += 1;
        }
    }
    assert_eq!(rt; policy.expired(now), None);
    Ok(count)
}

#[test]
fn what_is_expired_comes_first_in_each_order(rt: HostRuntime) -> Result<(), Fail> {
    due_first_is_a_policy::<AnyEviction>();
    victims_are_closed::<AnyEviction>();
    for config in &defaults() {
        let mut policy = AnyEviction::new(rt.alloc(), 16, config)?;
        assert_eq!(rt; policy.expired(u64::MAX), None);
        let moments = [Some(30), None, Some(10), Some(20), Some(10)];
        for (id, expires) in moments.iter().enumerate() {
            push(&mut policy, expiring(id as u64, *expires))?;
        }
        assert_eq!(rt; policy.expired(9), None);
        assert_eq!(rt; take_expired(&rt, &mut policy, 10)?, 2);
        assert_eq!(rt; take_expired(&rt, &mut policy, 29)?, 1);
        assert_eq!(rt; take_expired(&rt, &mut policy, 30)?, 1);
        assert_order(&rt, &policy, &[1])?;
    }
    Ok(())
}

#[test]
fn what_is_pinned_does_not_leave_when_it_expires(rt: HostRuntime) -> Result<(), Fail> {
    let mut lru = Lru::new(rt.alloc(), 16, &LruConfig::default())?;
    let first = push(&mut lru, expiring(0, Some(5)))?;
    let second = push(&mut lru, expiring(1, Some(7)))?;
    assert_eq!(rt; lru.expired(7), Some(first));
    lru.acquire(first);
    assert_eq!(rt; lru.expired(7), Some(second));
    lru.acquire(second);
    assert_eq!(rt; lru.expired(7), None);
    lru.release(first);
    assert_eq!(rt; lru.expired(7), Some(first));
    Ok(())
}

#[test]
fn the_first_and_the_last_moment_are_moments(rt: HostRuntime) -> Result<(), Fail> {
    for config in &defaults() {
        let mut policy = AnyEviction::new(rt.alloc(), 16, config)?;
        push(&mut policy, expiring(0, None))?;
        let last = push(&mut policy, expiring(1, Some(u64::MAX)))?;
        assert_eq!(rt; policy.expired(u64::MAX - 1), None);
        assert_eq!(rt; policy.expired(u64::MAX), Some(last));
        let first = push(&mut policy, expiring(2, Some(0)))?;
        assert_eq!(rt; policy.expired(0), Some(first));
        assert_eq!(rt; policy.remove(first), expiring(2, Some(0)));
        assert_eq!(rt; policy.expired(0), None);
    }
    Ok(())
}

// Looks often for the last of many items, of which the others expire later, or never. A walk to it would take more steps
// than a test may.
fn look_at_the_far_end(rt: &(impl Abort + AllocGlobal), others: Option<u64>) -> Result<(), Fail> {
    for config in &defaults() {
        let mut policy = AnyEviction::new(rt.alloc(), 16_000, config)?;
        for id in 0..8_000u64 {
            push(&mut policy, expiring(id, others))?;
        }
        // All leave and come back twice, so that what is kept of their expiries closes up.
        for _turn in 0..16_000 {
            if let Some(item) = policy.pop()? {
                push(&mut policy, item)?;
            }
        }
        let last = push(&mut policy, expiring(8_000, Some(5)))?;
        // What expires is looked up once more room is made.
        policy.reserve()?;
        for _look in 0..50_000 {
            assert_eq!(rt; policy.expired(5), Some(last));
            assert_eq!(rt; policy.expired(4), None);
        }
    }
    Ok(())
}

#[test]
fn what_is_expired_is_found_without_a_walk(rt: HostRuntime) -> Result<(), Fail> {
    look_at_the_far_end(&rt, None)
}

#[test]
fn what_is_expired_is_found_among_what_expires_later(rt: HostRuntime) -> Result<(), Fail> {
    look_at_the_far_end(&rt, Some(100))
}

#[test]
fn what_is_expired_is_found_behind_what_left_from_the_front(rt: HostRuntime) -> Result<(), Fail> {
    for config in &defaults() {
        let mut policy = AnyEviction::new(rt.alloc(), 16_000, config)?;
        for id in 0..14_000u64 {
            push(&mut policy, expiring(id, Some(id)))?;
        }
        for moment in 0..7_000u64 {
            let Some(place) = policy.expired(moment) else {
                panic!(rt; "{moment} is expired")
            };
            assert_eq!(rt; policy.remove(place).id, moment);
        }
        let last = push(&mut policy, expiring(14_000, Some(5)))?;
        for _look in 0..50_000 {
            assert_eq!(rt; policy.expired(6_999), Some(last));
        }
    }
    Ok(())
}

#[test]
fn what_is_expired_is_found_once_it_is_not_pinned(rt: HostRuntime) -> Result<(), Fail> {
    let mut lru = Lru::new(rt.alloc(), 16_000, &LruConfig::default())?;
    let mut places = Vec::new(rt.alloc());
    for id in 0..8_000u64 {
        let expires = if id < 7_999 { 100 } else { 5 };
        let place = push(&mut lru, expiring(id, Some(expires)))?;
        lru.acquire(place);
        places.push(place)?;
    }
    assert_eq!(rt; lru.expired(100), None);
    // All come back with no room made for that.
    for place in places.iter() {
        lru.release(*place);
    }
    for _look in 0..50_000 {
        assert_eq!(rt; lru.expired(5), places.last().copied());
    }
    Ok(())
}

// Uses, takes out and puts back each of many items that expire, the last one first. A walk to where an item's expiry is
// kept, in each of these steps or after what is kept closed up, would take more steps than a test may.
#[test]
fn what_expires_is_used_and_leaves_without_a_walk(rt: HostRuntime) -> Result<(), Fail> {
    for config in &defaults() {
        let mut policy = AnyEviction::new(rt.alloc(), 16_000, config)?;
        let mut places = Vec::new(rt.alloc());
        for id in 0..8_000u64 {
            places.push(push(&mut policy, expiring(id, Some(100)))?)?;
        }
        for _turn in 0..4 {
            for place in places.iter_mut().rev() {
                policy.acquire(*place);
                policy.release(*place);
                let item = policy.remove(*place);
                *place = push(&mut policy, item)?;
            }
        }
        assert_eq!(rt; policy.expired(99), None);
    }
    Ok(())
}

// No insert makes room for what is kept of the items while these are used.
#[test]
fn what_is_expired_is_found_after_many_uses(rt: HostRuntime) -> Result<(), Fail> {
    for config in &defaults() {
        let mut policy = AnyEviction::new(rt.alloc(), 16_000, config)?;
        let mut places = Vec::new(rt.alloc());
        for id in 0..8_000u64 {
            let expires = if id < 7_999 { 100 } else { 5 };
            places.push(push(&mut policy, expiring(id, Some(expires)))?)?;
        }
        for _turn in 0..3 {
            for place in places.iter() {
                policy.acquire(*place);
                policy.release(*place);
            }
        }
        for _look in 0..50_000 {
            assert_eq!(rt; policy.expired(5), places.last().copied());
        }
    }
    Ok(())
}
