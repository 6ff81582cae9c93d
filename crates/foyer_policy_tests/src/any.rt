//! A policy that is any of the five.

use crate::policies::{assert_order, item, push};
use foyer_policy::{
    AnyEviction, Eviction, EvictionConfig, Fifo, FifoConfig, Lfu, LfuConfig, Lru, LruConfig, Place,
    Ratio, S3Fifo, S3FifoConfig, Sieve, SieveConfig,
};
use std::alloc::Global;
use std::process::Abort;
use std::test::Fail;

// What the same uses make of a policy: its order after them, and then what each pop gives, with its looks.
fn told<E: Eviction>(alloc: Global, config: &E::Config) -> Result<Vec<(Option<u64>, u128)>, Fail> {
    let mut policy = E::new(alloc, 8, config)?;
    let mut places = [Place::at(0); 6];
    for (id, place) in places.iter_mut().enumerate() {
        *place = push(&mut policy, item(id as u64))?;
    }
    for used in [1, 3, 1] {
        policy.acquire(places[used]);
        policy.release(places[used]);
    }
    policy.acquire(places[0]);
    let mut told = Vec::new(alloc);
    for item in policy.order()? {
        told.push((Some(item.id), 0))?;
    }
    for _ in 0..6 {
        let victim = policy.pop()?;
        told.push((victim.map(|victim| victim.id), policy.looks()))?;
    }
    Ok(told)
}

// One that is of the policy `E` does what that does.
fn does_as<E: Eviction>(rt: &impl Abort, alloc: Global, config: E::Config) -> Result<(), Fail>
where
    EvictionConfig: From<E::Config>,
{
    let alone = told::<E>(alloc, &config)?;
    let any = told::<AnyEviction>(alloc, &EvictionConfig::from(config))?;
    assert_eq!(rt; any, alone);
    Ok(())
}

#[test]
fn each_does_as_its_policy(rt: HostRuntime) -> Result<(), Fail> {
    does_as::<Fifo>(&rt, rt.alloc(), FifoConfig {})?;
    does_as::<S3Fifo>(&rt, rt.alloc(), S3FifoConfig::default())?;
    does_as::<Lru>(&rt, rt.alloc(), LruConfig::default())?;
    does_as::<Lfu>(&rt, rt.alloc(), LfuConfig::default())?;
    does_as::<Sieve>(&rt, rt.alloc(), SieveConfig)
}

// The default configuration of each policy.
pub fn defaults() -> [EvictionConfig; 5] {
    [
        EvictionConfig::from(FifoConfig {}),
        EvictionConfig::from(S3FifoConfig::default()),
        EvictionConfig::from(LruConfig::default()),
        EvictionConfig::from(LfuConfig::default()),
        EvictionConfig::from(SieveConfig),
    ]
}

#[test]
fn each_takes_its_own_configurations_alone(rt: HostRuntime) -> Result<(), Fail> {
    let configs = defaults();
    for (own, config) in configs.iter().enumerate() {
        let mut policy = AnyEviction::new(rt.alloc(), 8, config)?;
        push(&mut policy, item(7))?;
        for (other, config) in configs.iter().enumerate() {
            assert_eq!(rt; policy.takes(config), own == other);
            let number = policy
                .update(8, Some(config))
                .err()
                .map(|error| error.number());
            assert_eq!(rt; number, if own == other { None } else { Some(17) });
        }
        policy.update(4, None)?;
        assert_order(&rt, &policy, &[7])?;
    }
    Ok(())
}

// A configuration of another policy is refused as such, whatever its fault.
#[test]
fn another_policy_comes_before_a_fault(rt: HostRuntime) -> Result<(), Fail> {
    let faulty = EvictionConfig::from(LruConfig {
        high_priority_pool_ratio: Ratio { num: 1, den: 0 },
    });
    let mut number = |config: &EvictionConfig| {
        let mut policy = AnyEviction::new(rt.alloc(), 8, config)?;
        Ok::<_, Fail>(
            policy
                .update(8, Some(&faulty))
                .err()
                .map(|error| error.number()),
        )
    };
    assert_eq!(rt; number(&EvictionConfig::from(SieveConfig))?, Some(17));
    assert_eq!(rt; number(&EvictionConfig::default())?, Some(2));
    let number = AnyEviction::new(rt.alloc(), 8, &faulty)
        .err()
        .map(|error| error.number());
    assert_eq!(rt; number, Some(2));
    Ok(())
}
