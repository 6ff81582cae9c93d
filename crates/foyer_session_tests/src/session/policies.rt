// A run of a session over each policy, by itself and as one of any.

use super::*;
use foyer_policy::{AnyEviction, EvictionConfig, Lfu, Lru, LruConfig, Ratio, S3Fifo, Sieve};
use foyer_session::run_any;

// Commands of a cache with room for three records. The key 1 is used, and then one record too many comes in.
fn commands<C: Drop>(alloc: Global) -> Result<Vec<CommandOf<C>>, Fail> {
    Ok(vec![in alloc;
        insert(1, 10),
        insert(2, 20),
        insert(3, 30),
        Command::Get(0, 1),
        insert(4, 40),
    ]?)
}

// The last of these replies tells that this key left alone.
fn assert_victim(rt: &impl Abort, alloc: Global, replies: &[Told], key: u64) -> Result<(), Fail> {
    assert_eq!(rt; replies.len(), 5);
    assert_eq!(rt; handed_out(&replies[3].answer), Some((3, 10)));
    assert_eq!(rt;
        keys_that_left(alloc, &replies[4])?.as_slice(),
        [key].as_slice()
    );
    Ok(())
}

// This key leaves a session over the policy.
fn assert_runs<E: Eviction>(rt: &impl Abort, alloc: Global, victim: u64) -> Result<(), Fail>
where
    E::Config: Default,
    EvictionConfig: From<E::Config>,
{
    let replies = session::<E>(alloc, 3)?.run(commands(alloc)?)?;
    assert_victim(rt, alloc, replies.as_slice(), victim)?;
    let config = EvictionConfig::from(E::Config::default());
    let replies = run_any(&mut session_with(alloc, 3, config)?, commands(alloc)?)?;
    assert_victim(rt, alloc, replies.as_slice(), victim)
}

#[test]
fn a_session_over_each_policy_runs(rt: HostRuntime) -> Result<(), Fail> {
    assert_runs::<Fifo>(&rt, rt.alloc(), 1)?;
    assert_runs::<Lru>(&rt, rt.alloc(), 2)?;
    assert_runs::<Lfu>(&rt, rt.alloc(), 2)?;
    assert_runs::<S3Fifo>(&rt, rt.alloc(), 2)?;
    assert_runs::<Sieve>(&rt, rt.alloc(), 2)
}

// A configuration that is another policy's is refused as such, whatever its fault.
#[test]
fn a_session_takes_its_own_configurations_alone(rt: HostRuntime) -> Result<(), Fail> {
    let alloc = rt.alloc();
    let mut session: SessionOf<AnyEviction> = session_with(alloc, 3, EvictionConfig::default())?;
    let faulty = LruConfig {
        high_priority_pool_ratio: Ratio { num: 2, den: 1 },
    };
    for (config, number) in [
        (EvictionConfig::from(FifoConfig {}), Some(17)),
        (EvictionConfig::from(faulty), Some(3)),
        (EvictionConfig::default(), None),
    ] {
        let command: CommandOf<EvictionConfig> = Command::Reconfigure(config);
        let refused = match session.step(command)?.answer {
            Answer::Refused(error) => Some(error.number()),
            Answer::Done => None,
            _ => panic!(&rt; "another answer"),
        };
        assert_eq!(rt; refused, number);
    }
    Ok(())
}
