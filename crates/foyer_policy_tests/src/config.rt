use foyer_policy::{
    Config, EvictionConfig, FifoConfig, LfuConfig, LruConfig, Ratio, S3FifoConfig, SieveConfig,
    State, UnknownPolicy,
};
use serde::{Deserialize, Serialize};
use std::test::Fail;

#[derive(Clone, Debug, Drop, Serialize, Deserialize)]
struct Share {
    ratio: Ratio,
}

impl Default for Share {
    fn default() -> Share {
        Share {
            ratio: Ratio { num: 9, den: 10 },
        }
    }
}

#[derive(Debug, Default, Drop)]
struct Flag {
    is_set: bool,
}

fn default_config<C: Config>() -> C {
    C::default()
}

fn default_state<S: State>() -> S {
    S::default()
}

#[test]
fn types_of_others_are_configurations_and_states(rt: HostRuntime) {
    assert_eq!(rt; default_config::<Share>().ratio, Ratio { num: 9, den: 10 });
    assert!(rt; !default_state::<Flag>().is_set);
}

#[test]
fn policies_have_names(rt: HostRuntime) -> Result<(), Fail> {
    for (name, config) in [
        ("fifo", EvictionConfig::from(FifoConfig {})),
        ("lru", EvictionConfig::from(LruConfig::default())),
        ("lfu", EvictionConfig::from(LfuConfig::default())),
        ("s3fifo", EvictionConfig::from(S3FifoConfig::default())),
        ("sieve", EvictionConfig::from(SieveConfig)),
    ] {
        assert!(rt; name.parse::<EvictionConfig>() == Ok(config), "{name}");
    }
    for name in [
        "", "FIFO", "Lru", "lfu ", " lfu", "s3-fifo", "s3", "sievex", "wtinylfu",
    ] {
        assert!(rt;
            name.parse::<EvictionConfig>() == Err(UnknownPolicy),
            "{name}"
        );
    }
    assert_eq!(rt;
        UnknownPolicy.to_string(rt.alloc())?.as_str(),
        "the policies are fifo, lru, lfu, s3fifo and sieve"
    );
    Ok(())
}
