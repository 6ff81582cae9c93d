//! The trait of the five policies' configurations.

use crate::kind::Kind;
use foyer_policy::{EvictionConfig, FifoConfig, LfuConfig, LruConfig, S3FifoConfig, SieveConfig};

/// The configuration of one of the five policies.
pub trait PolicyConfig: Drop {
    ghost use Rattle.std.specs.Prelude.{◌≡◌};
    ghost use Rattle.foyer_policy.specs.declared.eviction_config.EvictionConfig.{EvictionConfig};
    ghost use Rattle.foyer_memory.specs.declared.kind.Kind.{Kind};

    // the policy
    ghost kind: { Kind };

    // the configuration as one of any policy
    ghost as_any: { Self → EvictionConfig };

    /// Returns the policy.
    fn kind() -> Kind
        ensures { result ≡ kind };

    /// Converts the configuration into one of any policy.
    fn into_any(self) -> EvictionConfig
        ensures { result ≡ as_any self };
}

impl PolicyConfig for FifoConfig {
    ghost use Rattle.foyer_policy.specs.declared.eviction_config.EvictionConfig.TheVariants.{Fifo};
    ghost use Rattle.foyer_memory.specs.declared.kind.Kind.TheVariants.{Fifo as OfFifo};

    ghost kind = { OfFifo };

    ghost as_any = { Fifo };

    fn kind() -> Kind {
        Kind::Fifo
    }

    fn into_any(self) -> EvictionConfig {
        EvictionConfig::Fifo(self)
    }
}

impl PolicyConfig for S3FifoConfig {
    ghost use Rattle.foyer_policy.specs.declared.eviction_config.EvictionConfig.TheVariants.{S3Fifo};
    ghost use Rattle.foyer_memory.specs.declared.kind.Kind.TheVariants.{S3Fifo as OfS3Fifo};

    ghost kind = { OfS3Fifo };

    ghost as_any = { S3Fifo };

    fn kind() -> Kind {
        Kind::S3Fifo
    }

    fn into_any(self) -> EvictionConfig {
        EvictionConfig::S3Fifo(self)
    }
}

impl PolicyConfig for LruConfig {
    ghost use Rattle.foyer_policy.specs.declared.eviction_config.EvictionConfig.TheVariants.{Lru};
    ghost use Rattle.foyer_memory.specs.declared.kind.Kind.TheVariants.{Lru as OfLru};

    ghost kind = { OfLru };

    ghost as_any = { Lru };

    fn kind() -> Kind {
        Kind::Lru
    }

    fn into_any(self) -> EvictionConfig {
        EvictionConfig::Lru(self)
    }
}

impl PolicyConfig for LfuConfig {
    ghost use Rattle.foyer_policy.specs.declared.eviction_config.EvictionConfig.TheVariants.{Lfu};
    ghost use Rattle.foyer_memory.specs.declared.kind.Kind.TheVariants.{Lfu as OfLfu};

    ghost kind = { OfLfu };

    ghost as_any = { Lfu };

    fn kind() -> Kind {
        Kind::Lfu
    }

    fn into_any(self) -> EvictionConfig {
        EvictionConfig::Lfu(self)
    }
}

impl PolicyConfig for SieveConfig {
    ghost use Rattle.foyer_policy.specs.declared.eviction_config.EvictionConfig.TheVariants.{Sieve};
    ghost use Rattle.foyer_memory.specs.declared.kind.Kind.TheVariants.{Sieve as OfSieve};

    ghost kind = { OfSieve };

    ghost as_any = { Sieve };

    fn kind() -> Kind {
        Kind::Sieve
    }

    fn into_any(self) -> EvictionConfig {
        EvictionConfig::Sieve(self)
    }
}
