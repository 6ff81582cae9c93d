//! A case: what it needs, how it ends and how that is printed.

use foyer_core::Refused;
use foyer_memory::{EvictionConfig, FifoConfig, LfuConfig, LruConfig, S3FifoConfig, SieveConfig};
use foyer_policy::Error;
use log::Log;
use std::alloc::{AllocError, AllocFailed, Global};
use std::fmt::Debug;
use std::io;
use std::random::RandomSource;
use std::sync::Wait;
use std::thread::Threads;
use std::time::Clock;

/// What the cases need of a runtime.
pub trait Runtime: Wait
    + Threads
    + Clock
    + RandomSource
    + Log
    + Print
    + Eprint
    + Alloc<A = Global>
    + Send
    + Sync
    + Copy
    + Drop
    + 'static {}

impl<
    H: Wait
        + Threads
        + Clock
        + RandomSource
        + Log
        + Print
        + Eprint
        + Alloc<A = Global>
        + Send
        + Sync
        + Copy
        + Drop
        + 'static,
> Runtime for H {}

/// What ends a case early.
#[derive(Debug, Drop)]
pub enum Failure {
    /// Something is not as it should be, which was said.
    Differs,
    /// A call was refused.
    Refused(Error),
    /// Memory is missing for the case itself.
    Memory,
    /// Something could not be printed, or no thread could sleep.
    System(io::Error),
}

/// What a case, or a helper of one, ends with.
pub type Outcome<T = ()> = Result<T, Failure>;

impl From<Error> for Failure {
    fn from(error: Error) -> Failure {
        Failure::Refused(error)
    }
}

impl<K: Drop, V: Drop, P: Drop> From<Refused<K, V, P>> for Failure {
    fn from(refused: Refused<K, V, P>) -> Failure {
        Failure::Refused(refused.error)
    }
}

impl From<AllocError> for Failure {
    fn from(_error: AllocError) -> Failure {
        Failure::Memory
    }
}

impl<T: Drop> From<AllocFailed<T>> for Failure {
    fn from(_failed: AllocFailed<T>) -> Failure {
        Failure::Memory
    }
}

impl From<io::Error> for Failure {
    fn from(error: io::Error) -> Failure {
        Failure::System(error)
    }
}

/// Checks that a case got what it should, and says what differs.
pub fn same<H: Runtime, T: PartialEq + Debug>(rt: H, what: &str, got: &T, wanted: &T) -> Outcome {
    if got == wanted {
        return Ok(());
    }
    eprintln!(rt; "{what}: got {got:?}, wanted {wanted:?}")?;
    Err(Failure::Differs)
}

/// Runs cases, and knows whether all have passed.
#[derive(Drop)]
pub struct Cases<H: Runtime> {
    pub rt: H,
    failed: u64,
}

impl<H: Runtime> Cases<H> {
    /// Nothing has run yet.
    pub fn new(rt: H) -> Self {
        Cases { rt, failed: 0 }
    }

    /// Whether no case has failed.
    pub fn have_passed(&self) -> bool {
        self.failed == 0
    }

    /// Runs a case for each policy.
    pub fn of_each_policy<F: Fn(EvictionConfig) -> Outcome>(
        &mut self,
        name: &str,
        case: F,
    ) -> Outcome {
        let policies = [
            ("fifo", EvictionConfig::from(FifoConfig {})),
            ("lru", EvictionConfig::from(LruConfig::default())),
            ("lfu", EvictionConfig::from(LfuConfig::default())),
            ("s3fifo", EvictionConfig::from(S3FifoConfig::default())),
            ("sieve", EvictionConfig::from(SieveConfig)),
        ];
        for (policy, config) in policies {
            self.print(name, policy, case(config))?;
        }
        Ok(())
    }

    /// Runs a case of a cache with so many shards for each policy.
    pub fn of_shards<F: Fn(EvictionConfig) -> Outcome>(
        &mut self,
        name: &str,
        shards: u64,
        case: F,
    ) -> Outcome {
        let name = format!(in self.rt.alloc(); "each of {shards} shards {name}")?;
        self.of_each_policy(&name, case)
    }

    /// Prints how a case has ended.
    pub fn print(&mut self, name: &str, policy: &str, ended: Outcome) -> Outcome {
        let rt = self.rt;
        match ended {
            Ok(()) => println!(rt; "ok {name}: {policy}")?,
            Err(failure) => {
                self.failed += 1;
                println!(rt; "FAILED {name}: {policy}")?;
                eprintln!(rt; "{name}: {policy}: {failure:?}")?;
            }
        }
        Ok(())
    }
}
