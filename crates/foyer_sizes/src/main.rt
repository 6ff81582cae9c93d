//! `foyer-sizes` puts caches through sizes that users have and that would be slow in a checked test: weights beyond 2^32,
//! 300,000 records in a shard, thousands of handles of one record and of records that leave by one call, more than a
//! hundred shards, and threads that sleep until a fetch ends. It prints a line for each case, and says on standard error
//! what differs. It is a program for tests.
//!
//! The cases call `Cache`, each of whose calls is the call of `RawCache` of that name, or `CacheCore`.
#![tactic(auto)]

mod cache;
mod calls;
mod case;
mod conditional;
mod cores;
mod departures;
mod handles;
mod hashes;
mod heard;
mod held;
mod made;
mod moments;
mod records;
mod shards;
mod sparse;
mod waits;
mod weights;

use case::{Cases, Outcome, Runtime};
use std::process::ExitCode;

fn main(rt: HostRuntime) -> ExitCode {
    let mut cases = Cases::new(rt);
    match run(&mut cases) {
        Ok(()) if cases.have_passed() => ExitCode::SUCCESS,
        _ => ExitCode::FAILURE,
    }
}

fn run<H: Runtime>(cases: &mut Cases<H>) -> Outcome {
    weights::run(cases)?;
    moments::run(cases)?;
    records::run(cases)?;
    handles::run(cases)?;
    held::run(cases)?;
    departures::run(cases)?;
    shards::run(cases)?;
    sparse::run(cases)?;
    conditional::run(cases)?;
    made::run(cases)?;
    hashes::run(cases)?;
    waits::run(cases)?;
    cores::run(cases)
}
