//! `foyer-sim [--stats] POLICY CAPACITY SHARDS`: carries out the commands on standard input, one a line, over a
//! cache of this policy, and prints the reply to each. At the end it says on standard error which were bad, and with
//! `--stats` what was counted.
#![tactic(auto)]

mod bad;

use bad::{Bad, Lined, Replies};
use foyer_core::{AdmitAll, CacheCore, Limits, RawCacheConfig, Stats};
use foyer_policy::ModHasher;
use foyer_session::text::Watched;
use foyer_session::{Session, SimArgs, SimSession, SimWeighter, sim_args, simulate};
use std::io::{BufReader, BufWriter, ErrorKind, Write};
use std::process::ExitCode;
use std::{env, io};

// How many bytes are read or written at once.
const BUFFER: usize = 64 * 1024;

// Why the program ends before it is at the end of its input.
#[derive(Drop)]
enum Failure {
    Arguments,
    Memory,
    Reading(io::Error),
    Writing(io::Error),
}

fn main(rt: HostRuntime) -> ExitCode {
    let Err(failure) = run(&rt) else {
        return ExitCode::SUCCESS;
    };
    let (status, message) = match &failure {
        Failure::Arguments => (2, "usage: foyer-sim [--stats] POLICY CAPACITY SHARDS"),
        Failure::Memory => (1, "foyer-sim: out of memory"),
        Failure::Reading(_) | Failure::Writing(_) => (1, "foyer-sim: input or output failed"),
    };
    // The status says it where standard error can't.
    let _ = eprintln!(rt; "{message}");
    let _ = match failure {
        Failure::Reading(error) => eprintln!(rt; "foyer-sim: reading standard input: {error}"),
        Failure::Writing(error) => eprintln!(rt; "foyer-sim: writing standard output: {error}"),
        Failure::Arguments | Failure::Memory => Ok(()),
    };
    ExitCode::from(status)
}

// Runs over a cache of the policy that the arguments name, in its default configuration.
fn run(rt: &HostRuntime) -> Result<(), Failure> {
    let (shows_stats, args) = arguments(rt)?;
    let alloc = rt.alloc();
    let config = RawCacheConfig {
        capacity: args.capacity,
        shards: args.shards,
        eviction_config: args.policy.config(),
        hash_builder: ModHasher::default(),
        weighter: SimWeighter,
        filter: AdmitAll,
        number: 0,
        limits: Limits::default(),
    };
    let Ok(core) = CacheCore::new(alloc, config) else {
        return Err(Failure::Memory);
    };
    let mut session: SimSession<ModHasher> = Session::new(alloc, core);
    let Ok(reader) = BufReader::with_capacity(alloc, BUFFER, rt.stdin()) else {
        return Err(Failure::Memory);
    };
    let Ok(writer) = BufWriter::with_capacity(alloc, BUFFER, Watched::new(rt.stdout())) else {
        return Err(Failure::Memory);
    };
    let bad = Bad::new();
    let (mut reader, mut writer) = (Lined::new(reader, &bad), Replies::new(writer, &bad));
    let mut stats = Stats::default();
    let told = simulate(&mut reader, &mut writer, &mut session, &mut stats);
    let has_failed = writer.get_ref().get_ref().has_failed();
    let flushed = writer.flush();
    if bad.count() > 0 {
        let (count, first, line) = (bad.count(), bad.first(), reader.first_bad());
        // The replies say it where standard error can't.
        let _ = eprintln!(rt;
            "foyer-sim: bad lines: {count}, the first of them line {first}: {line}"
        );
    }
    if shows_stats {
        for (name, count) in stats.named() {
            let _ = eprintln!(rt; "{name} {count}");
        }
    }
    match told {
        Ok(()) => flushed.map_err(Failure::Writing),
        Err(error) if has_failed => Err(Failure::Writing(error)),
        Err(error) => Err(Failure::Reading(error)),
    }
}

// Whether the program is asked to show its counts, and what else it is asked for.
fn arguments(rt: &HostRuntime) -> Result<(bool, SimArgs), Failure> {
    let args = match env::args(rt) {
        Ok(args) => args,
        Err(error) if error.kind() == ErrorKind::OutOfMemory => return Err(Failure::Memory),
        Err(_) => return Err(Failure::Arguments),
    };
    let mut words = Vec::new(rt.alloc());
    for word in args.skip(1) {
        let Ok(()) = words.push(word) else {
            return Err(Failure::Memory);
        };
    }
    let shows_stats = words.first().is_some_and(|word| word.as_str() == "--stats");
    let args = sim_args(&words[usize::from(shows_stats)..]).ok_or(Failure::Arguments)?;
    Ok((shows_stats, args))
}
