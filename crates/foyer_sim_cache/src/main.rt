//! `foyer-sim --cache [--stats] POLICY CAPACITY SHARDS`: carries out the lines of `foyer-sim` over a `Cache`, which stands behind
//! locks, and prints what `foyer-sim` prints for them. Given the word `threads`
//! alone it lets threads fill caches. It is a program for tests.
#![tactic(auto)]

use failure::Failure;
use foyer_memory::{EvictionConfig, FifoConfig, LfuConfig, LruConfig, S3FifoConfig, SieveConfig};
use foyer_session::text::{Line, Lines, Watched};
use foyer_session::{SimPolicy, sim_args};
use runner::Runner;
use std::io::{BufRead, BufReader, BufWriter, ErrorKind, Write};
use std::process::ExitCode;
use std::sync::Wait;
use std::thread::Threads;
use std::{env, io};

mod cache;
mod failure;
mod fetch;
mod heard;
mod runner;
mod threads;
mod told;

// How many bytes are read or written at once.
const BUFFER: usize = 64 * 1024;

fn main(rt: HostRuntime) -> ExitCode {
    let Err(failure) = run(&rt, rt) else {
        return ExitCode::SUCCESS;
    };
    // The status says it where standard error can't.
    let _ = failure.print(&rt);
    ExitCode::from(failure.status())
}

// Runs with a handle that may wait, as the cache's locks need it.
fn run<H: Wait + Threads + Send + Sync + Copy + Drop>(
    rt: &HostRuntime,
    handle: H,
) -> Result<(), Failure> {
    let words = words(rt)?;
    if words.len() == 1 && words[0].as_str() == "threads" {
        return of_threads(rt, handle);
    }
    let shows_stats = words.first().is_some_and(|word| word.as_str() == "--stats");
    let args = sim_args(&words[usize::from(shows_stats)..]).ok_or(Failure::Arguments)?;
    let config = config_of(args.policy);
    let mut runner = Runner::new(*rt, handle, args.capacity, args.shards, config)?;
    let mut reader = BufReader::with_capacity(rt.alloc(), BUFFER, rt.stdin()).map_err(
        |_| Failure::Memory,
    )?;
    let mut writer = BufWriter::with_capacity(
        rt.alloc(),
        BUFFER,
        Watched::new(rt.stdout()),
    ).map_err(|_| Failure::Memory)?;
    let mut bad = Bad { count: 0, first: 0 };
    let done = carry_out_all(&mut reader, &mut writer, &mut runner, &mut bad);
    let has_failed = writer.get_ref().has_failed();
    let flushed = writer.flush();
    if bad.count > 0 {
        let (count, first) = (bad.count, bad.first);
        // The replies say it where standard error can't.
        let _ = eprintln!(rt; "foyer-sim: bad lines: {count}, the first of them line {first}");
    }
    if shows_stats {
        for (name, count) in runner.stats().named() {
            let _ = eprintln!(rt; "{name} {count}");
        }
    }
    match done {
        Ok(()) => flushed.map_err(Failure::Writing),
        // A read hands on first what was written.
        Err(Failure::Reading(error)) if has_failed => Err(Failure::Writing(error)),
        Err(failure) => Err(failure),
    }
}

// Runs threads over a cache of each policy in turn.
fn of_threads<H: Wait + Threads + Send + Sync + Copy + Drop>(
    rt: &HostRuntime,
    handle: H,
) -> Result<(), Failure> {
    threads::run(rt, handle, "fifo", config_of(SimPolicy::Fifo))?;
    threads::run(rt, handle, "lru", config_of(SimPolicy::Lru))?;
    threads::run(rt, handle, "lfu", config_of(SimPolicy::Lfu))?;
    threads::run(rt, handle, "s3fifo", config_of(SimPolicy::S3Fifo))?;
    threads::run(rt, handle, "sieve", config_of(SimPolicy::Sieve))
}

// The words after the program's name.
fn words(rt: &HostRuntime) -> Result<Vec<String>, Failure> {
    let args = match env::args(rt) {
        Ok(args) => args,
        Err(error) if error.kind() == ErrorKind::OutOfMemory => return Err(Failure::Memory),
        Err(_) => return Err(Failure::Arguments),
    };
    let mut words = Vec::new(rt.alloc());
    for word in args.skip(1) {
        words.push(word)?;
    }
    Ok(words)
}

// A policy's default configuration.
fn config_of(policy: SimPolicy) -> EvictionConfig {
    match policy {
        SimPolicy::Fifo => EvictionConfig::from(FifoConfig {}),
        SimPolicy::Lru => EvictionConfig::from(LruConfig::default()),
        SimPolicy::Lfu => EvictionConfig::from(LfuConfig::default()),
        SimPolicy::S3Fifo => EvictionConfig::from(S3FifoConfig::default()),
        SimPolicy::Sieve => EvictionConfig::from(SieveConfig),
    }
}

// How many lines were bad, and the number of the first, from 1.
#[derive(Drop)]
struct Bad {
    count: u64,
    first: u64,
}

// Carries out each line, and writes what is printed for it.
fn carry_out_all<R: BufRead, W: Write, H: Wait + Drop>(
    reader: &mut R,
    writer: &mut W,
    runner: &mut Runner<H>,
    bad: &mut Bad,
) -> Result<(), Failure> {
    let mut lines = Lines::new();
    for number in 1..=u64::MAX {
        let Some(line) = lines.read(reader, writer).map_err(Failure::Reading)? else {
            return Ok(());
        };
        if line == Line::Bad {
            bad.first = if bad.count == 0 { number } else { bad.first };
            bad.count += 1;
        }
        if let Some(told) = runner.carry_out(line)? {
            runner.write(writer, &told).map_err(Failure::Writing)?;
        }
    }
    Err(Failure::Writing(io::Error::from(ErrorKind::Other)))
}
