//! `foyer-bench` looks the keys of a trace up in a cache, puts in each that is not found, and prints how many were
//! found and how long it took.
#![tactic(auto)]

use foyer_core::RawCacheConfig;
use foyer_policy::{
    AnyEviction, DefaultHasher, Eviction, Fifo, HashBuilder, Lfu, Lru, ModHasher, S3Fifo, Sieve,
};
use foyer_raw::{NoListener, RawCache};
use std::env::{self, Env};
use std::io::{ErrorKind, IsTerminal};
use std::process::ExitCode;
use std::sync::Wait;
use std::thread::Threads;
use std::time::Clock;

mod args;
mod drive;
mod failure;
mod locked;
mod moment;
mod progress;
mod random;
mod report;
mod trace;
mod zipf;

use args::{BenchArgs, Hasher, Policy, are_locked, bench_args};
use drive::{Core, run_core};
use failure::Failure;
use locked::run_threads;
use moment::Moment;
use progress::Progress;
use report::Report;
use trace::traces_of;

// How the program is called.
const WORDS: &str =
    "POLICY CAPACITY SHARDS OPS KEYSPACE SKEW SEED [--hasher mod|default] [--reps N] [--ttl[-few|-spread|-batch] T] [--hits]";

fn main(rt: HostRuntime) -> ExitCode {
    let is_terminal = rt.stderr().is_terminal();
    match words_of(&rt) {
        Ok(words) => answer(&rt, words.as_slice(), is_terminal),
        Err(failure) => fail(&rt, failure, ["", ""]),
    }
}

// The words that the program was started with, without its name. Words that aren't text are bad arguments.
fn words_of<R: Env + AllocGlobal>(rt: &R) -> Result<Vec<String>, Failure> {
    let args = match env::args(rt) {
        Ok(args) => args,
        Err(error) if error.kind() == ErrorKind::OutOfMemory => return Err(Failure::Memory),
        Err(_) => return Err(Failure::Arguments),
    };
    let mut words = Vec::new(rt.alloc());
    for word in args.skip(1) {
        words.push(word)?;
    }
    Ok(words)
}

// Does what the words ask for.
fn answer<R: AllocGlobal + Clock + Print + Eprint + Threads + Wait + Sync>(
    rt: &R,
    words: &[String],
    is_terminal: bool,
) -> ExitCode {
    match run(rt, words, is_terminal) {
        Ok(()) => ExitCode::SUCCESS,
        Err(failure) if are_locked(words) => fail(rt, failure, ["--locked THREADS ", " [--read]"]),
        Err(failure) => fail(rt, failure, ["", ""]),
    }
}

// Says on standard error why the program ends, and how it is called where its arguments are bad: with these words before
// and after the others.
fn fail<R: Eprint>(rt: &R, failure: Failure, [first, last]: [&str; 2]) -> ExitCode {
    // The status says it where standard error can't.
    let _ = match &failure {
        Failure::Arguments => eprintln!(rt; "usage: foyer-bench {first}{WORDS}{last}"),
        Failure::Memory => eprintln!(rt; "foyer-bench: out of memory"),
        Failure::InputOrOutput(error) => {
            eprintln!(rt; "foyer-bench: input or output failed: {error}")
        }
    };
    ExitCode::from(failure.status())
}

// Runs as often as is asked for, and prints a line for each.
fn run<R: AllocGlobal + Clock + Print + Eprint + Threads + Wait + Sync>(
    rt: &R,
    words: &[String],
    is_terminal: bool,
) -> Result<(), Failure> {
    let args = bench_args(words).ok_or(Failure::Arguments)?;
    let traces = traces_of(rt.alloc(), &args)?;
    let mut progress = Progress::new(rt, is_terminal);
    for _rep in 0..args.reps {
        let report = run_once(rt, &args, traces.as_slice(), &mut progress)?;
        let hits = report.hits;
        if args.hits_alone {
            println!(rt; "hits={hits}")?;
        } else {
            println!(rt; "{report}")?;
        }
    }
    Ok(())
}

// Runs once, over a new cache.
fn run_once<R: AllocGlobal + Clock + Eprint + Threads + Wait + Sync>(
    rt: &R,
    args: &BenchArgs,
    traces: &[Vec<u64>],
    progress: &mut Progress,
) -> Result<Report, Failure> {
    let (alloc, first) = (rt.alloc(), Moment::first(args.life));
    match (args.threads, args.hasher) {
        (None, Hasher::Mod) => on_policy::<R, ModHasher>(rt, args, traces, progress),
        (None, Hasher::Default) => on_policy::<R, DefaultHasher>(rt, args, traces, progress),
        (Some(_), Hasher::Mod) => {
            let cache = shared::<R, ModHasher>(rt, args)?;
            run_threads(rt, alloc, cache, args.calls, traces, first)
        }
        (Some(_), Hasher::Default) => {
            let cache = shared::<R, DefaultHasher>(rt, args)?;
            run_threads(rt, alloc, cache, args.calls, traces, first)
        }
    }
}

// Runs over a core of a policy.
fn on_policy<R: AllocGlobal + Clock + Eprint, S: HashBuilder + Default>(
    rt: &R,
    args: &BenchArgs,
    traces: &[Vec<u64>],
    progress: &mut Progress,
) -> Result<Report, Failure> {
    match args.policy {
        Policy::Fifo => on_core::<R, Fifo, S>(rt, args, traces, progress),
        Policy::Lru => on_core::<R, Lru, S>(rt, args, traces, progress),
        Policy::Lfu => on_core::<R, Lfu, S>(rt, args, traces, progress),
        Policy::S3Fifo => on_core::<R, S3Fifo, S>(rt, args, traces, progress),
        Policy::Sieve => on_core::<R, Sieve, S>(rt, args, traces, progress),
    }
}

// Runs over a core, in its policy's default configuration.
fn on_core<R: AllocGlobal + Clock + Eprint, E: Eviction, S: HashBuilder + Default>(
    rt: &R,
    args: &BenchArgs,
    traces: &[Vec<u64>],
    progress: &mut Progress,
) -> Result<Report, Failure>
where
    E::Config: Default,
{
    let Some(keys) = traces.first() else {
        return Err(Failure::Arguments);
    };
    let config = RawCacheConfig {
        shards: args.shards as usize,
        ..RawCacheConfig::new(args.capacity as usize)
    };
    let mut core = Core::<E, S>::new(rt.alloc(), config)?;
    let first = Moment::first(args.life);
    run_core(rt, rt.alloc(), &mut core, keys.as_slice(), first, progress)
}

// A cache behind locks, in its policy's default configuration. As in a `Cache`, its type leaves the policy open.
fn shared<'a, R: AllocGlobal + Wait, S: HashBuilder + Default>(
    rt: &'a R,
    args: &BenchArgs,
) -> Result<RawCache<&'a R, AnyEviction, u64, u64, S>, Failure> {
    let config = RawCacheConfig {
        shards: args.shards as usize,
        eviction_config: args.policy.config(),
        ..RawCacheConfig::new(args.capacity as usize)
    };
    Ok(RawCache::new(rt, rt.alloc(), config, NoListener::new())?)
}
