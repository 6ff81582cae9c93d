//! The arguments of the program.

use crate::failure::Failure;
use crate::format::Format;
use crate::format::columns::{Wanted, wanted_columns};
use crate::key::Sample;
use crate::origin::joined;
use crate::plan::{Size, Warmup, sizes_of};
use crate::policy::{Policy, policies_of};
use crate::trace::Terms;
use crate::values::{counted, name_of, sample_of, target_of, terms_of, warmup_of};
use clap::{Arg, ArgAction, ArgMatches, Command};
use std::alloc::Global;
use std::num::saturating_f64_to_u64;

/// The sizes that are taken where none are given.
const SIZES: &str = "0.001,0.003,0.01,0.03,0.1,0.3";

/// What is to be done.
#[derive(Drop)]
pub enum Task<'a> {
    /// Print the help.
    Help,
    /// Print the version.
    Version,
    /// Replay a trace.
    Replay(Replay<'a>),
    /// Add up the CSV files of parts, which stand in the place of a trace.
    Merge,
    /// Write a synthetic trace.
    Make(&'a str),
}

/// A replay that is asked for.
#[derive(Drop)]
pub struct Replay<'a> {
    pub path: &'a str,
    /// The trace's name, by which it is called.
    pub name: &'a str,
    pub format: Format,
    pub columns: Option<Wanted<'a>>,
    pub skips_bad: bool,
    pub policies: Vec<Policy<'a>>,
    pub sizes: Vec<Size>,
    pub shards: usize,
    pub terms: Terms,
    pub warmup: Warmup,
    pub jobs: Option<usize>,
    pub sample: Sample,
    /// What is said of the sample.
    pub sample_name: String,
    /// The number of the part of the keys that is replayed, and how many there are.
    pub part: Option<(u64, u64)>,
    pub is_stream: bool,
    /// How many parts of the trace are counted, one after another.
    pub windows: usize,
    /// The miss ratio for which a size is recommended.
    pub target: Option<f64>,
}

/// The files that a report is written to.
#[derive(Clone, Copy)]
pub struct Outputs<'a> {
    pub csv: Option<&'a str>,
    pub svg: Option<&'a str>,
    pub html: Option<&'a str>,
    pub title: Option<&'a str>,
    pub is_quiet: bool,
}

// An option with a value.
fn valued<'a>(alloc: Global, name: &'a str) -> Arg<'a> {
    Arg::new(alloc, name).long(name).action(ArgAction::Set)
}

// An option without one.
fn flag<'a>(alloc: Global, name: &'a str) -> Arg<'a> {
    Arg::new(alloc, name).long(name).action(ArgAction::SetTrue)
}

/// The command line that the program takes.
pub fn command<'a>(alloc: Global) -> Result<Command<'a>, clap::Error> {
    const VALUED: [&str; 18] = [
        "format", "policy", "size", "shards", "weigh", "ttl", "warmup", "jobs", "csv", "svg",
        "html", "title", "sample", "part", "make", "windows", "target", "name",
    ];
    let mut command = Command::new(alloc, "foyer-trace")
        .no_binary_name(true)
        .disable_help_flag(true)
        .disable_version_flag(true)
        .override_usage("foyer-trace TRACE [options]; --help says more");
    for name in VALUED {
        command = command.arg(valued(alloc, name))?;
    }
    for name in ["skip-bad", "stream", "merge", "quiet"] {
        command = command.arg(flag(alloc, name))?;
    }
    command = command.arg(valued(alloc, "columns").allow_hyphen_values(true))?;
    command = command.arg(flag(alloc, "help").short('h'))?;
    command = command.arg(flag(alloc, "version").short('V'))?;
    let traces = Arg::new(alloc, "trace").value_name("TRACE").num_args(0..);
    Ok(command.arg(traces)?)
}

/// The files that the words ask for.
pub fn outputs_of<'a>(matches: &ArgMatches<'a>) -> Outputs<'a> {
    Outputs {
        csv: matches.get_str("csv"),
        svg: matches.get_str("svg"),
        html: matches.get_str("html"),
        title: matches.get_str("title"),
        is_quiet: matches.get_flag("quiet"),
    }
}

/// What the words ask for.
pub fn task_of<'a>(alloc: Global, matches: &ArgMatches<'a>) -> Result<Task<'a>, Failure> {
    if matches.get_flag("help") {
        return Ok(Task::Help);
    }
    if matches.get_flag("version") {
        return Ok(Task::Version);
    }
    if let Some(word) = matches.get_str("make") {
        return Ok(Task::Make(word));
    }
    let traces = matches.get_strs("trace").unwrap_or(&[]);
    if matches.get_flag("merge") {
        if traces.is_empty() {
            return Err(Failure::Usage(format!(in alloc;
                "--merge takes the files that --csv wrote"
            )?));
        }
        return Ok(Task::Merge);
    }
    match traces {
        [path] => Ok(Task::Replay(replay_of(alloc, matches, path)?)),
        [] => Err(Failure::Usage(format!(in alloc;
            "a trace is missing: a file, or - for standard input"
        )?)),
        _ => Err(Failure::Usage(format!(in alloc; "one trace is replayed at a time")?)),
    }
}

fn replay_of<'a>(
    alloc: Global,
    matches: &ArgMatches<'a>,
    path: &'a str,
) -> Result<Replay<'a>, Failure> {
    let name = name_of(alloc, matches, path)?;
    let format = match matches.get_str("format") {
        Some(name) => Format::of_name(alloc, name)?,
        None => Format::of_path(alloc, name)?,
    };
    let columns = match matches.get_str("columns") {
        Some(_) if format != Format::Csv => {
            return Err(Failure::Usage(format!(in alloc; "--columns is for --format csv")?));
        }
        Some(list) => Some(wanted_columns(alloc, list)?),
        None => None,
    };
    let (sample, sample_name, part) = sample_of(alloc, matches)?;
    let replay = Replay {
        path,
        name,
        format,
        columns,
        skips_bad: matches.get_flag("skip-bad"),
        policies: policies_of(alloc, matches.get_str("policy").unwrap_or("all"))?,
        sizes: sizes_of(alloc, matches.get_str("size").unwrap_or(SIZES))?,
        shards: counted(alloc, matches, "shards")?.unwrap_or(1),
        terms: terms_of(alloc, matches)?,
        warmup: warmup_of(alloc, matches.get_str("warmup").unwrap_or("0"))?,
        jobs: counted(alloc, matches, "jobs")?,
        sample,
        sample_name,
        part,
        is_stream: matches.get_flag("stream"),
        windows: counted(alloc, matches, "windows")?.unwrap_or(1),
        target: target_of(alloc, matches)?,
    };
    replay.check(alloc)?;
    Ok(replay)
}

impl Replay<'_> {
    // Whether the options go together.
    fn check(&self, alloc: Global) -> Result<(), Failure> {
        if let Some(policy) = self.policies.iter().find(|it| !it.is_cores()) {
            self.check_plain(alloc, policy)?;
        }
        let why = if self.has_relative_sizes() && self.is_stream {
            "--stream does not know the footprint: say each --size as a number of records or bytes"
        } else if self.is_stream && matches!(self.warmup, Warmup::Fraction(_)) {
            "--stream does not know the length: say --warmup as a number of records"
        } else if self.terms.weighs_sizes && !self.may_have_sizes() {
            "--weigh size wants a trace with sizes, of the format csv, oracle, msr or twitter"
        } else if self.windows > 1
            && (self.is_stream || self.sample.rate < 1.0 || self.part.is_some())
        {
            "--windows wants the whole trace: leave --stream, --sample and --part out"
        } else if self.has_byte_sizes() && !self.terms.weighs_sizes {
            "a --size such as 10MiB counts bytes, and each record weighs 1: say --weigh size, or a number of records such as 10k"
        } else {
            return Ok(());
        };
        Err(Failure::Usage(String::from_str(alloc, why)?))
    }

    // Whether the options go with a policy whose records weigh 1 and live for ever.
    fn check_plain(&self, alloc: Global, policy: &Policy<'_>) -> Result<(), Failure> {
        let why = if self.terms.weighs_sizes {
            "takes records that weigh 1: leave --weigh size out"
        } else if self.terms.ttl.is_some() {
            "knows no lives: leave --ttl out"
        } else if self.is_stream {
            "needs the whole trace, which a stream does not keep: leave --stream out"
        } else if self.shards > 1 && !policy.is_belady() {
            "has no shards: leave --shards out"
        } else {
            return Ok(());
        };
        let name = policy.name;
        Err(Failure::Usage(format!(in alloc; "{name} {why}")?))
    }

    /// Whether a size is a part of the footprint.
    pub fn has_relative_sizes(&self) -> bool {
        self.sizes.iter().any(|it| matches!(it, Size::Fraction(_)))
    }

    fn has_byte_sizes(&self) -> bool {
        self.sizes.iter().any(|it| matches!(it, Size::Bytes(_)))
    }

    fn may_have_sizes(&self) -> bool {
        !matches!(self.format, Format::Keys | Format::Arc)
    }

    /// A trace's checksum with that of the options that all parts of a run have in common.
    pub fn checksum(&self, trace: u64) -> u64 {
        let warmup = match self.warmup {
            Warmup::Records(number) => number,
            Warmup::Fraction(part) => joined(1, scaled(part)),
        };
        let sample = match self.part {
            None if self.sample.rate < 1.0 => scaled(self.sample.rate),
            _ => 0,
        };
        let weight = if self.terms.weighs_sizes { 2 } else { 1 };
        let ttl = self.terms.ttl.unwrap_or(0);
        let options = joined(joined(joined(weight, ttl), self.shards as u64), warmup);
        joined(joined(trace, options), sample)
    }
}

// A part of 1 as a number.
fn scaled(part: f64) -> u64 {
    saturating_f64_to_u64(part * 9007199254740992.0)
}
