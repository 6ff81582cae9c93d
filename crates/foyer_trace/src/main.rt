//! `foyer-trace` replays the requests of a trace over caches of each policy and size, and prints and draws their miss
//! ratios.
#![tactic(auto)]

use clap::ArgMatches;
use std::alloc::Global;
use std::env::{self, Env};
use std::fs::{self, Files, OpenFile};
use std::io::{self, BufRead, BufReader, BufWriter, ErrorKind, IsTerminal, Write};
use std::process::ExitCode;
use std::rt::Clock;
use std::thread::{self, Threads};
use std::time::Instant;

mod additions;
mod axis;
mod belady;
mod curve;
mod failure;
mod files;
mod footprint;
mod format;
mod help;
mod html;
mod key;
mod lines;
mod look;
mod merge;
mod nearest;
mod notes;
mod number;
mod options;
mod origin;
mod plan;
mod policy;
mod progress;
mod recommend;
mod record;
mod reference;
mod report;
mod run;
mod runner;
mod session;
mod sheet;
mod source;
mod stream;
mod svg;
mod table;
mod trace;
mod values;
mod window_svg;
mod windows;
mod zipf;

use failure::Failure;
use files::{Opened, open_files};
use help::{HELP, VERSION};
use merge::Merger;
use options::{Outputs, Replay, Task, command, outputs_of, task_of};
use report::Report;
use session::{Ground, replay_trace};
use sheet::sheet_of;
use svg::picture_of;
use table::text_of;
use values::target_of;
use zipf::{write_zipf, zipf_of};

fn main(rt: HostRuntime) -> ExitCode {
    let is_terminal = rt.stderr().is_terminal();
    match words_of(&rt, rt.alloc()) {
        Ok(words) => serve_words(&rt, rt.alloc(), words.as_slice(), is_terminal),
        Err(failure) => fail(&rt, &failure),
    }
}

// Does what the words ask for, and says why where that fails.
fn serve_words<R: AllocGlobal + Clock + Eprint + Files + Input + Print + Threads + Sync>(
    rt: &R,
    alloc: Global,
    words: &[String],
    is_terminal: bool,
) -> ExitCode {
    let command = match command(alloc) {
        Ok(command) => command,
        Err(error) => return refuse(rt, &error),
    };
    let matches = match command.try_get_matches_from(words) {
        Ok(matches) => matches,
        Err(error) => return refuse(rt, &error),
    };
    match answer(rt, alloc, words, &matches, is_terminal) {
        Ok(()) => ExitCode::SUCCESS,
        Err(failure) => fail(rt, &failure),
    }
}

// Says on standard error what is wrong with the arguments.
fn refuse<R: Eprint>(rt: &R, error: &clap::Error) -> ExitCode {
    // The status says it where standard error can't.
    let _ = eprint!(rt; "foyer-trace: {error}");
    ExitCode::from(2)
}

// The words that the program was started with, without its name.
fn words_of<R: Env + AllocGlobal>(rt: &R, alloc: Global) -> Result<Vec<String>, Failure> {
    let args = match env::args(rt) {
        Ok(args) => args,
        Err(error) if error.kind() == ErrorKind::OutOfMemory => return Err(Failure::Memory),
        Err(_) => return Err(Failure::Usage(format!(in alloc; "the arguments are not UTF-8")?)),
    };
    let mut words = Vec::new(alloc);
    for word in args.skip(1) {
        words.push(word)?;
    }
    Ok(words)
}

// Says on standard error why the program ends.
fn fail<R: Eprint>(rt: &R, failure: &Failure) -> ExitCode {
    // The status says it where standard error can't.
    let _ = match failure {
        Failure::Usage(why) => {
            eprintln!(rt;
                "foyer-trace: {why}\nusage: foyer-trace TRACE [options]; --help says more"
            )
        }
        Failure::Bad(why) | Failure::Other(why) => eprintln!(rt; "foyer-trace: {why}"),
        Failure::Memory => eprintln!(rt; "foyer-trace: out of memory"),
        Failure::Closed => Ok(()),
    };
    ExitCode::from(failure.status())
}

// Does what the words ask for.
fn answer<R: AllocGlobal + Clock + Eprint + Files + Input + Print + Threads + Sync>(
    rt: &R,
    alloc: Global,
    words: &[String],
    matches: &ArgMatches<'_>,
    is_terminal: bool,
) -> Result<(), Failure> {
    let outputs = outputs_of(matches);
    match task_of(alloc, matches)? {
        Task::Help => say(rt, alloc, HELP),
        Task::Version => say(rt, alloc, VERSION),
        Task::Make(word) => {
            let zipf = zipf_of(alloc, word)?;
            let mut out = match BufWriter::new(alloc, io::writer(rt)) {
                Ok(out) => out,
                Err(_) => return Err(Failure::Memory),
            };
            write_zipf(alloc, zipf, &mut out)
        }
        Task::Merge => {
            let mut report = merge_files(
                rt,
                alloc,
                matches,
                outputs.title.unwrap_or("merged parts"),
            )?;
            report.recommend(alloc, target_of(alloc, matches)?)?;
            let files = open_files(rt, alloc, outputs, "-")?;
            write_report(rt, alloc, &report, words, files)
        }
        Task::Replay(replay) => {
            let files = open_files(rt, alloc, outputs, replay.path)?;
            let report = open_and_replay(rt, alloc, &replay, outputs, is_terminal)?;
            write_report(rt, alloc, &report, words, files)
        }
    }
}

// Adds up the files that the words name.
fn merge_files<R: AllocGlobal + Files>(
    rt: &R,
    alloc: Global,
    matches: &ArgMatches<'_>,
    title: &str,
) -> Result<Report, Failure> {
    let mut merger = Merger::new(alloc);
    if let Some(paths) = matches.get_strs("trace") {
        for path in paths {
            match fs::read(rt, *path) {
                Ok(text) => merger.add(path, text.as_slice())?,
                Err(error) => return Err(Failure::of_io(alloc, path, &error)),
            }
        }
    }
    merger.report(String::from_str(alloc, title)?)
}

// Prints a text.
fn say<R: Print>(rt: &R, alloc: Global, text: &str) -> Result<(), Failure> {
    match rt.print(text) {
        Ok(()) => Ok(()),
        Err(error) => Err(Failure::of_output(alloc, &error)),
    }
}

// How much of a trace is read at a time.
const BUFFER: usize = 1 << 18;

fn open_and_replay<R: AllocGlobal + Clock + Eprint + Files + Input + Threads + Sync>(
    rt: &R,
    alloc: Global,
    replay: &Replay<'_>,
    outputs: Outputs<'_>,
    is_terminal: bool,
) -> Result<Report, Failure> {
    let ground = Ground {
        rt,
        alloc,
        is_terminal,
        outputs,
    };
    if replay.path == "-" {
        return match BufReader::with_capacity(alloc, BUFFER, rt.reader()) {
            Ok(reader) => replay_trace(&ground, replay, reader),
            Err(_) => Err(Failure::Memory),
        };
    }
    let file = match fs::open(rt, replay.path) {
        Ok(file) => file,
        Err(error) => return Err(Failure::of_io(alloc, replay.path, &error)),
    };
    match BufReader::with_capacity(alloc, BUFFER, file) {
        Ok(reader) => replay_trace(&ground, replay, reader),
        Err(_) => Err(Failure::Memory),
    }
}

// Writes the files that were opened, and prints the table, also where a file can't be written.
fn write_report<R: AllocGlobal + Files + Print>(
    rt: &R,
    alloc: Global,
    report: &Report,
    words: &[String],
    files: Opened<'_, R::File>,
) -> Result<(), Failure> {
    let written = write_files(alloc, report, words, files);
    let said = say(rt, alloc, text_of(alloc, report)?.as_str());
    written?;
    said
}

fn write_files<F: Write + OpenFile + Drop>(
    alloc: Global,
    report: &Report,
    words: &[String],
    files: Opened<'_, F>,
) -> Result<(), Failure> {
    let Opened { csv, svg, html } = files;
    if let Some(file) = csv {
        file.write(alloc, sheet_of(alloc, report)?.as_str())?;
    }
    if let Some(file) = svg {
        file.write(alloc, picture_of(alloc, report, true)?.as_str())?;
    }
    if let Some(file) = html {
        file.write(alloc, html::page_of(alloc, report, words)?.as_str())?;
    }
    Ok(())
}
