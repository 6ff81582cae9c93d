//! The files that a report is written to. They are opened before the runs, and keep what they had until these are done.

use crate::failure::Failure;
use crate::options::Outputs;
use std::alloc::Global;
use std::fs::{self, File, Files, OpenFile};
use std::io::Write;

/// An open file.
#[derive(Drop)]
pub struct Output<'a, F: Drop> {
    path: &'a str,
    file: F,
}

/// The open files of a report.
#[derive(Drop)]
pub struct Opened<'a, F: Drop> {
    pub csv: Option<Output<'a, F>>,
    pub svg: Option<Output<'a, F>>,
    pub html: Option<Output<'a, F>>,
}

/// Opens the wanted files, none of which may be the trace.
pub fn open_files<'a, R: AllocGlobal + Files>(
    rt: &R,
    alloc: Global,
    outputs: Outputs<'a>,
    trace: &str,
) -> Result<Opened<'a, R::File>, Failure> {
    let paths = [outputs.csv, outputs.svg, outputs.html];
    for path in paths.iter() {
        let Some(path) = path else {
            continue;
        };
        if is_named_twice(paths.as_slice(), path) && !path.starts_with("/dev/") {
            return Err(Failure::Usage(format!(in alloc; "two files of one name: {path}")?));
        }
        if trace != "-" && is_same_file(rt, path, trace) {
            return Err(Failure::Usage(format!(in alloc;
                "{path} is the trace, and would be written over"
            )?));
        }
    }
    Ok(Opened {
        csv: open_file(rt, alloc, outputs.csv)?,
        svg: open_file(rt, alloc, outputs.svg)?,
        html: open_file(rt, alloc, outputs.html)?,
    })
}

// Whether a path is named more than once.
fn is_named_twice(paths: &[Option<&str>], path: &str) -> bool {
    let mut count = 0usize;
    for it in paths {
        if let Some(it) = it {
            if *it == path {
                count = count.saturating_add(1);
            }
        }
    }
    count > 1
}

// Whether two paths lead to the same existing file.
fn is_same_file<R: AllocGlobal + Files>(rt: &R, path: &str, other: &str) -> bool {
    match (fs::canonicalize(rt, path), fs::canonicalize(rt, other)) {
        (Ok(path), Ok(other)) => path == other,
        _ => path == other,
    }
}

fn open_file<'a, R: Files>(
    rt: &R,
    alloc: Global,
    path: Option<&'a str>,
) -> Result<Option<Output<'a, R::File>>, Failure> {
    let Some(path) = path else {
        return Ok(None);
    };
    let mut options = File::options();
    options.write(true).create(true);
    match options.open(rt, path) {
        Ok(file) => Ok(Some(Output { path, file })),
        Err(error) => Err(Failure::of_io(alloc, path, &error)),
    }
}

impl<F: Write + OpenFile + Drop> Output<'_, F> {
    /// Replaces the file's content by a text.
    pub fn write(self, alloc: Global, text: &str) -> Result<(), Failure> {
        let Output { path, file } = self;
        match replace(file, text) {
            Ok(()) => Ok(()),
            Err(error) => Err(Failure::of_io(alloc, path, &error)),
        }
    }
}

fn replace<F: Write + OpenFile + Drop>(file: F, text: &str) -> std::io::Result<()> {
    let mut file = file;
    // A pipe or a device has no length.
    if file.metadata()?.is_file() {
        file.set_len(0)?;
    }
    file.write_all(text.as_bytes())
}
