//! How far the runs are.

use crate::number::{float, grouped};
use std::alloc::{AllocError, Global};
use std::rt::Clock;
use std::sync::atomic::{AtomicU64, Ordering};
use std::time::{Duration, Instant};

/// Says on standard error how far the runs are: on a terminal in one line, else in a line every 10 seconds.
#[derive(Drop)]
pub struct Progress<'a, R> {
    rt: &'a R,
    alloc: Global,
    // When the runs began, or none where nothing is to be said.
    start: Option<Instant>,
    is_terminal: bool,
    // How many requests there are in all runs together, or 0 where that is unknown.
    all: u64,
    done: AtomicU64,
    // When something was said last, in milliseconds.
    said: AtomicU64,
}

impl<'a, R: Clock + Eprint> Progress<'a, R> {
    /// Of runs that begin now, with so many requests in all.
    pub fn new(rt: &'a R, alloc: Global, all: u64, is_terminal: bool, is_quiet: bool) -> Self {
        Progress {
            rt,
            alloc,
            start: if is_quiet {
                None
            } else {
                Instant::now(rt).ok()
            },
            is_terminal,
            all,
            done: AtomicU64::new(0),
            said: AtomicU64::new(0),
        }
    }

    // How many milliseconds pass between two lines.
    fn pause(&self) -> u64 {
        if self.is_terminal { 500 } else { 10_000 }
    }

    /// So many more requests are done.
    pub fn advance(&self, requests: u64) {
        let done = self
            .done
            .fetch_add(requests, Ordering::SeqCst)
            .saturating_add(requests);
        let Some(start) = self.start else {
            return;
        };
        let Ok(taken) = start.elapsed(self.rt) else {
            return;
        };
        let now = u64::try_from(taken.as_millis()).unwrap_or(u64::MAX);
        let said = self.said.load(Ordering::SeqCst);
        if now.saturating_sub(said) < self.pause() {
            return;
        }
        // Of several threads one says it.
        if self
            .said
            .compare_exchange(said, now, Ordering::SeqCst, Ordering::SeqCst)
            .is_ok()
        {
            let _ = self.say(done, taken);
        }
    }

    fn say(&self, done: u64, taken: Duration) -> Result<(), AllocError> {
        let seconds = taken.as_secs_f64().max(0.001);
        let rate = float(done as u128) / seconds;
        let count = grouped(self.alloc, done as u128)?;
        let mut text = if self.all > 0 {
            let all = grouped(self.alloc, self.all as u128)?;
            let left = float(self.all.saturating_sub(done) as u128) / rate.max(1.0) / 60.0;
            format!(in self.alloc;
                "{count} of {all} requests, {:.2} million a second, {left:.1} minutes left",
                rate / 1e6
            )?
        } else {
            format!(in self.alloc; "{count} requests, {:.2} million a second", rate / 1e6)?
        };
        if self.is_terminal {
            for _column in text.len()..76 {
                text.push(' ')?;
            }
            let _ = eprint!(self.rt; "\r{text}");
        } else {
            let _ = eprintln!(self.rt; "foyer-trace: {text}");
        }
        Ok(())
    }

    /// Takes the line away from a terminal.
    pub fn end(&self) {
        if self.is_terminal && self.said.load(Ordering::SeqCst) > 0 {
            let _ = eprint!(self.rt; "\r{:76}\r", "");
        }
    }
}
