//! How far a run is, on a terminal.

use std::rt::Clock;
use std::time::{Duration, Instant};

/// Says on standard error how far a run is, where that is a terminal and the run takes more than a second.
#[derive(Drop)]
pub struct Progress {
    // When the run began, where it says anything.
    start: Option<Instant>,
    is_shown: bool,
}

impl Progress {
    /// Of a run that begins now. Nothing is said yet, and nothing ever where it is no terminal.
    pub fn new(rt: &impl Clock, is_terminal: bool) -> Self {
        let start = if is_terminal {
            Instant::now(rt).ok()
        } else {
            None
        };
        Progress {
            start,
            is_shown: false,
        }
    }

    /// So many keys of all were looked up.
    pub fn say<R: Clock + Eprint>(&mut self, rt: &R, done: usize, all: usize) {
        let Some(start) = self.start else {
            return;
        };
        let Ok(taken) = start.elapsed(rt) else {
            return;
        };
        if taken < Duration::from_secs(1) || all == 0 {
            return;
        }
        let percent = done as u128 * 100 / all as u128;
        self.is_shown = eprint!(rt; "\r{percent:>3} %").is_ok();
    }

    /// Takes away what it said.
    pub fn end(&mut self, rt: &impl Eprint) {
        if self.is_shown {
            self.is_shown = eprint!(rt; "\r     \r").is_err();
        }
    }
}
