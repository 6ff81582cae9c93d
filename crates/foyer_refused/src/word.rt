//! What the program says.

use std::alloc::Global;

const USAGE: &str = "usage: foyer-refused POLICY CALL

Makes a call until it is not refused, and prints early, kept, behind, done or wrong: what differs.

  POLICY  fifo, lru, lfu, s3fifo or sieve
  CALL    a call that tests/refused/run names, which runs this with one allocation refused";

/// What a call shows.
#[derive(Clone, Copy)]
pub enum Shown {
    /// Memory is refused before the call.
    Early,
    /// The call was refused and what is left is as it should be; the same call then succeeded.
    Kept,
    /// The call was not refused, and the next request behind it is.
    Behind,
    /// Nothing is refused.
    Done,
    /// How the program is called.
    Usage,
    /// Something differs.
    Wrong(&'static str),
}

impl Shown {
    /// What a call shows that was refused first, and then shows this.
    pub fn behind_a_refusal(self) -> Shown {
        match self {
            Shown::Done => Shown::Kept,
            shown => shown,
        }
    }

    /// What a call shows behind which one more box is asked for.
    pub fn or_behind(self, alloc: Global) -> Shown {
        match self {
            Shown::Done if Box::new(alloc, 0u8).is_err() => Shown::Behind,
            shown => shown,
        }
    }

    /// The words that are printed.
    pub fn words(self) -> [&'static str; 2] {
        match self {
            Shown::Early => ["early", ""],
            Shown::Kept => ["kept", ""],
            Shown::Behind => ["behind", ""],
            Shown::Done => ["done", ""],
            Shown::Usage => [USAGE, ""],
            Shown::Wrong(what) => ["wrong: ", what],
        }
    }
}
