//! The moments of a run's operations, and when what they put in expires.

use crate::random::mix;

/// For how many operations a run's records live. Where it is not for ever, the moment of an operation is its number.
#[derive(Clone, Copy, Debug, PartialEq, Eq)]
pub enum Life {
    /// For ever. Each operation has the moment 0.
    Ever,
    /// For so many, every record.
    For(u64),
    /// For so many, one record in a hundred; the others for ever.
    Few(u64),
    /// At random from so many to a hundred times as many, half of them to ten times as many.
    Spread(u64),
    /// Of so many operations in a row, what the last tenth puts in expires at their end, all at once; the others never.
    Batch(u64),
}

/// The moment of an operation.
#[derive(Clone, Copy, Debug, PartialEq, Eq)]
pub struct Moment {
    now: u64,
    // By how much the moments of two operations differ: 1, or 0 where records live for ever.
    step: u64,
    life: Life,
}

impl Moment {
    /// That of the first operation of a run in which records live so long.
    pub fn first(life: Life) -> Self {
        Moment {
            now: 0,
            step: u64::from(life != Life::Ever),
            life,
        }
    }

    /// The moment as a cache takes it: the operation's number, from 0, or always 0 where records live for ever.
    #[inline(always)]
    pub fn now(self) -> u64 {
        self.now
    }

    /// When a record expires that the operation puts in, or none where it never does.
    #[inline(always)]
    pub fn expiry(self) -> Option<u64> {
        match self.life {
            Life::Ever => None,
            _ => self.some_expiry(),
        }
    }

    // The same where some expire.
    #[inline(never)]
    fn some_expiry(self) -> Option<u64> {
        match self.life {
            Life::Ever => None,
            Life::For(life) => Some(self.now.saturating_add(life)),
            Life::Few(life) if self.now % 100 > 0 => None,
            Life::Few(life) => Some(self.now.saturating_add(life)),
            Life::Spread(life) => Some(self.now.saturating_add(spread(life, mix(self.now)))),
            Life::Batch(length) => batch_end(self.now, length),
        }
    }

    /// That of the next operation.
    #[inline(always)]
    pub fn next(self) -> Self {
        Moment {
            now: self.now.wrapping_add(self.step),
            ..self
        }
    }
}

// From once to a hundred times as long, by a random number: as often up to ten times as beyond.
fn spread(life: u64, random: u64) -> u64 {
    let thousandths = 1_000 + random / 2 % 9_000;
    let decade = if random % 2 == 0 { 1 } else { 10 };
    life.saturating_mul(thousandths).saturating_mul(decade) / 1_000
}

// The end of the row of operations in which this one is, where it is of the row's last tenth.
fn batch_end(now: u64, length: u64) -> Option<u64> {
    let length = length.max(1);
    let left = length - now % length;
    if left <= length / 10 {
        now.checked_add(left)
    } else {
        None
    }
}

#[cfg(test)]
mod tests;
