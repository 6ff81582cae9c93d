//! The beginning of a line that goes on after the reader's buffer.

ghost use Rattle.std.specs.Prelude.{◌≡◌, ◌∷◌, ◌++◌, []};
ghost use Rattle.foyer_session.specs.Text.{line_of};
ghost use Rattle.foyer_session.specs.Kept.{StandsFor};

use super::Line;
use super::parse::line_of;
use std::marker::Model;

// A line of this many bytes, without double or leading spaces, is a bad line whatever follows: it has a sixth word or
// a word of more than 20 bytes.
const MOST: usize = 106;

/// What has to be kept of the beginning of a line: its bytes without double and leading spaces, as many as can
/// matter.
#[derive(Drop)]
pub(super) struct Kept {
    bytes: [u8; MOST],
    len: usize,
    // The last byte that was kept, or else a space.
    last: u8,
}

impl Model for Kept {
    ghost use Rattle.std.specs.Prelude.{◌≡◌, ℕ, ◌≤◌, List, take, true};
    ghost use Rattle.foyer_session.specs.declared.text.kept.TheConstants.{MOST};
    ghost use Rattle.foyer_session.specs.Kept.{last_after, is_tight_after};

    ghost Value = { List ℕ };

    ghost view = { λ k. take k.len k.bytes };

    ghost invariant = { λ k. (k.len ≤ MOST) × (k.last ≡ last_after 32 (take k.len k.bytes))
        × (is_tight_after 32 (take k.len k.bytes) ≡ true) };
}

impl Kept {
    pub(super) fn new() -> Self
        ensures { result ≡ [] }
    {
        Kept {
            bytes: [0; MOST],
            len: 0,
            last: b' ',
        }
    }

    pub(super) fn push_all(&mut self, bytes: &[u8])
        ensures { StandsFor self.new (self.old ++ bytes.now) }
    {
        for byte in bytes {
            self.push(*byte);
        }
    }

    fn push(&mut self, byte: u8)
        ensures { StandsFor self.new (self.old ++ byte ∷ []) }
    {
        if byte == b' ' && self.last == b' ' {
            return;
        }
        if self.len < MOST {
            self.bytes[self.len] = byte;
            self.len += 1;
            self.last = byte;
        }
    }

    /// Parses the line, if nothing follows.
    pub(super) fn line(&self) -> Line
        ensures { result ≡ line_of self.now }
    {
        line_of(&self.bytes[..self.len])
    }
}
