//! Which lines of a run were bad: how many, and the first with its number.

ghost use Rattle.std.specs.Prelude.{Some, length};
ghost use Rattle.std.specs.Io.Buffered.{reader_remaining, reader_buffer};

use std::cell::Cell;
use std::io;
use std::io::{BufRead, BufReader, Read, Write};

// How many bytes of a line are shown.
const SHOWN: usize = 60;
// The reply to a bad line.
const REPLY: &[u8] = b"bad line";

/// What the reader and the writer of a run tell each other. The reply to a line is written before the next line is taken.
#[derive(Drop)]
pub struct Bad {
    lines: Cell<u64>,
    count: Cell<u64>,
    first: Cell<u64>,
}

impl Bad {
    /// No line so far.
    pub fn new() -> Self {
        Bad {
            lines: Cell::new(0),
            count: Cell::new(0),
            first: Cell::new(0),
        }
    }

    /// How many lines were bad.
    pub fn count(&self) -> u64 {
        self.count.get()
    }

    /// The number of the first of them, from 1; 0 if there was none.
    pub fn first(&self) -> u64 {
        self.first.get()
    }

    // Counts a line that is taken.
    fn begin(&self) {
        self.lines.set(self.lines.get().saturating_add(1));
    }

    // Counts the line that was taken last as bad.
    fn note(&self) {
        if self.count.get() == 0 {
            self.first.set(self.lines.get());
        }
        self.count.set(self.count.get().saturating_add(1));
    }
}

/// The beginning of the line that was taken last, or of the first bad one.
#[derive(Drop)]
struct Shown {
    bytes: [u8; SHOWN],
    len: usize,
    is_open: bool,
}

impl Shown {
    // Takes the next bytes, which have at most one line's end, as their last.
    fn take(&mut self, bytes: &[u8], bad: &Bad) {
        let Some((last, before)) = bytes.split_last() else {
            return;
        };
        let is_first = !self.is_open;
        self.is_open = *last != b'\n';
        if is_first {
            bad.begin();
        }
        if bad.count() == 0 {
            let line = if self.is_open { bytes } else { before };
            self.keep(line, is_first);
        }
    }

    // Keeps the beginning of a line, or its next part. What can't be printed becomes a question mark.
    fn keep(&mut self, line: &[u8], is_first: bool) {
        if is_first {
            self.len = 0;
        }
        for byte in line {
            if self.len >= SHOWN {
                return;
            }
            self.bytes[self.len] = if (b' '..=b'~').contains(byte) {
                *byte
            } else {
                b'?'
            };
            self.len += 1;
        }
    }
}

/// A reader that counts the lines that are taken from it, one at a time.
#[derive(Drop)]
pub struct Lined<'a, R: Read + Drop> {
    inner: BufReader<R>,
    shown: Shown,
    bad: &'a Bad,
}

impl<'a, R: Read + Drop> Lined<'a, R> {
    /// Of a reader that gave nothing so far.
    pub fn new(inner: BufReader<R>, bad: &'a Bad) -> Self {
        let shown = Shown {
            bytes: [0; SHOWN],
            len: 0,
            is_open: false,
        };
        Lined { inner, shown, bad }
    }

    /// The beginning of the first bad line, if there was one.
    pub fn first_bad(&self) -> &str {
        let bytes = self.shown.bytes.get(..self.shown.len).unwrap_or(b"");
        str::from_utf8(bytes).unwrap_or("")
    }
}

impl<'a, R: Read + Drop> Read for Lined<'a, R> {
    ghost remaining = { λ l. reader_remaining R.remaining l.inner };

    fn read(&mut self, buf: &mut [u8]) -> io::Result<usize> {
        self.inner.read(buf)
    }
}

impl<'a, R: Read + Drop> BufRead for Lined<'a, R> {
    ghost consumable_len = { λ l. Some (length (reader_buffer l.inner)) };

    fn fill_buf(&mut self) -> io::Result<&[u8]> {
        self.inner.fill_buf()
    }

    fn consume(&mut self, amount: usize) {
        let bytes = self.inner.buffer().get(..amount).unwrap_or(b"");
        self.shown.take(bytes, self.bad);
        self.inner.consume(amount);
    }
}

/// A writer that counts the replies `bad line`, each of which begins with a call of its own.
#[derive(Drop)]
pub struct Replies<'a, W: Write + Drop> {
    inner: W,
    bad: &'a Bad,
}

impl<'a, W: Write + Drop> Replies<'a, W> {
    /// Of a writer that took nothing so far.
    pub fn new(inner: W, bad: &'a Bad) -> Self {
        Replies { inner, bad }
    }

    /// The writer behind.
    pub fn get_ref(&self) -> &W {
        &self.inner
    }
}

impl<'a, W: Write + Drop> Write for Replies<'a, W> {
    ghost contents = { λ r. W.contents r.inner };

    fn write(&mut self, buf: &[u8]) -> io::Result<usize> {
        let written = self.inner.write(buf);
        // Most calls have another length.
        if buf.len() == REPLY.len() && buf == REPLY {
            if let Ok(1..) = &written {
                self.bad.note();
            }
        }
        written
    }

    fn flush(&mut self) -> io::Result<()> {
        self.inner.flush()
    }
}
