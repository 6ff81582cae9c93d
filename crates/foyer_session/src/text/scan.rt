//! Reading lines.

ghost use Rattle.std.specs.Prelude.{◌≡◌, ◌≢◌, IfOk, IfErr, IfSome, OnOk, OnErr};
ghost use Rattle.std.specs.IoError.{error_kind};
ghost use Rattle.std.specs.Io.KnownBytes.{Keeps};
ghost use Rattle.std.specs.Io.BufRead.{DropsThrough};
ghost use Rattle.foyer_session.specs.Text.{next_line};
ghost use Rattle.foyer_session.specs.Reading.{StopsWithin, TakesPart};

use super::Line;
use super::kept::Kept;
use super::parse::{len_before, line_of};
use super::print::flush_out;
use std::io;
use std::io::{BufRead, ErrorKind, Write};

/// Reads lines, one after another. Before each read that may wait, when the reader's buffer is used up, the output is
/// flushed.
#[derive(Drop)]
pub struct Lines {
    is_used_up: bool,
}

impl Lines {
    /// Starts with a reader that gave nothing so far.
    pub fn new() -> Self {
        Lines { is_used_up: true }
    }

    /// Reads the next line, which ends at a byte 10 or at the end of the input, or returns `None` at the end. It goes
    /// on after an interruption.
    ///
    /// # Errors
    /// That of the reader, or of the writer's flush, or after 2^64 calls. Some bytes of the line may have been read,
    /// but not its end.
    pub fn read<R: BufRead, W: Write>(
        &mut self,
        reader: &mut R,
        writer: &mut W,
    ) -> io::Result<Option<Line>>
        ensures line { IfOk result (λ line. IfSome (R.remaining reader.old)
            (λ input. line ≡ next_line input)) }
        ensures rest { OnOk result (DropsThrough (R.remaining reader.old) (R.remaining reader.new) 10) }
        ensures err { OnErr result (StopsWithin (R.remaining reader.old) (R.remaining reader.new)) }
        ensures retried { IfErr result (λ e. error_kind e ≢ ErrorKind.Interrupted) }
        ensures written { Keeps (W.contents writer.old) (W.contents writer.new) }
    {
        if let Err(e) = self.hand_on(writer) {
            return Err(e);
        }
        let chunk = match reader.fill_buf() {
            Ok(chunk) => chunk,
            Err(e) => {
                if e.kind() == ErrorKind::Interrupted {
                    return self.read_by_parts(reader, writer);
                }
                return Err(e);
            }
        };
        if chunk.is_empty() {
            return Ok(None);
        }
        let end = len_before(chunk, b'\n');
        if end == chunk.len() {
            return self.read_by_parts(reader, writer);
        }
        let line = line_of(&chunk[..end]);
        self.is_used_up = end + 1 == chunk.len();
        reader.consume(end + 1);
        Ok(Some(line))
    }

    // Flushes the output, if the next read may wait.
    fn hand_on<W: Write>(&self, writer: &mut W) -> io::Result<()>
        ensures written { Keeps (W.contents writer.old) (W.contents writer.new) }
        ensures retried { IfErr result (λ e. error_kind e ≢ ErrorKind.Interrupted) }
    {
        if self.is_used_up {
            return flush_out(writer);
        }
        Ok(())
    }

    // Reads the next line, like `read`, part by part.
    #[cold]
    #[inline(never)]
    fn read_by_parts<R: BufRead, W: Write>(
        &mut self,
        reader: &mut R,
        writer: &mut W,
    ) -> io::Result<Option<Line>>
        ensures line { IfOk result (λ line. IfSome (R.remaining reader.old)
            (λ input. line ≡ next_line input)) }
        ensures rest { OnOk result (DropsThrough (R.remaining reader.old) (R.remaining reader.new) 10) }
        ensures err { OnErr result (StopsWithin (R.remaining reader.old) (R.remaining reader.new)) }
        ensures retried { IfErr result (λ e. error_kind e ≢ ErrorKind.Interrupted) }
        ensures written { Keeps (W.contents writer.old) (W.contents writer.new) }
    {
        let mut kept = Kept::new();
        let mut is_started = false;
        for _turn in 0..u64::MAX {
            let part = match self.read_part(reader, writer, &mut kept) {
                Ok(part) => part,
                Err(e) => return Err(e),
            };
            match part {
                Part::Nothing => {}
                Part::Open => is_started = true,
                Part::Closed => return Ok(Some(kept.line())),
                Part::End if is_started => return Ok(Some(kept.line())),
                Part::End => return Ok(None),
            }
        }
        Err(io::Error::from(ErrorKind::Other))
    }

    // Takes the reader's buffered bytes, up to the end of the line.
    fn read_part<R: BufRead, W: Write>(
        &mut self,
        reader: &mut R,
        writer: &mut W,
        kept: &mut Kept,
    ) -> io::Result<Part>
        ensures taken { IfOk result
            (TakesPart (R.remaining reader.old) (R.remaining reader.new) kept.old kept.new) }
        ensures err { OnErr result (Keeps (R.remaining reader.old) (R.remaining reader.new)) }
        ensures retried { IfErr result (λ e. error_kind e ≢ ErrorKind.Interrupted) }
        ensures written { Keeps (W.contents writer.old) (W.contents writer.new) }
    {
        if let Err(e) = self.hand_on(writer) {
            return Err(e);
        }
        let chunk = match reader.fill_buf() {
            Ok(chunk) => chunk,
            Err(e) => {
                if e.kind() == ErrorKind::Interrupted {
                    return Ok(Part::Nothing);
                }
                return Err(e);
            }
        };
        if chunk.is_empty() {
            return Ok(Part::End);
        }
        let len = chunk.len();
        let end = len_before(chunk, b'\n');
        kept.push_all(&chunk[..end]);
        if end == len {
            self.is_used_up = true;
            reader.consume(end);
            return Ok(Part::Open);
        }
        self.is_used_up = end + 1 == len;
        reader.consume(end + 1);
        Ok(Part::Closed)
    }
}

// What was read of a line.
enum Part {
    // The reader was interrupted.
    Nothing,
    // Some bytes, and the line goes on.
    Open,
    // The rest of the line, with its end.
    Closed,
    // The input is at its end.
    End,
}
