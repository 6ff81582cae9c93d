//! Writing texts and numbers.

ghost use Rattle.std.specs.Prelude.{◌≡◌, ◌≢◌, ◌≤◌, IfErr, decimal, drop, length};
ghost use Rattle.std.specs.IoError.{error_kind};
ghost use Rattle.std.specs.Io.KnownBytes.{Keeps};
ghost use Rattle.foyer_session.specs.Text.{number_of};
ghost use Rattle.foyer_session.specs.Print.{WritesText};

use std::io;
use std::io::{ErrorKind, Write};

/// Writes a text. It goes on after an interruption.
///
/// # Errors
/// That of the writer, or if the writer takes no byte, or after 2^64 calls. A beginning of the text was written.
pub fn write_out<W: Write>(writer: &mut W, text: &[u8]) -> io::Result<()>
    ensures text { WritesText (W.contents writer.old) (W.contents writer.new) result text.now }
    ensures retried { IfErr result (λ e. error_kind e ≢ ErrorKind.Interrupted) }
{
    let mut at = 0;
    for _turn in 0..u64::MAX {
        if at >= text.len() {
            return Ok(());
        }
        match writer.write(&text[at..]) {
            Ok(0) => return Err(io::Error::from(ErrorKind::WriteZero)),
            Ok(n) => at += n,
            Err(e) => {
                if e.kind() != ErrorKind::Interrupted {
                    return Err(e);
                }
            }
        }
    }
    Err(io::Error::from(ErrorKind::Other))
}

/// Flushes the writer. It goes on after an interruption.
///
/// # Errors
/// That of the writer, or after 2^64 calls.
pub fn flush_out<W: Write>(writer: &mut W) -> io::Result<()>
    ensures kept { Keeps (W.contents writer.old) (W.contents writer.new) }
    ensures retried { IfErr result (λ e. error_kind e ≢ ErrorKind.Interrupted) }
{
    for _turn in 0..u64::MAX {
        match writer.flush() {
            Ok(()) => return Ok(()),
            Err(e) => {
                if e.kind() != ErrorKind::Interrupted {
                    return Err(e);
                }
            }
        }
    }
    Err(io::Error::from(ErrorKind::Other))
}

/// Writes a number in decimal, without leading zeros, so that `number_of` reads it back. It fails like `write_out`.
pub fn write_number<W: Write>(writer: &mut W, number: u64) -> io::Result<()>
    ensures text { WritesText (W.contents writer.old) (W.contents writer.new) result (decimal number) }
    ensures retried { IfErr result (λ e. error_kind e ≢ ErrorKind.Interrupted) }
    ensures read_back { number_of (decimal number) ≡ Some number }
{
    let mut digits = [0; 20];
    let start = fill_digits(&mut digits, number);
    write_out(writer, &digits[start..])
}

/// Writes a number of up to 128 bits, like `write_number`.
pub fn write_wide_number<W: Write>(writer: &mut W, number: u128) -> io::Result<()>
    ensures text { WritesText (W.contents writer.old) (W.contents writer.new) result (decimal number) }
    ensures retried { IfErr result (λ e. error_kind e ≢ ErrorKind.Interrupted) }
{
    if let Ok(number) = u64::try_from(number) {
        return write_number(writer, number);
    }
    let mut digits = [0; 39];
    let start = fill_wide_digits(&mut digits, number);
    write_out(writer, &digits[start..])
}

// Writes the digits of a number at the end of the buffer, and returns where they begin.
fn fill_digits(buffer: &mut [u8], number: u64) -> usize
    requires { length (decimal number) ≤ length buffer.old }
    ensures within { result ≤ length buffer.new }
    ensures digits { drop result buffer.new ≡ decimal number }
{
    let mut start = buffer.len();
    let mut front = number;
    while front >= 10 {
        start -= 1;
        buffer[start] = b'0' + (front % 10) as u8;
        front /= 10;
    }
    start -= 1;
    buffer[start] = b'0' + front as u8;
    start
}

// Writes the digits of a number of up to 128 bits at the end of the buffer, and returns where they begin.
fn fill_wide_digits(buffer: &mut [u8], number: u128) -> usize
    requires { length (decimal number) ≤ length buffer.old }
    ensures within { result ≤ length buffer.new }
    ensures digits { drop result buffer.new ≡ decimal number }
{
    let mut start = buffer.len();
    let mut front = number;
    while front > u128::from(u64::MAX) {
        start -= 1;
        buffer[start] = b'0' + (front % 10) as u8;
        front /= 10;
    }
    fill_digits(&mut buffer[..start], front as u64)
}
