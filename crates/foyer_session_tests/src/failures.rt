//! One read or write that fails, or is interrupted, in the middle of a script.

use crate::sim::{PRINTED, SCRIPT, session_of_two};
use crate::streams::{Parts, Slow};
use foyer_core::Stats;
use foyer_session::simulate;
use foyer_session::text::{flush_out, write_number, write_out};
use std::alloc::Global;
use std::io::ErrorKind;
use std::test::Fail;

// What was written, and how the run ended.
type Run = (Vec<u8>, Result<(), ErrorKind>);

// A run in which this call of `fill_buf` fails so.
fn run_with_failed_read(alloc: Global, at: u64, kind: ErrorKind) -> Result<Run, Fail> {
    let mut reader = Parts::new(SCRIPT, 7);
    reader.fails_at = at;
    reader.kind = kind;
    let mut written = Vec::new(alloc);
    let mut session = session_of_two(alloc)?;
    let ended = simulate(
        &mut reader,
        &mut written,
        &mut session,
        &mut Stats::default(),
    );
    Ok((written, ended.map_err(|e| e.kind())))
}

// A run in which this call of `write` fails so, of a writer that takes three bytes at a time.
fn run_with_failed_write(alloc: Global, at: u64, kind: ErrorKind) -> Result<Run, Fail> {
    let mut lines = SCRIPT;
    let mut writer = Slow::new(alloc, 3);
    writer.fails_at = at;
    writer.kind = kind;
    let mut session = session_of_two(alloc)?;
    let ended = simulate(&mut lines, &mut writer, &mut session, &mut Stats::default());
    Ok((writer.taken, ended.map_err(|e| e.kind())))
}

#[test]
fn a_failed_read_leaves_whole_replies(rt: HostRuntime) -> Result<(), Fail> {
    let kind = ErrorKind::UnexpectedEof;
    for at in 1..20 {
        let (written, ended) = run_with_failed_read(rt.alloc(), at, kind)?;
        let written = written.as_slice();
        assert_eq!(rt; ended, Err(kind), "at call {at}");
        assert!(rt; PRINTED.starts_with(written), "at call {at}");
        assert!(rt;
            written.is_empty() || written.ends_with(b"\n"),
            "at call {at}"
        );
    }
    Ok(())
}

#[test]
fn an_interrupted_read_is_made_again(rt: HostRuntime) -> Result<(), Fail> {
    for at in 1..20 {
        let (written, ended) = run_with_failed_read(rt.alloc(), at, ErrorKind::Interrupted)?;
        assert_eq!(rt; ended, Ok(()), "at call {at}");
        assert_eq!(rt; written.as_slice(), PRINTED, "at call {at}");
    }
    Ok(())
}

#[test]
fn a_failed_write_has_written_a_beginning(rt: HostRuntime) -> Result<(), Fail> {
    let kind = ErrorKind::StorageFull;
    for at in 1..90 {
        let (written, ended) = run_with_failed_write(rt.alloc(), at, kind)?;
        assert_eq!(rt; ended, Err(kind), "at call {at}");
        assert!(rt; PRINTED.starts_with(written.as_slice()), "at call {at}");
    }
    Ok(())
}

#[test]
fn an_interrupted_write_is_made_again(rt: HostRuntime) -> Result<(), Fail> {
    for at in 1..90 {
        let (written, ended) = run_with_failed_write(rt.alloc(), at, ErrorKind::Interrupted)?;
        assert_eq!(rt; ended, Ok(()), "at call {at}");
        assert_eq!(rt; written.as_slice(), PRINTED, "at call {at}");
    }
    Ok(())
}

#[test]
fn a_text_is_written_as_far_as_the_writer_takes_it(rt: HostRuntime) -> Result<(), Fail> {
    let mut writer = Slow::new(rt.alloc(), 3);
    write_out(&mut writer, b"hello world")?;
    flush_out(&mut writer)?;
    assert_eq!(rt; writer.taken.as_slice(), b"hello world".as_slice());
    assert_eq!(rt; writer.handed.as_slice(), [11].as_slice());

    let mut writer = Slow::new(rt.alloc(), 3);
    writer.fails_at = 3;
    let ended = write_out(&mut writer, b"hello world").map_err(|e| e.kind());
    assert_eq!(rt; ended, Err(ErrorKind::Other));
    assert_eq!(rt; writer.taken.as_slice(), b"hello ".as_slice());

    let ended = write_number(&mut Slow::new(rt.alloc(), 0), 5).map_err(|e| e.kind());
    assert_eq!(rt; ended, Err(ErrorKind::WriteZero));
    Ok(())
}
