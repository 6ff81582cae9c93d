//! What was written is handed on before each read that may wait.

use crate::sim::session_of_two;
use crate::streams::{Parts, Slow};
use foyer_core::Stats;
use foyer_session::simulate;
use std::alloc::Global;
use std::io::{BufRead, BufReader, ErrorKind};
use std::test::Fail;

const LINES: &[u8] = b"insert 1 10\ninsert 2 20\ncontains 01\n";

// The replies to these are 27, 27 and 28 bytes long.
const ENDS: [usize; 4] = [0, 27, 54, 82];

// How many bytes were written at each flush, by a writer that takes every byte.
fn flushes<R: BufRead>(alloc: Global, reader: &mut R) -> Result<Vec<usize>, Fail> {
    let mut writer = Slow::new(alloc, usize::MAX);
    let mut session = session_of_two(alloc)?;
    simulate(reader, &mut writer, &mut session, &mut Stats::default())?;
    Ok(writer.handed)
}

#[test]
fn a_reply_is_handed_on_before_the_next_read(rt: HostRuntime) -> Result<(), Fail> {
    let flushes = flushes(rt.alloc(), &mut Parts::new(LINES, 12))?;
    assert_eq!(rt; flushes.as_slice(), ENDS.as_slice());
    Ok(())
}

#[test]
fn lines_that_stand_in_the_buffer_are_handed_on_together(rt: HostRuntime) -> Result<(), Fail> {
    let flushes = flushes(rt.alloc(), &mut Parts::new(LINES, 36))?;
    assert_eq!(rt; flushes.as_slice(), [0, 82].as_slice());
    Ok(())
}

// The buffer has a line and the beginning of the next one, and then the rest.
#[test]
fn a_cut_line_is_waited_for_with_nothing_held_back(rt: HostRuntime) -> Result<(), Fail> {
    let mut reader = BufReader::with_capacity(rt.alloc(), 18, LINES)?;
    let flushes = flushes(rt.alloc(), &mut reader)?;
    assert_eq!(rt; flushes.as_slice(), [0, 27, 82].as_slice());
    Ok(())
}

// How a run ends in which this flush fails so.
fn run_with_failed_flush(
    alloc: Global,
    at: usize,
    kind: ErrorKind,
) -> Result<Result<(), ErrorKind>, Fail> {
    let mut reader = Parts::new(LINES, 12);
    let mut writer = Slow::new(alloc, usize::MAX);
    writer.flush_fails_at = at;
    writer.kind = kind;
    let mut session = session_of_two(alloc)?;
    let ended = simulate(
        &mut reader,
        &mut writer,
        &mut session,
        &mut Stats::default(),
    );
    Ok(ended.map_err(|e| e.kind()))
}

#[test]
fn a_failed_flush_fails_the_run(rt: HostRuntime) -> Result<(), Fail> {
    let kind = ErrorKind::StorageFull;
    for at in 1..5 {
        let ended = run_with_failed_flush(rt.alloc(), at, kind)?;
        assert_eq!(rt; ended, Err(kind), "at flush {at}");
    }
    Ok(())
}

#[test]
fn an_interrupted_flush_is_made_again(rt: HostRuntime) -> Result<(), Fail> {
    for at in 1..5 {
        let ended = run_with_failed_flush(rt.alloc(), at, ErrorKind::Interrupted)?;
        assert_eq!(rt; ended, Ok(()), "at flush {at}");
    }
    Ok(())
}
