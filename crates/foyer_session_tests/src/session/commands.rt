// Handles, pieces and all records.

use super::*;

#[test]
fn a_handle_is_cloned_counted_and_outdated(rt: HostRuntime) -> Result<(), Fail> {
    let mut session = filled(rt.alloc(), 1)?;
    assert_eq!(rt;
        handed_out(&answer(&mut session, Plain::Clone(0))?),
        Some((1, 10))
    );
    assert!(rt; answer(&mut session, Plain::Refs(0))? == Answer::Number(2));
    assert!(rt; answer(&mut session, Plain::Outdated(1))? == Answer::No);
    answer(&mut session, Plain::Remove(1))?;
    assert!(rt; answer(&mut session, Plain::Outdated(1))? == Answer::Yes);
    assert!(rt; answer(&mut session, Plain::Drop(0))? == Answer::Done);
    for gone in [
        Plain::Clone(0),
        Plain::Refs(0),
        Plain::Outdated(0),
        Plain::TakePiece(0),
    ] {
        assert!(rt; answer(&mut session, gone)? == Answer::NotHeld);
    }
    Ok(())
}

#[test]
fn a_record_that_left_comes_in_by_its_piece(rt: HostRuntime) -> Result<(), Fail> {
    let mut session = filled(rt.alloc(), 1)?;
    assert!(rt; answer(&mut session, Plain::TakePiece(0))? == Answer::PieceNo(0));
    answer(&mut session, Plain::Remove(1))?;
    answer(&mut session, Plain::Drop(0))?;
    answer(&mut session, Plain::Drop(1))?;
    assert_eq!(rt; session.entries(), 0);
    assert_eq!(rt;
        handed_out(&answer(&mut session, Plain::InsertPiece(0, 0))?),
        Some((2, 10))
    );
    assert_eq!(rt; session.entries(), 1);
    assert!(rt; answer(&mut session, Plain::InsertPiece(0, 1))? == Answer::NotHeld);
    Ok(())
}

#[test]
fn a_predicate_takes_held_records_out(rt: HostRuntime) -> Result<(), Fail> {
    let mut session = filled(rt.alloc(), 4)?;
    let reply = session.step(Plain::FlushIf(EvenKeys))?;
    assert!(rt; reply.answer == Answer::Done);
    assert_eq!(rt;
        keys_that_left(rt.alloc(), &reply)?.as_slice(),
        [2, 4].as_slice()
    );
    assert!(rt; answer(&mut session, Plain::Outdated(1))? == Answer::Yes);
    assert!(rt; answer(&mut session, Plain::Outdated(2))? == Answer::No);
    Ok(())
}

#[test]
fn the_sums_are_told(rt: HostRuntime) -> Result<(), Fail> {
    let mut session = filled(rt.alloc(), 3)?;
    answer(&mut session, Plain::Resize(0, 2))?;
    assert!(rt; answer(&mut session, Plain::Capacity)? == Answer::Number(2));
    assert!(rt; answer(&mut session, Plain::Usage)? == Answer::Number(2));
    assert!(rt; answer(&mut session, Plain::Entries)? == Answer::Number(2));
    assert_eq!(rt;
        (session.usage(), session.entries(), session.hash(&7)),
        (2, 2, 7)
    );
    Ok(())
}

#[test]
fn commands_can_be_shown(rt: HostRuntime) -> Result<(), Fail> {
    let shown = format!(in rt.alloc(); "{:?}", Plain::FlushIf(EvenKeys))?;
    assert_eq!(rt; shown.as_str(), "FlushIf(EvenKeys)");
    Ok(())
}
