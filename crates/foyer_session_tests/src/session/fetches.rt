// Fetches of a key, and how they end.

use super::*;
use foyer_policy::{Fault, Source};
use foyer_session::End;
use std::sync::Arc;

// Two ask for the key 7, of whom the second brings a builder.
pub(super) fn two_wait(rt: &impl Abort, session: &mut SessionOf<Fifo>) -> Result<(), Fail> {
    let lead = answer(session, Plain::GetOrFetch(0, 7, None))?;
    assert!(rt; lead == Answer::Lead { fetch: 0, token: 0 });
    let wait = answer(session, Plain::GetOrFetch(0, 7, Some(30)))?;
    assert!(rt; wait == Answer::Wait { token: 1 });
    assert!(rt; answer(session, Plain::IsOpen(7, 0))? == Answer::Yes);
    Ok(())
}

// Both who waited got nothing, for the reason of this number where there is one.
fn assert_nothing(rt: &impl Abort, answer: &Given, reason: Option<u8>) {
    let Answer::Answered { answers, record } = answer else {
        panic!(rt; "nobody is answered");
    };
    assert!(rt; record.is_none());
    assert_eq!(rt; answers.fault().map(|error| error.number()), reason);
    assert_two_got(rt, answers, [None, None]);
}

fn fault(alloc: Global) -> Result<Arc<Fault, Global>, Fail> {
    let message = String::from_str(alloc, "no route")?;
    Ok(Arc::new(alloc, Fault { code: 5, message })?)
}

#[test]
fn a_value_answers_all(rt: HostRuntime) -> Result<(), Fail> {
    let mut session = session::<Fifo>(rt.alloc(), 4)?;
    two_wait(&rt, &mut session)?;
    let end = End::Value(70, CacheProperties::default(), Source::Outer);
    let reply = session.step(Plain::Complete(0, 7, 0, end))?;
    let Answer::Answered { answers, record } = &reply.answer else {
        panic!(rt; "nobody is answered");
    };
    assert_eq!(rt; record.as_ref().map(|record| *record.value()), Some(70));
    assert_two_got(&rt, answers, [Some(0), Some(1)]);
    assert!(rt; answer(&mut session, Plain::IsOpen(7, 0))? == Answer::No);
    Ok(())
}

#[test]
fn a_piece_answers_all(rt: HostRuntime) -> Result<(), Fail> {
    let mut session = session::<Fifo>(rt.alloc(), 4)?;
    answer(&mut session, insert(7, 70))?;
    answer(&mut session, Plain::TakePiece(0))?;
    answer(&mut session, Plain::Remove(7))?;
    two_wait(&rt, &mut session)?;
    let unknown = answer(&mut session, Plain::Complete(0, 7, 0, End::PieceNo(1)))?;
    assert!(rt; unknown == Answer::NotHeld);
    let answered = answer(&mut session, Plain::Complete(0, 7, 0, End::PieceNo(0)))?;
    let Answer::Answered { answers, .. } = &answered else {
        panic!(rt; "nobody is answered");
    };
    assert_two_got(&rt, answers, [Some(2), Some(3)]);
    assert!(rt; answer(&mut session, Plain::Refs(3))? == Answer::Number(4));
    Ok(())
}

#[test]
fn a_fault_is_of_all(rt: HostRuntime) -> Result<(), Fail> {
    let mut session = session::<Fifo>(rt.alloc(), 4)?;
    two_wait(&rt, &mut session)?;
    let failed = answer(&mut session, Plain::Fail(7, 0, fault(rt.alloc())?))?;
    assert_nothing(&rt, &failed, Some(11));
    let again = answer(&mut session, Plain::Fail(7, 0, fault(rt.alloc())?))?;
    assert!(rt; again == Answer::Lost);
    Ok(())
}

#[test]
fn a_fetch_goes_on_with_the_builder_that_is_kept(rt: HostRuntime) -> Result<(), Fail> {
    let mut session = session::<Fifo>(rt.alloc(), 4)?;
    two_wait(&rt, &mut session)?;
    assert!(rt; answer(&mut session, Plain::FetchOrTake(7, 0, None))? == Answer::Later(30));
    assert!(rt; answer(&mut session, Plain::IsOpen(7, 0))? == Answer::Yes);
    assert_nothing(
        &rt,
        &answer(&mut session, Plain::FetchOrTake(7, 0, None))?,
        None,
    );
    assert!(rt; answer(&mut session, Plain::FetchOrTake(7, 0, None))? == Answer::Lost);
    Ok(())
}
